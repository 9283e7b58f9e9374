// Parses the arguments with `clap`.
ghost use Rattle.std.specs.Prelude.{◌≡◌, true, false, IfOk, map, string_bytes};
ghost use Rattle.std.specs.Option.{option_copied};
ghost use Rattle.clap.specs.Words.{found_of, rows_of};
ghost use Rattle.clap.specs.Simple.{subcommand_of, subcommand_rows_of};
ghost use Rattle.clap.specs.Walk.{first_of};
ghost use Rattle.command_line.specs.Rules.{cli, is_taken};
ghost use Rattle.command_line.specs.Words.{is_given as has_value, is_set, word_order as order_by};

use crate::command::WordsFault;
use crate::parser::parser;
use clap::ArgMatches;
use clap::error::ErrorKind;
use packet_words::Order;
use std::alloc::Global;

// Returns what `clap` finds in the arguments.
pub fn matches_of<'a>(alloc: Global, words: &'a [String]) -> Result<ArgMatches<'a>, WordsFault>
    ensures taken { IfOk result (λ m. is_taken (map string_bytes words.entry.now) ≡ true) }
    ensures matches { IfOk result
        (λ m. subcommand_rows_of m ≡ subcommand_of cli (map string_bytes words.entry.now)) }
    ensures usage { result ≡ Err WordsFault.Usage → is_taken (map string_bytes words.entry.now) ≡ false }
{
    let command = match parser(alloc) {
        Ok(command) => command,
        Err(_) => return Err(WordsFault::NoMemory),
    };
    match command.try_get_matches_from(words) {
        Ok(matches) => Ok(matches),
        Err(error) => Err(fault_of(error.kind())),
    }
}

// Returns the fault for an error of `clap`. A request for help or for the version is a `Usage` fault.
fn fault_of(kind: ErrorKind) -> WordsFault
    ensures memory { kind ≡ ErrorKind.OutOfMemory → result ≡ WordsFault.NoMemory }
    ensures usage { result ≡ WordsFault.Usage → kind ≡ ErrorKind.OutOfMemory → ⊥ }
    ensures other { (kind ≡ ErrorKind.OutOfMemory → ⊥) → result ≡ WordsFault.Usage }
{
    match kind {
        ErrorKind::OutOfMemory => WordsFault::NoMemory,
        _ => WordsFault::Usage,
    }
}

// Returns the value of an option or positional argument, if it is given.
pub fn text<'a>(matches: &ArgMatches<'a>, id: &str) -> Option<&'a str>
    ensures { option_copied result ≡ first_of id.now (rows_of (found_of matches.now)) }
{
    matches.get_str(id)
}

// Returns whether a flag is given.
pub fn is_flag_set(matches: &ArgMatches<'_>, id: &str) -> bool
    ensures { result ≡ is_set id.now (rows_of (found_of matches.now)) }
{
    match text(matches, id) {
        Some(value) => value == "true",
        None => false,
    }
}

// Returns whether an option is given.
pub fn is_given(matches: &ArgMatches<'_>, id: &str) -> bool
    ensures { result ≡ has_value id.now (rows_of (found_of matches.now)) }
{
    text(matches, id).is_some()
}

// Returns the byte order of a word.
pub fn word_order(matches: &ArgMatches<'_>) -> Order
    ensures { result ≡ order_by (rows_of (found_of matches.now)) }
{
    if is_flag_set(matches, "little") {
        Order::Little
    } else {
        Order::Big
    }
}
