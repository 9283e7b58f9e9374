// Reads the command from the matches, by the rules that `clap` doesn't check.
ghost use Rattle.std.specs.Prelude.{◌≡◌, None, Some, IfOk, IfSome, map, option_map, option_and_then, string_bytes};
ghost use Rattle.clap.specs.Words.{found_of, rows_of};
ghost use Rattle.clap.specs.Simple.{subcommand_rows_of};
ghost use Rattle.command_line.specs.Asked.{asked_of};
ghost use Rattle.command_line.specs.Rules.{IsInRange, asked_in, asked_in_rest, command_of};

use crate::command::{Command, WordsFault};
use crate::endpoint::endpoint;
use crate::matches::matches_of;
use crate::rehearse::rehearse;
use crate::self_test::self_test;
use crate::show::show;
use crate::sysex8::sysex8;
use crate::translate::translate;
use crate::usb::usb;
use clap::ArgMatches;
use std::alloc::Global;

// Returns the command for a subcommand's name and matches.
fn command_in<'a>(name: &str, matches: &ArgMatches<'a>) -> Option<Command<'a>>
    ensures command { option_map asked_of result ≡ asked_in name.now (rows_of (found_of matches.now)) }
    ensures range { IfSome result (λ c. IsInRange (asked_of c)) }
{
    if name == "translate" {
        translate(matches)
    } else if name == "show" {
        show(matches)
    } else if name == "endpoint" {
        endpoint(matches)
    } else if name == "usb" {
        usb(matches)
    } else {
        command_in_rest(name, matches)
    }
}

// Returns the command for a subcommand's name and matches, if `command_in` doesn't know the name.
fn command_in_rest<'a>(name: &str, matches: &ArgMatches<'a>) -> Option<Command<'a>>
    ensures command { option_map asked_of result
        ≡ asked_in_rest name.now (rows_of (found_of matches.now)) }
    ensures range { IfSome result (λ c. IsInRange (asked_of c)) }
{
    if name == "sysex8" {
        sysex8(matches)
    } else if name == "rehearse" {
        rehearse(matches)
    } else if name == "clip" {
        Some(Command::Clip)
    } else if name == "selftest" {
        self_test(matches)
    } else {
        None
    }
}

// Returns the command for the matches of the whole line.
fn command_below<'a>(matches: &ArgMatches<'a>) -> Option<Command<'a>>
    ensures command { option_map asked_of result
        ≡ option_and_then (λ p. asked_in p.0 p.1) (subcommand_rows_of matches.now) }
    ensures range { IfSome result (λ c. IsInRange (asked_of c)) }
{
    match matches.subcommand() {
        Some((name, inner)) => command_in(name, inner),
        None => None,
    }
}

/// Parses the arguments, which come without the program's name (own rule). The names of a folder and of a
/// setup are borrowed from the arguments. The name of a setup may be any text, and the name of a folder may
/// be empty.
///
/// Returns `Usage` only if `clap` doesn't accept the arguments, as with a request for help, or if they break
/// one of these rules. Arguments for which `Usage` is returned never give a command.
/// - The direction of a translation is `down`, `up` or `back`. That of USB-MIDI events is `split` or `pack`.
/// - `--folder` is given with `down`, `split` and `sysex8`, and with no other direction.
/// - `--compact` is given only with `down`. `--paired` may be given with any direction of a translation.
/// - `--group` isn't given with `down`. `--cable` and `--room` aren't given with `split`.
/// - `--little` isn't given with `back` or `--bytes`.
/// - A number has 1 to 10 digits and is in its range: a group or a cable 0 to 15 (default 0), a limit of an
///   exclusive 6 to 1,048,576 (default 1,048,576), that of an 8-bit exclusive 13 to 1,048,576, a number of
///   streams 1 to 64 (default 16), a seed 0 to 4,294,967,295, and a number of packets 1 to 1,000,000 (default
///   10,000).
///
/// Returns `NoMemory` if `clap` runs out of memory.
#[tactic(auto, unfolding(crate::specs::Rules::command_of))]
pub fn command_line<'a>(alloc: Global, words: &'a [String]) -> Result<Command<'a>, WordsFault>
    ensures ok { IfOk result (λ c. command_of (map string_bytes words.entry.now) ≡ Some (asked_of c)) }
    ensures usage { result ≡ Err WordsFault.Usage → command_of (map string_bytes words.entry.now) ≡ None }
    ensures range { IfOk result (λ c. IsInRange (asked_of c)) }
{
    let matches = matches_of(alloc, words)?;
    match command_below(&matches) {
        Some(command) => Ok(command),
        None => Err(WordsFault::Usage),
    }
}
