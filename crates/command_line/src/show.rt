// The arguments of `show` and `show --bytes` (own rules).
ghost use Rattle.std.specs.Prelude.{◌≡◌, IfSome, option_map};
ghost use Rattle.clap.specs.Words.{found_of, rows_of};
ghost use Rattle.command_line.specs.Asked.{asked_of};
ghost use Rattle.command_line.specs.Rules.{IsInRange};
ghost use Rattle.command_line.specs.Show.{bytes_by, packets_by, show_by};

use crate::command::Command;
use crate::matches::{is_flag_set, text, word_order};
use crate::numbers::room;
use crate::subcommand::{Argument, Subcommand};
use clap::ArgMatches;
use packet_words::Order;

/// The options of `show`.
#[derive(Clone, Copy, Debug, PartialEq, Eq)]
pub struct PacketLineOptions {
    /// Whether lines for the receiver's state follow at the end.
    pub state: bool,
    /// The byte order of a word.
    pub order: Order,
    /// The most bytes of an exclusive between F0 and F7, 6 to 1,048,576.
    pub room: u32,
}

/// The options of `show --bytes`.
#[derive(Clone, Copy, Debug, PartialEq, Eq)]
pub struct ByteLineOptions {
    /// Whether lines for the receiver's state follow at the end.
    pub state: bool,
    /// The most bytes of an exclusive between F0 and F7, 6 to 1,048,576.
    pub room: u32,
}

pub const WORDS: Subcommand<'static> = Subcommand {
    name: "show",
    arguments: &[
        Argument::Flag("bytes"),
        Argument::Flag("state"),
        Argument::Flag("little"),
        Argument::Option("room"),
    ],
};

fn packets<'a>(matches: &ArgMatches<'a>) -> Option<Command<'a>>
    ensures command { option_map asked_of result ≡ packets_by (rows_of (found_of matches.now)) }
    ensures range { IfSome result (λ c. IsInRange (asked_of c)) }
{
    Some(Command::Show(PacketLineOptions {
        state: is_flag_set(matches, "state"),
        order: word_order(matches),
        room: room(text(matches, "room"))?,
    }))
}

fn bytes<'a>(matches: &ArgMatches<'a>) -> Option<Command<'a>>
    ensures command { option_map asked_of result ≡ bytes_by (rows_of (found_of matches.now)) }
    ensures range { IfSome result (λ c. IsInRange (asked_of c)) }
{
    if is_flag_set(matches, "little") {
        return None;
    }
    Some(Command::ShowBytes(ByteLineOptions {
        state: is_flag_set(matches, "state"),
        room: room(text(matches, "room"))?,
    }))
}

// Returns the command for the matches of `show`.
pub fn show<'a>(matches: &ArgMatches<'a>) -> Option<Command<'a>>
    ensures command { option_map asked_of result ≡ show_by (rows_of (found_of matches.now)) }
    ensures range { IfSome result (λ c. IsInRange (asked_of c)) }
{
    if is_flag_set(matches, "bytes") {
        bytes(matches)
    } else {
        packets(matches)
    }
}
