// The arguments of `sysex8` (own rules).
ghost use Rattle.std.specs.Prelude.{◌≡◌, IfSome, option_map};
ghost use Rattle.std.specs.Option.{option_copied};
ghost use Rattle.clap.specs.Words.{found_of, rows_of};
ghost use Rattle.command_line.specs.Asked.{asked_of};
ghost use Rattle.command_line.specs.Rules.{IsInRange};
ghost use Rattle.command_line.specs.Sysex8.{IsRoom8, IsStreamCount, room8_in, streams_in, sysex8_by};

use crate::command::Command;
use crate::matches::{text, word_order};
use crate::numbers::number_or;
use crate::subcommand::{Argument, Subcommand};
use clap::ArgMatches;
use packet_words::Order;

/// The options of `sysex8`.
#[derive(Clone, Copy, Debug, PartialEq, Eq)]
pub struct Sysex8Options {
    /// The most streams that may have an open exclusive at once, 1 to 64.
    pub streams: u8,
    /// The byte order of a word.
    pub order: Order,
    /// The most bytes of an 8-bit exclusive, 13 to 1,048,576.
    pub room: u32,
}

pub const WORDS: Subcommand<'static> = Subcommand {
    name: "sysex8",
    arguments: &[
        Argument::Option("folder"),
        Argument::Option("streams"),
        Argument::Flag("little"),
        Argument::Option("room"),
    ],
};

// Returns the most streams at once, by the text of the option.
fn streams(text: Option<&str>) -> Option<u8>
    ensures number { result ≡ streams_in (option_copied text.entry) }
    ensures range { IfSome result (λ n. IsStreamCount n) }
{
    let value = number_or(text, 1, 64, 16)?;
    Some(value as u8)
}

// Returns the limit of an 8-bit exclusive, by the text of the option.
fn room8(text: Option<&str>) -> Option<u32>
    ensures number { result ≡ room8_in (option_copied text.entry) }
    ensures range { IfSome result (λ n. IsRoom8 n) }
{
    number_or(text, 13, 1_048_576, 1_048_576)
}

// Returns the command for the matches of `sysex8`.
pub fn sysex8<'a>(matches: &ArgMatches<'a>) -> Option<Command<'a>>
    ensures command { option_map asked_of result ≡ sysex8_by (rows_of (found_of matches.now)) }
    ensures range { IfSome result (λ c. IsInRange (asked_of c)) }
{
    let folder = text(matches, "folder")?;
    let options = Sysex8Options {
        streams: streams(text(matches, "streams"))?,
        order: word_order(matches),
        room: room8(text(matches, "room"))?,
    };
    Some(Command::Sysex8 { folder, options })
}
