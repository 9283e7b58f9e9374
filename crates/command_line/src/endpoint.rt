// The arguments of `endpoint` (own rules).
ghost use Rattle.std.specs.Prelude.{◌≡◌, IfSome, option_map};
ghost use Rattle.clap.specs.Words.{found_of, rows_of};
ghost use Rattle.command_line.specs.Asked.{asked_of};
ghost use Rattle.command_line.specs.Endpoint.{endpoint_by};
ghost use Rattle.command_line.specs.Rules.{IsInRange};

use crate::command::Command;
use crate::matches::{text, word_order};
use crate::numbers::room;
use crate::subcommand::{Argument, Subcommand};
use clap::ArgMatches;
use packet_words::Order;

/// The options of `endpoint`.
#[derive(Clone, Copy, Debug, PartialEq, Eq)]
pub struct EndpointOptions {
    /// The byte order of a word.
    pub order: Order,
    /// The most bytes of an exclusive between F0 and F7, 6 to 1,048,576.
    pub room: u32,
}

pub const WORDS: Subcommand<'static> = Subcommand {
    name: "endpoint",
    arguments: &[
        Argument::Positional("setup"),
        Argument::Flag("little"),
        Argument::Option("room"),
    ],
};

// Returns the command for the matches of `endpoint`.
pub fn endpoint<'a>(matches: &ArgMatches<'a>) -> Option<Command<'a>>
    ensures command { option_map asked_of result ≡ endpoint_by (rows_of (found_of matches.now)) }
    ensures range { IfSome result (λ c. IsInRange (asked_of c)) }
{
    let setup = text(matches, "setup")?;
    let options = EndpointOptions {
        order: word_order(matches),
        room: room(text(matches, "room"))?,
    };
    Some(Command::Endpoint { setup, options })
}
