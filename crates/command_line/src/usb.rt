// The arguments of `usb split` and `usb pack` (own rules).
ghost use Rattle.std.specs.Prelude.{◌≡◌, IfSome, option_map};
ghost use Rattle.clap.specs.Words.{found_of, rows_of};
ghost use Rattle.command_line.specs.Asked.{asked_of};
ghost use Rattle.command_line.specs.Rules.{IsInRange};
ghost use Rattle.command_line.specs.Usb.{pack_by, split_by, usb_by};

use crate::command::Command;
use crate::matches::{is_given, text};
use crate::numbers::{cable, room};
use crate::subcommand::{Argument, Subcommand};
use clap::ArgMatches;
use small_types::U4;

/// The options of `usb pack`.
#[derive(Clone, Copy, Debug, PartialEq, Eq)]
pub struct PackOptions {
    /// The cable of the events.
    pub cable: U4,
    /// The most bytes of an exclusive between F0 and F7, 6 to 1,048,576.
    pub room: u32,
}

pub const WORDS: Subcommand<'static> = Subcommand {
    name: "usb",
    arguments: &[
        Argument::Positional("direction"),
        Argument::Option("folder"),
        Argument::Option("cable"),
        Argument::Option("room"),
    ],
};

fn split<'a>(matches: &ArgMatches<'a>) -> Option<Command<'a>>
    ensures command { option_map asked_of result ≡ split_by (rows_of (found_of matches.now)) }
    ensures range { IfSome result (λ c. IsInRange (asked_of c)) }
{
    if is_given(matches, "cable") || is_given(matches, "room") {
        return None;
    }
    let folder = text(matches, "folder")?;
    Some(Command::UsbSplit { folder })
}

fn pack<'a>(matches: &ArgMatches<'a>) -> Option<Command<'a>>
    ensures command { option_map asked_of result ≡ pack_by (rows_of (found_of matches.now)) }
    ensures range { IfSome result (λ c. IsInRange (asked_of c)) }
{
    if is_given(matches, "folder") {
        return None;
    }
    Some(Command::UsbPack(PackOptions {
        cable: cable(text(matches, "cable"))?,
        room: room(text(matches, "room"))?,
    }))
}

// Returns the command for the matches of `usb`.
pub fn usb<'a>(matches: &ArgMatches<'a>) -> Option<Command<'a>>
    ensures command { option_map asked_of result ≡ usb_by (rows_of (found_of matches.now)) }
    ensures range { IfSome result (λ c. IsInRange (asked_of c)) }
{
    let direction = text(matches, "direction")?;
    if direction == "split" {
        split(matches)
    } else if direction == "pack" {
        pack(matches)
    } else {
        None
    }
}
