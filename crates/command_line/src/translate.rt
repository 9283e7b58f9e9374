// The arguments of `translate down`, `translate up` and `translate back` (own rules).
ghost use Rattle.std.specs.Prelude.{◌≡◌, IfSome, option_map};
ghost use Rattle.clap.specs.Words.{found_of, rows_of};
ghost use Rattle.command_line.specs.Asked.{asked_of};
ghost use Rattle.command_line.specs.Rules.{IsInRange};
ghost use Rattle.command_line.specs.Translate.{back_by, down_by, lane_style as style_by, translate_by, up_by};

use crate::command::Command;
use crate::matches::{is_flag_set, is_given, text, word_order};
use crate::numbers::{group, room};
use crate::subcommand::{Argument, Subcommand};
use clap::ArgMatches;
use packet_words::Order;
use small_types::U4;

/// How `translate down` writes the messages of a group's stream.
#[derive(Clone, Copy, Debug, PartialEq, Eq)]
pub enum LaneStyle {
    /// Every message is written in full.
    Plain,
    /// What the receiver of the stream already has is left out (`--compact`).
    Compact,
}

/// The options of `translate down`.
#[derive(Clone, Copy, Debug, PartialEq, Eq)]
pub struct DownOptions {
    /// How messages are written.
    pub style: LaneStyle,
    /// Whether each controller 1 to 31, except 6, is read as one value of 14 bits together with the
    /// controller whose index is greater by 32.
    pub paired: bool,
    /// The byte order of a word.
    pub order: Order,
    /// The most bytes of an exclusive between F0 and F7, 6 to 1,048,576.
    pub room: u32,
}

/// The options of `translate up`.
#[derive(Clone, Copy, Debug, PartialEq, Eq)]
pub struct UpOptions {
    /// The group of the packets.
    pub group: U4,
    /// Whether controllers are paired, as in `DownOptions`.
    pub paired: bool,
    /// The byte order of a word.
    pub order: Order,
    /// The most bytes of an exclusive between F0 and F7, 6 to 1,048,576.
    pub room: u32,
}

/// The options of `translate back`.
#[derive(Clone, Copy, Debug, PartialEq, Eq)]
pub struct BackOptions {
    /// The group of the packets.
    pub group: U4,
    /// Whether controllers are paired, as in `DownOptions`.
    pub paired: bool,
    /// The most bytes of an exclusive between F0 and F7, 6 to 1,048,576.
    pub room: u32,
}

pub const WORDS: Subcommand<'static> = Subcommand {
    name: "translate",
    arguments: &[
        Argument::Positional("direction"),
        Argument::Option("folder"),
        Argument::Option("group"),
        Argument::Flag("compact"),
        Argument::Flag("paired"),
        Argument::Flag("little"),
        Argument::Option("room"),
    ],
};

fn lane_style(matches: &ArgMatches<'_>) -> LaneStyle
    ensures { result ≡ style_by (rows_of (found_of matches.now)) }
{
    if is_flag_set(matches, "compact") {
        LaneStyle::Compact
    } else {
        LaneStyle::Plain
    }
}

fn down<'a>(matches: &ArgMatches<'a>) -> Option<Command<'a>>
    ensures command { option_map asked_of result ≡ down_by (rows_of (found_of matches.now)) }
    ensures range { IfSome result (λ c. IsInRange (asked_of c)) }
{
    if is_given(matches, "group") {
        return None;
    }
    let folder = text(matches, "folder")?;
    let options = DownOptions {
        style: lane_style(matches),
        paired: is_flag_set(matches, "paired"),
        order: word_order(matches),
        room: room(text(matches, "room"))?,
    };
    Some(Command::Down { folder, options })
}

fn up<'a>(matches: &ArgMatches<'a>) -> Option<Command<'a>>
    ensures command { option_map asked_of result ≡ up_by (rows_of (found_of matches.now)) }
    ensures range { IfSome result (λ c. IsInRange (asked_of c)) }
{
    if is_given(matches, "folder") || is_flag_set(matches, "compact") {
        return None;
    }
    Some(Command::Up(UpOptions {
        group: group(text(matches, "group"))?,
        paired: is_flag_set(matches, "paired"),
        order: word_order(matches),
        room: room(text(matches, "room"))?,
    }))
}

fn back<'a>(matches: &ArgMatches<'a>) -> Option<Command<'a>>
    ensures command { option_map asked_of result ≡ back_by (rows_of (found_of matches.now)) }
    ensures range { IfSome result (λ c. IsInRange (asked_of c)) }
{
    if is_given(matches, "folder")
        || is_flag_set(matches, "compact")
        || is_flag_set(matches, "little")
    {
        return None;
    }
    Some(Command::Back(BackOptions {
        group: group(text(matches, "group"))?,
        paired: is_flag_set(matches, "paired"),
        room: room(text(matches, "room"))?,
    }))
}

// Returns the command for the matches of `translate`.
pub fn translate<'a>(matches: &ArgMatches<'a>) -> Option<Command<'a>>
    ensures command { option_map asked_of result ≡ translate_by (rows_of (found_of matches.now)) }
    ensures range { IfSome result (λ c. IsInRange (asked_of c)) }
{
    let direction = text(matches, "direction")?;
    if direction == "down" {
        down(matches)
    } else if direction == "up" {
        up(matches)
    } else if direction == "back" {
        back(matches)
    } else {
        None
    }
}
