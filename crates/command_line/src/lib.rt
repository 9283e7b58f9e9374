//! Parses the arguments of the command line with `clap` into a command. Each subcommand has its own file,
//! with its options and how they are parsed.
//!
//! Start with [`command_line`], which returns a [`Command`], or a [`WordsFault`] that says why the arguments
//! give none. For example, `show --little` gives `Command::Show` with little-endian words.
#![tactic(auto)]

mod clip;
mod command;
mod endpoint;
pub mod laws;
mod matches;
mod numbers;
mod parser;
mod reading;
mod rehearse;
mod self_test;
mod show;
mod subcommand;
mod sysex8;
mod translate;
mod usb;

pub use crate::command::{Command, WordsFault};
pub use crate::endpoint::EndpointOptions;
pub use crate::reading::command_line;
pub use crate::self_test::SelfTestOptions;
pub use crate::show::{ByteLineOptions, PacketLineOptions};
pub use crate::sysex8::Sysex8Options;
pub use crate::translate::{BackOptions, DownOptions, LaneStyle, UpOptions};
pub use crate::usb::PackOptions;
