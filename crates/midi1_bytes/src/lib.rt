//! Parses the bytes of a MIDI 1.0 stream into messages, and writes messages as bytes.
//!
//! Start with [`Parser`]: `new` allocates, and `byte` takes one byte and returns a [`Step`].
//! [`write_voice`] and [`write_system`] return the bytes of a message.
#![tactic(auto)]

mod begun;
mod front;
pub mod laws;
mod messages;
pub mod parser;
pub mod slow;
pub mod spoken;
pub mod step;
pub mod writers;

pub use crate::parser::Parser;
pub use crate::spoken::{CommonBytes, RealTimeByte, VoiceBytes};
pub use crate::step::{AfterCut, CutKind, PlainStep, Step};
pub use crate::writers::{write_system, write_voice};
pub use voice_messages::{System, U4, U7, U14, Voice1};
