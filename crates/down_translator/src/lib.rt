//! Translates packets of the Universal MIDI Packet format down to the bytes of MIDI 1.0 streams, one stream
//! (lane) per group.
//!
//! Start with [`Down`]: `new` allocates, and `packet` translates one packet and returns a [`Carried`],
//! which has the bytes, the lane and the line. [`Style`] is the way in which the bytes are written.
#![tactic(auto)]

pub mod carried;
pub mod down;
mod kept_lanes;
mod lane;
pub mod laws;
mod listing;
pub mod lowered;
mod midi1_message;
mod pieces;
mod refusals;
mod running;
pub mod shortened;
mod statuses;
pub mod style;
mod uncarried;
mod voice;

pub use crate::carried::Carried;
pub use crate::down::Down;
pub use crate::lowered::LoweredMessage;
pub use crate::shortened::ShortenedMessage;
pub use crate::style::Style;
pub use midi_meaning::{BadStep, Kind, Listed};
