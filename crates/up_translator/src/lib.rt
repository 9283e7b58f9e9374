//! Translates the bytes of a MIDI 1.0 stream up to packets of the Universal MIDI Packet format, in one
//! group.
//!
//! Start with [`Up`]: `new` allocates, and `byte` translates one byte and returns a [`Raised`], which has
//! the packet or the payload, and the lines. [`RaisedPacket`] is a packet, as it is written.
#![tactic(auto)]

mod direct_message;
mod direct_words;
pub mod laws;
mod outcome;
pub mod raised;
pub mod raised_packet;
mod raiser;
pub mod up;
mod voice;

pub use crate::direct_message::DirectVoice;
pub use crate::raised::Raised;
pub use crate::raised_packet::RaisedPacket;
pub use crate::up::{DirectStep, Up};
pub use listing_terms::{ByteLine, ByteLines, byte_lines};
pub use midi_meaning::{BadStep, Kind, Listed, kind_of_cut, kind_of_open};
