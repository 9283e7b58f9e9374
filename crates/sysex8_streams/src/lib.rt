//! Joins the 8-bit System Exclusive messages of many streams, each from the packets of its stream, and cuts
//! a payload into packets.
//!
//! Start with [`Streams`]: `new` allocates, and `feed8` accepts one [`Part8`] and returns a [`Fed8`].
//! [`read8`] reads the part in a packet.
#![tactic(auto)]

pub mod fed8;
pub mod laws;
pub mod packets;
pub mod part8;
mod slot;
pub mod streams;

pub use crate::fed8::Fed8;
pub use crate::laws::{cut8_payload_is_joined, fed_streams_are_the_definition, worked_rows};
pub use crate::part8::{Part8, read8};
pub use crate::streams::Streams;
