//! Reads and writes USB-MIDI 1.0 event packets: splits events into the bytes of each cable, and packs the
//! bytes of a MIDI 1.0 stream into events of one cable.
//!
//! Start with [`EventReader`], whose `next` returns the [`Event`]s of an input (pass each to [`carried`] for
//! its bytes), or with [`Packer`]: `new` allocates, `byte` takes one byte, and [`Packed`] has the events and
//! the lines.
#![tactic(auto)]

pub mod event;
pub mod laws;
pub mod packed;
pub mod packer;
pub mod packing;

pub use crate::event::{EachEvent, Event, EventReader, carried, is_reserved};
pub use crate::packed::{Packed, TooLong};
pub use crate::packer::Packer;
pub use crate::packing::exclusive_event;
