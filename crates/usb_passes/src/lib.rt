//! Runs the USB-MIDI 1.0 commands over whole inputs: splits the events of a recording into the stream of each
//! cable, and packs a byte stream into the events of one cable.
//!
//! Start with [`run_split`], or with [`PackRun`], whose `new` allocates, and [`run_pack`].
#![tactic(auto)]

pub mod laws;
mod pack;
mod split;

pub use crate::pack::{PackRun, run_pack};
pub use crate::split::run_split;
