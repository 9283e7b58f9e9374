//! Defines the objects outside the program, which it reads from and writes to, and the errors that they
//! return.
//!
//! Start with the traits [`Source`] and [`Sink`], for bytes, and [`Lanes`], for the MIDI 1.0 streams of the
//! sixteen groups. `midi_edge` implements them in memory and over readers, writers and files.
#![tactic(auto)]

pub mod laws;
pub mod objects;

pub use crate::objects::{Failed, Lanes, OpenFault, ReadStop, Shelf, Sink, Source};
