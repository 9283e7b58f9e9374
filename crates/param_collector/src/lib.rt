//! Tracks the banks and parameters that a MIDI 1.0 stream has set, and returns the result of each control
//! change.
//!
//! Start with [`Collector`]: `new` allocates, and `control` applies one control change and returns a
//! [`Collected`].
#![tactic(auto)]

pub mod collected;
pub mod collector;
pub mod laws;
mod msbs;
mod pairs;

pub use crate::collected::Collected;
pub use crate::collector::Collector;
