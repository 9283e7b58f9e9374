//! Runs the command `sysex8` over a whole recording: joins its 8-bit exclusives.
//!
//! Start with [`Sysex8Run`], whose `new` takes the options and allocates, and [`run_sysex8`].
#![tactic(auto)]

mod joining;
pub mod laws;
mod lines;

pub use crate::joining::{Sysex8Run, run_sysex8};
