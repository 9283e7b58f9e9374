//! Runs the command `rehearse` over a whole stream of events: a rehearsal between a MIDI-CI initiator and the
//! responder of a setup.
//!
//! Start with [`RehearseRun`], whose `new` takes the setup and allocates, and [`run_rehearse`].
#![tactic(auto)]

pub mod event;
pub mod laws;
mod lines;
mod rehearse;

pub use crate::rehearse::{RehearseRun, run_rehearse};
