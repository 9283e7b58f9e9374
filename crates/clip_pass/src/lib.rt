//! Runs the command `clip` over a whole clip file: shows the events, each at its time in ticks.
//!
//! Start with [`run_clip`].
#![tactic(auto)]

mod clipping;
pub mod laws;
mod lines;

pub use crate::clipping::run_clip;
