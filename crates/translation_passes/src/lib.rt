//! Runs the translators over whole inputs, for the program and for others: a recording down, a byte stream
//! up, and a byte stream up and down again.
//!
//! Start with [`run_down`], [`run_up`] or [`run_back`]. Each takes a run that its `new` has created with all
//! memory (for example [`DownRun`]), an input, and the places to write to, and returns a `pass_loop::RunEnd`.
#![tactic(auto)]

mod back;
mod down;
pub mod laws;
mod raised;
mod up;

pub use crate::back::{BackRun, run_back};
pub use crate::down::{DownRun, run_down};
pub use crate::up::{UpRun, run_up};
