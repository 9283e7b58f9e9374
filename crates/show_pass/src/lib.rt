//! Shows a whole input as text, for the program and for others: a line for each packet of a recording or each
//! message of a byte stream, and lines for the state in which the input leaves a receiver.
//!
//! Start with [`ShowRun`], whose `new` takes the options and allocates, and [`run_show`], which writes the
//! lines.
#![tactic(auto)]

mod kept_state;
pub mod laws;
mod show;
mod show_bytes;
mod show_packets;
mod texts;

pub use crate::show::{ShowRun, run_show};
