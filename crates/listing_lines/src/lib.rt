//! Writes the lines of the listing to the notes, for the passes: lines for single packets and bytes, and
//! lines for exclusives that are still open at the end. It also returns the end of a pass that refuses its
//! input.
//!
//! Start with [`put_listed`], which writes the line for one packet, if there is one, and [`list_open`], for
//! the end of an input.
#![tactic(auto)]

mod lines;
mod open;
mod refusal;

pub use crate::lines::{put_line, put_lines, put_listed};
pub use crate::open::{OpenExclusives, list_open};
pub use crate::refusal::refused;
