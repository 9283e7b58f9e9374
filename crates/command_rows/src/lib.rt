//! Reads a row of a command, runs the command over objects in memory, and tells what it leaves. A row is a
//! text of lines: the first ones say what the run is given, and the line that begins with `leaves` and those
//! after it say what it leaves: its status, the bytes of the streams, the output and the notes.
#![tactic(auto)]

mod given;
mod left;
mod texts;

pub use crate::given::{Given, given_of};
pub use crate::left::{Left, left_by, what_is_left};
pub use crate::texts::{push_hex, push_lines, words_of};
