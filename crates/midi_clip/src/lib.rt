//! Follows the clip in a clip file, and returns the time of each packet in ticks.
//!
//! Start with [`Clip`]: `packet` returns the [`ClipStep`] of one more packet. [`header`] reads the header
//! of a file.
#![tactic(auto)]

pub mod clip;
pub mod file_header;
pub mod laws;
pub mod role;
pub mod step;

pub use crate::clip::Clip;
pub use crate::file_header::{HEADER_SIZE, header};
pub use crate::laws::{clips_are_the_definition, worked_rows};
pub use crate::role::{Role, role_of};
pub use crate::step::{ClipFault, ClipStep, Stage};
