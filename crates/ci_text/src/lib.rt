//! Writes the MIDI-CI text that several commands share: the word for what a responder did with a message, and
//! the lines for a setup's profiles.
//!
//! Start with [`name_of_heard`] and [`put_profiles`].
#![tactic(auto)]

mod names;
mod profiles;

pub use crate::names::name_of_heard;
pub use crate::profiles::{LinePlace, ProfileStates, put_profiles};
