//! Reads MIDI-CI messages from System Exclusive messages, and writes them.
//!
//! Start with [`read`], which returns the [`CiView`] of an exclusive or a [`CiFault`]. Its field `body` is a
//! [`Body`] with the fields of the message. [`write`] is the inverse. [`Muid`] is the number of a device.
#![tactic(auto)]

mod kind;
pub mod laws;
pub mod muid;
mod positions;
pub mod reading;
pub mod view;
pub mod writing;

pub use crate::kind::Format;
pub use crate::muid::{BROADCAST, Muid};
pub use crate::reading::read;
pub use crate::view::{Address, Body, CiFault, CiView, NO_BLOCK, PROFILE_CONFIGURATION, ProfileId};
pub use crate::writing::write;
