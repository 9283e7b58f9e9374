//! Asks a MIDI-CI peer about profiles and remembers the answers, and rehearses such a conversation with a
//! responder.
//!
//! Start with [`Initiator`]: `new` takes the profiles to watch, each a [`Watch`], `ask` writes a request (an
//! [`Ask`]), and `hear` takes a message of the peer and returns a [`Noted`]. A [`Rehearsal`] is an initiator,
//! the responder of a setup and the messages that they have sent.
#![tactic(auto)]

pub mod ask;
mod asking;
mod event;
pub mod initiator;
pub mod laws;
mod message;
pub mod noted;
pub mod rehearsal;
mod rows;
mod watch;
mod watching;

pub use crate::ask::Ask;
pub use crate::event::{EventFault, Told};
pub use crate::initiator::Initiator;
pub use crate::noted::Noted;
pub use crate::rehearsal::Rehearsal;
pub use crate::watch::{Watch, watches_differ};
