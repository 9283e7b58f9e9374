//! Answers a MIDI 2.0 peer as a UMP Endpoint does: takes one packet at a time, and returns the replies to
//! stream messages and to MIDI-CI messages.
//!
//! Start with [`Endpoint`]: `new` takes a `function_blocks::Setup` and allocates, and `packet` takes one
//! packet and returns a [`Taken`], which says what the endpoint did. Then `replies` returns the
//! [`ReplyPackets`].
#![tactic(auto)]

mod endpoint;
mod hearing;
pub mod laws;
mod replies;
mod taken;

pub use crate::endpoint::{Endpoint, MOST_REPLY_WORDS};
pub use crate::laws::answers_are_those_of_the_history;
pub use crate::replies::ReplyPackets;
pub use crate::taken::{Outcome, Taken};
pub use ci_messages::CiFault;
pub use ci_responder::{Heard, Key, Place};
pub use listing_terms::{BadStep, Kind, Listed};
