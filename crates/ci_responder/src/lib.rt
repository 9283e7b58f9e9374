//! Answers MIDI-CI messages for the function blocks of a setup: MUIDs, discovery and profiles.
//!
//! Start with [`Responder`]: `new` allocates, and `hear` takes one message that `ci_messages::read` returned,
//! writes the packets of the reply and returns a [`Heard`], which says what the block did. A [`Key`] names a
//! profile.
#![tactic(auto)]

mod action;
mod blocks;
pub mod heard;
mod kept;
pub mod keys;
pub mod laws;
pub mod message;
mod opening;
mod owner;
mod packets;
mod profiles;
mod replying;
mod reset;
pub mod responder;
mod rows;

pub use crate::heard::Heard;
pub use crate::keys::Key;
pub use crate::laws::{
    block_of_a_group_is_the_one, held_is_the_history, responders_stay_of_their_setup,
    rows_stand_in_their_order, switches_stand_alone, views_tell_their_bytes,
};
pub use crate::message::CiMessage;
pub use crate::responder::Responder;
pub use ci_messages::ProfileId;
pub use function_blocks::Place;
