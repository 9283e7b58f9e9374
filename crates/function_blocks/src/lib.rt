//! Reads the setup of an endpoint and its function blocks from a TOML text, and writes the replies to UMP
//! stream messages.
//!
//! Start with [`Setup`]: `read` reads it from a text and says with a [`SetupFault`] why a text isn't a setup,
//! `answer` writes the replies to one message, and [`Config`] is the protocol in force between messages.
#![tactic(auto)]

mod answers;
mod blocks;
mod endpoint;
mod keys;
pub mod laws;
mod profiles;
pub mod reading;
pub mod rules;
mod setup;
pub mod whole;

pub use crate::laws::{
    protocol_follows_the_requests, replies_are_few, replies_have_four_words, setups_keep_the_rules,
};
pub use crate::reading::MOST_BYTES;
pub use crate::rules::{Rule, SetupFault};
pub use crate::setup::{Block, Config, Identity, Place, Profile};
pub use crate::whole::Setup;
