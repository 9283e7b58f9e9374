//! Writes the lines of text of the command `endpoint`.
//!
//! Start with [`OutcomeName`], which names what an endpoint did with a message, and [`endpoint_line`].
#![tactic(auto)]

pub mod endpoint;

pub use crate::endpoint::{
    OutcomeName, block_line, endpoint_line, fill_endpoint_line, profile_line, protocol_line,
    word_of,
};
