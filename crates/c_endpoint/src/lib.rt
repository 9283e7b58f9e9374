//! Runs the endpoint of the library for C as a safe type: takes packets of a peer, and writes the words of
//! the replies to the caller's buffer.
//!
//! Start with [`CEndpoint`]: `opened` reads the text of a setup and allocates, and `packet` takes one packet
//! and writes [`PacketReplies`].
#![tactic(auto)]

pub mod endpoint;
pub mod heard;
pub mod profile;
pub mod replies;

pub use crate::endpoint::CEndpoint;
pub use crate::heard::heard_number;
pub use crate::profile::EndpointProfile;
pub use crate::replies::PacketReplies;
pub use ump_endpoint::MOST_REPLY_WORDS;
