//! Stores each packet as the words that encode it, so that a packet is decoded only if a caller asks for
//! its fields.
//!
//! Start with [`EncodedPacket`]: `new` checks the words, `words` returns them, and `decode` returns the
//! fields.
#![tactic(auto)]

pub mod direct_message;
pub mod encoded;
pub mod exclusive_part;

pub use crate::direct_message::{DirectKind, DirectMessage};
pub use crate::encoded::EncodedPacket;
pub use crate::exclusive_part::ExclusivePart;
