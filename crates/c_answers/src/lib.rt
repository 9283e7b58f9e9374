//! The results of the calls of the library for C: statuses, lines of the listing, outcomes of bytes, how far
//! a block call came, and the data that is written to the caller's buffers.
//!
//! Start with [`Status`], [`Block`] and [`ByteOutcome`].
#![tactic(auto)]

pub mod block;
pub mod front;
pub mod kinds;
pub mod laws;
pub mod line;
pub mod outcome;
pub mod status;
pub mod whole;

pub use crate::block::Block;
pub use crate::front::{put_bytes, put_words};
pub use crate::kinds::kind_number;
pub use crate::line::ListingLine;
pub use crate::outcome::ByteOutcome;
pub use crate::status::Status;
pub use crate::whole::framed;
