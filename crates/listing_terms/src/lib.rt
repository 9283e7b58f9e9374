//! Defines the lines of the listing and the reasons why a message is refused.
//!
//! Start with [`Listed`], one line of the listing, and [`Kind`], the kinds of lines. [`ByteLines`] has the
//! lines of one byte, and [`BadStep`] is the reason why a translator refuses a message.
#![tactic(auto)]

pub mod byte_lines;
pub mod listed;

pub use crate::byte_lines::{ByteLine, ByteLines};
pub use crate::listed::{BadStep, Kind, Listed};
