//! Writes the lines of text for facts about a receiver's state, for the messages of a byte stream and for the
//! texts of stream messages. It also exports the lines of `text_lines` and `endpoint_lines`, so that callers
//! need only this crate.
//!
//! Start with [`Line`], which holds one line. [`fact_line`], [`step_line`] and [`text_line`] return one.
#![tactic(auto)]

mod facts;
mod steps;
mod texts;

pub use crate::facts::{fact_line, fill_fact_line};
pub use crate::steps::{fill_step_line, step_line};
pub use crate::texts::{fill_text_line, text_line};
pub use endpoint_lines::{
    OutcomeName, block_line, endpoint_line, fill_endpoint_line, profile_line, protocol_line,
    word_of,
};
pub use text_lines::{
    Line, byte_listing, fill_byte_listing, fill_listing_line, fill_packet_line, listing_line,
    packet_line, put_decimal, put_packet_line, put_text,
};
