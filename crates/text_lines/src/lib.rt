//! Writes the lines of text of the program: the lines of packets and of the listing. The lines of the command
//! `endpoint` are in `endpoint_lines`, and those of facts, steps and texts in `midi_lines`.
//!
//! Start with [`Line`], which holds one line. [`packet_line`] and [`listing_line`] return a line, and the
//! calls with `fill` in their names write over an existing one.
#![tactic(auto)]

mod decimal;
mod line;
mod listing;
mod packets;
mod put;
mod voice;
mod voice1;
mod voice2;

pub use crate::decimal::{put_decimal, put_number};
pub use crate::line::Line;
pub use crate::listing::{
    byte_listing, fill_byte_listing, fill_listing_line, listing_line, put_group_or_hyphen,
};
pub use crate::packets::{fill_packet_line, packet_line, put_packet_line};
pub use crate::put::{put_hex, put_hex_bytes, put_text};
pub use crate::voice1::{put_system, put_voice1};
pub use crate::voice2::kind_name;
