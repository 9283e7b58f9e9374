//! Reads streams for the library for C, as safe functions: the parser of MIDI 1.0 bytes, the packer of
//! USB-MIDI events and the join of 8-bit exclusives. Each writes to the caller's buffers and returns a
//! status.
//!
//! Start with [`CParser`], [`CUsb`] or [`CSysex8`]. `new` allocates; `byte` or `packet` takes one item, and
//! `bytes` or `packets` take many.
#![tactic(auto)]

pub mod parser;
mod reader;
pub mod sysex8;
pub mod usb;

pub use crate::parser::{CParser, parser_size};
pub use crate::sysex8::{CSysex8, JoinedPart};
pub use crate::usb::{CUsb, CarriedBytes, split_event, usb_size};
