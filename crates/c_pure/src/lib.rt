//! Implements the calls of the library for C that need no handle: names for the header's numbers, splitting
//! bytes into packets, a packet's `show` line, the packets of an 8-bit exclusive, and scaling.
//!
//! Start with [`packets_in`] and [`packet_text`].
#![tactic(auto)]

pub mod names;
pub mod packets;
pub mod scaling;
pub mod sysex8;
pub mod text;

pub use crate::names::{heard_name, kind_name, status_name};
pub use crate::packets::packets_in;
pub use crate::scaling::{scale_down, scale_up};
pub use crate::sysex8::sysex8_cut;
pub use crate::text::packet_text;
