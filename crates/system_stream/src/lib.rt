//! Reads and writes the stream messages of the Universal MIDI Packet format, and cuts and joins their
//! texts.
//!
//! Start with [`StreamMessage`], and with [`read`] and [`write`]. [`TextJoin`] joins a text from its
//! packets, and [`cut_text`] cuts a text into packets.
#![tactic(auto)]

pub mod cutting;
pub mod joined;
pub mod joining;
pub mod laws;
pub mod message;
pub mod reading;
pub mod texts;
pub mod writing;

pub use crate::cutting::{cut_text, packet_count};
pub use crate::joined::Joined;
pub use crate::joining::TextJoin;
pub use crate::laws::{
    cut_packets_are_read, cut_text_is_joined, joined_parts_are_the_definition,
    written_messages_are_read,
};
pub use crate::message::{BadFormat, StreamMessage};
pub use crate::reading::read;
pub use crate::texts::TextKind;
pub use crate::writing::write;
