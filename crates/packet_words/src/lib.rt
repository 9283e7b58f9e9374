//! Reads and writes the 32-bit words of a Universal MIDI Packet. The message type in the first word
//! determines how many words a packet has.
//!
//! Start with [`Words`], the words of a packet, and [`words_in_packet`]. For example,
//! `words_in_packet(0x4090_3C00)` is 2, since packets of message type 4 have two words.
#![tactic(auto)]

pub mod words;

pub use crate::words::{Framed, Order, Words, pair_bytes, words_in_packet, write_words};
