//! Cuts an input into the packets that its words spell, for a recording from its start or for a file after
//! its first bytes, and writes the words of packets to the output.
//!
//! Start with [`PacketReader`], which returns decoded packets, or with the faster [`EncodedReader`], which
//! returns packets as the words that encode them. `pass_loop::drive` takes either.
#![tactic(auto)]

mod encoded;
mod endings;
pub mod laws;
mod more;
mod packets;
mod put;

pub use crate::encoded::EncodedReader;
pub use crate::laws::packets_are_cut_once;
pub use crate::packets::{PacketReader, next_packet};
pub use crate::put::put_encoded;
