//! Runs the translators for a caller that has its own buffers. If a buffer may be too small for a packet or
//! byte, the call refuses it before it takes anything.
//!
//! Start with [`CDown`] or [`CUp`]. `packet` and `byte` take one item; `packets` and `bytes` take many.
//! [`down_size`] and [`up_size`] say how large a buffer has to be.
#![tactic(auto)]

pub mod down;
pub mod exclusive;
pub mod piece;
pub mod up;

pub use crate::down::{CDown, down_size};
pub use crate::exclusive::exclusive_packet;
pub use crate::piece::Piece;
pub use crate::up::{CUp, up_size};
