//! Keeps the running state for callers in C: the state in which packets or bytes leave a receiver, as plain
//! structs of numbers (facts).
//!
//! Start with [`CPacketState`] or [`CByteState`]. `packet` or `byte` updates the state, and `facts` writes
//! [`FactNumbers`].
#![tactic(auto)]

pub mod bytes;
pub mod fact_numbers;
pub mod state;
pub mod told;

pub use crate::bytes::CByteState;
pub use crate::fact_numbers::FactNumbers;
pub use crate::state::CPacketState;
