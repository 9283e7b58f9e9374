//! Scales values between 7, 14, 16 and 32 bits: up by the min-centre-max scaling of M2-115-U, and down by
//! taking the upper bits.
//!
//! [`up7`], [`up14`] and [`velocity_up`] scale up. [`down7`], [`down14`], [`velocity_down`] and
//! [`release_down`] scale down.
#![tactic(auto)]

pub mod laws;
pub mod lowering;
pub mod raising;
#[cfg(test)]
mod tests;

pub use crate::lowering::{down7, down14, release_down, velocity_down};
pub use crate::raising::{up, up7, up14, velocity_up};
