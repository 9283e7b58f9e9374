//! Tests both translators with packets that a generator draws. Each packet is translated down, its bytes are
//! translated up, and the packets of these bytes are translated down again. The result of a test is four
//! counts.
//!
//! Start with [`count`], which returns the [`Counts`] for a seed and a number of packets. [`Generator`] draws
//! the packets.
#![tactic(auto)]

mod back;
pub mod counts;
mod course;
pub mod generator;
pub mod rows;

pub use crate::counts::{Counts, count};
pub use crate::generator::Generator;
