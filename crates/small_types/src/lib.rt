//! Defines the small types that all other crates use. [`U4`] is a number from 0 to 15, [`ShortList`] and
//! [`ByteBuffer`] are lists of a fixed capacity that need no heap memory, and [`NoMemory`] is the error of
//! a call that runs out of memory.
//!
//! ```
//! let channel = U4::new(9); // `Some`, since 9 is below 16
//! ```
#![tactic(auto)]

pub mod byte_buffer;
pub mod few_bits;
pub mod lent;
pub mod no_memory;
pub mod short_list;

pub use crate::byte_buffer::ByteBuffer;
pub use crate::few_bits::U4;
pub use crate::lent::LentU4;
pub use crate::no_memory::NoMemory;
pub use crate::short_list::ShortList;
