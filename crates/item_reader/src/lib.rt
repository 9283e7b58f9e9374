//! Cuts a stream of bytes into items of one to sixteen bytes, and reads them one at a time.
//!
//! Start with [`Cut`], which says where an item ends, and [`ItemReader`], which reads the items from a
//! source. [`ByteReader`] reads single bytes.
#![tactic(auto)]

pub mod byte_reader;
pub mod cutting;
pub mod laws;
pub mod reader;
mod window;

pub use crate::byte_reader::{ByteReader, EachByte};
pub use crate::cutting::{Cut, Tail};
pub use crate::laws::{items_are_read_in_order, streams_are_cut_once};
pub use crate::reader::ItemReader;
