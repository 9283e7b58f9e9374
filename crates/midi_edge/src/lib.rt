//! Implements the objects of `outside`: in memory, for tests, and as adapters over readers, writers,
//! folders and files. It also re-exports `outside` and `small_types`.
//!
//! Start with [`BufferedSource`] and [`WriteSink`] to read and write streams, or with [`MemSource`] and
//! [`MemSink`] in a test.
#![tactic(auto)]

pub mod adapters;
mod kept_text;
pub mod mem_lanes;
pub mod mem_shelf;
pub mod mem_sink;
pub mod mem_source;
mod script;

pub use crate::adapters::{BufferedSource, FileShelf, FolderLanes, ReadSource, WriteSink};
pub use crate::mem_lanes::MemLanes;
pub use crate::mem_shelf::MemShelf;
pub use crate::mem_sink::MemSink;
pub use crate::mem_source::{MemSource, PlainSource};
pub use outside::{Failed, Lanes, OpenFault, ReadStop, Shelf, Sink, Source};
pub use small_types::{LentU4, NoMemory, ShortList, U4};
