//! Runs one pass over an input. The loop is written and proved once for every pass: what it reads, what it
//! writes to which place, and what has been written at each end.
//!
//! Start with [`drive`], which reads an input item by item. A pass gives it an [`Items`], which cuts the
//! input into items, and an [`Engine`], whose `step` does the work on one item. [`RunEnd`] says how the run
//! ended, and [`Outputs`] are the places that are written to.
#![tactic(auto)]

pub mod bytes;
pub mod each_items;
pub mod ends;
pub mod held;
pub mod laws;
pub mod outputs;
pub mod pass;
pub mod places;
pub mod runs;

pub use crate::bytes::LIMIT;
pub use crate::each_items::EachItems;
pub use crate::ends::{Reason, RunEnd};
pub use crate::outputs::{Borrowed, Outputs};
pub use crate::pass::{Engine, Found, Items, More, Next, drive, write_out};
pub use crate::runs::{Runs, drive_bytes};
