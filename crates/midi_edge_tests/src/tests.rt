// The objects of the outside, and the reader of bytes over them.
mod adapters;
mod byte_reader;
mod errors;
mod fetching;
mod file_shelf;
mod folder_lanes;
mod folders;
mod mem_shelf;
mod scripted;

use std::fmt::Debug;
use std::process::Abort;

// Fails if what was found is not what is expected, and prints both. A function of its own is proved once,
// `assert_eq!` at each place.
fn is_same<T: PartialEq + Debug>(rt: &impl Abort, found: &T, expected: &T) {
    assert_eq!(rt; *found, *expected);
}
