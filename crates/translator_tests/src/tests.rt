// Packets and bytes that are translated. Of control changes, of bytes that are raised and of events there is
// what no row of `worked_rows` tells.
mod counts;
mod events;
mod refused;
mod selections;

use std::fmt::{Debug, Display};
use std::process::Abort;

// Fails if what was found is not what is expected, and prints both. A function of its own is proved once,
// `assert_eq!` at each place.
fn is_same<T: PartialEq + Debug>(rt: &impl Abort, found: &T, expected: &T) {
    assert_eq!(rt; *found, *expected);
}

// The same in a row of a table, which it names.
fn is_same_in<T: PartialEq + Debug>(rt: &impl Abort, row: &impl Display, found: &T, expected: &T) {
    assert_eq!(rt; *found, *expected, "{row}");
}
