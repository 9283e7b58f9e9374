// A setup, the messages of MIDI-CI, an initiator, and packets that an endpoint takes.
mod initiator;
mod messages;
mod packets;
mod setups;

use std::alloc::Global;
use std::fmt::{Debug, Display};
use std::process::Abort;
use std::test::Fail;

// Fails if what was found is not what is expected, and prints both. A function of its own is proved once, but
// `assert_eq!` at each place.
fn is_same<T: PartialEq + Debug>(rt: &impl Abort, found: &T, expected: &T) {
    assert_eq!(rt; *found, *expected);
}

// The same in a row of a table, which it names.
fn is_same_in<T: PartialEq + Debug>(rt: &impl Abort, row: &impl Display, found: &T, expected: &T) {
    assert_eq!(rt; *found, *expected, "{row}");
}

// Whether an error is told so.
fn has_text(rt: &impl Abort, alloc: Global, error: &impl Display, text: &str) -> Result<(), Fail> {
    let told = format!(in alloc; "{error}")?;
    is_same(rt, &told.as_str(), &text);
    Ok(())
}
