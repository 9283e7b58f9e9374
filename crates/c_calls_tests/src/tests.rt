// What the tests share.
use std::fmt::Debug;
use std::process::Abort;

// Fails if what was found is not what is expected, and prints both. A function of its own is proved once,
// `assert_eq!` at each place.
pub fn is_same<T: PartialEq + Debug>(rt: &impl Abort, found: &T, expected: &T) {
    assert_eq!(rt; *found, *expected);
}
