//! The tests of `voice_state`, in a separate crate, because the gate proves a crate that contains tests
//! twice.
#![tactic(auto)]

#[cfg(test)]
mod room_tests;
#[cfg(test)]
mod tests;
