//! The tests of `text_lines` and `midi_lines`, in a crate of their own: the gate proves a crate with tests a
//! second time.
#![tactic(auto)]

#[cfg(test)]
mod tests;
