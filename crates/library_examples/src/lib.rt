//! The examples of docs/library.md, which use the crates as
//! libraries, word for word. It has nothing but these tests.
#![tactic(auto)]

#[cfg(test)]
mod tests;
