//! The tests of an endpoint: `function_blocks`, `ci_messages`, `ci_initiator` and `ump_endpoint`. They are in
//! a crate of their own, since the gate proves a crate with tests a second time.
#![tactic(auto)]

#[cfg(test)]
mod tests;
