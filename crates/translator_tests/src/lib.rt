//! The tests of `up_translator` with `param_collector` and `usb_midi1`, and of `self_test`. They are in a crate
//! of their own, since the gate proves a crate with tests a second time. The rows of `worked_rows` tell of
//! `down_translator`.
#![tactic(auto)]

#[cfg(test)]
mod tests;
