//! The tests of the commands that rows alone can't make: each read and each write fails in turn, what comes
//! after a run, and what is called directly of `clip_pass`, `midi_clip` and `usb_passes`. The rows of
//! `worked_rows` tell of the rest.
#![tactic(auto)]

#[cfg(test)]
mod tests;
