//! The tests of the numbers, the words, the bytes and the packets: `voice_messages`, `packet_words`,
//! `ump_words`, `midi1_bytes`, `midi_meaning`, `ump_grammar` and `system_stream`. They are in a crate of
//! their own, since the gate proves a crate with tests a second time.
#![tactic(auto)]

#[cfg(test)]
mod tests;
