// The buffer of one group.
ghost use Rattle.std.specs.Prelude.{
  ◌≡◌,
  ◌↔◌,
  ◌≤◌,
  ◌+◌,
  ◌∷◌,
  ◌++◌,
  ℕ,
  [],
  Some,
  None,
  length,
  take,
  vec_len,
  vec_capacity,
  nat_lt,
  IfOk,
  drop,
  is_some,
  IsTrue,
  false,
};
ghost use Rattle.std.specs.Option.{ForSome};
ghost use Rattle.sysex_groups.specs.Exclusives.{IsData, LendsData, ended_by, framed, held};
ghost use Rattle.voice_messages.specs.declared.voice2.Form.TheVariants as form;

use crate::fed::Fed;
use crate::reserved::append;
use std::alloc::{AllocError, Global};
use voice_messages::{END_OF_EXCLUSIVE, Form, START_OF_EXCLUSIVE};

/// The open exclusive of a group, if there is one. The bytes always begin with F0, and F7 is added at the
/// end. There is memory for `room` bytes between the two.
#[derive(Drop)]
pub struct Buffer {
    start: Option<u64>,
    bytes: Vec<u8>,
    room: u32,
    ghost reserved: { room + 2 ≤ vec_capacity bytes },
    ghost framed: { take 1 bytes.items ≡ 240 ∷ [] },
    ghost whole_packet: { 6 ≤ room },
    ghost data_bytes: { ForSome start (λ _. IsData (drop 1 bytes.items)) },
}

/// Ends the exclusive that begins with F0: appends its last bytes and F7.
fn close(bytes: &mut Vec<u8>, last: &[u8])
    requires begins { take 1 bytes.old.items ≡ 240 ∷ [] }
    requires room { vec_len bytes.old + length last.now + 1 ≤ vec_capacity bytes.old }
    ensures items { bytes.new.items ≡ framed (drop 1 bytes.old.items ++ last.now) }
    ensures capacity { vec_capacity bytes.old ≤ vec_capacity bytes.new }
{
    append(bytes, last);
    append(bytes, &[END_OF_EXCLUSIVE]);
}

impl Buffer {
    ghost use Rattle.sysex_groups.specs.Buffers.{state_of, idle, answer_in, after_in, KeepsState};
    ghost use Rattle.sysex_groups.specs.Fed.{fed_view};
    ghost use Rattle.std.specs.Option.{option_map};
    ghost use Rattle.std.specs.Borrow.{sem};

    /// Creates a buffer with nothing open, and with memory for `room` bytes between F0 and F7.
    pub fn new(alloc: Global, room: u32) -> Result<Buffer, AllocError>
        requires { 6 ≤ room }
        ensures { IfOk result (λ buffer. state_of buffer ≡ idle room) }
    {
        let mut bytes = Vec::with_capacity(alloc, room as usize + 2)?;
        bytes.push(START_OF_EXCLUSIVE)?;
        Ok(Buffer {
            start: None,
            bytes,
            room,
        })
    }

    /// Returns the offset at which the open exclusive starts.
    pub fn begun_at(&self) -> Option<u64>
        ensures { result ≡ option_map (λ begun. begun.start) (state_of self.now).begun }
    {
        self.start
    }

    /// Drops the open exclusive. Only F0 remains in the buffer.
    pub fn clear(&mut self)
        ensures state { state_of self.new ≡ idle (state_of self.old).room }
        ensures bytes { self.new.bytes.items ≡ 240 ∷ [] }
    {
        self.start = None;
        self.bytes.truncate(1);
    }

    /// Returns whether the open exclusive, with these bytes, would exceed its limit.
    #[inline(always)]
    fn passes_room(&self, bytes: &[u8]) -> bool
        ensures { result ≡ nat_lt (self.now.room + 1) (length self.now.bytes.items + length bytes.now) }
    {
        // The buffer also has F0.
        self.bytes.len() + bytes.len() > self.room as usize + 1
    }

    /// Begins an exclusive.
    fn begin(&mut self, bytes: &[u8], offset: u64) -> Fed<'_>
        requires few { length bytes.now ≤ 6 }
        requires data_bytes { IsData bytes.now }
        ensures answer { fed_view result ≡ answer_in (state_of self.old) form.Start bytes.now }
        ensures data_bytes { LendsData (fed_view result) }
        ensures* after { sem 𝓛 (KeepsState self.entry
            (after_in (state_of self.old) form.Start bytes.now offset)) }
    {
        let cut_at = self.start;
        self.clear();
        append(&mut self.bytes, bytes);
        self.start = Some(offset);
        match cut_at {
            None => Fed::Held,
            Some(cut_at) => Fed::Restarted { cut_at },
        }
    }

    /// Accepts an exclusive of one packet.
    fn complete(&mut self, bytes: &[u8]) -> Fed<'_>
        requires few { length bytes.now ≤ 6 }
        requires data_bytes { IsData bytes.now }
        ensures answer { fed_view result ≡ answer_in (state_of self.old) form.Complete bytes.now }
        ensures data_bytes { LendsData (fed_view result) }
        ensures* after { sem 𝓛 (KeepsState self.entry
            (after_in (state_of self.old) form.Complete bytes.now 0)) }
    {
        let cut_at = self.start;
        self.clear();
        close(&mut self.bytes, bytes);
        let whole = self.bytes.as_slice();
        match cut_at {
            None => Fed::Whole(whole),
            Some(cut_at) => Fed::RestartedWhole { cut_at, whole },
        }
    }

    /// Continues the open exclusive.
    fn go_on(&mut self, bytes: &[u8]) -> Fed<'_>
        requires few { length bytes.now ≤ 6 }
        requires data_bytes { IsData bytes.now }
        ensures answer { fed_view result ≡ answer_in (state_of self.old) form.Continue bytes.now }
        ensures data_bytes { LendsData (fed_view result) }
        ensures* after { sem 𝓛 (KeepsState self.entry
            (after_in (state_of self.old) form.Continue bytes.now 0)) }
    {
        if self.start.is_none() {
            return Fed::Stray;
        }
        if self.passes_room(bytes) {
            self.clear();
            return Fed::TooLong;
        }
        append(&mut self.bytes, bytes);
        Fed::Held
    }

    /// Ends the open exclusive.
    fn end(&mut self, bytes: &[u8]) -> Fed<'_>
        requires few { length bytes.now ≤ 6 }
        requires data_bytes { IsData bytes.now }
        ensures answer { fed_view result ≡ answer_in (state_of self.old) form.End bytes.now }
        ensures data_bytes { LendsData (fed_view result) }
        ensures* after { sem 𝓛 (KeepsState self.entry
            (after_in (state_of self.old) form.End bytes.now 0)) }
    {
        let Some(_) = self.start else {
            return Fed::Stray;
        };
        let passed = self.passes_room(bytes);
        self.start = None;
        if passed {
            return Fed::TooLong;
        }
        close(&mut self.bytes, bytes);
        Fed::Whole(self.bytes.as_slice())
    }

    /// Returns whether a part ends an exclusive and its bytes are within the limit.
    pub fn ends(&self, form: Form, bytes: &[u8]) -> bool
        ensures { result ≡ is_some (ended_by (Some self.now.room) form
            (option_map (λ begun. begun.bytes) (state_of self.now).begun) bytes.now) }
    {
        match form {
            Form::Complete => true,
            Form::Start | Form::Continue => false,
            Form::End => self.start.is_some() && !self.passes_room(bytes),
        }
    }

    /// Returns whether a Continue with these bytes is held. If so, appends them.
    #[inline(always)]
    pub fn holds(&mut self, bytes: &[u8]) -> bool
        requires few { length bytes.now ≤ 6 }
        requires data_bytes { IsData bytes.now }
        ensures held { IsTrue result ↔ (answer_in (state_of self.old) form.Continue bytes.now ≡ held) }
        ensures after { (offset : ℕ) → IsTrue result →
            state_of self.new ≡ after_in (state_of self.old) form.Continue bytes.now offset }
        ensures room { self.new.room ≡ self.old.room }
        ensures unchanged { result ≡ false → self.new ≡ self.old }
    {
        if self.start.is_none() || self.passes_room(bytes) {
            return false;
        }
        append(&mut self.bytes, bytes);
        true
    }

    /// Accepts one more part of the group.
    pub fn feed(&mut self, form: Form, bytes: &[u8], offset: u64) -> Fed<'_>
        requires few { length bytes.now ≤ 6 }
        requires data_bytes { IsData bytes.now }
        ensures answer { fed_view result ≡ answer_in (state_of self.old) form bytes.now }
        ensures data_bytes { LendsData (fed_view result) }
        ensures* after { sem 𝓛 (KeepsState self.entry
            (after_in (state_of self.old) form bytes.now offset)) }
    {
        match form {
            Form::Complete => self.complete(bytes),
            Form::Start => self.begin(bytes, offset),
            Form::Continue => self.go_on(bytes),
            Form::End => self.end(bytes),
        }
    }
}
