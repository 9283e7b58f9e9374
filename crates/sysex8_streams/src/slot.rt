// The buffer of one stream.
ghost use Rattle.std.specs.Prelude.{
  ◌≡◌,
  ◌≤◌,
  ◌+◌,
  Some,
  length,
  vec_capacity,
  nat_lt,
  IfOk,
  is_none,
  ◌==◌,
};
ghost use Rattle.sysex8_streams.specs.History.{key_of};

use crate::fed8::Fed8;
use crate::part8::Part8;
use small_types::U4;
use std::alloc::{AllocError, Global};
use sysex_groups::reserved::append;
use voice_messages::Form;

/// The stream that has a slot, and the offset of the packet that began its exclusive.
#[derive(Clone, Copy)]
pub struct Holder {
    group: U4,
    stream: u8,
    start: u64,
}

/// A buffer of `room` bytes, 13 or more, and the stream that uses it for its exclusive, if there is one.
#[derive(Drop)]
pub struct Slot {
    holder: Option<Holder>,
    bytes: Vec<u8>,
    room: u32,
    ghost reserved: { room ≤ vec_capacity bytes },
    ghost whole_packet: { 13 ≤ room },
}

// Returns whether two pairs of a group and a stream id name the same stream.
#[tactic(auto, using(crate::proofs::KeyLaws::key_laws))]
fn is_same(group: U4, stream: u8, other_group: U4, other_stream: u8) -> bool
    ensures { result ≡ (key_of group stream == key_of other_group other_stream) }
{
    group == other_group && stream == other_stream
}

impl Slot {
    ghost use Rattle.sysex8_streams.specs.Slots.{state8_of, slot8_of, idle8, slot_answer, slot_after};
    ghost use Rattle.sysex8_streams.specs.Slots.{IsFor, KeepsSlot};
    ghost use Rattle.sysex8_streams.specs.Table.{is_of as is_slot_of, slot_with};
    ghost use Rattle.sysex8_streams.specs.Fed8.{fed8_view};
    ghost use Rattle.std.specs.Option.{option_map};
    ghost use Rattle.std.specs.Borrow.{sem};
    ghost use Rattle.voice_messages.specs.declared.voice2.Form.TheVariants as form;

    /// Creates an idle slot, with memory for `room` bytes. Returns `AllocError` if the memory can't be
    /// allocated.
    pub fn new(alloc: Global, room: u32) -> Result<Slot, AllocError>
        requires { 13 ≤ room }
        ensures { IfOk result (λ slot. state8_of slot ≡ idle8 room) }
    {
        Ok(Slot {
            holder: None,
            bytes: Vec::with_capacity(alloc, room as usize)?,
            room,
        })
    }

    /// Returns whether no stream has the slot.
    pub fn is_idle(&self) -> bool
        ensures { result ≡ is_none (slot8_of self.now) }
    {
        self.holder.is_none()
    }

    /// Returns whether this stream has the slot.
    pub fn is_of(&self, group: U4, stream: u8) -> bool
        ensures { result ≡ is_slot_of (key_of group stream) (slot8_of self.now) }
    {
        match self.holder {
            Some(holder) => is_same(holder.group, holder.stream, group, stream),
            None => false,
        }
    }

    /// Returns the offset of the packet that began the exclusive, or `None` exactly if the slot is idle.
    pub fn start(&self) -> Option<u64>
        ensures { result ≡ option_map (λ stream. stream.begun.start) (slot8_of self.now) }
    {
        self.holder.map(|holder| holder.start)
    }

    /// Drops the exclusive, so that no stream has the slot. Keeps the memory.
    pub fn clear(&mut self)
        ensures { state8_of self.new ≡ idle8 self.old.room }
    {
        self.holder = None;
        self.bytes.clear();
    }

    /// Begins an exclusive of a stream, which then has the slot.
    pub fn begin(&mut self, part: &Part8, offset: u64)
        ensures { state8_of self.new ≡ record {
          room = self.old.room;
          slot = slot_with (key_of part.now.group part.now.stream)
              (Some (record { start = offset; bytes = part.now.bytes }));
        } }
    {
        self.bytes.clear();
        append(&mut self.bytes, part.bytes.as_slice());
        self.holder = Some(Holder {
            group: part.group,
            stream: part.stream,
            start: offset,
        });
    }

    /// Returns whether the exclusive, with these bytes, would exceed its limit.
    fn passes_room(&self, bytes: &[u8]) -> bool
        ensures { result ≡ nat_lt self.now.room (length self.now.bytes.items + length bytes.now) }
    {
        self.bytes.len() + bytes.len() > self.room as usize
    }

    /// Begins an exclusive of the stream, also if the stream has already begun one.
    fn restart(&mut self, part: &Part8, offset: u64) -> Fed8<'_>
        requires own { IsFor (key_of part.now.group part.now.stream) (slot8_of self.old) }
        ensures answer { fed8_view result ≡ slot_answer (state8_of self.old) form.Start part.now.bytes }
        ensures* after { sem 𝓛 (KeepsSlot self.entry (slot_after (state8_of self.old)
            (key_of part.now.group part.now.stream) form.Start part.now.bytes offset)) }
    {
        let cut_at = self.start();
        self.begin(part, offset);
        match cut_at {
            None => Fed8::Held,
            Some(cut_at) => Fed8::Restarted { cut_at },
        }
    }

    /// Accepts an exclusive of one packet.
    fn complete(&mut self, part: &Part8) -> Fed8<'_>
        requires own { IsFor (key_of part.now.group part.now.stream) (slot8_of self.old) }
        ensures answer { fed8_view result ≡ slot_answer (state8_of self.old) form.Complete part.now.bytes }
        ensures* after { sem 𝓛 (KeepsSlot self.entry (slot_after (state8_of self.old)
            (key_of part.now.group part.now.stream) form.Complete part.now.bytes 0)) }
    {
        let cut_at = self.start();
        self.holder = None;
        self.bytes.clear();
        append(&mut self.bytes, part.bytes.as_slice());
        let whole = self.bytes.as_slice();
        match cut_at {
            None => Fed8::Whole(whole),
            Some(cut_at) => Fed8::RestartedWhole { cut_at, whole },
        }
    }

    /// Continues the exclusive.
    fn go_on(&mut self, part: &Part8) -> Fed8<'_>
        requires own { IsFor (key_of part.now.group part.now.stream) (slot8_of self.old) }
        ensures answer { fed8_view result ≡ slot_answer (state8_of self.old) form.Continue part.now.bytes }
        ensures* after { sem 𝓛 (KeepsSlot self.entry (slot_after (state8_of self.old)
            (key_of part.now.group part.now.stream) form.Continue part.now.bytes 0)) }
    {
        if self.holder.is_none() {
            return Fed8::Stray;
        }
        let bytes = part.bytes.as_slice();
        if self.passes_room(bytes) {
            self.holder = None;
            return Fed8::TooLong;
        }
        append(&mut self.bytes, bytes);
        Fed8::Held
    }

    /// Ends the exclusive.
    fn end(&mut self, part: &Part8) -> Fed8<'_>
        requires own { IsFor (key_of part.now.group part.now.stream) (slot8_of self.old) }
        ensures answer { fed8_view result ≡ slot_answer (state8_of self.old) form.End part.now.bytes }
        ensures* after { sem 𝓛 (KeepsSlot self.entry (slot_after (state8_of self.old)
            (key_of part.now.group part.now.stream) form.End part.now.bytes 0)) }
    {
        let Some(_) = self.holder else {
            return Fed8::Stray;
        };
        let bytes = part.bytes.as_slice();
        let passed = self.passes_room(bytes);
        self.holder = None;
        if passed {
            return Fed8::TooLong;
        }
        append(&mut self.bytes, bytes);
        Fed8::Whole(self.bytes.as_slice())
    }

    /// Accepts one more part of the stream that has the slot. An idle slot accepts a part of any stream.
    pub fn feed(&mut self, part: &Part8, offset: u64) -> Fed8<'_>
        requires own { IsFor (key_of part.now.group part.now.stream) (slot8_of self.old) }
        ensures answer { fed8_view result ≡ slot_answer (state8_of self.old) part.now.form part.now.bytes }
        ensures* after { sem 𝓛 (KeepsSlot self.entry (slot_after (state8_of self.old)
            (key_of part.now.group part.now.stream) part.now.form part.now.bytes offset)) }
    {
        match part.form {
            Form::Complete => self.complete(part),
            Form::Start => self.restart(part, offset),
            Form::Continue => self.go_on(part),
            Form::End => self.end(part),
        }
    }
}
