// The exclusives that streams have begun.
ghost use Rattle.std.specs.Prelude.{◌≡◌, ◌≤◌, IfOk, is_none, length, position};
ghost use Rattle.sysex8_streams.specs.History.{key_of};
ghost use Rattle.sysex8_streams.specs.Slots.{slot8_of};
ghost use Rattle.sysex8_streams.specs.Table.{is_of};

use crate::fed8::Fed8;
use crate::part8::Part8;
use crate::slot::Slot;
use small_types::{NoMemory, ShortList, U4};
use std::alloc::Global;
use std::marker::Model;
use voice_messages::Form;

/// The exclusives that streams have begun, each in its own slot. A stream is a group and a stream id. In
/// contracts its value has, for each slot, either nothing or a stream, the offset of the packet that began
/// the stream's exclusive, and the bytes joined so far. It also has the limit, `room`: the number of bytes
/// that an exclusive may have.
///
/// An exclusive of one packet needs no slot, if its stream has none yet.
#[derive(Drop)]
pub struct Streams {
    slots: Vec<Slot>,
    single: ShortList<u8, 13>,
    room: u32,
}

impl Model for Streams {
    ghost use Rattle.std.specs.Prelude.{◌≡◌, map, All};
    ghost use Rattle.sysex8_streams.specs.Slots.{slot8_of};
    ghost use Rattle.sysex8_streams.specs.Table.{Table8};

    ghost Value = { Table8 };

    ghost view = { λ s. record { room = s.room; slots = map slot8_of s.slots.items } };

    ghost invariant = { λ s. All (λ slot. slot.room ≡ s.room) s.slots.items };
}

// Returns the first slot of a stream.
fn find_stream(slots: &[Slot], group: U4, stream: u8) -> Option<usize>
    ensures { result ≡ position (λ slot. is_of (key_of group stream) (slot8_of slot)) slots.now }
{
    slots.iter().position(|slot| slot.is_of(group, stream))
}

// Returns the first slot that no stream has.
fn find_idle(slots: &[Slot]) -> Option<usize>
    ensures { result ≡ position (λ slot. is_none (slot8_of slot)) slots.now }
{
    slots.iter().position(|slot| slot.is_idle())
}

impl Streams {
    ghost use Rattle.sysex8_streams.specs.History.{part_of};
    ghost use Rattle.sysex8_streams.specs.Table.{
      empty_table8,
      begun8_in,
      idle_slot,
      answer8_to,
      with_part8,
    };
    ghost use Rattle.sysex8_streams.specs.Fed8.{fed8_view};
    ghost use Rattle.sysex8_streams.specs.Lend.{KeepsStreams};
    ghost use Rattle.std.specs.Borrow.{sem};
    ghost use Rattle.std.specs.Option.{option_map};

    /// Creates this many idle slots, 1 to 64. Allocates memory for `room` bytes in each, 13 to 1,048,576
    /// (own rules). No other call allocates memory. Returns `NoMemory` if the memory can't be allocated.
    pub fn new(alloc: Global, slots: u8, room: u32) -> Result<Streams, NoMemory>
        requires some { 1 ≤ slots }
        requires few { slots ≤ 64 }
        requires least { 13 ≤ room }
        requires most { room ≤ 1048576 }
        ensures { IfOk result (λ streams. streams ≡ empty_table8 slots room) }
    {
        let Ok(mut buffers) = Vec::with_capacity(alloc, slots as usize) else {
            return Err(NoMemory);
        };
        for _ in 0..slots {
            let Ok(slot) = Slot::new(alloc, room) else {
                return Err(NoMemory);
            };
            if buffers.push(slot).is_err() {
                return Err(NoMemory);
            }
        }
        Ok(Streams {
            slots: buffers,
            single: ShortList::new(),
            room,
        })
    }

    /// Drops all exclusives that streams have begun: all slots are idle, as `new` creates them with the
    /// same arguments (own rule). Allocates no memory.
    pub fn reset(&mut self)
        ensures { self.new ≡ empty_table8 (length self.old.slots) self.old.room }
    {
        for slot in self.slots.iter_mut() {
            slot.clear();
        }
    }

    /// Returns the index of a stream's slot, or `None` exactly if it has none.
    fn slot_of(&self, group: U4, stream: u8) -> Option<usize>
        ensures { result ≡ position (is_of (key_of group stream)) self.now.slots }
    {
        find_stream(&self.slots, group, stream)
    }

    /// Returns the index of the first slot that no stream has, or `None` exactly if all are in use.
    fn idle_slot(&self) -> Option<usize>
        ensures { result ≡ idle_slot self.now.slots }
    {
        find_idle(&self.slots)
    }

    /// Accepts one more part of a stream that has no slot.
    fn take_unbegun(&mut self, part: &Part8, offset: u64) -> Fed8<'_>
        requires { position (is_of (key_of part.now.group part.now.stream)) self.old.slots ≡ None }
        ensures answer { fed8_view result ≡ answer8_to self.old (part_of part.now offset) }
        ensures* after { sem 𝓛 (KeepsStreams self.entry (with_part8 (part_of part.now offset) self.old)) }
    {
        match part.form {
            Form::Complete => {
                self.single = part.bytes.copied();
                Fed8::Whole(self.single.as_slice())
            }
            Form::Start => match self.idle_slot() {
                Some(index) => {
                    self.slots[index].begin(part, offset);
                    Fed8::Held
                }
                None => Fed8::Full,
            },
            Form::Continue | Form::End => Fed8::Stray,
        }
    }

    /// Accepts one more part of a stream, with the packet's offset (M2-104-UM, system exclusive 8-bit
    /// messages). The offset may be any number; it is returned as the start of the exclusive that the part
    /// begins. `Whole` and `RestartedWhole` lend the joined bytes. `Full` changes nothing, and no part
    /// changes another stream.
    pub fn feed8(&mut self, part: &Part8, offset: u64) -> Fed8<'_>
        ensures answer { fed8_view result ≡ answer8_to self.old (part_of part.now offset) }
        ensures* after { sem 𝓛 (KeepsStreams self.entry (with_part8 (part_of part.now offset) self.old)) }
    {
        match self.slot_of(part.group, part.stream) {
            Some(index) => {
                let slot = &mut self.slots[index];
                slot.feed(part, offset)
            }
            None => self.take_unbegun(part, offset),
        }
    }

    /// Returns the offset of the packet that began the stream's exclusive, or `None` exactly if the stream
    /// has begun none.
    pub fn begun8_at(&self, group: U4, stream: u8) -> Option<u64>
        ensures { result ≡ option_map (λ begun. begun.start) (begun8_in self.now (key_of group stream)) }
    {
        match self.slot_of(group, stream) {
            Some(index) => self.slots[index].start(),
            None => None,
        }
    }
}
