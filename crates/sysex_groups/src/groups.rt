// The exclusives of sixteen groups.
ghost use Rattle.std.specs.Prelude.{◌≡◌, ◌≤◌, ◌↔◌, ℕ, IfOk, IsTrue, Some, false, is_some, length};
ghost use Rattle.sysex_groups.specs.Exclusives.{IsData, LendsData, ended_by, held};
ghost use Rattle.voice_messages.specs.declared.voice2.Form.TheVariants as form;

use crate::buffer::Buffer;
use crate::fed::Fed;
use small_types::{NoMemory, U4};
use std::alloc::Global;
use std::marker::Model;
use voice_messages::Form;

/// The open exclusives of sixteen groups, each in its own buffer. In contracts its value has, for each
/// group, either nothing or the offset of the packet that began the exclusive, with the bytes joined so
/// far. It also has the limit, `room`: the number of bytes that an exclusive may have between F0 and F7.
///
/// Packets of other kinds don't end an exclusive (own rule), so don't pass them.
#[derive(Drop)]
pub struct Groups {
    buffers: Vec<Buffer>,
    room: u32,
}

impl Model for Groups {
    ghost use Rattle.std.specs.Prelude.{◌≡◌, map, length, All};
    ghost use Rattle.sysex_groups.specs.Buffers.{state_of};
    ghost use Rattle.sysex_groups.specs.Table.{Table};

    ghost Value = { Table };

    ghost view = { λ g. record {
      room = g.room;
      groups = map (λ buffer. (state_of buffer).begun) g.buffers.items;
    } };

    ghost invariant = { λ g. (length g.buffers.items ≡ 16)
        × All (λ buffer. buffer.room ≡ g.room) g.buffers.items };
}

impl Groups {
    ghost use Rattle.sysex_groups.specs.Table.{empty_table, begun_in, answer_to, with_part};
    ghost use Rattle.sysex_groups.specs.Fed.{fed_view};
    ghost use Rattle.sysex_groups.specs.Lend.{KeepsGroups};
    ghost use Rattle.std.specs.Borrow.{sem};
    ghost use Rattle.std.specs.Option.{option_map};

    /// Creates sixteen groups with nothing open. Reserves memory for `room` bytes between F0 and F7 in
    /// each, 6 to 1,048,576 (own rule). No other call allocates memory. Returns `NoMemory` if the memory
    /// can't be allocated.
    pub fn new(alloc: Global, room: u32) -> Result<Groups, NoMemory>
        requires least { 6 ≤ room }
        requires most { room ≤ 1048576 }
        ensures { IfOk result (λ groups. groups ≡ empty_table room) }
    {
        let Ok(mut buffers) = Vec::with_capacity(alloc, 16) else {
            return Err(NoMemory);
        };
        for _ in 0..16usize {
            let Ok(buffer) = Buffer::new(alloc, room) else {
                return Err(NoMemory);
            };
            if buffers.push(buffer).is_err() {
                return Err(NoMemory);
            }
        }
        Ok(Groups { buffers, room })
    }

    /// Drops all open exclusives, so that nothing is open, as in new groups with the same limit (own rule).
    /// Allocates no memory.
    pub fn reset(&mut self)
        ensures { self.new ≡ empty_table self.old.room }
    {
        for buffer in self.buffers.iter_mut() {
            buffer.clear();
        }
    }

    /// Accepts one more part of a group's exclusive: the payload bytes of a packet, at most 6, and the
    /// packet's offset (M2-104-UM, system exclusive 7-bit messages). The offset, in bytes from the start of
    /// the input, is only stored and returned as the start of the exclusive that the packet begins; any
    /// number will do. The result lends the exclusive from F0 to F7. All other groups are unchanged.
    pub fn feed(&mut self, group: U4, form: Form, bytes: &[u8], offset: u64) -> Fed<'_>
        requires few { length bytes.now ≤ 6 }
        requires data_bytes { IsData bytes.now }
        ensures answer { fed_view result ≡
            answer_to self.old (record { group = group; form = form; bytes = bytes.now; offset = offset }) }
        ensures data_bytes { LendsData (fed_view result) }
        ensures* after { sem 𝓛 (KeepsGroups self.entry (with_part
            (record { group = group; form = form; bytes = bytes.now; offset = offset }) self.old)) }
    {
        let index = group.get() as usize;
        let buffer = &mut self.buffers[index];
        buffer.feed(form, bytes, offset)
    }

    /// Returns whether a Continue of six bytes is held, so that `feed` would return `Held` for it: an
    /// exclusive of the group is open, and stays within the limit (M2-104-UM, system exclusive 7-bit
    /// messages). If so, appends the bytes as `feed` does, whatever the offset. Otherwise nothing changes.
    #[inline(always)]
    pub fn holds(&mut self, group: U4, bytes: &[u8; 6]) -> bool
        requires data_bytes { IsData bytes.now }
        ensures answer { IsTrue result ↔ (answer_to self.old
            (record { group = group; form = form.Continue; bytes = bytes.now; offset = 0 }) ≡ held) }
        ensures after { (offset : ℕ) → IsTrue result → self.new ≡ with_part
            (record { group = group; form = form.Continue; bytes = bytes.now; offset = offset }) self.old }
        ensures unchanged { result ≡ false → self.new ≡ self.old }
    {
        self.buffers[group.get() as usize].holds(bytes)
    }

    /// Returns whether a part ends an exclusive of its group, so that `feed` would lend the exclusive: the
    /// part is Complete, or it is the End of an open exclusive that has no more bytes than the limit.
    pub fn ends(&self, group: U4, form: Form, bytes: &[u8]) -> bool
        ensures { result ≡ is_some (ended_by (Some self.now.room) form
            (option_map (λ begun. begun.bytes) (begun_in self.now group)) bytes.now) }
    {
        self.buffers[group.get() as usize].ends(form, bytes)
    }

    /// Returns the offset of the packet that began the group's exclusive, or `None` exactly if nothing is
    /// open.
    pub fn begun_at(&self, group: U4) -> Option<u64>
        ensures { result ≡ option_map (λ begun. begun.start) (begun_in self.now group) }
    {
        self.buffers[group.get() as usize].begun_at()
    }
}
