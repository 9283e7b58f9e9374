// USB-MIDI 1.0 events.
ghost use Rattle.std.specs.Prelude.{◌≡◌, ◌≤◌, length, IfOk, IfSome};
ghost use Rattle.std.specs.List.{concat};
ghost use Rattle.midi1_bytes.specs.Parsing.{idle, open_of};
ghost use Rattle.usb_midi1.specs.Packed.{IsApart, events_in, whole_in};
ghost use Rattle.usb_midi1.specs.Packing.{exclusive_events};
ghost use Rattle.c_answers.specs.Fronts.{with_front};
ghost use Rattle.c_answers.specs.Numbers.{number_of};
ghost use Rattle.c_streams.specs.Readers.{AreBytesTaken, IsByteTaken, IsEnd};
ghost use Rattle.c_streams.specs.Usb.{events, longest_events, IsCarried};

use crate::reader::{ByteReader, take_byte, take_bytes};
use c_answers::laws::exclusives_stay_within_their_limit;
use c_answers::{Block, ByteOutcome, ListingLine, Status, put_bytes};
use item_reader::Cut;
use small_types::{NoMemory, U4};
use std::alloc::Global;
use std::marker::Model;
use usb_midi1::laws::exclusive_events_come_in_order;
use usb_midi1::{EachEvent, Packed, Packer, carried, exclusive_event, is_reserved};

/// Returns the size, in bytes, of a buffer that holds the events of any message, if exclusives have at most
/// `room` bytes between F0 and F7. An exclusive needs four bytes for each three of its bytes, including F0
/// and F7 (own rule).
pub fn usb_size(room: u32) -> usize
    ensures { result ≡ longest_events room }
{
    4 * ((room as usize + 4) / 3)
}

/// The bytes that an event carries.
#[repr(C)]
#[derive(Clone, Copy)]
pub struct CarriedBytes {
    /// The cable number, 0 to 15.
    pub cable: u8,
    /// How many of the event's three bytes are carried, 1 to 3.
    pub length: u8,
    /// The event's three bytes, including those that aren't carried.
    pub bytes: [u8; 3],
}

/// Writes the cable of an event of four bytes, its last three bytes, and how many of them it carries (USB
/// Device Class Definition for MIDI Devices 1.0, event packets). Returns `BadSize` if there are more or fewer
/// than four bytes. Otherwise, returns `Nothing` if the code is reserved. In both cases nothing is written.
pub fn split_event(event: &[u8], split: &mut CarriedBytes) -> Status
    ensures { IsCarried event.now (number_of result) split.old split.new }
{
    if event.len() != 4 {
        return Status::BadSize;
    }
    let (event, _) = EachEvent.item(0, event);
    if is_reserved(&event) {
        return Status::Nothing;
    }
    *split = CarriedBytes {
        cable: event.cable.get(),
        length: carried(&event).as_slice().len() as u8,
        bytes: event.bytes,
    };
    Status::Done
}

// Writes the events of an exclusive, which is given from its F0 to its F7, and returns the number of their
// bytes.
fn put_exclusive(cable: U4, whole: &[u8], buffer: &mut [u8]) -> usize
    requires both_ends { 2 ≤ length whole.now }
    requires fits { length (concat (exclusive_events cable whole.now)) ≤ length buffer.old }
    ensures count { result ≡ length (concat (exclusive_events cable whole.now)) }
    ensures written { buffer.new ≡ with_front (concat (exclusive_events cable whole.now)) buffer.old }
{
    exclusive_events_come_in_order();
    let mut k = 0;
    while let Some(event) = exclusive_event(cable, whole, k) {
        put_bytes(&event, &mut buffer[4 * k..]);
        k += 1;
    }
    4 * k
}

// Writes the events of a byte, and returns the number of their bytes.
fn put_events(packed: Packed<'_>, buffer: &mut [u8]) -> usize
    requires apart { IsApart packed }
    requires both_ends { IfSome (whole_in packed) (λ whole. 2 ≤ length whole) }
    requires fits { length (concat (events_in packed)) ≤ length buffer.old }
    ensures count { result ≡ length (concat (events_in packed.entry)) }
    ensures written { buffer.new ≡ with_front (concat (events_in packed.entry)) buffer.old }
{
    match packed.event {
        Some(event) => put_bytes(&event, buffer),
        None => match packed.whole {
            Some(whole) => put_exclusive(packed.cable(), whole, buffer),
            None => 0,
        },
    }
}

/// A packer of the bytes of one MIDI 1.0 stream into events of one cable, with its limit. In contracts its
/// value is the state of the packer.
#[derive(Drop)]
pub struct CUsb {
    packer: Packer,
    room: u32,
}

impl Model for CUsb {
    ghost use Rattle.std.specs.Prelude.{◌≡◌, ◌≤◌};
    ghost use Rattle.usb_midi1.specs.Held.{PackerState};
    ghost use Rattle.c_answers.specs.Within.{IsWithin};

    ghost Value = { PackerState };

    ghost view = { λ p. p.packer };

    ghost invariant = { λ p. (p.room ≡ p.packer.parsing.room) × (6 ≤ p.room)
        × (p.room ≤ 1048576) × IsWithin p.packer.parsing };
}

impl CUsb {
    /// Creates a packer into events of this cable, for exclusives of `room` bytes between F0 and F7, 6 to
    /// 1,048,576 (own rule). Allocates all the memory that the packer will ever need. Returns `NoMemory` if
    /// there isn't enough.
    pub fn new(alloc: Global, cable: U4, room: u32) -> Result<CUsb, NoMemory>
        requires least { 6 ≤ room }
        requires most { room ≤ 1048576 }
        ensures { IfOk result (λ packer. packer ≡ record { cable = cable; parsing = idle room }) }
    {
        let packer = Packer::new(alloc, cable, room)?;
        Ok(CUsb { packer, room })
    }

    /// Takes one more byte (USB Device Class Definition for MIDI Devices 1.0, code index numbers), as
    /// `take_byte` does. Writes a message as its events, four bytes each, and those of an exclusive all at
    /// once. Any byte may need a buffer for the events of the longest exclusive (`usb_size`).
    pub fn byte(
        &mut self,
        byte: u8,
        offset: u64,
        buffer: &mut [u8],
        outcome: &mut ByteOutcome,
    ) -> Status
        ensures { IsByteTaken events self.old byte offset buffer.old
            (number_of result) outcome.new buffer.new self.new }
    {
        take_byte(self, byte, offset, buffer, outcome)
    }

    /// Takes bytes that follow one another as `take_bytes` does, each as `byte` does.
    pub fn bytes(
        &mut self,
        bytes: &[u8],
        offset: u64,
        buffer: &mut [u8],
        outcomes: &mut [ByteOutcome],
        block: &mut Block,
    ) -> Status
        ensures { AreBytesTaken events self.old offset bytes.now buffer.old outcomes.old
            (number_of result) block.new buffer.new outcomes.new self.new }
    {
        take_bytes(self, bytes, offset, buffer, outcomes, block)
    }

    /// Returns the packer to the state in which `new` creates it with the same arguments: nothing is open,
    /// and there is no running status (own rule). The call doesn't allocate.
    pub fn reset(&mut self)
        ensures { self.new ≡ record { cable = self.old.cable; parsing = idle self.old.parsing.room } }
    {
        self.packer.reset();
    }

    /// Writes the line for the message or exclusive that is open, with the offset of its first byte. Returns
    /// `Nothing`, and writes no line, exactly if nothing is open.
    pub fn end(&self, line: &mut ListingLine) -> Status
        ensures { IsEnd (open_of self.now.parsing) (number_of result) line.old line.new }
    {
        match self.packer.end() {
            None => Status::Nothing,
            Some(listed) => {
                *line = ListingLine::of(listed.kind, listed.offset);
                Status::Done
            }
        }
    }
}

impl ByteReader for CUsb {
    ghost reader = { events };

    fn most_written(&self) -> usize {
        usb_size(self.room)
    }

    fn take(&mut self, byte: u8, offset: u64, buffer: &mut [u8]) -> Result<ByteOutcome, Status> {
        exclusives_stay_within_their_limit();
        match self.packer.byte(byte, offset) {
            Ok(packed) => Ok(ByteOutcome::of(
                offset,
                put_events(packed, buffer),
                ListingLine::listed(packed.lines.first()),
                ListingLine::listed(packed.lines.second()),
            )),
            Err(_) => Err(Status::ExclusiveTooLong),
        }
    }
}
