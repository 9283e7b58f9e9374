// The calls of USB-MIDI 1.0 events.
ghost use Rattle.std.specs.Prelude.{◌≡◌, None};
ghost use Rattle.c_streams.specs.Usb.{longest_events, IsCarried};
ghost use Rattle.larboardyuzu_c.specs.UsbCalls.{AreBytesTaken, HasEnd, IsByteTaken, IsOpened, IsReset};

use c_answers::{Block, ByteOutcome, ListingLine, Status};
use c_handles::{Engine, Handle};
use c_streams::{CUsb, CarriedBytes, split_event, usb_size};
use small_types::U4;
use std::alloc::Global;

/// Returns the least size, in bytes, of a buffer for the events of any message, if an exclusive has at most
/// `room` bytes (own rule).
#[unsafe(no_mangle)]
pub extern "C" fn larboardyuzu_usb_size(room: u32) -> usize
    ensures { result ≡ longest_events room }
{
    usb_size(room)
}

/// Opens a handle as a packer into the events of a cable, 0 to 15. `room` is the most bytes of an exclusive,
/// 6 to 1,048,576. Allocates all the memory that the handle will ever need.
///
/// Returns the first that applies of `BadRoom`, `BadGroup` (the cable), `AlreadyOpen` and `NoMemory`; the
/// handle is then unchanged.
#[unsafe(no_mangle)]
pub extern "C" fn larboardyuzu_usb_open(
    alloc: Global,
    usb: &mut Handle,
    cable: u8,
    room: u32,
) -> u32
    ensures { IsOpened usb.old.holds cable room result usb.new.holds }
{
    if room < 6 || room > 1_048_576 {
        return Status::BadRoom.number();
    }
    let Some(cable) = U4::new(cable) else {
        return Status::BadGroup.number();
    };
    if let Some(held) = usb.take(alloc) {
        usb.put(held);
        return Status::AlreadyOpen.number();
    }
    match CUsb::new(alloc, cable, room) {
        Ok(made) => usb.fill(alloc, Engine::Usb(made)).number(),
        Err(_) => Status::NoMemory.number(),
    }
}

/// Takes one more byte of the stream and writes the events of the message that it completes (USB Device Class
/// Definition for MIDI Devices 1.0, code index numbers), as `CUsb::byte` does. Returns `HandleClosed` or
/// `OtherKind`, with an empty outcome, if the handle isn't open for this; otherwise the statuses of that
/// call.
#[unsafe(no_mangle)]
pub extern "C" fn larboardyuzu_usb_byte(
    alloc: Global,
    usb: &mut Handle,
    byte: u8,
    offset: u64,
    events: &mut [u8],
    outcome: &mut ByteOutcome,
) -> u32
    ensures { IsByteTaken usb.old.holds byte offset events.old result outcome.new events.new usb.new.holds }
{
    let Some(mut held) = usb.take(alloc) else {
        *outcome = ByteOutcome::none();
        return Status::HandleClosed.number();
    };
    let status = match &mut *held {
        Engine::Usb(engine) => engine.byte(byte, offset, events, outcome),
        _ => {
            *outcome = ByteOutcome::none();
            Status::OtherKind
        }
    };
    usb.put(held);
    status.number()
}

/// Takes bytes that follow one another, as `CUsb::bytes` does. Returns `HandleClosed` or `OtherKind`, with an
/// empty block, if the handle isn't open for this; otherwise the statuses of that call.
#[unsafe(no_mangle)]
pub extern "C" fn larboardyuzu_usb_bytes(
    alloc: Global,
    usb: &mut Handle,
    bytes: &[u8],
    offset: u64,
    events: &mut [u8],
    outcomes: &mut [ByteOutcome],
    block: &mut Block,
) -> u32
    ensures { AreBytesTaken usb.old.holds offset bytes.now events.old outcomes.old
        result block.new events.new outcomes.new usb.new.holds }
{
    let Some(mut held) = usb.take(alloc) else {
        *block = Block::nothing();
        return Status::HandleClosed.number();
    };
    let status = match &mut *held {
        Engine::Usb(engine) => engine.bytes(bytes, offset, events, outcomes, block),
        _ => {
            *block = Block::nothing();
            Status::OtherKind
        }
    };
    usb.put(held);
    status.number()
}

/// Writes the line for the message or exclusive that is open at the end of the stream, with the offset of its
/// first byte. Returns `HandleClosed`, `OtherKind`, or `Nothing` if nothing is open; the line is then
/// unchanged.
#[unsafe(no_mangle)]
pub extern "C" fn larboardyuzu_usb_end(
    alloc: Global,
    usb: &mut Handle,
    line: &mut ListingLine,
) -> u32
    ensures same { usb.new.holds ≡ usb.old.holds }
    ensures answer { HasEnd usb.old.holds result line.old line.new }
{
    let Some(held) = usb.take(alloc) else {
        return Status::HandleClosed.number();
    };
    let status = match &*held {
        Engine::Usb(engine) => engine.end(line),
        _ => Status::OtherKind,
    };
    usb.put(held);
    status.number()
}

/// Returns the handle to the state that it had just after it was opened (own rule). The call doesn't
/// allocate. Returns `HandleClosed` or `OtherKind`, and changes nothing, if the handle isn't open for this.
#[unsafe(no_mangle)]
pub extern "C" fn larboardyuzu_usb_reset(alloc: Global, usb: &mut Handle) -> u32
    ensures { IsReset usb.old.holds result usb.new.holds }
{
    let Some(mut held) = usb.take(alloc) else {
        return Status::HandleClosed.number();
    };
    let status = match &mut *held {
        Engine::Usb(engine) => {
            engine.reset();
            Status::Done
        }
        _ => Status::OtherKind,
    };
    usb.put(held);
    status.number()
}

/// Closes a handle, whatever it is open for, and frees its memory. A closed handle stays closed.
#[unsafe(no_mangle)]
pub extern "C" fn larboardyuzu_usb_close(alloc: Global, usb: &mut Handle)
    ensures { usb.new.holds ≡ None }
{
    let _held = usb.take(alloc);
}

/// Writes the cable of an event of four bytes, and the bytes that it carries, as `split_event` does. Returns
/// `BadSize` if the size isn't 4, or `Nothing` if the event's code is reserved; nothing is written then.
#[unsafe(no_mangle)]
pub extern "C" fn larboardyuzu_usb_carried(event: &[u8], carried: &mut CarriedBytes) -> u32
    ensures { IsCarried event.now result carried.old carried.new }
{
    split_event(event, carried).number()
}
