// The calls that join 8-bit exclusives, and the call that cuts one into packets.
ghost use Rattle.std.specs.Prelude.{◌≡◌, None};
ghost use Rattle.c_pure.specs.Sysex8.{IsCut};
ghost use Rattle.larboardyuzu_c.specs.Sysex8Calls.{AreTaken, HasBegun, IsOpened, IsReset, IsTaken};

use c_answers::{Block, Status};
use c_handles::{Engine, Handle};
use c_streams::{CSysex8, JoinedPart};
use std::alloc::Global;

/// Opens a handle as a join of 8-bit exclusives, of which at most `streams`, 1 to 64, are open at once.
/// `room` is the most bytes of an exclusive, 13 to 1,048,576. Allocates all the memory that the handle will
/// ever need.
///
/// Returns the first that applies of `BadRoom`, `BadStreams`, `AlreadyOpen` and `NoMemory`; the handle is
/// then unchanged.
#[unsafe(no_mangle)]
pub extern "C" fn larboardyuzu_sysex8_open(
    alloc: Global,
    sysex8: &mut Handle,
    streams: u8,
    room: u32,
) -> u32
    ensures { IsOpened sysex8.old.holds streams room result sysex8.new.holds }
{
    if room < 13 || room > 1_048_576 {
        return Status::BadRoom.number();
    }
    if streams < 1 || streams > 64 {
        return Status::BadStreams.number();
    }
    if let Some(held) = sysex8.take(alloc) {
        sysex8.put(held);
        return Status::AlreadyOpen.number();
    }
    match CSysex8::new(alloc, streams, room) {
        Ok(made) => sysex8.fill(alloc, Engine::Sysex8(made)).number(),
        Err(_) => Status::NoMemory.number(),
    }
}

/// Takes one packet and writes the exclusive that it ends (M2-104-UM, system exclusive 8-bit messages), as
/// `CSysex8::packet` does. Returns `HandleClosed` or `OtherKind`, with an empty part, if the handle isn't
/// open for this; otherwise the statuses of that call.
#[unsafe(no_mangle)]
pub extern "C" fn larboardyuzu_sysex8_packet(
    alloc: Global,
    sysex8: &mut Handle,
    words: &[u32],
    offset: u64,
    bytes: &mut [u8],
    part: &mut JoinedPart,
) -> u32
    ensures { IsTaken sysex8.old.holds words.now offset bytes.old result part.new bytes.new sysex8.new.holds }
{
    let Some(mut held) = sysex8.take(alloc) else {
        *part = JoinedPart::none();
        return Status::HandleClosed.number();
    };
    let status = match &mut *held {
        Engine::Sysex8(engine) => engine.packet(words, offset, bytes, part),
        _ => {
            *part = JoinedPart::none();
            Status::OtherKind
        }
    };
    sysex8.put(held);
    status.number()
}

/// Takes packets whose words follow one another, as `CSysex8::packets` does. Returns `HandleClosed` or
/// `OtherKind`, with an empty block, if the handle isn't open for this; otherwise the statuses of that call.
#[unsafe(no_mangle)]
pub extern "C" fn larboardyuzu_sysex8_packets(
    alloc: Global,
    sysex8: &mut Handle,
    words: &[u32],
    offset: u64,
    bytes: &mut [u8],
    parts: &mut [JoinedPart],
    block: &mut Block,
) -> u32
    ensures { AreTaken sysex8.old.holds offset words.now bytes.old parts.old
        result block.new bytes.new parts.new sysex8.new.holds }
{
    let Some(mut held) = sysex8.take(alloc) else {
        *block = Block::nothing();
        return Status::HandleClosed.number();
    };
    let status = match &mut *held {
        Engine::Sysex8(engine) => engine.packets(words, offset, bytes, parts, block),
        _ => {
            *block = Block::nothing();
            Status::OtherKind
        }
    };
    sysex8.put(held);
    status.number()
}

/// Writes the offset of the packet with which the open exclusive of a group's stream began. Returns
/// `HandleClosed`, `OtherKind`, `BadGroup` if the group isn't 0 to 15, or `Nothing` if no exclusive is open;
/// the offset is then unchanged.
#[unsafe(no_mangle)]
pub extern "C" fn larboardyuzu_sysex8_begun(
    alloc: Global,
    sysex8: &mut Handle,
    group: u8,
    stream: u8,
    offset: &mut u64,
) -> u32
    ensures same { sysex8.new.holds ≡ sysex8.old.holds }
    ensures answer { HasBegun sysex8.old.holds group stream result offset.old offset.new }
{
    let Some(held) = sysex8.take(alloc) else {
        return Status::HandleClosed.number();
    };
    let status = match &*held {
        Engine::Sysex8(engine) => engine.begun(group, stream, offset),
        _ => Status::OtherKind,
    };
    sysex8.put(held);
    status.number()
}

/// Returns the handle to the state that it had just after it was opened (own rule). The call doesn't
/// allocate. Returns `HandleClosed` or `OtherKind`, and changes nothing, if the handle isn't open for this.
#[unsafe(no_mangle)]
pub extern "C" fn larboardyuzu_sysex8_reset(alloc: Global, sysex8: &mut Handle) -> u32
    ensures { IsReset sysex8.old.holds result sysex8.new.holds }
{
    let Some(mut held) = sysex8.take(alloc) else {
        return Status::HandleClosed.number();
    };
    let status = match &mut *held {
        Engine::Sysex8(engine) => {
            engine.reset();
            Status::Done
        }
        _ => Status::OtherKind,
    };
    sysex8.put(held);
    status.number()
}

/// Closes a handle, whatever it is open for, and frees its memory. A closed handle stays closed.
#[unsafe(no_mangle)]
pub extern "C" fn larboardyuzu_sysex8_close(alloc: Global, sysex8: &mut Handle)
    ensures { sysex8.new.holds ≡ None }
{
    let _held = sysex8.take(alloc);
}

/// Writes the four words of packet `index`, counted from 0, of an 8-bit exclusive with these bytes
/// (M2-104-UM, system exclusive 8-bit messages), as `c_pure::sysex8_cut` does. Returns `SmallBuffer`,
/// `BadGroup` or `Nothing`, and writes nothing, as that call says.
#[unsafe(no_mangle)]
pub extern "C" fn larboardyuzu_sysex8_cut(
    group: u8,
    stream: u8,
    payload: &[u8],
    index: usize,
    words: &mut [u32],
) -> u32
    ensures { IsCut group stream payload.now index words.old result words.new }
{
    c_pure::sysex8_cut(group, stream, payload, index, words).number()
}
