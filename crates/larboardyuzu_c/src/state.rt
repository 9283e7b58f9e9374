// The calls of the running state.
ghost use Rattle.std.specs.Prelude.{◌≡◌, ◌≤◌, false, true, None};
ghost use Rattle.c_answers.specs.Numbers.{number_of};
ghost use Rattle.larboardyuzu_c.specs.StateCalls.{AreBytesTaken, ArePacketsTaken, HasTold, IsByteTaken, IsMade, IsOpened, IsPacketTaken, IsReset};

use c_answers::{Block, Status};
use c_handles::{Engine, Handle};
use c_voice_state::{CByteState, CPacketState, FactNumbers};
use std::alloc::Global;

/// The flag for a state of bytes.
const OF_BYTES: u32 = 4;

// Reports no fact, because the handle isn't open for this.
fn untold(why: Status, written: &mut usize, need: &mut usize) -> Status
    ensures status { result ≡ why }
    ensures none { (written.new ≡ 0) × (need.new ≡ 0) }
{
    *written = 0;
    *need = 0;
    why
}

// Opens a closed handle as a state of packets.
fn fill_packets(alloc: Global, state: &mut Handle, room: u32, notes: u32, params: u32) -> Status
    requires closed { state.old.holds ≡ None }
    requires least { 6 ≤ room }
    requires most { room ≤ 1048576 }
    ensures { IsMade false (record { room = room; notes = notes; params = params })
        (number_of result) state.new.holds }
{
    match CPacketState::new(alloc, room, notes, params) {
        Ok(made) => state.fill(alloc, Engine::PacketState(made)),
        Err(_) => Status::NoMemory,
    }
}

// Opens a closed handle as a state of bytes.
fn fill_bytes(alloc: Global, state: &mut Handle, room: u32, notes: u32, params: u32) -> Status
    requires closed { state.old.holds ≡ None }
    requires least { 6 ≤ room }
    requires most { room ≤ 1048576 }
    ensures { IsMade true (record { room = room; notes = notes; params = params })
        (number_of result) state.new.holds }
{
    match CByteState::new(alloc, room, notes, params) {
        Ok(made) => state.fill(alloc, Engine::ByteState(made)),
        Err(_) => Status::NoMemory,
    }
}

/// Opens a handle as the state before the first packet, or with flag 4 as the state before the first byte of
/// a stream. `room` is the most bytes of an exclusive, 6 to 1,048,576. The state stores at most `notes` notes
/// and mode messages of each channel, 0 to 1,048,576, and at most `params` parameters of each kind and
/// channel, 0 to 16,384 (own rule). Allocates all the memory that the handle will ever need.
///
/// Returns the first that applies of `BadRoom` (one of the three numbers), `BadFlags` (another flag),
/// `AlreadyOpen` and `NoMemory`; the handle is then unchanged.
#[unsafe(no_mangle)]
pub extern "C" fn larboardyuzu_state_open(
    alloc: Global,
    state: &mut Handle,
    room: u32,
    notes: u32,
    params: u32,
    flags: u32,
) -> u32
    ensures { IsOpened state.old.holds (record { room = room; notes = notes; params = params })
        flags result state.new.holds }
{
    if room < 6 || room > 1_048_576 || notes > 1_048_576 || params > 16_384 {
        return Status::BadRoom.number();
    }
    if flags != 0 && flags != OF_BYTES {
        return Status::BadFlags.number();
    }
    if let Some(held) = state.take(alloc) {
        state.put(held);
        return Status::AlreadyOpen.number();
    }
    if flags == OF_BYTES {
        fill_bytes(alloc, state, room, notes, params).number()
    } else {
        fill_packets(alloc, state, room, notes, params).number()
    }
}

/// Takes one packet, as `CPacketState::packet` does. Returns `HandleClosed` or `OtherKind`, and changes
/// nothing, if the handle isn't a state of packets; otherwise the statuses of that call.
#[unsafe(no_mangle)]
pub extern "C" fn larboardyuzu_state_packet(alloc: Global, state: &mut Handle, words: &[u32]) -> u32
    ensures { IsPacketTaken state.old.holds words.now result state.new.holds }
{
    let Some(mut held) = state.take(alloc) else {
        return Status::HandleClosed.number();
    };
    let status = match &mut *held {
        Engine::PacketState(engine) => engine.packet(words),
        _ => Status::OtherKind,
    };
    state.put(held);
    status.number()
}

/// Takes packets whose words follow one another, as `CPacketState::packets` does. Returns `HandleClosed` or
/// `OtherKind`, with an empty block, if the handle isn't a state of packets; otherwise the statuses of that
/// call.
#[unsafe(no_mangle)]
pub extern "C" fn larboardyuzu_state_packets(
    alloc: Global,
    state: &mut Handle,
    words: &[u32],
    block: &mut Block,
) -> u32
    ensures { ArePacketsTaken state.old.holds words.now result block.new state.new.holds }
{
    let Some(mut held) = state.take(alloc) else {
        *block = Block::nothing();
        return Status::HandleClosed.number();
    };
    let status = match &mut *held {
        Engine::PacketState(engine) => engine.packets(words, block),
        _ => {
            *block = Block::nothing();
            Status::OtherKind
        }
    };
    state.put(held);
    status.number()
}

/// Takes one more byte of the stream, as `CByteState::byte` does. Returns `HandleClosed` or `OtherKind`, and
/// changes nothing, if the handle isn't a state of bytes; otherwise the statuses of that call.
#[unsafe(no_mangle)]
pub extern "C" fn larboardyuzu_state_byte(alloc: Global, state: &mut Handle, byte: u8) -> u32
    ensures { IsByteTaken state.old.holds byte result state.new.holds }
{
    let Some(mut held) = state.take(alloc) else {
        return Status::HandleClosed.number();
    };
    let status = match &mut *held {
        Engine::ByteState(engine) => engine.byte(byte),
        _ => Status::OtherKind,
    };
    state.put(held);
    status.number()
}

/// Takes bytes that follow one another, as `CByteState::bytes` does. Returns `HandleClosed` or `OtherKind`,
/// with an empty block, if the handle isn't a state of bytes; otherwise the statuses of that call.
#[unsafe(no_mangle)]
pub extern "C" fn larboardyuzu_state_bytes(
    alloc: Global,
    state: &mut Handle,
    bytes: &[u8],
    block: &mut Block,
) -> u32
    ensures { AreBytesTaken state.old.holds bytes.now result block.new state.new.holds }
{
    let Some(mut held) = state.take(alloc) else {
        *block = Block::nothing();
        return Status::HandleClosed.number();
    };
    let status = match &mut *held {
        Engine::ByteState(engine) => engine.bytes(bytes, block),
        _ => {
            *block = Block::nothing();
            Status::OtherKind
        }
    };
    state.put(held);
    status.number()
}

/// Writes the facts of one channel of a group, or with channel 255 the counts of the group's system messages,
/// and their number to `written`. Returns `HandleClosed`, `OtherKind`, `BadGroup`, `BadChannel` or
/// `SmallBuffer`, and then writes no fact. With `SmallBuffer`, `need` is the number of facts. In all other
/// cases `need` is 0, and after a failure `written` is 0.
#[unsafe(no_mangle)]
pub extern "C" fn larboardyuzu_state_facts(
    alloc: Global,
    state: &mut Handle,
    group: u8,
    channel: u8,
    facts: &mut [FactNumbers],
    written: &mut usize,
    need: &mut usize,
) -> u32
    ensures same { state.new.holds ≡ state.old.holds }
    ensures answer { HasTold state.old.holds group channel facts.old
        result written.new need.new facts.new }
{
    let Some(held) = state.take(alloc) else {
        return untold(Status::HandleClosed, written, need).number();
    };
    let status = match &*held {
        Engine::PacketState(engine) => engine.facts(group, channel, facts, written, need),
        Engine::ByteState(engine) => engine.facts(group, channel, facts, written, need),
        _ => untold(Status::OtherKind, written, need),
    };
    state.put(held);
    status.number()
}

/// Returns the handle to the state that it had just after it was opened (own rule): it has no facts. The call
/// doesn't allocate. Returns `HandleClosed` or `OtherKind`, and changes nothing, if the handle isn't open for
/// this.
#[unsafe(no_mangle)]
pub extern "C" fn larboardyuzu_state_reset(alloc: Global, state: &mut Handle) -> u32
    ensures { IsReset state.old.holds result state.new.holds }
{
    let Some(mut held) = state.take(alloc) else {
        return Status::HandleClosed.number();
    };
    let status = match &mut *held {
        Engine::PacketState(engine) => {
            engine.reset();
            Status::Done
        }
        Engine::ByteState(engine) => {
            engine.reset();
            Status::Done
        }
        _ => Status::OtherKind,
    };
    state.put(held);
    status.number()
}

/// Closes a handle, whatever it is open for, and frees its memory. A closed handle stays closed.
#[unsafe(no_mangle)]
pub extern "C" fn larboardyuzu_state_close(alloc: Global, state: &mut Handle)
    ensures { state.new.holds ≡ None }
{
    let _held = state.take(alloc);
}
