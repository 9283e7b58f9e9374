// The calls of the translator up.
ghost use Rattle.std.specs.Prelude.{◌≡◌, None};
ghost use Rattle.c_translators.specs.Up.{most_words_of};
ghost use Rattle.larboardyuzu_c.specs.UpCalls.{AreAnswered, HasEnd, IsDirect, IsOpened, IsAnswered, IsReset};

use crate::flags::{PAIRED, has_paired};
use c_answers::{Block, ByteOutcome, ListingLine, Status};
use c_handles::{Engine, Handle};
use c_translators::{CUp, up_size};
use small_types::U4;
use std::alloc::Global;

/// Opens a handle as a translator up that writes packets of a group, 0 to 15, with paired controllers if flag
/// 2 is set (own rule). `room` is the most bytes of an exclusive, 6 to 1,048,576. Allocates all the memory
/// that the handle will ever need.
///
/// Returns the first that applies of `BadRoom`, `BadGroup`, `BadFlags` (another flag), `AlreadyOpen` and
/// `NoMemory`; the handle is then unchanged.
#[unsafe(no_mangle)]
pub extern "C" fn larboardyuzu_up_open(
    alloc: Global,
    up: &mut Handle,
    group: u8,
    room: u32,
    flags: u32,
) -> u32
    ensures { IsOpened up.old.holds group room flags result up.new.holds }
{
    if room < 6 || room > 1_048_576 {
        return Status::BadRoom.number();
    }
    let Some(group) = U4::new(group) else {
        return Status::BadGroup.number();
    };
    if flags != 0 && flags != PAIRED {
        return Status::BadFlags.number();
    }
    if let Some(held) = up.take(alloc) {
        up.put(held);
        return Status::AlreadyOpen.number();
    }
    match CUp::new(alloc, group, room, has_paired(flags)) {
        Ok(made) => up.fill(alloc, Engine::Up(made)).number(),
        Err(_) => Status::NoMemory.number(),
    }
}

// Takes one byte if `CUp::direct` takes it. Such a byte needs few registers, so this is a function of its
// own.
#[inline(always)]
fn take_direct(
    held: &mut Engine,
    byte: u8,
    offset: u64,
    words: &mut [u32],
    outcome: &mut ByteOutcome,
) -> bool
    ensures { IsDirect result held.old byte offset words.old outcome.new words.new held.new }
{
    match held {
        Engine::Up(engine) => engine.direct(byte, offset, words, outcome),
        _ => false,
    }
}

// Takes any byte.
#[inline(never)]
fn take_any(
    alloc: Global,
    up: &mut Handle,
    byte: u8,
    offset: u64,
    words: &mut [u32],
    outcome: &mut ByteOutcome,
) -> u32
    ensures { IsAnswered up.old.holds byte offset words.old result outcome.new words.new up.new.holds }
{
    let Some(mut held) = up.take(alloc) else {
        *outcome = ByteOutcome::none();
        return Status::HandleClosed.number();
    };
    let status = match &mut *held {
        Engine::Up(engine) => engine.byte(byte, offset, words, outcome),
        _ => {
            *outcome = ByteOutcome::none();
            Status::OtherKind
        }
    };
    up.put(held);
    status.number()
}

/// Takes one more byte of the stream and writes the words of the packets that it completes (M2-104-UM,
/// translation from MIDI 1.0; M2-115-U), as `CUp::byte` does. Returns `HandleClosed` or `OtherKind`, with an
/// empty outcome, if the handle isn't open for this; otherwise the statuses of that call.
#[unsafe(no_mangle)]
pub extern "C" fn larboardyuzu_up_byte(
    alloc: Global,
    up: &mut Handle,
    byte: u8,
    offset: u64,
    words: &mut [u32],
    outcome: &mut ByteOutcome,
) -> u32
    ensures { IsAnswered up.old.holds byte offset words.old result outcome.new words.new up.new.holds }
{
    if let Some(parted) = up.take_parted(alloc) {
        let mut held = parted.into_box();
        let is_taken = take_direct(&mut held, byte, offset, words, outcome);
        up.put(held);
        if is_taken {
            return Status::Done.number();
        }
    }
    take_any(alloc, up, byte, offset, words, outcome)
}

/// Takes bytes that follow one another, as `CUp::bytes` does. Returns `HandleClosed` or `OtherKind`, with an
/// empty block, if the handle isn't open for this; otherwise the statuses of that call.
#[unsafe(no_mangle)]
pub extern "C" fn larboardyuzu_up_bytes(
    alloc: Global,
    up: &mut Handle,
    bytes: &[u8],
    offset: u64,
    words: &mut [u32],
    outcomes: &mut [ByteOutcome],
    block: &mut Block,
) -> u32
    ensures { AreAnswered up.old.holds offset bytes.now words.old outcomes.old
        result block.new words.new outcomes.new up.new.holds }
{
    let Some(mut held) = up.take(alloc) else {
        *block = Block::nothing();
        return Status::HandleClosed.number();
    };
    let status = match &mut *held {
        Engine::Up(engine) => engine.bytes(bytes, offset, words, outcomes, block),
        _ => {
            *block = Block::nothing();
            Status::OtherKind
        }
    };
    up.put(held);
    status.number()
}

/// Returns the least size, in words, of a buffer for the packets that any byte completes, if an exclusive has
/// at most `room` bytes (own rule).
#[unsafe(no_mangle)]
pub extern "C" fn larboardyuzu_up_size(room: u32) -> usize
    ensures { result ≡ most_words_of room }
{
    up_size(room)
}

/// Writes the line for the message or exclusive that is open at the end of the stream, with the offset of its
/// first byte. Returns `HandleClosed`, `OtherKind`, or `Nothing` if nothing is open; the line is then
/// unchanged.
#[unsafe(no_mangle)]
pub extern "C" fn larboardyuzu_up_end(alloc: Global, up: &mut Handle, line: &mut ListingLine) -> u32
    ensures same { up.new.holds ≡ up.old.holds }
    ensures answer { HasEnd up.old.holds line.old result line.new }
{
    let Some(held) = up.take(alloc) else {
        return Status::HandleClosed.number();
    };
    let status = match &*held {
        Engine::Up(engine) => engine.end(line),
        _ => Status::OtherKind,
    };
    up.put(held);
    status.number()
}

/// Returns the handle to the state that it had just after it was opened (own rule). The call doesn't
/// allocate. Returns `HandleClosed` or `OtherKind`, and changes nothing, if the handle isn't open for this.
#[unsafe(no_mangle)]
pub extern "C" fn larboardyuzu_up_reset(alloc: Global, up: &mut Handle) -> u32
    ensures { IsReset up.old.holds result up.new.holds }
{
    let Some(mut held) = up.take(alloc) else {
        return Status::HandleClosed.number();
    };
    let status = match &mut *held {
        Engine::Up(engine) => {
            engine.reset();
            Status::Done
        }
        _ => Status::OtherKind,
    };
    up.put(held);
    status.number()
}

/// Closes a handle, whatever it is open for, and frees its memory. A closed handle stays closed.
#[unsafe(no_mangle)]
pub extern "C" fn larboardyuzu_up_close(alloc: Global, up: &mut Handle)
    ensures { up.new.holds ≡ None }
{
    let _held = up.take(alloc);
}
