// The calls of the translator down.
ghost use Rattle.std.specs.Prelude.{◌≡◌, None};
ghost use Rattle.c_translators.specs.Down.{most_bytes_of};
ghost use Rattle.larboardyuzu_c.specs.DownCalls.{AreAnswered, HasBegun, IsOpened, IsAnswered, IsReset};

use crate::flags::{COMPACT, PAIRED, has_compact, has_paired};
use c_answers::{Block, Status};
use c_handles::{Engine, Handle};
use c_translators::{CDown, Piece, down_size};
use down_translator::Style;
use std::alloc::Global;

/// Opens a handle as a translator down: in compact style if flag 1 is set, otherwise in plain style, and with
/// paired controllers if flag 2 is set (own rules). `room` is the most bytes of an exclusive, 6 to 1,048,576.
/// Allocates all the memory that the handle will ever need.
///
/// Returns the first that applies of `BadRoom`, `BadFlags` (another flag), `AlreadyOpen` and `NoMemory`; the
/// handle is then unchanged.
#[unsafe(no_mangle)]
pub extern "C" fn larboardyuzu_down_open(
    alloc: Global,
    down: &mut Handle,
    room: u32,
    flags: u32,
) -> u32
    ensures { IsOpened down.old.holds room flags result down.new.holds }
{
    if room < 6 || room > 1_048_576 {
        return Status::BadRoom.number();
    }
    if flags > COMPACT + PAIRED {
        return Status::BadFlags.number();
    }
    if let Some(held) = down.take(alloc) {
        down.put(held);
        return Status::AlreadyOpen.number();
    }
    let style = if has_compact(flags) {
        Style::Compact
    } else {
        Style::Plain
    };
    match CDown::new(alloc, room, style, has_paired(flags)) {
        Ok(made) => down.fill(alloc, Engine::Down(made)).number(),
        Err(_) => Status::NoMemory.number(),
    }
}

/// Translates one packet to MIDI 1.0 bytes (M2-104-UM, default translation), as `CDown::packet` does. Writes
/// the bytes to the front of `bytes`, and their number, lane and line to `piece`. Returns `HandleClosed` or
/// `OtherKind`, with an empty piece, if the handle isn't open for this; otherwise the statuses of that call.
#[unsafe(no_mangle)]
pub extern "C" fn larboardyuzu_down_packet(
    alloc: Global,
    down: &mut Handle,
    words: &[u32],
    offset: u64,
    bytes: &mut [u8],
    piece: &mut Piece,
) -> u32
    ensures { IsAnswered down.old.holds offset words.now bytes.old result piece.new bytes.new down.new.holds }
{
    let Some(mut held) = down.take(alloc) else {
        *piece = Piece::none();
        return Status::HandleClosed.number();
    };
    let status = match &mut *held {
        Engine::Down(engine) => engine.packet(words, offset, bytes, piece),
        _ => {
            *piece = Piece::none();
            Status::OtherKind
        }
    };
    down.put(held);
    status.number()
}

/// Translates packets whose words follow one another, as `CDown::packets` does. Returns `HandleClosed` or
/// `OtherKind`, with an empty block, if the handle isn't open for this; otherwise the statuses of that call.
#[unsafe(no_mangle)]
pub extern "C" fn larboardyuzu_down_packets(
    alloc: Global,
    down: &mut Handle,
    words: &[u32],
    offset: u64,
    bytes: &mut [u8],
    pieces: &mut [Piece],
    block: &mut Block,
) -> u32
    ensures { AreAnswered down.old.holds offset words.now bytes.old pieces.old
        result block.new bytes.new pieces.new down.new.holds }
{
    let Some(mut held) = down.take(alloc) else {
        *block = Block::nothing();
        return Status::HandleClosed.number();
    };
    let status = match &mut *held {
        Engine::Down(engine) => engine.packets(words, offset, bytes, pieces, block),
        _ => {
            *block = Block::nothing();
            Status::OtherKind
        }
    };
    down.put(held);
    status.number()
}

/// Returns the least size, in bytes, of a buffer for the piece of any packet, if an exclusive has at most
/// `room` bytes (own rule).
#[unsafe(no_mangle)]
pub extern "C" fn larboardyuzu_down_size(room: u32) -> usize
    ensures { result ≡ most_bytes_of room }
{
    down_size(room)
}

/// Writes the offset of the packet with which a group's open exclusive began. Returns `HandleClosed`,
/// `OtherKind`, `BadGroup` if the group isn't 0 to 15, or `Nothing` if no exclusive is open; the offset is
/// then unchanged.
#[unsafe(no_mangle)]
pub extern "C" fn larboardyuzu_down_begun(
    alloc: Global,
    down: &mut Handle,
    group: u8,
    offset: &mut u64,
) -> u32
    ensures same { down.new.holds ≡ down.old.holds }
    ensures answer { HasBegun down.old.holds group offset.old result offset.new }
{
    let Some(held) = down.take(alloc) else {
        return Status::HandleClosed.number();
    };
    let status = match &*held {
        Engine::Down(engine) => engine.begun(group, offset),
        _ => Status::OtherKind,
    };
    down.put(held);
    status.number()
}

/// Returns the handle to the state that it had just after it was opened (own rule). The call doesn't
/// allocate. Returns `HandleClosed` or `OtherKind`, and changes nothing, if the handle isn't open for this.
#[unsafe(no_mangle)]
pub extern "C" fn larboardyuzu_down_reset(alloc: Global, down: &mut Handle) -> u32
    ensures { IsReset down.old.holds result down.new.holds }
{
    let Some(mut held) = down.take(alloc) else {
        return Status::HandleClosed.number();
    };
    let status = match &mut *held {
        Engine::Down(engine) => {
            engine.reset();
            Status::Done
        }
        _ => Status::OtherKind,
    };
    down.put(held);
    status.number()
}

/// Closes a handle, whatever it is open for, and frees its memory. A closed handle stays closed.
#[unsafe(no_mangle)]
pub extern "C" fn larboardyuzu_down_close(alloc: Global, down: &mut Handle)
    ensures { down.new.holds ≡ None }
{
    let _held = down.take(alloc);
}
