// The calls of the parser of MIDI 1.0 bytes.
ghost use Rattle.std.specs.Prelude.{◌≡◌, None};
ghost use Rattle.c_streams.specs.Parser.{longest_message};
ghost use Rattle.larboardyuzu_c.specs.ParserCalls.{AreBytesTaken, HasEnd, IsByteTaken, IsOpened, IsReset};

use c_answers::{Block, ByteOutcome, ListingLine, Status};
use c_handles::{Engine, Handle};
use c_streams::{CParser, parser_size};
use std::alloc::Global;

/// Returns the least size, in bytes, of a buffer for any message, if an exclusive has at most `room` bytes
/// (own rule).
#[unsafe(no_mangle)]
pub extern "C" fn larboardyuzu_parser_size(room: u32) -> usize
    ensures { result ≡ longest_message room }
{
    parser_size(room)
}

/// Opens a handle as a parser, with nothing open and no running status. `room` is the most bytes of an
/// exclusive, 6 to 1,048,576. Allocates all the memory that the handle will ever need.
///
/// Returns the first that applies of `BadRoom`, `AlreadyOpen` and `NoMemory`; the handle is then unchanged.
#[unsafe(no_mangle)]
pub extern "C" fn larboardyuzu_parser_open(alloc: Global, parser: &mut Handle, room: u32) -> u32
    ensures { IsOpened parser.old.holds room result parser.new.holds }
{
    if room < 6 || room > 1_048_576 {
        return Status::BadRoom.number();
    }
    if let Some(held) = parser.take(alloc) {
        parser.put(held);
        return Status::AlreadyOpen.number();
    }
    match CParser::new(alloc, room) {
        Ok(made) => parser.fill(alloc, Engine::Parser(made)).number(),
        Err(_) => Status::NoMemory.number(),
    }
}

/// Takes one more byte of the stream and writes the message that it completes (MIDI 1.0 Detailed
/// Specification), as `CParser::byte` does. Returns `HandleClosed` or `OtherKind`, with an empty outcome, if
/// the handle isn't open for this; otherwise the statuses of that call.
#[unsafe(no_mangle)]
pub extern "C" fn larboardyuzu_parser_byte(
    alloc: Global,
    parser: &mut Handle,
    byte: u8,
    offset: u64,
    message: &mut [u8],
    outcome: &mut ByteOutcome,
) -> u32
    ensures { IsByteTaken parser.old.holds byte offset message.old
        result outcome.new message.new parser.new.holds }
{
    let Some(mut held) = parser.take(alloc) else {
        *outcome = ByteOutcome::none();
        return Status::HandleClosed.number();
    };
    let status = match &mut *held {
        Engine::Parser(engine) => engine.byte(byte, offset, message, outcome),
        _ => {
            *outcome = ByteOutcome::none();
            Status::OtherKind
        }
    };
    parser.put(held);
    status.number()
}

/// Takes bytes that follow one another, as `CParser::bytes` does. Returns `HandleClosed` or `OtherKind`, with
/// an empty block, if the handle isn't open for this; otherwise the statuses of that call.
#[unsafe(no_mangle)]
pub extern "C" fn larboardyuzu_parser_bytes(
    alloc: Global,
    parser: &mut Handle,
    bytes: &[u8],
    offset: u64,
    messages: &mut [u8],
    outcomes: &mut [ByteOutcome],
    block: &mut Block,
) -> u32
    ensures { AreBytesTaken parser.old.holds offset bytes.now messages.old outcomes.old
        result block.new messages.new outcomes.new parser.new.holds }
{
    let Some(mut held) = parser.take(alloc) else {
        *block = Block::nothing();
        return Status::HandleClosed.number();
    };
    let status = match &mut *held {
        Engine::Parser(engine) => engine.bytes(bytes, offset, messages, outcomes, block),
        _ => {
            *block = Block::nothing();
            Status::OtherKind
        }
    };
    parser.put(held);
    status.number()
}

/// Writes the line for the message or exclusive that is open at the end of the stream, with the offset of its
/// first byte. Returns `HandleClosed`, `OtherKind`, or `Nothing` if nothing is open; the line is then
/// unchanged.
#[unsafe(no_mangle)]
pub extern "C" fn larboardyuzu_parser_end(
    alloc: Global,
    parser: &mut Handle,
    line: &mut ListingLine,
) -> u32
    ensures same { parser.new.holds ≡ parser.old.holds }
    ensures answer { HasEnd parser.old.holds result line.old line.new }
{
    let Some(held) = parser.take(alloc) else {
        return Status::HandleClosed.number();
    };
    let status = match &*held {
        Engine::Parser(engine) => engine.end(line),
        _ => Status::OtherKind,
    };
    parser.put(held);
    status.number()
}

/// Returns the handle to the state that it had just after it was opened (own rule). The call doesn't
/// allocate. Returns `HandleClosed` or `OtherKind`, and changes nothing, if the handle isn't open for this.
#[unsafe(no_mangle)]
pub extern "C" fn larboardyuzu_parser_reset(alloc: Global, parser: &mut Handle) -> u32
    ensures { IsReset parser.old.holds result parser.new.holds }
{
    let Some(mut held) = parser.take(alloc) else {
        return Status::HandleClosed.number();
    };
    let status = match &mut *held {
        Engine::Parser(engine) => {
            engine.reset();
            Status::Done
        }
        _ => Status::OtherKind,
    };
    parser.put(held);
    status.number()
}

/// Closes a handle, whatever it is open for, and frees its memory. A closed handle stays closed.
#[unsafe(no_mangle)]
pub extern "C" fn larboardyuzu_parser_close(alloc: Global, parser: &mut Handle)
    ensures { parser.new.holds ≡ None }
{
    let _held = parser.take(alloc);
}
