// The parser of a MIDI 1.0 stream.
ghost use Rattle.std.specs.Prelude.{◌≡◌, ◌≤◌, length, IfOk};
ghost use Rattle.midi1_bytes.specs.Answers.{step_view, LendsFramed};
ghost use Rattle.midi1_bytes.specs.Parsing.{idle, open_of};
ghost use Rattle.midi1_bytes.specs.Steps as steps;
ghost use Rattle.c_answers.specs.Fronts.{with_front};
ghost use Rattle.c_answers.specs.Lines.{line_of, no_line};
ghost use Rattle.c_answers.specs.Numbers.{number_of};
ghost use Rattle.c_answers.specs.Outcomes.{outcome_of};
ghost use Rattle.c_streams.specs.Parser.{longest_message, message_in, messages};
ghost use Rattle.c_streams.specs.Readers.{AreBytesTaken, IsByteTaken, IsEnd, ShowsStep};

use crate::reader::{ByteReader, take_byte, take_bytes};
use c_answers::laws::exclusives_stay_within_their_limit;
use c_answers::{Block, ByteOutcome, ListingLine, Status, put_bytes};
use midi_meaning::{Kind, kind_of_cut, kind_of_open};
use midi1_bytes::{AfterCut, CutKind, Parser, Step, System, write_system, write_voice};
use small_types::NoMemory;
use std::alloc::Global;
use std::marker::Model;

/// Returns the size, in bytes, of a buffer that holds any message, if exclusives have at most `room` bytes
/// between F0 and F7: two bytes more (own rule).
pub fn parser_size(room: u32) -> usize
    ensures { result ≡ longest_message room }
{
    room as usize + 2
}

// Writes a whole message, and returns the outcome of the byte at this offset, which completes the message.
#[inline(always)]
fn whole(bytes: &[u8], offset: u64, buffer: &mut [u8]) -> ByteOutcome
    requires { length bytes.now ≤ length buffer.old }
    ensures outcome { result ≡ outcome_of offset (length bytes.now) no_line no_line }
    ensures written { buffer.new ≡ with_front bytes.now buffer.old }
{
    let none = ListingLine::none();
    ByteOutcome::of(offset, put_bytes(bytes, buffer), none, none)
}

// Returns the outcome of the byte at this offset, which only has a line.
fn listed(kind: Kind, offset: u64) -> ByteOutcome
    ensures { result ≡ outcome_of offset 0 (line_of (kind, offset)) no_line }
{
    ByteOutcome::of(
        offset,
        0,
        ListingLine::of(kind, offset),
        ListingLine::none(),
    )
}

// Returns the outcome of the byte at this offset, which cuts off the message or exclusive that began at
// `start`.
fn cut(start: u64, what: CutKind, after: AfterCut, offset: u64, buffer: &mut [u8]) -> ByteOutcome
    requires { length (message_in (steps.cut start what after)) ≤ length buffer.old }
    ensures { ShowsStep (steps.cut start what after) offset (message_in (steps.cut start what after))
        buffer.old (Ok result) buffer.new }
{
    let first = ListingLine::of(kind_of_cut(what), start);
    let none = ListingLine::none();
    match after {
        AfterCut::Begins => ByteOutcome::of(offset, 0, first, none),
        AfterCut::Tune => {
            let tune = write_system(&System::Tune);
            ByteOutcome::of(offset, put_bytes(tune.as_slice(), buffer), first, none)
        }
        AfterCut::Undefined => {
            let second = ListingLine::of(Kind::Undefined, offset);
            ByteOutcome::of(offset, 0, first, second)
        }
        AfterCut::Stray => {
            let second = ListingLine::of(Kind::Stray, offset);
            ByteOutcome::of(offset, 0, first, second)
        }
    }
}

// Writes the message that a byte completes, with its status byte, and returns the byte's outcome.
#[inline(always)]
fn show(step: &Step<'_>, offset: u64, buffer: &mut [u8]) -> Result<ByteOutcome, Status>
    requires framed { LendsFramed step.now }
    requires fits { length (message_in (step_view step.now)) ≤ length buffer.old }
    ensures { ShowsStep (step_view step.now) offset (message_in (step_view step.now))
        buffer.old result buffer.new }
{
    match *step {
        Step::Held => return Ok(ByteOutcome::empty(offset)),
        Step::Voice(message) => {
            let bytes = write_voice(&message.message());
            return Ok(whole(bytes.as_slice(), offset, buffer));
        }
        Step::Common(message) => {
            let bytes = write_system(&message.message());
            return Ok(whole(bytes.as_slice(), offset, buffer));
        }
        Step::RealTime(message) => {
            let bytes = write_system(&message.message());
            return Ok(whole(bytes.as_slice(), offset, buffer));
        }
        Step::Exclusive(exclusive) => return Ok(whole(exclusive, offset, buffer)),
        Step::Stray => return Ok(listed(Kind::Stray, offset)),
        Step::Undefined => return Ok(listed(Kind::Undefined, offset)),
        Step::Cut { start, what, after } => return Ok(cut(start, what, after, offset, buffer)),
        Step::TooLong => return Err(Status::ExclusiveTooLong),
    }
}

/// A parser of the bytes of a MIDI 1.0 stream, with its limit. In contracts its value is the state of the
/// parser.
#[derive(Drop)]
pub struct CParser {
    parser: Parser,
    room: u32,
}

impl Model for CParser {
    ghost use Rattle.std.specs.Prelude.{◌≡◌, ◌≤◌};
    ghost use Rattle.midi1_bytes.specs.Parsing.{Parsing};
    ghost use Rattle.c_answers.specs.Within.{IsWithin};

    ghost Value = { Parsing };

    ghost view = { λ p. p.parser };

    ghost invariant = { λ p. (p.room ≡ p.parser.room) × (6 ≤ p.room)
        × (p.room ≤ 1048576) × IsWithin p.parser };
}

impl CParser {
    /// Creates a parser with nothing open and no running status, for exclusives of `room` bytes between F0
    /// and F7, 6 to 1,048,576 (own rule). Allocates all the memory that the parser will ever need. Returns
    /// `NoMemory` if there isn't enough.
    pub fn new(alloc: Global, room: u32) -> Result<CParser, NoMemory>
        requires least { 6 ≤ room }
        requires most { room ≤ 1048576 }
        ensures { IfOk result (λ parser. parser ≡ idle room) }
    {
        let parser = Parser::new(alloc, room)?;
        Ok(CParser { parser, room })
    }

    /// Takes one more byte (MIDI 1.0 Detailed Specification), as `take_byte` does. Writes a message with its
    /// status byte, even if the input left that out (running status), and an exclusive from F0 to F7. Any
    /// byte may need a buffer of two bytes more than the limit of an exclusive (`parser_size`).
    #[inline]
    pub fn byte(
        &mut self,
        byte: u8,
        offset: u64,
        buffer: &mut [u8],
        outcome: &mut ByteOutcome,
    ) -> Status
        ensures { IsByteTaken messages self.old byte offset buffer.old
            (number_of result) outcome.new buffer.new self.new }
    {
        take_byte(self, byte, offset, buffer, outcome)
    }

    /// Takes bytes that follow one another as `take_bytes` does, each as `byte` does.
    pub fn bytes(
        &mut self,
        bytes: &[u8],
        offset: u64,
        buffer: &mut [u8],
        outcomes: &mut [ByteOutcome],
        block: &mut Block,
    ) -> Status
        ensures { AreBytesTaken messages self.old offset bytes.now buffer.old outcomes.old
            (number_of result) block.new buffer.new outcomes.new self.new }
    {
        take_bytes(self, bytes, offset, buffer, outcomes, block)
    }

    /// Returns the parser to the state in which `new` creates it with the same limit: nothing is open, and
    /// there is no running status (own rule). The call doesn't allocate.
    pub fn reset(&mut self)
        ensures { self.new ≡ idle self.old.room }
    {
        self.parser.reset();
    }

    /// Writes the line for the message or exclusive that is open, with the offset of its first byte. Returns
    /// `Nothing`, and writes no line, exactly if nothing is open.
    pub fn end(&self, line: &mut ListingLine) -> Status
        ensures { IsEnd (open_of self.now) (number_of result) line.old line.new }
    {
        match self.parser.end() {
            None => Status::Nothing,
            Some((start, what)) => {
                *line = ListingLine::of(kind_of_open(what), start);
                Status::Done
            }
        }
    }
}

impl ByteReader for CParser {
    ghost reader = { messages };

    #[inline(always)]
    fn most_written(&self) -> usize {
        parser_size(self.room)
    }

    #[inline(always)]
    fn take(&mut self, byte: u8, offset: u64, buffer: &mut [u8]) -> Result<ByteOutcome, Status> {
        exclusives_stay_within_their_limit();
        show(&self.parser.byte(byte, offset), offset, buffer)
    }
}
