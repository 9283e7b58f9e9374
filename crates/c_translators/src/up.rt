// The translator up, which writes to the caller's buffer.
ghost use Rattle.std.specs.Prelude.{◌≡◌, ◌≤◌, ◌<◌, ◌+◌, ◌*◌, ◌^◌, length, false, IfOk, IfSome};
ghost use Rattle.midi1_bytes.specs.Messages.{AreData};
ghost use Rattle.midi1_bytes.specs.Parsing.{idle};
ghost use Rattle.param_collector.specs.Holding.{fresh};
ghost use Rattle.sysex_groups.specs.Cut.{part_count};
ghost use Rattle.ump_grammar.specs.Ranges.{IsPacket};
ghost use Rattle.up_translator.specs.Fronts.{is_direct};
ghost use Rattle.up_translator.specs.Held.{step_in, up_after};
ghost use Rattle.up_translator.specs.Raised.{packet_in, packets_in, payload_in, IsApart};
ghost use Rattle.midi_meaning.specs.Raising.{exclusive_packets};
ghost use Rattle.c_answers.specs.Lines.{listed_line, no_line};
ghost use Rattle.c_answers.specs.Numbers.{number_of};
ghost use Rattle.c_answers.specs.Within.{IsWithin};
ghost use Rattle.c_answers.specs.Fronts.{with_front};
ghost use Rattle.c_translators.specs.ByteBlocks.{AreTaken, IsFrontTaken, IsRun};
ghost use Rattle.c_translators.specs.Encoded.{AreEncoded, IsEncoded};
ghost use Rattle.c_answers.specs.Outcomes.{empty_outcome, items_of};
ghost use Rattle.c_translators.specs.Up.{
  HasEnd,
  HasRaised,
  IsAcceptedOrLeft,
  IsAnswered,
  IsDoneOrLeft,
  IsSound,
  IsTakenOrRefused,
  RaisesWithin,
  most_words,
  most_words_of,
  takes_direct,
};

use crate::exclusive::exclusive_words;
use c_answers::laws::exclusives_stay_within_their_limit;
use c_answers::{Block, ByteOutcome, ListingLine, Status, kind_number, put_words};
use small_types::{NoMemory, U4};
use std::alloc::Global;
use std::marker::Model;
use sysex_groups::part;
use up_translator::{BadStep, DirectStep, Listed, Raised, RaisedPacket, Up};

/// The size, in words, of a buffer that holds any single packet.
const LEAST_SIZE: usize = 4;

/// The most bytes of an exclusive that a packet carries.
const PACKET_BYTES: usize = 6;

// Writes two words one by one, so that they don't go through memory, and returns 2.
#[inline(always)]
fn put_pair(pair: [u32; 2], words: &mut [u32]) -> usize
    requires { 2 ≤ length words.old }
    ensures count { result ≡ length pair }
    ensures written { words.new ≡ with_front pair words.old }
{
    words[0] = pair[0];
    words[1] = pair[1];
    2
}

// Writes the words of a packet, and returns their number.
#[inline(always)]
fn put_packet(packet: &RaisedPacket, words: &mut [u32]) -> usize
    requires packet { IsPacket packet.now }
    requires room { 4 ≤ length words.old }
    ensures encoded { IsEncoded packet.now words.old result words.new }
    ensures some { 0 < result }
{
    match packet.pair() {
        Some(pair) => put_pair(pair, words),
        None => {
            let spelled = packet.words();
            put_words(spelled.as_slice(), words)
        }
    }
}

// Writes the words of the packets of an exclusive with these bytes between F0 and F7, and returns their
// number.
fn put_exclusive(group: U4, payload: &[u8], words: &mut [u32]) -> usize
    requires data_bytes { AreData payload.now }
    requires room { 2 * part_count payload.now ≤ length words.old }
    ensures { AreEncoded (exclusive_packets group payload.now) words.old result words.new }
{
    let mut written = 0;
    let mut k = 0;
    loop {
        match part(payload, k) {
            Some((form, bytes)) => {
                let pair = exclusive_words(group, form, bytes);
                written += put_words(&pair, &mut words[written..]);
                k += 1;
            }
            None => return written,
        }
    }
}

// Writes the words of the packets of a byte, and returns their number.
#[inline(always)]
fn put_packets(raised: &Raised<'_>, words: &mut [u32]) -> usize
    requires apart { IsApart raised.now }
    requires packet { IfSome (packet_in raised.now) IsPacket }
    requires data_bytes { IfSome (payload_in raised.now) AreData }
    requires room { RaisesWithin raised.now (length words.old) }
    ensures { AreEncoded (packets_in raised.now) words.old result words.new }
{
    match raised.packet {
        Some(packet) => put_packet(packet, words),
        None => match raised.payload {
            Some(payload) => put_exclusive(raised.group(), payload, words),
            None => 0,
        },
    }
}

// Writes a line to `line`, if there is one.
#[inline(always)]
fn show_line(listed: Option<Listed>, line: &mut ListingLine)
    requires { line.old ≡ no_line }
    ensures { line.new ≡ listed_line listed }
{
    if let Some(listed) = listed {
        line.offset = listed.offset;
        line.kind = kind_number(listed.kind);
    }
}

// Writes the words of a byte's packets. Writes the number of words and the byte's lines to the outcome. Most
// bytes have neither packets nor lines.
#[tactic(auto, using(crate::proofs::UpLaws::shows_alone))]
#[inline(always)]
fn show(raised: &Raised<'_>, offset: u64, words: &mut [u32], outcome: &mut ByteOutcome)
    requires apart { IsApart raised.now }
    requires packet { IfSome (packet_in raised.now) IsPacket }
    requires data_bytes { IfSome (payload_in raised.now) AreData }
    requires room { RaisesWithin raised.now (length words.old) }
    requires empty { outcome.old ≡ empty_outcome offset }
    ensures { HasRaised raised.now offset words.old outcome.new words.new }
{
    outcome.written = put_packets(raised, words);
    if !raised.lines.is_empty() {
        show_line(raised.lines.first(), &mut outcome.first);
        show_line(raised.lines.second(), &mut outcome.second);
    }
}

// Takes one more byte, and writes its outcome.
#[inline(always)]
fn take(
    up: &mut Up,
    byte: u8,
    offset: u64,
    words: &mut [u32],
    outcome: &mut ByteOutcome,
) -> Result<(), BadStep>
    requires within { IsWithin up.old.parsing }
    requires room { most_words up.old ≤ length words.old }
    ensures answer { IsTakenOrRefused up.old byte offset words.old result outcome.new words.new }
    ensures after { up.new ≡ up_after up.old offset byte }
{
    exclusives_stay_within_their_limit();
    *outcome = ByteOutcome::empty(offset);
    match up.byte(byte, offset) {
        Ok(raised) => {
            show(&raised, offset, words, outcome);
            return Ok(());
        }
        Err(bad) => return Err(bad),
    }
}

// Takes one more byte, and writes its outcome, if the byte completes no packet or a direct message alone.
// Otherwise the outcome has no meaning. It is written first, while few other values are in use.
#[inline(always)]
fn take_direct(
    up: &mut Up,
    byte: u8,
    offset: u64,
    words: &mut [u32],
    outcome: &mut ByteOutcome,
) -> bool
    requires sound { IsSound up.old }
    requires room { most_words up.old ≤ length words.old }
    ensures class { result ≡ is_direct up.old.holding.paired (step_in up.old offset byte) }
    ensures answer { IsAcceptedOrLeft result up.old byte offset words.old outcome.new words.new up.new }
{
    *outcome = ByteOutcome::empty(offset);
    match up.direct(byte, offset) {
        DirectStep::Held => return true,
        DirectStep::Message(voice) => {
            outcome.written = put_pair(voice.pair(), words);
            return true;
        }
        DirectStep::Other => return false,
    }
}

// The number of bytes taken at once, and the numbers of words and outcomes written for them.
#[derive(Clone, Copy)]
pub(crate) struct Run {
    count: usize,
    written: usize,
    items: usize,
}

// Takes bytes at the front of these at once, if they complete no packet, or if only the last one completes a
// direct message.
#[inline(always)]
fn take_run(
    up: &mut Up,
    bytes: &[u8],
    next: u64,
    words: &mut [u32],
    outcomes: &mut [ByteOutcome],
) -> Run
    requires sound { IsSound up.old }
    requires room { most_words up.old ≤ length words.old }
    requires item_room { 0 < length outcomes.old }
    requires offsets { next + length bytes.now < 2 ^ 64 }
    ensures { IsRun up.old next bytes.now words.old outcomes.old result words.new outcomes.new up.new }
{
    exclusives_stay_within_their_limit();
    match up.front(bytes) {
        Some((message, count)) => {
            let written = put_packet(&RaisedPacket::of_value(&message), words);
            let last = next + (count - 1) as u64;
            outcomes[0] = ByteOutcome::of(last, written, ListingLine::none(), ListingLine::none());
            Run {
                count,
                written,
                items: 1,
            }
        }
        None => Run {
            count: up.take_data(bytes),
            written: 0,
            items: 0,
        },
    }
}

// Writes the outcome of a byte, if it has one, and returns the number of outcomes written, 0 or 1.
#[inline(always)]
fn put_item(outcome: ByteOutcome, outcomes: &mut [ByteOutcome]) -> usize
    requires { 0 < length outcomes.old }
    ensures count { result ≡ length (items_of outcome) }
    ensures written { outcomes.new ≡ with_front (items_of outcome) outcomes.old }
{
    if outcome.is_told() {
        outcomes[0] = outcome;
        return 1;
    }
    0
}

// Takes the first of these bytes, and writes its outcome.
#[inline(always)]
fn take_first(
    up: &mut Up,
    bytes: &[u8],
    next: u64,
    words: &mut [u32],
    outcomes: &mut [ByteOutcome],
) -> Result<Run, BadStep>
    requires sound { IsSound up.old }
    requires room { most_words up.old ≤ length words.old }
    requires item_room { 0 < length outcomes.old }
    requires some { 0 < length bytes.now }
    ensures { IsFrontTaken up.old next bytes.now words.old outcomes.old result words.new outcomes.new up.new }
{
    exclusives_stay_within_their_limit();
    let mut outcome = ByteOutcome::empty(next);
    match up.byte(bytes[0], next) {
        Ok(raised) => {
            show(&raised, next, words, &mut outcome);
            return Ok(Run {
                count: 1,
                written: outcome.written,
                items: put_item(outcome, outcomes),
            });
        }
        Err(bad) => return Err(bad),
    }
}

// Takes bytes at the front of these, several at once where it can.
#[inline(always)]
fn take_front(
    up: &mut Up,
    bytes: &[u8],
    next: u64,
    has_wrap: bool,
    words: &mut [u32],
    outcomes: &mut [ByteOutcome],
) -> Result<Run, BadStep>
    requires sound { IsSound up.old }
    requires room { most_words up.old ≤ length words.old }
    requires item_room { 0 < length outcomes.old }
    requires some { 0 < length bytes.now }
    requires offsets { has_wrap ≡ false → next + length bytes.now < 2 ^ 64 }
    ensures { IsFrontTaken up.old next bytes.now words.old outcomes.old result words.new outcomes.new up.new }
{
    if !has_wrap {
        let run = take_run(up, bytes, next, words, outcomes);
        if run.count != 0 {
            return Ok(run);
        }
    }
    take_first(up, bytes, next, words, outcomes)
}

// Takes bytes that follow one another. Any byte has at most `most_written` words.
#[inline(always)]
fn take_all(
    up: &mut Up,
    most_written: usize,
    bytes: &[u8],
    offset: u64,
    words: &mut [u32],
    outcomes: &mut [ByteOutcome],
    block: &mut Block,
) -> Status
    requires most { most_written ≡ most_words up.old }
    requires sound { IsSound up.old }
    ensures answer { AreTaken up.old offset bytes.now words.old outcomes.old
        (number_of result) block.new words.new outcomes.new up.new }
    ensures most { most_words up.new ≡ most_words up.old }
    ensures sound { IsSound up.new }
{
    exclusives_stay_within_their_limit();
    *block = Block::nothing();
    // If the offsets wrap around to 0, bytes are taken one by one.
    let has_wrap = offset.checked_add(bytes.len() as u64).is_none();
    let mut next = offset;
    while block.taken < bytes.len() {
        if block.is_full(words.len(), most_written, outcomes.len(), 1) {
            return Status::SmallBuffer;
        }
        match take_front(
            up,
            &bytes[block.taken..],
            next,
            has_wrap,
            &mut words[block.written..],
            &mut outcomes[block.items..],
        ) {
            Ok(run) => {
                block.add(run.count, run.written, run.items);
                next = next.wrapping_add(run.count as u64);
            }
            Err(bad) => {
                block.refuse(1);
                return Status::of_step(bad);
            }
        }
    }
    Status::Done
}

/// Returns the size, in words, of a buffer that holds the packets that any byte completes, if the limit of an
/// exclusive is `room`: two words for each packet of such an exclusive, and at least 4 (own rule). `room` may
/// be any number.
pub fn up_size(room: u32) -> usize
    ensures { result ≡ most_words_of room }
{
    ((room as usize).div_ceil(PACKET_BYTES) * 2).max(LEAST_SIZE)
}

/// A translator up that knows the size of a buffer which holds the words of any byte. In contracts its value
/// is the state of the translator.
#[derive(Drop)]
pub struct CUp {
    up: Up,
    most_written: usize,
}

impl Model for CUp {
    ghost use Rattle.std.specs.Prelude.{◌≡◌};
    ghost use Rattle.up_translator.specs.Held.{UpState};
    ghost use Rattle.c_translators.specs.Up.{most_words, IsSound};

    ghost Value = { UpState };

    ghost view = { λ sized. sized.up };

    ghost invariant = { λ sized. (sized.most_written ≡ most_words sized.up) × IsSound sized.up };
}

impl CUp {
    /// Creates a translator that writes packets of this group, for a stream that has had no byte yet.
    /// Allocates all the memory that it will ever need, for exclusives of `room` bytes between F0 and F7, 6
    /// to 1,048,576 (own rule), and for the MSBs of parameters. Returns `NoMemory` if there isn't enough.
    pub fn new(alloc: Global, group: U4, room: u32, is_paired: bool) -> Result<CUp, NoMemory>
        requires least { 6 ≤ room }
        requires most { room ≤ 1048576 }
        ensures { IfOk result (λ up.
            up ≡ record { group = group; parsing = idle room; holding = fresh is_paired }) }
    {
        let up = Up::new(alloc, group, room, is_paired)?;
        Ok(CUp {
            up,
            most_written: up_size(room),
        })
    }

    /// Returns the translator to the state in which `new` creates it with the same arguments, for a stream
    /// that has had no byte yet (own rule). The call doesn't allocate.
    pub fn reset(&mut self)
        ensures { self.new ≡ record {
          group = self.old.group;
          parsing = idle self.old.parsing.room;
          holding = fresh self.old.holding.paired;
        } }
    {
        self.up.reset();
    }

    /// Takes one more byte (M2-104-UM, translation from MIDI 1.0; M2-115-U). Writes the words of the byte's
    /// packets to the front of the buffer, those of an exclusive all at once. Writes the byte's lines to
    /// `outcome`.
    ///
    /// Returns (own rules)
    /// - `SmallBuffer`, and takes nothing, exactly if the buffer is smaller than any byte may need
    ///   (`up_size`);
    /// - `DataIncrement` or `DataDecrement` at the byte that completes a control change 96 or 97, which sets
    ///   nothing;
    /// - `ExclusiveTooLong` at the byte that makes an exclusive longer than the limit; the exclusive is
    ///   dropped.
    ///
    /// In these cases nothing is written to the buffer.
    #[tactic(auto, using(crate::proofs::UpLaws::refused))]
    #[inline(always)]
    pub fn byte(
        &mut self,
        byte: u8,
        offset: u64,
        words: &mut [u32],
        outcome: &mut ByteOutcome,
    ) -> Status
        ensures { IsAnswered self.old byte offset words.old
            (number_of result) outcome.new words.new self.new }
    {
        exclusives_stay_within_their_limit();
        if words.len() < self.most_written {
            *outcome = ByteOutcome::needing(offset, self.most_written);
            return Status::SmallBuffer;
        }
        match take(&mut self.up, byte, offset, words, outcome) {
            Ok(()) => return Status::Done,
            Err(bad) => return Status::of_step(bad),
        }
    }

    /// Takes one more byte as `byte` does with `Done`, if the buffer is large enough and the byte is only
    /// stored or completes a message that is translated up alone. Returns `false` exactly otherwise. Then
    /// nothing is taken and nothing is written, except that the outcome may have any contents, and the caller
    /// has to call `byte`. Most bytes of a performance are taken, in less time than by `byte`.
    #[inline(always)]
    pub fn direct(
        &mut self,
        byte: u8,
        offset: u64,
        words: &mut [u32],
        outcome: &mut ByteOutcome,
    ) -> bool
        ensures class { result ≡ takes_direct self.old byte offset (length words.old) }
        ensures answer { IsDoneOrLeft result self.old byte offset words.old outcome.new words.new self.new }
    {
        exclusives_stay_within_their_limit();
        if words.len() < self.most_written {
            return false;
        }
        take_direct(&mut self.up, byte, offset, words, outcome)
    }

    /// Takes bytes that follow one another, each as `byte` does. Writes their words one after the other to
    /// the buffer, and an outcome for each byte that completes a packet or has a line. The offset is the
    /// offset of the first byte; each byte adds 1 to it, modulo 2^64. `block` says how far the call came.
    ///
    /// Returns `Done` exactly if all bytes are taken. Returns `SmallBuffer` exactly before the first byte for
    /// which no outcome is left, or for which the rest of the buffer is smaller than any byte may need. A
    /// byte that is refused ends the call with its status. It has no outcome, and counts as taken and as
    /// refused (own rules).
    pub fn bytes(
        &mut self,
        bytes: &[u8],
        offset: u64,
        words: &mut [u32],
        outcomes: &mut [ByteOutcome],
        block: &mut Block,
    ) -> Status
        ensures { AreTaken self.old offset bytes.now words.old outcomes.old
            (number_of result) block.new words.new outcomes.new self.new }
    {
        let mut taken = Block::nothing();
        let status = take_all(
            &mut self.up,
            self.most_written,
            bytes,
            offset,
            words,
            outcomes,
            &mut taken,
        );
        *block = taken;
        status
    }

    /// Writes the line for the message or exclusive that is open at the end of the stream. Returns `Nothing`
    /// if nothing is open; the line is then unchanged.
    pub fn end(&self, line: &mut ListingLine) -> Status
        ensures { HasEnd self.now line.old (number_of result) line.new }
    {
        match self.up.end() {
            None => Status::Nothing,
            Some(listed) => {
                *line = ListingLine::listed(Some(listed));
                Status::Done
            }
        }
    }
}
