// The join of 8-bit exclusives.
ghost use Rattle.std.specs.Prelude.{◌≡◌, ◌≤◌, true, false, length, IfOk, MatchOption};
ghost use Rattle.packet_words.specs.Words.{IsWhole};
ghost use Rattle.sysex8_streams.specs.Fed8.{fed8_view};
ghost use Rattle.sysex8_streams.specs.History.{part_of};
ghost use Rattle.sysex8_streams.specs.Reading.{Spells8};
ghost use Rattle.sysex8_streams.specs.Table.{answer8_to, empty_table8, with_part8};
ghost use Rattle.c_answers.specs.Fronts.{with_front};
ghost use Rattle.c_answers.specs.Numbers.{number_of};
ghost use Rattle.c_streams.specs.ForProofs.Joined.{Shows, TakesPacket};
ghost use Rattle.c_streams.specs.Sysex8.{cut_by, ended_by, has_part, needing_part, no_part, part_reply};
ghost use Rattle.c_streams.specs.Sysex8.{reply_number, ArePacketsJoined, IsBegun, IsPacketJoined};

use c_answers::{Block, Status, framed, put_bytes};
use packet_words::Words;
use packet_words::words::words_in_packet;
use small_types::{NoMemory, U4};
use std::alloc::Global;
use std::marker::Model;
use sysex8_streams::{Fed8, Part8, Streams, read8};
use ump_grammar::fields::bits;

/// The result of a packet for the 8-bit exclusive of its stream.
#[repr(C)]
#[derive(Clone, Copy)]
pub struct JoinedPart {
    /// The number of bytes written: the bytes of the exclusive that the packet ends.
    pub written: usize,
    /// After `SmallBuffer`, a sufficient buffer size. Otherwise 0.
    pub need: usize,
    /// If the packet cuts an exclusive off, the offset at which that exclusive began. Otherwise 0.
    pub cut_at: u64,
    /// The answer for the packet:
    /// - 0: it has no part of an 8-bit exclusive.
    /// - 1: its part is stored.
    /// - 2: it ends an exclusive.
    /// - 3: it continues or ends an exclusive, but none is open.
    /// - 4: it begins an exclusive, and cuts another off.
    /// - 5: it is a whole exclusive, and cuts another off.
    /// - 6: it begins an exclusive, but all slots are in use, so the exclusive is passed over.
    /// - 7: its exclusive has more bytes than the limit, and is dropped.
    pub answer: u8,
    /// The group of the stream, 0 to 15; 0 if there is no part.
    pub group: u8,
    /// The stream id, 0 to 255; 0 if there is no part.
    pub stream: u8,
}

impl JoinedPart {
    /// Returns the value for a packet without a part.
    pub fn none() -> JoinedPart
        ensures { result ≡ no_part }
    {
        JoinedPart::needing(0)
    }

    /// Returns the value for a packet that wasn't taken because the buffer was too small. `size` is a
    /// sufficient buffer size.
    pub fn needing(size: usize) -> JoinedPart
        ensures { result ≡ needing_part size }
    {
        JoinedPart {
            written: 0,
            need: size,
            cut_at: 0,
            answer: 0,
            group: 0,
            stream: 0,
        }
    }
}

// An error: a part makes its exclusive longer than the limit.
#[derive(Clone, Copy)]
struct TooLong {
    joined: JoinedPart,
}

// Returns the part of an 8-bit exclusive that a packet has.
#[tactic(auto, using(crate::proofs::EndedLaws::spelled_short))]
fn part_in(words: &Words) -> Option<Part8>
    requires { IsWhole words.now }
    ensures { MatchOption result (has_part words.now ≡ false) (λ part. (has_part words.now ≡ true)
        × Spells8 part words.now × (length part.bytes ≤ 13)) }
{
    if bits(words.as_slice()[0], 28, 4) == 5 {
        read8(words)
    } else {
        None
    }
}

// Writes the exclusive that a part ends, and returns the number of its bytes.
fn put_ended(fed: &Fed8<'_>, buffer: &mut [u8]) -> usize
    requires { length (ended_by (fed8_view fed.now)) ≤ length buffer.old }
    ensures count { result ≡ length (ended_by (fed8_view fed.now)) }
    ensures written { buffer.new ≡ with_front (ended_by (fed8_view fed.now)) buffer.old }
{
    match *fed {
        Fed8::Whole(whole) | Fed8::RestartedWhole { whole, .. } => put_bytes(whole, buffer),
        Fed8::Held | Fed8::Stray | Fed8::Restarted { .. } | Fed8::TooLong | Fed8::Full => 0,
    }
}

fn cut_by(fed: &Fed8<'_>) -> u64
    ensures { result ≡ cut_by (fed8_view fed.now) }
{
    match *fed {
        Fed8::Restarted { cut_at } | Fed8::RestartedWhole { cut_at, .. } => cut_at,
        Fed8::Held | Fed8::Whole(_) | Fed8::Stray | Fed8::TooLong | Fed8::Full => 0,
    }
}

fn reply_number(fed: &Fed8<'_>) -> u8
    ensures { result ≡ reply_number (fed8_view fed.now) }
{
    match *fed {
        Fed8::Held => 1,
        Fed8::Whole(_) => 2,
        Fed8::Stray => 3,
        Fed8::Restarted { .. } => 4,
        Fed8::RestartedWhole { .. } => 5,
        Fed8::Full => 6,
        Fed8::TooLong => 7,
    }
}

// Takes the part of a packet, and writes the exclusive that it ends.
fn take_part(
    streams: &mut Streams,
    part: &Part8,
    offset: u64,
    buffer: &mut [u8],
) -> Result<JoinedPart, TooLong>
    requires limit { 13 ≤ streams.old.room }
    requires fits { streams.old.room ≤ length buffer.old }
    requires short { length part.now.bytes ≤ 13 }
    ensures reply { Shows (part_reply streams.old part.now offset) buffer.old result buffer.new streams.new }
    ensures room { streams.new.room ≡ streams.old.room }
{
    let fed = streams.feed8(part, offset);
    let joined = JoinedPart {
        written: put_ended(&fed, buffer),
        need: 0,
        cut_at: cut_by(&fed),
        answer: reply_number(&fed),
        group: part.group.get(),
        stream: part.stream,
    };
    match fed {
        Fed8::TooLong => Err(TooLong { joined }),
        _ => Ok(joined),
    }
}

// Takes the part of a packet, if the packet has one.
fn take(
    streams: &mut Streams,
    words: &Words,
    offset: u64,
    buffer: &mut [u8],
) -> Result<JoinedPart, TooLong>
    requires whole { IsWhole words.now }
    requires limit { 13 ≤ streams.old.room }
    requires fits { streams.old.room ≤ length buffer.old }
    ensures reply { TakesPacket streams.old words.now offset buffer.old result buffer.new streams.new }
    ensures room { streams.new.room ≡ streams.old.room }
{
    match part_in(words) {
        Some(part) => take_part(streams, &part, offset, buffer),
        None => Ok(JoinedPart::none()),
    }
}

// Takes packets as `packets` does. An exclusive has at most `most` bytes.
fn take_all(
    streams: &mut Streams,
    most: usize,
    words: &[u32],
    offset: u64,
    buffer: &mut [u8],
    parts: &mut [JoinedPart],
    block: &mut Block,
) -> Status
    requires most { most ≡ streams.old.room }
    requires limit { 13 ≤ streams.old.room }
    ensures answer { ArePacketsJoined streams.old offset words.now buffer.old parts.old
        (number_of result) block.new buffer.new parts.new streams.new }
    ensures room { streams.new.room ≡ streams.old.room }
{
    *block = Block::nothing();
    let mut next = offset;
    while block.taken < words.len() {
        if block.is_full(buffer.len(), most, parts.len(), 1) {
            return Status::SmallBuffer;
        }
        let rest = &words[block.taken..];
        let count = words_in_packet(rest[0]);
        if rest.len() < count {
            return Status::BadWordCount;
        }
        let own = Words::from_slice(&rest[..count]);
        match take(streams, &own, next, &mut buffer[block.written..]) {
            Ok(part) => {
                parts[block.items] = part;
                block.add(count, part.written, 1);
                next = next.wrapping_add(4 * count as u64);
            }
            Err(_) => {
                block.refuse(count);
                return Status::ExclusiveTooLong;
            }
        }
    }
    Status::Done
}

/// The exclusives that streams have open, and their limit. In contracts its value is the contents of each
/// slot.
#[derive(Drop)]
pub struct CSysex8 {
    streams: Streams,
    room: u32,
}

impl Model for CSysex8 {
    ghost use Rattle.std.specs.Prelude.{◌≡◌, ◌≤◌};
    ghost use Rattle.sysex8_streams.specs.Table.{Table8};

    ghost Value = { Table8 };

    ghost view = { λ j. j.streams };

    ghost invariant = { λ j. (j.room ≡ j.streams.room) × (13 ≤ j.room) };
}

impl CSysex8 {
    /// Creates a join with this many slots, 1 to 64, which are all free, each for an exclusive of `room`
    /// bytes, 13 to 1,048,576 (own rules). Allocates all the memory that the join will ever need. Returns
    /// `NoMemory` if there isn't enough.
    pub fn new(alloc: Global, slots: u8, room: u32) -> Result<CSysex8, NoMemory>
        requires some { 1 ≤ slots }
        requires few { slots ≤ 64 }
        requires least { 13 ≤ room }
        requires most { room ≤ 1048576 }
        ensures { IfOk result (λ joiner. joiner ≡ empty_table8 slots room) }
    {
        let streams = Streams::new(alloc, slots, room)?;
        Ok(CSysex8 { streams, room })
    }

    /// Takes one packet (M2-104-UM, system exclusive 8-bit messages), and writes the exclusive that it ends
    /// to the front of the buffer. A packet that has no part of an 8-bit exclusive changes nothing.
    ///
    /// Returns `SmallBuffer` exactly if the buffer has fewer bytes than the limit of an exclusive; `need` is
    /// then that limit. Otherwise, returns `BadWordCount` if the words aren't those of one packet. In both
    /// cases nothing is taken. Returns `ExclusiveTooLong` at the part that makes an exclusive longer than the
    /// limit. The exclusive is dropped, and `joined` still has the answer, the group and the stream (own
    /// rules).
    pub fn packet(
        &mut self,
        words: &[u32],
        offset: u64,
        buffer: &mut [u8],
        joined: &mut JoinedPart,
    ) -> Status
        ensures { IsPacketJoined self.old words.now offset buffer.old
            (number_of result) joined.new buffer.new self.new }
    {
        let most = self.room as usize;
        if buffer.len() < most {
            *joined = JoinedPart::needing(most);
            return Status::SmallBuffer;
        }
        let Some(framed) = framed(words, offset) else {
            *joined = JoinedPart::none();
            return Status::BadWordCount;
        };
        match take(&mut self.streams, &framed.words, offset, buffer) {
            Ok(taken) => {
                *joined = taken;
                Status::Done
            }
            Err(refused) => {
                *joined = refused.joined;
                Status::ExclusiveTooLong
            }
        }
    }

    /// Takes packets whose words follow one another, each as `packet` does. Writes the exclusives that they
    /// end to the buffer, one after the other, and an element of `parts` for each packet. The offset is the
    /// offset of the first packet; each word adds 4 to it, modulo 2^64. `block` says how far the call came.
    ///
    /// Returns `Done` if all words are taken. Returns `SmallBuffer` before a packet for which no element of
    /// `parts` is left, or for which the rest of the buffer has fewer bytes than the limit of an exclusive.
    /// Returns `BadWordCount` before a last packet whose words are incomplete. `ExclusiveTooLong` ends the
    /// call after the packet that is refused. That packet has no element of `parts`, and counts as taken and
    /// as refused (own rules).
    pub fn packets(
        &mut self,
        words: &[u32],
        offset: u64,
        buffer: &mut [u8],
        parts: &mut [JoinedPart],
        block: &mut Block,
    ) -> Status
        ensures { ArePacketsJoined self.old offset words.now buffer.old parts.old
            (number_of result) block.new buffer.new parts.new self.new }
    {
        let most = self.room as usize;
        take_all(&mut self.streams, most, words, offset, buffer, parts, block)
    }

    /// Returns the join to the state in which `new` creates it with the same arguments: all slots are free
    /// (own rule). The call doesn't allocate.
    pub fn reset(&mut self)
        ensures { self.new ≡ empty_table8 (length self.old.slots) self.old.room }
    {
        self.streams.reset();
    }

    /// Writes the offset of the packet with which a stream's open exclusive began. Returns `BadGroup` if the
    /// group is above 15, and `Nothing` if the stream has no open exclusive; nothing is written then.
    pub fn begun(&self, group: u8, stream: u8, offset: &mut u64) -> Status
        ensures { IsBegun self.now group stream (number_of result) offset.old offset.new }
    {
        let Some(group) = U4::new(group) else {
            return Status::BadGroup;
        };
        match self.streams.begun8_at(group, stream) {
            Some(start) => {
                *offset = start;
                Status::Done
            }
            None => Status::Nothing,
        }
    }
}
