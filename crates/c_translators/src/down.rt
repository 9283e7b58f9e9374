// The translator down, which writes to the caller's buffer.
ghost use Rattle.std.specs.Prelude.{◌≡◌, ◌≤◌, ◌<◌, ℕ, List, length, slice_index, take, true, false, None, IfErr, IfOk, IfSome, IsTrue};
ghost use Rattle.packet_words.specs.Words.{words_asked};
ghost use Rattle.ump_grammar.specs.Ranges.{IsPacket};
ghost use Rattle.down_translator.specs.Held.{down_after, limit_of, new_down, paired_of, style_of};
ghost use Rattle.down_translator.specs.KeptLanes.{style_in};
ghost use Rattle.down_translator.specs.Lowered.{attribute_line, lowered_bytes, shortened_bytes};
ghost use Rattle.c_answers.specs.Fronts.{with_front};
ghost use Rattle.c_answers.specs.Numbers.{number_of};
ghost use Rattle.c_translators.specs.PacketBlocks.{AreTaken, IsFrontTaken, IsPairTaken};
ghost use Rattle.c_translators.specs.Down.{most_bytes, most_bytes_of, with_piece, HasBegun, IsAccepted, IsAnswered, IsCarried, IsRead, IsTakenOrRefused, Reads};
ghost use Rattle.c_translators.specs.Pieces.{piece_shown};

use crate::piece::Piece;
use c_answers::{Block, Status, framed, put_bytes};
use down_translator::{BadStep, Down, Kind, Listed, LoweredMessage, ShortenedMessage, Style};
use encoded_packets::EncodedPacket;
use packet_words::words::words_in_packet;
use small_types::{NoMemory, U4};
use std::alloc::Global;
use std::marker::Model;

/// The size, in bytes, of a buffer that holds any piece except that of an exclusive.
const LEAST_SIZE: usize = 12;

// Returns the packet of the first two words, if there are two and `EncodedPacket::of_two` recognizes the
// packet. It recognizes most packets, so that the code that follows needs no table of lengths.
#[inline(always)]
fn pair_in(words: &[u32]) -> Option<EncodedPacket>
    ensures packet { IfSome result (λ packet. Reads (take 2 words.now) packet) }
    ensures two { IfSome result (λ packet. words_asked (slice_index words.now 0) ≡ 2) }
    ensures there { IfSome result (λ packet. 2 ≤ length words.now) }
{
    if words.len() < 2 {
        return None;
    }
    let packet = EncodedPacket::of_two(words[0], words[1])?;
    Some(packet)
}

// Returns the packet that the words encode, or the reason why no packet has them.
#[inline(always)]
fn read(words: &[u32], offset: u64) -> Result<EncodedPacket, Status>
    ensures { IsRead words.now result }
{
    let Some(framed) = framed(words, offset) else {
        return Err(Status::BadWordCount);
    };
    match EncodedPacket::new(&framed) {
        Ok(packet) => Ok(packet),
        Err(bad) => Err(Status::of_bad(bad)),
    }
}

// Copies a message to the front of the buffer, and returns the number of bytes. Most packets of an exclusive
// have no message.
#[tactic(auto, using(crate::proofs::DownLaws::nothing_put))]
#[inline(always)]
fn put(message: &[u8], buffer: &mut [u8]) -> usize
    requires { length message.now ≤ length buffer.old }
    ensures count { result ≡ length message.now }
    ensures written { buffer.new ≡ with_front message.now buffer.old }
{
    if message.is_empty() {
        return 0;
    }
    put_bytes(message, buffer)
}

// Writes a message for a lane, and returns its piece, with the line.
#[inline(always)]
fn write(message: &[u8], lane: U4, listed: Option<Listed>, buffer: &mut [u8]) -> Piece
    requires { length message.now ≤ length buffer.old }
    ensures written { buffer.new ≡ with_front message.now buffer.old }
    ensures piece { result ≡ piece_shown (length message.now) lane listed }
{
    let count = put(message, buffer);
    Piece::of(count, lane, listed)
}

// Adds the line for an attribute that is left out to a piece. Few messages have one.
#[inline(never)]
fn show_attribute(offset: u64, lane: U4, piece: &mut Piece)
    requires { piece.old ≡ piece_shown piece.old.written lane None }
    ensures { piece.new ≡ piece_shown piece.old.written lane (attribute_line offset lane true) }
{
    let listed = Listed {
        offset,
        group: Some(lane),
        kind: Kind::NoteAttribute,
    };
    *piece = Piece::of(piece.written, lane, Some(listed));
}

// Writes a message for a lane, and its piece, with the line for an attribute that is left out.
#[inline(always)]
fn write_message(
    message: &[u8],
    lane: U4,
    has_attribute: bool,
    offset: u64,
    buffer: &mut [u8],
    piece: &mut Piece,
)
    requires { length message.now ≤ length buffer.old }
    ensures written { buffer.new ≡ with_front message.now buffer.old }
    ensures piece { piece.new ≡ piece_shown (length message.now) lane
        (attribute_line offset lane has_attribute) }
{
    *piece = write(message, lane, None, buffer);
    if has_attribute {
        show_attribute(offset, lane, piece);
    }
}

// Writes a message that alone carries its packet, and its piece.
#[inline(always)]
fn write_direct(message: &LoweredMessage, offset: u64, buffer: &mut [u8], piece: &mut Piece)
    requires { 12 ≤ length buffer.old }
    ensures written { buffer.new ≡ with_front (lowered_bytes message.now) buffer.old }
    ensures piece { piece.new ≡ piece_shown (length (lowered_bytes message.now)) message.now.lane
        (attribute_line offset message.now.lane message.now.has_attribute) }
{
    let (lane, has_attribute) = (message.lane, message.has_attribute);
    let (status, first) = (message.status, message.first.get());
    match message.second {
        Some(second) => write_message(
            &[status, first, second.get()],
            lane,
            has_attribute,
            offset,
            buffer,
            piece,
        ),
        None => write_message(&[status, first], lane, has_attribute, offset, buffer, piece),
    }
}

// Writes a message of compact style that alone carries its packet, and its piece.
#[inline(always)]
fn write_shortened(message: &ShortenedMessage, offset: u64, buffer: &mut [u8], piece: &mut Piece)
    requires { 12 ≤ length buffer.old }
    ensures written { buffer.new ≡ with_front (shortened_bytes message.now) buffer.old }
    ensures piece { piece.new ≡ piece_shown (length (shortened_bytes message.now)) message.now.lane
        (attribute_line offset message.now.lane message.now.has_attribute) }
{
    let (lane, has_attribute) = (message.lane, message.has_attribute);
    let first = message.first.get();
    let status = message.status;
    match (message.is_running, message.second) {
        (false, Some(second)) => write_message(
            &[status, first, second.get()],
            lane,
            has_attribute,
            offset,
            buffer,
            piece,
        ),
        (false, None) => {
            write_message(&[status, first], lane, has_attribute, offset, buffer, piece);
        }
        (true, Some(second)) => {
            write_message(
                &[first, second.get()],
                lane,
                has_attribute,
                offset,
                buffer,
                piece,
            );
        }
        (true, None) => write_message(&[first], lane, has_attribute, offset, buffer, piece),
    }
}

// Takes a packet, and writes its piece.
#[inline(always)]
fn carry(
    down: &mut Down,
    packet: &EncodedPacket,
    offset: u64,
    buffer: &mut [u8],
    piece: &mut Piece,
) -> Result<(), BadStep>
    requires packet { IsPacket packet.now }
    requires room { most_bytes down.old ≤ length buffer.old }
    ensures answer { IsCarried down.old offset packet.now buffer.old
        (with_piece result piece.new) buffer.new }
    ensures after { down.new ≡ down_after offset packet.now down.old }
    ensures kept { IfErr result (λ why. piece.new ≡ piece.old) }
{
    match down.encoded(packet, offset) {
        Ok(carried) => {
            let (lane, listed) = (carried.lane(), carried.listed());
            *piece = write(carried.piece, lane, listed, buffer);
            return Ok(());
        }
        Err(bad) => return Err(bad),
    }
}

// Takes the packet that the words encode, of whatever kind, and writes its piece.
#[inline(never)]
fn take_any(
    down: &mut Down,
    words: &[u32],
    offset: u64,
    buffer: &mut [u8],
    piece: &mut Piece,
) -> Result<(), Status>
    requires { most_bytes down.old ≤ length buffer.old }
    ensures answer { IsTakenOrRefused down.old offset words.now buffer.old
        (with_piece result piece.new) buffer.new down.new }
    ensures kept { IfErr result (λ why. piece.new ≡ piece.old) }
{
    match read(words, offset) {
        Ok(packet) => match carry(down, &packet, offset, buffer, piece) {
            Ok(()) => return Ok(()),
            Err(bad) => return Err(Status::of_step(bad)),
        },
        Err(why) => return Err(why),
    }
}

// Takes a packet if a single message carries it, or if it only adds six bytes to an exclusive, and writes its
// piece. Most packets are of these kinds. For any other packet, nothing changes.
#[inline(always)]
fn take_simple(
    down: &mut Down,
    packet: &EncodedPacket,
    offset: u64,
    buffer: &mut [u8],
    piece: &mut Piece,
) -> bool
    requires { 12 ≤ length buffer.old }
    ensures taken { IsTrue result → IsAccepted down.old offset packet.now buffer.old piece.new buffer.new
        × (down.new ≡ down_after offset packet.now down.old) }
    ensures same { result ≡ false →
        (down.new ≡ down.old) × (buffer.new ≡ buffer.old) × (piece.new ≡ piece.old) }
{
    if let Some(message) = down.lowered(packet) {
        write_direct(&message, offset, buffer, piece);
        return true;
    }
    if down.holds(packet) {
        *piece = Piece::none();
        return true;
    }
    if let Some(message) = down.shortened(packet) {
        write_shortened(&message, offset, buffer, piece);
        return true;
    }
    false
}

// Takes the packet of the first two of these words, if it is simple. Otherwise nothing changes.
#[inline(always)]
fn take_pair(
    down: &mut Down,
    words: &[u32],
    offset: u64,
    buffer: &mut [u8],
    piece: &mut Piece,
) -> bool
    requires { 12 ≤ length buffer.old }
    ensures taken { IsTrue result →
        IsPairTaken down.old offset words.now buffer.old piece.new buffer.new down.new }
    ensures same { result ≡ false →
        (down.new ≡ down.old) × (buffer.new ≡ buffer.old) × (piece.new ≡ piece.old) }
{
    match pair_in(words) {
        Some(packet) => take_simple(down, &packet, offset, buffer, piece),
        None => false,
    }
}

// Takes the packet that the words encode, and writes its piece.
#[inline(always)]
fn take_one(
    down: &mut Down,
    words: &[u32],
    offset: u64,
    buffer: &mut [u8],
    piece: &mut Piece,
) -> Result<(), Status>
    requires { most_bytes down.old ≤ length buffer.old }
    ensures answer { IsTakenOrRefused down.old offset words.now buffer.old
        (with_piece result piece.new) buffer.new down.new }
    ensures kept { IfErr result (λ why. piece.new ≡ piece.old) }
{
    if words.len() == 2 {
        if take_pair(down, words, offset, buffer, piece) {
            return Ok(());
        }
    }
    take_any(down, words, offset, buffer, piece)
}

// Takes the packet at the front of the words, writes its piece, and returns the number of its words. If the
// packet isn't taken, returns the reason and the number of words that are refused with it, which is 0 if some
// of its words are missing.
#[inline(always)]
fn take_front(
    down: &mut Down,
    words: &[u32],
    offset: u64,
    buffer: &mut [u8],
    piece: &mut Piece,
) -> Result<usize, (Status, usize)>
    requires some { 0 < length words.now }
    requires room { most_bytes down.old ≤ length buffer.old }
    ensures answer { IsFrontTaken down.old offset words.now buffer.old
        result piece.new buffer.new down.new }
    ensures kept { IfErr result (λ refused. piece.new ≡ piece.old) }
{
    if take_pair(down, words, offset, buffer, piece) {
        return Ok(2);
    }
    let count = words_in_packet(words[0]);
    if words.len() < count {
        return Err((Status::BadWordCount, 0));
    }
    match take_any(down, &words[..count], offset, buffer, piece) {
        Ok(()) => return Ok(count),
        Err(why) => return Err((why, count)),
    }
}

// Takes packets whose words follow one another. Any piece has at most `most_written` bytes.
#[inline(always)]
fn take_all(
    down: &mut Down,
    most_written: usize,
    words: &[u32],
    offset: u64,
    buffer: &mut [u8],
    pieces: &mut [Piece],
    block: &mut Block,
) -> Status
    requires { most_written ≡ most_bytes down.old }
    ensures answer { AreTaken down.old offset words.now buffer.old pieces.old
        (number_of result) block.new buffer.new pieces.new down.new }
    ensures most { most_bytes down.new ≡ most_bytes down.old }
{
    *block = Block::nothing();
    let mut next = offset;
    while block.taken < words.len() {
        if block.is_full(buffer.len(), most_written, pieces.len(), 1) {
            return Status::SmallBuffer;
        }
        let rest = &words[block.taken..];
        let piece = &mut pieces[block.items];
        match take_front(down, rest, next, &mut buffer[block.written..], piece) {
            Ok(count) => {
                let written = piece.written;
                block.add(count, written, 1);
                next = next.wrapping_add(4 * count as u64);
            }
            Err((why, count)) => {
                block.refuse(count);
                return why;
            }
        }
    }
    Status::Done
}

/// Returns the size, in bytes, of a buffer that holds the piece of any packet, if the limit of an exclusive
/// is `room`: two more than the limit, and at least 12 (own rule). `room` may be any number.
pub fn down_size(room: u32) -> usize
    ensures { result ≡ most_bytes_of room }
{
    (room as usize + 2).max(LEAST_SIZE)
}

/// A translator down that knows the size of a buffer which holds the piece of any packet. In contracts its
/// value is the state of the translator.
#[derive(Drop)]
pub struct CDown {
    down: Down,
    most_written: usize,
}

impl Model for CDown {
    ghost use Rattle.std.specs.Prelude.{◌≡◌};
    ghost use Rattle.down_translator.specs.Held.{DownState};
    ghost use Rattle.c_translators.specs.Down.{most_bytes};

    ghost Value = { DownState };

    ghost view = { λ sized. sized.down };

    ghost invariant = { λ sized. sized.most_written ≡ most_bytes sized.down };
}

impl CDown {
    /// Creates a translator that has nothing open. Allocates all the memory that it will ever need, for
    /// exclusives of `room` bytes between F0 and F7 in each group, 6 to 1,048,576 (own rule). Returns
    /// `NoMemory` if there isn't enough.
    pub fn new(alloc: Global, room: u32, style: Style, is_paired: bool) -> Result<CDown, NoMemory>
        requires least { 6 ≤ room }
        requires most { room ≤ 1048576 }
        ensures { IfOk result (λ down. down ≡ new_down is_paired (style_in style) room) }
    {
        let down = Down::new(alloc, room, style, is_paired)?;
        Ok(CDown {
            down,
            most_written: down_size(room),
        })
    }

    /// Returns the translator to the state in which `new` creates it with the same arguments: nothing is
    /// open, and in compact style nothing is known of a receiver (own rule). The call doesn't allocate.
    pub fn reset(&mut self)
        ensures { self.new ≡ new_down (paired_of self.old) (style_of self.old) (limit_of self.old) }
    {
        self.down.reset();
    }

    /// Takes the packet that the words encode (M2-104-UM, default translation). Writes its MIDI 1.0 bytes to
    /// the front of the buffer. Writes the number of bytes, their lane and the packet's line to `piece`.
    ///
    /// Returns the first of these that applies, and then writes nothing to the buffer (own rules):
    /// - `SmallBuffer` if the buffer is smaller than any piece may need (`down_size`);
    /// - `BadWordCount` if the number of words isn't the number that the first word's message type has;
    /// - `BadCount` if the packet is of a 7-bit exclusive and has a count above six bytes;
    /// - `HighBit` if a byte that carries seven bits is 128 or more;
    /// - `DataIncrement` or `DataDecrement` for a control change 96 or 97;
    /// - `ExclusiveTooLong` if an exclusive exceeds the limit.
    ///
    /// After `ExclusiveTooLong` the group has nothing open; after the other failures the translator is
    /// unchanged.
    #[tactic(auto, using(crate::proofs::DownLaws::taken_keeps))]
    #[inline(always)]
    pub fn packet(
        &mut self,
        words: &[u32],
        offset: u64,
        buffer: &mut [u8],
        piece: &mut Piece,
    ) -> Status
        ensures { IsAnswered self.old offset words.now buffer.old
            (number_of result) piece.new buffer.new self.new }
    {
        if buffer.len() < self.most_written {
            *piece = Piece::needing(self.most_written);
            return Status::SmallBuffer;
        }
        match take_one(&mut self.down, words, offset, buffer, piece) {
            Ok(()) => return Status::Done,
            Err(why) => {
                *piece = Piece::none();
                return why;
            }
        }
    }

    /// Takes packets whose words follow one another, each as `packet` does. Writes their bytes one after the
    /// other to the buffer, and their pieces to `pieces`. The offset is the offset of the first packet; each
    /// word adds 4 to it, modulo 2^64. `block` says how far the call came.
    ///
    /// Returns `Done` exactly if all words are taken. Returns `SmallBuffer` exactly before the first packet
    /// for which no piece is left, or for which the rest of the buffer is smaller than any piece may need.
    /// Returns `BadWordCount` before a last packet whose words are incomplete. A packet that is refused ends
    /// the call with its status. It has no piece, and its words count as taken and as refused (own rules).
    pub fn packets(
        &mut self,
        words: &[u32],
        offset: u64,
        buffer: &mut [u8],
        pieces: &mut [Piece],
        block: &mut Block,
    ) -> Status
        ensures { AreTaken self.old offset words.now buffer.old pieces.old
            (number_of result) block.new buffer.new pieces.new self.new }
    {
        let mut taken = Block::nothing();
        let status = take_all(
            &mut self.down,
            self.most_written,
            words,
            offset,
            buffer,
            pieces,
            &mut taken,
        );
        *block = taken;
        status
    }

    /// Writes the offset of the packet with which the group's open exclusive began. Returns `BadGroup` if the
    /// group isn't 0 to 15, and `Nothing` if it has no open exclusive; the offset is then unchanged.
    pub fn begun(&self, group: u8, offset: &mut u64) -> Status
        ensures { HasBegun self.now group offset.old (number_of result) offset.new }
    {
        let Some(group) = U4::new(group) else {
            return Status::BadGroup;
        };
        match self.down.begun_at(group) {
            None => Status::Nothing,
            Some(start) => {
                *offset = start;
                Status::Done
            }
        }
    }
}
