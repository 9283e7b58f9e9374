// A reader of packets from a source.
ghost use Rattle.std.specs.Prelude.{◌≡◌, ◌≤◌, ◌<◌, ◌+◌, ◌^◌, [], ◌∷◌, drop, length, IfOk, IfSome};
ghost use Rattle.std.specs.Prelude.{MatchOption};
ghost use Rattle.item_reader.specs.Cut.{IsItem};
ghost use Rattle.item_reader.specs.Reading.{MoreCause, ReadCause, allowed_bytes, answer_of, cursor};
ghost use Rattle.item_reader.specs.Reading.{held_bytes, more_of, needs_input, new_reading, passed};
ghost use Rattle.ump_words.specs.Cut.{IsRest, IsWhole, bytes_asked, framed_at, word_at};
ghost use Rattle.ump_words.specs.ForProofs.Lengths.{packet_lengths};
ghost use Rattle.ump_words.specs.Reader.{Answers, Brings, IsHeldAt, framed_pair};

use item_reader::{Cut, ItemReader};
use outside::{ReadStop, Source};
use packet_words::words::{word_in, words_in, words_in_packet};
use packet_words::{Framed, Order};
use std::marker::Model;

/// The way of cutting a stream into packets: the message type of a packet's first word determines the
/// number of words (M2-104-UM, message types). The words have this byte order, and in contracts the value
/// is the byte order alone.
#[derive(Drop)]
pub struct Packets {
    order: Order,
}

impl Model for Packets {
    ghost use Rattle.packet_words.specs.declared.words.Order.{Order};

    ghost Value = { Order };

    ghost view = { λ p. p.order };
}

impl Cut for Packets {
    type Item = Framed;

    ghost asked = { bytes_asked };

    ghost item_of = { framed_at };

    #[inline(always)]
    fn asked(&self, bytes: &[u8]) -> usize {
        if bytes.len() < 4 {
            return 4;
        }
        let first = word_in(self.order, bytes, 0);
        // Most packets are MIDI 2.0 channel voice messages, so their length doesn't need a table.
        if first >> 28 == 4 {
            8
        } else {
            4 * words_in_packet(first)
        }
    }

    #[inline(always)]
    fn item(&self, offset: u64, bytes: &[u8]) -> Framed {
        Framed {
            offset,
            words: words_in(self.order, bytes),
        }
    }

    ghost lengths = { packet_lengths };
}

/// Cuts the bytes of a source into packets. In contracts its value is its `Reading`.
#[derive(Drop)]
pub struct WordReader {
    packets: ItemReader<Packets>,
}

impl Model for WordReader {
    ghost use Rattle.ump_words.specs.Reader.{Reading};

    ghost Value = { Reading };

    ghost view = { λ r. r.packets };
}

impl WordReader {
    /// Creates a reader that has returned nothing yet. It returns packets from at most `limit` bytes, which
    /// is at most 2^62 (own rule). Offsets are counted in bytes from 0.
    pub fn new(order: Order, limit: u64) -> Self
        requires { limit ≤ 2 ^ 62 }
        ensures { result ≡ new_reading order limit }
    {
        WordReader {
            packets: ItemReader::new(Packets { order }, limit),
        }
    }

    /// Returns the next packet (M2-104-UM, message types) with its offset, the number of bytes before it,
    /// or `None` if the source ends with the last packet.
    ///
    /// * `Truncated`: the source ended within the limit and within a packet, after some of the bytes that
    ///   the message type requires, or some bytes of the first word. It has the offset of that packet.
    /// * `TooLong`: the source returned more bytes than the limit, and the remaining bytes within the limit
    ///   are no whole packet (own rule).
    /// * `Read`: returned only if the source's count of faults rose. No byte is lost, and a later call
    ///   continues from there.
    ///
    /// After any other result without a packet, every later call returns the same. The reader reads the
    /// source only if it has no whole packet.
    #[inline(always)]
    pub fn next<S: Source>(&mut self, src: &mut S) -> Result<Option<Framed>, ReadStop>
        ensures answer { self.old.end ≡ None →
            Answers (cursor self.old (S.left src.old)) (cursor self.new (S.left src.new)) result }
        ensures whole { IfOk result (λ given. IfSome given (λ framed. IsWhole framed.words)) }
        ensures again { IfSome self.old.end (λ tail.
            (result ≡ answer_of tail) × (self.new ≡ self.old) × (src.new ≡ src.old)) }
        ensures held { bytes_asked self.old.how self.old.pending ≤ length self.old.pending →
            src.new ≡ src.old }
        ensures cause { ReadCause (S.faults src.old) (S.faults src.new) result }
    {
        self.packets.next(src)
    }

    /// Returns whether no whole packet (M2-104-UM, message types) has been read ahead within the limit. If
    /// so, `next` reads the source, unless the packets have ended.
    #[inline(always)]
    pub fn needs_input(&self) -> bool
        ensures { result ≡ needs_input (bytes_asked self.now.how) self.now }
    {
        self.packets.needs_input()
    }

    /// Returns the bytes that the reader has read ahead and may return, and the offset of the first of
    /// them, counted in bytes from 0. A caller that reads many packets takes them from here with `item_in`,
    /// and then tells `pass` how many bytes it has used.
    #[inline(always)]
    pub fn held(&self) -> (&[u8], u64)
        ensures bytes { result.0.now ≡ held_bytes self.now }
        ensures offset { result.1 ≡ self.now.offset }
    {
        self.packets.held()
    }

    /// Returns the packet (M2-104-UM, message types) that begins at place `at` of the bytes that `held`
    /// returned, with its offset, and the place at which the next packet begins: `next` would return the
    /// same packet there. `None` exactly if no whole packet begins at that place. `offset` is the offset of
    /// the first byte of `held`.
    #[inline(always)]
    pub fn item_in(&self, held: &[u8], offset: u64, at: usize) -> Option<(Framed, usize)>
        requires held { held.now ≡ held_bytes self.now }
        requires offset { offset ≡ self.now.offset }
        requires at { at ≤ length held.now }
        ensures item { MatchOption result (IsRest self.now.how (drop at held.now))
            (λ given. IsHeldAt at given.1 self.now given.0) }
        ensures whole { IfSome result (λ given. IsWhole given.0.words) }
    {
        self.packets.item_in(held, offset, at)
    }

    /// Returns the two words that begin at place `at` of the bytes that `held` returned, or `None` exactly
    /// if there are fewer than 8 bytes. If the message type of the first word requires two words
    /// (M2-104-UM, message types), they are the packet that `next` would return there.
    #[inline(always)]
    pub fn two_in(&self, held: &[u8], at: usize) -> Option<(u32, u32)>
        requires held { held.now ≡ held_bytes self.now }
        requires at { at ≤ length held.now }
        ensures words { MatchOption result (length held.now < at + 8) (λ pair. (at + 8 ≤ length held.now)
            × (pair.0 ≡ word_at self.now.how (drop at held.now) 0)
            × (pair.1 ≡ word_at self.now.how (drop at held.now) 1)) }
        ensures packet { IfSome result (λ pair. IsWhole (pair.0 ∷ pair.1 ∷ []) →
            IsHeldAt at (at + 8) self.now (framed_pair (self.now.offset + at) pair.0 pair.1)) }
        ensures within { self.now.offset + length held.now ≤ 2 ^ 62 }
    {
        let rest = self.packets.rest_in(held, at);
        if rest.len() < 8 {
            return None;
        }
        let order = self.packets.how().order;
        Some((word_in(order, rest, 0), word_in(order, rest, 1)))
    }

    /// Skips the first `count` of the bytes that `held` returns, as if the packets in them had been
    /// returned.
    #[inline(always)]
    pub fn pass(&mut self, count: usize)
        requires { count ≤ allowed_bytes self.old }
        ensures { self.new ≡ passed count self.old }
    {
        self.packets.pass(count);
    }

    /// Reads the source until the reader has a whole packet (M2-104-UM, message types), unless the packets
    /// have ended, and returns `true` if it has one. Without a packet, it returns what `next` would return,
    /// with `false` instead of `None`. The reader reads the source only if it has no whole packet.
    #[inline(always)]
    pub fn more<S: Source>(&mut self, src: &mut S) -> Result<bool, ReadStop>
        ensures answer { self.old.end ≡ None →
            Brings (cursor self.old (S.left src.old)) (cursor self.new (S.left src.new)) result }
        ensures again { IfSome self.old.end (λ tail.
            (result ≡ more_of tail) × (self.new ≡ self.old) × (src.new ≡ src.old)) }
        ensures held { bytes_asked self.old.how self.old.pending ≤ length self.old.pending →
            src.new ≡ src.old }
        ensures cause { MoreCause (S.faults src.old) (S.faults src.new) result }
    {
        self.packets.more(src)
    }
}
