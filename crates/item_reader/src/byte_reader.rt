// A reader of bytes from a source.
ghost use Rattle.std.specs.Prelude.{◌≡◌, ◌≢◌, ℕ, ◌≤◌, ◌<◌, ◌^◌, length, drop, IfSome, MatchOption};
ghost use Rattle.item_reader.specs.ByteReader.{byte_at, byte_length, new_bytes, one_byte};
ghost use Rattle.item_reader.specs.Cut.{IsRest};
ghost use Rattle.item_reader.specs.Reading.{Answers, Brings, IsHeldAt, MoreCause, ReadCause};
ghost use Rattle.item_reader.specs.Reading.{allowed_bytes, answer_of, cursor, held_bytes, more_of, passed};

use crate::cutting::Cut;
use crate::reader::ItemReader;
use outside::{ReadStop, Source};
use std::marker::Model;

/// The way of cutting in which each byte is an item.
#[derive(Clone, Copy, Debug, PartialEq, Eq)]
pub struct EachByte;

impl Cut for EachByte {
    type Item = (u8, u64);

    ghost asked = { λ _. one_byte };

    ghost item_of = { λ _. byte_at };

    #[inline(always)]
    fn asked(&self, bytes: &[u8]) -> usize {
        1
    }

    #[inline(always)]
    fn item(&self, offset: u64, bytes: &[u8]) -> (u8, u64) {
        (bytes[0], offset)
    }

    ghost lengths = { λ _. byte_length };
}

/// Returns the bytes of a source one at a time. In contracts its value is its `Reading`.
#[derive(Drop)]
pub struct ByteReader {
    items: ItemReader<EachByte>,
}

impl Model for ByteReader {
    ghost use Rattle.std.specs.Prelude.{IfSome};
    ghost use Rattle.item_reader.specs.ByteReader.{IsByteTail};
    ghost use Rattle.item_reader.specs.Reading.{Reading};
    ghost use Rattle.item_reader.specs.declared.byte_reader.EachByte.{EachByte};

    ghost Value = { Reading EachByte };

    ghost view = { λ r. r.items };

    ghost invariant = { λ r. IfSome r.items.end IsByteTail };
}

impl ByteReader {
    /// Creates a reader that returns at most `limit` bytes. The limit is at most 2^62 (own rule).
    pub fn new(limit: u64) -> ByteReader
        requires { limit ≤ 2 ^ 62 }
        ensures { result ≡ new_bytes limit }
    {
        ByteReader {
            items: ItemReader::new(EachByte, limit),
        }
    }

    /// Returns the next byte and its offset, counted in bytes from 0, or `None` at the end.
    ///
    /// An `Err(Read(..))` changes nothing in the reader, and a later call continues from there.
    /// `Err(TooLong)` means that the reader has returned as many bytes as its limit allows, and the source
    /// has more. After `None` or `TooLong`, each later call returns the same and doesn't read the source.
    /// `Truncated` is never returned.
    #[inline(always)]
    pub fn next<S: Source>(&mut self, src: &mut S) -> Result<Option<(u8, u64)>, ReadStop>
        ensures answer { self.old.end ≡ None → Answers one_byte byte_at
            (cursor self.old (S.left src.old)) (cursor self.new (S.left src.new)) result }
        ensures again { IfSome self.old.end
            (λ last. (result ≡ answer_of last) × (self.new ≡ self.old) × (src.new ≡ src.old)) }
        ensures held { 0 < length self.old.pending → src.new ≡ src.old }
        ensures whole { (o : ℕ) → result ≢ Err (ReadStop.Truncated o) }
        ensures cause { ReadCause (S.faults src.old) (S.faults src.new) result }
    {
        self.items.next(src)
    }

    /// Returns the bytes that the reader has read ahead and may return, and the offset of the first of
    /// them, counted in bytes from 0. A caller that reads many bytes takes them from here with `item_in`,
    /// and then tells `pass` how many it has used.
    #[inline(always)]
    pub fn held(&self) -> (&[u8], u64)
        ensures bytes { result.0.now ≡ held_bytes self.now }
        ensures offset { result.1 ≡ self.now.offset }
    {
        self.items.held()
    }

    /// Returns the byte at place `at` of the bytes that `held` returned, with its offset, and the place of
    /// the next byte: `next` would return the same byte there. `None` exactly if no byte is left at that
    /// place. `offset` is the offset of the first byte of `held`.
    #[inline(always)]
    pub fn item_in(&self, held: &[u8], offset: u64, at: usize) -> Option<((u8, u64), usize)>
        requires held { held.now ≡ held_bytes self.now }
        requires offset { offset ≡ self.now.offset }
        requires at { at ≤ length held.now }
        ensures { MatchOption result (IsRest one_byte (drop at held.now))
            (λ given. IsHeldAt one_byte byte_at at given.1 self.now given.0) }
    {
        self.items.item_in(held, offset, at)
    }

    /// Skips the first `count` of the bytes that `held` returns, as if `next` had returned them.
    #[inline(always)]
    pub fn pass(&mut self, count: usize)
        requires { count ≤ allowed_bytes self.old }
        ensures { self.new ≡ passed count self.old }
    {
        self.items.pass(count);
    }

    /// Reads the source until the reader has a byte within the limit, unless the bytes have ended, and
    /// returns `true` if it has one. Without a byte, it returns what `next` would return, with `false`
    /// instead of `None`. The reader reads the source only if it has no byte left. `Truncated` is never
    /// returned.
    #[inline(always)]
    pub fn more<S: Source>(&mut self, src: &mut S) -> Result<bool, ReadStop>
        ensures answer { self.old.end ≡ None → Brings one_byte
            (cursor self.old (S.left src.old)) (cursor self.new (S.left src.new)) result }
        ensures again { IfSome self.old.end
            (λ last. (result ≡ more_of last) × (self.new ≡ self.old) × (src.new ≡ src.old)) }
        ensures held { 0 < length self.old.pending → src.new ≡ src.old }
        ensures whole { (o : ℕ) → result ≢ Err (ReadStop.Truncated o) }
        ensures cause { MoreCause (S.faults src.old) (S.faults src.new) result }
    {
        self.items.more(src)
    }
}
