// A reader of items from a source.
ghost use Rattle.std.specs.Prelude.{◌≡◌, ◌≤◌, ◌<◌, ◌+◌, ◌-◌, ◌==◌, ◌^◌, None, length, take, drop, IfSome, IfOk, MatchOption, OnErr, if◌then◌else◌};
ghost use Rattle.item_reader.specs.Cut.{IsRest};
ghost use Rattle.item_reader.specs.ForProofs.Front.{Sees};
ghost use Rattle.outside.specs.Outside.{ahead, HasCause, IsUsedUp};
ghost use Rattle.item_reader.specs.Reading.{Answers, BeginsItemAt, Brings, IsHeldAt, Keeps, MoreCause};
ghost use Rattle.item_reader.specs.Reading.{ReadCause, allowed_bytes, answer_of, cursor, held_bytes, more_of};
ghost use Rattle.item_reader.specs.Reading.{needs_input, new_reading, passed};

use crate::cutting::{Cut, Tail};
use crate::window::Window;
use outside::{Failed, ReadStop, Source};
use std::marker::Model;

/// Cuts the bytes of a source into items. In contracts its value is its `Reading`.
#[derive(Drop)]
pub struct ItemReader<H> {
    how: H,
    window: Window,
    offset: u64,
    limit: u64,
    end: Option<Tail>,
}

impl<H> Model for ItemReader<H> {
    ghost use Rattle.std.specs.Prelude.{◌≡◌, ◌-◌, ◌^◌, ◌≤◌, length};
    ghost use Rattle.item_reader.specs.Reading.{Reading, allowed_by};

    ghost Value = { Reading H };

    ghost view = { λ r. record {
      how = r.how;
      pending = r.window.bytes;
      offset = r.offset;
      limit = r.limit;
      end = r.end;
    } };

    ghost invariant = { λ r. (r.offset ≤ r.limit) × (r.limit ≤ 2 ^ 62)
        × (r.window.allowed ≡ allowed_by r.end (length r.window.bytes) (r.limit - r.offset)) };
}

impl<H: Cut> ItemReader<H> {
    /// Creates a reader that has returned nothing yet. It returns items from at most `limit` bytes, which
    /// is at most 2^62 (own rule). Offsets are counted in bytes from 0.
    pub fn new(how: H, limit: u64) -> Self
        requires { limit ≤ 2 ^ 62 }
        ensures { result ≡ new_reading how limit }
    {
        ItemReader {
            how,
            window: Window::new(),
            offset: 0,
            limit,
            end: None,
        }
    }

    /// Returns the next item, or `None` if the source ends with the last item.
    ///
    /// * `Truncated`: the source ended within the limit and within an item, after some bytes of that item.
    ///   It has the offset of that item.
    /// * `TooLong`: the source returned more bytes than the limit, and the remaining bytes within the limit
    ///   are no whole item (own rule).
    /// * `Read`: returned only if the source's count of faults rose. No byte is lost, and a later call
    ///   continues from there.
    ///
    /// After any other result without an item, every later call returns the same. The reader reads the
    /// source only if it has no whole item.
    #[inline(always)]
    pub fn next<S: Source>(&mut self, src: &mut S) -> Result<Option<H::Item>, ReadStop>
        ensures answer { self.old.end ≡ None →
            Answers (H.asked self.old.how) (H.item_of self.old.how)
            (cursor self.old (S.left src.old)) (cursor self.new (S.left src.new)) result }
        ensures again { IfSome self.old.end (λ tail.
            (result ≡ answer_of tail) × (self.new ≡ self.old) × (src.new ≡ src.old)) }
        ensures held { H.asked self.old.how self.old.pending ≤ length self.old.pending → src.new ≡ src.old }
        ensures cause { ReadCause (S.faults src.old) (S.faults src.new) result }
    {
        let allowed = self.window.allowed();
        let size = self.how.asked(allowed);
        if size <= allowed.len() {
            Ok(Some(self.give(size)))
        } else {
            self.next_taken(src)
        }
    }

    /// Returns whether no whole item has been read ahead within the limit. If so, `next` reads the source,
    /// unless the items have ended.
    #[inline(always)]
    pub fn needs_input(&self) -> bool
        ensures { result ≡ needs_input (H.asked self.now.how) self.now }
    {
        let allowed = self.window.allowed();
        self.how.asked(allowed) > allowed.len()
    }

    /// Returns the bytes that the reader has read ahead and may return, and the offset of the first of
    /// them, counted in bytes from 0. A caller that reads many items takes them from here with `item_in`,
    /// and then tells `pass` how many bytes it has used.
    #[inline(always)]
    pub fn held(&self) -> (&[u8], u64)
        ensures bytes { result.0.now ≡ held_bytes self.now }
        ensures offset { result.1 ≡ self.now.offset }
    {
        (self.window.allowed(), self.offset)
    }

    /// Returns the item that begins at place `at` of the bytes that `held` returned, and the place at which
    /// the next item begins: `next` would return the same item there. `None` exactly if no whole item
    /// begins at that place. `offset` is the offset of the first byte of `held`.
    #[inline(always)]
    pub fn item_in(&self, held: &[u8], offset: u64, at: usize) -> Option<(H::Item, usize)>
        requires held { held.now ≡ held_bytes self.now }
        requires offset { offset ≡ self.now.offset }
        requires at { at ≤ length held.now }
        ensures { MatchOption result (IsRest (H.asked self.now.how) (drop at held.now))
            (λ given. IsHeldAt (H.asked self.now.how) (H.item_of self.now.how) at given.1 self.now given.0) }
    {
        let rest = self.rest_in(held, at);
        let size = self.how.asked(rest);
        if size <= rest.len() {
            let item = self.how.item(offset + at as u64, &rest[..size]);
            Some((item, at + size))
        } else {
            None
        }
    }

    /// Returns the bytes from place `at` on of those that `held` returned. It is for a caller that
    /// determines the item at their front by itself: if they contain all of the item, it is the one that
    /// the reader would return there.
    #[inline(always)]
    pub fn rest_in<'h>(&self, held: &'h [u8], at: usize) -> &'h [u8]
        requires held { held.now ≡ held_bytes self.now }
        requires at { at ≤ length held.now }
        ensures bytes { result.now ≡ drop at held.now }
        ensures within { self.now.offset + length held.now ≤ self.now.limit }
        ensures limit { self.now.limit ≤ 2 ^ 62 }
        ensures item { BeginsItemAt (H.asked self.now.how) (H.item_of self.now.how) at self.now result.now }
    {
        let _ = &self.offset;
        &held[at..]
    }

    /// Skips the first `count` of the bytes that `held` returns, as if the items in them had been returned.
    #[inline(always)]
    pub fn pass(&mut self, count: usize)
        requires { count ≤ allowed_bytes self.old }
        ensures { self.new ≡ passed count self.old }
    {
        self.window.consume(count);
        self.offset += count as u64;
    }

    /// Returns the way in which the reader cuts the stream.
    #[inline(always)]
    pub fn how(&self) -> &H
        ensures { result.now ≡ self.now.how }
    {
        &self.how
    }

    /// Reads the source until the reader has a whole item, unless the items have ended, and returns `true`
    /// if it has one. Without an item, it returns what `next` would return, with `false` instead of `None`.
    /// The reader reads the source only if it has no whole item.
    #[inline(never)]
    pub fn more<S: Source>(&mut self, src: &mut S) -> Result<bool, ReadStop>
        ensures answer { self.old.end ≡ None → Brings (H.asked self.old.how)
            (cursor self.old (S.left src.old)) (cursor self.new (S.left src.new)) result }
        ensures again { IfSome self.old.end (λ tail.
            (result ≡ more_of tail) × (self.new ≡ self.old) × (src.new ≡ src.old)) }
        ensures held { H.asked self.old.how self.old.pending ≤ length self.old.pending → src.new ≡ src.old }
        ensures cause { MoreCause (S.faults src.old) (S.faults src.new) result }
    {
        if let Some(tail) = self.end {
            return more_of(tail);
        }
        let room = self.limit - self.offset;
        match look_ahead(&self.how, &mut self.window, room, src) {
            Ok(Front::Item(_)) => {
                self.window.allow(room);
                Ok(true)
            }
            Ok(Front::TooLong) => {
                self.window.allow(0);
                self.end = Some(Tail::TooLong);
                Err(ReadStop::TooLong)
            }
            Ok(Front::Partial) => {
                let tail = tail_at(self.window.bytes(), self.offset);
                self.window.allow(0);
                self.end = Some(tail);
                more_of(tail)
            }
            Err(failed) => {
                self.window.allow(room);
                Err(ReadStop::Read(failed))
            }
        }
    }

    // Returns the next item or end when no whole item has been read ahead. Reads the source, unless the
    // items have ended.
    #[inline(always)]
    fn next_taken<S: Source>(&mut self, src: &mut S) -> Result<Option<H::Item>, ReadStop>
        ensures answer { self.old.end ≡ None →
            Answers (H.asked self.old.how) (H.item_of self.old.how)
            (cursor self.old (S.left src.old)) (cursor self.new (S.left src.new)) result }
        ensures again { IfSome self.old.end (λ tail.
            (result ≡ answer_of tail) × (self.new ≡ self.old) × (src.new ≡ src.old)) }
        ensures held { H.asked self.old.how self.old.pending ≤ length self.old.pending → src.new ≡ src.old }
        ensures cause { ReadCause (S.faults src.old) (S.faults src.new) result }
    {
        if !self.more(src)? {
            return Ok(None);
        }
        let size = self.how.asked(self.window.allowed());
        Ok(Some(self.give(size)))
    }

    // Returns the next item, which has `size` bytes, and moves on past it.
    #[inline(always)]
    fn give(&mut self, size: usize) -> H::Item
        requires seen { Sees (H.asked self.old.how) self.old.pending
            (self.old.limit - self.old.offset) (Front.Item size) }
        requires going { self.old.end ≡ None }
        ensures item { result ≡ H.item_of self.old.how self.old.offset (take size self.old.pending) }
        ensures after { self.new ≡ record self.old {
          pending = drop size self.old.pending;
          offset = self.old.offset + size;
        } }
    {
        let item = self.how.item(self.offset, &self.window.bytes()[..size]);
        self.window.consume(size);
        self.offset += size as u64;
        item
    }
}

/// What the bytes that have been read ahead begin with.
#[derive(Clone, Copy, Debug, PartialEq, Eq)]
pub(crate) enum Front {
    /// An item of this many bytes.
    Item(usize),
    /// More bytes than the limit allows, and no item within those that it allows.
    TooLong,
    /// No whole item yet.
    Partial,
}

// Looks for an item at the front of the bytes, of which the reader may return at most `room`.
#[inline(always)]
fn front_of<H: Cut>(how: &H, bytes: &[u8], room: u64) -> Front
    ensures { Sees (H.asked how.now) bytes.now room result }
{
    let asked = how.asked(bytes);
    if asked <= bytes.len() && asked as u64 <= room {
        return Front::Item(asked);
    }
    if bytes.len() as u64 > room {
        Front::TooLong
    } else {
        Front::Partial
    }
}

// Returns the tail of a source that has ended, if these remaining bytes are no whole item.
fn tail_at(bytes: &[u8], offset: u64) -> Tail
    ensures { result ≡ (if length bytes.now == 0 then Tail.End else Tail.Truncated offset) }
{
    if bytes.is_empty() {
        Tail::End
    } else {
        Tail::Truncated(offset)
    }
}

// Returns the result of `more` for a tail.
fn more_of(tail: Tail) -> Result<bool, ReadStop>
    ensures { result ≡ more_of tail }
{
    match tail {
        Tail::End => Ok(false),
        Tail::Truncated(offset) => Err(ReadStop::Truncated(offset)),
        Tail::TooLong => Err(ReadStop::TooLong),
    }
}

// Looks for an item at the front of the window. If there is no whole item yet, reads the source first.
#[inline(never)]
fn look_ahead<H: Cut, S: Source>(
    how: &H,
    window: &mut Window,
    room: u64,
    src: &mut S,
) -> Result<Front, Failed>
    ensures ahead { ahead window.new.bytes (S.left src.new) ≡ ahead window.old.bytes (S.left src.old) }
    ensures kept { Keeps window.old.bytes window.new.bytes }
    ensures seen { IfOk result (λ front. Sees (H.asked how.now) window.new.bytes room front) }
    ensures end { IfOk result (λ front. front ≡ Front.Partial → IsUsedUp (S.left src.new)) }
    ensures err { OnErr result (IsRest (H.asked how.now) window.new.bytes
        × (length window.new.bytes ≤ room)) }
    ensures held { H.asked how.now window.old.bytes ≤ length window.old.bytes → src.new ≡ src.old }
    ensures cause { HasCause (S.faults src.old) (S.faults src.new) result }
{
    match front_of(how, window.bytes(), room) {
        Front::Partial => take_more(how, window, room, src),
        front => Ok(front),
    }
}

// Reads the source until the window has an item or too many bytes, or until the source ends.
fn take_more<H: Cut, S: Source>(
    how: &H,
    window: &mut Window,
    room: u64,
    src: &mut S,
) -> Result<Front, Failed>
    requires { Sees (H.asked how.now) window.old.bytes room Front.Partial }
    ensures ahead { ahead window.new.bytes (S.left src.new) ≡ ahead window.old.bytes (S.left src.old) }
    ensures kept { Keeps window.old.bytes window.new.bytes }
    ensures seen { IfOk result (λ front. Sees (H.asked how.now) window.new.bytes room front) }
    ensures end { IfOk result (λ front. front ≡ Front.Partial → IsUsedUp (S.left src.new)) }
    ensures err { OnErr result (IsRest (H.asked how.now) window.new.bytes
        × (length window.new.bytes ≤ room)) }
    ensures cause { HasCause (S.faults src.old) (S.faults src.new) result }
{
    loop {
        if !window.fill(src)? {
            return Ok(Front::Partial);
        }
        let front = front_of(how, window.bytes(), room);
        if front != Front::Partial {
            return Ok(front);
        }
    }
}
