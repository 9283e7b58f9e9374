// Lanes in memory.
ghost use Rattle.std.specs.Prelude.{◌≡◌, ◌+◌, ◌<◌, ◌≤◌, [], ◌∷◌, ◌++◌, length, true, false, None, Some, Ok, is_ok, OnOk, OnErr, vec_len, vec_capacity, IfOk, MatchOption, slice_get};
ghost use Rattle.midi_edge.specs.Entries.{AreWithin, pieces_in};
ghost use Rattle.midi_edge.specs.MemLanes.{after_put, after_begin};
ghost use Rattle.outside.specs.Outside.{PutsPair, HasCause, HasOpenCause, kept_bytes};

use crate::kept_text::KeptText;
use crate::script::kept_at;
use outside::{Failed, Lanes, OpenFault};
use small_types::{NoMemory, U4};
use std::alloc::Global;
use std::marker::Model;

#[derive(Clone, Copy, Debug)]
struct Entry {
    lane: U4,
    start: usize,
    end: usize,
}

/// Lanes with a fixed capacity for bytes and pieces. They fail at the puts that you list, and then keep as
/// many bytes as you list. In contracts their value is their `LanesState`.
#[derive(Drop)]
pub struct MemLanes {
    bytes: Vec<u8>,
    entries: Vec<Entry>,
    room: usize,
    most: usize,
    fails: Vec<(u64, usize)>,
    calls: u64,
    faults: u64,
    is_begun: bool,
    path: KeptText,
}

impl Model for MemLanes {
    ghost use Rattle.std.specs.Prelude.{◌≤◌, vec_len, vec_capacity};
    ghost use Rattle.midi_edge.specs.Entries.{AreWithin, pieces_in};
    ghost use Rattle.midi_edge.specs.MemLanes.{LanesState};

    ghost Value = { LanesState };

    ghost view = { λ l. record {
      begun = l.is_begun;
      folder = l.path;
      pieces = pieces_in l.bytes.items l.entries.items;
      size = vec_len l.bytes;
      room = l.room;
      most = l.most;
      fails = l.fails.items;
      calls = l.calls;
      faults = l.faults;
    } };

    ghost invariant = { λ l. (vec_len l.bytes ≤ l.room) × (vec_len l.entries ≤ l.most)
        × (l.room ≤ vec_capacity l.bytes) × (l.most ≤ vec_capacity l.entries)
        × AreWithin (vec_len l.bytes) l.entries.items };
}

impl MemLanes {
    /// Creates empty lanes with a capacity of `room` bytes in at most `entries` pieces. `begin` never
    /// fails.
    ///
    /// Puts are counted from 0, up to `u64::MAX`. Put number k fails exactly if `fails` contains k or if a
    /// capacity would be exceeded. If `fails` contains k, the put keeps as many bytes of the piece as
    /// `fails` says, but at most all but one, and at most as many as fit. A put that fails only for a
    /// capacity keeps none. Returns `NoMemory` if the capacity can't be allocated.
    pub fn new(
        alloc: Global,
        room: usize,
        entries: usize,
        fails: Vec<(u64, usize)>,
    ) -> Result<MemLanes, NoMemory>
        ensures { IfOk result (λ lanes. lanes ≡ record {
          begun = false;
          folder = None;
          pieces = [];
          size = 0;
          room = room;
          most = entries;
          fails = fails.items;
          calls = 0;
          faults = 0;
        }) }
    {
        let Ok(bytes) = Vec::with_capacity(alloc, room) else {
            return Err(NoMemory);
        };
        let most = entries;
        let Ok(entries) = Vec::with_capacity(alloc, most) else {
            return Err(NoMemory);
        };
        Ok(MemLanes {
            bytes,
            entries,
            room,
            most,
            fails,
            calls: 0,
            faults: 0,
            is_begun: false,
            path: KeptText::new(),
        })
    }

    /// Returns the lane and the bytes of piece number `k`, counted from 0, or `None` past the last piece.
    pub fn entry(&self, k: usize) -> Option<(U4, &[u8])>
        ensures { MatchOption result (length self.now.pieces ≤ k)
            (λ e. slice_get self.now.pieces k ≡ Some (e.0, e.1.now)) }
    {
        let entry = self.entries.get(k)?;
        Some((entry.lane, &self.bytes[entry.start..entry.end]))
    }
}

// Appends a piece, for which there must be room.
fn add(bytes: &mut Vec<u8>, entries: &mut Vec<Entry>, lane: U4, piece: &[u8])
    requires parts { AreWithin (vec_len bytes.old) entries.old.items }
    requires room { vec_len bytes.old + length piece.now ≤ vec_capacity bytes.old }
    requires room_entries { vec_len entries.old < vec_capacity entries.old }
    ensures pieces { pieces_in bytes.new.items entries.new.items
        ≡ pieces_in bytes.old.items entries.old.items ++ (lane, piece.now) ∷ [] }
    ensures parts { AreWithin (vec_len bytes.new) entries.new.items }
    ensures len { vec_len bytes.new ≡ vec_len bytes.old + length piece.now }
    ensures len_entries { vec_len entries.new ≡ vec_len entries.old + 1 }
    ensures capacity { vec_capacity bytes.old ≤ vec_capacity bytes.new }
    ensures capacity_entries { vec_capacity entries.old ≤ vec_capacity entries.new }
{
    let start = bytes.len();
    let _ = bytes.extend_from_slice(piece);
    entries.push_reserved(Entry {
        lane,
        start,
        end: bytes.len(),
    });
}

impl Lanes for MemLanes {
    ghost begun = { λ l. l.begun };

    ghost folder = { λ l. l.folder };

    ghost pieces = { λ l. Some l.pieces };

    ghost faults = { λ l. l.faults };

    fn begin(&mut self, path: &str) -> Result<(), OpenFault>
        requires { self.old.folder ≡ None }
        ensures folder { self.new.folder ≡ Some (kept_bytes path.now) }
        ensures pieces { Some self.new.pieces ≡ Some self.old.pieces }
        ensures begun { OnOk result (self.new.begun ≡ true) }
        ensures err { OnErr result (self.new.begun ≡ self.old.begun) }
        ensures cause { HasOpenCause self.old.faults self.new.faults result }
        ensures exact { (result ≡ Ok tt) × (self.new ≡ after_begin self.old path.now) }
    {
        self.path.keep(path);
        self.is_begun = true;
        Ok(())
    }

    fn put(&mut self, lane: U4, piece: &[u8]) -> Result<(), Failed>
        requires begun { self.old.begun ≡ true }
        requires piece { 0 < length piece.now }
        ensures begun { self.new.begun ≡ self.old.begun }
        ensures folder { self.new.folder ≡ self.old.folder }
        ensures pieces { PutsPair (Some self.old.pieces) (Some self.new.pieces) result lane piece.now }
        ensures cause { HasCause self.old.faults self.new.faults result }
        ensures exact { (self.new, is_ok result) ≡ after_put self.old lane piece.now }
    {
        let call = self.calls;
        self.calls = call.saturating_add(1);
        let room = self.room - self.bytes.len();
        let has_entry = self.entries.len() < self.most;
        if let Some(kept) = kept_at(&self.fails, call) {
            let count = kept.min(piece.len() - 1).min(room);
            if count > 0 && has_entry {
                add(&mut self.bytes, &mut self.entries, lane, &piece[..count]);
            }
            self.faults = self.faults.saturating_add(1);
            return Err(Failed);
        }
        if piece.len() > room || !has_entry {
            self.faults = self.faults.saturating_add(1);
            return Err(Failed);
        }
        add(&mut self.bytes, &mut self.entries, lane, piece);
        Ok(())
    }
}
