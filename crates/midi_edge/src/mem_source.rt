// Sources in memory.
ghost use Rattle.std.specs.Prelude.{◌≡◌, ◌<◌, ◌≤◌, [], ◌++◌, length, take, drop, Some, Ok, vec_len, IfOk, min};
ghost use Rattle.std.specs.Result.{result_ok};
ghost use Rattle.outside.specs.Outside.{Takes, HasCause};
ghost use Rattle.midi_edge.specs.MemSource.{after_take};

use outside::{Failed, Source};
use std::marker::Model;

// Copies a prefix of the remaining bytes, at most `most`, and returns how many it copied.
fn fill(buf: &mut [u8], left: &[u8], most: usize) -> usize
    requires room { 0 < length buf.old }
    requires most { 0 < most }
    ensures bound { (result ≤ length buf.old) × (result ≤ length left.now) }
    ensures front { left.now ≡ take result buf.new ++ drop result left.now }
    ensures end { result ≡ 0 → left.now ≡ [] }
    ensures count { result ≡ min (min (length left.now) most) (length buf.old) }
{
    let count = left.len().min(most).min(buf.len());
    buf[..count].copy_from_slice(&left[..count]);
    count
}

/// A source that returns these bytes in pieces of the sizes that you list, and fails at the calls that you
/// list. In contracts its value is its `SourceState`.
#[derive(Drop)]
pub struct MemSource {
    bytes: Vec<u8>,
    cuts: Vec<usize>,
    fails: Vec<u64>,
    at: usize,
    given: usize,
    calls: u64,
    faults: u64,
}

impl Model for MemSource {
    ghost use Rattle.std.specs.Prelude.{◌≤◌, drop, vec_len};
    ghost use Rattle.midi_edge.specs.MemSource.{SourceState};

    ghost Value = { SourceState };

    ghost view = { λ s. record {
      left = drop s.at s.bytes.items;
      cuts = s.cuts.items;
      fails = s.fails.items;
      given = s.given;
      calls = s.calls;
      faults = s.faults;
    } };

    ghost invariant = { λ s. s.at ≤ vec_len s.bytes };
}

impl MemSource {
    /// Creates a source of these bytes. Successful call number j, counted from 0, returns at most `cuts[j]`
    /// bytes, where 0 counts as 1. Past the end of `cuts` a call returns any number. Calls are counted from
    /// 0, up to `u64::MAX`: call number k fails exactly if `fails` contains k.
    pub fn new(bytes: Vec<u8>, cuts: Vec<usize>, fails: Vec<u64>) -> MemSource
        ensures { result ≡ record {
          left = bytes.items;
          cuts = cuts.items;
          fails = fails.items;
          given = 0;
          calls = 0;
          faults = 0;
        } }
    {
        MemSource {
            bytes,
            cuts,
            fails,
            at: 0,
            given: 0,
            calls: 0,
            faults: 0,
        }
    }
}

impl Source for MemSource {
    ghost left = { λ s. Some s.left };

    ghost faults = { λ s. s.faults };

    fn take(&mut self, buf: &mut [u8]) -> Result<usize, Failed>
        requires { 0 < length buf.old }
        ensures bound { IfOk result (λ n. n ≤ length buf.new) }
        ensures bytes { Takes (Some self.old.left) (Some self.new.left) result buf.new }
        ensures cause { HasCause self.old.faults self.new.faults result }
        ensures exact { (self.new, result_ok result) ≡ after_take self.old (length buf.old) }
    {
        let call = self.calls;
        self.calls = call.saturating_add(1);
        if self.fails.contains(&call) {
            self.faults = self.faults.saturating_add(1);
            return Err(Failed);
        }
        let cut = self.cuts.get(self.given).copied().unwrap_or(usize::MAX);
        self.given = self.given.saturating_add(1);
        let count = fill(buf, &self.bytes[self.at..], cut.max(1));
        self.at += count;
        Ok(count)
    }
}

/// A source that returns these bytes and never fails. In contracts its value is the remaining bytes.
#[derive(Drop)]
pub struct PlainSource {
    bytes: Vec<u8>,
    at: usize,
}

impl Model for PlainSource {
    ghost use Rattle.std.specs.Prelude.{ℕ, ◌≤◌, List, drop, vec_len};

    ghost Value = { List ℕ };

    ghost view = { λ s. drop s.at s.bytes.items };

    ghost invariant = { λ s. s.at ≤ vec_len s.bytes };
}

impl PlainSource {
    /// Creates a source of these bytes.
    pub fn new(bytes: Vec<u8>) -> PlainSource
        ensures { result ≡ bytes.items }
    {
        PlainSource { bytes, at: 0 }
    }
}

impl Source for PlainSource {
    ghost left = { λ s. Some s };

    ghost faults = { λ _. 0 };

    fn take(&mut self, buf: &mut [u8]) -> Result<usize, Failed>
        requires { 0 < length buf.old }
        ensures bound { IfOk result (λ n. n ≤ length buf.new) }
        ensures bytes { Takes (Some self.old) (Some self.new) result buf.new }
        ensures cause { HasCause 0 0 result }
        ensures exact { result ≡ Ok (min (length self.old) (length buf.old)) }
    {
        let count = fill(buf, &self.bytes[self.at..], usize::MAX);
        self.at += count;
        Ok(count)
    }
}
