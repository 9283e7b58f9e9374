// A buffer between a source and its reader.
ghost use Rattle.std.specs.Prelude.{◌≡◌, ◌+◌, ◌-◌, ◌<◌, ◌≤◌, [], drop, length, min, take, OnErr, IfOk, MatchBool};
ghost use Rattle.outside.specs.Outside.{HasCause, IsUsedUp, ahead};
ghost use Rattle.item_reader.specs.Reading.{Keeps};

use outside::{Failed, Source};
use std::marker::Model;

const SIZE: usize = 4096;

/// The bytes that a reader has taken from a source and not yet returned. The reader may return a prefix of
/// them. Contracts see the bytes and the length of that prefix.
#[derive(Drop)]
pub struct Window {
    bytes: [u8; 4096],
    start: usize,
    // The number of bytes that the reader may return.
    stop: usize,
    end: usize,
}

impl Model for Window {
    ghost use Rattle.std.specs.Prelude.{◌-◌, ◌≤◌, take, drop};
    ghost use Rattle.item_reader.specs.ForProofs.Window.{Held};

    ghost Value = { Held };

    ghost view = { λ w. record {
      bytes = take (w.end - w.start) (drop w.start w.bytes);
      allowed = w.stop - w.start;
    } };

    ghost invariant = { λ w. (w.start ≤ w.stop) × (w.stop ≤ w.end) × (w.end ≤ 4096) };
}

impl Window {
    /// Creates an empty window.
    pub fn new() -> Self
        ensures { result ≡ record { bytes = []; allowed = 0 } }
    {
        Window {
            bytes: [0; 4096],
            start: 0,
            stop: 0,
            end: 0,
        }
    }

    /// Returns the bytes in the window, at most 4,096.
    #[inline]
    pub fn bytes(&self) -> &[u8]
        ensures bytes { result.now ≡ self.now.bytes }
        ensures size { length self.now.bytes ≤ 4096 }
    {
        &self.bytes[self.start..self.end]
    }

    /// Returns the bytes that the reader may return.
    #[inline]
    pub fn allowed(&self) -> &[u8]
        ensures bytes { result.now ≡ take self.now.allowed self.now.bytes }
        ensures size { length result.now ≡ self.now.allowed }
    {
        &self.bytes[self.start..self.stop]
    }

    /// Sets the number of bytes that the reader may return: all bytes in the window, but at most `room`.
    pub fn allow(&mut self, room: u64)
        ensures { self.new ≡ record self.old { allowed = min (length self.old.bytes) room } }
    {
        let held = self.end - self.start;
        self.stop = if held as u64 <= room {
            self.end
        } else {
            self.start + room as usize
        };
    }

    /// Removes the first `count` bytes, which the reader may return.
    #[inline]
    pub fn consume(&mut self, count: usize)
        requires { count ≤ self.old.allowed }
        ensures { self.new ≡ record {
          bytes = drop count self.old.bytes;
          allowed = self.old.allowed - count;
        } }
    {
        self.start += count;
    }

    /// Takes more bytes from the source with one `take`. Returns `false` at the end of the source. After an
    /// `Err` the bytes are unchanged. The number of bytes that the reader may return is unspecified until
    /// `allow` is called.
    #[inline(never)]
    pub fn fill<S: Source>(&mut self, source: &mut S) -> Result<bool, Failed>
        requires { length self.old.bytes < 4096 }
        ensures ahead { ahead self.new.bytes (S.left source.new) ≡ ahead self.old.bytes (S.left source.old) }
        ensures kept { Keeps self.old.bytes self.new.bytes }
        ensures more { IfOk result (λ is_more. MatchBool is_more
            (length self.old.bytes < length self.new.bytes)
            ((self.new.bytes ≡ self.old.bytes) × IsUsedUp (S.left source.new))) }
        ensures err { OnErr result ((self.new.bytes ≡ self.old.bytes)
            × (S.left source.new ≡ S.left source.old)) }
        ensures cause { HasCause (S.faults source.old) (S.faults source.new) result }
    {
        self.bytes.copy_within(self.start..self.end, 0);
        self.end -= self.start;
        self.stop = 0;
        self.start = 0;
        let count = source.take(&mut self.bytes[self.end..])?;
        self.end += count;
        Ok(count > 0)
    }
}
