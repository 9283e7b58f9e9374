// A sink in memory.
ghost use Rattle.std.specs.Prelude.{◌≡◌, ◌<◌, [], length, is_ok, IfOk};
ghost use Rattle.outside.specs.Outside.{PutsPiece, HasCause};
ghost use Rattle.midi_edge.specs.MemSink.{after_put};

use crate::script::kept_at;
use outside::{Failed, Sink};
use small_types::NoMemory;
use std::alloc::Global;
use std::marker::Model;

/// A sink with a fixed capacity. It fails at the calls that you list, and then keeps as many bytes as you
/// list. In contracts its value is its `SinkState`.
#[derive(Drop)]
pub struct MemSink {
    bytes: Vec<u8>,
    room: usize,
    fails: Vec<(u64, usize)>,
    calls: u64,
    faults: u64,
}

impl Model for MemSink {
    ghost use Rattle.std.specs.Prelude.{◌≤◌, vec_len, vec_capacity};
    ghost use Rattle.midi_edge.specs.MemSink.{SinkState};

    ghost Value = { SinkState };

    ghost view = { λ s. record {
      held = s.bytes.items;
      room = s.room;
      fails = s.fails.items;
      calls = s.calls;
      faults = s.faults;
    } };

    ghost invariant = { λ s. (vec_len s.bytes ≤ s.room) × (s.room ≤ vec_capacity s.bytes) };
}

impl MemSink {
    /// Creates an empty sink with a capacity of `room` bytes.
    ///
    /// Calls are counted from 0, up to `u64::MAX`. Call number k fails exactly if `fails` contains k or if
    /// the capacity would be exceeded. If `fails` contains k, the call keeps as many bytes of the piece as
    /// `fails` says, but at most all but one, and at most as many as fit. A call that fails only for the
    /// capacity keeps none. Returns `NoMemory` if the capacity can't be allocated.
    pub fn new(alloc: Global, room: usize, fails: Vec<(u64, usize)>) -> Result<MemSink, NoMemory>
        ensures { IfOk result
            (λ sink. sink ≡ record { held = []; room = room; fails = fails.items; calls = 0; faults = 0 }) }
    {
        let Ok(bytes) = Vec::with_capacity(alloc, room) else {
            return Err(NoMemory);
        };
        Ok(MemSink {
            bytes,
            room,
            fails,
            calls: 0,
            faults: 0,
        })
    }

    /// Returns the bytes that the sink contains.
    pub fn held(&self) -> &[u8]
        ensures { result.now ≡ self.now.held }
    {
        &self.bytes
    }
}

impl Sink for MemSink {
    ghost use Rattle.std.specs.Prelude.{Some};

    ghost held = { λ s. Some s.held };

    ghost faults = { λ s. s.faults };

    fn put(&mut self, piece: &[u8]) -> Result<(), Failed>
        requires { 0 < length piece.now }
        ensures bytes { PutsPiece (Some self.old.held) (Some self.new.held) result piece.now }
        ensures cause { HasCause self.old.faults self.new.faults result }
        ensures exact { (self.new, is_ok result) ≡ after_put self.old piece.now }
    {
        let call = self.calls;
        self.calls = call.saturating_add(1);
        let room = self.room - self.bytes.len();
        if let Some(kept) = kept_at(&self.fails, call) {
            let count = kept.min(piece.len() - 1).min(room);
            let _ = self.bytes.extend_from_slice(&piece[..count]);
            self.faults = self.faults.saturating_add(1);
            return Err(Failed);
        }
        if piece.len() > room {
            self.faults = self.faults.saturating_add(1);
            return Err(Failed);
        }
        let _ = self.bytes.extend_from_slice(piece);
        Ok(())
    }
}
