// A source over a reader.
ghost use Rattle.std.specs.Prelude.{◌≡◌, ◌≤◌, ◌<◌, None, IfOk, length};
ghost use Rattle.std.specs.Io.{ReadsAtMost};
ghost use Rattle.std.specs.Io.KnownBytes.{ReadConsumes};
ghost use Rattle.midi_edge.specs.Adapters.{to_come};
ghost use Rattle.outside.specs.Outside.{HasCause, Takes};

use super::counted;
use outside::{Failed, Source};
use std::io;
use std::io::{ErrorKind, Read};

/// A source over any reader, without a buffer. Its `may_wait` is always `true`. If a signal interrupts a
/// read, the source tries again.
#[derive(Drop)]
pub struct ReadSource<R: Read> {
    reader: R,
    faults: u64,
}

impl<R: Read> ReadSource<R> {
    /// Creates a source that returns the reader's bytes. Its count of faults is 0.
    pub fn new(reader: R) -> Self
        ensures gives { to_come R.remaining result ≡ R.remaining reader }
        ensures faults { ⟦<ReadSource<R> as Source>⟧.faults result ≡ 0 }
    {
        ReadSource { reader, faults: 0 }
    }

    /// Returns the number of failed reads, saturating at `u64::MAX`.
    pub fn faults(&self) -> u64
        ensures { result ≡ ⟦<ReadSource<R> as Source>⟧.faults self.now }
    {
        self.faults
    }
}

impl<R: Read> Source for ReadSource<R> {
    ghost left = { λ _. None };

    ghost faults = { λ s. s.faults };

    fn take(&mut self, buf: &mut [u8]) -> Result<usize, Failed>
        requires { 0 < length buf.old }
        ensures bound { IfOk result (λ n. n ≤ length buf.new) }
        ensures bytes { Takes None None result buf.new }
        ensures cause { HasCause (⟦<Self as Source>⟧.faults self.old)
            (⟦<Self as Source>⟧.faults self.new) result }
        ensures gives { ReadConsumes (to_come R.remaining self.old)
            (to_come R.remaining self.new) result buf.new }
    {
        let answer = read_once(&mut self.reader, buf);
        counted(answer, &mut self.faults)
    }
}

// Reads once. If a signal interrupts the read, tries again.
pub(super) fn read_once<R: Read>(reader: &mut R, buf: &mut [u8]) -> io::Result<usize>
    ensures bound { ReadsAtMost result buf.new }
    ensures bytes { ReadConsumes (R.remaining reader.old) (R.remaining reader.new) result buf.new }
{
    for _ in 0..u64::MAX {
        match reader.read(buf) {
            Err(error) if error.kind() == ErrorKind::Interrupted => {}
            answer => return answer,
        }
    }
    Err(io::Error::from(ErrorKind::Interrupted))
}
