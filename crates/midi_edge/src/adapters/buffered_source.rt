// A source over a reader, with a buffer of bytes that are read ahead.
ghost use Rattle.std.specs.Prelude.{◌≡◌, ◌≤◌, ◌<◌, None, IfOk, true, false, length};
ghost use Rattle.std.specs.Io.Buffered.{reader_remaining};
ghost use Rattle.std.specs.Io.KnownBytes.{ReadConsumes};
ghost use Rattle.midi_edge.specs.Adapters.{is_waiting, never_waits, to_be_given};
ghost use Rattle.outside.specs.Outside.{HasCause, Takes};

use super::counted;
use super::read_source::read_once;
use outside::{Failed, Source};
use small_types::NoMemory;
use std::alloc::Global;
use std::io::{BufReader, Read};

// The number of bytes that one read asks for: the capacity of a Linux pipe.
const READ_AHEAD: usize = 65_536;

/// A source over any reader. It reads up to 65,536 bytes at once into a buffer. A `take` may block if the
/// buffer is empty, unless `of_file` made the source. If a signal interrupts a read, the source tries
/// again.
#[derive(Drop)]
pub struct BufferedSource<R: Read> {
    reader: BufReader<R>,
    faults: u64,
    is_file: bool,
}

impl<R: Read + Drop> BufferedSource<R> {
    /// Creates a source that returns the reader's bytes. Its count of faults is 0. No clause says when
    /// `NoMemory` is returned.
    pub fn new(alloc: Global, reader: R) -> Result<Self, NoMemory>
        ensures gives { IfOk result (λ source. to_be_given R.remaining source ≡ R.remaining reader) }
        ensures faults { IfOk result (λ source. ⟦<BufferedSource<R> as Source>⟧.faults source ≡ 0) }
        ensures waits { IfOk result (λ source. never_waits source ≡ false) }
    {
        BufferedSource::over(alloc, reader, false)
    }

    /// Creates a source that returns the bytes of a file's reader. Its `may_wait` is always `false`. Its
    /// count of faults is 0. No clause says when `NoMemory` is returned.
    pub fn of_file(alloc: Global, reader: R) -> Result<Self, NoMemory>
        ensures gives { IfOk result (λ source. to_be_given R.remaining source ≡ R.remaining reader) }
        ensures faults { IfOk result (λ source. ⟦<BufferedSource<R> as Source>⟧.faults source ≡ 0) }
        ensures waits { IfOk result (λ source. never_waits source ≡ true) }
    {
        BufferedSource::over(alloc, reader, true)
    }

    // Creates a source over a reader. `is_file` says that no read blocks.
    fn over(alloc: Global, reader: R, is_file: bool) -> Result<Self, NoMemory>
        ensures gives { IfOk result (λ source. to_be_given R.remaining source ≡ R.remaining reader) }
        ensures faults { IfOk result (λ source. ⟦<BufferedSource<R> as Source>⟧.faults source ≡ 0) }
        ensures waits { IfOk result (λ source. never_waits source ≡ is_file) }
    {
        match BufReader::with_capacity(alloc, READ_AHEAD, reader) {
            Ok(reader) => Ok(BufferedSource {
                reader,
                faults: 0,
                is_file,
            }),
            Err(_) => Err(NoMemory),
        }
    }

    /// Returns the number of failed reads, saturating at `u64::MAX`.
    pub fn faults(&self) -> u64
        ensures { result ≡ ⟦<BufferedSource<R> as Source>⟧.faults self.now }
    {
        self.faults
    }
}

impl<R: Read + Drop> Source for BufferedSource<R> {
    ghost left = { λ _. None };

    ghost faults = { λ s. s.faults };

    fn take(&mut self, buf: &mut [u8]) -> Result<usize, Failed>
        requires { 0 < length buf.old }
        ensures bound { IfOk result (λ n. n ≤ length buf.new) }
        ensures bytes { Takes None None result buf.new }
        ensures cause { HasCause (⟦<Self as Source>⟧.faults self.old)
            (⟦<Self as Source>⟧.faults self.new) result }
        ensures gives { ReadConsumes (to_be_given R.remaining self.old)
            (to_be_given R.remaining self.new) result buf.new }
        ensures waits { never_waits self.new ≡ never_waits self.old }
    {
        let answer = read_once(&mut self.reader, buf);
        counted(answer, &mut self.faults)
    }

    /// Returns whether the buffer is empty and the source isn't a file's.
    fn may_wait(&self) -> bool
        ensures { result ≡ is_waiting self.now }
    {
        !self.is_file && self.reader.buffer().is_empty()
    }
}
