// A reader and a writer that fail as they are told to, and files that are read so.
ghost use Rattle.std.specs.Prelude.{◌≤◌, IfOk};

use std::alloc::Allocator;
use std::cell::Cell;
use std::fs::{Metadata, OpenFile, OpenOptions};
use std::io::{self, ErrorKind, Read, Seek, SeekFrom, Write};
use std::rt::Files;

// What a call does.
#[derive(Clone, Copy)]
pub(super) enum Step {
    Moves(usize),
    Fails(ErrorKind),
}

// How often it was called and flushed, and how many bytes were written.
#[derive(Drop)]
pub(super) struct Log {
    calls: Cell<usize>,
    flushes: Cell<usize>,
    moved: Cell<usize>,
}

impl Log {
    pub(super) fn new() -> Self {
        Log {
            calls: Cell::new(0),
            flushes: Cell::new(0),
            moved: Cell::new(0),
        }
    }

    // How often it was called, how often flushed, and how many bytes were written.
    pub(super) fn counts(&self) -> [usize; 3] {
        [self.calls.get(), self.flushes.get(), self.moved.get()]
    }
}

// Moves at most so many bytes at each call, and all of them after the last step. A write of other bytes than
// those that are awaited next fails.
#[derive(Clone, Copy)]
pub(super) struct Scripted<'a> {
    steps: &'a [Step],
    awaited: &'a [u8],
    log: &'a Log,
    can_flush: bool,
}

impl<'a> Scripted<'a> {
    pub(super) fn new(steps: &'a [Step], awaited: &'a [u8], log: &'a Log) -> Self {
        Scripted {
            steps,
            awaited,
            log,
            can_flush: true,
        }
    }

    // One that can't be flushed.
    pub(super) fn unflushed(steps: &'a [Step], awaited: &'a [u8], log: &'a Log) -> Self {
        Scripted {
            steps,
            awaited,
            log,
            can_flush: false,
        }
    }

    fn next_count(&mut self, most: usize) -> io::Result<usize>
        ensures { IfOk result (λ n. n ≤ most) }
    {
        let call = self.log.calls.get();
        self.log.calls.set(call.saturating_add(1));
        match self.steps.get(call) {
            None => Ok(most),
            Some(Step::Moves(count)) => Ok(most.min(*count)),
            Some(Step::Fails(kind)) => Err(io::Error::from(*kind)),
        }
    }
}

impl Write for Scripted<'_> {
    fn write(&mut self, buf: &[u8]) -> io::Result<usize> {
        let count = self.next_count(buf.len())?;
        let moved = self.log.moved.get();
        if moved > self.awaited.len() || !self.awaited[moved..].starts_with(&buf[..count]) {
            return Err(io::Error::from(ErrorKind::InvalidData));
        }
        self.log.moved.set(moved.saturating_add(count));
        Ok(count)
    }

    fn flush(&mut self) -> io::Result<()> {
        let flushes = self.log.flushes.get();
        self.log.flushes.set(flushes.saturating_add(1));
        if self.can_flush {
            Ok(())
        } else {
            Err(io::Error::from(ErrorKind::Other))
        }
    }
}

impl Read for Scripted<'_> {
    fn read(&mut self, buf: &mut [u8]) -> io::Result<usize> {
        let count = self.next_count(buf.len())?;
        buf[..count].fill(b'r');
        Ok(count)
    }
}

// What the calls that no test makes answer.
fn unsupported<T>() -> io::Result<T> {
    Err(io::Error::from(ErrorKind::Unsupported))
}

impl Seek for Scripted<'_> {
    fn seek(&mut self, _to: SeekFrom) -> io::Result<u64> {
        unsupported()
    }
}

impl OpenFile for Scripted<'_> {
    fn metadata(&self) -> io::Result<Metadata> {
        unsupported()
    }

    fn set_len(&self, _size: u64) -> io::Result<()> {
        unsupported()
    }

    fn sync_all(&self) -> io::Result<()> {
        unsupported()
    }

    fn sync_data(&self) -> io::Result<()> {
        unsupported()
    }
}

// Files that open as they are told to.
#[derive(Clone, Copy)]
pub(super) enum ScriptedFiles<'a> {
    Opens(Scripted<'a>),
    Fails(ErrorKind),
}

impl<'a> Files for ScriptedFiles<'a> {
    type File = Scripted<'a>;

    type Dir = Scripted<'a>;

    fn open_file(&self, _how: &OpenOptions, _path: &str) -> io::Result<Scripted<'a>> {
        match self {
            ScriptedFiles::Opens(file) => Ok(*file),
            ScriptedFiles::Fails(kind) => Err(io::Error::from(*kind)),
        }
    }

    fn open_dir(&self, _path: &str) -> io::Result<Scripted<'a>> {
        unsupported()
    }

    fn metadata(&self, _path: &str) -> io::Result<Metadata> {
        unsupported()
    }

    fn symlink_metadata(&self, _path: &str) -> io::Result<Metadata> {
        unsupported()
    }

    fn copy(&self, _from: &str, _to: &str) -> io::Result<u64> {
        unsupported()
    }

    fn rename(&self, _from: &str, _to: &str) -> io::Result<()> {
        unsupported()
    }

    fn remove_file(&self, _path: &str) -> io::Result<()> {
        unsupported()
    }

    fn create_dir(&self, _path: &str) -> io::Result<()> {
        unsupported()
    }

    fn remove_dir(&self, _path: &str) -> io::Result<()> {
        unsupported()
    }

    fn remove_dir_all<B: Allocator>(&self, _alloc: B, _path: &str) -> io::Result<()> {
        unsupported()
    }
}
