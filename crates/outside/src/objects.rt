// The objects that the program reads from and writes to.
ghost use Rattle.std.specs.Prelude.{◌≡◌, ℕ, ◌≤◌, ◌<◌, Bool, true, List, ◌++◌, length, OnOk, OnErr, IfOk, None, Some, Option};
ghost use Rattle.outside.specs.Outside.{HasCause, HasOpenCause, Takes, PutsPiece, PutsPair, Fetches, kept_bytes};

use small_types::U4;
use thiserror::Error;

/// A read or a write failed.
#[derive(Clone, Copy, Debug, PartialEq, Eq, Error)]
#[error("a read or a write failed")]
pub struct Failed;

/// The reason why a folder or a text couldn't be opened.
#[derive(Clone, Copy, Debug, PartialEq, Eq, Error)]
pub enum OpenFault {
    /// The folder or file doesn't exist, or can't be opened or read.
    #[error("the folder or file cannot be opened")]
    Failed,
    /// The call ran out of memory.
    #[error("out of memory")]
    NoMemory,
}

/// The reason why a reader stopped.
#[derive(Clone, Copy, Debug, PartialEq, Eq, Error)]
pub enum ReadStop {
    /// The source failed. You can call the reader again: it continues from there.
    #[error(transparent)]
    Read(Failed),
    /// The input ended within the item that begins at this offset, counted in bytes from 0.
    #[error("the input ends within what begins at byte {0}")]
    Truncated(u64),
    /// The source returned more bytes than the reader's limit.
    #[error("the input is longer than the limit")]
    TooLong,
}

/// A source of bytes.
pub trait Source {
    /// The bytes that the object hasn't returned yet, if the object shows them.
    ghost left: { Self → Option (List ℕ) };

    /// The number of times that the object has failed.
    ghost faults: { Self → ℕ };

    /// Fills a prefix of the buffer, which must not be empty, and returns the number of bytes. A result of
    /// 0 means the end of the input. An `Err` is returned only if the count of faults rose; then no byte
    /// was taken.
    fn take(&mut self, buf: &mut [u8]) -> Result<usize, Failed>
        requires { 0 < length buf.old }
        ensures bound { IfOk result (λ n. n ≤ length buf.new) }
        ensures bytes { Takes (left self.old) (left self.new) result buf.new }
        ensures cause { HasCause (faults self.old) (faults self.new) result };

    /// Returns whether a `take` may block until more bytes arrive: it may for a pipe, but not for a file.
    /// No clause constrains the result. If it is `true` although no read blocks, output is only written out
    /// more often.
    fn may_wait(&self) -> bool {
        true
    }
}

/// A sink for bytes.
pub trait Sink {
    /// The bytes that the object contains, if the object shows them.
    ghost held: { Self → Option (List ℕ) };

    /// The number of times that the object has failed.
    ghost faults: { Self → ℕ };

    /// Appends the piece, which must not be empty. An `Err` is returned only if the count of faults rose;
    /// then at most a prefix that isn't the whole piece was appended.
    fn put(&mut self, piece: &[u8]) -> Result<(), Failed>
        requires { 0 < length piece.now }
        ensures bytes { PutsPiece (held self.old) (held self.new) result piece.now }
        ensures cause { HasCause (faults self.old) (faults self.new) result };

    /// Tries to write out what an object has gathered, before the input is waited for. It reports no
    /// fault: what it can't write stays gathered, and the next `put` fails, which counts the fault.
    fn write_out(&mut self)
        ensures bytes { held self.new ≡ held self.old }
        ensures faults { faults self.new ≡ faults self.old }
    {}
}

/// A sink for sixteen streams of bytes, called lanes, one for each group.
pub trait Lanes {
    /// Whether pieces may be put. They may after `begin` has succeeded.
    ghost begun: { Self → Bool };

    /// The first 4,096 bytes of the path that `begin` was called with, or `None` in a new object.
    ghost folder: { Self → Option (List ℕ) };

    /// The pieces with their lanes, if the object shows them.
    ghost pieces: { Self → Option (List (ℕ × List ℕ)) };

    /// The number of times that the object has failed.
    ghost faults: { Self → ℕ };

    /// Opens the lanes in a folder. Call it once. No clause says when `NoMemory` is returned.
    fn begin(&mut self, path: &str) -> Result<(), OpenFault>
        requires { folder self.old ≡ None }
        ensures folder { folder self.new ≡ Some (kept_bytes path.now) }
        ensures pieces { pieces self.new ≡ pieces self.old }
        ensures begun { OnOk result (begun self.new ≡ true) }
        ensures err { OnErr result (begun self.new ≡ begun self.old) }
        ensures cause { HasOpenCause (faults self.old) (faults self.new) result };

    /// Appends a piece, which must not be empty, to a lane. Call it only after `begin` has succeeded. An
    /// `Err` is returned only if the count of faults rose; then either nothing was appended, or a nonempty
    /// prefix that isn't the whole piece.
    fn put(&mut self, lane: U4, piece: &[u8]) -> Result<(), Failed>
        requires begun { begun self.old ≡ true }
        requires piece { 0 < length piece.now }
        ensures begun { begun self.new ≡ begun self.old }
        ensures folder { folder self.new ≡ folder self.old }
        ensures pieces { PutsPair (pieces self.old) (pieces self.new) result lane piece.now }
        ensures cause { HasCause (faults self.old) (faults self.new) result };

    /// Tries to write out what an object has gathered, of every lane, before the input is waited for. It
    /// reports no fault: what it can't write stays gathered, and the next `put` fails, to whichever lane,
    /// which counts the fault.
    fn write_out(&mut self)
        ensures begun { begun self.new ≡ begun self.old }
        ensures folder { folder self.new ≡ folder self.old }
        ensures pieces { pieces self.new ≡ pieces self.old }
        ensures faults { faults self.new ≡ faults self.old }
    {}
}

/// A source of named texts.
pub trait Shelf {
    /// The first 4,096 bytes of the name that `fetch` was called with, or `None` in a new object.
    ghost asked: { Self → Option (List ℕ) };

    /// The text of each name, if the object shows them.
    ghost texts: { Self → Option (List ℕ → Option (List ℕ)) };

    /// The number of times that the object has failed.
    ghost faults: { Self → ℕ };

    /// Appends the first `limit` bytes of the named text to `into`, or the whole text if it is shorter.
    /// Call it once. Returns `Failed` if no text has the name. No clause says when `NoMemory` is returned.
    fn fetch(&mut self, name: &str, limit: usize, into: &mut Vec<u8>) -> Result<(), OpenFault>
        requires { asked self.old ≡ None }
        ensures asked { asked self.new ≡ Some (kept_bytes name.now) }
        ensures texts { texts self.new ≡ texts self.old }
        ensures ok { OnOk result (Fetches (texts self.old) name.now limit into.old.items into.new.items) }
        ensures err { OnErr result ((more : List ℕ) × (into.new.items ≡ into.old.items ++ more)) }
        ensures cause { HasOpenCause (faults self.old) (faults self.new) result };
}
