// A sink over a writer.
ghost use Rattle.std.specs.Prelude.{◌≡◌, ◌<◌, ◌≤◌, [], length, take, drop, None, OnOk, OnErr, IsErr, true, false};
ghost use Rattle.std.specs.Io.{WritesAtMost};
ghost use Rattle.std.specs.Io.KnownBytes.{Keeps, Appends, WriteAppends};
ghost use Rattle.midi_edge.specs.Adapters.{unwritten, accepted, has_failed_early, Accepts};
ghost use Rattle.outside.specs.Outside.{HasCause, PutsPiece};

use super::room::Room;
use super::{CAPACITY, count_fault, counted};
use outside::{Failed, Sink};
use small_types::ByteBuffer;
use std::io;
use std::io::{ErrorKind, Write};

/// A sink over any writer. It buffers small pieces, up to 8,192 bytes, and writes them out when the next
/// piece has no room. So an `Ok` of `put` means that the piece was accepted, and a fault shows at the `put`
/// that makes room, or at `flush`. A fault loses nothing that was accepted before: the next call that writes
/// writes out the bytes that the fault left in the buffer.
///
/// `write_out` writes the buffered bytes early, and counts no fault. If that fails, each later `put` and
/// `flush` fails, though `flush` still writes out as much as it can. Bytes that are still buffered when the
/// sink is dropped are lost, so call `flush` after the last `put`.
#[derive(Drop)]
pub struct WriteSink<W: Write> {
    writer: W,
    gathered: ByteBuffer<CAPACITY>,
    // It has no room after `write_out` has failed.
    room: Room,
    faults: u64,
}

impl<W: Write> WriteSink<W> {
    /// Creates a sink that writes to the writer. Nothing is buffered yet, and no fault is counted.
    pub fn new(writer: W) -> Self
        ensures empty { unwritten result ≡ [] }
        ensures holds { accepted W.contents result ≡ W.contents writer }
        ensures faults { ⟦<WriteSink<W> as Sink>⟧.faults result ≡ 0 }
        ensures early { has_failed_early result ≡ false }
    {
        WriteSink {
            writer,
            gathered: ByteBuffer::new(),
            room: Room::whole(),
            faults: 0,
        }
    }

    /// Returns the number of failed writes, which saturates at `u64::MAX`.
    pub fn faults(&self) -> u64
        ensures { result ≡ ⟦<WriteSink<W> as Sink>⟧.faults self.now }
    {
        self.faults
    }

    /// Writes out the buffered bytes, and flushes the writer. After an `Err` the bytes that aren't written
    /// yet stay buffered, and a later call continues from there. The call also returns `Err` if `write_out`
    /// has failed before, even if everything is written out now.
    pub fn flush(&mut self) -> Result<(), Failed>
        ensures bytes { Keeps (accepted W.contents self.old) (accepted W.contents self.new) }
        ensures written { OnOk result (unwritten self.new ≡ []) }
        ensures cause { HasCause (⟦<WriteSink<W> as Sink>⟧.faults self.old)
            (⟦<WriteSink<W> as Sink>⟧.faults self.new) result }
        ensures early { has_failed_early self.old ≡ true → IsErr result }
        ensures still { has_failed_early self.new ≡ has_failed_early self.old }
    {
        let answer = self.flush_writer();
        if self.room.bytes == 0 {
            count_fault(&mut self.faults);
            return Err(Failed);
        }
        counted(answer, &mut self.faults)
    }

    /// Writes out the buffered bytes, and flushes the writer, whether or not `write_out` has failed before.
    pub(super) fn flush_anyway(&mut self) -> Result<(), Failed>
        ensures bytes { Keeps (accepted W.contents self.old) (accepted W.contents self.new) }
        ensures written { OnOk result (unwritten self.new ≡ []) }
        ensures cause { HasCause self.old.faults self.new.faults result }
    {
        let answer = self.flush_writer();
        counted(answer, &mut self.faults)
    }

    fn flush_writer(&mut self) -> io::Result<()>
        ensures bytes { Keeps (accepted W.contents self.old) (accepted W.contents self.new) }
        ensures written { OnOk result (unwritten self.new ≡ []) }
        ensures faults { self.new.faults ≡ self.old.faults }
        ensures room { self.new.room ≡ self.old.room }
    {
        self.write_gathered()?;
        self.writer.flush()
    }

    /// Makes each later `put` and `flush` fail, as a `write_out` that fails does.
    pub(super) fn fail_early(&mut self)
        ensures early { has_failed_early self.new ≡ true }
        ensures rest { self.new ≡ record self.old { room = self.new.room } }
    {
        self.room = Room::none();
    }

    // Accepts a piece for which the buffer has no room, and counts a fault.
    #[inline(never)]
    fn put_after(&mut self, piece: &[u8]) -> Result<(), Failed>
        requires { 0 < length piece.now }
        ensures accepts { Accepts (accepted W.contents self.old)
            (accepted W.contents self.new) result piece.now }
        ensures cause { HasCause self.old.faults self.new.faults result }
        ensures early { has_failed_early self.old ≡ true → IsErr result }
        ensures room { self.new.room ≡ self.old.room }
    {
        let answer = self.write_after(piece);
        counted(answer, &mut self.faults)
    }

    // Writes out the buffered bytes, and then writes or buffers the piece, unless `write_out` has failed.
    fn write_after(&mut self, piece: &[u8]) -> io::Result<()>
        requires { 0 < length piece.now }
        ensures accepts { Accepts (accepted W.contents self.old)
            (accepted W.contents self.new) result piece.now }
        ensures faults { self.new.faults ≡ self.old.faults }
        ensures early { has_failed_early self.old ≡ true → IsErr result }
        ensures room { self.new.room ≡ self.old.room }
    {
        if self.room.bytes == 0 {
            return Err(io::Error::from(ErrorKind::Other));
        }
        self.write_gathered()?;
        if piece.len() > CAPACITY {
            return self.write_past(piece);
        }
        self.gathered.extend(piece);
        Ok(())
    }

    // Writes a piece, if nothing is buffered.
    fn write_past(&mut self, piece: &[u8]) -> io::Result<()>
        requires { unwritten self.old ≡ [] }
        ensures accepts { Accepts (accepted W.contents self.old)
            (accepted W.contents self.new) result piece.now }
        ensures faults { self.new.faults ≡ self.old.faults }
        ensures room { self.new.room ≡ self.old.room }
    {
        let (_, answer) = write_out(&mut self.writer, piece);
        answer
    }

    // Bytes that a fault leaves unwritten stay buffered.
    #[inline(never)]
    fn write_gathered(&mut self) -> io::Result<()>
        ensures bytes { Keeps (accepted W.contents self.old) (accepted W.contents self.new) }
        ensures written { OnOk result (unwritten self.new ≡ []) }
        ensures faults { self.new.faults ≡ self.old.faults }
        ensures room { self.new.room ≡ self.old.room }
    {
        let (written, answer) = write_out(&mut self.writer, self.gathered.as_slice());
        match answer {
            Ok(()) => {
                self.gathered.clear();
                Ok(())
            }
            Err(error) => {
                self.keep_after(written);
                Err(error)
            }
        }
    }

    // Keeps the buffered bytes after the first `written` ones. It is a separate function, so that a list as
    // large as the buffer is made only after a fault.
    #[inline(never)]
    fn keep_after(&mut self, written: usize)
        requires { written ≤ length (unwritten self.old) }
        ensures { self.new ≡ record self.old { gathered = drop written (unwritten self.old) } }
    {
        let mut rest = ByteBuffer::new();
        rest.extend(&self.gathered.as_slice()[written..]);
        self.gathered = rest;
    }
}

impl<W: Write> Sink for WriteSink<W> {
    ghost held = { λ _. None };

    ghost faults = { λ s. s.faults };

    #[inline(always)]
    fn put(&mut self, piece: &[u8]) -> Result<(), Failed>
        requires { 0 < length piece.now }
        ensures bytes { PutsPiece None None result piece.now }
        ensures cause { HasCause (⟦<Self as Sink>⟧.faults self.old)
            (⟦<Self as Sink>⟧.faults self.new) result }
        ensures accepts { Accepts (accepted W.contents self.old)
            (accepted W.contents self.new) result piece.now }
        ensures early { has_failed_early self.old ≡ true → IsErr result }
        ensures still { has_failed_early self.new ≡ has_failed_early self.old }
    {
        if self.gathered.len() + piece.len() > self.room.bytes {
            return self.put_after(piece);
        }
        self.gathered.extend(piece);
        Ok(())
    }

    fn write_out(&mut self)
        ensures bytes { ⟦<Self as Sink>⟧.held self.new ≡ ⟦<Self as Sink>⟧.held self.old }
        ensures faults { ⟦<Self as Sink>⟧.faults self.new ≡ ⟦<Self as Sink>⟧.faults self.old }
        ensures keeps { Keeps (accepted W.contents self.old) (accepted W.contents self.new) }
        ensures written { has_failed_early self.new ≡ false → unwritten self.new ≡ [] }
        ensures still { has_failed_early self.old ≡ true → has_failed_early self.new ≡ true }
    {
        if self.flush_writer().is_err() {
            self.fail_early();
        }
    }
}

// One write, tried again if a signal interrupts it.
fn write_once<W: Write>(writer: &mut W, bytes: &[u8]) -> io::Result<usize>
    ensures bound { WritesAtMost result bytes.now }
    ensures bytes { WriteAppends (W.contents writer.old) (W.contents writer.new) result bytes.now }
{
    for _ in 0..u64::MAX {
        match writer.write(bytes) {
            Err(error) if error.kind() == ErrorKind::Interrupted => {}
            answer => return answer,
        }
    }
    Err(io::Error::from(ErrorKind::Interrupted))
}

// Writes until all is written or a write fails, and says how many bytes were written: at a fault not all. A
// write that takes nothing is a fault.
fn write_out<W: Write>(writer: &mut W, bytes: &[u8]) -> (usize, io::Result<()>)
    ensures bound { result.0 ≤ length bytes.now }
    ensures all { OnOk result.1 (result.0 ≡ length bytes.now) }
    ensures part { OnErr result.1 (result.0 < length bytes.now) }
    ensures bytes { Appends (W.contents writer.old) (W.contents writer.new) (take result.0 bytes.now) }
{
    let mut written = 0;
    while written < bytes.len() {
        match write_once(writer, &bytes[written..]) {
            Ok(0) => return (written, Err(io::Error::from(ErrorKind::WriteZero))),
            Ok(count) => written += count,
            Err(error) => return (written, Err(error)),
        }
    }
    (written, Ok(()))
}
