// Reads the bytes of a MIDI 1.0 stream into the caller's buffers.
ghost use Rattle.std.specs.Prelude.{◌≡◌, ◌≤◌, ◌<◌, length};
ghost use Rattle.c_answers.specs.Fronts.{with_front};
ghost use Rattle.c_answers.specs.Numbers.{number_of};
ghost use Rattle.c_answers.specs.Outcomes.{items_of};
ghost use Rattle.c_streams.specs.Readers.{AreBytesTaken, IsByteTaken, Reader, Reads};

use c_answers::{Block, ByteOutcome, Status};

/// A reader that takes the bytes of a stream one by one, and writes what they complete.
pub trait ByteReader {
    ghost reader: { Reader Self };

    /// Returns the largest buffer size that a byte may need.
    fn most_written(&self) -> usize
        ensures { result ≡ reader.most self.now };

    /// Takes one more byte, and writes what it completes to the front of the buffer. The error says why the
    /// byte is refused; nothing is written then.
    fn take(&mut self, byte: u8, offset: u64, buffer: &mut [u8]) -> Result<ByteOutcome, Status>
        requires { reader.most self.old ≤ length buffer.old }
        ensures answer { Reads reader self.old byte offset buffer.old result buffer.new }
        ensures after { self.new ≡ reader.after self.old offset byte }
        ensures most { reader.most self.new ≡ reader.most self.old };
}

/// Takes one more byte, and writes what it completes to the front of the buffer. The outcome has the number
/// of elements written and the lines of the byte (own rules).
///
/// Returns `SmallBuffer` exactly if the buffer is smaller than any byte may need. Then nothing is taken, and
/// `need` is a sufficient size. Returns `ExclusiveTooLong` at the byte that makes an exclusive longer than
/// the limit. The exclusive is dropped.
#[inline(always)]
pub fn take_byte<R: ByteReader>(
    reader: &mut R,
    byte: u8,
    offset: u64,
    buffer: &mut [u8],
    outcome: &mut ByteOutcome,
) -> Status
    ensures { IsByteTaken R.reader reader.old byte offset buffer.old
        (number_of result) outcome.new buffer.new reader.new }
{
    let most = reader.most_written();
    if buffer.len() < most {
        *outcome = ByteOutcome::needing(offset, most);
        return Status::SmallBuffer;
    }
    match reader.take(byte, offset, buffer) {
        Ok(taken) => {
            *outcome = taken;
            Status::Done
        }
        Err(why) => {
            *outcome = ByteOutcome::empty(offset);
            why
        }
    }
}

// Writes an outcome to the front of these, if something was written for its byte or the byte has a line.
// Returns the number of outcomes written, 0 or 1.
#[inline(always)]
fn put_outcome(outcome: ByteOutcome, outcomes: &mut [ByteOutcome]) -> usize
    requires { 0 < length outcomes.old }
    ensures count { result ≡ length (items_of outcome) }
    ensures written { outcomes.new ≡ with_front (items_of outcome) outcomes.old }
{
    if !outcome.is_told() {
        return 0;
    }
    outcomes[0] = outcome;
    1
}

/// Takes bytes that follow one another, each as `take_byte` does. Writes what they complete to the buffer,
/// one after the other, and an outcome for each byte that completes something or has a line. The offset is
/// the offset of the first byte; each byte adds 1 to it, modulo 2^64. `block` says how far the call came.
///
/// Returns `Done` if all bytes are taken. Returns `SmallBuffer` before a byte for which no outcome is left,
/// or for which the rest of the buffer is smaller than any byte may need. `ExclusiveTooLong` ends the call
/// after the byte that is refused. That byte has no outcome, and counts as taken and as refused (own rules).
pub fn take_bytes<R: ByteReader>(
    reader: &mut R,
    bytes: &[u8],
    offset: u64,
    buffer: &mut [u8],
    outcomes: &mut [ByteOutcome],
    block: &mut Block,
) -> Status
    ensures { AreBytesTaken R.reader reader.old offset bytes.now buffer.old outcomes.old
        (number_of result) block.new buffer.new outcomes.new reader.new }
{
    let most = reader.most_written();
    *block = Block::nothing();
    let mut next = offset;
    while block.taken < bytes.len() {
        if block.is_full(buffer.len(), most, outcomes.len(), 1) {
            return Status::SmallBuffer;
        }
        match reader.take(bytes[block.taken], next, &mut buffer[block.written..]) {
            Ok(outcome) => {
                let count = put_outcome(outcome, &mut outcomes[block.items..]);
                block.add(1, outcome.written, count);
                next = next.wrapping_add(1);
            }
            Err(why) => {
                block.refuse(1);
                return why;
            }
        }
    }
    Status::Done
}
