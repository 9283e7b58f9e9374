// Writes words to a sink.
ghost use Rattle.std.specs.Prelude.{◌≤◌, ◌<◌, length, flat_map};
ghost use Rattle.outside.specs.Outside.{HasCause, PutsPiece};
ghost use Rattle.packet_words.specs.Words.{word_bytes};

use outside::{Failed, Sink};
use packet_words::{Order, write_words};

/// Writes the bytes of one to four words, one word after the other, with a single `put`. An `Err` is
/// returned only if the count of the output's faults rose; then a prefix of the bytes that isn't all of
/// them may have been written.
#[inline(always)]
pub fn put_words<W: Sink>(words: &[u32], order: Order, output: &mut W) -> Result<(), Failed>
    requires { (0 < length words.now) × (length words.now ≤ 4) }
    ensures bytes { PutsPiece (W.held output.old) (W.held output.new) result
        (flat_map (word_bytes order) words.now) }
    ensures cause { HasCause (W.faults output.old) (W.faults output.new) result }
{
    output.put(write_words(words, order).as_slice())
}
