// Writes the words of a packet.
ghost use Rattle.std.specs.Prelude.{◌≤◌, ◌<◌, [], ◌∷◌, length};
ghost use Rattle.std.specs.List.{flat_map};
ghost use Rattle.pass_loop.specs.Places.{Puts};
ghost use Rattle.pass_loop.specs.Put.{in_output};
ghost use Rattle.packet_words.specs.Words.{word_bytes};

use packet_words::{Order, pair_bytes, write_words};
use pass_loop::{Outputs, RunEnd};

/// Writes the words of one packet to the output, in this byte order. The error is always `OutputFault`, and
/// is returned only if the output's count of faults rose.
#[inline(always)]
pub fn put_encoded<O: Outputs>(words: &[u32], order: Order, outputs: &mut O) -> Result<(), RunEnd>
    requires some { 0 < length words.now }
    requires few { length words.now ≤ 4 }
    ensures { Puts (in_output (flat_map (word_bytes order) words.now) ∷ [])
        (O.places outputs.old) (O.places outputs.new) result }
{
    match *words {
        [first, second] => outputs.put_output(&pair_bytes(first, second, order)),
        _ => outputs.put_output(write_words(words, order).as_slice()),
    }
}
