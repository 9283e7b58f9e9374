// The words of a packet, in the form in which a caller passes them.
ghost use Rattle.std.specs.Prelude.{◌≡◌, MatchOption, true, false};
ghost use Rattle.packet_words.specs.Words.{IsWhole};
ghost use Rattle.c_answers.specs.Whole.{is_whole};

use packet_words::words::words_in_packet;
use packet_words::{Framed, Words};

/// Returns the words as one packet at this offset, or `None` exactly if their number isn't the number that
/// the first word's message type has (M2-104-UM, message types).
#[inline(always)]
pub fn framed(words: &[u32], offset: u64) -> Option<Framed>
    ensures { MatchOption result (is_whole words.now ≡ false) (λ framed. (framed.words ≡ words.now)
        × (framed.offset ≡ offset) × (is_whole words.now ≡ true) × IsWhole framed.words) }
{
    if words.is_empty() || words_in_packet(words[0]) != words.len() {
        return None;
    }
    Some(Framed {
        offset,
        words: Words::from_slice(words),
    })
}
