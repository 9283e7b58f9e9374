// The packets of the replies, one after the other.
ghost use Rattle.std.specs.Prelude.{◌≡◌, ◌<◌, ◌≤◌, ◌==◌, IfSome, drop, is_none, length, slice_index, take};
ghost use Rattle.packet_words.specs.Words.{words_asked};

use packet_words::words::words_in_packet;
use std::marker::Model;

/// The packets of the replies that haven't been read yet, borrowed from the endpoint that made them. In
/// contracts its value is the list of their words.
#[derive(Debug, Drop)]
pub struct ReplyPackets<'a> {
    words: &'a [u32],
}

impl<'a> Model for ReplyPackets<'a> {
    ghost use Rattle.std.specs.Prelude.{ℕ, List};

    ghost Value = { List ℕ };

    ghost view = { λ r. r.words.now };
}

impl<'a> ReplyPackets<'a> {
    /// Creates the packets that these words spell, one after the other.
    pub(crate) fn new(words: &'a [u32]) -> Self
        ensures { result ≡ words.now }
    {
        ReplyPackets { words }
    }

    /// Returns whether no packet is left (own rule).
    pub fn is_empty(&self) -> bool
        ensures { result ≡ (length self.now == 0) }
    {
        self.words.is_empty()
    }

    /// Returns the words of all packets that are left, one packet after the other (own rule).
    pub fn words(&self) -> &'a [u32]
        ensures { result.now ≡ self.now }
    {
        self.words
    }

    /// Removes the next packet and returns its words. There are 1 to 4, as the first word says (M2-104-UM,
    /// message types). Returns `None` exactly if no packet is left.
    pub fn next(&mut self) -> Option<&'a [u32]>
        ensures none { is_none result ≡ (length self.old == 0) }
        ensures words { IfSome result (λ words.
            words.now ≡ take (words_asked (slice_index self.old 0)) self.old) }
        ensures size { IfSome result (λ words. (0 < length words.now) × (length words.now ≤ 4)) }
        ensures rest { self.new ≡ drop (words_asked (slice_index self.old 0)) self.old }
    {
        if self.words.is_empty() {
            return None;
        }
        let size = words_in_packet(self.words[0]).min(self.words.len());
        let (packet, rest) = self.words.split_at(size);
        self.words = rest;
        Some(packet)
    }
}
