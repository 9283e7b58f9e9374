// The replies to one message.
ghost use Rattle.std.specs.Prelude.{◌≡◌, ◌≤◌, ◌+◌, [], length};
ghost use Rattle.ump_grammar.specs.Ranges.{IsPacket};
ghost use Rattle.ump_grammar.specs.Replies.{AddsPacket, word_count};

use crate::encoding::encode;
use crate::packet::Packet;
use small_types::ShortList;
use std::marker::Model;

/// A list of at most 1,024 words of packets to be sent, stored inline without heap memory. In contracts its
/// value is the list of the words.
#[derive(Debug, Drop)]
pub struct Replies {
    words: ShortList<u32, 1024>,
}

impl Model for Replies {
    ghost use Rattle.std.specs.Prelude.{ℕ, List};

    ghost Value = { List ℕ };

    ghost view = { λ r. r.words };
}

impl Replies {
    /// Creates an empty list.
    pub fn new() -> Self
        ensures { result ≡ [] }
    {
        Replies {
            words: ShortList::new(),
        }
    }

    /// Appends the words of the packet, as `encode` returns them (M2-104-UM). The list must have at most
    /// 1,024 words afterwards, and the packet must be one that some words decode to.
    pub fn push(&mut self, packet: &Packet)
        requires packet { IsPacket packet.now }
        requires fits { length self.old + word_count packet.now ≤ 1024 }
        ensures added { AddsPacket packet.now self.old self.new }
        ensures length { length self.new ≡ length self.old + word_count packet.now }
    {
        let encoded = encode(packet);
        let words = encoded.as_slice();
        let _first = words[0];
        self.words.extend(words);
    }

    /// Removes all words.
    pub fn clear(&mut self)
        ensures { self.new ≡ [] }
    {
        self.words.clear();
    }

    /// Returns the words, at most 1,024.
    pub fn words(&self) -> &[u32]
        ensures words { result.now ≡ self.now }
        ensures fits { length self.now ≤ 1024 }
    {
        self.words.as_slice()
    }
}
