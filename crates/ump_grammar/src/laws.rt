// Laws of the grammar.
ghost use Rattle.std.specs.Prelude.{◌≡◌, ◌<◌, ◌^◌, ℕ, List, true, None, length, slice_index};
ghost use Rattle.ump_grammar.specs.declared.packet.Packet.{Packet};
ghost use Rattle.ump_grammar.specs.Ranges.{IsPacket};
ghost use Rattle.ump_grammar.specs.Reading.{ExclusivesHaveWords};
ghost use Rattle.ump_grammar.specs.Reason.{reason};
ghost use Rattle.ump_grammar.specs.Replies.{word_count};
ghost use Rattle.ump_grammar.specs.Spelling.{HasRow, IsRead, Spells, has_row};

/// Proves that words encode at most one packet.
pub fn words_spell_one_packet()
    ensures { (p q : Packet) (words : List ℕ) → Spells p words → Spells q words → p ≡ q }
{}

/// Proves that the fields of the packet that some words encode fit their places, if there is no reason to
/// refuse the words.
pub fn spelled_packets_fit()
    ensures { (p : Packet) (words : List ℕ) → Spells p words → reason words ≡ None → IsPacket p }
{}

/// Proves that words which the row of a packet allows aren't reserved.
pub fn rows_are_not_reserved()
    ensures { (p : Packet) (words : List ℕ) → IsRead p → HasRow p words → has_row words ≡ true }
{}

/// Proves that every 7-bit exclusive packet whose fields fit their places can be encoded in words
/// (M2-104-UM, system exclusive 7-bit messages).
pub fn exclusives_have_words()
    ensures { ExclusivesHaveWords }
{}

/// Proves that the words that encode a packet are as many as its row says.
pub fn packets_have_their_words()
    ensures { (p : Packet) (words : List ℕ) → slice_index words 0 < 2 ^ 32 → Spells p words →
        length words ≡ word_count p }
{}
