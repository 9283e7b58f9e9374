// Laws that hold for all recordings, with or without paired controllers.
ghost use Rattle.std.specs.Prelude.{◌≡◌, ℕ, Bool, false, List, [], ◌∷◌, ◌++◌, reverse, map, Some, None};
ghost use Rattle.std.specs.List.{AllByRecursion};
ghost use Rattle.ump_grammar.specs.declared.packet.Packet.{Packet};
ghost use Rattle.sysex_groups.specs.Exclusives.{joined};
ghost use Rattle.listing_terms.specs.declared.listed.Kind.TheVariants as kinds;
ghost use Rattle.midi_meaning.specs.Agreement.{Agrees};
ghost use Rattle.midi_meaning.specs.Laws.{
  CarriedPacketsHaveAPiece,
  JoinedBytesKnowNoOffsets,
  PlainPairsAreATranslation,
  RoomsThatAreNotPassedDoNotMatter,
};
ghost use Rattle.midi_meaning.specs.Lanes.{Denotes, lane_after, lane_bytes, pair_of, plain_pairs};
ghost use Rattle.midi_meaning.specs.Listing.{listing_of};
ghost use Rattle.midi_meaning.specs.Messages.{mean1};
ghost use Rattle.midi_meaning.specs.Packets.{mean2, IsInRange};
ghost use Rattle.midi_meaning.specs.Worked.Rows.{
  exclusives_of_two_groups,
  cut_stray_and_open,
  mixed_protocols,
  registered,
};

use midi1_bytes::laws::written_messages_are_read_again;

/// Proves that each lane denotes its group before the first packet, when the lane has no bytes.
pub fn nothing_denotes_nothing()
    ensures { (paired : Bool) (group : ℕ) → Denotes paired [] [] group }
{}

/// Proves that each lane still denotes its group after one more packet, with the packet's plain piece in
/// its group's lane: the two meanings agree, the registers are equal, and nothing is open in the lane's
/// bytes. Bytes and packets are listed newest first.
pub fn one_more_packet_keeps_each_lane()
    ensures { (paired : Bool) (bytes : List ℕ) (past : List Packet) (packet : Packet) (group : ℕ) →
        AllByRecursion IsInRange past → IsInRange packet → Denotes paired bytes past group →
        Denotes paired (lane_after paired bytes past packet group) (packet ∷ past) group }
{
    written_messages_are_read_again();
}

/// Proves that the bytes of each lane mean what the packets of its group mean, for a recording of all
/// groups and its plain pairs, both in the order in which they come.
pub fn plain_pairs_mean_the_packets()
    ensures { (paired : Bool) (packets : List Packet) (group : ℕ) →
        AllByRecursion IsInRange packets →
        Agrees paired (mean1 paired (lane_bytes group (plain_pairs paired packets)))
        (mean2 paired packets group) }
{
    written_messages_are_read_again();
}

/// Proves that the plain pairs of a recording are its translation. There is one pair for each packet that
/// is translated, in its group's lane. After each packet, the bytes of each lane so far mean what the
/// packets of its group so far mean.
pub fn plain_pairs_are_a_translation()
    ensures { (paired : Bool) → PlainPairsAreATranslation paired }
{
    written_messages_are_read_again();
}

/// Proves that a packet adds its pair after the pairs of the packets before it.
pub fn pairs_come_packet_by_packet()
    ensures { (paired : Bool) (packets : List Packet) (packet : Packet) →
        plain_pairs paired (packets ++ packet ∷ []) ≡
        plain_pairs paired packets ++ pair_of paired (reverse packets) packet }
{}

/// Proves that a packet has a piece exactly if it is translated.
pub fn carried_packets_have_a_piece()
    ensures { (paired : Bool) → CarriedPacketsHaveAPiece paired }
{}

/// Proves that the bytes of an open exclusive don't depend on the offsets of its packets.
pub fn joined_bytes_know_no_offsets()
    ensures { JoinedBytesKnowNoOffsets }
{}

/// Proves that exclusives are the same with and without a limit if no part exceeds the limit.
pub fn rooms_that_are_not_passed_do_not_matter()
    ensures { RoomsThatAreNotPassedDoNotMatter }
{}

/// Proves a row: an exclusive of one group is joined although a whole exclusive of another group comes
/// between its parts.
pub fn exclusives_are_joined_by_group()
    ensures { plain_pairs false exclusives_of_two_groups ≡
        (1, 0xf0 ∷ 0x11 ∷ 0x12 ∷ 0xf7 ∷ [])
        ∷ (0, 0xf0 ∷ 1 ∷ 2 ∷ 3 ∷ 4 ∷ 5 ∷ 6 ∷ 7 ∷ 0xf7 ∷ [])
        ∷ [] }
{}

/// Proves a row: an exclusive that is cut off, a stray part and an exclusive that stays open are listed,
/// and the whole exclusive is translated.
pub fn cut_stray_and_open_are_listed()
    ensures pairs { plain_pairs false (map (λ placed. placed.packet) cut_stray_and_open) ≡
        (0, 0xf0 ∷ 7 ∷ 8 ∷ 0xf7 ∷ []) ∷ [] }
    ensures listing { listing_of false None cut_stray_and_open ≡
        record { offset = 0; group = Some 0; kind = kinds.CutExclusive }
        ∷ record { offset = 16; group = Some 0; kind = kinds.StrayExclusive }
        ∷ record { offset = 24; group = Some 0; kind = kinds.OpenExclusive }
        ∷ [] }
{}

/// Proves a row: a data entry in a MIDI 1.0 packet sets the parameter that a MIDI 2.0 packet has selected,
/// and no other.
pub fn data_entry_follows_the_last_selection()
    ensures pairs { plain_pairs false mixed_protocols ≡
        (0, 0xb0 ∷ 0x65 ∷ 0 ∷ [])
        ∷ (0, 0xb0 ∷ 0x64 ∷ 1 ∷ [])
        ∷ (0, 0xb0 ∷ 0x65 ∷ 0 ∷ 0xb0 ∷ 0x64 ∷ 0 ∷ 0xb0 ∷ 6 ∷ 2 ∷ 0xb0 ∷ 0x26 ∷ 0 ∷ [])
        ∷ (0, 0xb0 ∷ 6 ∷ 3 ∷ [])
        ∷ [] }
    ensures entered { ((mean1 false (lane_bytes 0 (plain_pairs false mixed_protocols))).channels 0).params
        (registered 0 0) ≡ Some 384 }
    ensures never_set { ((mean1 false (lane_bytes 0 (plain_pairs false mixed_protocols))).channels 0).params
        (registered 0 1) ≡ None }
{}
