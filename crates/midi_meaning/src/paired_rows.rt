// Worked rows of paired controllers, and the same rows without pairs (own rule).
ghost use Rattle.std.specs.Prelude.{◌≡◌, [], ◌∷◌, map, true, false, Some, None};
ghost use Rattle.voice_messages.specs.declared.voice2.Voice2.TheVariants as voice2;
ghost use Rattle.ump_grammar.specs.declared.packet.Packet.TheVariants as packet;
ghost use Rattle.listing_terms.specs.declared.listed.Kind.TheVariants as kinds;
ghost use Rattle.midi_meaning.specs.Back.{back_of_bytes};
ghost use Rattle.midi_meaning.specs.Lanes.{plain_pairs};
ghost use Rattle.midi_meaning.specs.Listing.{listing_of};
ghost use Rattle.midi_meaning.specs.Messages.{mean1};
ghost use Rattle.midi_meaning.specs.Packets.{mean2};
ghost use Rattle.midi_meaning.specs.Worked.PairedRows.{
  a_new_msb,
  both_halves,
  control_of,
  data_entry,
  lsb_after_reset,
  msb_alone,
  volume,
  volume_lsb,
  volume_of_both_protocols,
  volume_twice,
};
ghost use Rattle.midi_meaning.specs.Raising.{packets_of_bytes};
ghost use Rattle.midi_meaning.specs.Worked.Rows.{registered};
ghost use Rattle.midi_meaning.specs.Styles.{compact_style, styled_pairs};

/// Proves rows: a MIDI 2.0 control change for a pair is written as MSB and LSB. Compact style also writes
/// both halves.
pub fn a_pair_is_written_as_both_halves()
    ensures plain { plain_pairs true volume ≡ (0, 0xb0 ∷ 7 ∷ 0x64 ∷ 0xb0 ∷ 0x27 ∷ 0x49 ∷ []) ∷ [] }
    ensures compact { styled_pairs true compact_style volume_twice ≡
        (0, 0xb0 ∷ 7 ∷ 0x64 ∷ 0x27 ∷ 0x49 ∷ []) ∷ (0, 7 ∷ 0x64 ∷ 0x27 ∷ 0x49 ∷ []) ∷ [] }
    ensures alone { plain_pairs false volume ≡ (0, 0xb0 ∷ 7 ∷ 0x64 ∷ []) ∷ [] }
{}

/// Proves rows: a MIDI 2.0 control change for an LSB is listed, and not translated.
pub fn an_lsb_of_midi2_is_listed()
    ensures listing { listing_of true None volume_lsb ≡
        record { offset = 0; group = Some 0; kind = kinds.FineController } ∷ [] }
    ensures pairs { plain_pairs true (map (λ placed. placed.packet) volume_lsb) ≡ [] }
    ensures unlisted { listing_of false None volume_lsb ≡ [] }
    ensures alone { plain_pairs false (map (λ placed. placed.packet) volume_lsb) ≡
        (0, 0xb0 ∷ 0x27 ∷ 0x64 ∷ []) ∷ [] }
{}

/// Proves rows: each half of a pair becomes a packet with the new value of fourteen bits, scaled up. An MSB
/// comes back with an LSB of 0.
pub fn halves_are_raised_one_by_one()
    ensures packets { packets_of_bytes true None 0 both_halves ≡
        control_of 7 0xc8024012 ∷ control_of 7 0xc81640b2 ∷ [] }
    ensures back { back_of_bytes true None 0 msb_alone ≡ 0xb0 ∷ 7 ∷ 0x64 ∷ 0xb0 ∷ 0x27 ∷ 0 ∷ [] }
    ensures alone { packets_of_bytes false None 0 both_halves ≡
        control_of 7 0xc9249249 ∷ control_of 0x27 0x0a000000 ∷ [] }
    ensures alone_back { back_of_bytes false None 0 msb_alone ≡ 0xb0 ∷ 7 ∷ 0x64 ∷ [] }
{}

/// Proves rows: Reset All Controllers sets expression to its maximum of fourteen bits, and an LSB keeps the
/// MSB of that value.
pub fn an_lsb_after_a_reset_keeps_the_greatest_msb()
    ensures packets { packets_of_bytes true None 0 lsb_after_reset ≡
        control_of 0x79 0 ∷ control_of 11 0xfe17f0bf ∷ [] }
    ensures value { ((mean1 true lsb_after_reset).channels 0).controllers 11 ≡ Some 16261 }
    ensures alone { ((mean1 false lsb_after_reset).channels 0).controllers 11 ≡ Some 127 }
{}

/// Proves rows: an MSB clears its LSB. An LSB keeps the MSB; in packets, it keeps the MSB of the value of
/// fourteen bits.
pub fn halves_of_a_pair_are_one_value()
    ensures lsb { ((mean1 true both_halves).channels 0).controllers 7 ≡ Some 12805 }
    ensures none { ((mean1 true both_halves).channels 0).controllers 0x27 ≡ None }
    ensures msb { ((mean1 true a_new_msb).channels 0).controllers 7 ≡ Some 12800 }
    ensures packets { ((mean2 true volume_of_both_protocols 0).channels 0).controllers 7 ≡ Some 0xc81640b2 }
    ensures alone { ((mean1 false both_halves).channels 0).controllers 7 ≡ Some 0x64 }
    ensures other { ((mean1 false both_halves).channels 0).controllers 0x27 ≡ Some 5 }
{}

/// Proves rows: controllers 6 and 38 are data entry, also with pairs.
pub fn data_entry_is_no_pair()
    ensures packets { packets_of_bytes true None 0 data_entry ≡
        packet.Voice2 0 (voice2.Set 0 (registered 0 0) 0x04000000)
        ∷ packet.Voice2 0 (voice2.Set 0 (registered 0 0) 0x04140000)
        ∷ [] }
    ensures controllers { ((mean1 true data_entry).channels 0).controllers 6 ≡ None }
{}
