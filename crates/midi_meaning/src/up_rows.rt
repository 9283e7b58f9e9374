// Worked rows of the way up: bytes with their packets, lines and pieces, computed from the definitions
// alone.
ghost use Rattle.std.specs.Prelude.{false, ◌≡◌, List, [], ◌∷◌, reverse, Option, Some, None};
ghost use Rattle.voice_messages.specs.declared.voice1.System.TheVariants as system;
ghost use Rattle.voice_messages.specs.declared.voice2.Form.TheVariants as form;
ghost use Rattle.voice_messages.specs.declared.voice2.Voice2.TheVariants as voice2;
ghost use Rattle.ump_grammar.specs.declared.packet.Packet.TheVariants as packet;
ghost use Rattle.listing_terms.specs.declared.listed.BadStep.TheVariants as bad;
ghost use Rattle.listing_terms.specs.declared.listed.Kind.TheVariants as kinds;
ghost use Rattle.midi_meaning.specs.Back.{back_of_bytes};
ghost use Rattle.midi_meaning.specs.Raising.{packets_of_bytes};
ghost use Rattle.midi_meaning.specs.Worked.Rows.{
  registered,
  notes_and_a_clock,
  note_on_of_velocity_zero,
  controller_and_bend,
  entry_of_both_halves,
  entries_of_two_parameters,
  entry_after_reset,
  program_alone,
  program_with_bank,
  long_exclusive,
  strays_and_cuts,
  cuts_by_stray_bytes,
  exclusive_without_end,
};
ghost use Rattle.midi_meaning.specs.StepListing.{listing_of_bytes};
ghost use Rattle.midi_meaning.specs.UpRefusal.{refusal_up};

/// Proves rows: two notes under running status with a clock between their data bytes, and a Note On of
/// velocity 0, which is a Note Off and comes back as one; a controller and a bend.
pub fn voice_messages_are_raised()
    ensures notes { packets_of_bytes false None 0 notes_and_a_clock ≡
        packet.Voice2 0 (voice2.NoteOn 0 0x3c 0xc924 0 0)
        ∷ packet.System 0 system.Clock
        ∷ packet.Voice2 0 (voice2.NoteOn 0 0x3e 0xc924 0 0)
        ∷ [] }
    ensures zero { packets_of_bytes false None 0 note_on_of_velocity_zero ≡
        packet.Voice2 0 (voice2.NoteOff 0 0x3c 0x8000 0 0) ∷ [] }
    ensures zero_back { back_of_bytes false None 0 note_on_of_velocity_zero ≡ 0x80 ∷ 0x3c ∷ 0x40 ∷ [] }
    ensures wide { packets_of_bytes false None 0 controller_and_bend ≡
        packet.Voice2 0 (voice2.Control 0 7 0xc9249249)
        ∷ packet.Voice2 0 (voice2.Bend 0 0x9c40e207)
        ∷ [] }
{}

/// Proves rows: each data entry for a selected parameter becomes a packet of its own. An LSB keeps the MSB
/// of its own parameter.
pub fn data_entries_are_raised_one_by_one()
    ensures both_halves { packets_of_bytes false None 0 entry_of_both_halves ≡
        packet.Voice2 0 (voice2.Set 0 (registered 0 0) 0x04000000)
        ∷ packet.Voice2 0 (voice2.Set 0 (registered 0 0) 0x04140000)
        ∷ [] }
    ensures back { back_of_bytes false None 0 entry_of_both_halves ≡
        0xb0 ∷ 0x65 ∷ 0 ∷ 0xb0 ∷ 0x64 ∷ 0 ∷ 0xb0 ∷ 6 ∷ 2 ∷ 0xb0 ∷ 0x26 ∷ 0
        ∷ 0xb0 ∷ 0x65 ∷ 0 ∷ 0xb0 ∷ 0x64 ∷ 0 ∷ 0xb0 ∷ 6 ∷ 2 ∷ 0xb0 ∷ 0x26 ∷ 5
        ∷ [] }
    ensures two_parameters { packets_of_bytes false None 0 entries_of_two_parameters ≡
        packet.Voice2 0 (voice2.Set 0 (registered 0 0) 0x04000000)
        ∷ packet.Voice2 0 (voice2.Set 0 (registered 0 0) 0x04140000)
        ∷ packet.Voice2 0 (voice2.Set 0 (registered 0 1) 0x80000000)
        ∷ packet.Voice2 0 (voice2.Set 0 (registered 0 0) 0x041c0000)
        ∷ [] }
{}

/// Proves rows: Reset All Controllers leaves no parameter selected, so a data entry after it is listed and
/// becomes no packet.
pub fn a_data_entry_after_a_reset_is_listed()
    ensures packets { packets_of_bytes false None 0 entry_after_reset ≡
        packet.Voice2 0 (voice2.Control 0 0x79 0) ∷ [] }
    ensures listing { listing_of_bytes false None 0 entry_after_reset ≡
        record { offset = 8; group = Some 0; kind = kinds.IgnoredDataEntry } ∷ [] }
{}

/// Proves rows: control changes for the bank become no packet, and the program change takes both halves.
pub fn a_program_change_takes_its_bank()
    ensures alone { packets_of_bytes false None 0 program_alone ≡
        packet.Voice2 0 (voice2.Program 0 5 None) ∷ [] }
    ensures banked { packets_of_bytes false None 0 program_with_bank ≡
        packet.Voice2 0 (voice2.Program 0 5 (Some (record { msb = 1; lsb = 2 }))) ∷ [] }
{}

/// Proves rows: an exclusive is cut every six bytes, and comes back whole.
pub fn an_exclusive_is_cut_and_comes_back()
    ensures packets { packets_of_bytes false None 3 long_exclusive ≡
        packet.Exclusive 3 form.Start (1 ∷ 2 ∷ 3 ∷ 4 ∷ 5 ∷ 6 ∷ [])
        ∷ packet.Exclusive 3 form.End (7 ∷ [])
        ∷ [] }
    ensures back { back_of_bytes false None 3 long_exclusive ≡ long_exclusive }
{}

/// Proves rows: stray bytes, a message and an exclusive that are cut off, and a tune request that cuts one
/// off.
pub fn strays_and_cuts_are_listed()
    ensures packets { packets_of_bytes false None 0 strays_and_cuts ≡ packet.System 0 system.Tune ∷ [] }
    ensures listing { listing_of_bytes false None 0 strays_and_cuts ≡
        record { offset = 0; group = Some 0; kind = kinds.Stray }
        ∷ record { offset = 1; group = Some 0; kind = kinds.CutMessage }
        ∷ record { offset = 3; group = Some 0; kind = kinds.CutExclusive }
        ∷ record { offset = 6; group = Some 0; kind = kinds.Stray }
        ∷ [] }
{}

/// Proves rows: a message that is cut off is listed before the byte that cuts it off, in the group of the
/// option. A message or an exclusive that is open at the end is listed with the offset of its start.
pub fn cuts_come_before_what_cuts()
    ensures order { listing_of_bytes false None 2 cuts_by_stray_bytes ≡
        record { offset = 0; group = Some 2; kind = kinds.CutMessage }
        ∷ record { offset = 2; group = Some 2; kind = kinds.Stray }
        ∷ record { offset = 3; group = Some 2; kind = kinds.CutExclusive }
        ∷ record { offset = 5; group = Some 2; kind = kinds.Undefined }
        ∷ record { offset = 6; group = Some 2; kind = kinds.Undefined }
        ∷ record { offset = 7; group = Some 2; kind = kinds.OpenMessage }
        ∷ [] }
    ensures left_open { listing_of_bytes false None 0 exclusive_without_end ≡
        record { offset = 1; group = Some 0; kind = kinds.OpenExclusive } ∷ [] }
{}

/// Proves rows: a data increment is refused at the byte that completes it, and an exclusive at the byte
/// that exceeds its limit.
pub fn steps_and_long_exclusives_are_refused()
    ensures increment { refusal_up None (reverse (0xb0 ∷ 0x60 ∷ [])) 0 ≡ Some bad.DataIncrement }
    ensures too_long { refusal_up (Some 6) (reverse (0xf0 ∷ 1 ∷ 2 ∷ 3 ∷ 4 ∷ 5 ∷ 6 ∷ [])) 7 ≡
        Some bad.ExclusiveTooLong }
{}
