// Worked rows of the compact style.
ghost use Rattle.std.specs.Prelude.{false, ◌≡◌, [], ◌∷◌};
ghost use Rattle.midi_meaning.specs.Styles.{compact_style, styled_pairs};
ghost use Rattle.midi_meaning.specs.Worked.Rows.{mixed_protocols};
ghost use Rattle.midi_meaning.specs.Worked.CompactRows.{
  notes_across_a_reset,
  notes_and_sets,
  notes_around_a_clock_and_an_exclusive,
  program_twice,
  programs_of_two_banks,
  selected_before,
  sets_across_a_reset,
  sets_of_two_groups,
};

/// Proves a row: a status byte that equals the running status is left out, and so is the selection of a
/// parameter that is already selected. A tune request ends the running status, and Reset All Controllers
/// ends the selection.
pub fn statuses_and_selections_are_left_out()
    ensures { styled_pairs false compact_style notes_and_sets ≡
        (0, 0x90 ∷ 0x3c ∷ 0x64 ∷ [])
        ∷ (0, 0x3e ∷ 0x64 ∷ [])
        ∷ (0, 0xf6 ∷ [])
        ∷ (0, 0x90 ∷ 0x40 ∷ 0x64 ∷ [])
        ∷ (0, 0xb0 ∷ 0x65 ∷ 0 ∷ 0x64 ∷ 0 ∷ 6 ∷ 2 ∷ 0x26 ∷ 0 ∷ [])
        ∷ (0, 6 ∷ 2 ∷ 0x26 ∷ 0 ∷ [])
        ∷ (0, 0x79 ∷ 0 ∷ [])
        ∷ (0, 0x65 ∷ 0 ∷ 0x64 ∷ 0 ∷ 6 ∷ 2 ∷ 0x26 ∷ 0 ∷ [])
        ∷ [] }
{}

/// Proves rows: a program change is written without its bank if both halves of that bank are selected, and
/// otherwise with both halves.
pub fn banks_are_left_out()
    ensures same { styled_pairs false compact_style program_twice ≡
        (0, 0xb0 ∷ 0 ∷ 1 ∷ 0x20 ∷ 2 ∷ 0xc0 ∷ 5 ∷ [])
        ∷ (0, 5 ∷ [])
        ∷ [] }
    ensures other { styled_pairs false compact_style programs_of_two_banks ≡
        (0, 0xb0 ∷ 0 ∷ 1 ∷ 0x20 ∷ 2 ∷ 0xc0 ∷ 5 ∷ [])
        ∷ (0, 0xb0 ∷ 0 ∷ 1 ∷ 0x20 ∷ 3 ∷ 0xc0 ∷ 5 ∷ [])
        ∷ (0, 0xb0 ∷ 0 ∷ 4 ∷ 0x20 ∷ 3 ∷ 0xc0 ∷ 5 ∷ [])
        ∷ [] }
{}

/// Proves rows: after a System Reset, nothing is left out because of what was written before it.
pub fn nothing_is_relied_on_across_a_reset()
    ensures notes { styled_pairs false compact_style notes_across_a_reset ≡
        (0, 0x90 ∷ 0x3c ∷ 0x64 ∷ [])
        ∷ (0, 0xff ∷ [])
        ∷ (0, 0x90 ∷ 0x3e ∷ 0x64 ∷ [])
        ∷ [] }
    ensures sets { styled_pairs false compact_style sets_across_a_reset ≡
        (0, 0xb0 ∷ 0x65 ∷ 0 ∷ 0x64 ∷ 0 ∷ 6 ∷ 2 ∷ 0x26 ∷ 0 ∷ [])
        ∷ (0, 0xff ∷ [])
        ∷ (0, 0xb0 ∷ 0x65 ∷ 0 ∷ 0x64 ∷ 0 ∷ 6 ∷ 2 ∷ 0x26 ∷ 0 ∷ [])
        ∷ [] }
{}

/// Proves a row: a clock leaves the running status unchanged, and an exclusive ends it.
pub fn a_clock_leaves_the_running_status()
    ensures { styled_pairs false compact_style notes_around_a_clock_and_an_exclusive ≡
        (0, 0x90 ∷ 0x3c ∷ 0x64 ∷ [])
        ∷ (0, 0xf8 ∷ [])
        ∷ (0, 0x3e ∷ 0x64 ∷ [])
        ∷ (0, 0xf0 ∷ 1 ∷ 0xf7 ∷ [])
        ∷ (0, 0x90 ∷ 0x40 ∷ 0x64 ∷ [])
        ∷ [] }
{}

/// Proves rows: a parameter that MIDI 1.0 packets have selected also counts as selected for MIDI 2.0
/// packets. A control change that comes as a MIDI 1.0 packet is always written.
pub fn packets_of_both_protocols_select()
    ensures other { styled_pairs false compact_style mixed_protocols ≡
        (0, 0xb0 ∷ 0x65 ∷ 0 ∷ [])
        ∷ (0, 0x64 ∷ 1 ∷ [])
        ∷ (0, 0x65 ∷ 0 ∷ 0x64 ∷ 0 ∷ 6 ∷ 2 ∷ 0x26 ∷ 0 ∷ [])
        ∷ (0, 6 ∷ 3 ∷ [])
        ∷ [] }
    ensures same { styled_pairs false compact_style selected_before ≡
        (0, 0xb0 ∷ 0x65 ∷ 0 ∷ [])
        ∷ (0, 0x64 ∷ 0 ∷ [])
        ∷ (0, 6 ∷ 2 ∷ 0x26 ∷ 0 ∷ [])
        ∷ (0, 0x64 ∷ 0 ∷ [])
        ∷ [] }
{}

/// Proves a row: the registers and the running status of a lane depend only on the lane's own bytes.
pub fn each_lane_has_its_own_registers()
    ensures { styled_pairs false compact_style sets_of_two_groups ≡
        (0, 0xb0 ∷ 0x65 ∷ 0 ∷ 0x64 ∷ 0 ∷ 6 ∷ 2 ∷ 0x26 ∷ 0 ∷ [])
        ∷ (1, 0xb0 ∷ 0x65 ∷ 0 ∷ 0x64 ∷ 0 ∷ 6 ∷ 2 ∷ 0x26 ∷ 0 ∷ [])
        ∷ (0, 6 ∷ 2 ∷ 0x26 ∷ 0 ∷ [])
        ∷ [] }
{}
