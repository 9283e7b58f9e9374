// Worked rows of the meaning: the state in which bytes and packets leave a receiver, computed from the
// definitions alone.
ghost use Rattle.std.specs.Prelude.{◌≡◌, [], ◌∷◌, ◌++◌, Some, None, true, false};
ghost use Rattle.voice_messages.specs.declared.voice1.System.TheVariants as system;
ghost use Rattle.midi1_bytes.specs.Messages.{common, exclusive};
ghost use Rattle.listing_terms.specs.declared.listed.Kind.TheVariants as kinds;
ghost use Rattle.midi_meaning.specs.Listing.{listing_of};
ghost use Rattle.midi_meaning.specs.Messages.{mean1};
ghost use Rattle.midi_meaning.specs.Worked.MeaningRows.{
  over_bytes,
  over_packets,
  assignable,
  bank_of_halves,
  bytes_of_each_kind,
  bytes_of_modes,
  bytes_of_the_system,
  bytes_with_parameters,
  bytes_with_reset,
  controllers_at,
  midi1_packets_of_each_kind,
  midi2_packets_of_each_kind,
  misplaced_packets,
  one_more_msb,
  packets_of_each_listed_kind,
  packets_of_modes,
  packets_of_the_system,
  packets_with_half_a_bank,
  packets_with_midi1_reset,
  packets_with_parameters,
  packets_with_programs,
  packets_with_reset,
  packets_without_lines,
  packets_without_meaning,
  registers_after_reset,
};
ghost use Rattle.midi_meaning.specs.Packets.{mean2};
ghost use Rattle.midi_meaning.specs.Registers.{bank_of, selected};
ghost use Rattle.midi_meaning.specs.Worked.Rows.{registered};
ghost use Rattle.midi_meaning.specs.State.{mode, off, on};

/// Proves rows for control change 121 in a stream of bytes (RP-015). Expression is at its maximum,
/// modulation and the pedals 64 to 67 are at 0, and the controllers beside them are unchanged. The bend is
/// at its centre, no pressure is left, and no parameter is selected. The bank and the values of parameters
/// are unchanged.
pub fn bytes_reset_all_controllers()
    ensures expression { (over_bytes bytes_with_reset).controllers 11 ≡ Some 127 }
    ensures modulation { (over_bytes bytes_with_reset).controllers 1 ≡ Some 0 }
    ensures pedals { controllers_at (64 ∷ 65 ∷ 66 ∷ 67 ∷ []) (over_bytes bytes_with_reset)
        ≡ Some 0 ∷ Some 0 ∷ Some 0 ∷ Some 0 ∷ [] }
    ensures others { controllers_at (63 ∷ 68 ∷ []) (over_bytes bytes_with_reset) ≡ Some 17 ∷ Some 18 ∷ [] }
    ensures bend { (over_bytes bytes_with_reset).bend ≡ 8192 }
    ensures pressure { (over_bytes bytes_with_reset).pressure ≡ 0 }
    ensures poly_pressure { (over_bytes bytes_with_reset).poly 60 ≡ None }
    ensures registers { (over_bytes bytes_with_reset).registers ≡ registers_after_reset }
    ensures selection { selected (over_bytes bytes_with_reset).registers ≡ None }
    ensures parameter { (over_bytes bytes_with_reset).params (registered 0 0) ≡ Some 256 }
    ensures mode { (over_bytes bytes_with_reset).acts ≡ mode 121 0 ∷ [] }
{}

/// Proves the same rows for packets, at the values of MIDI 2.0.
pub fn packets_reset_all_controllers()
    ensures expression { (over_packets packets_with_reset).controllers 11 ≡ Some 0xffff_ffff }
    ensures modulation { (over_packets packets_with_reset).controllers 1 ≡ Some 0 }
    ensures pedals { controllers_at (64 ∷ 65 ∷ 66 ∷ 67 ∷ []) (over_packets packets_with_reset)
        ≡ Some 0 ∷ Some 0 ∷ Some 0 ∷ Some 0 ∷ [] }
    ensures others { controllers_at (63 ∷ 68 ∷ []) (over_packets packets_with_reset)
        ≡ Some 0x1700_0000 ∷ Some 0x1800_0000 ∷ [] }
    ensures bend { (over_packets packets_with_reset).bend ≡ 0x8000_0000 }
    ensures pressure { (over_packets packets_with_reset).pressure ≡ 0 }
    ensures poly_pressure { (over_packets packets_with_reset).poly 60 ≡ None }
    ensures registers { (over_packets packets_with_reset).registers ≡ registers_after_reset }
    ensures selection { selected (over_packets packets_with_reset).registers ≡ None }
    ensures parameter { (over_packets packets_with_reset).params (registered 0 0) ≡ Some 0x0400_0000 }
    ensures mode { (over_packets packets_with_reset).acts ≡ mode 121 0 ∷ [] }
{}

/// Proves that control change 121 in a packet of the MIDI 1.0 protocol resets the same values.
pub fn midi1_packets_reset_all_controllers()
    ensures controllers { controllers_at (11 ∷ 1 ∷ 64 ∷ 67 ∷ 63 ∷ 68 ∷ [])
        (over_packets packets_with_midi1_reset)
        ≡ Some 0xffff_ffff ∷ Some 0 ∷ Some 0 ∷ Some 0 ∷ Some 0x1700_0000 ∷ Some 0x1800_0000 ∷ [] }
    ensures bend { (over_packets packets_with_midi1_reset).bend ≡ 0x8000_0000 }
    ensures pressure { (over_packets packets_with_midi1_reset).pressure ≡ 0 }
    ensures poly_pressure { (over_packets packets_with_midi1_reset).poly 60 ≡ None }
    ensures registers { (over_packets packets_with_midi1_reset).registers ≡ registers_after_reset }
    ensures mode { (over_packets packets_with_midi1_reset).acts ≡ mode 121 0 ∷ [] }
{}

/// Proves the state after each kind of voice message in a stream of bytes, at the values of MIDI 1.0. A
/// note on of velocity 0 is a note off.
pub fn each_voice_message_of_bytes_is_kept()
    ensures notes { (over_bytes bytes_of_each_kind).acts ≡ on 60 100 ∷ off 62 64 ∷ off 60 32 ∷ [] }
    ensures poly_pressure { (over_bytes bytes_of_each_kind).poly 60 ≡ Some 100 }
    ensures other_note { (over_bytes bytes_of_each_kind).poly 62 ≡ None }
    ensures pressure { (over_bytes bytes_of_each_kind).pressure ≡ 32 }
    ensures controller { controllers_at (7 ∷ 8 ∷ []) (over_bytes bytes_of_each_kind) ≡ Some 64 ∷ None ∷ [] }
    ensures program { (over_bytes bytes_of_each_kind).program ≡ Some (record { program = 5; bank = None }) }
    ensures bend { (over_bytes bytes_of_each_kind).bend ≡ 10000 }
    ensures other_channel { ((mean1 false bytes_of_each_kind).channels 1).bend ≡ 8192 }
{}

/// Proves the same for packets of the MIDI 1.0 protocol, whose values are scaled up (M2-115-U).
pub fn each_voice_message_of_midi1_packets_is_kept()
    ensures notes { (over_packets midi1_packets_of_each_kind).acts
        ≡ on 60 51492 ∷ off 62 32768 ∷ off 60 16384 ∷ [] }
    ensures poly_pressure { (over_packets midi1_packets_of_each_kind).poly 60 ≡ Some 0xc924_9249 }
    ensures pressure { (over_packets midi1_packets_of_each_kind).pressure ≡ 0x4000_0000 }
    ensures controller { controllers_at (7 ∷ 8 ∷ []) (over_packets midi1_packets_of_each_kind)
        ≡ Some 0x8000_0000 ∷ None ∷ [] }
    ensures program { (over_packets midi1_packets_of_each_kind).program
        ≡ Some (record { program = 5; bank = None }) }
    ensures bend { (over_packets midi1_packets_of_each_kind).bend ≡ 0x9c40_e207 }
    ensures other_group { ((mean2 false midi1_packets_of_each_kind 1).channels 0).bend ≡ 0x8000_0000 }
{}

/// Proves that packets of the MIDI 2.0 protocol are stored with their own values, and a note on of velocity
/// 0 as a note on.
pub fn each_voice_message_of_midi2_packets_is_kept()
    ensures notes { (over_packets midi2_packets_of_each_kind).acts ≡ on 60 511 ∷ on 62 0 ∷ off 60 0 ∷ [] }
    ensures poly_pressure { (over_packets midi2_packets_of_each_kind).poly 60 ≡ Some 0x1234_5678 }
    ensures pressure { (over_packets midi2_packets_of_each_kind).pressure ≡ 0x2345_6789 }
    ensures controller { controllers_at (7 ∷ 8 ∷ []) (over_packets midi2_packets_of_each_kind)
        ≡ Some 0x3456_789a ∷ None ∷ [] }
    ensures program { (over_packets midi2_packets_of_each_kind).program
        ≡ Some (record { program = 5; bank = None }) }
    ensures bend { (over_packets midi2_packets_of_each_kind).bend ≡ 0x4567_89ab }
    ensures nothing { over_packets packets_without_meaning ≡ over_packets [] }
{}

/// Proves rows for parameters. A data entry sets the selected parameter: an MSB sets it with an LSB of 0,
/// and an LSB keeps the MSB that was there, or 0. The null parameter accepts no value.
///
/// In packets, a parameter is set to its value. A relative change makes the parameter loose and leaves its
/// value unchanged. A data entry computes with fourteen bits: its LSB leaves the parameter loose, its MSB
/// doesn't.
pub fn parameters_are_set_and_changed()
    ensures assignable_msb { (over_bytes bytes_with_parameters).params (assignable 1 2) ≡ Some 384 }
    ensures lsb_alone { (over_bytes bytes_with_parameters).params (registered 0 1) ≡ Some 5 }
    ensures null_parameter { (over_bytes bytes_with_parameters).params (registered 127 127) ≡ None }
    ensures set { (over_packets packets_with_parameters).params (registered 0 0) ≡ Some 0x0400_0000 }
    ensures changed { (over_packets packets_with_parameters).loose (registered 0 0) ≡ true }
    ensures entered { (over_packets packets_with_parameters).params (registered 0 1) ≡ Some 0x0014_0000 }
    ensures still_changed { (over_packets packets_with_parameters).loose (registered 0 1) ≡ true }
    ensures msb { (over_packets (packets_with_parameters ++ one_more_msb ∷ [])).params (registered 0 1)
        ≡ Some 0x0400_0000 }
    ensures set_anew { (over_packets (packets_with_parameters ++ one_more_msb ∷ [])).loose (registered 0 1)
        ≡ false }
{}

/// Proves rows for programs. A program change takes both halves of the selected bank, with 0 for an unset
/// half, and no bank if neither half is set. In packets, a program with a bank also sets both halves.
pub fn programs_take_the_bank()
    ensures none { (over_bytes (0xc0 ∷ 5 ∷ [])).program ≡ Some (record { program = 5; bank = None }) }
    ensures both { (over_bytes (0xb0 ∷ 0 ∷ 1 ∷ 32 ∷ 2 ∷ 0xc0 ∷ 5 ∷ [])).program
        ≡ Some (record { program = 5; bank = Some (bank_of_halves 1 2) }) }
    ensures msb_alone { (over_bytes (0xb0 ∷ 0 ∷ 1 ∷ 0xc0 ∷ 5 ∷ [])).program
        ≡ Some (record { program = 5; bank = Some (bank_of_halves 1 0) }) }
    ensures lsb_alone { (over_bytes (0xb0 ∷ 32 ∷ 2 ∷ 0xc0 ∷ 5 ∷ [])).program
        ≡ Some (record { program = 5; bank = Some (bank_of_halves 0 2) }) }
    ensures with_bank { bank_of (over_packets packets_with_programs).registers ≡ Some (bank_of_halves 1 2) }
    ensures without_bank { (over_packets packets_with_programs).program
        ≡ Some (record { program = 6; bank = Some (bank_of_halves 1 2) }) }
    ensures half_a_bank { (over_packets packets_with_half_a_bank).program
        ≡ Some (record { program = 6; bank = Some (bank_of_halves 0 2) }) }
{}

/// Proves rows for system messages. System common messages and exclusives are stored in one list, and Real
/// Time messages in another. Each group has its own lists. System Reset has no other effect.
pub fn system_messages_are_kept_in_two_lists()
    ensures commons { (mean1 false bytes_of_the_system).commons
        ≡ common (system.Quarter 0x21) ∷ exclusive (1 ∷ 2 ∷ []) ∷ common system.Tune ∷ [] }
    ensures real_times { (mean1 false bytes_of_the_system).real_times ≡ system.Clock ∷ system.Reset ∷ [] }
    ensures packet_commons { (mean2 false packets_of_the_system 0).commons
        ≡ common (system.Quarter 0x21) ∷ exclusive (1 ∷ 2 ∷ []) ∷ common system.Tune ∷ [] }
    ensures packet_real_times { (mean2 false packets_of_the_system 0).real_times
        ≡ system.Clock ∷ system.Reset ∷ [] }
    ensures other_group { (mean2 false packets_of_the_system 1).real_times ≡ system.Start ∷ [] }
{}

/// Proves rows: control changes from 120 on are channel mode messages, which set no controller.
pub fn mode_messages_are_kept_with_the_notes()
    ensures modes { (over_bytes bytes_of_modes).acts
        ≡ mode 120 0 ∷ mode 122 127 ∷ mode 123 0 ∷ mode 124 0 ∷ mode 125 0 ∷ mode 126 1 ∷ mode 127 0 ∷ [] }
    ensures controllers { controllers_at (119 ∷ 120 ∷ 127 ∷ []) (over_bytes bytes_of_modes)
        ≡ Some 5 ∷ None ∷ None ∷ [] }
    ensures packet_modes { (over_packets packets_of_modes).acts
        ≡ mode 120 0x1234_5678 ∷ mode 122 0xffff_ffff ∷ mode 127 0 ∷ [] }
    ensures packet_controllers { controllers_at (119 ∷ 120 ∷ 127 ∷ []) (over_packets packets_of_modes)
        ≡ Some 0x1234_5678 ∷ None ∷ None ∷ [] }
{}

/// Proves rows: each kind of packet for which MIDI 1.0 has no message is listed, with its offset and its
/// group, if it has one. Translated packets aren't listed, except for a note with an attribute, which is
/// translated without it.
pub fn each_kind_of_packet_is_listed()
    ensures each { listing_of false None packets_of_each_listed_kind
        ≡ record { offset = 0; group = None; kind = kinds.Utility }
        ∷ record { offset = 4; group = None; kind = kinds.Stream }
        ∷ record { offset = 20; group = None; kind = kinds.Reserved }
        ∷ record { offset = 24; group = Some 5; kind = kinds.Data8 }
        ∷ record { offset = 40; group = Some 6; kind = kinds.Flex }
        ∷ record { offset = 56; group = Some 1; kind = kinds.NoteAttribute }
        ∷ record { offset = 64; group = Some 1; kind = kinds.NoteAttribute }
        ∷ record { offset = 72; group = Some 1; kind = kinds.NoteController }
        ∷ record { offset = 80; group = Some 2; kind = kinds.NoteBend }
        ∷ record { offset = 88; group = Some 2; kind = kinds.NoteManagement }
        ∷ record { offset = 96; group = Some 2; kind = kinds.NullParameter }
        ∷ record { offset = 104; group = Some 2; kind = kinds.NullParameter }
        ∷ record { offset = 112; group = Some 2; kind = kinds.RelativeParameter }
        ∷ [] }
    ensures misplaced { listing_of false None misplaced_packets
        ≡ record { offset = 0; group = Some 3; kind = kinds.MisplacedController }
        ∷ record { offset = 8; group = Some 3; kind = kinds.MisplacedController }
        ∷ record { offset = 16; group = Some 3; kind = kinds.MisplacedController }
        ∷ record { offset = 24; group = Some 3; kind = kinds.MisplacedController }
        ∷ record { offset = 32; group = Some 3; kind = kinds.MisplacedController }
        ∷ record { offset = 40; group = Some 3; kind = kinds.MisplacedController }
        ∷ record { offset = 48; group = Some 3; kind = kinds.MisplacedController }
        ∷ record { offset = 56; group = Some 3; kind = kinds.MisplacedController }
        ∷ [] }
    ensures none { listing_of false None packets_without_lines ≡ [] }
{}
