// Laws that hold for all recordings, with or without paired controllers. Packets and results are listed
// newest first.
ghost use Rattle.std.specs.Prelude.{◌≡◌, ◌↔◌, ◌<◌, ◌≤◌, ℕ, Bool, List, [], length, reverse, Some, IsTrue};
ghost use Rattle.ump_grammar.specs.declared.packet.Packet.{Packet};
ghost use Rattle.midi_meaning.specs.Parts.{Placed};
ghost use Rattle.midi_meaning.specs.Listing.{is_carried, lines_over};
ghost use Rattle.midi_meaning.specs.Styles.{Style, styled_over, styled_pairs};
ghost use Rattle.midi_meaning.specs.Translation.{IsTranslation};
ghost use Rattle.down_translator.specs.declared.carried.Carried.{Carried};
ghost use Rattle.down_translator.specs.Carried.{lane_in};
ghost use Rattle.down_translator.specs.Held.{DownState, paired_of, whole_in};
ghost use Rattle.down_translator.specs.Laws.{
  OneMoreAcceptedPacketAddsItsPairAndLine,
  SpelledPacketsAreInRange,
  WhatIsHeldIsTheDefinition,
  WhatIsKeptIsTheMeaning,
};
ghost use Rattle.down_translator.specs.Step.{IsStep};
ghost use Rattle.down_translator.specs.Recording.{
  packets_of,
  AreInRange,
  AreAccepted,
  AreSteps,
  pairs_put,
  lines_put,
};

use midi_meaning::laws::{
    carried_packets_have_a_piece, joined_bytes_know_no_offsets,
    rooms_that_are_not_passed_do_not_matter,
};
use midi_meaning::style_laws::{
    kept_lanes_are_those_of_the_recording, styled_lanes_leave_the_registers,
    styled_pairs_are_a_translation,
};
use midi1_bytes::laws::statuses_that_run_can_be_left_out;
use sysex_groups::laws::fed_parts_are_the_definition;

/// Proves that a packet that some words encode has its fields in range.
pub fn spelled_packets_are_in_range()
    ensures { SpelledPacketsAreInRange }
{}

/// Proves that the state of the translator after any packets determines everything that the definitions
/// find by looking back over these packets: for one more packet, the exclusive that it ends, the start of
/// the open exclusive of its group, and the reason for a refusal. With that packet, the state becomes the
/// one after all of them. A data increment or decrement, which is refused, leaves the state unchanged.
pub fn what_is_held_is_the_definition()
    ensures { (paired : Bool) → WhatIsHeldIsTheDefinition paired }
{
    fed_parts_are_the_definition();
}

/// Proves that, in compact style and if no packet was refused, the translator's state of a group's lane is
/// the running status and the registers that the lane's bytes after the last System Reset leave. If one of
/// these is set, all bytes of the lane leave the same value.
pub fn what_is_kept_is_the_meaning()
    ensures { (paired : Bool) → WhatIsKeptIsTheMeaning paired }
{
    fed_parts_are_the_definition();
    rooms_that_are_not_passed_do_not_matter();
    joined_bytes_know_no_offsets();
    kept_lanes_are_those_of_the_recording();
    styled_lanes_leave_the_registers();
}

/// Proves that the piece of a result is empty exactly if the packet isn't translated, and that the lane is
/// then 0.
pub fn empty_pieces_are_not_carried()
    ensures carried { (state : DownState) (offset : ℕ) (packet : Packet) (carried : Carried) →
        IsStep state offset packet carried →
        IsTrue (is_carried (paired_of state) (whole_in state packet) packet)
        ↔ (0 < length carried.piece.now) }
    ensures lane { (state : DownState) (offset : ℕ) (packet : Packet) (carried : Carried) →
        IsStep state offset packet carried → carried.piece.now ≡ [] → lane_in carried ≡ 0 }
{
    carried_packets_have_a_piece();
}

/// Proves that, after any accepted packets, if the translator accepts one more, it writes that packet's
/// pair in the translator's style and reports that packet's line. A limit that isn't exceeded doesn't
/// affect the line.
pub fn one_more_accepted_packet_adds_its_pair_and_line()
    ensures { (paired : Bool) → OneMoreAcceptedPacketAddsItsPairAndLine paired }
{
    fed_parts_are_the_definition();
    rooms_that_are_not_passed_do_not_matter();
    joined_bytes_know_no_offsets();
    carried_packets_have_a_piece();
    kept_lanes_are_those_of_the_recording();
    statuses_that_run_can_be_left_out();
}

/// Proves, for the results of the packets of a recording, one after the other, that no packet is refused,
/// that the pairs written are the pairs of the packets in the translator's style, and that the lines
/// reported are the lines of the packets.
pub fn answers_are_the_translation()
    ensures accepted { (paired : Bool) (style : Style) (room : ℕ)
        (past : List Placed) (answers : List Carried) →
        6 ≤ room → AreInRange past → AreSteps paired style room past answers →
        AreAccepted room past }
    ensures pairs { (paired : Bool) (style : Style) (room : ℕ)
        (past : List Placed) (answers : List Carried) →
        6 ≤ room → AreInRange past → AreSteps paired style room past answers →
        pairs_put answers ≡ styled_over paired style (packets_of past) }
    ensures lines { (paired : Bool) (style : Style) (room : ℕ) (past : List Placed) (answers : List Carried) →
        6 ≤ room → AreInRange past → AreSteps paired style room past answers →
        lines_put answers ≡ lines_over paired (Some room) past }
{
    fed_parts_are_the_definition();
    one_more_accepted_packet_adds_its_pair_and_line();
}

/// Proves that the results for a recording, in the order in which its packets come, are its translation:
/// the pairs written are the pairs of the recording in the translator's style. There is one pair for each
/// packet that is translated, in its group's lane. After each packet, the bytes of each lane so far mean
/// what the packets of its group so far mean.
pub fn answers_mean_the_packets()
    ensures pairs { (paired : Bool) (style : Style) (room : ℕ)
        (packets : List Placed) (answers : List Carried) →
        6 ≤ room → AreInRange packets → AreSteps paired style room (reverse packets) answers →
        pairs_put answers ≡ styled_pairs paired style (packets_of packets) }
    ensures translation { (paired : Bool) (style : Style) (room : ℕ)
        (packets : List Placed) (answers : List Carried) →
        6 ≤ room → AreInRange packets → AreSteps paired style room (reverse packets) answers →
        IsTranslation paired (packets_of packets) (pairs_put answers) }
{
    answers_are_the_translation();
    styled_pairs_are_a_translation();
}
