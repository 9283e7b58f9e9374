// Laws that hold for all streams of bytes that are translated up to packets, with or without paired
// controllers. Bytes that are called `past` are listed newest first.
ghost use Rattle.std.specs.Prelude.{
  ◌≡◌,
  ◌<◌,
  ◌≤◌,
  ◌^◌,
  ℕ,
  Bool,
  List,
  [],
  ◌∷◌,
  ◌++◌,
  length,
  reverse,
  Some,
  None,
  IfSome,
};
ghost use Rattle.std.specs.Option.{unwrap_or, option_to_list};
ghost use Rattle.std.specs.List.{fold};
ghost use Rattle.voice_messages.specs.declared.voice2.Param.{Param};
ghost use Rattle.voice_messages.specs.Ranges.{IsBank, IsParam};
ghost use Rattle.ump_grammar.specs.declared.packet.Packet.{Packet};
ghost use Rattle.midi1_bytes.specs.Messages.{exclusive};
ghost use Rattle.midi1_bytes.specs.Steps.{step_of, completed_by};
ghost use Rattle.midi1_bytes.specs.Stream.{Room};
ghost use Rattle.midi_meaning.specs.Back.{pieces_of, back, back_at, back_of_bytes};
ghost use Rattle.listing_terms.specs.Parts.{whole_of};
ghost use Rattle.midi_meaning.specs.Messages.{meaning1, step1};
ghost use Rattle.midi_meaning.specs.Plain.{plain_piece};
ghost use Rattle.midi_meaning.specs.Registers.{bank_of, selected};
ghost use Rattle.midi_meaning.specs.Raising.{packets_at, packets_of_bytes};
ghost use Rattle.midi_meaning.specs.StepListing.{lines_at, lines_of_bytes};
ghost use Rattle.midi_meaning.specs.UpLaws.{
  BytesThatComeBackMeanTheSame,
  RaisedPacketsAreInRange,
  RaisedPacketsComeBackInSilence,
  RaisedPacketsMeanTheBytes,
  RoomsThatAreNotReachedDoNotMatterInBytes,
};
ghost use Rattle.midi_meaning.specs.UpRefusal.{AreStepsWithinRoom};

use midi1_bytes::laws::{completed_messages_are_in_range, written_messages_are_read_again};
use sysex_groups::laws::cut_payload_is_joined;

/// Proves that, after each byte, the packets of the bytes so far, translated up into any group, mean in
/// that group what the bytes mean. A data increment or decrement, which is refused, changes neither
/// meaning.
pub fn raised_packets_mean_the_bytes()
    ensures { (paired : Bool) → RaisedPacketsMeanTheBytes paired }
{
    cut_payload_is_joined();
    completed_messages_are_in_range();
}

/// Proves that the packets of each byte in one of the sixteen groups, and each packet of an exclusive, are
/// ones that words encode, with their fields in range.
pub fn raised_packets_are_in_range()
    ensures { (paired : Bool) → RaisedPacketsAreInRange paired }
{
    cut_payload_is_joined();
    completed_messages_are_in_range();
}

/// Proves that a limit doesn't matter if no exclusive in the bytes exceeds it: their steps, the message
/// that is open after them, their packets, the bytes that come back and their lines are the same as without
/// a limit. Accepted bytes are of this kind.
pub fn rooms_that_are_not_reached_do_not_matter_in_bytes()
    ensures { (paired : Bool) → RoomsThatAreNotReachedDoNotMatterInBytes paired }
{}

/// Proves the way up and back: after each byte, the plain pieces of the packets for the bytes so far leave
/// a receiver in the same state as the bytes themselves, except for registers. The pieces are the bytes of
/// the group's lane.
pub fn bytes_that_come_back_mean_the_same()
    ensures { (paired : Bool) → BytesThatComeBackMeanTheSame paired }
{
    cut_payload_is_joined();
    completed_messages_are_in_range();
    written_messages_are_read_again();
}

/// Proves that the packets into which bytes are translated within a limit come back silently, whatever
/// their offsets. Each packet is accepted on the way down with that limit and isn't listed, and it is
/// translated unless it is a part of an exclusive that other parts follow. After all packets of some bytes,
/// no group has an exclusive open, and the way down has listed nothing.
pub fn raised_packets_come_back_in_silence()
    ensures { (paired : Bool) → RaisedPacketsComeBackInSilence paired }
{}

/// Proves the effect of one more byte, after bytes in the order in which they come. Its packets, lines and
/// pieces come after those of the bytes before it. The meaning takes the message that the byte completes,
/// which is the same within a limit that isn't exceeded.
pub fn one_more_byte_is_raised()
    ensures packets { (paired : Bool) (room : Room) (group : ℕ) (bytes : List ℕ) (byte : ℕ) →
        packets_of_bytes paired room group (bytes ++ byte ∷ []) ≡
        packets_of_bytes paired room group bytes ++ packets_at paired room group (reverse bytes) byte }
    ensures lines { (paired : Bool) (room : Room) (group : ℕ) (bytes : List ℕ) (byte : ℕ) →
        lines_of_bytes paired room group (bytes ++ byte ∷ []) ≡
        lines_of_bytes paired room group bytes ++ lines_at paired room group (reverse bytes) byte }
    ensures pieces { (paired : Bool) (room : Room) (group : ℕ) (bytes : List ℕ) (byte : ℕ) →
        back_of_bytes paired room group (bytes ++ byte ∷ []) ≡
        back_of_bytes paired room group bytes ++ back_at paired room group (reverse bytes) byte }
    ensures meaning { (paired : Bool) (past : List ℕ) (byte : ℕ) → meaning1 paired (byte ∷ past) ≡
        fold (step1 paired) (meaning1 paired past) (option_to_list (completed_by (step_of None past byte))) }
    ensures meaning_in_room { (paired : Bool) (room : ℕ) (past : List ℕ) (byte : ℕ) →
        AreStepsWithinRoom room (byte ∷ past) → meaning1 paired (byte ∷ past) ≡
        fold (step1 paired) (meaning1 paired past)
        (option_to_list (completed_by (step_of (Some room) past byte))) }
{}

/// Proves that the state in which bytes leave a receiver is in range: values of parameters have fourteen
/// bits, and the bank and the selected parameter have seven bits in each half. A completed exclusive fits
/// its limit.
pub fn what_bytes_leave_is_in_range()
    ensures values { (paired : Bool) (past : List ℕ) (channel : ℕ) (param : Param) →
        unwrap_or (((meaning1 paired past).channels channel).params param) 0 < 2 ^ 14 }
    ensures bank { (paired : Bool) (past : List ℕ) (channel : ℕ) →
        IsBank (bank_of ((meaning1 paired past).channels channel).registers) }
    ensures number { (paired : Bool) (past : List ℕ) (channel : ℕ) →
        IfSome (selected ((meaning1 paired past).channels channel).registers) IsParam }
    ensures payload { (room : ℕ) (past : List ℕ) (byte : ℕ) (bytes : List ℕ) →
        completed_by (step_of (Some room) past byte) ≡ Some (exclusive bytes) → length bytes ≤ room }
{
    cut_payload_is_joined();
    completed_messages_are_in_range();
}

/// Proves that a packet adds its piece after the pieces of the packets before it.
pub fn pieces_come_packet_by_packet()
    ensures { (paired : Bool) (past packets : List Packet) (packet : Packet) →
        pieces_of paired past (packets ++ packet ∷ []) ≡
        pieces_of paired past packets ++
        plain_piece paired (whole_of (reverse packets ++ past) packet) packet }
{}
