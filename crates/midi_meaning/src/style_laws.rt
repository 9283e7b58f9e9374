// Laws that hold for all recordings in either style, with or without paired controllers.
ghost use Rattle.std.specs.Prelude.{Bool};
ghost use Rattle.midi_meaning.specs.StyleLaws.{
  CompactLeavesOutWhatIsHeld,
  KeptLanesAreThoseOfTheBytes,
  KeptLanesAreThoseOfTheRecording,
  StyledLanesLeaveTheRegisters,
  StyledPairsAreATranslation,
  StyledPairsComePacketByPacket,
  StyledPiecesAreThoseOfCarriedPackets,
  SystemPiecesArePlain,
};

use midi1_bytes::laws::{
    running_status_is_that_of_the_messages, statuses_that_run_can_be_left_out,
    written_messages_are_read_again,
};

/// Proves that the pairs of a recording in either style are its translation. There is one pair for each
/// packet that is translated, in its group's lane. After each packet, the bytes of each lane so far mean
/// what the packets of its group so far mean.
pub fn styled_pairs_are_a_translation()
    ensures { (paired : Bool) → StyledPairsAreATranslation paired }
{
    statuses_that_run_can_be_left_out();
    written_messages_are_read_again();
}

/// Proves that a packet adds its pair after the pairs of the packets before it, and that the pairs in plain
/// style are the plain pairs.
pub fn styled_pairs_come_packet_by_packet()
    ensures { (paired : Bool) → StyledPairsComePacketByPacket paired }
{}

/// Proves that a packet has a piece, in either style, exactly if it is translated.
pub fn styled_pieces_are_those_of_carried_packets()
    ensures { (paired : Bool) → StyledPiecesAreThoseOfCarriedPackets paired }
{
    statuses_that_run_can_be_left_out();
}

/// Proves that a system message or an exclusive has its plain piece in compact style.
pub fn system_pieces_are_plain()
    ensures { (paired : Bool) → SystemPiecesArePlain paired }
{
    statuses_that_run_can_be_left_out();
}

/// Proves that compact style leaves out only three things, which the receiver of the lane's bytes has since
/// the last System Reset: a status byte that equals the running status and, for a MIDI 2.0 packet, the
/// selection of a parameter that is already selected or of a bank that is already held. A MIDI 1.0 voice
/// message is always written, at most without its status byte, even if it selects something that is already
/// selected.
pub fn compact_leaves_out_what_is_held()
    ensures { (paired : Bool) → CompactLeavesOutWhatIsHeld paired }
{}

/// Proves that the bytes of a lane, in either style, leave the same registers as the packets of its group,
/// and that nothing is open after them. In compact style, if the bytes after the last System Reset set the
/// running status or half of a register, all the lane's bytes leave the same value.
pub fn styled_lanes_leave_the_registers()
    ensures { (paired : Bool) → StyledLanesLeaveTheRegisters paired }
{
    statuses_that_run_can_be_left_out();
    written_messages_are_read_again();
}

/// Proves that the state which a translator stores for a lane in compact style determines the compact piece
/// of a packet, although the definition looks back over all bytes of the lane. After the packet, the state
/// is the one that the bytes after the last System Reset leave.
pub fn kept_lanes_are_those_of_the_bytes()
    ensures { (paired : Bool) → KeptLanesAreThoseOfTheBytes paired }
{
    running_status_is_that_of_the_messages();
    statuses_that_run_can_be_left_out();
}

/// Proves that, for each packet of a recording, the state stored for its lane determines its compact piece.
/// The state is the running status and the registers of the lane's bytes after the last System Reset.
pub fn kept_lanes_are_those_of_the_recording()
    ensures { (paired : Bool) → KeptLanesAreThoseOfTheRecording paired }
{
    running_status_is_that_of_the_messages();
    statuses_that_run_can_be_left_out();
    written_messages_are_read_again();
}
