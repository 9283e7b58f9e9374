// Messages that compact style writes without decoding their packets.
ghost use Rattle.std.specs.Prelude.{◌≡◌, ◌/◌};
ghost use Rattle.encoded_packets.specs.DirectMessages.{kind_by};
ghost use Rattle.down_translator.specs.Lowered.{index_by};

use encoded_packets::{DirectKind, DirectMessage};
use voice_messages::{U4, U7};

/// A MIDI 1.0 channel voice message in compact style. It alone expresses a packet.
#[derive(Clone, Copy, Debug)]
pub struct ShortenedMessage {
    /// The lane, which is the packet's group.
    pub lane: U4,
    /// The status byte, 80 to EF.
    pub status: u8,
    /// Whether the status byte is left out because it is the running status of the lane.
    pub is_running: bool,
    /// The first data byte.
    pub first: U7,
    /// The second data byte, or `None` exactly in a channel pressure or a program change.
    pub second: Option<U7>,
    /// Whether the message leaves out the attribute of a note, which is listed.
    pub has_attribute: bool,
}

/// Returns the index of a control change, or the index of a direct control change for any other message. So
/// the look-up needs no branch: the kind of the next message can't be predicted.
#[inline(always)]
pub fn control_index(message: &DirectMessage) -> U7
    ensures { result ≡ index_by (kind_by (message.now.status / 16)) message.now }
{
    if matches!(message.kind(), DirectKind::Control) {
        message.index
    } else {
        U7::low_bits(64)
    }
}
