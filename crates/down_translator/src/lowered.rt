// Packets that are translated into one MIDI 1.0 message, with its status byte.
ghost use Rattle.std.specs.Prelude.{◌≡◌};
ghost use Rattle.encoded_packets.specs.DirectMessages.{IsDirectMessage};
ghost use Rattle.midi1_bytes.specs.Messages.{spelled_voice};
ghost use Rattle.down_translator.specs.Lowered.{lowered_bytes, first_by, has_attribute, is_note, second_by, voice_of};

use bit_scaling::{down7, down14, velocity_down};
use encoded_packets::{DirectKind, DirectMessage};
use small_types::U4;
use voice_messages::U7;

/// A MIDI 1.0 channel voice message with its status byte. It alone expresses a packet.
#[derive(Clone, Copy, Debug)]
pub struct LoweredMessage {
    /// The lane, which is the packet's group.
    pub lane: U4,
    /// The status byte, 80 to EF.
    pub status: u8,
    /// The first data byte.
    pub first: U7,
    /// The second data byte, or `None` exactly in a channel pressure or a program change.
    pub second: Option<U7>,
    /// Whether the message leaves out the attribute of a note, which is listed.
    pub has_attribute: bool,
}

// Returns the data bytes, by the kind: the note or the index, and the value. For a bend they are the low
// and the high seven bits of the value, for a channel pressure the value alone. The kind of the next
// message can't be predicted, so only a channel pressure, which has one data byte, takes a branch.
#[inline(always)]
fn data_bytes(kind: DirectKind, message: &DirectMessage) -> (U7, Option<U7>)
    ensures first { result.0 ≡ first_by kind message.now }
    ensures second { result.1 ≡ second_by kind message.now }
{
    let upper = down7(message.value);
    let lower = U7::low_bits(u32::from(down14(message.value).get()));
    let velocity = velocity_down((message.value >> 16) as u16);
    let first = if matches!(kind, DirectKind::Bend) {
        lower
    } else {
        message.index
    };
    let second = if matches!(kind, DirectKind::NoteOn) {
        velocity
    } else {
        upper
    };
    if matches!(kind, DirectKind::Pressure) {
        (upper, None)
    } else {
        (first, Some(second))
    }
}

// Returns whether the kind is a note off or on.
#[inline(always)]
fn is_note(kind: DirectKind) -> bool
    ensures { result ≡ is_note kind }
{
    matches!(kind, DirectKind::NoteOff | DirectKind::NoteOn)
}

/// Returns the message into which a direct message is translated (M2-104-UM, default translation;
/// M2-115-U).
#[tactic(auto, using(crate::proofs::LoweredLaws::spelled_lowered))]
#[inline(always)]
pub fn lowered(message: &DirectMessage) -> LoweredMessage
    requires { IsDirectMessage message.now }
    ensures lane { result.lane ≡ message.now.group }
    ensures bytes { lowered_bytes result ≡ spelled_voice (voice_of message.now) }
    ensures attribute { result.has_attribute ≡ has_attribute message.now }
{
    let kind = message.kind();
    let (first, second) = data_bytes(kind, message);
    LoweredMessage {
        lane: message.group,
        status: message.status,
        first,
        second,
        has_attribute: is_note(kind) & (message.attribute_type != 0),
    }
}
