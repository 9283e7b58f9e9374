// Direct messages, stored as the words of their packets.
ghost use Rattle.std.specs.Prelude.{◌≡◌};
ghost use Rattle.ump_grammar.specs.WordFields.{field};
ghost use Rattle.ump_grammar.specs.Reading.{Encodes};
ghost use Rattle.encoded_packets.specs.DirectMessages.{IsDirectMessage, direct_voice};
ghost use Rattle.up_translator.specs.DirectWords.{IsRaisedDirect, message_in, packet_of};

use encoded_packets::DirectMessage;
use packet_words::Words;
use std::marker::Model;
use ump_grammar::fields::{byte, nibble};
use voice_messages::{U4, U7, Voice2};

/// A direct message without an attribute, stored as the two words of its packet (M2-104-UM, MIDI 2.0
/// channel voice messages). Most messages of a stream are translated into such words, which can be written
/// without a test of their kind. In contracts its value is the message.
#[derive(Debug, Drop)]
pub struct DirectWords {
    first: u32,
    value: u32,
}

impl Model for DirectWords {
    ghost use Rattle.std.specs.Prelude.{◌≡◌, ◌<◌, ◌^◌};
    ghost use Rattle.ump_grammar.specs.WordFields.{field};
    ghost use Rattle.encoded_packets.specs.declared.direct_message.DirectMessage.{DirectMessage};
    ghost use Rattle.up_translator.specs.DirectWords.{IsRaisedDirect, message_in};

    ghost Value = { DirectMessage };

    ghost view = { λ words. message_in words.first words.value };

    ghost invariant = { λ words. (words.first < 2 ^ 32) × (field words.first 28 4 ≡ 4)
        × IsRaisedDirect (message_in words.first words.value) };
}

// Returns the message, by the opcode in its status byte.
fn voice_of(message: &DirectMessage) -> Voice2
    requires { IsDirectMessage message.now }
    ensures { result ≡ direct_voice message.now }
{
    let DirectMessage {
        status,
        index,
        attribute_type,
        value,
        ..
    } = *message;
    let channel = U4::low_bits(u32::from(status));
    let (high, low) = ((value >> 16) as u16, (value % 0x1_0000) as u16);
    match status / 16 {
        0x8 => Voice2::NoteOff {
            channel,
            note: index,
            velocity: high,
            attribute_type,
            attribute: low,
        },
        0x9 => Voice2::NoteOn {
            channel,
            note: index,
            velocity: high,
            attribute_type,
            attribute: low,
        },
        0xA => Voice2::PolyPressure {
            channel,
            note: index,
            value,
        },
        0xB => Voice2::Control {
            channel,
            index,
            value,
        },
        0xD => Voice2::Pressure { channel, value },
        _ => Voice2::Bend { channel, value },
    }
}

impl DirectWords {
    /// Creates the words of a message.
    #[tactic(auto, using(crate::proofs::WordLaws::type_in, crate::proofs::WordLaws::same_in, crate::proofs::WordLaws::raised_direct_in))]
    #[inline(always)]
    pub(crate) fn new(message: &DirectMessage) -> DirectWords
        requires { IsRaisedDirect message.now }
        ensures { result ≡ message.now }
    {
        let group = u32::from(message.group.get());
        let (status, index) = (u32::from(message.status), u32::from(message.index.get()));
        DirectWords {
            first: (0x40 + group) * 0x100_0000 + status * 0x1_0000 + index * 0x100,
            value: message.value,
        }
    }

    /// Returns the group.
    #[inline(always)]
    pub fn group(&self) -> U4
        ensures { result ≡ self.now.group }
    {
        nibble(self.first, 24)
    }

    /// Returns the message, with all its fields.
    #[inline(always)]
    pub(crate) fn fields(&self) -> DirectMessage
        ensures message { result ≡ self.now }
        ensures raised_direct { IsRaisedDirect result }
    {
        DirectMessage {
            group: nibble(self.first, 24),
            status: byte(self.first, 16),
            index: U7::low_bits(u32::from(byte(self.first, 8))),
            attribute_type: byte(self.first, 0),
            value: self.value,
        }
    }

    /// Returns the message.
    #[inline(always)]
    pub fn message(&self) -> Voice2
        ensures { result ≡ direct_voice self.now }
    {
        voice_of(&self.fields())
    }

    /// Returns the words that encode the packet of the message (M2-104-UM, MIDI 2.0 channel voice
    /// messages).
    #[inline(always)]
    pub fn pair(&self) -> [u32; 2]
        ensures { Encodes (packet_of self.now) result }
    {
        [self.first, self.value]
    }
}
