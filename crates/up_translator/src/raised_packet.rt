// The packet of a message, as it is written.
ghost use Rattle.std.specs.Prelude.{◌≡◌, MatchOption, false, true};
ghost use Rattle.encoded_packets.specs.DirectMessages.{has_direct_kind, is_direct_voice};
ghost use Rattle.ump_grammar.specs.Ranges.{IsPacket};
ghost use Rattle.ump_grammar.specs.Reading.{Encodes};
ghost use Rattle.ump_grammar.specs.declared.packet.Packet.TheVariants as packet;
ghost use Rattle.up_translator.specs.RaisedPacket.{packet_by};
ghost use Rattle.up_translator.specs.DirectWords.{IsRaisedDirect, packet_of};

use crate::direct_words::DirectWords;
use encoded_packets::DirectMessage;
use packet_words::Words;
use small_types::ShortList;
use std::marker::Model;
use ump_grammar::{Packet, encode};
use voice_messages::{Form, System, U4, Voice2};

// The stored form of a packet, by the kind of message.
#[derive(Debug, Drop)]
enum PacketForm {
    // A direct message, with its group.
    Value(DirectWords),
    // Any other MIDI 2.0 message.
    Voice2 {
        group: U4,
        message: Voice2,
    },
    // A system message.
    System {
        group: U4,
        message: System,
    },
    // Up to six bytes of an exclusive.
    Exclusive {
        group: U4,
        form: Form,
        bytes: ShortList<u8, 6>,
    },
}

/// The packet into which a message is translated. In contracts its value is the packet.
#[derive(Debug, Drop)]
pub struct RaisedPacket {
    form: PacketForm,
}

impl Model for RaisedPacket {
    ghost use Rattle.ump_grammar.specs.declared.packet.Packet.{Packet};
    ghost use Rattle.up_translator.specs.RaisedPacket.{IsSorted, packet_by};

    ghost Value = { Packet };

    ghost view = { λ p. packet_by p.form };

    ghost invariant = { λ p. IsSorted p.form };
}

impl RaisedPacket {
    /// Creates the packet of a MIDI 2.0 message that isn't a direct one, in a group.
    #[inline(always)]
    pub(crate) fn of_voice2(group: U4, message: Voice2) -> RaisedPacket
        requires { is_direct_voice message ≡ false }
        ensures { result ≡ packet.Voice2 group message }
    {
        RaisedPacket {
            form: PacketForm::Voice2 { group, message },
        }
    }

    /// Creates the packet of a system message in a group.
    #[inline(always)]
    pub(crate) fn of_system(group: U4, message: System) -> RaisedPacket
        ensures { result ≡ packet.System group message }
    {
        RaisedPacket {
            form: PacketForm::System { group, message },
        }
    }

    /// Creates the packet of a part of an exclusive in a group, with up to six of its bytes.
    #[inline(always)]
    pub fn of_exclusive(group: U4, form: Form, bytes: ShortList<u8, 6>) -> RaisedPacket
        ensures { result ≡ packet.Exclusive group form bytes }
    {
        RaisedPacket {
            form: PacketForm::Exclusive { group, form, bytes },
        }
    }

    /// Creates the packet of a direct message, in its group.
    #[inline(always)]
    pub fn of_value(message: &DirectMessage) -> RaisedPacket
        requires { IsRaisedDirect message.now }
        ensures { result ≡ packet_of message.now }
    {
        RaisedPacket {
            form: PacketForm::Value(DirectWords::new(message)),
        }
    }

    /// Returns the packet.
    #[inline(always)]
    pub fn packet(&self) -> Packet
        ensures { result ≡ self.now }
    {
        match &self.form {
            PacketForm::Value(words) => Packet::Voice2 {
                group: words.group(),
                message: words.message(),
            },
            PacketForm::Voice2 { group, message } => Packet::Voice2 {
                group: *group,
                message: *message,
            },
            PacketForm::System { group, message } => Packet::System {
                group: *group,
                message: *message,
            },
            PacketForm::Exclusive { group, form, bytes } => Packet::Exclusive {
                group: *group,
                form: *form,
                bytes: bytes.copied(),
            },
        }
    }

    /// Returns the message if it is a direct one, or `None` exactly for all other packets.
    #[inline(always)]
    pub fn direct_message(&self) -> Option<DirectMessage>
        ensures { MatchOption result (has_direct_kind self.now ≡ false)
            (λ message. IsRaisedDirect message × (self.now ≡ packet_of message)) }
    {
        match &self.form {
            PacketForm::Value(words) => Some(words.fields()),
            _ => None,
        }
    }

    /// Returns the two words that encode a direct message (M2-104-UM, MIDI 2.0 channel voice messages), or
    /// `None` exactly for all other packets. `words` returns the words of those.
    #[inline(always)]
    pub fn pair(&self) -> Option<[u32; 2]>
        ensures { MatchOption result (has_direct_kind self.now ≡ false)
            (λ pair. (has_direct_kind self.now ≡ true) × Encodes self.now pair) }
    {
        match &self.form {
            PacketForm::Value(words) => Some(words.pair()),
            _ => None,
        }
    }

    /// Returns the words that encode the packet (M2-104-UM), with zeros in the places that its row doesn't
    /// name. The packet must be one that some words decode to.
    #[inline(always)]
    pub fn words(&self) -> Words
        requires { IsPacket self.now }
        ensures { Encodes self.now result }
    {
        encode(&self.packet())
    }
}
