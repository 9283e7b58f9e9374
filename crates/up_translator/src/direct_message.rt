// Messages that are translated alone, whatever came before (M2-104-UM, translation from MIDI 1.0;
// M2-115-U).
ghost use Rattle.std.specs.Prelude.{◌≡◌, ◌≢◌, ◌<◌, ◌/◌, ◌==◌, if◌then◌else◌};
ghost use Rattle.bit_scaling.specs.Scaling.{up};
ghost use Rattle.midi1_bytes.specs.Messages.{fourteen_bits};
ghost use Rattle.midi1_bytes.specs.Spoken.{voice_in};
ghost use Rattle.voice_messages.specs.declared.voice2.Voice2.TheVariants as voice2;
ghost use Rattle.encoded_packets.specs.DirectMessages.{direct_voice};
ghost use Rattle.up_translator.specs.Direct.{RaisesTo, raised_by, goes_direct, value_by};
ghost use Rattle.ump_grammar.specs.Reading.{Encodes};
ghost use Rattle.up_translator.specs.DirectWords.{IsRaisedDirect, packet_of};

use crate::direct_words::DirectWords;
use bit_scaling::{up7, up14};
use encoded_packets::DirectMessage;
use midi_meaning::DirectControls;
use midi1_bytes::VoiceBytes;
use std::marker::Model;
use voice_messages::{U4, U7, U14};

/// The value of the note off into which a note on of velocity 0 is translated: the velocity in its upper
/// half, and no attribute (own rule).
const RELEASE: u32 = 0x8000_0000;

// Returns the index of a control change, or a direct index for any other message.
#[inline(always)]
fn index_of(opcode: u8, first: u8) -> U7
    requires { first < 128 }
    ensures { result ≡ (if opcode == 0xB then first else 64) }
{
    U7::low_bits(if opcode == 0xB { u32::from(first) } else { 64 })
}

/// Returns whether a message neither uses nor changes the values that control changes set: a note off or
/// on, a pressure, a bend, or a direct control change. The kind of the next message can't be predicted, so
/// the function has no branch: a message without an index counts as a direct control change.
#[inline(always)]
pub fn goes_direct(direct: &DirectControls, bytes: &VoiceBytes) -> bool
    ensures { result ≡ goes_direct direct.now (voice_in bytes.now) }
{
    let opcode = bytes.status / 16;
    (opcode != 0xC) & direct.has(index_of(opcode, bytes.first))
}

// Returns the value of a bend.
#[inline(always)]
fn bend_of(first: u8, second: u8) -> u32
    requires first_below { first < 128 }
    requires second_below { second < 128 }
    ensures { result ≡ up (fourteen_bits first second) 14 32 }
{
    up14(U14::low_bits(u32::from(second) * 128 + u32::from(first)))
}

// Returns the value of any message but a bend, by the opcode. The upper half of a value that is scaled up
// to 32 bits is the value scaled up to 16 bits, as for a velocity.
#[tactic(auto, using(crate::proofs::DirectLaws::upper_half))]
#[inline(always)]
fn value_of(opcode: u8, first: u8, second: u8) -> u32
    requires no_bend { opcode < 0xE }
    requires first_below { first < 128 }
    requires second_below { second < 128 }
    ensures { result ≡ value_by opcode first second }
{
    let entered = if opcode < 0xD { second } else { first };
    let whole = up7(U7::low_bits(u32::from(entered)));
    if opcode < 0xA {
        whole / 0x1_0000 * 0x1_0000
    } else {
        whole
    }
}

// Returns the fields of the message. The next velocity can't be predicted, so the fields of a silent note
// are chosen without a branch. Few messages are bends, so a bend's value is scaled up only for them.
#[inline(always)]
fn fields(group: U4, bytes: &VoiceBytes) -> DirectMessage
    ensures { result ≡ raised_by (bytes.now.status / 16) group bytes.now.status
        bytes.now.first bytes.now.second }
{
    let opcode = bytes.status / 16;
    let value = if opcode < 0xE {
        value_of(opcode, bytes.first, bytes.second)
    } else {
        bend_of(bytes.first, bytes.second)
    };
    let (status, value) = if (opcode == 0x9) & (bytes.second == 0) {
        (bytes.status - 16, RELEASE)
    } else {
        (bytes.status, value)
    };
    let first = U7::low_bits(u32::from(bytes.first));
    DirectMessage {
        group,
        status,
        index: if opcode < 0xD { first } else { U7::low_bits(0) },
        attribute_type: 0,
        value,
    }
}

/// A voice message that is translated alone, with its group. The words are computed only when the caller
/// asks for them, so that the caller can do other work first. In contracts its value is the message into
/// which it is translated.
#[derive(Debug, Drop)]
pub struct DirectVoice {
    group: U4,
    bytes: VoiceBytes,
}

impl Model for DirectVoice {
    ghost use Rattle.std.specs.Prelude.{◌/◌};
    ghost use Rattle.encoded_packets.specs.declared.direct_message.DirectMessage.{DirectMessage};
    ghost use Rattle.up_translator.specs.Direct.{raised_by};

    ghost Value = { DirectMessage };

    ghost view = { λ voice. raised_by (voice.bytes.status / 16) voice.group voice.bytes.status
        voice.bytes.first voice.bytes.second };
}

impl DirectVoice {
    /// Creates the value for a voice message that isn't a program change, in a group.
    #[inline(always)]
    pub(crate) fn of(group: U4, bytes: &VoiceBytes) -> DirectVoice
        requires { bytes.now.status / 16 ≢ 0xC }
        ensures raised_direct { IsRaisedDirect result }
        ensures group { result.group ≡ group }
        ensures raised { RaisesTo (voice_in bytes.now) (direct_voice result) }
    {
        // This shows the prover that the group is below 16.
        group.get();
        DirectVoice {
            group,
            bytes: *bytes,
        }
    }

    /// Returns the words that encode the packet of the message (M2-104-UM, MIDI 2.0 channel voice
    /// messages).
    #[inline(always)]
    pub fn pair(&self) -> [u32; 2]
        requires { IsRaisedDirect self.now }
        ensures { Encodes (packet_of self.now) result }
    {
        DirectWords::new(&self.message()).pair()
    }

    /// Returns the message into which it is translated.
    #[inline(always)]
    pub(crate) fn message(&self) -> DirectMessage
        ensures { result ≡ self.now }
    {
        fields(self.group, &self.bytes)
    }
}

/// Returns the message into which a voice message, one that is translated alone, is translated in a group.
#[inline(always)]
pub fn raise_direct(group: U4, bytes: &VoiceBytes) -> DirectMessage
    requires { bytes.now.status / 16 ≢ 0xC }
    ensures raised_direct { IsRaisedDirect result }
    ensures group { result.group ≡ group }
    ensures raised { RaisesTo (voice_in bytes.now) (direct_voice result) }
{
    // This shows the prover that the group is below 16.
    group.get();
    fields(group, bytes)
}

/// Returns a control change in a group.
#[tactic(auto, using(crate::proofs::DirectLaws::bare_control, crate::proofs::DirectLaws::control_is))]
#[inline(always)]
pub fn control_change(group: U4, channel: U4, index: U7, value: u32) -> DirectMessage
    ensures raised_direct { IsRaisedDirect result }
    ensures group { result.group ≡ group }
    ensures message { direct_voice result ≡ voice2.Control channel index value }
{
    // These calls show the prover that the fields are in range.
    group.get();
    index.get();
    DirectMessage {
        group,
        status: 0xB0 + channel.get(),
        index,
        attribute_type: 0,
        value,
    }
}
