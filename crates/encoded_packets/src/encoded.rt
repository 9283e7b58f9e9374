// Packets stored as words.
ghost use Rattle.std.specs.Prelude.{◌≡◌, ◌≢◌, ◌≤◌, ◌%◌, ◌==◌, ◌&&◌, ◌<◌, ◌∷◌, [], true, false, All, Ok, IfOk, IfSome, None};
ghost use Rattle.std.specs.Prelude.{MatchOption, length, slice_index, take};
ghost use Rattle.packet_words.specs.Words.{IsWhole};
ghost use Rattle.ump_grammar.specs.WordFields.{byte as place, count_of, field, group_of, opcode_of, type_of, word};
ghost use Rattle.ump_grammar.specs.Ranges.{IsPacket};
ghost use Rattle.ump_grammar.specs.Reading.{Decodes};
ghost use Rattle.ump_grammar.specs.Reason.{reason};
ghost use Rattle.ump_grammar.specs.Spelling.{exclusive_places, form_number};
ghost use Rattle.ump_grammar.specs.declared.packet.Packet.TheVariants as packet;
ghost use Rattle.voice_messages.specs.declared.voice2.Form.TheVariants as form;
ghost use Rattle.encoded_packets.specs.Parts.{begins_part, continues_by_six, has_low_bytes, is_full_part, is_low_part};
ghost use Rattle.encoded_packets.specs.Encoded.{ThePacket, the_packet-prop};
ghost use Rattle.encoded_packets.specs.Pairs.{begins_low_voice2, is_low_pair, is_low_voice1};
ghost use Rattle.encoded_packets.specs.DirectMessages.{IsDirectMessage, has_direct_kind, is_direct_opcode, direct_voice};

use crate::direct_message::{DirectKind, DirectMessage};
use crate::exclusive_part::ExclusivePart;
use packet_words::{Framed, Words};
use std::marker::Model;
use ump_grammar::decoding::{exclusive_bytes, form_of};
use ump_grammar::fields::{bits, byte, nibble};
use ump_grammar::laws::{spelled_packets_fit, words_spell_one_packet};
use ump_grammar::{Bad, Packet, decode};
use voice_messages::{U4, U7};

/// A packet, stored as the words that encode it (M2-104-UM). In contracts its value is the decoded packet.
#[derive(Drop)]
pub struct EncodedPacket {
    words: Words,
    // Determined once, when the packet is created.
    has_direct_kind: bool,
    is_part: bool,
    ghost packet: { ThePacket words } by { the_packet-prop words },
    ghost asked: { has_direct_kind ≡ (type_of words == 4 && is_direct_opcode (opcode_of words)) },
    ghost part_asked: { is_part ≡ is_low_part words },
}

impl Model for EncodedPacket {
    ghost use Rattle.ump_grammar.specs.declared.packet.Packet.{Packet};

    ghost Value = { Packet };

    ghost view = { λ encoded. encoded.packet.0 };
}

impl EncodedPacket {
    /// Creates the packet that the words encode (M2-104-UM). The message type in the first word determines
    /// how many words there are.
    ///
    /// * `Err(BadCount)` is returned exactly if a 7-bit exclusive of form 0 to 3 counts more than six
    ///   bytes.
    /// * `Err(HighBit)` is returned exactly if another packet has 128 or more in a byte that carries seven
    ///   bits. In an exclusive, only the bytes that it counts carry seven bits. The bytes of a program's
    ///   bank do so only if the packet has a bank.
    #[inline(always)]
    #[tactic(auto, using(crate::proofs::LowLaws::fine_low_part))]
    pub fn new(framed: &Framed) -> Result<EncodedPacket, Bad>
        requires { IsWhole framed.now.words }
        ensures answer { Decodes framed.now.words result }
        ensures fits { IfOk result IsPacket }
    {
        let first = framed.words.as_slice()[0];
        // Most packets are direct messages. Only other packets are decoded here.
        if begins_direct(first) && byte(first, 8) < 128 {
            return Ok(packet_of(&framed.words, true, false));
        }
        if is_low_part(&framed.words) {
            return Ok(packet_of(&framed.words, false, true));
        }
        decode(framed)?;
        Ok(packet_of(&framed.words, begins_direct(first), false))
    }

    /// Returns the packet that these two words encode (M2-104-UM), if a few of their bytes show that there
    /// is no reason to refuse it:
    ///
    /// * a direct message whose byte 3 is below 128;
    /// * a 7-bit exclusive that counts at most six bytes, all six places of which are below 128, counted or
    ///   not;
    /// * another voice message of MIDI 2.0, except a program, whose bytes 3 and 4 are below 128.
    ///
    /// Returns `None` for other words: use `new` for them.
    #[inline(always)]
    #[tactic(auto, using(crate::proofs::LowLaws::fine_low_part, crate::proofs::LowLaws::fine_voice2))]
    pub fn of_two(first: u32, second: u32) -> Option<EncodedPacket>
        ensures whole { IfSome result (λ _. IsWhole (first ∷ second ∷ [])) }
        ensures answer { MatchOption result (is_low_pair (first ∷ second ∷ []) ≡ false)
            (λ packet. Decodes (first ∷ second ∷ []) (Ok packet)) }
        ensures fits { IfSome result IsPacket }
    {
        let words = Words::of_two(first, second);
        if byte(first, 8) < 128 && begins_direct(first) {
            return Some(packet_of(&words, true, false));
        }
        if begins_part(first) && has_low_bytes(words.as_slice()) {
            return Some(packet_of(&words, false, true));
        }
        if is_low_voice2(first) {
            return Some(packet_of(&words, false, false));
        }
        None
    }

    /// Returns the packet that this word encodes, if it is a MIDI 1.0 channel voice message whose bytes 3
    /// and 4 are below 128 (M2-104-UM, MIDI 1.0 channel voice messages). Returns `None` for other words:
    /// use `new` for them.
    #[inline(always)]
    pub fn of_one(first: u32) -> Option<EncodedPacket>
        ensures whole { IfSome result (λ _. IsWhole (first ∷ [])) }
        ensures answer { MatchOption result (is_low_voice1 (first ∷ []) ≡ false)
            (λ packet. Decodes (first ∷ []) (Ok packet)) }
        ensures fits { IfSome result IsPacket }
    {
        if is_low_voice1(first) {
            Some(packet_of(&Words::from_slice(&[first]), false, false))
        } else {
            None
        }
    }

    /// Returns the words that encode the packet (M2-104-UM). There are 1 to 4, as the message type in the
    /// first one says.
    #[inline(always)]
    pub fn words(&self) -> &[u32]
        ensures { Decodes result.now (Ok self.now) }
    {
        self.words.as_slice()
    }

    /// Decodes the packet to its fields.
    #[inline(always)]
    pub fn decode(&self) -> Packet
        ensures value { result ≡ self.now }
        ensures fits { IsPacket result }
    {
        let framed = Framed {
            offset: 0,
            words: self.words.copied(),
        };
        match decode(&framed) {
            Ok(packet) => packet,
            // The type guarantees that the words decode to a packet.
            Err(_) => unreachable!(),
        }
    }

    /// Returns the packet as a part of an exclusive (M2-104-UM, system exclusive 7-bit messages), if all
    /// six places of its words are below 128, counted or not. So a part of six bytes is always returned.
    /// Returns `None` for other packets: use `decode` for them.
    #[inline(always)]
    pub fn exclusive(&self) -> Option<ExclusivePart>
        ensures { MatchOption result (is_full_part self.now ≡ false) (λ part. (part.count ≤ 6)
            × All (λ byte. byte < 128) part.bytes
            × (self.now ≡ packet.Exclusive part.group part.form (take part.count part.bytes))) }
    {
        if self.is_part {
            let words = self.words.as_slice();
            part_in(words)
        } else {
            None
        }
    }

    /// Returns the group and the bytes of a packet that continues an exclusive by six bytes, each below 128
    /// (M2-104-UM, system exclusive 7-bit messages), or `None` exactly for all other packets.
    #[inline(always)]
    pub fn continued(&self) -> Option<(U4, [u8; 6])>
        ensures { MatchOption result (continues_by_six self.now ≡ false) (λ part.
            All (λ byte. byte < 128) part.1
            × (self.now ≡ packet.Exclusive part.0 form.Continue part.1)) }
    {
        if self.is_part {
            let words = self.words.as_slice();
            six_in(words)
        } else {
            None
        }
    }

    /// Returns the packet as a direct message, or `None` exactly for a packet that isn't one.
    #[inline(always)]
    pub fn direct_message(&self) -> Option<DirectMessage>
        ensures { MatchOption result (has_direct_kind self.now ≡ false) (λ message. IsDirectMessage message
            × (self.now ≡ packet.Voice2 message.group (direct_voice message))) }
    {
        if self.has_direct_kind {
            let words = self.words.as_slice();
            Some(message_in(words))
        } else {
            None
        }
    }
}

// Creates the packet that the words encode, with the facts already determined about it.
#[inline(always)]
fn packet_of(words: &Words, has_direct_kind: bool, is_part: bool) -> EncodedPacket
    requires whole { IsWhole words.now }
    requires fine { reason words.now ≡ None }
    requires asked { has_direct_kind ≡ (type_of words.now == 4 && is_direct_opcode (opcode_of words.now)) }
    requires part_asked { is_part ≡ is_low_part words.now }
    ensures answer { Decodes words.now (Ok result) }
    ensures fits { IsPacket result }
{
    words_spell_one_packet();
    spelled_packets_fit();
    EncodedPacket {
        words: words.copied(),
        has_direct_kind,
        is_part,
    }
}

// Returns the part of an exclusive in these words, or `None` exactly if their form is reserved.
#[inline(always)]
fn part_in(words: &[u32]) -> Option<ExclusivePart>
    requires { length words.now ≡ 2 }
    ensures { MatchOption result (3 < opcode_of words.now) (λ part. (part.group ≡ group_of words.now)
        × (opcode_of words.now ≡ form_number part.form) × (part.count ≡ count_of words.now)
        × (part.bytes ≡ exclusive_places words.now)) }
{
    let first = words[0];
    let form = form_of(bits(first, 20, 4))?;
    Some(ExclusivePart {
        group: nibble(first, 24),
        form,
        count: bits(first, 16, 4) as usize,
        bytes: exclusive_bytes(words),
    })
}

// Returns the group and the bytes in these words if their form is Continue and they count six bytes, or
// `None` exactly for all others.
#[inline(always)]
fn six_in(words: &[u32]) -> Option<(U4, [u8; 6])>
    requires { length words.now ≡ 2 }
    ensures { MatchOption result (field (slice_index words.now 0) 16 8 ≢ 0x26) (λ part.
        (field (slice_index words.now 0) 16 8 ≡ 0x26) × (part.0 ≡ group_of words.now)
        × (part.1 ≡ exclusive_places words.now)) }
{
    let first = words[0];
    if bits(first, 16, 8) == 0x26 {
        Some((nibble(first, 24), exclusive_bytes(words)))
    } else {
        None
    }
}

// Returns whether this is a 7-bit exclusive in which no byte, counted or not, is 128 or more.
#[inline(always)]
fn is_low_part(words: &Words) -> bool
    requires { IsWhole words.now }
    ensures { result ≡ is_low_part words.now }
{
    let words = words.as_slice();
    begins_part(words[0]) && has_low_bytes(words)
}

// Returns whether this is the first word of a 7-bit exclusive that counts at most six bytes.
#[inline(always)]
fn begins_part(first: u32) -> bool
    ensures { result ≡ begins_part first }
{
    (bits(first, 28, 4) == 3) & (bits(first, 20, 4) <= 3) & (bits(first, 16, 4) <= 6)
}

// Returns whether all six bytes are below 128.
#[inline(always)]
fn has_low_bytes(words: &[u32]) -> bool
    requires { length words.now ≡ 2 }
    ensures { result ≡ has_low_bytes words.now }
{
    (byte(words[0], 8) < 128)
        & (byte(words[0], 0) < 128)
        & (byte(words[1], 24) < 128)
        & (byte(words[1], 16) < 128)
        & (byte(words[1], 8) < 128)
        & (byte(words[1], 0) < 128)
}

// Returns the message in these words.
#[inline(always)]
fn message_in(words: &[u32]) -> DirectMessage
    requires { length words.now ≡ 2 }
    ensures group { result.group ≡ group_of words.now }
    ensures status { result.status ≡ place words.now 2 }
    ensures index { result.index ≡ place words.now 3 % 128 }
    ensures attribute_type { result.attribute_type ≡ place words.now 4 }
    ensures value { result.value ≡ word words.now 2 }
{
    let first = words[0];
    DirectMessage {
        group: nibble(first, 24),
        status: byte(first, 16),
        index: U7::low_bits(u32::from(byte(first, 8))),
        attribute_type: byte(first, 0),
        value: words[1],
    }
}

// Returns whether this is the first word of a direct message.
#[inline(always)]
fn begins_direct(first: u32) -> bool
    ensures { result ≡ (field first 28 4 == 4 && is_direct_opcode (field first 20 4)) }
{
    bits(first, 28, 4) == 4 && DirectKind::of(bits(first, 20, 4) as u8).is_direct()
}

// Returns whether this is the first word of a MIDI 2.0 voice message other than a program change, with
// bytes 3 and 4 below 128.
#[inline(always)]
fn is_low_voice2(first: u32) -> bool
    ensures { result ≡ begins_low_voice2 first }
{
    (bits(first, 28, 4) == 4)
        & (bits(first, 20, 4) != 0xC)
        & (byte(first, 8) < 128)
        & (byte(first, 0) < 128)
}

// Returns whether this is the word of a MIDI 1.0 channel voice message with bytes 3 and 4 below 128.
#[inline(always)]
fn is_low_voice1(first: u32) -> bool
    ensures { result ≡ is_low_voice1 (first ∷ []) }
{
    (bits(first, 28, 4) == 2)
        & (bits(first, 20, 4) >= 0x8)
        & (bits(first, 20, 4) <= 0xE)
        & (byte(first, 8) < 128)
        & (byte(first, 0) < 128)
}
