// MIDI 1.0 messages, read from the word of their packet.
ghost use Rattle.std.specs.Prelude.{◌≡◌, ◌<◌, ◌%◌, ◌==◌, ◌||◌, if◌then◌else◌, MatchOption, Some, None, false, length};
ghost use Rattle.ump_grammar.specs.WordFields.{byte as place, group_of, opcode_of};
ghost use Rattle.down_translator.specs.Midi1.{CarriesMidi1, begins_midi1, control_index, is_midi1};

use crate::lowered::LoweredMessage;
use encoded_packets::EncodedPacket;
use ump_grammar::fields::{bits, byte, nibble};
use ump_grammar::laws::spelled_packets_fit;
use voice_messages::U7;

/// Returns the channel voice message in the packet, with its bytes, if it is one of the MIDI 1.0 protocol
/// (M2-104-UM, MIDI 1.0 channel voice messages), or `None` exactly for other packets.
#[inline(always)]
pub fn midi1_message(packet: &EncodedPacket) -> Option<LoweredMessage>
    ensures { MatchOption result (is_midi1 packet.now ≡ false)
        (λ message. CarriesMidi1 packet.now message) }
{
    spelled_packets_fit();
    let words = packet.words();
    if begins_midi1(words) {
        Some(message_in(words))
    } else {
        None
    }
}

// Returns whether these words begin with the type and the opcode of such a message.
#[inline(always)]
fn begins_midi1(words: &[u32]) -> bool
    requires { 0 < length words.now }
    ensures { result ≡ begins_midi1 words.now }
{
    let first = words[0];
    (bits(first, 28, 4) == 2) & (bits(first, 20, 4) >= 0x8) & (bits(first, 20, 4) <= 0xE)
}

// Returns the message in these words.
#[inline(always)]
fn message_in(words: &[u32]) -> LoweredMessage
    requires { 0 < length words.now }
    ensures lane { result.lane ≡ group_of words.now }
    ensures status { result.status ≡ place words.now 2 }
    ensures first { result.first ≡ place words.now 3 % 128 }
    ensures second { result.second ≡ if opcode_of words.now == 0xC || opcode_of words.now == 0xD then None
        else Some (place words.now 4 % 128) }
    ensures attribute { result.has_attribute ≡ false }
{
    let first = words[0];
    let has_one_byte = (bits(first, 20, 4) == 0xC) | (bits(first, 20, 4) == 0xD);
    LoweredMessage {
        lane: nibble(first, 24),
        status: byte(first, 16),
        first: U7::low_bits(u32::from(byte(first, 8))),
        second: if has_one_byte {
            None
        } else {
            Some(U7::low_bits(u32::from(byte(first, 0))))
        },
        has_attribute: false,
    }
}

/// Returns the index of a control change, or the index of a direct control change for any other message.
#[inline(always)]
pub fn message_index(message: &LoweredMessage) -> U7
    ensures { result ≡ control_index message.now }
{
    if message.status / 16 == 0xB {
        message.first
    } else {
        U7::low_bits(64)
    }
}
