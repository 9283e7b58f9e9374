// Packets that no MIDI 1.0 message expresses, recognized by their first word.
ghost use Rattle.std.specs.Prelude.{◌≡◌, ◌<◌, ◌==◌, ◌&&◌, if◌then◌else◌, MatchOption, None, Some, length};
ghost use Rattle.ump_grammar.specs.WordFields.{byte as place, group_of};
ghost use Rattle.ump_grammar.specs.Spelling.{has_row, is_system_status as is_status};
ghost use Rattle.down_translator.specs.Uncarried.{
  IsUncarried,
  has_group,
  kind_in,
  uncarried_kind,
  voice_kind_in,
};

use crate::listing::shift_kind;
use encoded_packets::EncodedPacket;
use midi_meaning::Kind;
use small_types::U4;
use ump_grammar::fields::{bits, byte, nibble};
use ump_grammar::laws::rows_are_not_reserved;

/// The line of a packet that no MIDI 1.0 message expresses.
#[derive(Clone, Copy, Debug)]
pub struct Uncarried {
    /// The group of the packet, if it has one.
    pub group: Option<U4>,
    /// The kind of the line.
    pub kind: Kind,
}

/// Returns the line of the packet, if no MIDI 1.0 message expresses it in any state of a translator
/// (M2-104-UM, default translation; own rules), or `None` exactly for other packets.
#[inline(always)]
pub fn read_uncarried(packet: &EncodedPacket) -> Option<Uncarried>
    ensures { MatchOption result (uncarried_kind packet.now ≡ None)
        (λ told. IsUncarried packet.now told) }
{
    rows_are_not_reserved();
    let words = packet.words();
    match kind_in(words) {
        Some(kind) => Some(Uncarried {
            group: group_in(words, kind),
            kind,
        }),
        None => None,
    }
}

// Returns the group in the first word, if packets of this kind have one.
#[inline(always)]
fn group_in(words: &[u32], kind: Kind) -> Option<U4>
    requires { 0 < length words.now }
    ensures { result ≡ if has_group kind then Some (group_of words.now) else None }
{
    match kind {
        Kind::Utility | Kind::Stream | Kind::Reserved => None,
        _ => Some(nibble(words[0], 24)),
    }
}

// Returns the kind of line for the words of a packet.
#[inline(always)]
fn kind_in(words: &[u32]) -> Option<Kind>
    requires { 0 < length words.now }
    ensures { result ≡ kind_in words.now }
{
    if !has_row(words) {
        return Some(Kind::Reserved);
    }
    match bits(words[0], 28, 4) {
        0x0 => Some(Kind::Utility),
        0x4 => voice_kind_in(words),
        0x5 => Some(Kind::Data8),
        0xD => Some(Kind::Flex),
        0xF => Some(Kind::Stream),
        _ => None,
    }
}

// Returns whether the words belong to a row of the standard's tables and aren't reserved (M2-104-UM).
#[inline(always)]
fn has_row(words: &[u32]) -> bool
    requires { 0 < length words.now }
    ensures { result ≡ has_row words.now }
{
    let opcode = bits(words[0], 20, 4);
    match bits(words[0], 28, 4) {
        0x0 => opcode <= 4,
        0x1 => is_system_status(byte(words[0], 16)),
        0x2 => (opcode >= 0x8) & (opcode <= 0xE),
        0x3 => opcode <= 3,
        0x4 => opcode != 0x7,
        0x5 | 0xD | 0xF => true,
        _ => false,
    }
}

// Returns whether a byte is the status of a system common or system Real Time message.
fn is_system_status(status: u8) -> bool
    ensures { result ≡ is_status status }
{
    matches!(
        status,
        0xF1 | 0xF2 | 0xF3 | 0xF6 | 0xF8 | 0xFA | 0xFB | 0xFC | 0xFE | 0xFF
    )
}

// Returns the kind of line for the words of a MIDI 2.0 voice message.
#[inline(always)]
fn voice_kind_in(words: &[u32]) -> Option<Kind>
    requires { 0 < length words.now }
    ensures { result ≡ voice_kind_in words.now }
{
    match bits(words[0], 20, 4) {
        0x0 | 0x1 => Some(Kind::NoteController),
        0x4 | 0x5 => Some(shift_kind(has_null_parameter(words))),
        0x6 => Some(Kind::NoteBend),
        0xF => Some(Kind::NoteManagement),
        _ => None,
    }
}

// Returns whether the parameter in the words of a relative parameter is the null parameter.
#[inline(always)]
fn has_null_parameter(words: &[u32]) -> bool
    requires { 0 < length words.now }
    ensures { result ≡ (place words.now 3 == 127 && place words.now 4 == 127) }
{
    (byte(words[0], 8) == 127) & (byte(words[0], 0) == 127)
}
