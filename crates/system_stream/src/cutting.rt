// Cuts a text into packets.
ghost use Rattle.std.specs.Prelude.{◌≡◌, ◌<◌, ◌≤◌, length, IfSome};
ghost use Rattle.std.specs.Fork.{slice_chunk};
ghost use Rattle.ump_grammar.specs.Ranges.{IsPacket};
ghost use Rattle.system_stream.specs.Cut.{packet_at, part_bytes as bytes_at, part_count};
ghost use Rattle.system_stream.specs.Texts.{limit_of};

use crate::message::StreamMessage;
use crate::texts::TextKind;
use crate::writing::write;
use ump_grammar::Packet;
use voice_messages::Form;

/// Returns the number of packets for a text (M2-104-UM, UMP stream messages): one for every 14 bytes, or
/// for every 13 bytes of a block's name.
pub fn packet_count(kind: TextKind, text: &[u8]) -> usize
    ensures { result ≡ part_count kind text.now }
{
    text.len().div_ceil(kind.part_size())
}

/// Returns packet `k`, counted from 0, of a text (M2-104-UM, UMP stream messages), or `None` exactly if `k`
/// is past the last packet. The text has at least one byte and is within the limit of its kind.
///
/// Each packet has 14 bytes of the text, or 13 bytes of a block's name, and zeros fill the last packet. A
/// cut may fall inside a character (own rule). `block` is the number of the function block. Only a block's
/// name uses it.
pub fn cut_text(kind: TextKind, block: u8, text: &[u8], k: usize) -> Option<Packet>
    requires some { 0 < length text.now }
    requires limit { length text.now ≤ limit_of kind }
    ensures packet { result ≡ packet_at kind block text.now k }
    ensures fits { IfSome result IsPacket }
{
    let count = packet_count(kind, text);
    if k >= count {
        return None;
    }
    let form = Form::at(k, count);
    let message = match kind {
        TextKind::EndpointName => StreamMessage::Name {
            form,
            text: part_bytes(text, k),
        },
        TextKind::ProductId => StreamMessage::ProductId {
            form,
            text: part_bytes(text, k),
        },
        TextKind::BlockName => StreamMessage::BlockName {
            form,
            block,
            text: part_bytes(text, k),
        },
    };
    Some(write(&message))
}

// Returns the bytes of the text for packet `k`.
fn chunk<const N: usize>(text: &[u8], k: usize) -> &[u8]
    ensures chunk { result.now ≡ slice_chunk text.now N k }
    ensures few { length result.now ≤ N }
{
    let start = k.saturating_mul(N).min(text.len());
    let count = (text.len() - start).min(N);
    &text[start..start + count]
}

// Returns the bytes of the text for packet `k`, filled with zeros.
fn part_bytes<const N: usize>(text: &[u8], k: usize) -> [u8; N]
    ensures { result ≡ bytes_at N text.now k }
{
    let chunk = chunk::<N>(text, k);
    let mut bytes = [0; N];
    bytes[..chunk.len()].copy_from_slice(chunk);
    bytes
}
