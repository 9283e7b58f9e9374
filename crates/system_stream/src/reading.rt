// Reads stream packets as messages.
ghost use Rattle.std.specs.Prelude.{◌≡◌, ◌<◌, ◌∷◌, ◌++◌, []};
ghost use Rattle.ump_grammar.specs.WordFields.{field};
ghost use Rattle.system_stream.specs.Layout.{
  Reads,
  word_bytes,
  flag as is_flag,
  form_of as form_at,
  has_one_packet,
  stream_message,
};
ghost use Rattle.system_stream.specs.declared.message.StreamMessage.TheVariants as stream;

use crate::message::{BadFormat, StreamMessage};
use ump_grammar::Packet;
use ump_grammar::decoding::form_of;
use ump_grammar::fields::{bits, byte};
use voice_messages::Form;

/// Returns the message of a stream packet (M2-104-UM, UMP stream messages). Returns `Err(BadFormat)`
/// exactly if messages with this status have one packet and the format isn't 0. If the status has no row,
/// or if the packet isn't a stream packet, the message is `Other`.
pub fn read(packet: &Packet) -> Result<StreamMessage, BadFormat>
    ensures { Reads packet.now result }
{
    let Packet::Stream {
        format,
        status,
        low,
        second,
        third,
        fourth,
    } = packet
    else {
        return Ok(StreamMessage::Other);
    };
    if *format != 0 && has_one_packet(*status) {
        return Err(BadFormat);
    }
    let low = u32::from(*low);
    Ok(message(*format, *status, low, *second, *third, *fourth))
}

// Returns whether messages with this status have one packet.
fn has_one_packet(status: u16) -> bool
    ensures { result ≡ has_one_packet status }
{
    matches!(
        status,
        0x000 | 0x001 | 0x002 | 0x005 | 0x006 | 0x010 | 0x011 | 0x020 | 0x021
    )
}

fn message(format: u8, status: u16, low: u32, second: u32, third: u32, fourth: u32) -> StreamMessage
    ensures { result ≡ stream_message format status low second third fourth }
{
    match status {
        0x000 => StreamMessage::Discovery {
            major: byte(low, 8),
            minor: byte(low, 0),
            filter: byte(second, 0),
        },
        0x001 => info(low, second),
        0x002 => identity(second, third, fourth),
        0x003 => StreamMessage::Name {
            form: form(format),
            text: name_bytes(low, second, third, fourth),
        },
        0x004 => StreamMessage::ProductId {
            form: form(format),
            text: name_bytes(low, second, third, fourth),
        },
        0x005 => StreamMessage::ConfigRequest {
            protocol: byte(low, 8),
            jr: byte(low, 0),
        },
        0x006 => StreamMessage::ConfigNotice {
            protocol: byte(low, 8),
            jr: byte(low, 0),
        },
        0x010 => StreamMessage::BlockDiscovery {
            block: byte(low, 8),
            filter: byte(low, 0),
        },
        0x011 => block_info(low, second),
        0x012 => StreamMessage::BlockName {
            form: form(format),
            block: byte(low, 8),
            text: block_name_bytes(low, second, third, fourth),
        },
        0x020 => StreamMessage::StartClip,
        0x021 => StreamMessage::EndClip,
        _ => StreamMessage::Other,
    }
}

// Returns the form of a format, which has two bits: 0 to 3.
fn form(format: u8) -> Form
    ensures { result ≡ form_at format }
{
    form_of(u32::from(format)).unwrap_or(Form::End)
}

// Returns the field of one bit.
fn flag(word: u32, low: u32) -> bool
    requires { low < 32 }
    ensures { result ≡ is_flag word low }
{
    bits(word, low, 1) == 1
}

fn info(low: u32, second: u32) -> StreamMessage
    ensures { result ≡ stream.Info (field low 8 8) (field low 0 8) (is_flag second 31) (field second 24 7)
        (is_flag second 9) (is_flag second 8) (is_flag second 1) (is_flag second 0) }
{
    StreamMessage::Info {
        major: byte(low, 8),
        minor: byte(low, 0),
        fixed: flag(second, 31),
        blocks: bits(second, 24, 7) as u8,
        midi2: flag(second, 9),
        midi1: flag(second, 8),
        receives_jr: flag(second, 1),
        sends_jr: flag(second, 0),
    }
}

fn identity(second: u32, third: u32, fourth: u32) -> StreamMessage
    ensures { result ≡ stream.Identity (field second 16 8 ∷ field second 8 8 ∷ field second 0 8 ∷ [])
        (field third 24 8 ∷ field third 16 8 ∷ []) (field third 8 8 ∷ field third 0 8 ∷ [])
        (word_bytes fourth) }
{
    StreamMessage::Identity {
        manufacturer: [byte(second, 16), byte(second, 8), byte(second, 0)],
        family: [byte(third, 24), byte(third, 16)],
        model: [byte(third, 8), byte(third, 0)],
        revision: [
            byte(fourth, 24),
            byte(fourth, 16),
            byte(fourth, 8),
            byte(fourth, 0),
        ],
    }
}

fn block_info(low: u32, second: u32) -> StreamMessage
    ensures { result ≡ stream.BlockInfo (is_flag low 15) (field low 8 7)
        (field low 4 2) (field low 2 2) (field low 0 2)
        (field second 24 8) (field second 16 8) (field second 8 8) (field second 0 8) }
{
    StreamMessage::BlockInfo {
        active: flag(low, 15),
        block: bits(low, 8, 7) as u8,
        hint: bits(low, 4, 2) as u8,
        midi1: bits(low, 2, 2) as u8,
        direction: bits(low, 0, 2) as u8,
        first: byte(second, 24),
        count: byte(second, 16),
        ci: byte(second, 8),
        sysex8: byte(second, 0),
    }
}

// Returns the text bytes, from byte 3 on.
fn name_bytes(low: u32, second: u32, third: u32, fourth: u32) -> [u8; 14]
    ensures { result ≡
        field low 8 8 ∷ field low 0 8 ∷ word_bytes second ++ word_bytes third ++ word_bytes fourth }
{
    let mut bytes = [byte(low, 8); 14];
    bytes[1..].copy_from_slice(&block_name_bytes(low, second, third, fourth));
    bytes
}

// Returns the text bytes, from byte 4 on.
fn block_name_bytes(low: u32, second: u32, third: u32, fourth: u32) -> [u8; 13]
    ensures { result ≡ field low 0 8 ∷ word_bytes second ++ word_bytes third ++ word_bytes fourth }
{
    [
        byte(low, 0),
        byte(second, 24),
        byte(second, 16),
        byte(second, 8),
        byte(second, 0),
        byte(third, 24),
        byte(third, 16),
        byte(third, 8),
        byte(third, 0),
        byte(fourth, 24),
        byte(fourth, 16),
        byte(fourth, 8),
        byte(fourth, 0),
    ]
}
