// Writes messages as stream packets.
ghost use Rattle.std.specs.Prelude.{◌≡◌, ◌<◌, ◌≤◌, ◌+◌, ◌*◌, ◌^◌, length, slice_index};
ghost use Rattle.ump_grammar.specs.Ranges.{IsPacket};
ghost use Rattle.ump_grammar.specs.Spelling.{form_number};
ghost use Rattle.ump_grammar.specs.declared.packet.Packet.TheVariants as packet;
ghost use Rattle.system_stream.specs.Layout.{
  FitsPlaces,
  bit as bit_number,
  half_of,
  packet_of,
  text_word as word_at,
  word_of,
};
ghost use Rattle.system_stream.specs.declared.message.StreamMessage.TheVariants as stream;

use crate::message::StreamMessage;
use ump_grammar::Packet;
use ump_grammar::encoding::form_bits;
use voice_messages::Form;

/// Returns the packet of a message other than `Other` (M2-104-UM, UMP stream messages), with zeros in the
/// places that its row doesn't name. Each field of the message must be in its range.
pub fn write(message: &StreamMessage) -> Packet
    requires { FitsPlaces message.now }
    ensures packet { result ≡ packet_of message.now }
    ensures fits { IsPacket result }
{
    match message {
        StreamMessage::Discovery {
            major,
            minor,
            filter,
        } => single(0x000, half(*major, *minor), u32::from(*filter), 0, 0),
        StreamMessage::Info {
            major,
            minor,
            fixed,
            blocks,
            midi2,
            midi1,
            receives_jr,
            sends_jr,
        } => {
            let second = info_word(*fixed, *blocks, *midi2, *midi1, *receives_jr, *sends_jr);
            single(0x001, half(*major, *minor), second, 0, 0)
        }
        StreamMessage::Identity {
            manufacturer,
            family,
            model,
            revision,
        } => identity(manufacturer, family, model, revision),
        StreamMessage::Name { form, text } => name(*form, 0x003, text),
        StreamMessage::ProductId { form, text } => name(*form, 0x004, text),
        StreamMessage::ConfigRequest { protocol, jr } => short(0x005, *protocol, *jr),
        StreamMessage::ConfigNotice { protocol, jr } => short(0x006, *protocol, *jr),
        StreamMessage::BlockDiscovery { block, filter } => short(0x010, *block, *filter),
        StreamMessage::BlockInfo {
            active,
            block,
            hint,
            midi1,
            direction,
            first,
            count,
            ci,
            sysex8,
        } => {
            let low = block_half(*active, *block, *hint, *midi1, *direction);
            single(0x011, low, word(*first, *count, *ci, *sysex8), 0, 0)
        }
        StreamMessage::BlockName { form, block, text } => {
            text_packet(*form, 0x012, half(*block, text[0]), text, 1)
        }
        StreamMessage::StartClip => short(0x020, 0, 0),
        StreamMessage::EndClip => short(0x021, 0, 0),
        // `Other` has no row and so no packet. The contract excludes it.
        StreamMessage::Other => unreachable!(),
    }
}

// Returns word 2 of Endpoint Info.
fn info_word(
    fixed: bool,
    blocks: u8,
    midi2: bool,
    midi1: bool,
    receives_jr: bool,
    sends_jr: bool,
) -> u32
    requires { blocks < 2 ^ 7 }
    ensures { result ≡ bit_number fixed * 2 ^ 31 + blocks * 2 ^ 24 + bit_number midi2 * 2 ^ 9
        + bit_number midi1 * 2 ^ 8 + bit_number receives_jr * 2 + bit_number sends_jr }
{
    (bit(fixed) << 31)
        + (u32::from(blocks) << 24)
        + (bit(midi2) << 9)
        + (bit(midi1) << 8)
        + (bit(receives_jr) << 1)
        + bit(sends_jr)
}

// Returns the packet of a Device Identity.
fn identity(manufacturer: &[u8; 3], family: &[u8; 2], model: &[u8; 2], revision: &[u8; 4]) -> Packet
    ensures packet { result ≡ packet_of (stream.Identity manufacturer.now family.now model.now revision.now) }
    ensures fits { IsPacket result }
{
    let second = word(0, manufacturer[0], manufacturer[1], manufacturer[2]);
    let third = word(family[0], family[1], model[0], model[1]);
    single(0x002, 0, second, third, text_word(revision, 0))
}

// Returns a packet of format 0.
fn single(status: u16, low: u16, second: u32, third: u32, fourth: u32) -> Packet
    requires { status < 2 ^ 10 }
    ensures packet { result ≡ packet.Stream 0 status low second third fourth }
    ensures fits { IsPacket result }
{
    Packet::Stream {
        format: 0,
        status,
        low,
        second,
        third,
        fourth,
    }
}

// Returns a packet of format 0 with zeros after bytes 3 and 4.
fn short(status: u16, third: u8, fourth: u8) -> Packet
    requires { status < 2 ^ 10 }
    ensures packet { result ≡ packet.Stream 0 status (half_of third fourth) 0 0 0 }
    ensures fits { IsPacket result }
{
    single(status, half(third, fourth), 0, 0, 0)
}

// Returns a packet of a name or a product instance id, with fourteen bytes of its text.
fn name(form: Form, status: u16, text: &[u8; 14]) -> Packet
    requires { status < 2 ^ 10 }
    ensures packet { result ≡ packet.Stream (form_number form) status
        (half_of (slice_index text.now 0) (slice_index text.now 1))
        (word_at text.now 2) (word_at text.now 6) (word_at text.now 10) }
    ensures fits { IsPacket result }
{
    text_packet(form, status, half(text[0], text[1]), text, 2)
}

// Returns a packet of a text, with twelve of its bytes, from index `start` on, in words 2 to 4.
fn text_packet(form: Form, status: u16, low: u16, text: &[u8], start: usize) -> Packet
    requires status { status < 2 ^ 10 }
    requires start { start ≤ 2 }
    requires bytes { start + 12 ≤ length text.now }
    ensures packet { result ≡ packet.Stream (form_number form) status low
        (word_at text.now start) (word_at text.now (start + 4)) (word_at text.now (start + 8)) }
    ensures fits { IsPacket result }
{
    Packet::Stream {
        format: form_bits(form),
        status,
        low,
        second: text_word(text, start),
        third: text_word(text, start + 4),
        fourth: text_word(text, start + 8),
    }
}

// Returns bytes 3 and 4 of Function Block Info.
fn block_half(active: bool, block: u8, hint: u8, midi1: u8, direction: u8) -> u16
    requires block { block < 2 ^ 7 }
    requires hint { hint < 2 ^ 2 }
    requires midi1 { midi1 < 2 ^ 2 }
    requires direction { direction < 2 ^ 2 }
    ensures { result ≡
        half_of (bit_number active * 2 ^ 7 + block) (hint * 2 ^ 4 + midi1 * 2 ^ 2 + direction) }
{
    let third = (u8::from(active) << 7) + block;
    let fourth = (hint << 4) + (midi1 << 2) + direction;
    half(third, fourth)
}

fn bit(set: bool) -> u32
    ensures number { result ≡ bit_number set }
    ensures below { result < 2 }
{
    u32::from(set)
}

// Returns the half word of two bytes.
fn half(first: u8, second: u8) -> u16
    ensures { result ≡ half_of first second }
{
    u16::from_be_bytes([first, second])
}

// Returns the word of four bytes.
fn word(first: u8, second: u8, third: u8, fourth: u8) -> u32
    ensures { result ≡ word_of first second third fourth }
{
    u32::from_be_bytes([first, second, third, fourth])
}

// Returns the word of the four bytes from index `start` on.
fn text_word(text: &[u8], start: usize) -> u32
    requires small { start ≤ 10 }
    requires bytes { start + 4 ≤ length text.now }
    ensures { result ≡ word_at text.now start }
{
    word(
        text[start],
        text[start + 1],
        text[start + 2],
        text[start + 3],
    )
}
