// The packets of an 8-bit exclusive.
ghost use Rattle.std.specs.Prelude.{◌≡◌, ◌<◌, ◌≤◌, ◌*◌, ◌+◌, ◌/◌, ◌^◌, ◌∷◌, [], length, slice_index};
ghost use Rattle.ump_grammar.specs.WordFields.{count_of, field, group_of, opcode_of, type_of};
ghost use Rattle.ump_grammar.specs.Spelling.{form_number};
ghost use Rattle.sysex8_streams.specs.Reading.{data_places};
ghost use Rattle.sysex8_streams.specs.Cut8.{part8_at, stream_of, Encodes8};

use crate::part8::Part8;
use small_types::U4;
use sysex_groups::cut;
use ump_grammar::encoding::form_bits;
use voice_messages::Form;

/// Returns packet `k`, counted from 0, of an exclusive's payload, with at most thirteen bytes in each
/// packet (M2-104-UM, system exclusive 8-bit messages), or `None` exactly if `k` is past the last packet. A
/// payload of up to 13 bytes is one `Complete`. A longer one is a `Start`, `Continue`s, and an `End` of 1
/// to 13 bytes. An empty payload is one empty `Complete` (own rule).
pub fn part8(group: U4, stream: u8, payload: &[u8], k: usize) -> Option<Part8>
    ensures { result ≡ part8_at group stream payload.now k }
{
    let (form, bytes) = cut(payload, k)?;
    Some(Part8 {
        group,
        form,
        stream,
        bytes,
    })
}

// Returns the byte at index `i`, or 0 past the last byte.
fn place(bytes: &[u8], i: usize) -> u8
    ensures { result ≡ slice_index bytes.now i }
{
    bytes.get(i).copied().unwrap_or(0)
}

// Returns the word of four bytes, with the highest first.
fn word_of(first: u8, second: u8, third: u8, fourth: u8) -> u32
    ensures first { field result 24 8 ≡ first }
    ensures second { field result 16 8 ≡ second }
    ensures third { field result 8 8 ≡ third }
    ensures fourth { field result 0 8 ≡ fourth }
{
    u32::from_be_bytes([first, second, third, fourth])
}

// Returns the first word of a type 5 packet, which also counts the packet's stream id.
fn first_word(group: U4, form: Form, count: u8, stream: u8, byte: u8) -> u32
    requires { count < 16 }
    ensures kind { field result 28 4 ≡ 0x5 }
    ensures group { field result 24 4 ≡ group }
    ensures form { field result 20 4 ≡ form_number form }
    ensures count { field result 16 4 ≡ count }
    ensures stream { field result 8 8 ≡ stream }
    ensures byte { field result 0 8 ≡ byte }
{
    u32::from_be_bytes([
        16 * 0x5 + group.get(),
        16 * form_bits(form) + count,
        stream,
        byte,
    ])
}

// Returns a type 5 packet with these bytes, and zeros after them.
fn packet_words(group: U4, form: Form, stream: u8, bytes: &[u8]) -> [u32; 4]
    requires { length bytes.now ≤ 13 }
    ensures four { length result ≡ 4 }
    ensures kind { type_of result ≡ 0x5 }
    ensures group { group_of result ≡ group }
    ensures form { opcode_of result ≡ form_number form }
    ensures count { count_of result ≡ length bytes.now + 1 }
    ensures stream { stream_of result ≡ stream }
    ensures places { data_places result ≡
        slice_index bytes.now 0 ∷ slice_index bytes.now 1 ∷ slice_index bytes.now 2
        ∷ slice_index bytes.now 3 ∷ slice_index bytes.now 4 ∷ slice_index bytes.now 5
        ∷ slice_index bytes.now 6 ∷ slice_index bytes.now 7 ∷ slice_index bytes.now 8
        ∷ slice_index bytes.now 9 ∷ slice_index bytes.now 10 ∷ slice_index bytes.now 11
        ∷ slice_index bytes.now 12 ∷ [] }
{
    [
        first_word(group, form, bytes.len() as u8 + 1, stream, place(bytes, 0)),
        word_of(
            place(bytes, 1),
            place(bytes, 2),
            place(bytes, 3),
            place(bytes, 4),
        ),
        word_of(
            place(bytes, 5),
            place(bytes, 6),
            place(bytes, 7),
            place(bytes, 8),
        ),
        word_of(
            place(bytes, 9),
            place(bytes, 10),
            place(bytes, 11),
            place(bytes, 12),
        ),
    ]
}

/// Returns the words of a type 5 packet with this part of an 8-bit exclusive, and zeros after its bytes
/// (M2-104-UM, system exclusive 8-bit messages).
pub fn part8_words(part: &Part8) -> [u32; 4]
    ensures { Encodes8 part.now result }
{
    packet_words(part.group, part.form, part.stream, part.bytes.as_slice())
}
