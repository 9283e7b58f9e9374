// The rows of system messages and of MIDI 1.0 channel voice messages.
ghost use Rattle.std.specs.Prelude.{◌≡◌, ◌≤◌, ◌⊎◌, ◌+◌, ◌*◌, length, true};
ghost use Rattle.ump_grammar.specs.WordFields.{byte as byte_of, opcode_of};
ghost use Rattle.ump_grammar.specs.Reading.{ReadsSystem, ReadsVoice1};
ghost use Rattle.ump_grammar.specs.Spelling.{is_system_status};

use crate::fields::{bits, data_byte, nibble};
use voice_messages::{System, U7, U14, Voice1};

// Returns the number in two data bytes, with the low byte first.
fn both(low: U7, high: U7) -> U14
    ensures { result ≡ low + 128 * high }
{
    U14::low_bits(u32::from(low.get()) + 128 * u32::from(high.get()))
}

/// Returns the message of a type 1 packet, or `None` exactly if a byte that carries seven bits is 128 or
/// more.
#[inline(always)]
pub fn system_message(words: &[u32]) -> Option<System>
    requires size { length words.now ≡ 1 }
    requires row { is_system_status (byte_of words.now 2) ≡ true }
    ensures { ReadsSystem words.now result }
{
    let word = words[0];
    Some(match bits(word, 16, 8) {
        0xF1 => System::Quarter(data_byte(word, 8)?),
        0xF2 => System::Position(both(data_byte(word, 8)?, data_byte(word, 0)?)),
        0xF3 => System::Song(data_byte(word, 8)?),
        0xF6 => System::Tune,
        0xF8 => System::Clock,
        0xFA => System::Start,
        0xFB => System::Continue,
        0xFC => System::Stop,
        0xFE => System::Sensing,
        _ => System::Reset,
    })
}

/// Returns the message of a type 2 packet, or `None` exactly if a byte that carries seven bits is 128 or
/// more.
#[inline(always)]
pub fn voice1_message(words: &[u32]) -> Option<Voice1>
    requires size { length words.now ≡ 1 }
    requires row { (0x8 ≤ opcode_of words.now) × (opcode_of words.now ≤ 0xE) }
    ensures { ReadsVoice1 words.now result }
{
    match bits(words[0], 20, 4) {
        0xC | 0xD => one_byte_message(words),
        _ => two_byte_message(words),
    }
}

// Decodes the rows with one data byte.
#[inline(always)]
fn one_byte_message(words: &[u32]) -> Option<Voice1>
    requires size { length words.now ≡ 1 }
    requires row { (opcode_of words.now ≡ 0xC) ⊎ (opcode_of words.now ≡ 0xD) }
    ensures { ReadsVoice1 words.now result }
{
    let channel = nibble(words[0], 16);
    let third = data_byte(words[0], 8)?;
    Some(if bits(words[0], 20, 4) == 0xC {
        Voice1::Program {
            channel,
            program: third,
        }
    } else {
        Voice1::Pressure {
            channel,
            value: third,
        }
    })
}

// Decodes the rows with two data bytes.
#[inline(always)]
fn two_byte_message(words: &[u32]) -> Option<Voice1>
    requires size { length words.now ≡ 1 }
    requires row { ((0x8 ≤ opcode_of words.now) × (opcode_of words.now ≤ 0xB)) ⊎ (opcode_of words.now ≡ 0xE) }
    ensures { ReadsVoice1 words.now result }
{
    let word = words[0];
    let channel = nibble(word, 16);
    let third = data_byte(word, 8)?;
    let fourth = data_byte(word, 0)?;
    Some(match bits(word, 20, 4) {
        0x8 => Voice1::NoteOff {
            channel,
            note: third,
            velocity: fourth,
        },
        0x9 => Voice1::NoteOn {
            channel,
            note: third,
            velocity: fourth,
        },
        0xA => Voice1::PolyPressure {
            channel,
            note: third,
            value: fourth,
        },
        0xB => Voice1::Control {
            channel,
            index: third,
            value: fourth,
        },
        _ => Voice1::Bend {
            channel,
            value: both(third, fourth),
        },
    })
}
