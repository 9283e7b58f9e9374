// The rows of MIDI 2.0 channel voice messages.
ghost use Rattle.std.specs.Prelude.{◌≡◌, ◌≢◌, ◌≤◌, ◌⊎◌, length, Some};
ghost use Rattle.ump_grammar.specs.WordFields.{opcode_of};
ghost use Rattle.ump_grammar.specs.Reading.{ReadsVoice2};

use crate::fields::{bits, byte, data_byte, half, nibble};
use voice_messages::{Bank, Param, ParamKind, Voice2};

/// Returns the message of a type 4 packet, or `None` exactly if a byte that carries seven bits is 128 or
/// more.
#[inline(always)]
pub fn voice2_message(words: &[u32]) -> Option<Voice2>
    requires size { length words.now ≡ 2 }
    requires row { opcode_of words.now ≢ 0x7 }
    ensures { ReadsVoice2 words.now result }
{
    match bits(words[0], 20, 4) {
        0x0 | 0x1 => note_controller(words),
        0x2..=0x5 => parameter_message(words),
        0x6 => note_bend(words),
        0x8 => note_off(words),
        0x9 => note_on(words),
        0xA => poly_pressure(words),
        0xB => control(words),
        0xC => program_message(words),
        0xF => note_management(words),
        _ => Some(channel_message(words)),
    }
}

// Decodes a controller of one note: a registered one has opcode 0, an assignable one has opcode 1.
#[inline(always)]
fn note_controller(words: &[u32]) -> Option<Voice2>
    requires size { length words.now ≡ 2 }
    requires row { opcode_of words.now ≤ 0x1 }
    ensures { ReadsVoice2 words.now result }
{
    let note = data_byte(words[0], 8)?;
    let kind = if bits(words[0], 20, 4) == 0x0 {
        ParamKind::Registered
    } else {
        ParamKind::Assignable
    };
    Some(Voice2::NoteController {
        channel: nibble(words[0], 16),
        kind,
        note,
        index: byte(words[0], 0),
        value: words[1],
    })
}

// Decodes the bend of one note.
#[inline(always)]
fn note_bend(words: &[u32]) -> Option<Voice2>
    requires size { length words.now ≡ 2 }
    requires row { opcode_of words.now ≡ 0x6 }
    ensures { ReadsVoice2 words.now result }
{
    let note = data_byte(words[0], 8)?;
    Some(Voice2::NoteBend {
        channel: nibble(words[0], 16),
        note,
        value: words[1],
    })
}

// Decodes a note off.
#[inline(always)]
fn note_off(words: &[u32]) -> Option<Voice2>
    requires size { length words.now ≡ 2 }
    requires row { opcode_of words.now ≡ 0x8 }
    ensures { ReadsVoice2 words.now result }
{
    let note = data_byte(words[0], 8)?;
    Some(Voice2::NoteOff {
        channel: nibble(words[0], 16),
        note,
        velocity: half(words[1], 16),
        attribute_type: byte(words[0], 0),
        attribute: half(words[1], 0),
    })
}

// Decodes a note on.
#[inline(always)]
fn note_on(words: &[u32]) -> Option<Voice2>
    requires size { length words.now ≡ 2 }
    requires row { opcode_of words.now ≡ 0x9 }
    ensures { ReadsVoice2 words.now result }
{
    let note = data_byte(words[0], 8)?;
    Some(Voice2::NoteOn {
        channel: nibble(words[0], 16),
        note,
        velocity: half(words[1], 16),
        attribute_type: byte(words[0], 0),
        attribute: half(words[1], 0),
    })
}

// Decodes the pressure of one note.
#[inline(always)]
fn poly_pressure(words: &[u32]) -> Option<Voice2>
    requires size { length words.now ≡ 2 }
    requires row { opcode_of words.now ≡ 0xA }
    ensures { ReadsVoice2 words.now result }
{
    let note = data_byte(words[0], 8)?;
    Some(Voice2::PolyPressure {
        channel: nibble(words[0], 16),
        note,
        value: words[1],
    })
}

// Decodes a control change.
#[inline(always)]
fn control(words: &[u32]) -> Option<Voice2>
    requires size { length words.now ≡ 2 }
    requires row { opcode_of words.now ≡ 0xB }
    ensures { ReadsVoice2 words.now result }
{
    let index = data_byte(words[0], 8)?;
    Some(Voice2::Control {
        channel: nibble(words[0], 16),
        index,
        value: words[1],
    })
}

// Decodes the management of one note.
#[inline(always)]
fn note_management(words: &[u32]) -> Option<Voice2>
    requires size { length words.now ≡ 2 }
    requires row { opcode_of words.now ≡ 0xF }
    ensures { ReadsVoice2 words.now result }
{
    let note = data_byte(words[0], 8)?;
    Some(Voice2::NoteManagement {
        channel: nibble(words[0], 16),
        note,
        flags: byte(words[0], 0),
    })
}

// Decodes a parameter: opcodes 2 and 3 set it, opcodes 4 and 5 shift it.
#[inline(always)]
fn parameter_message(words: &[u32]) -> Option<Voice2>
    requires size { length words.now ≡ 2 }
    requires row { (0x2 ≤ opcode_of words.now) × (opcode_of words.now ≤ 0x5) }
    ensures { ReadsVoice2 words.now result }
{
    let bank = data_byte(words[0], 8)?;
    let index = data_byte(words[0], 0)?;
    let channel = nibble(words[0], 16);
    let value = words[1];
    let kind = if bits(words[0], 20, 1) == 0 {
        ParamKind::Registered
    } else {
        ParamKind::Assignable
    };
    let param = Param { kind, bank, index };
    Some(if bits(words[0], 20, 4) < 0x4 {
        Voice2::Set {
            channel,
            param,
            value,
        }
    } else {
        Voice2::Shift {
            channel,
            param,
            value,
        }
    })
}

// Decodes a program change.
#[inline(always)]
fn program_message(words: &[u32]) -> Option<Voice2>
    requires size { length words.now ≡ 2 }
    requires row { opcode_of words.now ≡ 0xC }
    ensures { ReadsVoice2 words.now result }
{
    let program = data_byte(words[1], 24)?;
    let channel = nibble(words[0], 16);
    if bits(words[0], 0, 1) == 0 {
        return Some(Voice2::Program {
            channel,
            program,
            bank: None,
        });
    }
    let msb = data_byte(words[1], 8)?;
    let lsb = data_byte(words[1], 0)?;
    Some(Voice2::Program {
        channel,
        program,
        bank: Some(Bank { msb, lsb }),
    })
}

// Decodes the rows without a note.
#[inline(always)]
fn channel_message(words: &[u32]) -> Voice2
    requires size { length words.now ≡ 2 }
    requires row { (opcode_of words.now ≡ 0xD) ⊎ (opcode_of words.now ≡ 0xE) }
    ensures { ReadsVoice2 words.now (Some result) }
{
    let channel = nibble(words[0], 16);
    let value = words[1];
    if bits(words[0], 20, 4) == 0xD {
        Voice2::Pressure { channel, value }
    } else {
        Voice2::Bend { channel, value }
    }
}
