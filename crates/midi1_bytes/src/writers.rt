// Writes messages as bytes.
ghost use Rattle.std.specs.Prelude.{◌≡◌, ◌≤◌, ◌+◌, ◌%◌, ◌/◌, [], ◌∷◌};
ghost use Rattle.midi1_bytes.specs.Messages.{spelled_voice, spelled_system};

use small_types::ShortList;
use voice_messages::{System, U4, U7, U14, Voice1};

#[inline(always)]
fn one_byte(status: u8) -> ShortList<u8, 3>
    ensures { result ≡ status ∷ [] }
{
    let mut bytes = ShortList::new();
    bytes.push(status);
    bytes
}

#[inline(always)]
fn two_bytes(status: u8, only: U7) -> ShortList<u8, 3>
    ensures { result ≡ status ∷ only ∷ [] }
{
    let mut bytes = one_byte(status);
    bytes.push(only.get());
    bytes
}

#[inline(always)]
fn three_bytes(status: u8, first: U7, second: U7) -> ShortList<u8, 3>
    ensures { result ≡ status ∷ first ∷ second ∷ [] }
{
    let mut bytes = two_bytes(status, first);
    bytes.push(second.get());
    bytes
}

// Returns the status byte, then the low seven bits and the high seven bits of the value.
#[inline(always)]
fn fourteen_bits(status: u8, value: U14) -> ShortList<u8, 3>
    ensures { result ≡ status ∷ (value % 128) ∷ (value / 128) ∷ [] }
{
    let mut bytes = one_byte(status);
    bytes.push((value.get() % 128) as u8);
    bytes.push((value.get() / 128) as u8);
    bytes
}

#[inline(always)]
fn voice_status(first: u8, channel: U4) -> u8
    requires { first ≤ 0xf0 }
    ensures { result ≡ first + channel }
{
    first + channel.get()
}

/// Returns the bytes of a channel voice message: its status byte, 80 to EF with the channel in the low four
/// bits, and its one or two data bytes, 0 to 7F. A bend has its low seven bits first (MIDI 1.0 Detailed
/// Specification, channel voice messages).
#[inline(always)]
pub fn write_voice(message: &Voice1) -> ShortList<u8, 3>
    ensures { result ≡ spelled_voice message.now }
{
    match *message {
        Voice1::NoteOff {
            channel,
            note,
            velocity,
        } => three_bytes(voice_status(0x80, channel), note, velocity),
        Voice1::NoteOn {
            channel,
            note,
            velocity,
        } => three_bytes(voice_status(0x90, channel), note, velocity),
        Voice1::PolyPressure {
            channel,
            note,
            value,
        } => three_bytes(voice_status(0xa0, channel), note, value),
        Voice1::Control {
            channel,
            index,
            value,
        } => three_bytes(voice_status(0xb0, channel), index, value),
        Voice1::Program { channel, program } => two_bytes(voice_status(0xc0, channel), program),
        Voice1::Pressure { channel, value } => two_bytes(voice_status(0xd0, channel), value),
        Voice1::Bend { channel, value } => fourteen_bits(voice_status(0xe0, channel), value),
    }
}

/// Returns the bytes of a system message: its status byte (F1 to F3, F6 or that of a Real Time message) and
/// its data bytes, 0 to 7F. F1 and F3 have one data byte. F2 has two, with the low seven bits first (MIDI
/// 1.0 Detailed Specification, system common and system Real Time messages).
#[inline(always)]
pub fn write_system(message: &System) -> ShortList<u8, 3>
    ensures { result ≡ spelled_system message.now }
{
    match *message {
        System::Quarter(value) => two_bytes(0xf1, value),
        System::Position(value) => fourteen_bits(0xf2, value),
        System::Song(value) => two_bytes(0xf3, value),
        System::Tune => one_byte(0xf6),
        System::Clock => one_byte(0xf8),
        System::Start => one_byte(0xfa),
        System::Continue => one_byte(0xfb),
        System::Stop => one_byte(0xfc),
        System::Sensing => one_byte(0xfe),
        System::Reset => one_byte(0xff),
    }
}
