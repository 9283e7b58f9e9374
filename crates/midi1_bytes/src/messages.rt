// Makes messages from their bytes.
ghost use Rattle.std.specs.Prelude.{◌≡◌, ◌<◌, ◌+◌, ◌*◌, [], ◌∷◌};
ghost use Rattle.midi1_bytes.specs.Messages.{voice_of, real_time_of};
ghost use Rattle.midi1_bytes.specs.Sorts.{one, two};

use voice_messages::{System, U4, U7, U14, Voice1};

#[inline(always)]
pub(crate) fn seven_bits(byte: u8) -> U7
    requires { byte < 128 }
    ensures { result ≡ byte }
{
    U7::low_bits(u32::from(byte))
}

#[inline(always)]
pub(crate) fn fourteen_bits(first: u8, second: u8) -> U14
    requires first_below { first < 128 }
    requires second_below { second < 128 }
    ensures { result ≡ second * 128 + first }
{
    U14::low_bits(u32::from(second) * 128 + u32::from(first))
}

#[inline(always)]
pub(crate) fn voice_of_two(status: u8, first: u8, second: u8) -> Voice1
    requires first_below { first < 128 }
    requires second_below { second < 128 }
    ensures { result ≡ voice_of two status second (first ∷ []) }
{
    let channel = U4::low_bits(u32::from(status));
    let (note, value) = (seven_bits(first), seven_bits(second));
    match status / 16 {
        8 => Voice1::NoteOff {
            channel,
            note,
            velocity: value,
        },
        9 => Voice1::NoteOn {
            channel,
            note,
            velocity: value,
        },
        10 => Voice1::PolyPressure {
            channel,
            note,
            value,
        },
        11 => Voice1::Control {
            channel,
            index: note,
            value,
        },
        _ => Voice1::Bend {
            channel,
            value: fourteen_bits(first, second),
        },
    }
}

#[inline(always)]
pub(crate) fn voice_of_one(status: u8, only: u8) -> Voice1
    requires { only < 128 }
    ensures { result ≡ voice_of one status only [] }
{
    let channel = U4::low_bits(u32::from(status));
    let value = seven_bits(only);
    if status / 16 == 12 {
        Voice1::Program {
            channel,
            program: value,
        }
    } else {
        Voice1::Pressure { channel, value }
    }
}

#[inline(always)]
pub(crate) fn real_time(byte: u8) -> System
    ensures { result ≡ real_time_of byte }
{
    match byte {
        0xf8 => System::Clock,
        0xfa => System::Start,
        0xfb => System::Continue,
        0xfc => System::Stop,
        0xfe => System::Sensing,
        _ => System::Reset,
    }
}
