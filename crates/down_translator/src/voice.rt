// Translates MIDI 2.0 voice messages that become one MIDI 1.0 message each (M2-104-UM, default translation;
// M2-115-U).
ghost use Rattle.std.specs.Prelude.{◌≡◌};
ghost use Rattle.bit_scaling.specs.Scaling.{down7, down14, release_down, velocity_down};
ghost use Rattle.voice_messages.specs.declared.voice1.Voice1.TheVariants as voice1;

use bit_scaling::{down7, down14, release_down, velocity_down};
use voice_messages::{U4, U7, Voice1};

#[inline(always)]
pub fn lower_note_off(channel: U4, note: U7, velocity: u16) -> Voice1
    ensures { result ≡ voice1.NoteOff channel note (release_down velocity) }
{
    Voice1::NoteOff {
        channel,
        note,
        velocity: release_down(velocity),
    }
}

/// Translates a note on. The velocity stays at least 1, since a note on of velocity 0 is a note off.
#[inline(always)]
pub fn lower_note_on(channel: U4, note: U7, velocity: u16) -> Voice1
    ensures { result ≡ voice1.NoteOn channel note (velocity_down velocity) }
{
    Voice1::NoteOn {
        channel,
        note,
        velocity: velocity_down(velocity),
    }
}

#[inline(always)]
pub fn lower_poly_pressure(channel: U4, note: U7, value: u32) -> Voice1
    ensures { result ≡ voice1.PolyPressure channel note (down7 value) }
{
    Voice1::PolyPressure {
        channel,
        note,
        value: down7(value),
    }
}

#[inline(always)]
pub fn lower_control(channel: U4, index: U7, value: u32) -> Voice1
    ensures { result ≡ voice1.Control channel index (down7 value) }
{
    Voice1::Control {
        channel,
        index,
        value: down7(value),
    }
}

#[inline(always)]
pub fn lower_pressure(channel: U4, value: u32) -> Voice1
    ensures { result ≡ voice1.Pressure channel (down7 value) }
{
    Voice1::Pressure {
        channel,
        value: down7(value),
    }
}

#[inline(always)]
pub fn lower_bend(channel: U4, value: u32) -> Voice1
    ensures { result ≡ voice1.Bend channel (down14 value) }
{
    Voice1::Bend {
        channel,
        value: down14(value),
    }
}
