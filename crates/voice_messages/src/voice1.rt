// Messages of the MIDI 1.0 protocol.
ghost use Rattle.std.specs.Prelude.{◌≡◌};
ghost use Rattle.voice_messages.specs.Channels.{channel_of};

use crate::small::{U7, U14};
use small_types::U4;

/// A channel voice message of the MIDI 1.0 protocol (MIDI 1.0 Detailed Specification, channel voice
/// messages).
#[derive(Clone, Copy, Debug, PartialEq, Eq)]
pub enum Voice1 {
    /// Status 8n.
    NoteOff { channel: U4, note: U7, velocity: U7 },
    /// Status 9n.
    NoteOn { channel: U4, note: U7, velocity: U7 },
    /// Status An: the pressure of one key.
    PolyPressure { channel: U4, note: U7, value: U7 },
    /// Status Bn: a control change.
    Control { channel: U4, index: U7, value: U7 },
    /// Status Cn: a program change.
    Program { channel: U4, program: U7 },
    /// Status Dn: the pressure of the channel.
    Pressure { channel: U4, value: U7 },
    /// Status En: pitch bend. Its centre is 8,192.
    Bend { channel: U4, value: U14 },
}

impl Voice1 {
    /// Returns the channel of the message, 0 to 15: the low half of its status byte (MIDI 1.0 Detailed
    /// Specification, channel voice messages).
    #[inline(always)]
    pub fn channel(&self) -> U4
        ensures { result ≡ channel_of self.now }
    {
        match *self {
            Voice1::NoteOff { channel, .. }
            | Voice1::NoteOn { channel, .. }
            | Voice1::PolyPressure { channel, .. }
            | Voice1::Control { channel, .. }
            | Voice1::Program { channel, .. }
            | Voice1::Pressure { channel, .. }
            | Voice1::Bend { channel, .. } => channel,
        }
    }
}

/// A system common or system real time message (MIDI 1.0 Detailed Specification, system messages).
#[derive(Clone, Copy, Debug, PartialEq, Eq)]
pub enum System {
    /// F1: a quarter frame of MIDI time code.
    Quarter(U7),
    /// F2: the song position in MIDI beats.
    Position(U14),
    /// F3: song select.
    Song(U7),
    /// F6: tune request.
    Tune,
    /// F8: timing clock.
    Clock,
    /// FA: start.
    Start,
    /// FB: continue.
    Continue,
    /// FC: stop.
    Stop,
    /// FE: active sensing.
    Sensing,
    /// FF: system reset.
    Reset,
}

/// The status byte that begins a system exclusive message (MIDI 1.0
/// Detailed Specification, system exclusive messages).
pub const START_OF_EXCLUSIVE: u8 = 0xF0;

/// The status byte that ends a system exclusive message.
pub const END_OF_EXCLUSIVE: u8 = 0xF7;
