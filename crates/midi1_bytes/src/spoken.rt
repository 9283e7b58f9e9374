// The messages that a parser completes, as bytes. A lent value can't contain a type that contracts see as
// another value, so these types stand in for the messages, and `message` returns them.
ghost use Rattle.std.specs.Prelude.{◌<◌, ◌≤◌};

use crate::messages::{fourteen_bits, real_time, seven_bits, voice_of_one, voice_of_two};
use voice_messages::{System, Voice1};

/// The bytes of a channel voice message: a status byte 80 to EF and one or two data bytes, 0 to 7F (MIDI 1.0
/// Detailed Specification, channel voice messages).
#[derive(Clone, Copy, Debug)]
pub struct VoiceBytes {
    /// The status byte, 80 to EF.
    pub status: u8,
    /// The first data byte, 0 to 127.
    pub first: u8,
    /// The second data byte, 0 to 127. It has no meaning in a message of one data byte.
    pub second: u8,
    ghost least: { 128 ≤ status },
    ghost most: { status < 240 },
    ghost first_below: { first < 128 },
    ghost second_below: { second < 128 },
}

/// The bytes of a system common message: a status byte F1, F2 or F3 and one or two data bytes, 0 to 7F. Any
/// other status byte stands for F6, a tune request (MIDI 1.0 Detailed Specification, system common
/// messages).
#[derive(Clone, Copy, Debug)]
pub struct CommonBytes {
    status: u8,
    first: u8,
    second: u8,
    ghost first_below: { first < 128 },
    ghost second_below: { second < 128 },
}

/// The status byte of a system Real Time message: F8, FA, FB, FC or FE. Any other byte stands for FF,
/// System Reset (MIDI 1.0 Detailed Specification, system Real Time messages).
#[derive(Clone, Copy, Debug)]
pub struct RealTimeByte {
    status: u8,
}

impl VoiceBytes {
    ghost use Rattle.std.specs.Prelude.{◌≡◌, [], ◌∷◌};
    ghost use Rattle.midi1_bytes.specs.Messages.{voice_of};
    ghost use Rattle.midi1_bytes.specs.Sorts.{one, two, voice_status, sort_of};
    ghost use Rattle.midi1_bytes.specs.Spoken.{voice_in};

    /// Creates a message of one data byte, Cn or Dn.
    #[tactic(auto, unfolding(crate::specs::Sorts::sort_of))]
    #[inline(always)]
    pub(crate) fn of_one(status: u8, only: u8) -> VoiceBytes
        requires sort { sort_of status ≡ voice_status one }
        requires below { only < 128 }
        ensures { voice_in result ≡ voice_of one status only [] }
    {
        VoiceBytes {
            status,
            first: only,
            second: only,
        }
    }

    /// Creates a message of two data bytes, 8n to Bn or En.
    #[tactic(auto, unfolding(crate::specs::Sorts::sort_of))]
    #[inline(always)]
    pub(crate) fn of_two(status: u8, first: u8, second: u8) -> VoiceBytes
        requires sort { sort_of status ≡ voice_status two }
        requires first_below { first < 128 }
        requires second_below { second < 128 }
        ensures { voice_in result ≡ voice_of two status second (first ∷ []) }
    {
        VoiceBytes {
            status,
            first,
            second,
        }
    }

    /// Returns the message. Its channel is 0 to 15 and its values are 0 to 127, or for a bend 0 to 16,383
    /// with the low seven bits first (MIDI 1.0 Detailed Specification, channel voice messages).
    #[tactic(auto, unfolding(crate::specs::Sorts::sort_of))]
    #[inline(always)]
    pub fn message(&self) -> Voice1
        ensures { result ≡ voice_in self.now }
    {
        match self.status {
            0xc0..=0xdf => voice_of_one(self.status, self.first),
            _ => voice_of_two(self.status, self.first, self.second),
        }
    }
}

impl CommonBytes {
    ghost use Rattle.std.specs.Prelude.{◌≡◌, [], ◌∷◌};
    ghost use Rattle.midi1_bytes.specs.Messages.{common_of};
    ghost use Rattle.midi1_bytes.specs.Sorts.{one, two, common_status, tune_request, sort_of};
    ghost use Rattle.midi1_bytes.specs.Spoken.{common_in};
    ghost use Rattle.voice_messages.specs.declared.voice1.System.TheVariants as system;

    /// Creates a system common message with one data byte (F1 or F3).
    pub(crate) fn of_one(status: u8, only: u8) -> CommonBytes
        requires sort { sort_of status ≡ common_status one }
        requires below { only < 128 }
        ensures { common_in result ≡ common_of one status only [] }
    {
        CommonBytes {
            status,
            first: only,
            second: 0,
        }
    }

    /// Creates a system common message with two data bytes (F2).
    pub(crate) fn of_two(status: u8, first: u8, second: u8) -> CommonBytes
        requires sort { sort_of status ≡ common_status two }
        requires first_below { first < 128 }
        requires second_below { second < 128 }
        ensures { common_in result ≡ common_of two status second (first ∷ []) }
    {
        CommonBytes {
            status,
            first,
            second,
        }
    }

    /// Creates a tune request.
    #[tactic(auto, unfolding(crate::specs::Sorts::sort_of))]
    pub(crate) fn tune() -> CommonBytes
        ensures { common_in result ≡ system.Tune }
    {
        CommonBytes {
            status: 0xf6,
            first: 0,
            second: 0,
        }
    }

    /// Returns the message. Its value, if it has one, is 0 to 127, or for a song position 0 to 16,383 with
    /// the low seven bits first (MIDI 1.0 Detailed Specification, system common messages).
    #[tactic(auto, unfolding(crate::specs::Sorts::sort_of))]
    #[inline(always)]
    pub fn message(&self) -> System
        ensures { result ≡ common_in self.now }
    {
        match self.status {
            0xf1 => System::Quarter(seven_bits(self.first)),
            0xf2 => System::Position(fourteen_bits(self.first, self.second)),
            0xf3 => System::Song(seven_bits(self.first)),
            _ => System::Tune,
        }
    }
}

impl RealTimeByte {
    ghost use Rattle.std.specs.Prelude.{◌≡◌};
    ghost use Rattle.midi1_bytes.specs.Messages.{real_time_of};
    ghost use Rattle.midi1_bytes.specs.Spoken.{real_time_in};

    #[inline(always)]
    pub(crate) fn of(status: u8) -> RealTimeByte
        ensures { real_time_in result ≡ real_time_of status }
    {
        RealTimeByte { status }
    }

    /// Returns the message (MIDI 1.0 Detailed Specification, system Real Time messages).
    #[inline(always)]
    pub fn message(&self) -> System
        ensures { result ≡ real_time_in self.now }
    {
        real_time(self.status)
    }
}
