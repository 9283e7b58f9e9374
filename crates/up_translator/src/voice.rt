// Data entries and program changes as MIDI 2.0 messages (M2-104-UM, translation from MIDI 1.0; M2-115-U).
ghost use Rattle.std.specs.Prelude.{◌≡◌, ◌<◌, ◌≤◌, ◌*◌, ◌^◌};
ghost use Rattle.bit_scaling.specs.Scaling.{up};
ghost use Rattle.voice_messages.specs.Ranges.{IsVoice2};
ghost use Rattle.voice_messages.specs.declared.voice2.Voice2.TheVariants as voice2;

use bit_scaling::up14;
use voice_messages::{Bank, Param, U4, U7, U14, Voice2};

/// Returns the message for a data entry, with the parameter that it sets and the new value.
#[inline(always)]
pub fn raise_data_entry(channel: U4, param: Param, value: U14) -> Voice2
    ensures message { result ≡ voice2.Set channel param (up value 14 32) }
    ensures fits { IsVoice2 result }
{
    Voice2::Set {
        channel,
        param,
        value: up14(value),
    }
}

/// Returns the message for a program change, with the bank that was selected for it.
#[inline(always)]
pub fn raise_program(channel: U4, program: U7, bank: Option<Bank>) -> Voice2
    ensures message { result ≡ voice2.Program channel program bank }
    ensures fits { IsVoice2 result }
{
    Voice2::Program {
        channel,
        program,
        bank,
    }
}
