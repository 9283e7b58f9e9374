// The voice messages that are refused.
ghost use Rattle.std.specs.Prelude.{◌≡◌};
ghost use Rattle.midi_meaning.specs.Refusal.{bad_control, bad_voice1, bad_voice2};

use midi_meaning::{BadStep, ControlRole};
use voice_messages::{U7, Voice1, Voice2};

/// Returns the reason why a control change is refused, if it is refused (own rule).
pub fn bad_control(index: U7) -> Option<BadStep>
    ensures { result ≡ bad_control index }
{
    match ControlRole::of(index) {
        ControlRole::DataIncrement => Some(BadStep::DataIncrement),
        ControlRole::DataDecrement => Some(BadStep::DataDecrement),
        _ => None,
    }
}

/// Returns the reason why a MIDI 1.0 message is refused, if it is refused (own rule).
#[inline(always)]
pub fn bad_voice1(message: &Voice1) -> Option<BadStep>
    ensures { result ≡ bad_voice1 message.now }
{
    match message {
        Voice1::Control { index, .. } => bad_control(*index),
        _ => None,
    }
}

/// Returns the reason why a MIDI 2.0 message is refused, if it is refused (own rule).
#[inline(always)]
pub fn bad_voice2(message: &Voice2) -> Option<BadStep>
    ensures { result ≡ bad_voice2 message.now }
{
    match message {
        Voice2::Control { index, .. } => bad_control(*index),
        _ => None,
    }
}
