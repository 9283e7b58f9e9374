// Writes messages and exclusives as events.
ghost use Rattle.std.specs.Prelude.{◌≡◌, ◌*◌, ◌<◌, ◌≤◌, [], ◌∷◌, drop, length, slice_index};
ghost use Rattle.midi1_bytes.specs.Messages.{voice, spelled_system};
ghost use Rattle.usb_midi1.specs.Packing.{
  event as event_by,
  first_event,
  message_events,
  system_code as code_by,
};

use midi1_bytes::{System, Voice1, write_system, write_voice};
use small_types::U4;

// The code of an event that carries three bytes of an exclusive, but not its last byte.
const EXCLUSIVE_GOES_ON: u8 = 4;

// Returns the event that carries these bytes, with zeros in the unused places.
#[inline(always)]
fn event(cable: U4, code: u8, bytes: &[u8]) -> [u8; 4]
    requires { code < 16 }
    ensures { result ≡ event_by cable code bytes.now }
{
    let head = cable.get() * 16 + code;
    match *bytes {
        [] => [head, 0, 0, 0],
        [first] => [head, first, 0, 0],
        [first, second] => [head, first, second, 0],
        [first, second, third, ..] => [head, first, second, third],
    }
}

/// Returns the event of a channel voice message. Its code is the high half of the status byte.
#[inline(always)]
pub(crate) fn voice_event(cable: U4, message: &Voice1) -> [u8; 4]
    ensures { result ∷ [] ≡ message_events cable (voice message.now) }
{
    let written = write_voice(message);
    let bytes = written.as_slice();
    event(cable, bytes[0] / 16, bytes)
}

// Returns the code of a system message: 2 or 3 for a common message of two or three bytes, 5 for one of a
// single byte, and F for Real Time.
fn system_code(message: &System) -> u8
    ensures code { result ≡ code_by message.now }
    ensures below { result < 16 }
{
    match *message {
        System::Quarter(_) | System::Song(_) => 2,
        System::Position(_) => 3,
        System::Tune => 5,
        System::Clock
        | System::Start
        | System::Continue
        | System::Stop
        | System::Sensing
        | System::Reset => 15,
    }
}

/// Returns the event of a system common or system Real Time message.
#[inline(always)]
pub(crate) fn system_event(cable: U4, message: &System) -> [u8; 4]
    ensures { result ≡ event_by cable (code_by message.now) (spelled_system message.now) }
{
    event(
        cable,
        system_code(message),
        write_system(message).as_slice(),
    )
}

/// Cuts event `k`, counted from 0, out of an exclusive, which is given from its F0 to its F7 (USB Device
/// Class Definition for MIDI Devices 1.0, code index numbers). The last event carries one to three bytes, and
/// its code is 5, 6 or 7 for one, two or three. Every other event carries three bytes and has code 4. Returns
/// `None` exactly if `k` is past the last event.
pub fn exclusive_event(cable: U4, whole: &[u8], k: usize) -> Option<[u8; 4]>
    requires { 2 ≤ length whole.now }
    ensures { result ≡ first_event cable (drop (3 * k) whole.now) }
{
    let start = k.saturating_mul(3).min(whole.len());
    event_at_front(cable, &whole[start..])
}

// Returns the first event of the bytes of an exclusive that are left, or `None` if none are left.
fn event_at_front(cable: U4, bytes: &[u8]) -> Option<[u8; 4]>
    ensures { result ≡ first_event cable bytes.now }
{
    match *bytes {
        [] => None,
        [_] => Some(event(cable, 5, bytes)),
        [_, _] => Some(event(cable, 6, bytes)),
        [_, _, _] => Some(event(cable, 7, bytes)),
        [_, _, _, _, ..] => Some(event(cable, EXCLUSIVE_GOES_ON, bytes)),
    }
}
