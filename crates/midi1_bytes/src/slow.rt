// A plain, slow reference program that looks back over all earlier bytes at each byte. Tests compare others
// with it.
ghost use Rattle.std.specs.Prelude.{◌≡◌, ◌<◌, ◌≤◌, ◌↔◌, ◌+◌, ◌*◌, length, slice_index, [], ◌∷◌, Some, IsTrue};
ghost use Rattle.midi1_bytes.specs.Slow.{told};
ghost use Rattle.midi1_bytes.specs.Sorts.{data_byte, exclusive_end, sort_of, is_data, is_real_time};
ghost use Rattle.midi1_bytes.specs.Steps.{step_of, step_under};
ghost use Rattle.midi1_bytes.specs.Stream.{
  last_status,
  last_data,
  without_real_time,
  offset_before,
  open_in,
  start_in,
};

use crate::messages::{fourteen_bits, real_time, seven_bits, voice_of_one, voice_of_two};
use crate::step::{AfterCut, CutKind};
use voice_messages::{System, Voice1};

/// The effect of one byte in the slow reference program.
#[derive(Clone, Copy, Debug, PartialEq, Eq)]
pub enum SlowStep {
    /// The byte belongs to an open message, or begins one.
    Held,
    /// The byte completes a voice message.
    Voice(Voice1),
    /// The byte completes a system common message.
    Common(System),
    /// The byte ends an exclusive that has this many bytes between F0 and F7.
    Exclusive(usize),
    /// The byte is a Real Time message.
    RealTime(System),
    /// The byte belongs to no message.
    Stray,
    /// The byte is a status that no message has.
    Undefined,
    /// The byte cuts off an open message.
    Cut {
        start: usize,
        what: CutKind,
        after: AfterCut,
    },
    /// The byte exceeds the limit of the exclusive.
    TooLong,
}

#[tactic(auto, unfolding(crate::specs::Sorts::sort_of))]
fn is_real_time(byte: u8) -> bool
    ensures { result ≡ is_real_time (sort_of byte) }
{
    byte >= 0xf8
}

#[tactic(auto, unfolding(crate::specs::Sorts::sort_of))]
fn is_data(byte: u8) -> bool
    ensures sort { result ≡ is_data (sort_of byte) }
    ensures below { IsTrue result ↔ (byte < 128) }
{
    byte < 0x80
}

// Returns the last status byte, apart from Real Time.
fn last_status(past: &[u8]) -> Option<u8>
    ensures { result ≡ last_status (without_real_time past.now) }
{
    for &byte in past {
        if !is_real_time(byte) && !is_data(byte) {
            return Some(byte);
        }
    }
    None
}

// Returns the number of data bytes after the last status byte.
fn data_size(past: &[u8]) -> usize
    ensures { result ≡ length (last_data (without_real_time past.now)) }
{
    let mut size = 0;
    for &byte in past {
        if is_data(byte) {
            size += 1;
        } else if !is_real_time(byte) {
            return size;
        }
    }
    size
}

// Returns the last data byte, or 0.
fn previous_data(past: &[u8]) -> u8
    ensures value { result ≡ slice_index (last_data (without_real_time past.now)) 0 }
    ensures below { result < 128 }
{
    for &byte in past {
        if !is_real_time(byte) {
            return if is_data(byte) { byte } else { 0 };
        }
    }
    0
}

// Returns the offset of the byte that this many bytes follow, without Real Time.
fn offset_before(size: usize, past: &[u8]) -> usize
    ensures { result ≡ offset_before size past.now }
{
    let mut left = size;
    let mut offset = past.len();
    for &byte in past {
        offset -= 1;
        if !is_real_time(byte) {
            if left == 0 {
                return offset;
            }
            left -= 1;
        }
    }
    0
}

// Returns the kind of the open message.
#[tactic(auto, unfolding(crate::specs::Sorts::sort_of))]
fn open_kind(past: &[u8], room: usize) -> Option<CutKind>
    ensures { result ≡ open_in (Some room) past.now }
{
    let size = data_size(past);
    let status = last_status(past)?;
    let is_open = match status {
        0xc0..=0xdf | 0xf1 | 0xf3 => size == 0,
        0x80..=0xef => size % 2 == 1 || size == 0,
        0xf0 => size <= room,
        0xf2 => size < 2,
        _ => false,
    };
    if !is_open {
        None
    } else if status == 0xf0 {
        Some(CutKind::Exclusive)
    } else {
        Some(CutKind::Message)
    }
}

// Returns the offset at which the open message starts.
#[tactic(auto, unfolding(crate::specs::Sorts::sort_of))]
fn start(past: &[u8]) -> usize
    ensures { result ≡ start_in past.now }
{
    let size = data_size(past);
    let after_start = match last_status(past) {
        None => return 0,
        Some(0xc0..=0xdf) if size > 1 => 0,
        Some(0x80..=0xef) if size > 2 => (size % 2).saturating_sub(1),
        Some(_) => size,
    };
    offset_before(after_start, past)
}

// Returns the effect of a data byte.
#[tactic(auto, unfolding(crate::specs::Sorts::sort_of))]
fn data_step(past: &[u8], byte: u8, room: usize) -> SlowStep
    requires { byte < 128 }
    ensures { result ≡ told (step_under (Some room) data_byte past.now byte) }
{
    let size = data_size(past);
    let Some(status) = last_status(past) else {
        return SlowStep::Stray;
    };
    match status {
        0xc0..=0xdf => SlowStep::Voice(voice_of_one(status, byte)),
        0x80..=0xef if size % 2 == 1 => {
            SlowStep::Voice(voice_of_two(status, previous_data(past), byte))
        }
        0x80..=0xef => SlowStep::Held,
        0xf0 if size < room => SlowStep::Held,
        0xf0 if size == room => SlowStep::TooLong,
        0xf1 if size == 0 => SlowStep::Common(System::Quarter(seven_bits(byte))),
        0xf2 if size == 0 => SlowStep::Held,
        0xf2 if size == 1 => {
            SlowStep::Common(System::Position(fourteen_bits(previous_data(past), byte)))
        }
        0xf3 if size == 0 => SlowStep::Common(System::Song(seven_bits(byte))),
        _ => SlowStep::Stray,
    }
}

// Returns the effect of F7.
fn end_step(past: &[u8], room: usize) -> SlowStep
    ensures { result ≡ told (step_under (Some room) exclusive_end past.now 0xf7) }
{
    match open_kind(past, room) {
        Some(CutKind::Exclusive) => SlowStep::Exclusive(data_size(past)),
        Some(CutKind::Message) => SlowStep::Cut {
            start: start(past),
            what: CutKind::Message,
            after: AfterCut::Stray,
        },
        None => SlowStep::Stray,
    }
}

/// Returns the effect of a byte after the bytes before it. `past` has the earlier bytes, newest first, and
/// exclusives have at most `room` bytes.
#[tactic(auto, unfolding(crate::specs::Sorts::sort_of))]
pub fn slow_step(past: &[u8], byte: u8, room: usize) -> SlowStep
    ensures { result ≡ told (step_of (Some room) past.now byte) }
{
    match byte {
        0..=0x7f => return data_step(past, byte, room),
        0xf9 | 0xfd => return SlowStep::Undefined,
        0xf8..=0xff => return SlowStep::RealTime(real_time(byte)),
        0xf7 => return end_step(past, room),
        _ => {}
    }
    let (after, alone) = match byte {
        0xf4 | 0xf5 => (AfterCut::Undefined, SlowStep::Undefined),
        0xf6 => (AfterCut::Tune, SlowStep::Common(System::Tune)),
        _ => (AfterCut::Begins, SlowStep::Held),
    };
    match open_kind(past, room) {
        None => alone,
        Some(what) => SlowStep::Cut {
            start: start(past),
            what,
            after,
        },
    }
}
