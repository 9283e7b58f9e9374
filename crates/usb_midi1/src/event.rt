// The event packets, and the reader that returns them.
ghost use Rattle.std.specs.Prelude.{◌≡◌, ◌<◌, ◌≤◌, ◌^◌, false, length, IfSome};
ghost use Rattle.item_reader.specs.Reading.{Answers, ReadCause, answer_of, cursor};
ghost use Rattle.usb_midi1.specs.Codes.{carried_count as count_by, is_reserved as is_reserved_code};
ghost use Rattle.usb_midi1.specs.Events.{carried_by, event_at, event_length, four_bytes, new_events};

use item_reader::{Cut, ItemReader};
use outside::{ReadStop, Source};
use small_types::{ShortList, U4};
use std::marker::Model;

/// An event packet (USB Device Class Definition for MIDI Devices 1.0, event packets).
#[derive(Clone, Copy, Debug, PartialEq, Eq)]
pub struct Event {
    /// The cable number, 0 to 15.
    pub cable: U4,
    /// The code index number, 0 to 15. It says what the event carries.
    pub code: U4,
    /// Three bytes. The code says how many of them are used.
    pub bytes: [u8; 3],
}

/// Describes the cutting of an input into events: each four bytes are one event.
#[derive(Clone, Copy, Debug, PartialEq, Eq)]
pub struct EachEvent;

impl Cut for EachEvent {
    type Item = (Event, u64);

    ghost asked = { λ _. four_bytes };

    ghost item_of = { λ _. event_at };

    #[inline(always)]
    fn asked(&self, bytes: &[u8]) -> usize {
        4
    }

    #[inline(always)]
    fn item(&self, offset: u64, bytes: &[u8]) -> (Event, u64) {
        let event = Event {
            cable: U4::low_bits(u32::from(bytes[0]) / 16),
            code: U4::low_bits(u32::from(bytes[0])),
            bytes: [bytes[1], bytes[2], bytes[3]],
        };
        (event, offset)
    }

    ghost lengths = { λ _. event_length };
}

/// Returns the events of a source one by one. In contracts its value is the `Reading`.
#[derive(Drop)]
pub struct EventReader {
    events: ItemReader<EachEvent>,
}

impl Model for EventReader {
    ghost use Rattle.item_reader.specs.Reading.{Reading};
    ghost use Rattle.usb_midi1.specs.declared.event.EachEvent.{EachEvent};

    ghost Value = { Reading EachEvent };

    ghost view = { λ r. r.events };
}

impl EventReader {
    /// Creates a reader that reads at most `limit` bytes. `limit` is at most 2^62 (own rule).
    pub fn new(limit: u64) -> EventReader
        requires { limit ≤ 2 ^ 62 }
        ensures { result ≡ new_events limit }
    {
        EventReader {
            events: ItemReader::new(EachEvent, limit),
        }
    }

    /// Reads the next event (USB Device Class Definition for MIDI Devices 1.0, event packets). Returns the
    /// event and its offset, which is the number of bytes before it, or `None` when the source ends after a
    /// whole event.
    ///
    /// Returns `Truncated` if the source ends within the limit, one to three bytes after the last event; the
    /// offset is that of the first of these bytes. Returns `TooLong` if the source has more bytes than the
    /// limit, and fewer than four of them are left within the limit (own rule). Returns `Read` only if the
    /// source's count of faults rose. In that case no byte is lost, and a later call continues from there.
    /// After any other result without an event, every later call returns the same result. The call reads from
    /// the source only if the reader holds no whole event.
    #[inline(always)]
    pub fn next<S: Source>(&mut self, src: &mut S) -> Result<Option<(Event, u64)>, ReadStop>
        ensures answer { self.old.end ≡ None → Answers four_bytes event_at
            (cursor self.old (S.left src.old)) (cursor self.new (S.left src.new)) result }
        ensures again { IfSome self.old.end (λ tail.
            (result ≡ answer_of tail) × (self.new ≡ self.old) × (src.new ≡ src.old)) }
        ensures held { 4 ≤ length self.old.pending → src.new ≡ src.old }
        ensures cause { ReadCause (S.faults src.old) (S.faults src.new) result }
    {
        self.events.next(src)
    }
}

/// Returns whether an event's code is reserved, 0 or 1 (USB Device Class Definition for MIDI Devices 1.0,
/// code index numbers). Such an event carries nothing.
pub fn is_reserved(event: &Event) -> bool
    ensures { result ≡ is_reserved_code event.now.code }
{
    event.code.get() < 2
}

// The number of bytes that an event carries, for each code.
const CARRIED_COUNTS: [usize; 16] = [0, 0, 2, 3, 3, 1, 2, 3, 3, 3, 3, 3, 2, 2, 3, 1];

// Returns how many bytes an event with this code carries, at most three.
#[inline(always)]
fn carried_count(code: U4) -> usize
    ensures count { result ≡ count_by code }
    ensures most { result ≤ 3 }
    ensures some { is_reserved_code code ≡ false → 0 < result }
{
    CARRIED_COUNTS[usize::from(code.get())]
}

/// Returns the bytes that an event carries (USB Device Class Definition for MIDI Devices 1.0, code index
/// numbers). The code says how many of the three bytes these are: none for the reserved codes 0 and 1; two
/// for 2, 6, C and D; one for 5 and F; three for any other. For example, an event with code 9 (Note On)
/// carries all three, and an event with code C (Program Change) carries the first two.
pub fn carried(event: &Event) -> ShortList<u8, 3>
    ensures bytes { result ≡ carried_by event.now }
    ensures some { is_reserved_code event.now.code ≡ false → 0 < length result }
{
    let mut bytes = ShortList::new();
    bytes.extend(&event.bytes[..carried_count(event.code)]);
    bytes
}
