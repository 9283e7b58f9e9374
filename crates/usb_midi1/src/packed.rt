// The outcome of a byte.
use listing_terms::{ByteLine, ByteLines};
use small_types::U4;
use thiserror::Error;

/// An error: an exclusive has more bytes between F0 and F7 than the limit (own rule).
#[derive(Clone, Copy, Debug, PartialEq, Eq, Error)]
#[error("an exclusive is longer than the limit")]
pub struct TooLong;

/// The outcome of one byte: its events and its lines of the listing.
#[derive(Clone, Copy, Debug)]
pub struct Packed<'a> {
    /// The event of the voice or system message that the byte completes. Its first byte has the cable and the
    /// code.
    pub event: Option<[u8; 4]>,
    /// The exclusive that the byte ends, from its F0 to its F7. `exclusive_event` cuts it into events. If
    /// there is an exclusive, `event` is `None`.
    pub whole: Option<&'a [u8]>,
    /// The byte's lines of the listing, with the cable as their group.
    pub lines: ByteLines,
}

impl<'a> Packed<'a> {
    ghost use Rattle.std.specs.Prelude.{◌≡◌, ◌++◌, [], ◌∷◌, map, Some, None};
    ghost use Rattle.std.specs.Option.{option_to_list};
    ghost use Rattle.midi_meaning.specs.StepListing.{line_up};
    ghost use Rattle.listing_terms.specs.ByteLines.{lines_in, told_of, AreInOrder, IsInOrder};
    ghost use Rattle.usb_midi1.specs.Packed.{cable_in, events_in, whole_in, IsApart};
    ghost use Rattle.usb_midi1.specs.Packing.{exclusive_events};

    /// Creates an outcome with at most two lines, in order, and no event.
    pub(crate) fn only_listed(
        cable: U4,
        first: Option<ByteLine>,
        second: Option<ByteLine>,
    ) -> Packed<'a>
        requires { AreInOrder first second }
        ensures cable { cable_in result ≡ cable }
        ensures order { IsInOrder result.lines }
        ensures apart { IsApart result }
        ensures whole { whole_in result ≡ None }
        ensures events { events_in result ≡ [] }
        ensures lines { lines_in result.lines ≡
            map (line_up cable) (map told_of (option_to_list first ++ option_to_list second)) }
    {
        Packed {
            event: None,
            whole: None,
            lines: ByteLines::new(cable, first, second),
        }
    }

    /// Creates an outcome with an event, and a line if there is one.
    pub(crate) fn of_event(cable: U4, event: [u8; 4], first: Option<ByteLine>) -> Packed<'a>
        ensures cable { cable_in result ≡ cable }
        ensures order { IsInOrder result.lines }
        ensures apart { IsApart result }
        ensures whole { whole_in result ≡ None }
        ensures events { events_in result ≡ event ∷ [] }
        ensures lines { lines_in result.lines ≡ map (line_up cable) (map told_of (option_to_list first)) }
    {
        Packed {
            event: Some(event),
            whole: None,
            lines: ByteLines::new(cable, first, None),
        }
    }

    /// Creates an outcome with an exclusive, from its F0 to its F7, and no line.
    pub(crate) fn of_whole(cable: U4, whole: &'a [u8]) -> Packed<'a>
        ensures cable { cable_in result ≡ cable }
        ensures order { IsInOrder result.lines }
        ensures apart { IsApart result }
        ensures whole { whole_in result ≡ Some whole.now }
        ensures events { events_in result ≡ exclusive_events cable whole.now }
        ensures lines { lines_in result.lines ≡ [] }
    {
        Packed {
            event: None,
            whole: Some(whole),
            lines: ByteLines::new(cable, None, None),
        }
    }

    /// Returns the cable of the events (own rule).
    pub fn cable(&self) -> U4
        ensures { result ≡ cable_in self.now }
    {
        self.lines.group()
    }
}
