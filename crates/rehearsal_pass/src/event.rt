// Events as the input has them.
ghost use Rattle.std.specs.Prelude.{◌≡◌, ◌≤◌, ◌^◌, length};
ghost use Rattle.rehearsal_pass.specs.EventBytes.{event_at, event_length, three_bytes};

use item_reader::Cut;

/// An event of a rehearsal, as three bytes spell it (own rule).
#[derive(Clone, Copy, Debug, PartialEq, Eq)]
pub struct CalledEvent {
    /// The kind: the first byte.
    pub kind: u8,
    /// The number: the other two bytes, the high byte first.
    pub number: u16,
}

/// Describes the cutting of an input into events: each three bytes are one event.
#[derive(Clone, Copy, Debug, PartialEq, Eq)]
pub struct EachEvent;

impl Cut for EachEvent {
    type Item = (CalledEvent, u64);

    ghost asked = { λ _. three_bytes };

    ghost item_of = { λ _. event_at };

    #[inline(always)]
    fn asked(&self, bytes: &[u8]) -> usize {
        3
    }

    #[inline(always)]
    fn item(&self, offset: u64, bytes: &[u8]) -> (CalledEvent, u64) {
        let number = 256 * u16::from(bytes[1]) + u16::from(bytes[2]);
        let event = CalledEvent {
            kind: bytes[0],
            number,
        };
        (event, offset)
    }

    ghost lengths = { λ _. event_length };
}
