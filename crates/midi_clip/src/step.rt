// The results for the packets of a clip.
use thiserror::Error;

/// What a packet is to a clip. Times are in ticks since the start of the clip.
#[derive(Clone, Copy, Debug, PartialEq, Eq)]
pub enum ClipStep {
    /// The packet comes before the clip starts, and isn't part of the clip.
    Before,
    /// The packet starts the clip, with this number of ticks per quarter note, 1 to 65,535.
    Began(u16),
    /// The packet is an event at this time.
    Event(u64),
    /// The packet is a Delta Clockstamp, which adds its value to the time.
    Delta,
    /// The packet ends the clip at this time.
    Ended(u64),
}

/// The reason why a packet isn't part of a clip, or why a clip is incomplete.
#[derive(Clone, Copy, Debug, PartialEq, Eq, Error)]
pub enum ClipFault {
    /// A clip starts, but no packet before it gives the ticks per quarter note, or the last one gives 0.
    #[error("the clip starts without a number of ticks for a quarter note")]
    NoResolution,
    /// A packet comes after the end of the clip.
    #[error("a packet comes after the end of the clip")]
    AfterEnd,
    /// The clip doesn't start, or doesn't end.
    #[error("the clip does not start, or does not end")]
    NoEnd,
}

/// The progress of a clip.
#[derive(Clone, Copy, Debug, PartialEq, Eq)]
pub enum Stage {
    /// The clip has not started. `resolution` is the number of ticks per quarter note in the last packet
    /// that gave one, or `None` if no packet did or if the number was 0.
    NotStarted { resolution: Option<u16> },
    /// The clip started this many ticks ago.
    Started { ticks: u64 },
    /// The clip ended this many ticks after its start.
    Ended { ticks: u64 },
}
