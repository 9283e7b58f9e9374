// The ways in which a pass ends.

/// Says why a recording or a stream is refused.
#[derive(Clone, Copy, Debug, PartialEq, Eq)]
pub enum Reason {
    /// The input ends within a packet (M2-104-UM, message types) or within an event (USB Device Class
    /// Definition for MIDI Devices 1.0; own rule).
    Truncated,
    /// The input has more than 4,294,967,296 bytes (own rule).
    InputTooLong,
    /// A 7-bit exclusive packet has a count above six bytes (M2-104-UM, 7-bit exclusives).
    BadCount,
    /// A byte of a packet is 128 or more, where seven bits are carried (M2-104-UM).
    HighBit,
    /// A data increment, control change 96 of either protocol, would have to be translated (own rule).
    DataIncrement,
    /// A data decrement, control change 97 of either protocol, would have to be translated (own rule).
    DataDecrement,
    /// An exclusive has more bytes than the limit (own rule). In a 7-bit exclusive the bytes between F0 and
    /// F7 count, in an 8-bit exclusive all bytes.
    ExclusiveTooLong,
    /// An event of a rehearsal is of no known kind, or it names something that isn't there (own rule).
    BadEvent,
    /// An event of a rehearsal may create a message, but the list for that message has 1,024 messages already
    /// (own rule).
    TooManyMessages,
    /// A clip file doesn't begin with its header (own rule).
    NotClip,
    /// A clip starts without a number of ticks for a quarter note (own rule).
    NoResolution,
    /// A packet comes after the end of a clip (own rule).
    AfterEnd,
    /// A clip file has no clip that starts and ends (own rule).
    NoEnd,
}

/// Says how a pass over a recording or a stream ended.
#[derive(Clone, Copy, Debug, PartialEq, Eq)]
pub enum RunEnd {
    /// The input was read to its end.
    Done,
    /// The pass refused the input at this offset, which is the number of input bytes before it. It refused a
    /// packet, a byte or an event, or the input because it ends within one or is longer than the limit, or a
    /// clip that doesn't begin or end as it should.
    Refused { reason: Reason, offset: u64 },
    /// A read failed.
    ReadFault,
    /// A write to a lane (the stream of a group) failed.
    LaneFault,
    /// A write to the output failed.
    OutputFault,
    /// A write to the notes failed.
    NoteFault,
    /// There was no memory for the next item, or for what is written at the end. Only a pass that allocates
    /// while it runs ends in this way.
    NoMemory,
}
