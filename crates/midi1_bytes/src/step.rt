// The effect of a byte on the messages of a stream.
use crate::spoken::{CommonBytes, RealTimeByte, VoiceBytes};

/// What a byte can cut off. It is dropped and reported (own rule).
#[derive(Clone, Copy, Debug, PartialEq, Eq)]
pub enum CutKind {
    /// A voice or common message that still lacks a data byte.
    Message,
    /// An exclusive without its F7.
    Exclusive,
}

/// The other effect of a status byte, 80 to F7, that cuts off a message (MIDI 1.0 Detailed Specification,
/// summary of status bytes).
#[derive(Clone, Copy, Debug, PartialEq, Eq)]
pub enum AfterCut {
    /// The byte begins a message (80 to EF and F1 to F3) or an exclusive (F0).
    Begins,
    /// The byte is a tune request, F6.
    Tune,
    /// The byte is F4 or F5, which no message has.
    Undefined,
    /// The byte is F7, but there is no exclusive to end (own rule).
    Stray,
}

/// The effect of a byte (MIDI 1.0 Detailed Specification: summary of status bytes, running status). Offsets
/// are those that the caller gave the parser with the bytes.
#[derive(Clone, Copy, Debug)]
pub enum Step<'a> {
    /// The byte belongs to an open message or exclusive, or begins one.
    Held,
    /// The byte completes a channel voice message, also under running status.
    Voice(VoiceBytes),
    /// The byte completes a system common message: it is F6, or the last data byte after F1, F2 or F3.
    Common(CommonBytes),
    /// The byte is a system Real Time message: F8, FA, FB, FC, FE or FF.
    RealTime(RealTimeByte),
    /// The byte is F7 and ends this exclusive, which has at least two bytes: F0, the data bytes, and F7.
    Exclusive(&'a [u8]),
    /// The byte belongs to no message: it is a data byte without a status to belong to, or F7 if nothing is
    /// open (own rule).
    Stray,
    /// The byte is a status that no message has: F4 or F5 if nothing is open, F9 or FD anywhere.
    Undefined,
    /// The byte cuts off the message that started at this offset, which is dropped (own rule).
    Cut {
        start: u64,
        what: CutKind,
        after: AfterCut,
    },
    /// The byte is the data byte that exceeds the limit of the exclusive, which is dropped (own rule).
    TooLong,
}

/// The effect of a byte, if it is only held or completes a voice message.
#[derive(Clone, Copy, Debug)]
pub enum PlainStep {
    /// The byte belongs to an open message or exclusive, or begins one.
    Held,
    /// The byte completes this channel voice message, also under running status.
    Voice(VoiceBytes),
    /// The byte has any other effect.
    Other,
}
