// The lines of the listing, and the reasons why a message is refused.
use small_types::U4;
use thiserror::Error;

/// The kind of a line of the listing.
#[derive(Clone, Copy, Debug, PartialEq, Eq)]
pub enum Kind {
    /// A utility packet.
    Utility,
    /// A stream message.
    Stream,
    /// A packet of a reserved type, status, opcode or form.
    Reserved,
    /// A packet of 8-bit data.
    Data8,
    /// A flex data packet.
    Flex,
    /// A note with an attribute. The note is translated without the attribute.
    NoteAttribute,
    /// A registered or assignable controller of one note.
    NoteController,
    /// The bend of one note.
    NoteBend,
    /// Note management.
    NoteManagement,
    /// A value or a change for the null parameter 127/127.
    NullParameter,
    /// A relative change of a parameter.
    RelativeParameter,
    /// A MIDI 2.0 control change for a bank, a data entry or a parameter number.
    MisplacedController,
    /// A MIDI 2.0 control change for the LSB of a controller, if controllers are paired (own rule).
    FineController,
    /// A packet that continues or ends an exclusive when none is open.
    StrayExclusive,
    /// An exclusive that another exclusive, or a status byte, cut off.
    CutExclusive,
    /// An exclusive that is still open at the end of input.
    OpenExclusive,
    /// A byte that belongs to no message.
    Stray,
    /// A status byte that no message has.
    Undefined,
    /// A message that a status byte cut off.
    CutMessage,
    /// A message that is still open at the end of input.
    OpenMessage,
    /// A data entry without a selected parameter.
    IgnoredDataEntry,
}

/// A line of the listing.
#[derive(Clone, Copy, Debug, PartialEq, Eq)]
pub struct Listed {
    /// The offset of the line, in input bytes. For a message or exclusive that is cut off or open, it is
    /// the offset of the start. For a data entry, it is the offset of the byte that completes the data
    /// entry.
    pub offset: u64,
    /// The group of the line, if it has one.
    pub group: Option<U4>,
    /// The kind of the line.
    pub kind: Kind,
}

/// The reason why a translator refuses a message (own rule).
#[derive(Clone, Copy, Debug, PartialEq, Eq, Error)]
pub enum BadStep {
    /// A data increment, control change 96.
    #[error("a data increment cannot be carried")]
    DataIncrement,
    /// A data decrement, control change 97.
    #[error("a data decrement cannot be carried")]
    DataDecrement,
    /// An exclusive exceeds its limit.
    #[error("an exclusive is longer than the limit")]
    ExclusiveTooLong,
}
