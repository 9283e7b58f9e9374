// The status that a call returns.
ghost use Rattle.std.specs.Prelude.{◌≡◌};
ghost use Rattle.c_answers.specs.Numbers.{number_of};
ghost use Rattle.c_answers.specs.Refusals.{status_of_bad, status_of_step};

use listing_terms::BadStep;
use ump_grammar::Bad;

/// The status that a call returns: success, or the reason for the failure.
#[derive(Clone, Copy, Debug)]
pub enum Status {
    /// The call did all that it was asked for.
    Done,
    /// There isn't enough memory.
    NoMemory,
    /// The handle is closed.
    HandleClosed,
    /// The handle is open already.
    AlreadyOpen,
    /// The limit of an exclusive, or a capacity of a running state, is out of range.
    BadRoom,
    /// The number of words isn't the number that the first word's message type has.
    BadWordCount,
    /// A buffer is too small for what the call may have to write. Nothing more was taken.
    SmallBuffer,
    /// A packet of an exclusive has a count above six bytes.
    BadCount,
    /// A data byte has its high bit set.
    HighBit,
    /// The message is a control change 96, data increment.
    DataIncrement,
    /// The message is a control change 97, data decrement.
    DataDecrement,
    /// An exclusive has more bytes than the limit.
    ExclusiveTooLong,
    /// A group or a cable isn't 0 to 15.
    BadGroup,
    /// The caller asked for something that doesn't exist.
    Nothing,
    /// The handle is open for another kind of object.
    OtherKind,
    /// The number of streams isn't 1 to 64.
    BadStreams,
    /// The text of a setup isn't in the syntax of setups.
    SetupSyntax,
    /// A setup breaks a rule.
    SetupRule,
    /// There is no scaling between these widths.
    BadBits,
    /// A value doesn't fit in its width.
    BadValue,
    /// The message would add to a list of the running state that is full.
    StateFull,
    /// A flag is set that the call doesn't accept.
    BadFlags,
    /// The number of bytes isn't the one that the call requires.
    BadSize,
    /// A channel is neither 0 to 15 nor 255, which stands for none.
    BadChannel,
}

impl Status {
    /// Returns the number that the header gives to this status.
    #[inline(always)]
    pub fn number(self) -> u32
        ensures { result ≡ number_of self }
    {
        match self {
            Status::Done => 0,
            Status::NoMemory => 1,
            Status::HandleClosed => 2,
            Status::AlreadyOpen => 3,
            Status::BadRoom => 4,
            Status::BadWordCount => 5,
            Status::SmallBuffer => 6,
            Status::BadCount => 7,
            Status::HighBit => 8,
            Status::DataIncrement => 9,
            Status::DataDecrement => 10,
            Status::ExclusiveTooLong => 11,
            Status::BadGroup => 12,
            Status::Nothing => 13,
            Status::OtherKind => 14,
            Status::BadStreams => 15,
            Status::SetupSyntax => 16,
            Status::SetupRule => 17,
            Status::BadBits => 18,
            Status::BadValue => 19,
            Status::StateFull => 20,
            Status::BadFlags => 21,
            Status::BadSize => 22,
            Status::BadChannel => 23,
        }
    }

    /// Returns the status for words that no packet has.
    pub fn of_bad(bad: Bad) -> Status
        ensures { result ≡ status_of_bad bad }
    {
        match bad {
            Bad::BadCount => Status::BadCount,
            Bad::HighBit => Status::HighBit,
        }
    }

    /// Returns the status for a packet or a byte that is refused.
    pub fn of_step(bad: BadStep) -> Status
        ensures { result ≡ status_of_step bad }
    {
        match bad {
            BadStep::DataIncrement => Status::DataIncrement,
            BadStep::DataDecrement => Status::DataDecrement,
            BadStep::ExclusiveTooLong => Status::ExclusiveTooLong,
        }
    }
}
