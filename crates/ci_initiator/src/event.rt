// The events of a rehearsal.
use crate::ask::Ask;
use crate::noted::Noted;
use ci_responder::Heard;
use thiserror::Error;

/// The next event of a rehearsal. The events choose by number which message is delivered, so they can deliver
/// messages in any order and more than once.
#[derive(Clone, Copy, Debug, PartialEq, Eq)]
pub enum Event {
    /// The initiator asks, and its message is stored as the next of the initiator's messages.
    Ask(Ask),
    /// The responder hears this one of the initiator's messages, and the reply is stored as the next of the
    /// replies.
    ToResponder(usize),
    /// The initiator hears this one of the replies.
    ToInitiator(usize),
}

/// The result of an event.
#[derive(Clone, Copy, Debug, PartialEq, Eq)]
pub enum Told {
    /// The initiator asked.
    Asked,
    /// What the responder did with the message.
    Heard(Heard),
    /// What the initiator noted about the message.
    Noted(Noted),
}

/// Says why an event is refused.
#[derive(Clone, Copy, Debug, PartialEq, Eq, Error)]
pub enum EventFault {
    /// The event's kind is unknown, there is no such message or watch, or the initiator asks a peer but knows
    /// none.
    #[error("the event is of no kind, or asks for what is not there")]
    BadEvent,
    /// The list for the event's message has 1,024 messages already. This is returned even if the event would
    /// create no message.
    #[error("the side that would send has sent 1,024 messages already")]
    TooMany,
}
