// The outcome of a packet.
use ci_messages::CiFault;
use ci_responder::Heard;
use listing_terms::Listed;

/// What an endpoint did with the message that a packet ended: a stream message or a whole exclusive.
#[derive(Clone, Copy, Debug, PartialEq, Eq)]
pub enum Outcome {
    /// The stream message has replies (M2-104-UM, UMP stream messages).
    Answered,
    /// The stream message has no reply.
    NoAnswer,
    /// The stream packet has a format that is not allowed for its message. It isn't answered (own rule).
    BadFormat,
    /// The exclusive isn't a well-formed MIDI-CI message, and has this as its first fault. It isn't answered
    /// (own rule).
    Unread(CiFault),
    /// The exclusive is a MIDI-CI message, and the responder heard it in this way (M2-101-UM).
    Heard(Heard),
}

/// What an endpoint did with a packet that it accepted.
#[derive(Clone, Copy, Debug, PartialEq, Eq)]
pub struct Taken {
    /// What the endpoint did with the message that the packet ended. `None` if the packet ended no message.
    pub outcome: Option<Outcome>,
    /// The line for a packet of an exclusive that is stray, or for the exclusive that the packet cut off.
    pub listed: Option<Listed>,
}

impl Taken {
    ghost use Rattle.std.specs.Prelude.{◌≡◌, None, Some};

    /// Creates the outcome of a packet that neither ended a message nor lost anything.
    pub(crate) fn nothing() -> Taken
        ensures { result ≡ record { outcome = None; listed = None } }
    {
        Taken {
            outcome: None,
            listed: None,
        }
    }

    /// Creates the outcome of a packet that only lost something.
    pub(crate) fn lost(listed: Listed) -> Taken
        ensures { result ≡ record { outcome = None; listed = Some listed } }
    {
        Taken {
            outcome: None,
            listed: Some(listed),
        }
    }

    /// Creates the outcome of a packet that ended a message and lost nothing.
    pub(crate) fn ended(outcome: Outcome) -> Taken
        ensures { result ≡ record { outcome = Some outcome; listed = None } }
    {
        Taken {
            outcome: Some(outcome),
            listed: None,
        }
    }
}
