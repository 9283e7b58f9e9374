// Messages to send.
ghost use Rattle.std.specs.Prelude.{◌≡◌, ◌<◌, ◌≤◌, length};
ghost use Rattle.ci_messages.specs.Writing.{IsView};
ghost use Rattle.ci_responder.specs.Replies.{IsMessage, message_of_payload, payload_of};

use ci_messages::laws::written_messages_are_read_again;
use ci_messages::{CiView, write};
use small_types::ShortList;
use std::marker::Model;

/// A MIDI-CI message from F0 to F7 (M2-101-UM), which has at most 344 bytes and which `ci_messages::read`
/// accepts. In contracts its value is the bytes.
#[derive(Debug, Drop)]
pub struct CiMessage {
    bytes: ShortList<u8, 512>,
}

impl Model for CiMessage {
    ghost use Rattle.std.specs.Prelude.{ℕ, List};
    ghost use Rattle.ci_responder.specs.Replies.{IsMessage};

    ghost Value = { List ℕ };

    ghost view = { λ m. m.bytes };

    ghost invariant = { λ m. IsMessage m.bytes };
}

impl CiMessage {
    /// Writes a message of version 01 or above (M2-101-UM). The source must be below 0FFFFF00, and there must
    /// be at most 342 bytes between F0 and F7.
    pub fn new(view: &CiView<'_>) -> CiMessage
        requires view { IsView view.now }
        requires version { 1 ≤ view.now.version }
        requires source { view.now.source < 0x0FFFFF00 }
        requires fits { length (payload_of view.now) ≤ 342 }
        ensures { result ≡ message_of_payload (payload_of view.now) }
    {
        written_messages_are_read_again();
        let mut bytes = ShortList::new();
        write(view, &mut bytes);
        CiMessage { bytes }
    }

    /// Returns the bytes of the message, from F0 to F7 (M2-101-UM).
    pub fn as_slice(&self) -> &[u8]
        ensures value { result.now ≡ self.now }
        ensures message { IsMessage result.now }
    {
        self.bytes.as_slice()
    }
}
