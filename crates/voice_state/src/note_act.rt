// A note or a channel mode message.
ghost use Rattle.std.specs.Prelude.{◌≡◌};
ghost use Rattle.voice_state.specs.Acts.{act_of};
ghost use Rattle.voice_state.specs.Facts.{act_fact};

use crate::fact::Fact;
use voice_messages::{U4, U7};

/// A note that begins or ends, or a channel mode message.
#[derive(Clone, Copy, Debug)]
pub(crate) enum NoteAct {
    On { note: U7, velocity: u16 },
    Off { note: U7, velocity: u16 },
    Mode { index: U7, value: u32 },
}

impl NoteAct {
    /// Returns the fact about the note or mode message.
    pub(crate) fn fact(self, group: U4, channel: U4) -> Fact
        ensures { result ≡ act_fact group channel (act_of self) }
    {
        match self {
            NoteAct::On { note, velocity } => Fact::On {
                group,
                channel,
                note,
                velocity,
            },
            NoteAct::Off { note, velocity } => Fact::Off {
                group,
                channel,
                note,
                velocity,
            },
            NoteAct::Mode { index, value } => Fact::Mode {
                group,
                channel,
                index,
                value,
            },
        }
    }
}
