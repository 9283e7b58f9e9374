// The limits of a state, and the reasons why a message can't be stored.
ghost use Rattle.std.specs.Prelude.{◌≡◌};
ghost use Rattle.voice_state.specs.Rooms.{no_limit};

/// The reason why a message can't be stored.
#[derive(Clone, Copy, Debug, PartialEq, Eq)]
pub enum NotKept {
    /// The list to which the message would be added is full.
    Full,
    /// The memory can't be allocated.
    NoMemory,
}

/// The maximum number of notes and mode messages of a channel, and of parameters of each kind. Without a
/// limit, it's the greatest number, which the length of no list reaches.
#[derive(Clone, Copy, Debug)]
pub(crate) struct Room {
    pub notes: usize,
    pub params: usize,
}

impl Room {
    pub(crate) fn none() -> Room
        ensures { result ≡ record { notes = 0; params = 0 } }
    {
        Room {
            notes: 0,
            params: 0,
        }
    }

    pub(crate) fn unlimited() -> Room
        ensures { result ≡ record { notes = no_limit; params = no_limit } }
    {
        Room {
            notes: usize::MAX,
            params: usize::MAX,
        }
    }
}
