// The notes and channel mode messages that have arrived.
ghost use Rattle.std.specs.Prelude.{◌≡◌, ◌≤◌, [], ◌∷◌, ◌++◌, length, IfOk, OnOk, OnErr, map};
ghost use Rattle.voice_state.specs.Acts.{act_of};
ghost use Rattle.voice_state.specs.Rooms.{IsFullWhere};

use crate::not_kept::NotKept;
use crate::note_act::NoteAct;
use small_types::NoMemory;
use std::alloc::Global;
use std::marker::Model;

/// The notes and channel mode messages of a channel, in the order of arrival. In contracts its value is the
/// list of them.
#[derive(Drop)]
pub(crate) struct Acts {
    acts: Vec<NoteAct>,
}

impl Model for Acts {
    ghost use Rattle.std.specs.Prelude.{List, map};
    ghost use Rattle.midi_meaning.specs.State.{Act};
    ghost use Rattle.voice_state.specs.Acts.{act_of};

    ghost Value = { List Act };

    ghost view = { λ a. map act_of a.acts.items };
}

impl Acts {
    /// Creates an empty list and allocates memory for `taken` entries. Returns `NoMemory` if the memory
    /// can't be allocated.
    pub(crate) fn new(alloc: Global, taken: usize) -> Result<Acts, NoMemory>
        ensures { IfOk result (λ acts. acts ≡ []) }
    {
        match Vec::with_capacity(alloc, taken) {
            Ok(acts) => Ok(Acts { acts }),
            Err(_) => Err(NoMemory),
        }
    }

    /// Appends an entry if there are fewer than `room`. Otherwise nothing changes.
    pub(crate) fn add(&mut self, act: NoteAct, room: usize) -> Result<(), NotKept>
        ensures added { OnOk result (self.new ≡ self.old ++ act_of act ∷ []) }
        ensures unchanged { OnErr result (self.new ≡ self.old) }
        ensures full { IsFullWhere result (room ≤ length self.old) }
    {
        if room <= self.acts.len() {
            return Err(NotKept::Full);
        }
        match self.acts.push(act) {
            Ok(()) => Ok(()),
            Err(_) => Err(NotKept::NoMemory),
        }
    }

    /// Empties the list, which keeps its memory.
    pub(crate) fn clear(&mut self)
        ensures { self.new ≡ [] }
    {
        self.acts.clear();
    }

    /// Returns all entries, in the order of arrival.
    pub(crate) fn as_slice(&self) -> &[NoteAct]
        ensures { map act_of result.now ≡ self.now }
    {
        self.acts.as_slice()
    }
}
