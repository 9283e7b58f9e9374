// The control changes that are direct.
ghost use Rattle.std.specs.Prelude.{◌≡◌, ◌<◌, ℕ, None, Some, false, slice_index_or};
ghost use Rattle.midi_meaning.specs.Controllers.{is_direct_in};

use crate::role::ControlRole;
use std::marker::Model;
use voice_messages::U7;

/// A table that marks the indexes whose control change is direct (`ControlRole::is_direct`). The next index
/// can't be predicted, and the table spares the caller a branch on it. In contracts its value is whether
/// controllers are paired, or `None` if no index is marked.
#[derive(Drop)]
pub struct DirectControls {
    paired: Option<bool>,
    marked: [bool; 128],
}

impl Model for DirectControls {
    ghost use Rattle.std.specs.Prelude.{◌≡◌, ◌<◌, ℕ, false, slice_index_or, Bool, Option};
    ghost use Rattle.midi_meaning.specs.Controllers.{is_direct_in};

    ghost Value = { Option Bool };

    ghost view = { λ direct. direct.paired };

    ghost invariant = { λ direct. (index : ℕ) → index < 128 →
        slice_index_or direct.marked index false ≡ is_direct_in direct.paired index };
}

// Returns whether the control change with this index is direct.
fn is_direct(paired: bool, index: U7) -> bool
    ensures { result ≡ is_direct_in (Some paired) index }
{
    ControlRole::of(index).pairing(paired).is_direct()
}

// Returns the marks of all indexes.
fn marks(paired: bool) -> [bool; 128]
    ensures { (index : ℕ) → index < 128 →
        slice_index_or result index false ≡ is_direct_in (Some paired) index }
{
    let mut marked = [false; 128];
    for index in 0..128u8 {
        marked[index as usize] = is_direct(paired, U7::low_bits(index as u32));
    }
    marked
}

impl DirectControls {
    /// Creates a table that marks each direct control change, with controllers paired or not (own rule).
    pub fn new(paired: bool) -> DirectControls
        ensures { result ≡ Some paired }
    {
        DirectControls {
            paired: Some(paired),
            marked: marks(paired),
        }
    }

    /// Creates a table that marks no index.
    pub fn none() -> DirectControls
        ensures { result ≡ None }
    {
        DirectControls {
            paired: None,
            marked: [false; 128],
        }
    }

    /// Returns whether the control change with this index, 0 to 127, is marked.
    #[inline(always)]
    pub fn has(&self, index: U7) -> bool
        ensures { result ≡ is_direct_in self.now index }
    {
        self.marked[index.get() as usize]
    }
}
