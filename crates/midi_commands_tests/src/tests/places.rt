// The places of a pass.
ghost use Rattle.std.specs.Prelude.{◌≡◌, true, IfOk};

use midi_edge::{MemLanes, MemSink};
use outside::Lanes;
use std::alloc::Global;
use std::test::Fail;

// Lanes that are begun, and notes.
#[derive(Drop)]
pub(super) struct Places {
    pub(super) lanes: MemLanes,
    pub(super) notes: MemSink,
}

// Places in which nothing fails, with no room in the lanes.
pub(super) fn begun_places(alloc: Global) -> Result<Places, Fail>
    ensures { IfOk result (λ places. places.lanes.begun ≡ true) }
{
    let notes = MemSink::new(alloc, 512, Vec::new(alloc))?;
    let mut lanes = MemLanes::new(alloc, 0, 0, Vec::new(alloc))?;
    lanes.begin("F")?;
    Ok(Places { lanes, notes })
}
