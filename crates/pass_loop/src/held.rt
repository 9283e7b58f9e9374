// Processes the items that a reader holds.
ghost use Rattle.std.specs.Prelude.{◌≡◌, ℕ, List, length, true};
ghost use Rattle.pass_loop.specs.ForProofs.HeldLaws.{IsUnderWay, StaysUnderWay, TakesHeld};

use crate::ends::RunEnd;
use crate::outputs::Outputs;
use crate::pass::{Engine, Found, Items};

/// A way to process the items that a reader holds.
pub(crate) trait Taking<A, I, R: Items<A, I>, E: Engine<A, I>> {
    /// Processes each whole item that the reader holds, and returns the number of their bytes.
    fn take_held<O: Outputs>(
        &self,
        reader: &R,
        engine: &mut E,
        outputs: &mut O,
    ) -> Result<usize, RunEnd>
        requires items { (past : List (A × I)) (item : A × I) → R.Promises past item →
            E.Asks item × E.AsksAfter past item }
        requires begun { E.UsesLanes → (O.places outputs.old).begun ≡ true }
        requires under_way { IsUnderWay E.work R.HasGiven E.Holds reader.now
            engine.old (O.places outputs.old) }
        ensures taken { TakesHeld R.to_go R.passed R.IsHeld
            (length (R.held_bytes reader.now)) reader.now result }
        ensures under_way { StaysUnderWay R.IsCut E.work R.HasGiven E.Holds R.passed reader.now
            engine.old engine.new (O.places outputs.old) (O.places outputs.new) result };
}

/// Processes items one by one, with a step for each.
pub(crate) struct OneByOne;

impl<A: Drop, I: Drop, R: Items<A, I>, E: Engine<A, I>> Taking<A, I, R, E> for OneByOne {
    #[inline(always)]
    fn take_held<O: Outputs>(
        &self,
        reader: &R,
        engine: &mut E,
        outputs: &mut O,
    ) -> Result<usize, RunEnd> {
        let (held, offset) = reader.held();
        let mut place = 0;
        loop {
            match reader.item_in(held, offset, place) {
                Some(Found::Item { at, item, next }) => {
                    engine.step(&at, &item, outputs)?;
                    place = next;
                }
                Some(Found::Refused { reason, offset }) => {
                    return Err(RunEnd::Refused { reason, offset });
                }
                None => return Ok(place),
            }
        }
    }
}
