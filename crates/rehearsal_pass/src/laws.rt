// Laws that hold for all inputs.
ghost use Rattle.pass_loop.specs.Pass.{CutsOnce};
ghost use Rattle.pass_loop.specs.FirstRefusal.{HasOneFirstRefusal};
ghost use Rattle.function_blocks.specs.Setups.{SetupData};
ghost use Rattle.rehearsal_pass.specs.Events.{called_cutting};
ghost use Rattle.rehearsal_pass.specs.Laws.{DoneRehearsesTheInput};
ghost use Rattle.rehearsal_pass.specs.Rehearse.{rehearsing};

use crate::event::{CalledEvent, EachEvent};
use pass_loop::laws::items_are_cut_once;

/// A stream is cut into its events in one way, and a front of the stream begins with the same events.
pub fn events_are_cut_once()
    ensures { CutsOnce called_cutting }
{
    items_are_cut_once::<EachEvent, (u64, CalledEvent)>();
}

/// A stream of events has one first refusal. After events that are accepted, it is refused at one offset and
/// for one reason.
pub fn events_have_one_first_refusal()
    ensures { (setup : SetupData) → HasOneFirstRefusal called_cutting (rehearsing setup) }
{
    events_are_cut_once();
}

/// When a rehearsal is done, the output gained exactly the lines of the events of the whole input, as the
/// course of the rehearsal gives them, and then the lines of the watches and of the profiles at its end. If a
/// watch has a state then, a reply said so, and when that reply was made the responder's profile was in that
/// state.
pub fn a_rehearsal_that_is_done_is_that_of_the_input()
    ensures { DoneRehearsesTheInput }
{}
