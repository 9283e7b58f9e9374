// Runs a rehearsal, event by event.
ghost use Rattle.std.specs.Prelude.{◌≡◌, ◌∷◌, [], IfOk};
ghost use Rattle.ci_responder.specs.Keys.{state_in};
ghost use Rattle.pass_loop.specs.PassEnds.{PassEnds};
ghost use Rattle.pass_loop.specs.Pass.{seen};
ghost use Rattle.pass_loop.specs.Places.{Puts};
ghost use Rattle.pass_loop.specs.Put.{in_output};
ghost use Rattle.rehearsal_pass.specs.Events.{called_cutting};
ghost use Rattle.pass_loop.specs.Each.{for_each};
ghost use Rattle.rehearsal_pass.specs.Rehearse.{
  closing_lines,
  held_line as held_line_of,
  held_text,
  reason_of as reason_of_fault,
  rehearsing,
  told_text,
};
ghost use Rattle.rehearsal_pass.specs.ForProofs.RehearseMeans.{
  HoldsRehearsal,
  IsReadyRehearsal,
  closing_named,
  rehearsal_means,
  rehearses_named,
  rehearses_nothing,
};

use crate::event::{CalledEvent, EachEvent};
use crate::laws::events_are_cut_once;
use crate::lines::{held_line, told_line};
use ci_initiator::laws::{stage_is_the_course, what_is_held_was_told};
use ci_initiator::{EventFault, Rehearsal, Told};
use ci_responder::Key;
use ci_text::{LinePlace, ProfileStates, put_profiles};
use function_blocks::Setup;
use outside::{Lanes, Sink, Source};
use pass_loop::{EachItems, Engine, Outputs, Reason, RunEnd, drive};
use small_types::NoMemory;
use std::alloc::Global;
use std::marker::Model;

/// A rehearsal that is ready to run and has all its memory. In contracts its value is the contents of the
/// setup.
#[derive(Drop)]
pub struct RehearseRun {
    engine: RehearseEngine,
}

impl Model for RehearseRun {
    ghost use Rattle.function_blocks.specs.Setups.{SetupData};
    ghost use Rattle.rehearsal_pass.specs.ForProofs.RehearseMeans.{IsFirstRehearsal};

    ghost Value = { SetupData };

    ghost view = { λ r. r.engine.setup };

    ghost invariant = { λ r. IsFirstRehearsal r.engine };
}

impl RehearseRun {
    /// Creates the rehearsal of a setup: its responder, and an initiator that watches the profiles of one
    /// function block. Returns `NoMemory` if there isn't enough memory for both sides and for 1,024 messages
    /// of each. No other call allocates.
    pub fn new(alloc: Global, setup: Setup) -> Result<RehearseRun, NoMemory>
        ensures { IfOk result (λ run. run ≡ setup) }
    {
        let rehearsal = Rehearsal::new(alloc, &setup)?;
        Ok(RehearseRun {
            engine: RehearseEngine { setup, rehearsal },
        })
    }
}

// Writes a line for each event to the output, and at the end the lines for the watches and for the profiles.
#[derive(Drop)]
struct RehearseEngine {
    setup: Setup,
    rehearsal: Rehearsal,
}

impl Engine<u64, CalledEvent> for RehearseEngine {
    ghost work = { λ first. rehearsing first.setup };

    ghost IsReady = { λ first. IsReadyRehearsal first };

    ghost UsesLanes = { ⊥ };

    ghost Holds = { λ first now past. HoldsRehearsal first now past };

    ghost Asks = { λ item. Unit {0} };

    ghost AsksAfter = { λ past item. Unit {0} };

    fn step<O: Outputs>(
        &mut self,
        at: &u64,
        item: &CalledEvent,
        outputs: &mut O,
    ) -> Result<(), RunEnd> {
        match self.rehearsal.event(item.kind, item.number) {
            Ok(told) => put_told(*at, told, outputs),
            Err(fault) => Err(RunEnd::Refused {
                reason: reason_of(fault),
                offset: *at,
            }),
        }
    }

    fn close<O: Outputs>(&self, outputs: &mut O) -> Result<(), RunEnd> {
        self.put_closing(outputs)
    }

    ghost puts_are_named = { λ first past item puts put. rehearses_named first.setup past item puts put };

    ghost last_puts_are_named = { λ first past puts put. closing_named first.setup past puts put };

    ghost starts = { λ first ready. rehearses_nothing first ready };

    ghost means = { λ first now past puts holds accepted put. rehearsal_means first now past holds };
}

// Returns the reason for an event that is refused.
fn reason_of(fault: EventFault) -> Reason
    ensures { result ≡ reason_of_fault fault }
{
    match fault {
        EventFault::BadEvent => Reason::BadEvent,
        EventFault::TooMany => Reason::TooManyMessages,
    }
}

// Writes the line for an event.
fn put_told<O: Outputs>(offset: u64, told: Told, outputs: &mut O) -> Result<(), RunEnd>
    ensures { Puts (in_output (told_text offset told) ∷ [])
        (O.places outputs.old) (O.places outputs.new) result }
{
    let line = told_line(offset, told);
    outputs.put_output(line.as_slice())
}

// Writes the line for the state of a watch.
fn put_held<O: Outputs>(number: usize, held: Option<bool>, outputs: &mut O) -> Result<(), RunEnd>
    ensures { Puts (in_output (held_text number held) ∷ [])
        (O.places outputs.old) (O.places outputs.new) result }
{
    let line = held_line(number, held);
    outputs.put_output(line.as_slice())
}

// The responder knows each profile of the setup.
impl ProfileStates for RehearseEngine {
    ghost states = { λ engine. state_in engine.rehearsal.responder.states };

    fn profile_is_on(&self, key: &Key) -> Option<bool> {
        self.rehearsal.profile_is_on(key)
    }
}

impl RehearseEngine {
    // Writes the line for the state of each watch.
    fn put_watches<O: Outputs>(&self, outputs: &mut O) -> Result<(), RunEnd>
        ensures { Puts (for_each held_line_of 0 self.now.rehearsal.initiator.watched)
            (O.places outputs.old) (O.places outputs.new) result }
    {
        for k in 0..self.rehearsal.watches() {
            put_held(k, self.rehearsal.holds(k), outputs)?;
        }
        Ok(())
    }

    // Writes the lines for the watches, and then those for the profiles.
    fn put_closing<O: Outputs>(&self, outputs: &mut O) -> Result<(), RunEnd>
        ensures { Puts (closing_lines self.now.setup self.now.rehearsal)
            (O.places outputs.old) (O.places outputs.new) result }
    {
        self.put_watches(outputs)?;
        put_profiles(&self.setup, self, LinePlace::Output, outputs)
    }
}

/// Runs a rehearsal over a stream of events, to its end or to the first event that is refused (M2-101-UM; the
/// events and the lines are own rule). An event has three bytes: its kind, and its number with the high byte
/// first, as `Rehearsal::event` reads them. Writes a line for each event to the output, and at the end a line
/// for the state of each watch and one for each profile. The call doesn't allocate.
///
/// Returns `Refused` for `Truncated`, `InputTooLong`, `BadEvent` and `TooManyMessages`, with the number of
/// bytes before the event or end that is refused. Returns `ReadFault` or `OutputFault` only if the fault
/// count of that object rose. The lanes and the notes are unchanged.
pub fn run_rehearse<S: Source, L: Lanes, W: Sink, N: Sink>(
    run: RehearseRun,
    input: &mut S,
    lanes: &mut L,
    output: &mut W,
    notes: &mut N,
) -> RunEnd
    ensures { PassEnds called_cutting (rehearsing run)
        (seen S.Source L.Lanes W.Sink N.Sink input.old lanes.old output.old notes.old)
        (seen S.Source L.Lanes W.Sink N.Sink input.new lanes.new output.new notes.new) result }
{
    events_are_cut_once();
    stage_is_the_course();
    what_is_held_was_told();
    let RehearseRun { engine } = run;
    drive(
        EachItems::new(EachEvent),
        engine,
        input,
        lanes,
        output,
        notes,
    )
}
