// The receiver's state that is updated while an input is shown, if it is asked for, and the lines of its
// facts.
ghost use Rattle.std.specs.Prelude.{◌≡◌, false, true, None, is_some, IfOk, OnOk, OnErr};
ghost use Rattle.midi1_bytes.specs.Answers.{step_view};
ghost use Rattle.midi1_bytes.specs.Messages.{Message};
ghost use Rattle.midi1_bytes.specs.Steps.{completed_by};
ghost use Rattle.midi_meaning.specs.Messages.{as_they_come, raised};
ghost use Rattle.voice_state.specs.Kept.{Keeps};
ghost use Rattle.voice_state.specs.States.{States, first_states};
ghost use Rattle.pass_loop.specs.Places.{Puts};
ghost use Rattle.show_pass.specs.KeptState.{
  AreFactsOf,
  KeepsPacket,
  KeepsStep,
  StandsFor,
  after_completed,
  after_ending,
  fact_puts,
};

use midi_lines::{Line, fill_fact_line};
use midi1_bytes::{AfterCut, Step};
use pass_loop::{Outputs, RunEnd};
use small_types::{NoMemory, U4};
use std::alloc::Global;
use ump_grammar::Packet;
use voice_state::{Fact, VoiceState};

/// Creates a state before the first message or packet, if it is asked for.
pub(crate) fn new_state(alloc: Global, is_asked: bool) -> Result<Option<VoiceState>, NoMemory>
    ensures asked { IfOk result (λ kept. is_some kept ≡ is_asked) }
    ensures messages { IfOk result (λ kept. StandsFor as_they_come kept (first_states as_they_come)) }
    ensures packets { IfOk result (λ kept. StandsFor raised kept (first_states raised)) }
{
    if is_asked {
        let state = VoiceState::new(alloc)?;
        Ok(Some(state))
    } else {
        Ok(None)
    }
}

// Updates the state with a packet. `ended` is the group of the exclusive that the packet ends, if it ends
// one. After `NoMemory` nothing has changed.
fn take_packet(state: &mut VoiceState, packet: &Packet, ended: Option<U4>) -> Result<(), NoMemory>
    ensures { OnOk result ((message : Message) (states : States) → Keeps raised state.old states
        → Keeps raised state.new (after_ending ended packet.now message states)) }
{
    state.apply2(packet)?;
    if let Some(group) = ended {
        state.system(group, false);
    }
    Ok(())
}

/// Updates the state, if there is one, with a packet. `ended` is the group of the exclusive that the packet
/// ends, if it ends one. Without a state, nothing is stored and nothing is allocated.
pub(crate) fn keep_packet(
    kept: &mut Option<VoiceState>,
    packet: &Packet,
    ended: Option<U4>,
) -> Result<(), NoMemory>
    ensures keeps { OnOk result (KeepsPacket ended packet.now kept.old kept.new) }
    ensures memory { OnErr result (is_some kept.old ≡ true) }
{
    match kept {
        Some(state) => take_packet(state, packet, ended),
        None => Ok(()),
    }
}

// Returns the group that is used for a MIDI 1.0 stream, which has none (own rule).
fn stream_group() -> U4
    ensures { result ≡ 0 }
{
    U4::low_bits(0)
}

// Updates the state with the step of a stream's byte.
fn take_step(state: &mut VoiceState, step: &Step<'_>) -> Result<(), NoMemory>
    ensures { OnOk result ((states : States) → Keeps as_they_come state.old states
        → Keeps as_they_come state.new (after_completed (completed_by (step_view step.now)) states)) }
{
    match step {
        Step::Voice(bytes) => state.apply1(stream_group(), &bytes.message()),
        Step::RealTime(_) => {
            state.system(stream_group(), true);
            Ok(())
        }
        Step::Common(_) => {
            state.system(stream_group(), false);
            Ok(())
        }
        Step::Exclusive(_) => {
            state.system(stream_group(), false);
            Ok(())
        }
        Step::Cut { after, .. } => match after {
            AfterCut::Tune => {
                state.system(stream_group(), false);
                Ok(())
            }
            _ => Ok(()),
        },
        _ => Ok(()),
    }
}

/// Updates the state, if there is one, with the step of a stream's byte. Without a state, nothing is stored
/// and nothing is allocated.
pub(crate) fn keep_step(kept: &mut Option<VoiceState>, step: &Step<'_>) -> Result<(), NoMemory>
    ensures keeps { OnOk result (KeepsStep (step_view step.now) kept.old kept.new) }
    ensures memory { OnErr result (is_some kept.old ≡ true) }
{
    match kept {
        Some(state) => take_step(state, step),
        None => Ok(()),
    }
}

/// Returns the facts of the state. Without a state there are none, and nothing is allocated.
pub(crate) fn facts_of(kept: &Option<VoiceState>, alloc: Global) -> Result<Vec<Fact>, NoMemory>
    ensures facts { IfOk result (λ facts. AreFactsOf kept.now facts.items) }
    ensures memory { OnErr result (is_some kept.now ≡ true) }
{
    match kept {
        Some(state) => state.facts(alloc),
        None => Ok(Vec::new(alloc)),
    }
}

/// Writes the line for each of these facts to the output.
pub(crate) fn put_facts<O: Outputs>(facts: &[Fact], outputs: &mut O) -> Result<(), RunEnd>
    ensures { Puts (fact_puts facts.now) (O.places outputs.old) (O.places outputs.new) result }
{
    let mut line = Line::new();
    for fact in facts {
        fill_fact_line(&mut line, fact);
        outputs.put_output(line.as_slice())?;
    }
    Ok(())
}
