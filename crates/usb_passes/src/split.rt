// Splits events into the stream of each cable.
ghost use Rattle.std.specs.Prelude.{◌≡◌, ◌<◌, ◌∷◌, [], true, length};
ghost use Rattle.pass_loop.specs.PassEnds.{PassEnds};
ghost use Rattle.pass_loop.specs.Pass.{seen};
ghost use Rattle.pass_loop.specs.Places.{Puts};
ghost use Rattle.pass_loop.specs.Put.{in_notes};
ghost use Rattle.usb_passes.specs.Events.{event_cutting};
ghost use Rattle.usb_passes.specs.Split.{event_puts, reserved_text, splitting};
ghost use Rattle.usb_passes.specs.ForProofs.SplitMeans.{none_named, splits_mean, splits_named};

use crate::laws::events_are_cut_once;
use outside::{Lanes, Sink, Source};
use pass_loop::{EachItems, Engine, Outputs, RunEnd, drive};
use small_types::U4;
use text_lines::{Line, put_decimal, put_text};
use usb_midi1::{EachEvent, Event, carried, is_reserved};

// Writes the bytes that each event carries to the lane of the event's cable, and a line for each event whose
// code is reserved to the notes.
#[derive(Drop)]
struct SplitEngine;

impl Engine<u64, Event> for SplitEngine {
    ghost work = { λ first. splitting };

    ghost IsReady = { λ first. Unit {0} };

    ghost UsesLanes = { Unit {0} };

    ghost Holds = { λ first now past. Unit {0} };

    ghost Asks = { λ item. Unit {0} };

    ghost AsksAfter = { λ past item. Unit {0} };

    #[inline(always)]
    fn step<O: Outputs>(&mut self, at: &u64, item: &Event, outputs: &mut O) -> Result<(), RunEnd> {
        put_event(item, *at, outputs)
    }

    fn close<O: Outputs>(&self, outputs: &mut O) -> Result<(), RunEnd> {
        Ok(())
    }

    ghost puts_are_named = { λ first past item puts put. splits_named past item puts put };

    ghost last_puts_are_named = { λ first past puts put. none_named past puts put };

    ghost starts = { λ first ready. tt };

    ghost means = { λ first now past puts holds accepted put. splits_mean past puts put };
}

/// Splits a stream of events, to its end (USB Device Class Definition for MIDI Devices 1.0, event packets).
/// Writes the bytes that each event carries to the lane of the event's cable. An event whose code is reserved
/// carries nothing, and a line for it is written to the notes (own rule). The call doesn't allocate.
///
/// Returns `Refused` for `Truncated` and `InputTooLong`, with the number of bytes before the end or event
/// that is refused. Returns `ReadFault`, `LaneFault` or `NoteFault` only if the fault count of that object
/// rose. The output is unchanged.
pub fn run_split<S: Source, L: Lanes, W: Sink, N: Sink>(
    input: &mut S,
    lanes: &mut L,
    output: &mut W,
    notes: &mut N,
) -> RunEnd
    requires begun { L.begun lanes.old ≡ true }
    ensures { PassEnds event_cutting splitting
        (seen S.Source L.Lanes W.Sink N.Sink input.old lanes.old output.old notes.old)
        (seen S.Source L.Lanes W.Sink N.Sink input.new lanes.new output.new notes.new) result }
{
    events_are_cut_once();
    drive(
        EachItems::new(EachEvent),
        SplitEngine,
        input,
        lanes,
        output,
        notes,
    )
}

// Writes the bytes that an event carries to the lane of the event's cable. If the code is reserved, writes
// the event's line to the notes instead.
#[inline(always)]
fn put_event<O: Outputs>(event: &Event, offset: u64, outputs: &mut O) -> Result<(), RunEnd>
    requires begun { (O.places outputs.old).begun ≡ true }
    ensures { Puts (event_puts (offset, event.now)) (O.places outputs.old) (O.places outputs.new) result }
{
    if is_reserved(event) {
        put_reserved(offset, event.cable, outputs)
    } else {
        outputs.put_lane(event.cable, carried(event).as_slice())
    }
}

// Writes the line for an event whose code is reserved.
fn put_reserved<O: Outputs>(offset: u64, cable: U4, outputs: &mut O) -> Result<(), RunEnd>
    ensures { Puts (in_notes (reserved_text offset cable) ∷ [])
        (O.places outputs.old) (O.places outputs.new) result }
{
    let line = reserved_line(offset, cable);
    outputs.put_notes(line.as_slice())
}

// Returns the line for an event whose code is reserved (own rule).
fn reserved_line(offset: u64, cable: U4) -> Line
    ensures text { result ≡ reserved_text offset cable }
    ensures some { 0 < length result }
{
    let mut line = Line::new();
    put_decimal(&mut line, offset);
    put_text(&mut line, " ");
    put_decimal(&mut line, u64::from(cable.get()));
    put_text(&mut line, " reserved-event\n");
    line
}
