// Shows a MIDI 1.0 byte stream as lines.
ghost use Rattle.std.specs.Prelude.{◌≡◌, ◌<◌, ◌∷◌, ◌++◌, ℕ, List, [], None, Some, Ok, length, is_some};
ghost use Rattle.midi1_bytes.specs.Answers.{step_view};
ghost use Rattle.midi1_bytes.specs.Parsing.{idle, open_of, parse};
ghost use Rattle.midi1_bytes.specs.Steps.{cut};
ghost use Rattle.midi_meaning.specs.Messages.{as_they_come};
ghost use Rattle.voice_state.specs.States.{first_states};
ghost use Rattle.midi_lines.specs.StepLines.{HasBothEnds, byte_listing_text};
ghost use Rattle.pass_loop.specs.Bytes.{byte_cutting};
ghost use Rattle.pass_loop.specs.PassEnds.{PassEnds};
ghost use Rattle.pass_loop.specs.Pass.{Takes, TakesIn, seen};
ghost use Rattle.pass_loop.specs.Places.{Puts};
ghost use Rattle.pass_loop.specs.Put.{in_output};
ghost use Rattle.show_pass.specs.KeptState.{KeepsStep, StandsFor, fact_puts};
ghost use Rattle.listing_lines.specs.Refusal.{refusal_of};
ghost use Rattle.show_pass.specs.ForProofs.ShowMeans.{shown_bytes_mean};
ghost use Rattle.show_pass.specs.ShowBytes.{HoldsBytes, IsReadyBytes, open_puts, byte_line_options, puts_after, showing_bytes, shown_puts, shows_last_named, shows_named, shows_no_bytes};

use crate::kept_state::{facts_of, keep_step, put_facts};
use item_reader::ByteReader;
use listing_lines::refused;
use midi_lines::{Line, fill_byte_listing, fill_step_line};
use midi_meaning::up_laws::rooms_that_are_not_reached_do_not_matter_in_bytes;
use midi_meaning::{BadStep, Kind, kind_of_cut, kind_of_open};
use midi1_bytes::laws::parsed_bytes_are_the_definition;
use midi1_bytes::{AfterCut, CutKind, Parser, Step};
use outside::{Lanes, Sink, Source};
use pass_loop::laws::bytes_are_cut_once;
use pass_loop::{Engine, LIMIT, Outputs, RunEnd, drive};
use small_types::NoMemory;
use std::alloc::Global;
use voice_state::state_laws::bytes_are_kept;
use voice_state::{Fact, VoiceState};

// Writes a line for each message that the bytes of a stream complete, and for each byte that belongs to no
// message or cuts something off. At the end it writes a line for the message that is still open and, if there
// is a state, the lines of its facts.
#[derive(Drop)]
struct ShowBytes {
    parser: Parser,
    line: Line,
    state: Option<VoiceState>,
    alloc: Global,
}

impl Engine<u64, u8> for ShowBytes {
    ghost work = { λ first. showing_bytes (byte_line_options first.parser first.state) };

    ghost IsReady = { λ first. IsReadyBytes first.parser first.state };

    ghost UsesLanes = { ⊥ };

    ghost Holds = { λ first now past. HoldsBytes first.parser now.parser first.state now.state past };

    ghost Asks = { λ item. Unit {0} };

    ghost AsksAfter = { λ past item. item.0 ≡ length past };

    #[inline(always)]
    fn step<O: Outputs>(&mut self, at: &u64, item: &u8, outputs: &mut O) -> Result<(), RunEnd> {
        parsed_bytes_are_the_definition();
        rooms_that_are_not_reached_do_not_matter_in_bytes();
        bytes_are_kept();
        self.take_byte(*item, *at, outputs)
    }

    fn close<O: Outputs>(&self, outputs: &mut O) -> Result<(), RunEnd> {
        parsed_bytes_are_the_definition();
        match facts_of(&self.state, self.alloc) {
            Ok(facts) => put_end(&self.parser, &facts, outputs),
            Err(NoMemory) => Err(RunEnd::NoMemory),
        }
    }

    ghost puts_are_named = { λ first past item puts put.
        shows_named (byte_line_options first.parser first.state) past item puts put };

    ghost last_puts_are_named = { λ first past puts put.
        shows_last_named (byte_line_options first.parser first.state) past puts put };

    ghost starts = { λ first ready. shows_no_bytes first.parser first.state ready };

    ghost means = { λ first now past puts holds accepted put.
        shown_bytes_mean (byte_line_options first.parser first.state) past puts put };
}

impl ShowBytes {
    // Passes one more byte to the parser, updates the state if there is one, and writes the byte's lines,
    // each over the earlier one. Most bytes complete nothing, and their steps aren't copied.
    #[inline(always)]
    fn take_byte<O: Outputs>(
        &mut self,
        byte: u8,
        offset: u64,
        outputs: &mut O,
    ) -> Result<(), RunEnd>
        ensures takes { TakesIn (is_some self.old.state)
            (refusal_of (parse self.old.parser offset byte).step offset)
            (shown_puts (parse self.old.parser offset byte).step offset)
            (O.places outputs.old) (O.places outputs.new) result }
        ensures after { self.new.parser ≡ (parse self.old.parser offset byte).after }
        ensures state { result ≡ Ok tt →
            KeepsStep (parse self.old.parser offset byte).step self.old.state self.new.state }
    {
        match self.parser.byte(byte, offset) {
            Step::Held => Ok(()),
            step => match keep_step(&mut self.state, &step) {
                Ok(()) => put_step(&mut self.line, &step, offset, outputs),
                Err(NoMemory) => Err(RunEnd::NoMemory),
            },
        }
    }
}

/// Writes the lines of a stream, to its end or to the first byte that is refused, and if there is a state,
/// the lines of its facts. The parser must have nothing open, and the state must be new.
#[inline(never)]
pub(crate) fn show_bytes<S: Source, L: Lanes, W: Sink, N: Sink>(
    parser: Parser,
    state: Option<VoiceState>,
    alloc: Global,
    input: &mut S,
    lanes: &mut L,
    output: &mut W,
    notes: &mut N,
) -> RunEnd
    requires empty { parser ≡ idle parser.room }
    requires new { StandsFor as_they_come state (first_states as_they_come) }
    ensures { PassEnds byte_cutting (showing_bytes (byte_line_options parser state))
        (seen S.Source L.Lanes W.Sink N.Sink input.old lanes.old output.old notes.old)
        (seen S.Source L.Lanes W.Sink N.Sink input.new lanes.new output.new notes.new) result }
{
    bytes_are_cut_once();
    bytes_are_kept();
    let engine = ShowBytes {
        parser,
        line: Line::new(),
        state,
        alloc,
    };
    drive(ByteReader::new(LIMIT), engine, input, lanes, output, notes)
}

// Writes a line of the listing over another line.
fn put_kind<O: Outputs>(
    line: &mut Line,
    kind: Kind,
    offset: u64,
    outputs: &mut O,
) -> Result<(), RunEnd>
    ensures { Puts (in_output (byte_listing_text kind offset) ∷ [])
        (O.places outputs.old) (O.places outputs.new) result }
{
    fill_byte_listing(line, kind, offset);
    outputs.put_output(line.as_slice())
}

// Writes the lines for the step of a byte.
fn put_step<O: Outputs>(
    line: &mut Line,
    step: &Step<'_>,
    offset: u64,
    outputs: &mut O,
) -> Result<(), RunEnd>
    requires { HasBothEnds step.now }
    ensures { Takes (refusal_of (step_view step.now) offset) (shown_puts (step_view step.now) offset)
        (O.places outputs.old) (O.places outputs.new) result }
{
    match step {
        Step::Held => Ok(()),
        Step::TooLong => Err(refused(BadStep::ExclusiveTooLong, offset)),
        Step::Stray => put_kind(line, Kind::Stray, offset, outputs),
        Step::Undefined => put_kind(line, Kind::Undefined, offset, outputs),
        Step::Cut { start, what, after } => {
            let cut_off = CutOff {
                start: *start,
                what: *what,
                after: *after,
            };
            put_cut(line, cut_off, offset, outputs)
        }
        _ => {
            if fill_step_line(line, step, offset) {
                outputs.put_output(line.as_slice())
            } else {
                Ok(())
            }
        }
    }
}

// A message or an exclusive that a byte cut off: its offset, its kind, and what the byte itself does.
#[derive(Clone, Copy)]
struct CutOff {
    start: u64,
    what: CutKind,
    after: AfterCut,
}

// Writes the line for the message that was cut off, and then the line for the byte itself, if it has one.
fn put_cut<O: Outputs>(
    line: &mut Line,
    cut_off: CutOff,
    offset: u64,
    outputs: &mut O,
) -> Result<(), RunEnd>
    ensures { Puts (shown_puts (cut cut_off.start cut_off.what cut_off.after) offset)
        (O.places outputs.old) (O.places outputs.new) result }
{
    put_kind(line, kind_of_cut(cut_off.what), cut_off.start, outputs)?;
    put_after(line, cut_off, offset, outputs)
}

// Writes the line for a byte that cut something off, if it has one.
fn put_after<O: Outputs>(
    line: &mut Line,
    cut_off: CutOff,
    offset: u64,
    outputs: &mut O,
) -> Result<(), RunEnd>
    ensures { Puts (puts_after cut_off.start cut_off.what cut_off.after offset)
        (O.places outputs.old) (O.places outputs.new) result }
{
    let CutOff { start, what, after } = cut_off;
    match after {
        AfterCut::Begins => Ok(()),
        AfterCut::Undefined => put_kind(line, Kind::Undefined, offset, outputs),
        AfterCut::Stray => put_kind(line, Kind::Stray, offset, outputs),
        AfterCut::Tune => {
            if fill_step_line(line, &Step::Cut { start, what, after }, offset) {
                outputs.put_output(line.as_slice())
            } else {
                Ok(())
            }
        }
    }
}

// Writes the line for the message that is still open at the end, if there is one.
fn put_open<O: Outputs>(parser: &Parser, outputs: &mut O) -> Result<(), RunEnd>
    ensures { Puts (open_puts (open_of parser.now)) (O.places outputs.old) (O.places outputs.new) result }
{
    match parser.end() {
        Some((start, what)) => {
            let mut line = Line::new();
            put_kind(&mut line, kind_of_open(what), start, outputs)
        }
        None => Ok(()),
    }
}

// Writes the line for the message that is still open, if there is one, and then the line for each of these
// facts.
fn put_end<O: Outputs>(parser: &Parser, facts: &[Fact], outputs: &mut O) -> Result<(), RunEnd>
    ensures { Puts (open_puts (open_of parser.now) ++ fact_puts facts.now)
        (O.places outputs.old) (O.places outputs.new) result }
{
    put_open(parser, outputs)?;
    put_facts(facts, outputs)
}
