// Shows a clip file as the lines of its events.
ghost use Rattle.std.specs.Prelude.{◌≡◌, ◌≤◌, ◌^◌, [], ◌∷◌};
ghost use Rattle.ump_words.specs.declared.words.Order.TheVariants.{Big};
ghost use Rattle.midi_clip.specs.Roles.{role_of};
ghost use Rattle.midi_clip.specs.Stages.{new_stage, stage_after, step_of, ticks_of};
ghost use Rattle.pass_loop.specs.Pass.{IsDoneUnless, Takes, seen, seen_with};
ghost use Rattle.pass_loop.specs.Places.{Puts};
ghost use Rattle.pass_loop.specs.Refused.{IsRefusedWhere};
ghost use Rattle.packet_input.specs.Packets.{words_behind};
ghost use Rattle.clip_pass.specs.Clipping.{clipping, puts_by, reason_of, refusal_by, step_puts};
ghost use Rattle.clip_pass.specs.Cutting.{clip_cutting};
ghost use Rattle.clip_pass.specs.Ends.{ClipEnds, with_header};

use crate::laws::clip_files_are_cut_once;
use crate::lines::{fill_end_line, fill_event_line, fill_resolution_line};
use midi_clip::{Clip, ClipFault, ClipStep, HEADER_SIZE, clips_are_the_definition, header};
use outside::{Lanes, Sink, Source};
use packet_input::next_packet;
use pass_loop::{Borrowed, LIMIT, Next, Outputs, Reason, RunEnd, write_out};
use text_lines::Line;
use ump_grammar::Packet;
use ump_words::{Framed, Order, WordReader};

/// Shows the events of a clip file, to its end or to the first refusal. Writes lines to the output: one for
/// the ticks for a quarter note when the clip starts, one for each event with its ticks and its packet, and
/// one for the ticks at the end of the clip. A clip file is the eight bytes `SMF2CLIP` and packets whose
/// words have their most significant byte first (own rule; M2-104-UM, Delta Clockstamps, Start of Clip and
/// End of Clip). The call doesn't allocate.
///
/// Returns `Refused`
/// - for `NotClip`, at offset 0, if the input doesn't begin with the header;
/// - for `Truncated`, `InputTooLong`, `BadCount`, `HighBit`, `NoResolution` and `AfterEnd`, with the number
///   of bytes before the packet or end that is refused, including those of the header;
/// - for `NoEnd`, with the number of all bytes, if the input ends before the clip.
///
/// Returns `ReadFault` or `OutputFault` only if the fault count of that object rose. The lanes and the notes
/// are unchanged.
pub fn run_clip<S: Source, L: Lanes, W: Sink, N: Sink>(
    input: &mut S,
    lanes: &mut L,
    output: &mut W,
    notes: &mut N,
) -> RunEnd
    ensures ends { ClipEnds
        (seen S.Source L.Lanes W.Sink N.Sink input.old lanes.old output.old notes.old)
        (seen S.Source L.Lanes W.Sink N.Sink input.new lanes.new output.new notes.new) result }
    ensures complete { IsDoneUnless clip_cutting clipping
        (seen S.Source L.Lanes W.Sink N.Sink input.old lanes.old output.old notes.old)
        (seen S.Source L.Lanes W.Sink N.Sink input.new lanes.new output.new notes.new) result }
    ensures refused { IsRefusedWhere clip_cutting clipping
        (seen S.Source L.Lanes W.Sink N.Sink input.old lanes.old output.old notes.old)
        (seen S.Source L.Lanes W.Sink N.Sink input.new lanes.new output.new notes.new) result }
{
    clip_files_are_cut_once();
    let mut outputs = Borrowed {
        lanes,
        output,
        notes,
    };
    show_clip(input, &mut outputs)
}

// Does the same as `run_clip`, for places that are given as one value.
fn show_clip<S: Source, O: Outputs>(input: &mut S, outputs: &mut O) -> RunEnd
    ensures { ClipEnds
        (seen_with S.Source input.old (O.places outputs.old))
        (seen_with S.Source input.new (O.places outputs.new)) result }
{
    match header(input) {
        Ok(true) => {
            let words = WordReader::new(Order::Big, LIMIT - HEADER_SIZE);
            show_packets(words, Clip::new(), input, outputs)
        }
        Ok(false) => RunEnd::Refused {
            reason: Reason::NotClip,
            offset: 0,
        },
        Err(_) => RunEnd::ReadFault,
    }
}

// Shows the events of a clip file after its header is read.
fn show_packets<S: Source, O: Outputs>(
    mut words: WordReader,
    mut clip: Clip,
    input: &mut S,
    outputs: &mut O,
) -> RunEnd
    requires words { words ≡ words_behind Big 8 }
    requires clip { clip ≡ new_stage }
    ensures { ClipEnds
        (with_header (seen_with S.Source input.old (O.places outputs.old)))
        (seen_with S.Source input.new (O.places outputs.new)) result }
{
    clips_are_the_definition();
    // The number of bytes so far.
    let mut size = HEADER_SIZE;
    let mut line = Line::new();
    loop {
        write_out_before(&words, input, outputs);
        match next_packet(&mut words, HEADER_SIZE, input) {
            Next::Item { at, item } => {
                size = at.offset + 4 * at.words.as_slice().len() as u64;
                match take_packet(&mut clip, &mut line, &at, &item, outputs) {
                    Ok(()) => {}
                    Err(end) => return end,
                }
            }
            Next::End => {
                return match clip.end() {
                    Ok(_) => RunEnd::Done,
                    Err(_) => RunEnd::Refused {
                        reason: Reason::NoEnd,
                        offset: size,
                    },
                };
            }
            Next::Refused { reason, offset } => return RunEnd::Refused { reason, offset },
            Next::Failed => return RunEnd::ReadFault,
        }
    }
}

// Writes out what is buffered before the next packet has to be read.
#[inline(always)]
fn write_out_before<S: Source, O: Outputs>(words: &WordReader, input: &S, outputs: &mut O)
    ensures { O.places outputs.new ≡ O.places outputs.old }
{
    if words.needs_input() {
        write_out(input, outputs);
    }
}

// Returns the reason for a packet that is no part of a clip.
fn reason(fault: ClipFault) -> Reason
    ensures { result ≡ reason_of fault }
{
    match fault {
        ClipFault::NoResolution => Reason::NoResolution,
        ClipFault::AfterEnd => Reason::AfterEnd,
        ClipFault::NoEnd => Reason::NoEnd,
    }
}

// Handles one more packet, and writes its result as a line over the one before.
#[inline(always)]
fn take_packet<O: Outputs>(
    clip: &mut Clip,
    line: &mut Line,
    framed: &Framed,
    packet: &Packet,
    outputs: &mut O,
) -> Result<(), RunEnd>
    requires { ticks_of clip.old ≤ 2 ^ 63 }
    ensures stage { clip.new ≡ stage_after clip.old (role_of packet.now) }
    ensures takes { Takes (refusal_by (step_of clip.old (role_of packet.now)) framed.now.offset)
        (puts_by (step_of clip.old (role_of packet.now)) (framed.now, packet.now))
        (O.places outputs.old) (O.places outputs.new) result }
{
    match clip.packet(packet) {
        Ok(step) => put_step(step, line, framed, packet, outputs),
        Err(fault) => Err(RunEnd::Refused {
            reason: reason(fault),
            offset: framed.offset,
        }),
    }
}

// Writes the result of a packet, as a line over the one before.
#[inline(always)]
fn put_step<O: Outputs>(
    step: ClipStep,
    line: &mut Line,
    framed: &Framed,
    packet: &Packet,
    outputs: &mut O,
) -> Result<(), RunEnd>
    ensures { Puts (step_puts step (framed.now, packet.now))
        (O.places outputs.old) (O.places outputs.new) result }
{
    match step {
        ClipStep::Before | ClipStep::Delta => Ok(()),
        ClipStep::Began(resolution) => {
            fill_resolution_line(line, resolution);
            outputs.put_output(line.as_slice())
        }
        ClipStep::Event(ticks) => {
            fill_event_line(line, ticks, framed, packet);
            outputs.put_output(line.as_slice())
        }
        ClipStep::Ended(ticks) => {
            fill_end_line(line, ticks);
            outputs.put_output(line.as_slice())
        }
    }
}
