// Packs a MIDI 1.0 byte stream into events.
ghost use Rattle.std.specs.Prelude.{◌≡◌, ◌≤◌, ◌<◌, ◌++◌, [], IfOk, IfSome, length};
ghost use Rattle.std.specs.Option.{option_map};
ghost use Rattle.midi1_bytes.specs.Parsing.{open_of};
ghost use Rattle.midi_meaning.specs.StepListing.{kinds_at_end};
ghost use Rattle.pass_loop.specs.Bytes.{byte_cutting};
ghost use Rattle.pass_loop.specs.PassEnds.{PassEnds};
ghost use Rattle.pass_loop.specs.Pass.{Takes, seen};
ghost use Rattle.pass_loop.specs.Places.{Puts};
ghost use Rattle.listing_terms.specs.ByteLines.{lines_in};
ghost use Rattle.usb_midi1.specs.Held.{packer_after, step_in};
ghost use Rattle.usb_midi1.specs.Packed.{IsApart, events_in, whole_in};
ghost use Rattle.usb_midi1.specs.Packing.{exclusive_events};
ghost use Rattle.listing_lines.specs.Lines.{line_puts};
ghost use Rattle.listing_lines.specs.Refusal.{refusal_of};
ghost use Rattle.usb_passes.specs.Pack.{HoldsPacked, event_puts, open_lines, pack_options, packed_puts, packing};
ghost use Rattle.usb_passes.specs.ForProofs.PackMeans.{last_named, packs_mean, packs_named};

use item_reader::ByteReader;
use listing_lines::{put_lines, put_listed, refused};
use listing_terms::BadStep;
use midi1_bytes::laws::parsed_bytes_are_the_definition;
use outside::{Lanes, Sink, Source};
use pass_loop::laws::bytes_are_cut_once;
use pass_loop::{Engine, LIMIT, Outputs, RunEnd, drive};
use small_types::{NoMemory, U4};
use std::alloc::Global;
use std::marker::Model;
use usb_midi1::laws::{
    exclusive_events_come_in_order, packed_bytes_are_the_definition, split_events_mean_the_bytes,
};
use usb_midi1::{Packed, Packer, TooLong, exclusive_event};

/// A packing that is ready to begin and has all its memory. In contracts its value is the options.
#[derive(Drop)]
pub struct PackRun {
    packer: Packer,
}

impl Model for PackRun {
    ghost use Rattle.std.specs.Prelude.{◌≡◌, ◌<◌};
    ghost use Rattle.midi1_bytes.specs.Parsing.{idle};
    ghost use Rattle.usb_passes.specs.Options.{PackOptions};

    ghost Value = { PackOptions };

    ghost view = { λ r. record { cable = r.packer.cable; room = r.packer.parsing.room } };

    ghost invariant = { λ r. (r.packer.parsing ≡ idle r.packer.parsing.room) × (r.packer.cable < 16) };
}

impl PackRun {
    /// Creates a pass that packs bytes into the events of this cable. `room` is the most bytes of an
    /// exclusive between F0 and F7, 6 to 1,048,576, for which memory is reserved (own rule). Returns
    /// `NoMemory` if there isn't enough. No other call allocates.
    pub fn new(alloc: Global, cable: U4, room: u32) -> Result<PackRun, NoMemory>
        requires least { 6 ≤ room }
        requires most { room ≤ 1048576 }
        ensures { IfOk result (λ run. run ≡ record { cable = cable; room = room }) }
    {
        let packer = Packer::new(alloc, cable, room)?;
        Ok(PackRun { packer })
    }
}

// Writes the events of each byte to the output and the byte's lines to the notes, and at the end the line for
// the message that is still open.
#[derive(Drop)]
struct PackEngine {
    packer: Packer,
}

impl Engine<u64, u8> for PackEngine {
    ghost work = { λ first. packing (pack_options first.packer) };

    ghost IsReady = { λ first. HoldsPacked (pack_options first.packer) first.packer [] };

    ghost UsesLanes = { ⊥ };

    ghost Holds = { λ first now past. HoldsPacked (pack_options first.packer) now.packer past };

    ghost Asks = { λ item. Unit {0} };

    ghost AsksAfter = { λ past item. item.0 ≡ length past };

    #[inline(always)]
    fn step<O: Outputs>(&mut self, at: &u64, item: &u8, outputs: &mut O) -> Result<(), RunEnd> {
        parsed_bytes_are_the_definition();
        packed_bytes_are_the_definition();
        pack_byte(&mut self.packer, *item, *at, outputs)
    }

    fn close<O: Outputs>(&self, outputs: &mut O) -> Result<(), RunEnd> {
        packed_bytes_are_the_definition();
        put_open(&self.packer, outputs)
    }

    ghost puts_are_named = { λ first past item puts put.
        packs_named (pack_options first.packer) past item puts put };

    ghost last_puts_are_named = { λ first past puts put.
        last_named (pack_options first.packer) past puts put };

    ghost starts = { λ first ready. ready };

    ghost means = { λ first now past puts holds accepted put.
        packs_mean (pack_options first.packer) now.packer past puts holds put };
}

/// Packs a stream into the events of a cable, to the end of the stream or to the first byte that is refused
/// (USB Device Class Definition for MIDI Devices 1.0, event packets; own rule: bytes that come to nothing are
/// listed). Writes the events of each message to the output when it reads the byte that completes the
/// message. After the events of a byte, writes the byte's lines to the notes, and at the end the line for the
/// message that is still open. The call doesn't allocate.
///
/// Returns `Refused` for `InputTooLong` and `ExclusiveTooLong`, with the number of bytes before the byte that
/// is refused. Returns `ReadFault`, `OutputFault` or `NoteFault` only if the fault count of that object rose.
/// The lanes are unchanged.
#[inline(never)]
pub fn run_pack<S: Source, L: Lanes, W: Sink, N: Sink>(
    engine: PackRun,
    input: &mut S,
    lanes: &mut L,
    output: &mut W,
    notes: &mut N,
) -> RunEnd
    ensures { PassEnds byte_cutting (packing engine)
        (seen S.Source L.Lanes W.Sink N.Sink input.old lanes.old output.old notes.old)
        (seen S.Source L.Lanes W.Sink N.Sink input.new lanes.new output.new notes.new) result }
{
    bytes_are_cut_once();
    packed_bytes_are_the_definition();
    split_events_mean_the_bytes();
    let PackRun { packer } = engine;
    let engine = PackEngine { packer };
    drive(ByteReader::new(LIMIT), engine, input, lanes, output, notes)
}

// Packs one more byte: writes its events to the output, and then its lines to the notes.
#[inline(always)]
fn pack_byte<O: Outputs>(
    packer: &mut Packer,
    byte: u8,
    offset: u64,
    outputs: &mut O,
) -> Result<(), RunEnd>
    ensures takes { Takes (refusal_of (step_in packer.old offset byte) offset)
        (packed_puts packer.old.cable (step_in packer.old offset byte) offset)
        (O.places outputs.old) (O.places outputs.new) result }
    ensures after { packer.new ≡ packer_after packer.old offset byte }
{
    match packer.byte(byte, offset) {
        Ok(packed) => put_packed(&packed, outputs),
        Err(TooLong) => Err(refused(BadStep::ExclusiveTooLong, offset)),
    }
}

// Writes the events of a byte, and then its lines.
#[inline(always)]
fn put_packed<O: Outputs>(packed: &Packed<'_>, outputs: &mut O) -> Result<(), RunEnd>
    requires apart { IsApart packed.now }
    requires whole { IfSome (whole_in packed.now) (λ whole. 2 ≤ length whole) }
    ensures { Puts (event_puts (events_in packed.now) ++ line_puts (lines_in packed.now.lines))
        (O.places outputs.old) (O.places outputs.new) result }
{
    put_events(*packed, outputs)?;
    put_lines(&packed.lines, outputs)
}

// Writes the events of a byte.
#[inline(always)]
fn put_events<O: Outputs>(packed: Packed<'_>, outputs: &mut O) -> Result<(), RunEnd>
    requires apart { IsApart packed }
    requires whole { IfSome (whole_in packed) (λ whole. 2 ≤ length whole) }
    ensures { Puts (event_puts (events_in packed.entry))
        (O.places outputs.old) (O.places outputs.new) result }
{
    match packed.event {
        Some(event) => outputs.put_output(&event),
        None => match packed.whole {
            Some(whole) => put_exclusive(packed.cable(), whole, outputs),
            None => Ok(()),
        },
    }
}

// Writes the events of an exclusive that is given from its F0 to its F7.
fn put_exclusive<O: Outputs>(cable: U4, whole: &[u8], outputs: &mut O) -> Result<(), RunEnd>
    requires { 2 ≤ length whole.now }
    ensures { Puts (event_puts (exclusive_events cable whole.now))
        (O.places outputs.old) (O.places outputs.new) result }
{
    exclusive_events_come_in_order();
    let mut k = 0;
    while let Some(event) = exclusive_event(cable, whole, k) {
        outputs.put_output(&event)?;
        k += 1;
    }
    Ok(())
}

// Writes the line for the message that is still open at the end, if there is one.
fn put_open<O: Outputs>(packer: &Packer, outputs: &mut O) -> Result<(), RunEnd>
    ensures { Puts (open_lines packer.now.cable (kinds_at_end
        (option_map (λ begun. (begun.start, begun.kind)) (open_of packer.now.parsing))))
        (O.places outputs.old) (O.places outputs.new) result }
{
    put_listed(packer.end(), outputs)
}
