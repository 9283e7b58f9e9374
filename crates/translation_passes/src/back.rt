// Translates a MIDI 1.0 byte stream to packets, and these to MIDI 1.0 bytes again.
ghost use Rattle.std.specs.Prelude.{◌≡◌, ◌<◌, ◌≤◌, [], ◌∷◌, IfOk, length};
ghost use Rattle.down_translator.specs.Lowered.{lowered_bytes};
ghost use Rattle.pass_loop.specs.Put.{in_output};
ghost use Rattle.pass_loop.specs.Bytes.{byte_cutting};
ghost use Rattle.pass_loop.specs.PassEnds.{PassEnds};
ghost use Rattle.pass_loop.specs.Pass.{seen};
ghost use Rattle.pass_loop.specs.Places.{Puts};
ghost use Rattle.up_translator.specs.DirectWords.{IsRaisedDirect, packet_of};
ghost use Rattle.translation_passes.specs.Back.{HoldsBack, ComesDown, back_options};
ghost use Rattle.translation_passes.specs.Back.{piece_puts, PutsDown, returning};
ghost use Rattle.translation_passes.specs.Raised.{CarriesOut, TakesNothing};
ghost use Rattle.translation_passes.specs.ForProofs.BackMeans.{returned_means, returns_named};
ghost use Rattle.translation_passes.specs.ForProofs.RaisedMeans.{last_named};

use crate::raised::{PacketWork, put_byte, put_front, put_open};
use down_translator::laws::what_is_held_is_the_definition;
use down_translator::{Down, LoweredMessage, Style};
use encoded_packets::DirectMessage;
use item_reader::ByteReader;
use listing_lines::refused;
use midi_meaning::up_laws::{
    bytes_that_come_back_mean_the_same, raised_packets_are_in_range,
    raised_packets_come_back_in_silence, rooms_that_are_not_reached_do_not_matter_in_bytes,
};
use midi1_bytes::laws::parsed_bytes_are_the_definition;
use outside::{Lanes, Sink, Source};
use pass_loop::laws::bytes_are_cut_once;
use pass_loop::{Engine, LIMIT, Outputs, RunEnd, Runs, drive_bytes};
use small_types::{NoMemory, ShortList, U4};
use std::alloc::Global;
use std::marker::Model;
use ump_grammar::Packet;
use up_translator::laws::raised_bytes_are_the_definition;
use up_translator::{RaisedPacket, Up};
use voice_messages::Form;

/// A translation up and down again that is ready to begin and has all its memory. In contracts its value is
/// the options.
#[derive(Drop)]
pub struct BackRun {
    up: Up,
    down: Down,
}

impl Model for BackRun {
    ghost use Rattle.std.specs.Prelude.{◌≡◌, ◌<◌, ◌≤◌, []};
    ghost use Rattle.up_translator.specs.Recording.{HoldsUp};
    ghost use Rattle.down_translator.specs.Held.{new_down};
    ghost use Rattle.midi_meaning.specs.Styles.{plain_style};
    ghost use Rattle.translation_passes.specs.Back.{back_options};
    ghost use Rattle.translation_passes.specs.Options.{BackOptions};

    ghost Value = { BackOptions };

    ghost view = { λ r. back_options r.up };

    ghost invariant = { λ r. HoldsUp r.up.holding.paired r.up.parsing.room r.up.group [] r.up
        × (r.down ≡ new_down r.up.holding.paired plain_style r.up.parsing.room)
        × (6 ≤ r.up.parsing.room) × (r.up.group < 16) };
}

impl BackRun {
    /// Creates a pass that translates bytes to packets of this group, and down again in plain style, with or
    /// without paired controllers (own rule). `room` is the most bytes of an exclusive between F0 and F7, 6
    /// to 1,048,576, for which both translators reserve memory. Returns `NoMemory` if there isn't enough. No
    /// other call allocates.
    pub fn new(alloc: Global, group: U4, room: u32, paired: bool) -> Result<BackRun, NoMemory>
        requires least { 6 ≤ room }
        requires most { room ≤ 1048576 }
        ensures { IfOk result (λ run. run ≡ record { paired = paired; group = group; room = room }) }
    {
        let up = Up::new(alloc, group, room, paired)?;
        let down = Down::new(alloc, room, Style::Plain, paired)?;
        Ok(BackRun { up, down })
    }
}

// Writes a piece to the output, unless the piece is empty.
fn put_piece<O: Outputs>(piece: &[u8], outputs: &mut O) -> Result<(), RunEnd>
    ensures { Puts (piece_puts piece.now) (O.places outputs.old) (O.places outputs.new) result }
{
    if piece.is_empty() {
        Ok(())
    } else {
        outputs.put_output(piece)
    }
}

// Writes a message that alone carries a packet to the output.
#[inline(always)]
fn put_message<O: Outputs>(message: &LoweredMessage, outputs: &mut O) -> Result<(), RunEnd>
    ensures { Puts (in_output (lowered_bytes message.now) ∷ [])
        (O.places outputs.old) (O.places outputs.new) result }
{
    let LoweredMessage {
        status,
        first,
        second,
        ..
    } = *message;
    let first = first.get();
    match second {
        Some(second) => outputs.put_output(&[status, first, second.get()]),
        None => outputs.put_output(&[status, first]),
    }
}

// Translates a packet down, and writes its piece.
#[inline(always)]
fn put_packet<O: Outputs>(
    down: &mut Down,
    packet: &Packet,
    offset: u64,
    outputs: &mut O,
) -> Result<(), RunEnd>
    requires { ComesDown down.old packet.now }
    ensures { CarriesOut (PutsDown offset down.old packet.now) down.new
        (O.places outputs.old) (O.places outputs.new) result }
{
    match down.packet(packet, offset) {
        Ok(carried) => put_piece(carried.piece, outputs),
        Err(bad) => Err(refused(bad, offset)),
    }
}

// Does the same as `put_packet` for the packet of a direct message, which is rarely needed. The packet and
// the result are created here, so that other messages cause no writes to memory.
#[inline(always)]
fn put_rare<O: Outputs>(
    down: &mut Down,
    message: &DirectMessage,
    offset: u64,
    outputs: &mut O,
) -> Result<(), RunEnd>
    requires raised { IsRaisedDirect message.now }
    requires comes { ComesDown down.old (packet_of message.now) }
    ensures { CarriesOut (PutsDown offset down.old (packet_of message.now)) down.new
        (O.places outputs.old) (O.places outputs.new) result }
{
    down.put(&RaisedPacket::of_value(message), offset, outputs)?;
    Ok(())
}

// Translates packets down, and writes their pieces. The way down neither refuses nor lists the packets to
// which bytes are translated up.
impl PacketWork for Down {
    ghost Accepts = { λ from packet. ComesDown from packet };

    ghost IsDone = { λ offset. PutsDown offset };

    #[inline(never)]
    fn put<O: Outputs>(
        &mut self,
        packet: &RaisedPacket,
        offset: u64,
        outputs: &mut O,
    ) -> Result<(), RunEnd> {
        put_packet(self, &packet.packet(), offset, outputs)
    }

    #[inline(always)]
    fn put_direct<O: Outputs>(
        &mut self,
        message: &DirectMessage,
        offset: u64,
        outputs: &mut O,
    ) -> Result<(), RunEnd> {
        match self.lowered_message(message) {
            Some(lowered) => put_message(&lowered, outputs),
            None => put_rare(self, message, offset, outputs),
        }
    }

    #[inline(never)]
    fn put_part<O: Outputs>(
        &mut self,
        group: U4,
        form: Form,
        bytes: ShortList<u8, 6>,
        offset: u64,
        outputs: &mut O,
    ) -> Result<(), RunEnd> {
        put_packet(
            self,
            &Packet::Exclusive { group, form, bytes },
            offset,
            outputs,
        )
    }
}

// Writes the pieces of each byte's packets to the output and the byte's lines to the notes, and at the end
// the line for the message that is still open.
#[derive(Drop)]
struct BackEngine {
    up: Up,
    down: Down,
}

impl Engine<u64, u8> for BackEngine {
    ghost work = { λ first. returning (back_options first.up) };

    ghost IsReady = { λ first. HoldsBack (back_options first.up) first.up first.down [] };

    ghost UsesLanes = { ⊥ };

    ghost Holds = { λ first now past. HoldsBack (back_options first.up) now.up now.down past };

    ghost Asks = { λ item. Unit {0} };

    ghost AsksAfter = { λ past item. item.0 ≡ length past };

    #[inline(always)]
    fn step<O: Outputs>(&mut self, at: &u64, item: &u8, outputs: &mut O) -> Result<(), RunEnd> {
        parsed_bytes_are_the_definition();
        raised_bytes_are_the_definition();
        raised_packets_are_in_range();
        raised_packets_come_back_in_silence();
        rooms_that_are_not_reached_do_not_matter_in_bytes();
        what_is_held_is_the_definition();
        put_byte(&mut self.up, &mut self.down, *item, *at, outputs)
    }

    fn close<O: Outputs>(&self, outputs: &mut O) -> Result<(), RunEnd> {
        raised_bytes_are_the_definition();
        put_open(&self.up, outputs)
    }

    ghost puts_are_named = { λ first past item puts put.
        returns_named (back_options first.up) past item puts put };

    ghost last_puts_are_named = { λ first past puts put.
        last_named first.up.parsing.room first.up.group past puts put };

    ghost starts = { λ first ready. ready };

    ghost means = { λ first now past puts holds accepted put.
        returned_means (back_options first.up) now.up now.down past puts holds put };
}

impl Runs for BackEngine {
    ghost TakesNone = { λ engine bytes. TakesNothing engine.up bytes };

    #[inline(always)]
    fn take_run<O: Outputs>(&mut self, bytes: &[u8], outputs: &mut O) -> Result<usize, RunEnd> {
        raised_bytes_are_the_definition();
        raised_packets_are_in_range();
        raised_packets_come_back_in_silence();
        what_is_held_is_the_definition();
        put_front(&mut self.up, &mut self.down, bytes, outputs)
    }
}

/// Translates a stream up, and each packet down again in plain style, to the end of the stream or to the
/// first byte that is refused (M2-104-UM, translation from MIDI 1.0 and default translation). Writes the
/// piece of each packet that has one to the output. After the pieces of a byte, writes the byte's lines to
/// the notes, and at the end the line for the message that is still open. The call doesn't allocate.
///
/// Returns `Refused` for `InputTooLong`, `DataIncrement`, `DataDecrement` and `ExclusiveTooLong`, with the
/// number of bytes before the byte that is refused. Returns `ReadFault`, `OutputFault` or `NoteFault` only if
/// the fault count of that object rose. The lanes are unchanged.
// Never inlined, so that the loops of the other passes keep their registers.
#[inline(never)]
pub fn run_back<S: Source, L: Lanes, W: Sink, N: Sink>(
    engine: BackRun,
    input: &mut S,
    lanes: &mut L,
    output: &mut W,
    notes: &mut N,
) -> RunEnd
    ensures { PassEnds byte_cutting (returning engine)
        (seen S.Source L.Lanes W.Sink N.Sink input.old lanes.old output.old notes.old)
        (seen S.Source L.Lanes W.Sink N.Sink input.new lanes.new output.new notes.new) result }
{
    bytes_are_cut_once();
    bytes_that_come_back_mean_the_same();
    rooms_that_are_not_reached_do_not_matter_in_bytes();
    let BackRun { up, down } = engine;
    drive_bytes(
        ByteReader::new(LIMIT),
        BackEngine { up, down },
        input,
        lanes,
        output,
        notes,
    )
}
