// Translates a MIDI 1.0 byte stream to packets.
ghost use Rattle.std.specs.Prelude.{◌≡◌, ◌≤◌, ◌<◌, [], ◌∷◌, IfOk, length, refl};
ghost use Rattle.std.specs.List.{flat_map};
ghost use Rattle.packet_words.specs.Words.{word_bytes};
ghost use Rattle.pass_loop.specs.PassEnds.{PassEnds};
ghost use Rattle.pass_loop.specs.Places.{Puts};
ghost use Rattle.pass_loop.specs.Put.{in_output};
ghost use Rattle.ump_grammar.specs.Ranges.{IsPacket};
ghost use Rattle.pass_loop.specs.Bytes.{byte_cutting};
ghost use Rattle.pass_loop.specs.Pass.{seen};
ghost use Rattle.translation_passes.specs.Raised.{TakesNothing};
ghost use Rattle.translation_passes.specs.Up.{HoldsRaised, up_options, raising};
ghost use Rattle.packet_input.specs.Written.{IsWritten};
ghost use Rattle.translation_passes.specs.ForProofs.RaisedMeans.{last_named};
ghost use Rattle.translation_passes.specs.ForProofs.UpMeans.{raised_means, raises_named};

use crate::raised::{PacketWork, put_byte, put_front, put_open};
use encoded_packets::DirectMessage;
use item_reader::ByteReader;
use midi_meaning::up_laws::{
    raised_packets_are_in_range, raised_packets_mean_the_bytes,
    rooms_that_are_not_reached_do_not_matter_in_bytes,
};
use midi1_bytes::laws::parsed_bytes_are_the_definition;
use outside::{Lanes, Sink, Source};
use packet_input::put_encoded;
use packet_words::Order;
use pass_loop::laws::bytes_are_cut_once;
use pass_loop::{Engine, LIMIT, Outputs, RunEnd, Runs, drive_bytes};
use small_types::{NoMemory, ShortList, U4};
use std::alloc::Global;
use std::marker::Model;
use ump_grammar::laws::exclusives_have_words;
use up_translator::laws::raised_bytes_are_the_definition;
use up_translator::{RaisedPacket, Up};
use voice_messages::Form;

/// A translation up that is ready to begin and has all its memory. In contracts its value is the options.
#[derive(Drop)]
pub struct UpRun {
    up: Up,
    order: Order,
}

impl Model for UpRun {
    ghost use Rattle.std.specs.Prelude.{◌<◌, []};
    ghost use Rattle.up_translator.specs.Recording.{HoldsUp};
    ghost use Rattle.translation_passes.specs.Options.{UpOptions};

    ghost Value = { UpOptions };

    ghost view = { λ r. record {
      paired = r.up.holding.paired;
      group = r.up.group;
      order = r.order;
      room = r.up.parsing.room;
    } };

    ghost invariant = { λ r. HoldsUp r.up.holding.paired r.up.parsing.room r.up.group [] r.up
        × (r.up.group < 16) };
}

impl UpRun {
    /// Creates a pass that translates bytes to packets of this group, whose words have this byte order, with
    /// or without paired controllers (own rule). `room` is the most bytes of an exclusive between F0 and F7,
    /// 6 to 1,048,576, for which memory is reserved. Returns `NoMemory` if there isn't enough. No other call
    /// allocates.
    pub fn new(
        alloc: Global,
        group: U4,
        order: Order,
        room: u32,
        paired: bool,
    ) -> Result<UpRun, NoMemory>
        requires least { 6 ≤ room }
        requires most { room ≤ 1048576 }
        ensures { IfOk result (λ run. run
            ≡ record { paired = paired; group = group; order = order; room = room }) }
    {
        let up = Up::new(alloc, group, room, paired)?;
        Ok(UpRun { up, order })
    }
}

// Writes the words of packets to the output, in this byte order.
#[derive(Drop)]
struct WordOutput {
    order: Order,
}

impl PacketWork for WordOutput {
    ghost Accepts = { λ from packet. IsPacket packet };

    ghost IsDone = { λ offset from packet to puts. (to ≡ from) × IsWritten from.order packet puts };

    #[inline(always)]
    fn put<O: Outputs>(
        &mut self,
        packet: &RaisedPacket,
        _offset: u64,
        outputs: &mut O,
    ) -> Result<(), RunEnd> {
        match packet.pair() {
            Some(pair) => put_encoded(&pair, self.order, outputs),
            None => {
                let words = packet.words();
                put_encoded(words.as_slice(), self.order, outputs)
            }
        }
    }

    #[inline(always)]
    fn put_direct<O: Outputs>(
        &mut self,
        message: &DirectMessage,
        offset: u64,
        outputs: &mut O,
    ) -> Result<(), RunEnd> {
        self.put(&RaisedPacket::of_value(message), offset, outputs)
    }

    fn put_part<O: Outputs>(
        &mut self,
        group: U4,
        form: Form,
        bytes: ShortList<u8, 6>,
        offset: u64,
        outputs: &mut O,
    ) -> Result<(), RunEnd> {
        self.put(
            &RaisedPacket::of_exclusive(group, form, bytes),
            offset,
            outputs,
        )
    }
}

// Writes the words of each byte's packets to the output and the byte's lines to the notes, and at the end the
// line for the message that is still open.
#[derive(Drop)]
struct UpEngine {
    up: Up,
    words: WordOutput,
}

impl Engine<u64, u8> for UpEngine {
    ghost work = { λ first. raising (up_options first.up first.words.order) };

    ghost IsReady = { λ first. HoldsRaised (up_options first.up first.words.order) first.up [] };

    ghost UsesLanes = { ⊥ };

    ghost Holds = { λ first now past.
        (now.words ≡ first.words) × HoldsRaised (up_options first.up first.words.order) now.up past };

    ghost Asks = { λ item. Unit {0} };

    ghost AsksAfter = { λ past item. item.0 ≡ length past };

    #[inline(always)]
    fn step<O: Outputs>(&mut self, at: &u64, item: &u8, outputs: &mut O) -> Result<(), RunEnd> {
        exclusives_have_words();
        parsed_bytes_are_the_definition();
        raised_bytes_are_the_definition();
        raised_packets_are_in_range();
        rooms_that_are_not_reached_do_not_matter_in_bytes();
        put_byte(&mut self.up, &mut self.words, *item, *at, outputs)
    }

    fn close<O: Outputs>(&self, outputs: &mut O) -> Result<(), RunEnd> {
        raised_bytes_are_the_definition();
        put_open(&self.up, outputs)
    }

    ghost puts_are_named = { λ first past item puts put.
        raises_named (up_options first.up first.words.order) past item puts put };

    ghost last_puts_are_named = { λ first past puts put.
        last_named first.up.parsing.room first.up.group past puts put };

    ghost starts = { λ first ready. (refl, ready) };

    ghost means = { λ first now past puts holds accepted put.
        raised_means (up_options first.up first.words.order) now.up past puts holds.1 put };
}

impl Runs for UpEngine {
    ghost TakesNone = { λ engine bytes. TakesNothing engine.up bytes };

    #[inline(always)]
    fn take_run<O: Outputs>(&mut self, bytes: &[u8], outputs: &mut O) -> Result<usize, RunEnd> {
        raised_bytes_are_the_definition();
        raised_packets_are_in_range();
        put_front(&mut self.up, &mut self.words, bytes, outputs)
    }
}

/// Translates a stream up, to its end or to the first byte that is refused (M2-104-UM, translation from MIDI
/// 1.0; own rule: bytes that give no packet are listed). Writes the words of each packet to the output. After
/// the packets of a byte, writes the byte's lines to the notes, and at the end the line for the message that
/// is still open. The call doesn't allocate.
///
/// Returns `Refused` for `InputTooLong`, `DataIncrement`, `DataDecrement` and `ExclusiveTooLong`, with the
/// number of bytes before the byte that is refused. Returns `ReadFault`, `OutputFault` or `NoteFault` only if
/// the fault count of that object rose. The lanes are unchanged.
// Never inlined, so that the loops of the other passes keep their registers.
#[inline(never)]
pub fn run_up<S: Source, L: Lanes, W: Sink, N: Sink>(
    engine: UpRun,
    input: &mut S,
    lanes: &mut L,
    output: &mut W,
    notes: &mut N,
) -> RunEnd
    ensures { PassEnds byte_cutting (raising engine)
        (seen S.Source L.Lanes W.Sink N.Sink input.old lanes.old output.old notes.old)
        (seen S.Source L.Lanes W.Sink N.Sink input.new lanes.new output.new notes.new) result }
{
    bytes_are_cut_once();
    raised_packets_mean_the_bytes();
    rooms_that_are_not_reached_do_not_matter_in_bytes();
    let UpRun { up, order } = engine;
    let words = WordOutput { order };
    drive_bytes(
        ByteReader::new(LIMIT),
        UpEngine { up, words },
        input,
        lanes,
        output,
        notes,
    )
}
