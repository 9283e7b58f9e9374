// The endpoint that a peer talks to: its replies to stream messages and to MIDI-CI, and its lines.
ghost use Rattle.std.specs.Prelude.{◌≡◌, ◌≤◌, [], ◌∷◌, ◌++◌, IfOk};
ghost use Rattle.ci_responder.specs.Held.{muid_in};
ghost use Rattle.ci_responder.specs.Keys.{state_in};
ghost use Rattle.endpoint_lines.specs.EndpointLines.{protocol_text};
ghost use Rattle.pass_loop.specs.Each.{for_each};
ghost use Rattle.pass_loop.specs.PassEnds.{PassEnds};
ghost use Rattle.pass_loop.specs.Pass.{seen};
ghost use Rattle.pass_loop.specs.Places.{Puts};
ghost use Rattle.pass_loop.specs.Put.{in_notes};
ghost use Rattle.ump_grammar.specs.Ranges.{IsPacket};
ghost use Rattle.ump_endpoint.specs.Held.{after_packet};
ghost use Rattle.packet_input.specs.Packets.{packet_cutting};
ghost use Rattle.endpoint_pass.specs.Answering.{answering, block_line_of};
ghost use Rattle.endpoint_pass.specs.ForProofs.AnsweringMeans.{answers_last_named, answers_mean, answers_named};
ghost use Rattle.endpoint_pass.specs.Held.{
  HoldsEndpoint,
  IsReadyEndpoint,
  answers_nothing,
  held_closing,
  endpoint_options,
  setup_lines,
};
ghost use Rattle.endpoint_pass.specs.ForProofs.Taking.{TakesPacket};

use crate::lines::put_taken;
use crate::replies::put_replies;
use ci_text::{LinePlace, ProfileStates, put_profiles};
use encoded_packets::EncodedPacket;
use endpoint_lines::{block_line, protocol_line};
use function_blocks::{Block, Setup};
use listing_lines::{OpenExclusives, list_open, refused};
use outside::{Lanes, Sink, Source};
use packet_input::{EncodedReader, packets_are_cut_once};
use packet_words::{Framed, Order};
use pass_loop::{Engine, Outputs, RunEnd, drive};
use small_types::{NoMemory, U4};
use std::alloc::Global;
use std::marker::Model;
use text_lines::Line;
use ump_endpoint::{Endpoint, Key, answers_are_those_of_the_history};
use ump_grammar::Packet;

/// An endpoint that is ready to answer and has all its memory. In contracts its value is the options.
#[derive(Drop)]
pub struct EndpointRun {
    endpoint: Endpoint,
    order: Order,
}

impl Model for EndpointRun {
    ghost use Rattle.std.specs.Prelude.{◌≡◌, ◌≤◌, true};
    ghost use Rattle.function_blocks.specs.Profiles.{profiles_are_distinct};
    ghost use Rattle.ump_endpoint.specs.Held.{new_endpoint};
    ghost use Rattle.endpoint_pass.specs.Options.{EndpointOptions};

    ghost Value = { EndpointOptions };

    ghost view = { λ r. record {
      setup = r.endpoint.held.setup;
      order = r.order;
      room = r.endpoint.held.exclusives.room;
    } };

    ghost invariant = { λ r. (6 ≤ r.endpoint.held.exclusives.room)
        × (profiles_are_distinct r.endpoint.held.setup.profiles ≡ true)
        × (r.endpoint.held ≡ new_endpoint r.endpoint.held.setup r.endpoint.held.exclusives.room) };
}

impl EndpointRun {
    /// Creates an endpoint of this setup. The words that it reads and writes have this byte order. `room` is
    /// the most bytes of an exclusive between F0 and F7, 6 to 1,048,576, for which each group reserves
    /// memory. Returns `NoMemory` if there isn't enough. No other call allocates.
    pub fn new(
        alloc: Global,
        setup: Setup,
        order: Order,
        room: u32,
    ) -> Result<EndpointRun, NoMemory>
        requires least { 6 ≤ room }
        requires most { room ≤ 1048576 }
        ensures { IfOk result (λ run. run ≡ record { setup = setup; order = order; room = room }) }
    {
        let endpoint = Endpoint::new(alloc, setup, room)?;
        Ok(EndpointRun { endpoint, order })
    }
}

// Writes the words of the replies to each packet to the output and the packet's lines to the notes. At the
// end it writes the lines for open exclusives, for the protocol in force, and for the blocks and profiles.
#[derive(Drop)]
struct EndpointEngine {
    endpoint: Endpoint,
    order: Order,
    line: Line,
}

impl OpenExclusives for EndpointEngine {
    ghost table = { λ engine. engine.endpoint.held.exclusives };

    fn begun_at(&self, group: U4) -> Option<u64> {
        self.endpoint.begun_at(group)
    }
}

impl ProfileStates for EndpointEngine {
    ghost states = { λ engine. state_in engine.endpoint.held.responder.states };

    fn profile_is_on(&self, key: &Key) -> Option<bool> {
        self.endpoint.profile_is_on(key)
    }
}

impl Engine<Framed, EncodedPacket> for EndpointEngine {
    ghost work = { λ first. answering (endpoint_options first) };

    ghost IsReady = { λ first. IsReadyEndpoint first };

    ghost UsesLanes = { ⊥ };

    ghost Holds = { λ first now past. HoldsEndpoint first now past };

    ghost Asks = { λ item. IsPacket item.1 };

    ghost AsksAfter = { λ past item. Unit {0} };

    fn step<O: Outputs>(
        &mut self,
        at: &Framed,
        item: &EncodedPacket,
        outputs: &mut O,
    ) -> Result<(), RunEnd> {
        answers_are_those_of_the_history();
        self.take_packet(at.offset, item, outputs)
    }

    fn close<O: Outputs>(&self, outputs: &mut O) -> Result<(), RunEnd> {
        answers_are_those_of_the_history();
        self.put_closing(outputs)
    }

    ghost puts_are_named = { λ first past item puts put.
        answers_named (endpoint_options first) past item puts put };

    ghost last_puts_are_named = { λ first past puts put.
        answers_last_named (endpoint_options first) past puts put };

    ghost starts = { λ first ready. answers_nothing first ready };

    ghost means = { λ first now past puts holds accepted put.
        answers_mean (endpoint_options first) past puts put };
}

// Writes the line for the protocol in force to the notes.
fn put_protocol<O: Outputs>(protocol: u8, outputs: &mut O) -> Result<(), RunEnd>
    ensures { Puts (in_notes (protocol_text protocol) ∷ [])
        (O.places outputs.old) (O.places outputs.new) result }
{
    let line = protocol_line(protocol);
    outputs.put_notes(line.as_slice())
}

// Writes the line for a block, if the block has MIDI-CI.
fn put_block<O: Outputs>(
    endpoint: &Endpoint,
    number: u8,
    block: &Block,
    outputs: &mut O,
) -> Result<(), RunEnd>
    ensures { Puts (block_line_of (muid_in endpoint.now.held.responder.blocks) number block.now)
        (O.places outputs.old) (O.places outputs.new) result }
{
    if !block.has_ci() {
        return Ok(());
    }
    let line = block_line(number, endpoint.muid(number));
    outputs.put_notes(line.as_slice())
}

// Writes the line for each block that has MIDI-CI, with the MUID in force.
fn put_blocks<O: Outputs>(setup: &Setup, endpoint: &Endpoint, outputs: &mut O) -> Result<(), RunEnd>
    ensures { Puts (for_each (block_line_of (muid_in endpoint.now.held.responder.blocks)) 0
        setup.now.blocks) (O.places outputs.old) (O.places outputs.new) result }
{
    let blocks = setup.blocks();
    for (number, block) in blocks.iter().enumerate() {
        put_block(endpoint, number as u8, block, outputs)?;
    }
    Ok(())
}

impl EndpointEngine {
    // Handles one more packet: writes the words of the replies to the output, and the packet's lines to the
    // notes. Most packets are direct messages, which an endpoint ignores, so they aren't decoded.
    #[inline(always)]
    fn take_packet<O: Outputs>(
        &mut self,
        offset: u64,
        packet: &EncodedPacket,
        outputs: &mut O,
    ) -> Result<(), RunEnd>
        requires packet { IsPacket packet.now }
        ensures order { self.new.order ≡ self.old.order }
        ensures held { self.new.endpoint.held ≡ after_packet offset packet.now self.old.endpoint.held }
        ensures takes { TakesPacket self.old.order self.old.endpoint.held offset packet.now
            (O.places outputs.old) (O.places outputs.new) result }
    {
        match packet.direct_message() {
            Some(_) => Ok(()),
            None => self.take_decoded(offset, &packet.decode(), outputs),
        }
    }

    // Does the same as `take_packet` for a decoded packet. It isn't inlined, so that the loop stays small.
    #[inline(never)]
    fn take_decoded<O: Outputs>(
        &mut self,
        offset: u64,
        packet: &Packet,
        outputs: &mut O,
    ) -> Result<(), RunEnd>
        requires packet { IsPacket packet.now }
        ensures order { self.new.order ≡ self.old.order }
        ensures held { self.new.endpoint.held ≡ after_packet offset packet.now self.old.endpoint.held }
        ensures takes { TakesPacket self.old.order self.old.endpoint.held offset packet.now
            (O.places outputs.old) (O.places outputs.new) result }
    {
        match self.endpoint.packet(packet, offset) {
            Ok(taken) => {
                put_replies(self.endpoint.replies(), self.order, outputs)?;
                put_taken(&mut self.line, offset, packet, &taken, outputs)
            }
            Err(bad) => Err(refused(bad, offset)),
        }
    }

    // Writes the lines for the blocks and for the profiles.
    fn put_setup<O: Outputs>(&self, outputs: &mut O) -> Result<(), RunEnd>
        ensures { Puts (setup_lines self.now.endpoint.held)
            (O.places outputs.old) (O.places outputs.new) result }
    {
        let setup = self.endpoint.setup();
        put_blocks(setup, &self.endpoint, outputs)?;
        put_profiles(setup, self, LinePlace::Notes, outputs)
    }

    // Writes the line for the protocol in force, and the lines for the blocks and profiles.
    fn put_state<O: Outputs>(&self, outputs: &mut O) -> Result<(), RunEnd>
        ensures { Puts (in_notes (protocol_text self.now.endpoint.held.protocol) ∷ []
            ++ setup_lines self.now.endpoint.held) (O.places outputs.old) (O.places outputs.new) result }
    {
        put_protocol(self.endpoint.protocol(), outputs)?;
        self.put_setup(outputs)
    }

    // Writes the lines for the exclusives that are open, for the protocol in force, and for the blocks and
    // profiles.
    fn put_closing<O: Outputs>(&self, outputs: &mut O) -> Result<(), RunEnd>
        ensures { Puts (held_closing self.now.endpoint.held)
            (O.places outputs.old) (O.places outputs.new) result }
    {
        list_open(self, outputs)?;
        self.put_state(outputs)
    }
}

/// Answers the packets of a peer as an endpoint does, to the end of the recording or to the first packet that
/// is refused (M2-104-UM, UMP stream messages; M2-101-UM; the lines are own rule). Writes the words of the
/// replies to each stream packet, and to each MIDI-CI message that a packet ends, to the output, with one
/// write for each packet of a reply. Then writes the lines of the peer's packet to the notes. At the end,
/// writes the lines for the exclusives that are open, for the protocol in force, and for the blocks with
/// MIDI-CI and the profiles. Packets of other kinds have no reply and no line. The call doesn't allocate.
///
/// Returns `Refused` for `Truncated`, `InputTooLong`, `BadCount`, `HighBit` and `ExclusiveTooLong`, with the
/// number of bytes before the packet or end that is refused. Returns `ReadFault`, `OutputFault` or
/// `NoteFault` only if the fault count of that object rose. The lanes are unchanged.
// Never inlined, so that the loops of the other passes keep their registers.
#[inline(never)]
pub fn run_endpoint<S: Source, L: Lanes, W: Sink, N: Sink>(
    engine: EndpointRun,
    input: &mut S,
    lanes: &mut L,
    output: &mut W,
    notes: &mut N,
) -> RunEnd
    ensures { PassEnds (packet_cutting engine.order) (answering engine)
        (seen S.Source L.Lanes W.Sink N.Sink input.old lanes.old output.old notes.old)
        (seen S.Source L.Lanes W.Sink N.Sink input.new lanes.new output.new notes.new) result }
{
    packets_are_cut_once();
    let EndpointRun { endpoint, order } = engine;
    let engine = EndpointEngine {
        endpoint,
        order,
        line: Line::new(),
    };
    let reader = EncodedReader::new(order);
    drive(reader, engine, input, lanes, output, notes)
}
