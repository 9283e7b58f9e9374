// Shows packets as lines.
ghost use Rattle.std.specs.Prelude.{◌≡◌, ◌≤◌, ◌∷◌, [], Ok, Some, None, length, is_some, IfOk, IfErr, OnOk};
ghost use Rattle.ump_grammar.specs.Ranges.{IsPacket};
ghost use Rattle.down_translator.specs.Held.{with_part_of};
ghost use Rattle.midi_meaning.specs.Messages.{raised};
ghost use Rattle.midi_meaning.specs.Parts.{part_of};
ghost use Rattle.voice_state.specs.States.{first_states};
ghost use Rattle.sysex_groups.specs.Table.{empty_table};
ghost use Rattle.pass_loop.specs.PassEnds.{PassEnds};
ghost use Rattle.pass_loop.specs.Pass.{TakesIn, seen};
ghost use Rattle.pass_loop.specs.Places.{Puts};
ghost use Rattle.pass_loop.specs.Put.{in_output};
ghost use Rattle.midi_lines.specs.PacketLines.{packet_text};
ghost use Rattle.listing_lines.specs.Refusal.{refusal_by};
ghost use Rattle.show_pass.specs.KeptState.{KeepsPacket, StandsFor, ended_in};
ghost use Rattle.packet_input.specs.Packets.{packet_cutting};
ghost use Rattle.show_pass.specs.ForProofs.ShowMeans.{shown_packets_mean};
ghost use Rattle.show_pass.specs.ShowPackets.{HoldsShow, IsReadyShow, bad_join, packet_line_options, showing, shows_last_named, shows_named, shows_nothing};
ghost use Rattle.show_pass.specs.Texts.{AreOfTheirKinds, line_of_text, text_of, text_puts, texts_after};

use crate::kept_state::{facts_of, keep_packet, put_facts};
use crate::texts::{Texts, put_text};
use down_translator::laws::{spelled_packets_are_in_range, what_is_held_is_the_definition};
use listing_lines::refused;
use midi_lines::{Line, fill_packet_line};
use midi_meaning::BadStep;
use midi_meaning::laws::{joined_bytes_know_no_offsets, rooms_that_are_not_passed_do_not_matter};
use outside::{Lanes, Sink, Source};
use packet_input::{PacketReader, packets_are_cut_once};
use packet_words::{Framed, Order};
use pass_loop::{Engine, Outputs, RunEnd, drive};
use small_types::{NoMemory, U4};
use std::alloc::Global;
use sysex_groups::{Fed, Groups};
use system_stream::joined_parts_are_the_definition;
use ump_grammar::Packet;
use voice_state::VoiceState;
use voice_state::state_laws::packets_are_kept;

// Writes a line for each packet of a recording, and one for each text that stream packets carry. If there is
// a state, it writes the lines of its facts at the end.
#[derive(Drop)]
struct ShowPackets {
    groups: Groups,
    texts: Texts,
    line: Line,
    state: Option<VoiceState>,
    alloc: Global,
}

impl Engine<Framed, Packet> for ShowPackets {
    ghost work = { λ first. showing (packet_line_options first.groups first.state) };

    ghost IsReady = { λ first. IsReadyShow first.groups first.texts first.state };

    ghost UsesLanes = { ⊥ };

    ghost Holds = { λ first now past.
        HoldsShow first.groups now.groups now.texts first.state now.state past };

    ghost Asks = { λ item. IsPacket item.1 };

    ghost AsksAfter = { λ past item. Unit {0} };

    fn step<O: Outputs>(
        &mut self,
        at: &Framed,
        item: &Packet,
        outputs: &mut O,
    ) -> Result<(), RunEnd> {
        what_is_held_is_the_definition();
        spelled_packets_are_in_range();
        joined_parts_are_the_definition();
        rooms_that_are_not_passed_do_not_matter();
        joined_bytes_know_no_offsets();
        packets_are_kept();
        self.take_packet(at, item, outputs)
    }

    fn close<O: Outputs>(&self, outputs: &mut O) -> Result<(), RunEnd> {
        match facts_of(&self.state, self.alloc) {
            Ok(facts) => put_facts(&facts, outputs),
            Err(NoMemory) => Err(RunEnd::NoMemory),
        }
    }

    ghost puts_are_named = { λ first past item puts put.
        shows_named (packet_line_options first.groups first.state) past item puts put };

    ghost last_puts_are_named = { λ first past puts put.
        shows_last_named (packet_line_options first.groups first.state) past puts put };

    ghost starts = { λ first ready. shows_nothing first.groups first.texts first.state ready };

    ghost means = { λ first now past puts holds accepted put.
        shown_packets_mean (packet_line_options first.groups first.state) past puts put };
}

/// Writes the lines of a recording, whose words have this byte order, to its end or to the first packet that
/// is refused, and if there is a state, the lines of its facts. The groups must have nothing open, and the
/// state must be new.
#[inline(never)]
pub(crate) fn show_packets<S: Source, L: Lanes, W: Sink, N: Sink>(
    groups: Groups,
    state: Option<VoiceState>,
    alloc: Global,
    order: Order,
    input: &mut S,
    lanes: &mut L,
    output: &mut W,
    notes: &mut N,
) -> RunEnd
    requires empty { groups ≡ empty_table groups.room }
    requires least { 6 ≤ groups.room }
    requires new { StandsFor raised state (first_states raised) }
    ensures { PassEnds (packet_cutting order)
        (showing (record { state = is_some state; order = order; room = groups.room }))
        (seen S.Source L.Lanes W.Sink N.Sink input.old lanes.old output.old notes.old)
        (seen S.Source L.Lanes W.Sink N.Sink input.new lanes.new output.new notes.new) result }
{
    packets_are_cut_once();
    let reader = PacketReader::new(order);
    let engine = ShowPackets {
        groups,
        texts: Texts::new(),
        line: Line::new(),
        state,
        alloc,
    };
    drive(reader, engine, input, lanes, output, notes)
}

// Joins one more packet to the exclusives. Returns the group of the exclusive that the packet ends, if it
// ends one. An exclusive that is longer than the limit is refused.
fn join(groups: &mut Groups, packet: &Packet, offset: u64) -> Result<Option<U4>, BadStep>
    requires { IsPacket packet.now }
    ensures behind { groups.new ≡ with_part_of (part_of offset packet.now) groups.old }
    ensures ended { IfOk result (λ ended.
        (bad_join groups.old packet.now ≡ None) × (ended ≡ ended_in groups.old packet.now)) }
    ensures bad { IfErr result (λ bad. bad_join groups.old packet.now ≡ Some bad) }
{
    match packet {
        Packet::Exclusive { group, form, bytes } => {
            match groups.feed(*group, *form, bytes.as_slice(), offset) {
                Fed::TooLong => Err(BadStep::ExclusiveTooLong),
                Fed::Whole(_) | Fed::RestartedWhole { .. } => Ok(Some(*group)),
                _ => Ok(None),
            }
        }
        _ => Ok(None),
    }
}

// Writes the line for one more packet.
fn put_packet<O: Outputs>(
    line: &mut Line,
    framed: &Framed,
    packet: &Packet,
    outputs: &mut O,
) -> Result<(), RunEnd>
    requires { IsPacket packet.now }
    ensures { Puts (in_output (packet_text packet.now framed.now.words framed.now.offset) ∷ [])
        (O.places outputs.old) (O.places outputs.new) result }
{
    fill_packet_line(line, packet, framed.words.as_slice(), framed.offset);
    outputs.put_output(line.as_slice())
}

// Writes the line for one more packet, and then the line for the text that it ends, if it ends one.
fn put_lines<O: Outputs>(
    texts: &mut Texts,
    line: &mut Line,
    framed: &Framed,
    packet: &Packet,
    outputs: &mut O,
) -> Result<(), RunEnd>
    requires packet { IsPacket packet.now }
    requires kinds { AreOfTheirKinds texts.old }
    ensures after { result ≡ Ok tt → texts.new ≡ texts_after (text_of packet.now) texts.old }
    ensures puts { Puts (in_output (packet_text packet.now framed.now.words framed.now.offset)
        ∷ text_puts (line_of_text (text_of packet.now) texts.old))
        (O.places outputs.old) (O.places outputs.new) result }
{
    put_packet(line, framed, packet, outputs)?;
    put_text(texts, line, packet, outputs)
}

impl ShowPackets {
    // Handles one more packet: updates the state if there is one, and writes the packet's lines. If the
    // packet is refused, it does neither.
    fn take_packet<O: Outputs>(
        &mut self,
        framed: &Framed,
        packet: &Packet,
        outputs: &mut O,
    ) -> Result<(), RunEnd>
        requires packet { IsPacket packet.now }
        requires kinds { AreOfTheirKinds self.old.texts }
        ensures groups { self.new.groups ≡
            with_part_of (part_of framed.now.offset packet.now) self.old.groups }
        ensures texts { result ≡ Ok tt → self.new.texts ≡ texts_after (text_of packet.now) self.old.texts }
        ensures state { result ≡ Ok tt →
            KeepsPacket (ended_in self.old.groups packet.now) packet.now self.old.state self.new.state }
        ensures takes { TakesIn (is_some self.old.state)
            (refusal_by (bad_join self.old.groups packet.now) framed.now.offset)
            (in_output (packet_text packet.now framed.now.words framed.now.offset)
            ∷ text_puts (line_of_text (text_of packet.now) self.old.texts))
            (O.places outputs.old) (O.places outputs.new) result }
    {
        match join(&mut self.groups, packet, framed.offset) {
            Ok(ended) => match keep_packet(&mut self.state, packet, ended) {
                Ok(()) => put_lines(&mut self.texts, &mut self.line, framed, packet, outputs),
                Err(NoMemory) => Err(RunEnd::NoMemory),
            },
            Err(bad) => Err(refused(bad, framed.offset)),
        }
    }
}
