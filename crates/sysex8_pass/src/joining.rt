// Joins packets to 8-bit exclusives.
ghost use Rattle.std.specs.Prelude.{◌≡◌, ◌≤◌, IfOk, Some, None, true};
ghost use Rattle.packet_words.specs.Words.{IsWhole};
ghost use Rattle.ump_grammar.specs.WordFields.{type_of};
ghost use Rattle.ump_grammar.specs.Ranges.{IsPacket};
ghost use Rattle.pass_loop.specs.PassEnds.{PassEnds};
ghost use Rattle.pass_loop.specs.Pass.{Takes, seen};
ghost use Rattle.pass_loop.specs.Places.{Puts};
ghost use Rattle.packet_input.specs.Packets.{packet_cutting};
ghost use Rattle.sysex8_streams.specs.Fed8.{fed8_view};
ghost use Rattle.sysex8_streams.specs.History.{key_of};
ghost use Rattle.sysex8_streams.specs.Table.{answer8_to};
ghost use Rattle.sysex8_pass.specs.Held.{IsReady8, Holds8, data8_after, nothing_held, packet_after};
ghost use Rattle.sysex8_pass.specs.Held.{starts_in};
ghost use Rattle.sysex8_pass.specs.Joining.{
  answer_puts,
  answer_refusal,
  cut_lines,
  cut_puts,
  data8_puts,
  data8_refusal,
  group_puts,
  joining,
  listed,
  open_put,
  open_puts,
  packet_puts,
  packet_refusal,
  piece_puts,
  whole_puts,
};
ghost use Rattle.sysex8_pass.specs.Lines.{kind_text, whole_text};
ghost use Rattle.sysex8_pass.specs.Options.{options8};
ghost use Rattle.sysex8_pass.specs.Parts.{part_in};
ghost use Rattle.sysex8_pass.specs.ForProofs.JoiningMeans.{joins_mean, joins_named, open_named};

use crate::lines::{Kind8, kind_line, whole_line};
use listing_lines::refused;
use listing_terms::BadStep;
use outside::{Lanes, Sink, Source};
use packet_input::{PacketReader, packets_are_cut_once};
use packet_words::{Framed, Order, Words};
use pass_loop::{Engine, Outputs, RunEnd, drive};
use small_types::{NoMemory, U4};
use std::alloc::Global;
use std::marker::Model;
use sysex8_streams::{Fed8, Streams, fed_streams_are_the_definition, read8};
use ump_grammar::Packet;

/// A join of 8-bit exclusives that is ready to begin and has all its memory. In contracts its value is the
/// options.
#[derive(Drop)]
pub struct Sysex8Run {
    streams: Streams,
    order: Order,
}

impl Model for Sysex8Run {
    ghost use Rattle.std.specs.Prelude.{◌≡◌, ◌≤◌, length};
    ghost use Rattle.sysex8_streams.specs.Table.{empty_table8};
    ghost use Rattle.sysex8_pass.specs.Options.{Sysex8Options};

    ghost Value = { Sysex8Options };

    ghost view = { λ r. record {
      slots = length r.streams.slots;
      order = r.order;
      room = r.streams.room;
    } };

    ghost invariant = { λ r. (r.streams ≡ empty_table8 (length r.streams.slots) r.streams.room)
        × (1 ≤ length r.streams.slots) × (13 ≤ r.streams.room) };
}

impl Sysex8Run {
    /// Creates a join of 8-bit exclusives, of which at most `slots`, 1 to 64, are open at once, in a
    /// recording whose words have this byte order. `room` is the most bytes of an exclusive, 13 to 1,048,576
    /// (own rules). Allocates memory for each slot. Returns `NoMemory` if there isn't enough. No other call
    /// allocates.
    pub fn new(alloc: Global, slots: u8, order: Order, room: u32) -> Result<Sysex8Run, NoMemory>
        requires some { 1 ≤ slots }
        requires few { slots ≤ 64 }
        requires least { 13 ≤ room }
        requires most { room ≤ 1048576 }
        ensures { IfOk result (λ engine. engine ≡ record { slots = slots; order = order; room = room }) }
    {
        let streams = Streams::new(alloc, slots, room)?;
        Ok(Sysex8Run { streams, order })
    }
}

// Writes the bytes of each whole exclusive to its group's lane, and a line for it to the notes. It also
// writes the lines for packets that complete no exclusive, and at the end those for the exclusives that are
// still open.
#[derive(Drop)]
struct Sysex8Engine {
    streams: Streams,
}

impl Engine<Framed, Packet> for Sysex8Engine {
    ghost work = { λ first. joining (options8 first.streams) };

    ghost IsReady = { λ first. IsReady8 first.streams };

    ghost UsesLanes = { Unit {0} };

    ghost Holds = { λ first now past. Holds8 first.streams now.streams past };

    ghost Asks = { λ item. IsPacket item.1 };

    ghost AsksAfter = { λ past item. Unit {0} };

    fn step<O: Outputs>(
        &mut self,
        at: &Framed,
        item: &Packet,
        outputs: &mut O,
    ) -> Result<(), RunEnd> {
        take_packet(&mut self.streams, item, at.offset, outputs)
    }

    fn close<O: Outputs>(&self, outputs: &mut O) -> Result<(), RunEnd> {
        list_open(&self.streams, outputs)
    }

    ghost puts_are_named = { λ first past item puts put.
        joins_named (options8 first.streams) past item puts put };

    ghost last_puts_are_named = { λ first past puts put. open_named (options8 first.streams) past puts put };

    ghost starts = { λ first ready. nothing_held first.streams ready };

    ghost means = { λ first now past puts holds accepted put.
        joins_mean first.streams now.streams past puts holds put };
}

/// Joins the 8-bit exclusives of a recording, to its end or to the first packet that is refused (M2-104-UM,
/// system exclusive 8-bit messages; the listing is an own rule). It writes
/// - the bytes of each whole exclusive to its group's lane, unless the exclusive has none, and then a line
///   for it to the notes;
/// - a line for each part that is left out, is stray, cuts an exclusive off or finds no slot;
/// - at the end a line for each exclusive that is still open, in order of group, then stream.
///
/// It writes nothing for other packets. The call doesn't allocate.
///
/// Returns `Refused` for `Truncated`, `InputTooLong`, `BadCount`, `HighBit`, or `ExclusiveTooLong` if an
/// exclusive has more bytes than `room`, with the number of bytes before the packet or end that is refused.
/// Returns `ReadFault`, `LaneFault` or `NoteFault` only if the fault count of that object rose. The output is
/// unchanged.
pub fn run_sysex8<S: Source, L: Lanes, W: Sink, N: Sink>(
    engine: Sysex8Run,
    input: &mut S,
    lanes: &mut L,
    output: &mut W,
    notes: &mut N,
) -> RunEnd
    requires begun { L.begun lanes.old ≡ true }
    ensures { PassEnds (packet_cutting engine.order) (joining engine)
        (seen S.Source L.Lanes W.Sink N.Sink input.old lanes.old output.old notes.old)
        (seen S.Source L.Lanes W.Sink N.Sink input.new lanes.new output.new notes.new) result }
{
    packets_are_cut_once();
    fed_streams_are_the_definition();
    let Sysex8Run { streams, order } = engine;
    let reader = PacketReader::new(order);
    drive(
        reader,
        Sysex8Engine { streams },
        input,
        lanes,
        output,
        notes,
    )
}

// Writes the line with this kind, offset and group.
fn put_kind<O: Outputs>(kind: Kind8, offset: u64, group: U4, outputs: &mut O) -> Result<(), RunEnd>
    ensures { Puts (listed (kind_text kind offset group))
        (O.places outputs.old) (O.places outputs.new) result }
{
    let line = kind_line(kind, offset, group);
    outputs.put_notes(line.as_slice())
}

// Writes the bytes of a whole exclusive, unless there are none.
fn put_piece<O: Outputs>(group: U4, bytes: &[u8], outputs: &mut O) -> Result<(), RunEnd>
    requires begun { (O.places outputs.old).begun ≡ true }
    ensures { Puts (piece_puts group bytes.now) (O.places outputs.old) (O.places outputs.new) result }
{
    if bytes.is_empty() {
        Ok(())
    } else {
        outputs.put_lane(group, bytes)
    }
}

// The place of a part of an 8-bit exclusive: the offset of its packet, its group and its stream id.
#[derive(Clone, Copy)]
struct PartPlace {
    offset: u64,
    group: U4,
    stream: u8,
}

// Writes the line for a whole exclusive.
fn put_size<O: Outputs>(place: PartPlace, size: usize, outputs: &mut O) -> Result<(), RunEnd>
    ensures { Puts (listed (whole_text place.offset place.group place.stream size))
        (O.places outputs.old) (O.places outputs.new) result }
{
    let line = whole_line(place.offset, place.group, place.stream, size);
    outputs.put_notes(line.as_slice())
}

// Writes the bytes of a whole exclusive, unless there are none, and the line for it.
fn put_whole<O: Outputs>(place: PartPlace, bytes: &[u8], outputs: &mut O) -> Result<(), RunEnd>
    requires begun { (O.places outputs.old).begun ≡ true }
    ensures { Puts (whole_puts place.offset place.group place.stream bytes.now)
        (O.places outputs.old) (O.places outputs.new) result }
{
    put_piece(place.group, bytes, outputs)?;
    put_size(place, bytes.len(), outputs)
}

// Writes the line for an exclusive that is cut off, and the line for the whole one that cuts it off.
fn put_cut_lines<O: Outputs>(
    cut_at: u64,
    place: PartPlace,
    size: usize,
    outputs: &mut O,
) -> Result<(), RunEnd>
    ensures { Puts (cut_lines cut_at place.offset place.group place.stream size)
        (O.places outputs.old) (O.places outputs.new) result }
{
    put_kind(Kind8::Cut, cut_at, place.group, outputs)?;
    put_size(place, size, outputs)
}

// Writes the bytes of a whole exclusive, unless there are none, then the line for the exclusive that it cuts
// off, and then its own line.
fn put_cut<O: Outputs>(
    cut_at: u64,
    place: PartPlace,
    bytes: &[u8],
    outputs: &mut O,
) -> Result<(), RunEnd>
    requires begun { (O.places outputs.old).begun ≡ true }
    ensures { Puts (cut_puts cut_at place.offset place.group place.stream bytes.now)
        (O.places outputs.old) (O.places outputs.new) result }
{
    put_piece(place.group, bytes, outputs)?;
    put_cut_lines(cut_at, place, bytes.len(), outputs)
}

// Writes the result of joining a part to a stream.
fn put_answer<O: Outputs>(fed: &Fed8<'_>, place: PartPlace, outputs: &mut O) -> Result<(), RunEnd>
    requires begun { (O.places outputs.old).begun ≡ true }
    ensures { Takes (answer_refusal place.offset (fed8_view fed.now))
        (answer_puts place.offset place.group place.stream (fed8_view fed.now))
        (O.places outputs.old) (O.places outputs.new) result }
{
    match *fed {
        Fed8::Held => Ok(()),
        Fed8::Whole(whole) => put_whole(place, whole, outputs),
        Fed8::Stray => put_kind(Kind8::Stray, place.offset, place.group, outputs),
        Fed8::Restarted { cut_at } => put_kind(Kind8::Cut, cut_at, place.group, outputs),
        Fed8::RestartedWhole { cut_at, whole } => { put_cut(cut_at, place, whole, outputs) }
        Fed8::TooLong => Err(refused(BadStep::ExclusiveTooLong, place.offset)),
        Fed8::Full => put_kind(Kind8::Full, place.offset, place.group, outputs),
    }
}

// Handles one packet of type 5: writes the result of its part, or the line for a packet without a part.
fn take_data8<O: Outputs>(
    streams: &mut Streams,
    group: U4,
    words: &Words,
    offset: u64,
    outputs: &mut O,
) -> Result<(), RunEnd>
    requires whole { IsWhole words.now }
    requires kind { type_of words.now ≡ 0x5 }
    requires begun { (O.places outputs.old).begun ≡ true }
    ensures after { streams.new ≡ data8_after offset (part_in words.now) streams.old }
    ensures takes { Takes (data8_refusal (answer8_to streams.old) offset (part_in words.now))
        (data8_puts (answer8_to streams.old) offset group (part_in words.now))
        (O.places outputs.old) (O.places outputs.new) result }
{
    match read8(words) {
        Some(part) => {
            let place = PartPlace {
                offset,
                group: part.group,
                stream: part.stream,
            };
            let fed = streams.feed8(&part, offset);
            put_answer(&fed, place, outputs)
        }
        None => put_kind(Kind8::Other, offset, group, outputs),
    }
}

// Handles one packet. For a packet that isn't of type 5, it writes nothing.
fn take_packet<O: Outputs>(
    streams: &mut Streams,
    packet: &Packet,
    offset: u64,
    outputs: &mut O,
) -> Result<(), RunEnd>
    requires packet { IsPacket packet.now }
    requires begun { (O.places outputs.old).begun ≡ true }
    ensures after { streams.new ≡ packet_after offset packet.now streams.old }
    ensures takes { Takes (packet_refusal (answer8_to streams.old) offset packet.now)
        (packet_puts (answer8_to streams.old) offset packet.now)
        (O.places outputs.old) (O.places outputs.new) result }
{
    match packet {
        Packet::Data8 { group, words } => { take_data8(streams, *group, words, offset, outputs) }
        _ => Ok(()),
    }
}

// Lists the exclusive of a stream, if it is still open.
fn list_stream<O: Outputs>(
    streams: &Streams,
    group: U4,
    stream: u8,
    outputs: &mut O,
) -> Result<(), RunEnd>
    ensures { Puts (open_put group (starts_in streams.now (key_of group stream)))
        (O.places outputs.old) (O.places outputs.new) result }
{
    match streams.begun8_at(group, stream) {
        Some(start) => put_kind(Kind8::Open, start, group, outputs),
        None => Ok(()),
    }
}

// Lists the exclusives of a group that are still open, in order of stream.
fn list_group<O: Outputs>(streams: &Streams, group: U4, outputs: &mut O) -> Result<(), RunEnd>
    ensures { Puts (group_puts (starts_in streams.now) group)
        (O.places outputs.old) (O.places outputs.new) result }
{
    for number in 0..256u32 {
        list_stream(streams, group, number as u8, outputs)?;
    }
    Ok(())
}

// Lists the exclusives that are still open, in order of group, then stream.
fn list_open<O: Outputs>(streams: &Streams, outputs: &mut O) -> Result<(), RunEnd>
    ensures { Puts (open_puts (starts_in streams.now)) (O.places outputs.old) (O.places outputs.new) result }
{
    for number in 0..16u32 {
        list_group(streams, U4::low_bits(number), outputs)?;
    }
    Ok(())
}
