// Translates packets to MIDI 1.0 bytes.
ghost use Rattle.std.specs.Prelude.{◌≡◌, ◌<◌, ◌≤◌, ◌∷◌, [], IfOk, MatchOption, false, true};
ghost use Rattle.std.specs.Option.{option_map, option_to_list};
ghost use Rattle.sysex_groups.specs.Table.{Table, begun_in};
ghost use Rattle.ump_grammar.specs.declared.packet.Packet.{Packet};
ghost use Rattle.ump_grammar.specs.Ranges.{IsPacket};
ghost use Rattle.down_translator.specs.Held.{down_after};
ghost use Rattle.down_translator.specs.KeptLanes.{style_in};
ghost use Rattle.pass_loop.specs.PassEnds.{PassEnds};
ghost use Rattle.pass_loop.specs.Pass.{seen};
ghost use Rattle.pass_loop.specs.Places.{Puts};
ghost use Rattle.pass_loop.specs.Put.{in_lane};
ghost use Rattle.midi_meaning.specs.Listing.{groups};
ghost use Rattle.down_translator.specs.Lowered.{attribute_line, lowered_bytes, shortened_bytes, unless_running};
ghost use Rattle.down_translator.specs.Recording.{pair_put};
ghost use Rattle.listing_lines.specs.Lines.{line_puts};
ghost use Rattle.translation_passes.specs.Down.{Carries, HoldsDown, IsReadyDown, carrying, goes_at_once, lowered_puts, shortened_puts, down_options, pair_puts, puts_for};
ghost use Rattle.listing_lines.specs.Open.{open_line, open_puts};
ghost use Rattle.translation_passes.specs.ForProofs.DownMeans.{carries_named, carries_nothing, carries_means, ends_named};
ghost use Rattle.packet_input.specs.Packets.{packet_cutting};

use down_translator::laws::{
    one_more_accepted_packet_adds_its_pair_and_line, spelled_packets_are_in_range,
    what_is_held_is_the_definition,
};
use down_translator::{Carried, Down, Kind, Listed, LoweredMessage, ShortenedMessage, Style};
use encoded_packets::EncodedPacket;
use listing_lines::{OpenExclusives, list_open, put_line, put_listed, refused};
use midi_meaning::style_laws::styled_pairs_are_a_translation;
use outside::{Lanes, Sink, Source};
use packet_input::{EncodedReader, packets_are_cut_once};
use packet_words::{Framed, Order};
use pass_loop::{Engine, Outputs, RunEnd, drive};
use small_types::{NoMemory, U4};
use std::alloc::Global;
use std::marker::Model;

/// A translation down that is ready to begin and has all its memory. In contracts its value is the options.
#[derive(Drop)]
pub struct DownRun {
    down: Down,
    order: Order,
}

impl Model for DownRun {
    ghost use Rattle.std.specs.Prelude.{◌≡◌, ◌≤◌};
    ghost use Rattle.down_translator.specs.Held.{limit_of, new_down, paired_of, style_of};
    ghost use Rattle.translation_passes.specs.Options.{DownOptions};

    ghost Value = { DownOptions };

    ghost view = { λ r. record {
      paired = paired_of r.down;
      style = style_of r.down;
      order = r.order;
      room = limit_of r.down;
    } };

    ghost invariant = { λ r. (r.down ≡ new_down (paired_of r.down) (style_of r.down) (limit_of r.down))
        × (6 ≤ limit_of r.down) };
}

impl DownRun {
    /// Creates a pass that translates a recording in this word order and style, with or without paired
    /// controllers (own rule). `room` is the most bytes of an exclusive between F0 and F7, 6 to 1,048,576,
    /// for which each group reserves memory. Returns `NoMemory` if there isn't enough. No other call
    /// allocates.
    pub fn new(
        alloc: Global,
        style: Style,
        order: Order,
        room: u32,
        paired: bool,
    ) -> Result<DownRun, NoMemory>
        requires least { 6 ≤ room }
        requires most { room ≤ 1048576 }
        ensures { IfOk result (λ engine. engine
            ≡ record { paired = paired; style = style_in style; order = order; room = room }) }
    {
        let down = Down::new(alloc, room, style, paired)?;
        Ok(DownRun { down, order })
    }
}

// Writes the piece of each packet that is carried to its group's lane, and the line of each packet that is
// listed to the notes. At the end it writes the lines for the exclusives that are still open.
#[derive(Drop)]
struct DownEngine {
    down: Down,
}

impl OpenExclusives for DownEngine {
    ghost table = { λ engine. engine.down.exclusives };

    fn begun_at(&self, group: U4) -> Option<u64> {
        self.down.begun_at(group)
    }
}

impl Engine<Framed, EncodedPacket> for DownEngine {
    ghost work = { λ first. carrying (down_options first.down) };

    ghost IsReady = { λ first. IsReadyDown first.down };

    ghost UsesLanes = { Unit {0} };

    ghost Holds = { λ first now past. HoldsDown first.down now.down past };

    ghost Asks = { λ item. IsPacket item.1 };

    ghost AsksAfter = { λ past item. Unit {0} };

    fn step<O: Outputs>(
        &mut self,
        at: &Framed,
        item: &EncodedPacket,
        outputs: &mut O,
    ) -> Result<(), RunEnd> {
        what_is_held_is_the_definition();
        one_more_accepted_packet_adds_its_pair_and_line();
        spelled_packets_are_in_range();
        carry(&mut self.down, item, at.offset, outputs)
    }

    fn close<O: Outputs>(&self, outputs: &mut O) -> Result<(), RunEnd> {
        what_is_held_is_the_definition();
        list_open(self, outputs)
    }

    ghost puts_are_named = { λ first past item puts put.
        carries_named (down_options first.down) past item puts put };

    ghost last_puts_are_named = { λ first past puts put. ends_named (down_options first.down) past puts put };

    ghost starts = { λ first ready. carries_nothing first.down ready };

    ghost means = { λ first now past puts holds accepted put.
        carries_means first.down now.down past puts holds put };
}

/// Translates a recording down, to its end or to the first packet that is refused (M2-104-UM, default
/// translation; own rule: packets that it leaves out are listed). Writes the piece of each packet that is
/// carried to its group's lane, in the style of the translation. Writes the line of each packet that is
/// listed to the notes, and at the end the lines for the exclusives that are still open. The call doesn't
/// allocate.
///
/// Returns `Refused` for `Truncated`, `InputTooLong`, `BadCount`, `HighBit`, `DataIncrement`, `DataDecrement`
/// and `ExclusiveTooLong`, with the number of bytes before the packet or end that is refused. Returns
/// `ReadFault`, `LaneFault` or `NoteFault` only if the fault count of that object rose. The output is
/// unchanged.
// Never inlined, so that the loops of the other passes keep their registers.
#[inline(never)]
pub fn run_down<S: Source, L: Lanes, W: Sink, N: Sink>(
    engine: DownRun,
    input: &mut S,
    lanes: &mut L,
    output: &mut W,
    notes: &mut N,
) -> RunEnd
    requires begun { L.begun lanes.old ≡ true }
    ensures { PassEnds (packet_cutting engine.order) (carrying engine)
        (seen S.Source L.Lanes W.Sink N.Sink input.old lanes.old output.old notes.old)
        (seen S.Source L.Lanes W.Sink N.Sink input.new lanes.new output.new notes.new) result }
{
    styled_pairs_are_a_translation();
    packets_are_cut_once();
    let DownRun { down, order } = engine;
    let reader = EncodedReader::new(order);
    drive(reader, DownEngine { down }, input, lanes, output, notes)
}

// Writes a piece to its lane, unless the piece is empty.
fn put_piece<O: Outputs>(carried: &Carried<'_>, outputs: &mut O) -> Result<(), RunEnd>
    requires begun { (O.places outputs.old).begun ≡ true }
    ensures { Puts (pair_puts (pair_put carried.now)) (O.places outputs.old) (O.places outputs.new) result }
{
    if carried.piece.is_empty() {
        Ok(())
    } else {
        outputs.put_lane(carried.lane(), carried.piece)
    }
}

// Writes a piece to its lane, unless the piece is empty, and then its line of the listing, if there is one.
fn put_carried<O: Outputs>(carried: &Carried<'_>, outputs: &mut O) -> Result<(), RunEnd>
    requires begun { (O.places outputs.old).begun ≡ true }
    ensures { Puts (puts_for carried.now) (O.places outputs.old) (O.places outputs.new) result }
{
    put_piece(carried, outputs)?;
    put_listed(carried.listed(), outputs)
}

// Translates down a packet that `carry_at_once` doesn't handle: writes its piece to its group's lane, and its
// line to the notes.
fn carry_encoded<O: Outputs>(
    down: &mut Down,
    packet: &EncodedPacket,
    offset: u64,
    outputs: &mut O,
) -> Result<(), RunEnd>
    requires packet { IsPacket packet.now }
    requires begun { (O.places outputs.old).begun ≡ true }
    ensures after { down.new ≡ down_after offset packet.now down.old }
    ensures carries { Carries down.old offset packet.now
        (O.places outputs.old) (O.places outputs.new) result }
{
    match down.encoded(packet, offset) {
        Ok(carried) => put_carried(&carried, outputs),
        Err(bad) => Err(refused(bad, offset)),
    }
}

// Writes a message of one byte. Each of these arrays has its own function, because an array is cleared when
// its function begins.
#[inline(always)]
fn put_one<O: Outputs>(lane: U4, first: u8, outputs: &mut O) -> Result<(), RunEnd>
    requires begun { (O.places outputs.old).begun ≡ true }
    ensures { Puts (in_lane lane (first ∷ []) ∷ []) (O.places outputs.old) (O.places outputs.new) result }
{
    outputs.put_lane(lane, &[first])
}

// Writes a message of two bytes.
#[inline(always)]
fn put_two<O: Outputs>(lane: U4, status: u8, first: u8, outputs: &mut O) -> Result<(), RunEnd>
    requires begun { (O.places outputs.old).begun ≡ true }
    ensures { Puts (in_lane lane (status ∷ first ∷ []) ∷ [])
        (O.places outputs.old) (O.places outputs.new) result }
{
    outputs.put_lane(lane, &[status, first])
}

// Writes a message of three bytes.
#[inline(always)]
fn put_three<O: Outputs>(
    lane: U4,
    status: u8,
    first: u8,
    second: u8,
    outputs: &mut O,
) -> Result<(), RunEnd>
    requires begun { (O.places outputs.old).begun ≡ true }
    ensures { Puts (in_lane lane (status ∷ first ∷ second ∷ []) ∷ [])
        (O.places outputs.old) (O.places outputs.new) result }
{
    outputs.put_lane(lane, &[status, first, second])
}

// Writes a message of two data bytes, without its status byte if that is left out.
#[inline(always)]
fn put_with_two<O: Outputs>(
    lane: U4,
    status: u8,
    is_running: bool,
    first: u8,
    second: u8,
    outputs: &mut O,
) -> Result<(), RunEnd>
    requires begun { (O.places outputs.old).begun ≡ true }
    ensures { Puts (in_lane lane (unless_running is_running status (first ∷ second ∷ [])) ∷ [])
        (O.places outputs.old) (O.places outputs.new) result }
{
    if is_running {
        put_two(lane, first, second, outputs)
    } else {
        put_three(lane, status, first, second, outputs)
    }
}

// Writes a message of one data byte, without its status byte if that is left out.
#[inline(always)]
fn put_with_one<O: Outputs>(
    lane: U4,
    status: u8,
    is_running: bool,
    first: u8,
    outputs: &mut O,
) -> Result<(), RunEnd>
    requires begun { (O.places outputs.old).begun ≡ true }
    ensures { Puts (in_lane lane (unless_running is_running status (first ∷ [])) ∷ [])
        (O.places outputs.old) (O.places outputs.new) result }
{
    if is_running {
        put_one(lane, first, outputs)
    } else {
        put_two(lane, status, first, outputs)
    }
}

// Writes a message that alone carries a packet to its lane.
#[inline(always)]
fn put_message<O: Outputs>(message: &LoweredMessage, outputs: &mut O) -> Result<(), RunEnd>
    requires begun { (O.places outputs.old).begun ≡ true }
    ensures { Puts (in_lane message.now.lane (lowered_bytes message.now) ∷ [])
        (O.places outputs.old) (O.places outputs.new) result }
{
    let LoweredMessage {
        lane,
        status,
        first,
        second,
        ..
    } = *message;
    let first = first.get();
    match second {
        Some(second) => put_three(lane, status, first, second.get(), outputs),
        None => put_two(lane, status, first, outputs),
    }
}

// Writes a message of compact style to its lane.
#[inline(always)]
fn put_short_message<O: Outputs>(message: &ShortenedMessage, outputs: &mut O) -> Result<(), RunEnd>
    requires begun { (O.places outputs.old).begun ≡ true }
    ensures { Puts (in_lane message.now.lane (shortened_bytes message.now) ∷ [])
        (O.places outputs.old) (O.places outputs.new) result }
{
    let ShortenedMessage {
        lane,
        status,
        is_running,
        first,
        second,
        ..
    } = *message;
    let first = first.get();
    match second {
        Some(second) => put_with_two(lane, status, is_running, first, second.get(), outputs),
        None => put_with_one(lane, status, is_running, first, outputs),
    }
}

// Writes the line for an attribute that is left out.
#[inline(always)]
fn put_attribute<O: Outputs>(group: U4, offset: u64, outputs: &mut O) -> Result<(), RunEnd>
    ensures { Puts (line_puts (option_to_list (attribute_line offset group true)))
        (O.places outputs.old) (O.places outputs.new) result }
{
    let listed = Listed {
        offset,
        group: Some(group),
        kind: Kind::NoteAttribute,
    };
    put_line(&listed, outputs)
}

// Writes a message that alone carries a packet to its lane, and then the line for the attribute that the
// message leaves out, if it leaves one out.
#[inline(always)]
fn put_lowered<O: Outputs>(
    message: &LoweredMessage,
    offset: u64,
    outputs: &mut O,
) -> Result<(), RunEnd>
    requires begun { (O.places outputs.old).begun ≡ true }
    ensures { Puts (lowered_puts offset message.now) (O.places outputs.old) (O.places outputs.new) result }
{
    put_message(message, outputs)?;
    if message.has_attribute {
        put_attribute(message.lane, offset, outputs)
    } else {
        Ok(())
    }
}

// Writes a message of compact style to its lane, and then the line for the attribute that the message leaves
// out, if it leaves one out.
#[inline(always)]
fn put_shortened<O: Outputs>(
    message: &ShortenedMessage,
    offset: u64,
    outputs: &mut O,
) -> Result<(), RunEnd>
    requires begun { (O.places outputs.old).begun ≡ true }
    ensures { Puts (shortened_puts offset message.now) (O.places outputs.old) (O.places outputs.new) result }
{
    put_short_message(message, outputs)?;
    if message.has_attribute {
        put_attribute(message.lane, offset, outputs)
    } else {
        Ok(())
    }
}

// Translates a packet down at once if a single message carries it, in plain or compact style, or if it only
// adds six bytes to an exclusive, for which nothing is written. Most packets are of these kinds. Returns
// `None` exactly for other packets, and then nothing is done.
#[inline(always)]
fn carry_at_once<O: Outputs>(
    down: &mut Down,
    packet: &EncodedPacket,
    offset: u64,
    outputs: &mut O,
) -> Option<Result<(), RunEnd>>
    requires begun { (O.places outputs.old).begun ≡ true }
    ensures { MatchOption result
        ((goes_at_once down.old packet.now ≡ false) × (down.new ≡ down.old)
        × (O.places outputs.new ≡ O.places outputs.old))
        (λ done. (down.new ≡ down_after offset packet.now down.old)
        × Carries down.old offset packet.now (O.places outputs.old) (O.places outputs.new) done) }
{
    if let Some(message) = down.lowered(packet) {
        return Some(put_lowered(&message, offset, outputs));
    }
    if let Some(message) = down.shortened(packet) {
        return Some(put_shortened(&message, offset, outputs));
    }
    if down.holds(packet) {
        return Some(Ok(()));
    }
    None
}

// Translates one packet down: writes its piece to its group's lane, and its line to the notes.
fn carry<O: Outputs>(
    down: &mut Down,
    packet: &EncodedPacket,
    offset: u64,
    outputs: &mut O,
) -> Result<(), RunEnd>
    requires packet { IsPacket packet.now }
    requires begun { (O.places outputs.old).begun ≡ true }
    ensures after { down.new ≡ down_after offset packet.now down.old }
    ensures carries { Carries down.old offset packet.now
        (O.places outputs.old) (O.places outputs.new) result }
{
    match carry_at_once(down, packet, offset, outputs) {
        Some(done) => done,
        None => carry_encoded(down, packet, offset, outputs),
    }
}
