// Handles the packets to which a byte is translated up, and the byte's lines.
ghost use Rattle.std.specs.Prelude.{◌≡◌, ◌++◌, ℕ, IfOk, List, Ok};
ghost use Rattle.ump_grammar.specs.declared.packet.Packet.{Packet};
ghost use Rattle.ump_grammar.specs.declared.packet.Packet.TheVariants as packet;
ghost use Rattle.midi_meaning.specs.Raising.{exclusive_packets};
ghost use Rattle.up_translator.specs.declared.raised.Raised.{Raised};
ghost use Rattle.encoded_packets.specs.declared.direct_message.DirectMessage.{DirectMessage};
ghost use Rattle.up_translator.specs.DirectWords.{IsRaisedDirect, packet_of};
ghost use Rattle.up_translator.specs.Fronts.{IsDirectFront};
ghost use Rattle.up_translator.specs.Held.{KeepsAfter, UpState, step_in, up_after};
ghost use Rattle.up_translator.specs.Raised.{IsApart, packets_in};
ghost use Rattle.up_translator.specs.Step.{Raises};
ghost use Rattle.pass_loop.specs.Places.{Puts};
ghost use Rattle.translation_passes.specs.ForProofs.Fronts.{FrontIsTaken};
ghost use Rattle.translation_passes.specs.Raised.{Answers, AreDone, AreTaken, ByteIsDone, CanBeDone, CarriesOut};
ghost use Rattle.translation_passes.specs.Raised.{Doing, TakesNothing, byte_task, open_puts};

use encoded_packets::DirectMessage;
use listing_lines::{put_lines, put_listed, refused};
use pass_loop::{Outputs, RunEnd};
use small_types::{ShortList, U4};
use sysex_groups::part;
use up_translator::{Raised, RaisedPacket, Up};
use voice_messages::Form;

/// Handles each of the packets to which a byte is translated up.
pub(crate) trait PacketWork {
    /// The packets that it accepts.
    ghost Accepts: { Self → Packet → Type 0 };

    /// What it does with a packet of the byte at this offset: the state afterwards, and what is written.
    ghost IsDone: { ℕ → Doing Self };

    /// Handles a packet.
    fn put<O: Outputs>(
        &mut self,
        packet: &RaisedPacket,
        offset: u64,
        outputs: &mut O,
    ) -> Result<(), RunEnd>
        requires { Accepts self.old packet.now }
        ensures { CarriesOut (IsDone offset self.old packet.now) self.new
            (O.places outputs.old) (O.places outputs.new) result };

    /// Handles the packet of a direct message. Most packets are of this kind.
    fn put_direct<O: Outputs>(
        &mut self,
        message: &DirectMessage,
        offset: u64,
        outputs: &mut O,
    ) -> Result<(), RunEnd>
        requires raised { IsRaisedDirect message.now }
        requires accepted { Accepts self.old (packet_of message.now) }
        ensures { CarriesOut (IsDone offset self.old (packet_of message.now)) self.new
            (O.places outputs.old) (O.places outputs.new) result };

    /// Handles the packet for a part of an exclusive.
    fn put_part<O: Outputs>(
        &mut self,
        group: U4,
        form: Form,
        bytes: ShortList<u8, 6>,
        offset: u64,
        outputs: &mut O,
    ) -> Result<(), RunEnd>
        requires { Accepts self.old (packet.Exclusive group form bytes) }
        ensures { CarriesOut (IsDone offset self.old (packet.Exclusive group form bytes)) self.new
            (O.places outputs.old) (O.places outputs.new) result };
}

// Handles the packets of an exclusive with these bytes between F0 and F7.
fn put_payload<P: PacketWork, O: Outputs>(
    group: U4,
    payload: &[u8],
    offset: u64,
    work: &mut P,
    outputs: &mut O,
) -> Result<(), RunEnd>
    requires taken { AreTaken P.Accepts (P.IsDone offset) work.old (exclusive_packets group payload.now) }
    requires done { CanBeDone P.Accepts (P.IsDone offset) }
    ensures { CarriesOut (AreDone (P.IsDone offset) work.old (exclusive_packets group payload.now)) work.new
        (O.places outputs.old) (O.places outputs.new) result }
{
    let mut k = 0;
    loop {
        match part(payload, k) {
            Some((form, bytes)) => {
                work.put_part(group, form, bytes, offset, outputs)?;
                k += 1;
            }
            None => return Ok(()),
        }
    }
}

// Handles the packets of a byte.
#[inline(always)]
fn put_packets<P: PacketWork, O: Outputs>(
    raised: &Raised<'_>,
    offset: u64,
    work: &mut P,
    outputs: &mut O,
) -> Result<(), RunEnd>
    requires apart { IsApart raised.now }
    requires taken { AreTaken P.Accepts (P.IsDone offset) work.old (packets_in raised.now) }
    requires done { CanBeDone P.Accepts (P.IsDone offset) }
    ensures { CarriesOut (AreDone (P.IsDone offset) work.old (packets_in raised.now)) work.new
        (O.places outputs.old) (O.places outputs.new) result }
{
    match raised.packet {
        Some(packet) => work.put(packet, offset, outputs),
        None => match raised.payload {
            Some(payload) => { put_payload(raised.group(), payload, offset, work, outputs) }
            None => Ok(()),
        },
    }
}

// Handles the packets of a byte, and then writes the byte's lines. Most bytes have neither packets nor lines,
// because they are only stored.
#[inline(always)]
fn put_raised<P: PacketWork, O: Outputs>(
    raised: &Raised<'_>,
    offset: u64,
    work: &mut P,
    outputs: &mut O,
) -> Result<(), RunEnd>
    requires apart { IsApart raised.now }
    requires taken { AreTaken P.Accepts (P.IsDone offset) work.old (packets_in raised.now) }
    requires done { CanBeDone P.Accepts (P.IsDone offset) }
    ensures { CarriesOut (ByteIsDone (P.IsDone offset) work.old raised.now) work.new
        (O.places outputs.old) (O.places outputs.new) result }
{
    put_packets(raised, offset, work, outputs)?;
    put_lines(&raised.lines, outputs)
}

/// Translates one more byte up, handles its packets, and writes its lines to the notes.
pub(crate) fn put_byte<P: PacketWork, O: Outputs>(
    up: &mut Up,
    work: &mut P,
    byte: u8,
    offset: u64,
    outputs: &mut O,
) -> Result<(), RunEnd>
    requires taken { (raised : Raised) → Raises up.old offset byte (Ok raised) →
        AreTaken P.Accepts (P.IsDone offset) work.old (packets_in raised) }
    requires done { CanBeDone P.Accepts (P.IsDone offset) }
    ensures answer { Answers (byte_task (P.IsDone offset) up.old (offset, byte) work.old) work.new
        (O.places outputs.old) (O.places outputs.new) result }
    ensures kept { KeepsAfter up.old.holding (step_in up.old offset byte) }
    ensures after { up.new ≡ up_after up.old offset byte }
{
    match up.byte(byte, offset) {
        Ok(raised) => put_raised(&raised, offset, work, outputs),
        Err(bad) => Err(refused(bad, offset)),
    }
}

/// Translates bytes at the front of these up at once, if they complete no packet or one direct packet.
/// Handles that packet, and returns the number of bytes. Returns 0 only if these bytes begin neither with a
/// message that is translated up alone nor with data of an open exclusive. The work doesn't depend on the
/// offset, so it is given 0.
#[tactic(auto, using(crate::proofs::FrontLaws::some_taken, crate::proofs::FrontLaws::none_taken))]
#[inline(always)]
pub(crate) fn put_front<P: PacketWork, O: Outputs>(
    up: &mut Up,
    work: &mut P,
    bytes: &[u8],
    outputs: &mut O,
) -> Result<usize, RunEnd>
    requires taken { (message : DirectMessage) (count : ℕ) (new : UpState) →
        IsDirectFront up.old bytes.now message count new → P.Accepts work.old (packet_of message) }
    ensures front { FrontIsTaken (P.IsDone 0) up.old up.new bytes.now work.old work.new
        (O.places outputs.old) (O.places outputs.new) result }
    ensures none { IfOk result (λ count. count ≡ 0 → TakesNothing up.old bytes.now) }
{
    match up.front(bytes) {
        Some((message, count)) => {
            work.put_direct(&message, 0, outputs)?;
            Ok(count)
        }
        None => Ok(up.take_data(bytes)),
    }
}

/// Writes the line for the message that is still open at the end, if there is one.
pub(crate) fn put_open<O: Outputs>(up: &Up, outputs: &mut O) -> Result<(), RunEnd>
    ensures { Puts (open_puts up.now) (O.places outputs.old) (O.places outputs.new) result }
{
    put_listed(up.end(), outputs)
}
