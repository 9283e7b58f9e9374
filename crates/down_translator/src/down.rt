// The translator from packets to MIDI 1.0 bytes, in both styles.
ghost use Rattle.std.specs.Prelude.{◌≡◌, ◌≤◌, ◌<◌, ◌&&◌, not, IfOk, IsTrue, MatchOption, true, false, Some, None, length, take};
ghost use Rattle.sysex_groups.specs.Exclusives.{IsData};
ghost use Rattle.ump_grammar.specs.Ranges.{IsPacket};
ghost use Rattle.encoded_packets.specs.DirectMessages.{IsDirectMessage, has_direct_kind};
ghost use Rattle.midi1_bytes.specs.RunningStatus.{without_status};
ghost use Rattle.down_translator.specs.HeldStep.{IsHeldStep, goes_held};
ghost use Rattle.midi_meaning.specs.Controllers.{is_direct, pairing, role_of};
ghost use Rattle.down_translator.specs.KeptLanes.{is_plain, lane_at};
ghost use Rattle.down_translator.specs.Midi1.{control_index};
ghost use Rattle.down_translator.specs.Lowered.{
  IsDirectStep,
  IsShortenedStep,
  after_status,
  goes_direct,
  goes_shortened,
  lowered_bytes,
  message_goes_direct,
  message_packet,
  shortened_bytes,
};
ghost use Rattle.ump_grammar.specs.declared.packet.Packet.TheVariants as packet;
ghost use Rattle.voice_messages.specs.declared.voice2.Voice2.TheVariants as voice2;

use crate::carried::Carried;
use crate::kept_lanes::KeptLanes;
use crate::listing::{line, paired_kind, voice_kind};
use crate::lowered::{LoweredMessage, lowered};
use crate::midi1_message::{message_index, midi1_message};
use crate::pieces::{Piece, write_paired, write_system, write_voice1, write_voice2};
use crate::refusals::{bad_voice1, bad_voice2};
use crate::shortened::{ShortenedMessage, control_index};
use crate::style::Style;
use crate::uncarried::read_uncarried;
use encoded_packets::{DirectMessage, EncodedPacket, ExclusivePart};
use midi_meaning::laws::carried_packets_have_a_piece;
use midi_meaning::{BadStep, Kind, Listed};
use small_types::{NoMemory, U4};
use std::alloc::Global;
use std::marker::Model;
use sysex_groups::{Fed, Groups};
use ump_grammar::Packet;
use voice_messages::{Form, System, U7, Voice1, Voice2};

/// Translates packets to the MIDI 1.0 bytes of sixteen lanes, one lane (stream) for each group. In
/// contracts its value is its state: the open exclusives of the groups and, in compact style, the state
/// stored for each lane.
#[derive(Drop)]
pub struct Down {
    groups: Groups,
    lanes: KeptLanes,
    piece: Piece,
}

impl Model for Down {
    ghost use Rattle.down_translator.specs.Held.{DownState};

    ghost Value = { DownState };

    ghost view = { λ down. record { exclusives = down.groups; lanes = down.lanes } };
}

impl Down {
    ghost use Rattle.std.specs.Borrow.{sem};
    ghost use Rattle.std.specs.Option.{option_map};
    ghost use Rattle.sysex_groups.specs.Table.{begun_in};
    ghost use Rattle.down_translator.specs.Held.{down_after, limit_of, new_down, paired_of, style_of};
    ghost use Rattle.down_translator.specs.KeptLanes.{IsUnpaired, style_in};
    ghost use Rattle.down_translator.specs.Lend.{KeepsDown};
    ghost use Rattle.down_translator.specs.Step.{Translates};

    /// Creates a translator that writes in this style, with controllers paired or not (own rule) and with
    /// nothing open. Reserves memory for the state of the lanes, and for an exclusive with `room` bytes
    /// between F0 and F7 in each group, 6 to 1,048,576 (own rule). No other call allocates memory. Returns
    /// `NoMemory` if the memory can't be allocated.
    pub fn new(alloc: Global, room: u32, style: Style, paired: bool) -> Result<Down, NoMemory>
        requires least { 6 ≤ room }
        requires most { room ≤ 1048576 }
        ensures { IfOk result (λ down. down ≡ new_down paired (style_in style) room) }
    {
        let groups = Groups::new(alloc, room)?;
        let lanes = KeptLanes::new(alloc, style, paired)?;
        Ok(Down {
            groups,
            lanes,
            piece: Piece::new(),
        })
    }

    /// Drops the open exclusives and the state of the lanes. The translator then equals a new one with the
    /// same limit and style, and with controllers paired or not as before (own rule). Allocates no memory.
    pub fn reset(&mut self)
        ensures { self.new ≡ new_down (paired_of self.old) (style_of self.old) (limit_of self.old) }
    {
        self.groups.reset();
        self.lanes.reset();
    }

    /// Translates one more packet of an exclusive.
    #[tactic(auto, using(crate::proofs::ExclusiveLaws::exclusive_lanes))]
    #[inline(always)]
    fn exclusive(
        &mut self,
        group: U4,
        form: Form,
        bytes: &[u8],
        offset: u64,
    ) -> Result<Carried<'_>, BadStep>
        requires few { length bytes.now ≤ 6 }
        requires data_bytes { IsData bytes.now }
        ensures answer { Translates self.old offset (packet.Exclusive group form bytes.now) result }
        ensures* after { sem 𝓛 (KeepsDown self.entry
            (down_after offset (packet.Exclusive group form bytes.now) self.old)) }
    {
        self.lanes.keep_part(&self.groups, group, form, bytes);
        match self.groups.feed(group, form, bytes, offset) {
            Fed::Held => Ok(Carried::nothing()),
            Fed::Whole(piece) => Ok(Carried::new(group, piece, None)),
            Fed::Stray => Ok(Carried::only_listed(offset, Some(group), Kind::StrayExclusive)),
            Fed::Restarted { cut_at } => {
                Ok(Carried::only_listed(cut_at, Some(group), Kind::CutExclusive))
            }
            Fed::RestartedWhole { cut_at, whole } => {
                let listed = line(cut_at, group, Some(Kind::CutExclusive));
                Ok(Carried::new(group, whole, listed))
            }
            Fed::TooLong => Err(BadStep::ExclusiveTooLong),
        }
    }

    #[tactic(auto, using(crate::proofs::StyledLaws::lent_system))]
    fn system(&mut self, group: U4, message: &System, _offset: u64) -> Result<Carried<'_>, BadStep>
        ensures answer { Translates self.old _offset (packet.System group message.now) result }
        ensures* after { sem 𝓛 (KeepsDown self.entry
            (down_after _offset (packet.System group message.now) self.old)) }
    {
        carried_packets_have_a_piece();
        write_system(&mut self.piece, &mut self.lanes, group, message);
        Ok(Carried::lent(group, &self.piece, None))
    }

    #[tactic(auto, using(crate::proofs::StyledLaws::lent1))]
    #[inline(always)]
    fn voice1(&mut self, group: U4, message: &Voice1, offset: u64) -> Result<Carried<'_>, BadStep>
        ensures answer { Translates self.old offset (packet.Voice1 group message.now) result }
        ensures* after { sem 𝓛 (KeepsDown self.entry
            (down_after offset (packet.Voice1 group message.now) self.old)) }
    {
        carried_packets_have_a_piece();
        match bad_voice1(message) {
            Some(bad) => Err(bad),
            None => {
                write_voice1(&mut self.piece, &mut self.lanes, group, message);
                Ok(Carried::lent(group, &self.piece, None))
            }
        }
    }

    #[inline(always)]
    fn paired(&self) -> bool
        ensures { result ≡ self.now.lanes.paired }
    {
        self.lanes.paired()
    }

    /// Translates a MIDI 2.0 voice message, except for a control change if controllers are paired.
    #[tactic(auto, using(crate::proofs::StyledLaws::lent2, crate::proofs::PieceLaws::unpaired_kind))]
    #[inline(always)]
    fn unpaired(&mut self, group: U4, message: &Voice2, offset: u64) -> Result<Carried<'_>, BadStep>
        requires { IsUnpaired self.old.lanes.paired message.now }
        ensures answer { Translates self.old offset (packet.Voice2 group message.now) result }
        ensures* after { sem 𝓛 (KeepsDown self.entry
            (down_after offset (packet.Voice2 group message.now) self.old)) }
    {
        carried_packets_have_a_piece();
        match bad_voice2(message) {
            Some(bad) => Err(bad),
            None => {
                let kind = voice_kind(message);
                write_voice2(&mut self.piece, &mut self.lanes, group, message);
                Ok(Carried::lent(group, &self.piece, line(offset, group, kind)))
            }
        }
    }

    /// Translates a MIDI 2.0 control change if controllers are paired.
    #[tactic(auto, using(crate::proofs::StyledLaws::lent2))]
    #[inline(always)]
    fn paired_control(
        &mut self,
        group: U4,
        channel: U4,
        index: U7,
        value: u32,
        offset: u64,
    ) -> Result<Carried<'_>, BadStep>
        requires { self.old.lanes.paired ≡ true }
        ensures answer { Translates self.old offset
            (packet.Voice2 group (voice2.Control channel index value)) result }
        ensures* after { sem 𝓛 (KeepsDown self.entry
            (down_after offset (packet.Voice2 group (voice2.Control channel index value)) self.old)) }
    {
        carried_packets_have_a_piece();
        match write_paired(
            &mut self.piece,
            &mut self.lanes,
            group,
            channel,
            index,
            value,
        ) {
            Some(bad) => Err(bad),
            None => {
                let kind = paired_kind(index);
                Ok(Carried::lent(group, &self.piece, line(offset, group, kind)))
            }
        }
    }

    #[inline(always)]
    fn voice2(&mut self, group: U4, message: &Voice2, offset: u64) -> Result<Carried<'_>, BadStep>
        ensures answer { Translates self.old offset (packet.Voice2 group message.now) result }
        ensures* after { sem 𝓛 (KeepsDown self.entry
            (down_after offset (packet.Voice2 group message.now) self.old)) }
    {
        match *message {
            Voice2::Control {
                channel,
                index,
                value,
            } if self.paired() => self.paired_control(group, channel, index, value, offset),
            _ => self.unpaired(group, message, offset),
        }
    }

    /// Translates one more packet, and returns its MIDI 1.0 bytes, its lane, and its line of the listing
    /// (M2-104-UM, default translation; what that leaves out is listed by own rule). The packet must be one
    /// that some words decode to. The offset is the number of input bytes before it.
    ///
    /// * `DataIncrement` and `DataDecrement` are returned exactly for a control change 96 and 97,
    ///   respectively, of either protocol. The translator is then unchanged.
    /// * `ExclusiveTooLong` is returned exactly if the packet adds to an exclusive that then has more bytes
    ///   than the limit. That group then has nothing open, and everything else is unchanged (own rules).
    #[inline(always)]
    pub fn packet(&mut self, packet: &Packet, offset: u64) -> Result<Carried<'_>, BadStep>
        requires { IsPacket packet.now }
        ensures answer { Translates self.old offset packet.now result }
        ensures* after { sem 𝓛 (KeepsDown self.entry (down_after offset packet.now self.old)) }
    {
        match packet {
            Packet::Utility { .. } => Ok(Carried::only_listed(offset, None, Kind::Utility)),
            Packet::System { group, message } => self.system(*group, message, offset),
            Packet::Voice1 { group, message } => self.voice1(*group, message, offset),
            Packet::Exclusive { group, form, bytes } => {
                // A copy is made, since a packet doesn't stay in registers if a call sees a part of it.
                let bytes = bytes.copied();
                self.exclusive(*group, *form, bytes.as_slice(), offset)
            }
            Packet::Voice2 { group, message } => self.voice2(*group, message, offset),
            Packet::Data8 { group, .. } => {
                Ok(Carried::only_listed(offset, Some(*group), Kind::Data8))
            }
            Packet::Flex { group, .. } => {
                Ok(Carried::only_listed(offset, Some(*group), Kind::Flex))
            }
            Packet::Stream { .. } => Ok(Carried::only_listed(offset, None, Kind::Stream)),
            Packet::Reserved { .. } => Ok(Carried::only_listed(offset, None, Kind::Reserved)),
        }
    }

    // Translates a part of an exclusive with all its six places for bytes.
    #[tactic(auto, using(crate::proofs::LoweredLaws::few_of, crate::proofs::LoweredLaws::data_of))]
    #[inline(always)]
    fn part(&mut self, part: ExclusivePart, offset: u64) -> Result<Carried<'_>, BadStep>
        requires few { part.count ≤ 6 }
        requires data_bytes { IsData part.bytes }
        ensures answer { Translates self.old offset
            (packet.Exclusive part.group part.form (take part.count part.bytes)) result }
        ensures* after { sem 𝓛 (KeepsDown self.entry (down_after offset
            (packet.Exclusive part.group part.form (take part.count part.bytes)) self.old)) }
    {
        let ExclusivePart {
            group,
            form,
            count,
            bytes,
        } = part;
        self.exclusive(group, form, &bytes[..count], offset)
    }

    // Returns whether a direct message is translated into one MIDI 1.0 message with all its bytes.
    #[tactic(auto, using(crate::proofs::DirectLaws::direct_index))]
    #[inline(always)]
    fn is_lowered(&self, message: &DirectMessage) -> bool
        ensures { result ≡ (is_plain self.now.lanes.style
            && message_goes_direct self.now.lanes.paired message.now) }
    {
        self.lanes.goes_direct(control_index(message))
    }

    // Returns the same for a MIDI 1.0 message, which has its own bytes.
    #[inline(always)]
    fn lowers(&self, message: &LoweredMessage) -> bool
        ensures { result ≡ (is_plain self.now.lanes.style
            && is_direct (pairing self.now.lanes.paired (role_of (control_index message.now)))) }
    {
        self.lanes.goes_direct(message_index(message))
    }

    // Returns the same for a MIDI 1.0 message in compact style.
    #[inline(always)]
    fn shortens(&self, message: &LoweredMessage) -> bool
        ensures { result ≡ (not (is_plain self.now.lanes.style)
            && is_direct (pairing self.now.lanes.paired (role_of (control_index message.now)))) }
    {
        self.lanes.is_shortened(message_index(message))
    }

    // Returns whether a direct message is translated into one MIDI 1.0 message, perhaps without its status
    // byte, and leaves the registers unchanged.
    #[tactic(auto, using(crate::proofs::DirectLaws::direct_index))]
    #[inline(always)]
    fn is_shortened(&self, message: &DirectMessage) -> bool
        ensures { result ≡ (not (is_plain self.now.lanes.style)
            && message_goes_direct self.now.lanes.paired message.now) }
    {
        self.lanes.is_shortened(control_index(message))
    }

    /// Translates a packet stored as words, with the same result as `packet`. The packet is decoded only if
    /// its words don't show the result. They do show it for most parts of exclusives, and for packets that
    /// no MIDI 1.0 message can express.
    #[inline(always)]
    pub fn encoded(&mut self, packet: &EncodedPacket, offset: u64) -> Result<Carried<'_>, BadStep>
        ensures answer { Translates self.old offset packet.now result }
        ensures* after { sem 𝓛 (KeepsDown self.entry (down_after offset packet.now self.old)) }
    {
        match packet.exclusive() {
            Some(part) => self.part(part, offset),
            None => self.whole(packet, offset),
        }
    }

    // Translates a packet that isn't read as a part of an exclusive.
    #[inline(always)]
    fn whole(&mut self, packet: &EncodedPacket, offset: u64) -> Result<Carried<'_>, BadStep>
        ensures answer { Translates self.old offset packet.now result }
        ensures* after { sem 𝓛 (KeepsDown self.entry (down_after offset packet.now self.old)) }
    {
        match read_uncarried(packet) {
            Some(told) => Ok(Carried::only_listed(offset, told.group, told.kind)),
            None => self.packet(&packet.decode(), offset),
        }
    }

    // Translates a message in compact style: it is written without its status byte if that is the running
    // status of its lane.
    #[tactic(auto, using(crate::proofs::ShortenedLaws::shortened_is))]
    #[inline(always)]
    fn shorten(&mut self, message: LoweredMessage) -> ShortenedMessage
        requires compact { is_plain self.old.lanes.style ≡ false }
        ensures lane { result.lane ≡ message.lane }
        ensures bytes { shortened_bytes result ≡ without_status
            (lane_at self.old.lanes.states message.lane).running (lowered_bytes message) }
        ensures attribute { result.has_attribute ≡ message.has_attribute }
        ensures after { self.new ≡ after_status message.lane message.status self.old }
    {
        let LoweredMessage {
            lane,
            status,
            first,
            second,
            has_attribute,
        } = message;
        ShortenedMessage {
            lane,
            status,
            is_running: self.lanes.take_status(lane, status),
            first,
            second,
            has_attribute,
        }
    }

    // Does the same as `shortened` for a direct message.
    #[tactic(auto, using(crate::proofs::ShortenedLaws::same_shortened))]
    #[inline(always)]
    fn shortened_direct(&mut self, message: &DirectMessage) -> Option<ShortenedMessage>
        requires { IsDirectMessage message.now }
        ensures { MatchOption result
            ((goes_shortened self.old (message_packet message.now) ≡ false) × (self.new ≡ self.old))
            (λ short. IsShortenedStep self.old (message_packet message.now) short self.new) }
    {
        if self.is_shortened(message) {
            Some(self.shorten(lowered(message)))
        } else {
            None
        }
    }

    // Does the same as `shortened` for a packet that isn't a direct message.
    #[tactic(auto, using(crate::proofs::Midi1Laws::not_short, crate::proofs::Midi1Laws::same_short))]
    #[inline(always)]
    fn shortened_midi1(&mut self, packet: &EncodedPacket) -> Option<ShortenedMessage>
        requires { has_direct_kind packet.now ≡ false }
        ensures { MatchOption result
            ((goes_shortened self.old packet.now ≡ false) × (self.new ≡ self.old))
            (λ short. IsShortenedStep self.old packet.now short self.new) }
    {
        match midi1_message(packet) {
            Some(message) if self.shortens(&message) => Some(self.shorten(message)),
            _ => None,
        }
    }

    /// In compact style, translates the packet if one MIDI 1.0 message expresses it and leaves the
    /// registers unchanged. These are the packets that `lowered` lists. Returns that message, whose status
    /// byte is left out if it is the running status of its lane (MIDI 1.0 Detailed Specification, running
    /// status). The result and the state after it are those of `packet`.
    ///
    /// Returns `None` exactly for other packets and in plain style. The translator is then unchanged: call
    /// `packet`.
    #[inline(always)]
    pub fn shortened(&mut self, packet: &EncodedPacket) -> Option<ShortenedMessage>
        ensures { MatchOption result
            ((goes_shortened self.old packet.now ≡ false) × (self.new ≡ self.old))
            (λ message. IsShortenedStep self.old packet.now message self.new) }
    {
        match packet.direct_message() {
            Some(message) => self.shortened_direct(&message),
            None => self.shortened_midi1(packet),
        }
    }

    /// In plain style, returns the one MIDI 1.0 message with the packet's status byte that expresses the
    /// packet, if there is one (M2-104-UM, default translation). There is one for these packets:
    ///
    /// * a note off or on, the pressure of a note or of a channel, or a bend, of either protocol;
    /// * a control change, of either protocol, for a controller that has a value and isn't one of a pair;
    /// * a channel mode message other than Reset All Controllers, of either protocol;
    /// * a program change of MIDI 1.0.
    ///
    /// The result is that of `packet`, which would leave the translator unchanged. Returns `None` exactly
    /// for other packets and in compact style: call `packet`.
    #[inline(always)]
    pub fn lowered(&self, packet: &EncodedPacket) -> Option<LoweredMessage>
        ensures { MatchOption result (goes_direct self.now packet.now ≡ false)
            (λ message. IsDirectStep self.now packet.now message) }
    {
        match packet.direct_message() {
            Some(message) => self.lowered_message(&message),
            None => self.lowered_midi1(packet),
        }
    }

    // Does the same as `lowered` for a packet that isn't a direct message.
    #[tactic(auto, using(crate::proofs::Midi1Laws::not_lowered, crate::proofs::Midi1Laws::same_lowered))]
    #[inline(always)]
    fn lowered_midi1(&self, packet: &EncodedPacket) -> Option<LoweredMessage>
        requires { has_direct_kind packet.now ≡ false }
        ensures { MatchOption result (goes_direct self.now packet.now ≡ false)
            (λ message. IsDirectStep self.now packet.now message) }
    {
        match midi1_message(packet) {
            Some(message) if self.lowers(&message) => Some(message),
            _ => None,
        }
    }

    /// Does the same as `lowered` for a direct message, in its group.
    #[inline(always)]
    pub fn lowered_message(&self, message: &DirectMessage) -> Option<LoweredMessage>
        requires { IsDirectMessage message.now }
        ensures { MatchOption result (goes_direct self.now (message_packet message.now) ≡ false)
            (λ lowered. IsDirectStep self.now (message_packet message.now) lowered) }
    {
        if self.is_lowered(message) {
            Some(lowered(message))
        } else {
            None
        }
    }

    /// Adds the bytes of the packet, if it only continues the open exclusive of its group by six bytes that
    /// fit the limit (M2-104-UM, system exclusive 7-bit messages), in either style. Then it returns `true`,
    /// and the state is the one after `packet`, whose result would have no bytes and no line. Returns
    /// `false` exactly for other packets. The translator is then unchanged: call `packet`.
    #[inline(always)]
    pub fn holds(&mut self, packet: &EncodedPacket) -> bool
        ensures held { IsTrue result → IsHeldStep self.old packet.now self.new }
        ensures unchanged { result ≡ false →
            (goes_held self.old packet.now ≡ false) × (self.new ≡ self.old) }
    {
        match packet.continued() {
            Some(part) => {
                let (group, bytes) = part;
                self.groups.holds(group, &bytes)
            }
            None => false,
        }
    }

    /// Returns the offset of the packet that began the open exclusive of the group, or `None` exactly if
    /// none is open.
    pub fn begun_at(&self, group: U4) -> Option<u64>
        ensures { result ≡ option_map (λ begun. begun.start) (begun_in self.now.exclusives group) }
    {
        self.groups.begun_at(group)
    }
}
