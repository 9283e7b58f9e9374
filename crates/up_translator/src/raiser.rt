// Translates the messages of a stream to packets of its group.
ghost use Rattle.std.specs.Prelude.{◌≡◌, [], ◌∷◌, map, Some, None, IfSome, MatchOption, false};
ghost use Rattle.std.specs.Option.{option_to_list};
ghost use Rattle.midi1_bytes.specs.Messages.{voice};
ghost use Rattle.midi1_bytes.specs.Spoken.{voice_in};
ghost use Rattle.midi1_bytes.specs.Steps.{completes};
ghost use Rattle.up_translator.specs.Direct.{goes_direct};
ghost use Rattle.ump_grammar.specs.Ranges.{IsPacket};
ghost use Rattle.ump_grammar.specs.declared.packet.Packet.TheVariants as packet;
ghost use Rattle.voice_messages.specs.declared.voice2.Voice2.TheVariants as voice2;

use crate::direct_message::{DirectVoice, control_change, goes_direct, raise_direct};
use crate::outcome::{Outcome, SelectingMessage, raise_selecting};
use crate::raised::Raised;
use crate::raised_packet::RaisedPacket;
use encoded_packets::DirectMessage;
use listing_terms::byte_lines::ByteLine;
use midi_meaning::lines::ignored;
use midi_meaning::{BadStep, DirectControls};
use midi1_bytes::VoiceBytes;
use param_collector::Collector;
use param_collector::laws::{control_changes_are_kept, other_messages_change_nothing_kept};
use std::marker::Model;
use voice_messages::{System, U4, U7};

// Shows that the fields of a system message and of its group fit their places.
fn system_fits(group: U4, message: &System)
    ensures { IsPacket (packet.System group message.now) }
{
    // Each `get` shows the prover that its number is in range.
    match *message {
        System::Quarter(value) | System::Song(value) => {
            value.get();
        }
        System::Position(value) => {
            value.get();
        }
        _ => {}
    }
}

// Returns the packet of a control change.
#[inline(always)]
fn control_packet(group: U4, channel: U4, index: U7, value: u32) -> RaisedPacket
    ensures { result ≡ packet.Voice2 group (voice2.Control channel index value) }
{
    RaisedPacket::of_value(&control_change(group, channel, index, value))
}

/// Translates messages to packets of one group. It stores the packet that it lends. In contracts its value
/// is the group and the values that control changes have set.
#[derive(Drop)]
pub(crate) struct Raiser {
    group: U4,
    collector: Collector,
    direct: DirectControls,
    packet: RaisedPacket,
}

impl Model for Raiser {
    ghost use Rattle.std.specs.Prelude.{◌≡◌, Some};
    ghost use Rattle.up_translator.specs.Held.{RaiserState};

    ghost Value = { RaiserState };

    ghost view = { λ r. record { group = r.group; holding = r.collector } };

    ghost invariant = { λ r. r.direct ≡ Some r.collector.paired };
}

impl Raiser {
    ghost use Rattle.std.specs.Borrow.{sem};
    ghost use Rattle.midi_meaning.specs.Messages.{as_they_come, start};
    ghost use Rattle.midi_meaning.specs.StepListing.{line_up};
    ghost use Rattle.param_collector.specs.Holding.{IsHolding, fresh};
    ghost use Rattle.param_collector.specs.Keeps.{Keeps};
    ghost use Rattle.up_translator.specs.Held.{KeepsAfter};
    ghost use Rattle.up_translator.specs.ForProofs.LendRaiser.{KeepsRaiser};
    ghost use Rattle.up_translator.specs.ForProofs.DirectOf.{IsDirectOf};
    ghost use Rattle.up_translator.specs.Outcome.{holding_with, selecting_in};
    ghost use Rattle.listing_terms.specs.ByteLines.{lines_in, told_of, IsInOrder};
    ghost use Rattle.up_translator.specs.Raised.{packet_in, payload_in, packets_in, group_in, IsApart};
    ghost use Rattle.up_translator.specs.Step.{RaisesStep};

    /// Creates a translator into a group, with paired controllers or without, as in the collector.
    pub(crate) fn new(group: U4, collector: Collector, paired: bool) -> Raiser
        requires { collector.paired ≡ paired }
        ensures { result ≡ record { group = group; holding = collector } }
    {
        Raiser {
            group,
            collector,
            direct: DirectControls::new(paired),
            packet: RaisedPacket::of_system(group, System::Tune),
        }
    }

    /// Forgets everything that control changes have set.
    pub(crate) fn reset(&mut self)
        ensures fresh { self.new ≡ record {
          group = self.old.group;
          holding = fresh self.old.holding.paired;
        } }
        ensures holding { IsHolding self.new.holding }
        ensures start { Keeps self.new.holding (start as_they_come) }
    {
        self.collector.reset();
    }

    pub(crate) fn group(&self) -> U4
        ensures { result ≡ self.now.group }
    {
        self.group
    }

    // Lends a packet, with a line if there is one.
    #[inline(always)]
    fn give(&mut self, packet: RaisedPacket, line: Option<ByteLine>) -> Raised<'_>
        ensures group { group_in result ≡ self.old.group }
        ensures order { IsInOrder result.lines }
        ensures apart { IsApart result }
        ensures packet { packet_in result ≡ Some packet }
        ensures payload { payload_in result ≡ None }
        ensures packets { packets_in result ≡ packet ∷ [] }
        ensures lines { lines_in result.lines ≡
            map (line_up self.old.group) (map told_of (option_to_list line)) }
        ensures* after { sem 𝓛 (KeepsRaiser self.entry self.old) }
    {
        self.packet = packet;
        Raised::of_packet(self.group, &self.packet, line)
    }

    /// Translates a system message. `line` is the line of the message that its byte cuts off, if there is
    /// one.
    #[inline(always)]
    pub(crate) fn system(&mut self, message: System, line: Option<ByteLine>) -> Raised<'_>
        ensures group { group_in result ≡ self.old.group }
        ensures order { IsInOrder result.lines }
        ensures apart { IsApart result }
        ensures spelled { IfSome (packet_in result) IsPacket }
        ensures payload { payload_in result ≡ None }
        ensures packets { packets_in result ≡ packet.System self.old.group message ∷ [] }
        ensures lines { lines_in result.lines ≡
            map (line_up self.old.group) (map told_of (option_to_list line)) }
        ensures* after { sem 𝓛 (KeepsRaiser self.entry self.old) }
    {
        let group = self.group;
        system_fits(group, &message);
        self.give(RaisedPacket::of_system(group, message), line)
    }

    // Translates a voice message that isn't translated alone.
    #[inline(always)]
    fn selecting(&mut self, message: SelectingMessage, offset: u64) -> Result<Raised<'_>, BadStep>
        ensures answer { RaisesStep self.old.holding self.old.group offset
            (completes (voice (selecting_in message))) result }
        ensures kept { KeepsAfter self.old.holding (completes (voice (selecting_in message))) }
        ensures* after { sem 𝓛 (KeepsRaiser self.entry
            (record self.old { holding = holding_with self.old.holding (selecting_in message) })) }
    {
        control_changes_are_kept();
        match raise_selecting(&mut self.collector, message) {
            Outcome::Nothing => Ok(Raised::only_listed(self.group, None, None)),
            Outcome::Control {
                channel,
                index,
                value,
            } => {
                let packet = control_packet(self.group, channel, index, value);
                Ok(self.give(packet, None))
            }
            Outcome::Message(message) => {
                let group = self.group;
                // This shows the prover that the group is below 16.
                group.get();
                Ok(self.give(RaisedPacket::of_voice2(group, message), None))
            }
            Outcome::Ignored => { Ok(Raised::only_listed(self.group, Some(ignored(offset)), None)) }
            Outcome::Refused(bad) => Err(bad),
        }
    }

    /// Returns a voice message if it is translated alone, or `None` exactly if it isn't.
    #[inline(always)]
    pub(crate) fn direct_voice(&self, bytes: &VoiceBytes) -> Option<DirectVoice>
        ensures { MatchOption result
            (goes_direct (Some self.now.holding.paired) (voice_in bytes.now) ≡ false)
            (IsDirectOf self.now (voice_in bytes.now)) }
    {
        if goes_direct(&self.direct, bytes) {
            Some(DirectVoice::of(self.group, bytes))
        } else {
            None
        }
    }

    /// Returns the message into which a voice message is translated, if it is translated alone, or `None`
    /// exactly if it isn't.
    #[inline(always)]
    pub(crate) fn direct_message(&self, bytes: &VoiceBytes) -> Option<DirectMessage>
        ensures { MatchOption result
            (goes_direct (Some self.now.holding.paired) (voice_in bytes.now) ≡ false)
            (IsDirectOf self.now (voice_in bytes.now)) }
    {
        if goes_direct(&self.direct, bytes) {
            Some(raise_direct(self.group, bytes))
        } else {
            None
        }
    }

    /// Translates a voice message that the byte at this offset completes.
    #[inline(always)]
    pub(crate) fn voice(&mut self, bytes: &VoiceBytes, offset: u64) -> Result<Raised<'_>, BadStep>
        ensures answer { RaisesStep self.old.holding self.old.group offset
            (completes (voice (voice_in bytes.now))) result }
        ensures kept { KeepsAfter self.old.holding (completes (voice (voice_in bytes.now))) }
        ensures* after { sem 𝓛 (KeepsRaiser self.entry
            (record self.old { holding = holding_with self.old.holding (voice_in bytes.now) })) }
    {
        other_messages_change_nothing_kept();
        if goes_direct(&self.direct, bytes) {
            let message = raise_direct(self.group, bytes);
            Ok(self.give(RaisedPacket::of_value(&message), None))
        } else {
            self.selecting(SelectingMessage::of(bytes), offset)
        }
    }
}
