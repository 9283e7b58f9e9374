// The endpoint that a peer talks to.
ghost use Rattle.std.specs.Prelude.{◌≡◌, ◌≤◌, [], IfOk, length};
ghost use Rattle.std.specs.Option.{option_map};
ghost use Rattle.ci_responder.specs.Held.{muid_in};
ghost use Rattle.ci_responder.specs.Keys.{state_in};
ghost use Rattle.sysex_groups.specs.Table.{begun_in};
ghost use Rattle.system_stream.specs.Layout.{IsStream};
ghost use Rattle.ump_grammar.specs.Ranges.{IsPacket};
ghost use Rattle.ump_grammar.specs.Replies.{AddsPackets};
ghost use Rattle.ump_endpoint.specs.Answers.{protocol_after_packet, stream_outcome, stream_packet_replies};
ghost use Rattle.ump_endpoint.specs.Held.{after_packet, new_endpoint, replies_in, reset_endpoint, taken_in};

use crate::hearing::{PlacedPart, take_part};
use crate::replies::ReplyPackets;
use crate::taken::{Outcome, Taken};
use ci_responder::{Key, Responder, responders_stay_of_their_setup};
use function_blocks::{Config, Setup};
use listing_terms::BadStep;
use small_types::{NoMemory, U4};
use std::alloc::Global;
use std::marker::Model;
use sysex_groups::Groups;
use system_stream::read;
use ump_grammar::{Packet, Replies};

/// The most words that the replies to one packet have: an info and seven packets of a name for each of 32
/// function blocks, four words each. The reply to a MIDI-CI message has at most 114 words.
pub const MOST_REPLY_WORDS: usize = 1024;

/// A UMP Endpoint, which answers the stream messages and the MIDI-CI messages of a peer (M2-104-UM, UMP
/// stream messages; M2-101-UM). In contracts its value is the state and the words of the replies to the last
/// packet. The state is the setup, the protocol in force, the open exclusives of the groups and the
/// responder.
#[derive(Drop)]
pub struct Endpoint {
    setup: Setup,
    config: Config,
    groups: Groups,
    responder: Responder,
    // On the heap, so that an endpoint is small: there is capacity for the most words.
    replies: Box<Replies>,
}

impl Model for Endpoint {
    ghost use Rattle.std.specs.Prelude.{◌≡◌};
    ghost use Rattle.ci_responder.specs.Reset.{IsOf};
    ghost use Rattle.ump_endpoint.specs.Held.{EndpointValue};

    ghost Value = { EndpointValue };

    ghost view = { λ e. record {
      held = record {
        setup = e.setup;
        protocol = e.config.protocol;
        exclusives = e.groups;
        responder = e.responder;
      };
      replies = e.replies.value;
    } };

    ghost invariant = { λ e. IsOf e.setup e.responder × (e.responder.room ≡ e.groups.room) };
}

// Creates an empty list of replies, with memory for the most words that there can be. The function isn't
// inlined, because it needs as much of the stack.
#[inline(never)]
fn no_replies(alloc: Global) -> Result<Box<Replies>, NoMemory>
    ensures { IfOk result (λ replies. replies.value ≡ []) }
{
    match Box::new(alloc, Replies::new()) {
        Ok(replies) => Ok(replies),
        Err(_) => Err(NoMemory),
    }
}

// Answers a stream packet: adds the replies to `replies`, which is empty, and puts in force the protocol that
// the packet requests.
fn answer(setup: &Setup, config: &mut Config, replies: &mut Replies, packet: &Packet) -> Outcome
    requires stream { IsStream packet.now }
    requires packet { IsPacket packet.now }
    requires empty { replies.old ≡ [] }
    ensures replies { AddsPackets
        (stream_packet_replies setup.now config.old.protocol packet.now) [] replies.new }
    ensures protocol { config.new.protocol ≡ protocol_after_packet setup.now config.old.protocol packet.now }
    ensures outcome { result ≡ stream_outcome setup.now config.old.protocol packet.now }
{
    match read(packet) {
        Ok(message) => {
            if setup.answer(&message, config, replies) {
                Outcome::Answered
            } else {
                Outcome::NoAnswer
            }
        }
        Err(_) => Outcome::BadFormat,
    }
}

impl Endpoint {
    /// Creates an endpoint of this setup that has received nothing (own rule). `room` is the most bytes of an
    /// exclusive between F0 and F7, 6 to 1,048,576, for which each group reserves memory. No other call
    /// allocates. Returns `NoMemory` if there isn't enough memory.
    pub fn new(alloc: Global, setup: Setup, room: u32) -> Result<Endpoint, NoMemory>
        requires least { 6 ≤ room }
        requires most { room ≤ 1048576 }
        ensures { IfOk result (λ endpoint. endpoint
            ≡ record { held = new_endpoint setup room; replies = [] }) }
    {
        let groups = Groups::new(alloc, room)?;
        let responder = Responder::new(alloc, &setup, room)?;
        let replies = no_replies(alloc)?;
        let config = setup.config();
        responders_stay_of_their_setup();
        Ok(Endpoint {
            setup,
            config,
            groups,
            responder,
            replies,
        })
    }

    /// Returns the endpoint to the state in which `new` creates it with the same setup and `room` (own rule):
    /// no exclusive is open, no MUID is used up, the protocol and the profiles are those of the setup, and
    /// there are no replies. The call doesn't allocate.
    pub fn reset(&mut self)
        ensures { self.new ≡ record { held = reset_endpoint self.old.held; replies = [] } }
    {
        responders_stay_of_their_setup();
        let Endpoint {
            setup,
            config,
            groups,
            responder,
            replies,
        } = self;
        groups.reset();
        responder.reset(setup);
        *config = setup.config();
        replies.clear();
    }

    /// Takes the next packet of the peer, which some words must decode to, and makes the replies: to a stream
    /// packet, or to the MIDI-CI message that is complete when the packet ends its exclusive. Packets of
    /// other kinds change nothing and have no reply (own rule). The result says what the endpoint did with
    /// the message that the packet ended, and which exclusive the packet cut off.
    ///
    /// The offset counts bytes from the start of the input. It is only stored, and returned as the place of
    /// an exclusive that is lost, so any number is allowed. The error is always `ExclusiveTooLong`. It is
    /// returned exactly if the exclusive has more bytes than `room`. In that case the exclusive is dropped,
    /// nothing else changes, and the endpoint may continue.
    pub fn packet(&mut self, packet: &Packet, offset: u64) -> Result<Taken, BadStep>
        requires { IsPacket packet.now }
        ensures held { self.new.held ≡ after_packet offset packet.now self.old.held }
        ensures replies { AddsPackets (replies_in self.old.held packet.now) [] self.new.replies }
        ensures taken { result ≡ taken_in self.old.held offset packet.now }
    {
        responders_stay_of_their_setup();
        self.replies.clear();
        match packet {
            Packet::Exclusive { group, form, bytes } => take_part(
                &mut self.groups,
                &mut self.responder,
                &mut self.replies,
                PlacedPart {
                    group: *group,
                    form: *form,
                    bytes: bytes.as_slice(),
                    offset,
                },
            ),
            Packet::Stream { .. } => Ok(Taken::ended(answer(
                &self.setup,
                &mut self.config,
                &mut self.replies,
                packet,
            ))),
            _ => Ok(Taken::nothing()),
        }
    }

    /// Returns the replies to the last packet, which can be read one packet at a time until `packet` or
    /// `reset` is called (own rule).
    pub fn replies(&self) -> ReplyPackets<'_>
        ensures packets { result ≡ self.now.replies }
        ensures few { length self.now.replies ≤ MOST_REPLY_WORDS }
    {
        ReplyPackets::new(self.replies.words())
    }

    /// Returns the setup that was passed to `new` (own rule).
    pub fn setup(&self) -> &Setup
        ensures { result.now ≡ self.now.held.setup }
    {
        &self.setup
    }

    /// Returns the protocol in force: 1 for MIDI 1.0, 2 for MIDI 2.0 (M2-104-UM, Stream Configuration).
    pub fn protocol(&self) -> u8
        ensures { result ≡ self.now.held.protocol }
    {
        self.config.protocol
    }

    /// Returns the MUID in force of a function block, counted from 0 (M2-101-UM, MUID). Returns `None`
    /// exactly if there is no such block, or if it has no MIDI-CI or has used up its MUIDs.
    pub fn muid(&self, block: u8) -> Option<u32>
        ensures { result ≡ muid_in self.now.held.responder.blocks block }
    {
        self.responder.muid(block)
    }

    /// Returns whether a profile is enabled (M2-101-UM, profile configuration), or `None` exactly if the
    /// setup doesn't name the profile.
    pub fn profile_is_on(&self, key: &Key) -> Option<bool>
        ensures { result ≡ state_in self.now.held.responder.states key.now }
    {
        self.responder.profile_is_on(key)
    }

    /// Returns the offset of the packet with which the group's open exclusive began (M2-104-UM, system
    /// exclusive 7-bit messages), or `None` exactly if no exclusive is open.
    pub fn begun_at(&self, group: U4) -> Option<u64>
        ensures { result ≡ option_map (λ begun. begun.start) (begun_in self.now.held.exclusives group) }
    {
        self.groups.begun_at(group)
    }
}
