// The endpoint.
ghost use Rattle.std.specs.Prelude.{◌≡◌, ◌≤◌, length};
ghost use Rattle.function_blocks.specs.Setups.{setup_of, MeetsRead};
ghost use Rattle.ump_endpoint.specs.Held.{reset_endpoint};
ghost use Rattle.c_answers.specs.Numbers.{number_of};
ghost use Rattle.c_endpoint.specs.Asked.{IsBegun, IsMuid, IsProfile, is_on_in};
ghost use Rattle.c_endpoint.specs.Opening.{OpensBy};
ghost use Rattle.c_endpoint.specs.Packets.{AreAnswered, IsPacketAnswered, IsRead, TakesOrRefuses};

use crate::profile::EndpointProfile;
use crate::replies::PacketReplies;
use c_answers::{Block, Status, framed, put_words};
use ci_responder::ProfileId;
use function_blocks::{Profile, Setup, SetupFault};
use packet_words::words::words_in_packet;
use small_types::{NoMemory, U4};
use std::alloc::Global;
use std::marker::Model;
use ump_endpoint::{Endpoint, Key, MOST_REPLY_WORDS};
use ump_grammar::{Packet, decode};

/// An endpoint that answers a peer, and writes its replies to the caller's buffers. In contracts its value is
/// the state of the endpoint.
#[derive(Drop)]
pub struct CEndpoint {
    // On the heap, because it is larger than the other engines, and opening a handle moves it.
    endpoint: Box<Endpoint>,
}

impl Model for CEndpoint {
    ghost use Rattle.ump_endpoint.specs.Held.{EndpointState};

    ghost Value = { EndpointState };

    ghost view = { λ e. e.endpoint.value.held };
}

// Reads the setup in a text. Reading it needs much of the stack, so the call isn't inlined: its frame is gone
// when the endpoint is created.
#[inline(never)]
fn read_setup(alloc: Global, text: &[u8]) -> Result<Setup, SetupFault>
    ensures { MeetsRead (setup_of text.now) result }
{
    Setup::read(alloc, text)
}

// Returns the packet that the words encode, or the reason why no packet has them.
fn read(words: &[u32], offset: u64) -> Result<Packet, Status>
    ensures { IsRead words.now result }
{
    let Some(framed) = framed(words, offset) else {
        return Err(Status::BadWordCount);
    };
    match decode(&framed) {
        Ok(packet) => Ok(packet),
        Err(bad) => Err(Status::of_bad(bad)),
    }
}

// Takes the packet that the words encode, and writes the words of the replies.
fn take(
    endpoint: &mut Endpoint,
    words: &[u32],
    offset: u64,
    buffer: &mut [u32],
) -> Result<PacketReplies, Status>
    requires { MOST_REPLY_WORDS ≤ length buffer.old }
    ensures { TakesOrRefuses endpoint.old.held offset words.now buffer.old
        result buffer.new endpoint.new.held }
{
    match read(words, offset) {
        Ok(packet) => match endpoint.packet(&packet, offset) {
            Ok(taken) => {
                let written = put_words(endpoint.replies().words(), buffer);
                return Ok(PacketReplies::of(&packet, &taken, written));
            }
            Err(bad) => return Err(Status::of_step(bad)),
        },
        Err(why) => return Err(why),
    }
}

// Takes packets as `packets` does.
fn take_all(
    endpoint: &mut Endpoint,
    words: &[u32],
    offset: u64,
    buffer: &mut [u32],
    replies: &mut [PacketReplies],
    block: &mut Block,
) -> Status
    ensures { AreAnswered endpoint.old.held words.now offset buffer.old replies.old
        (number_of result) block.new buffer.new replies.new endpoint.new.held }
{
    *block = Block::nothing();
    let mut next = offset;
    while block.taken < words.len() {
        if block.is_full(buffer.len(), MOST_REPLY_WORDS, replies.len(), 1) {
            return Status::SmallBuffer;
        }
        let rest = &words[block.taken..];
        let count = words_in_packet(rest[0]);
        if rest.len() < count {
            return Status::BadWordCount;
        }
        match take(endpoint, &rest[..count], next, &mut buffer[block.written..]) {
            Ok(told) => {
                replies[block.items] = told;
                block.add(count, told.written, 1);
                next = next.wrapping_add(4 * count as u64);
            }
            Err(why) => {
                block.refuse(count);
                return why;
            }
        }
    }
    Status::Done
}

impl CEndpoint {
    ghost use Rattle.std.specs.Prelude.{IfOk};
    ghost use Rattle.ump_endpoint.specs.Held.{new_endpoint};

    /// Creates an endpoint of this setup that has received nothing, for exclusives of `room` bytes, 6 to
    /// 1,048,576 (own rule). Allocates all the memory that the endpoint will ever need. Returns `NoMemory` if
    /// there isn't enough.
    #[inline(never)]
    pub fn new(alloc: Global, setup: Setup, room: u32) -> Result<CEndpoint, NoMemory>
        requires least { 6 ≤ room }
        requires most { room ≤ 1048576 }
        ensures { IfOk result (λ endpoint. endpoint ≡ new_endpoint setup room) }
    {
        let endpoint = Endpoint::new(alloc, setup, room)?;
        match Box::new(alloc, endpoint) {
            Ok(endpoint) => Ok(CEndpoint { endpoint }),
            Err(_) => Err(NoMemory),
        }
    }

    /// Creates an endpoint of the setup in a text (docs/setup.md). Returns `SetupSyntax` if the text isn't
    /// UTF-8 or isn't TOML. Returns `SetupRule` if the text breaks a rule, and then writes the number of the
    /// first such rule, 0 to 31, to `rule`. Returns `NoMemory` if there isn't enough memory, possibly also
    /// for a text with a fault.
    pub fn opened(alloc: Global, text: &[u8], room: u32, rule: &mut u8) -> Result<CEndpoint, Status>
        requires least { 6 ≤ room }
        requires most { room ≤ 1048576 }
        ensures { OpensBy (setup_of text.now) room result rule.old rule.new }
    {
        match read_setup(alloc, text) {
            Ok(setup) => match CEndpoint::new(alloc, setup, room) {
                Ok(made) => Ok(made),
                Err(NoMemory) => Err(Status::NoMemory),
            },
            Err(SetupFault::Syntax) => Err(Status::SetupSyntax),
            Err(SetupFault::Field(number)) => {
                *rule = number;
                Err(Status::SetupRule)
            }
            Err(SetupFault::NoMemory) => Err(Status::NoMemory),
        }
    }

    /// Takes one packet of the peer, and writes the words of the replies to the front of the buffer, packet
    /// after packet (M2-104-UM, UMP stream messages; M2-101-UM).
    ///
    /// Returns the first of these that applies, and then takes nothing: `SmallBuffer` if the buffer has fewer
    /// than 1,024 words, which are enough for any replies; `BadWordCount` if the number of words isn't the
    /// number that the first word's message type has; `BadCount` or `HighBit` if no packet has these words.
    /// Returns `ExclusiveTooLong` if an exclusive exceeds the limit. Then the exclusive is dropped, and
    /// nothing is written (own rules).
    pub fn packet(
        &mut self,
        words: &[u32],
        offset: u64,
        buffer: &mut [u32],
        replies: &mut PacketReplies,
    ) -> Status
        ensures { IsPacketAnswered self.old words.now offset buffer.old
            (number_of result) replies.new buffer.new self.new }
    {
        if buffer.len() < MOST_REPLY_WORDS {
            *replies = PacketReplies::needing(MOST_REPLY_WORDS);
            return Status::SmallBuffer;
        }
        match take(&mut self.endpoint, words, offset, buffer) {
            Ok(told) => {
                *replies = told;
                Status::Done
            }
            Err(why) => {
                *replies = PacketReplies::none();
                why
            }
        }
    }

    /// Takes packets of the peer whose words follow one another, each as `packet` does. Writes the words of
    /// the replies to the buffer, one packet after the other, and an element of `replies` for each packet of
    /// the peer. The offset is the offset of the first packet; each word adds 4 to it, modulo 2^64. `block`
    /// says how far the call came.
    ///
    /// Returns `Done` if all words are taken. Returns `SmallBuffer` before a packet for which no element of
    /// `replies` is left, or for which the rest of the buffer has fewer than 1,024 words. Returns
    /// `BadWordCount` before a last packet whose words are incomplete. A packet that is refused ends the call
    /// with its status. It has no element of `replies`, and its words count as taken and as refused (own
    /// rules).
    pub fn packets(
        &mut self,
        words: &[u32],
        offset: u64,
        buffer: &mut [u32],
        replies: &mut [PacketReplies],
        block: &mut Block,
    ) -> Status
        ensures { AreAnswered self.old words.now offset buffer.old replies.old
            (number_of result) block.new buffer.new replies.new self.new }
    {
        take_all(&mut self.endpoint, words, offset, buffer, replies, block)
    }

    /// Returns the endpoint to the state in which `new` creates it with the same setup and limit: the MUIDs,
    /// the profiles and the protocol are those of the setup, and nothing is open (own rule). The call doesn't
    /// allocate.
    pub fn reset(&mut self)
        ensures { self.new ≡ reset_endpoint self.old }
    {
        self.endpoint.reset();
    }

    /// Returns the protocol in force: 1 for MIDI 1.0, 2 for MIDI 2.0 (M2-104-UM, Stream Configuration).
    pub fn protocol(&self) -> u8
        ensures { result ≡ self.now.protocol }
    {
        self.endpoint.protocol()
    }

    /// Writes the MUID in force of a function block, counted from 0 (M2-101-UM). Returns `Nothing` if there
    /// is no such block, or if it has no MIDI-CI or has used up its MUIDs; the number is then unchanged.
    pub fn muid(&self, block: u8, muid: &mut u32) -> Status
        ensures { IsMuid self.now block (number_of result) muid.old muid.new }
    {
        match self.endpoint.muid(block) {
            Some(found) => {
                *muid = found;
                Status::Done
            }
            None => Status::Nothing,
        }
    }

    // Returns whether a profile of the setup is enabled.
    fn is_on(&self, profile: &Profile) -> bool
        ensures { result ≡ is_on_in self.now profile.now }
    {
        let id = profile.id;
        let key = Key {
            block: profile.block,
            place: profile.place,
            id: ProfileId { bytes: id },
        };
        self.endpoint.profile_is_on(&key).unwrap_or(profile.on)
    }

    /// Writes a profile and whether it is enabled. Profiles are counted from 0 in the order of the setup.
    /// Returns `Nothing`, and writes an empty profile, if there is no such profile.
    pub fn profile(&self, index: usize, profile: &mut EndpointProfile) -> Status
        ensures { IsProfile self.now index (number_of result) profile.new }
    {
        match self.endpoint.setup().profile(index) {
            Some(found) => {
                *profile = EndpointProfile::of(found, self.is_on(found));
                Status::Done
            }
            None => {
                *profile = EndpointProfile::none();
                Status::Nothing
            }
        }
    }

    /// Writes the offset of the packet with which a group's open exclusive began. Returns `BadGroup` if the
    /// group is above 15, and `Nothing` if the group has no open exclusive; the offset is then unchanged.
    pub fn begun(&self, group: u8, offset: &mut u64) -> Status
        ensures { IsBegun self.now group (number_of result) offset.old offset.new }
    {
        let Some(group) = U4::new(group) else {
            return Status::BadGroup;
        };
        match self.endpoint.begun_at(group) {
            Some(start) => {
                *offset = start;
                Status::Done
            }
            None => Status::Nothing,
        }
    }
}
