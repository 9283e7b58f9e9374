// The calls of the endpoint.
ghost use Rattle.std.specs.Prelude.{◌≡◌, ◌≤◌, None, Ok};
ghost use Rattle.function_blocks.specs.Setups.{IsSetup, SetupData, setup_of};
ghost use Rattle.c_answers.specs.Numbers.{number_of};
ghost use Rattle.larboardyuzu_c.specs.EndpointCalls.{AreTaken, HasBegun, HasMuid, HasProfile, HasProtocol, IsOpened, IsReset, IsTaken, Makes};

use c_answers::{Block, Status};
use c_endpoint::{CEndpoint, EndpointProfile, PacketReplies};
use c_handles::{Engine, Handle};
use function_blocks::setups_keep_the_rules;
use std::alloc::Global;

// Opens a closed handle as an endpoint of the setup in a text.
#[tactic(auto, using(crate::proofs::EndpointLaws::opened_fails))]
fn fill_endpoint(
    alloc: Global,
    endpoint: &mut Handle,
    text: &[u8],
    room: u32,
    rule: &mut u8,
) -> Status
    requires closed { endpoint.old.holds ≡ None }
    requires least { 6 ≤ room }
    requires most { room ≤ 1048576 }
    ensures { Makes (setup_of text.now) room (number_of result) rule.old rule.new endpoint.new.holds }
{
    match CEndpoint::opened(alloc, text, room, rule) {
        Ok(made) => return endpoint.fill(alloc, Engine::Endpoint(made)),
        Err(why) => return why,
    }
}

/// Opens a handle as an endpoint of the setup in a text, which is TOML (docs/setup.md). `room` is the most
/// bytes of an exclusive, 6 to 1,048,576. Allocates all the memory that the handle will ever need.
///
/// Returns the first that applies of `BadRoom`, `AlreadyOpen`, `SetupSyntax` and `SetupRule`, or `NoMemory`,
/// possibly also for a text with a fault. The handle is then unchanged. With `SetupRule`, the call writes the
/// number of the first rule that the text breaks, 0 to 31, to `rule`, which is otherwise unchanged. A setup
/// that is accepted keeps all rules, as the laws of an endpoint require (`consistent`).
#[unsafe(no_mangle)]
pub extern "C" fn larboardyuzu_endpoint_open(
    alloc: Global,
    endpoint: &mut Handle,
    text: &[u8],
    room: u32,
    rule: &mut u8,
) -> u32
    ensures answer { IsOpened endpoint.old.holds text.now room result rule.old rule.new endpoint.new.holds }
    ensures consistent { (setup : SetupData) → setup_of text.now ≡ Ok setup → IsSetup setup }
{
    setups_keep_the_rules();
    if room < 6 || room > 1_048_576 {
        return Status::BadRoom.number();
    }
    if let Some(held) = endpoint.take(alloc) {
        endpoint.put(held);
        return Status::AlreadyOpen.number();
    }
    fill_endpoint(alloc, endpoint, text, room, rule).number()
}

/// Takes one packet of the peer and writes the words of the replies (M2-104-UM, UMP stream messages;
/// M2-101-UM), as `CEndpoint::packet` does. Returns `HandleClosed` or `OtherKind`, with empty replies, if the
/// handle isn't open for this; otherwise the statuses of that call.
#[unsafe(no_mangle)]
pub extern "C" fn larboardyuzu_endpoint_packet(
    alloc: Global,
    endpoint: &mut Handle,
    words: &[u32],
    offset: u64,
    reply: &mut [u32],
    replies: &mut PacketReplies,
) -> u32
    ensures { IsTaken endpoint.old.holds words.now offset reply.old
        result replies.new reply.new endpoint.new.holds }
{
    let Some(mut held) = endpoint.take(alloc) else {
        *replies = PacketReplies::none();
        return Status::HandleClosed.number();
    };
    let status = match &mut *held {
        Engine::Endpoint(engine) => engine.packet(words, offset, reply, replies),
        _ => {
            *replies = PacketReplies::none();
            Status::OtherKind
        }
    };
    endpoint.put(held);
    status.number()
}

/// Takes packets of the peer whose words follow one another, as `CEndpoint::packets` does. Returns
/// `HandleClosed` or `OtherKind`, with an empty block, if the handle isn't open for this; otherwise the
/// statuses of that call.
#[unsafe(no_mangle)]
pub extern "C" fn larboardyuzu_endpoint_packets(
    alloc: Global,
    endpoint: &mut Handle,
    words: &[u32],
    offset: u64,
    reply: &mut [u32],
    replies: &mut [PacketReplies],
    block: &mut Block,
) -> u32
    ensures { AreTaken endpoint.old.holds words.now offset reply.old replies.old
        result block.new reply.new replies.new endpoint.new.holds }
{
    let Some(mut held) = endpoint.take(alloc) else {
        *block = Block::nothing();
        return Status::HandleClosed.number();
    };
    let status = match &mut *held {
        Engine::Endpoint(engine) => engine.packets(words, offset, reply, replies, block),
        _ => {
            *block = Block::nothing();
            Status::OtherKind
        }
    };
    endpoint.put(held);
    status.number()
}

/// Writes the protocol in force, 1 for MIDI 1.0 and 2 for MIDI 2.0 (M2-104-UM, Stream Configuration). Returns
/// `HandleClosed` or `OtherKind`, and writes nothing, if the handle isn't open for this.
#[unsafe(no_mangle)]
pub extern "C" fn larboardyuzu_endpoint_protocol(
    alloc: Global,
    endpoint: &mut Handle,
    protocol: &mut u8,
) -> u32
    ensures same { endpoint.new.holds ≡ endpoint.old.holds }
    ensures answer { HasProtocol endpoint.old.holds result protocol.old protocol.new }
{
    let Some(held) = endpoint.take(alloc) else {
        return Status::HandleClosed.number();
    };
    let status = match &*held {
        Engine::Endpoint(engine) => {
            *protocol = engine.protocol();
            Status::Done
        }
        _ => Status::OtherKind,
    };
    endpoint.put(held);
    status.number()
}

/// Writes the MUID in force of a function block, counted from 0 (M2-101-UM). Returns `HandleClosed`,
/// `OtherKind`, or `Nothing` if there is no such block, or if it has no MIDI-CI or has used up its MUIDs; the
/// number is then unchanged.
#[unsafe(no_mangle)]
pub extern "C" fn larboardyuzu_endpoint_muid(
    alloc: Global,
    endpoint: &mut Handle,
    block: u8,
    muid: &mut u32,
) -> u32
    ensures same { endpoint.new.holds ≡ endpoint.old.holds }
    ensures answer { HasMuid endpoint.old.holds block result muid.old muid.new }
{
    let Some(held) = endpoint.take(alloc) else {
        return Status::HandleClosed.number();
    };
    let status = match &*held {
        Engine::Endpoint(engine) => engine.muid(block, muid),
        _ => Status::OtherKind,
    };
    endpoint.put(held);
    status.number()
}

/// Writes a profile and whether it is enabled. Profiles are counted from 0 in the order of the setup. Returns
/// `HandleClosed`, `OtherKind` or, if there is no such profile, `Nothing`; the profile written is then empty.
#[unsafe(no_mangle)]
pub extern "C" fn larboardyuzu_endpoint_profile(
    alloc: Global,
    endpoint: &mut Handle,
    index: usize,
    profile: &mut EndpointProfile,
) -> u32
    ensures same { endpoint.new.holds ≡ endpoint.old.holds }
    ensures answer { HasProfile endpoint.old.holds index result profile.new }
{
    let Some(held) = endpoint.take(alloc) else {
        *profile = EndpointProfile::none();
        return Status::HandleClosed.number();
    };
    let status = match &*held {
        Engine::Endpoint(engine) => engine.profile(index, profile),
        _ => {
            *profile = EndpointProfile::none();
            Status::OtherKind
        }
    };
    endpoint.put(held);
    status.number()
}

/// Writes the offset of the packet with which a group's open exclusive began. Returns `HandleClosed`,
/// `OtherKind`, `BadGroup` if the group isn't 0 to 15, or `Nothing` if no exclusive is open; the offset is
/// then unchanged.
#[unsafe(no_mangle)]
pub extern "C" fn larboardyuzu_endpoint_begun(
    alloc: Global,
    endpoint: &mut Handle,
    group: u8,
    offset: &mut u64,
) -> u32
    ensures same { endpoint.new.holds ≡ endpoint.old.holds }
    ensures answer { HasBegun endpoint.old.holds group result offset.old offset.new }
{
    let Some(held) = endpoint.take(alloc) else {
        return Status::HandleClosed.number();
    };
    let status = match &*held {
        Engine::Endpoint(engine) => engine.begun(group, offset),
        _ => Status::OtherKind,
    };
    endpoint.put(held);
    status.number()
}

/// Returns the handle to the state that it had just after it was opened (own rule): the protocol, the MUIDs
/// and the profiles are those of the setup. The call doesn't allocate. Returns `HandleClosed` or `OtherKind`,
/// and changes nothing, if the handle isn't open for this.
#[unsafe(no_mangle)]
pub extern "C" fn larboardyuzu_endpoint_reset(alloc: Global, endpoint: &mut Handle) -> u32
    ensures { IsReset endpoint.old.holds result endpoint.new.holds }
{
    let Some(mut held) = endpoint.take(alloc) else {
        return Status::HandleClosed.number();
    };
    let status = match &mut *held {
        Engine::Endpoint(engine) => {
            engine.reset();
            Status::Done
        }
        _ => Status::OtherKind,
    };
    endpoint.put(held);
    status.number()
}

/// Closes a handle, whatever it is open for, and frees its memory. A closed handle stays closed.
#[unsafe(no_mangle)]
pub extern "C" fn larboardyuzu_endpoint_close(alloc: Global, endpoint: &mut Handle)
    ensures { endpoint.new.holds ≡ None }
{
    let _held = endpoint.take(alloc);
}
