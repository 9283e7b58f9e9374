// Packets by hand from the tables of M2-104-UM and M2-101-UM, taken by an endpoint of one block with two
// MUIDs and one profile. The rows of `worked_rows` tell of the rest.
ghost use Rattle.std.specs.Prelude.{◌≤◌};
ghost use Rattle.std.specs.Option.{IfSome};
ghost use Rattle.ump_grammar.specs.Ranges.{IsPacket};

use super::is_same;
use endpoint_fixtures::{DEMO_SETUP, profile_id};
use function_blocks::Setup;
use packet_words::words::words_in_packet;
use packet_words::{Framed, Words};
use small_types::U4;
use std::alloc::Global;
use std::test::Fail;
use ump_endpoint::{BadStep, Endpoint, Heard, Key, Outcome, Place, Taken};
use ump_grammar::{Packet, decode};

// A packet that neither ended a message nor lost anything.
const NOTHING: Taken = Taken {
    outcome: None,
    listed: None,
};

// The only profile of the setup.
fn demo_profile() -> Key {
    Key {
        block: 0,
        place: Place::Channel(U4::low_bits(0), U4::low_bits(2)),
        id: profile_id(),
    }
}

fn opened(alloc: Global, room: u32) -> Result<Endpoint, Fail>
    requires least { 6 ≤ room }
    requires most { room ≤ 1048576 }
{
    let setup = Setup::read(alloc, DEMO_SETUP.as_bytes())?;
    Ok(Endpoint::new(alloc, setup, room)?)
}

// The packet of the words; `None` if there is none.
fn packet_of(words: &[u32]) -> Option<Packet>
    ensures { IfSome result IsPacket }
{
    if words.is_empty() || words.len() > 4 || words_in_packet(words[0]) != words.len() {
        return None;
    }
    let framed = Framed {
        offset: 0,
        words: Words::from_slice(words),
    };
    decode(&framed).ok()
}

// What the endpoint did with a packet at an offset; `None` if the words are no packet.
fn taken(endpoint: &mut Endpoint, words: &[u32], offset: u64) -> Option<Result<Taken, BadStep>> {
    let packet = packet_of(words)?;
    Some(endpoint.packet(&packet, offset))
}

// A packet that ended a message of which this became, and lost nothing.
fn ended(outcome: Outcome) -> Option<Result<Taken, BadStep>> {
    Some(Ok(Taken {
        outcome: Some(outcome),
        listed: None,
    }))
}

#[test]
fn a_profile_is_switched_on(rt: HostRuntime) -> Result<(), Fail> {
    let alloc = rt.alloc();
    let mut endpoint = opened(alloc, 64)?;
    is_same(&rt, &endpoint.muid(0), &Some(19088743));
    is_same(&rt, &endpoint.profile_is_on(&demo_profile()), &Some(false));
    for words in [
        [0x30167E02u32, 0x0D220205],
        [0x30260000, 0x00670A0D],
        [0x3026097E, 0x00010100],
    ] {
        is_same(&rt, &taken(&mut endpoint, &words, 0), &Some(Ok(NOTHING)));
    }
    let result = taken(&mut endpoint, &[0x30320100, 0], 24);
    is_same(&rt, &result, &ended(Outcome::Heard(Heard::Answered)));
    is_same(&rt, &endpoint.profile_is_on(&demo_profile()), &Some(true));
    let mut replies = endpoint.replies();
    for expected in [
        [0x30167E02u32, 0x0D240267],
        [0x30260A0D, 0x097F7F7F],
        [0x30267F7E, 0x00010100],
        [0x30320100, 0],
    ] {
        match replies.next() {
            Some(words) => is_same(&rt, &words, &expected.as_slice()),
            None => assert!(rt; false, "a reply is missing"),
        }
    }
    assert!(rt; replies.is_empty());
    Ok(())
}

#[test]
fn an_exclusive_past_the_room_is_refused(rt: HostRuntime) -> Result<(), Fail> {
    let alloc = rt.alloc();
    let mut endpoint = opened(alloc, 6)?;
    let begun = [0x30160102u32, 0x03040506];
    let result = taken(&mut endpoint, &begun, 0);
    is_same(&rt, &result, &Some(Ok(NOTHING)));
    is_same(&rt, &endpoint.begun_at(U4::low_bits(0)), &Some(0));
    let past = taken(&mut endpoint, &[0x30210700, 0], 0);
    is_same(&rt, &past, &Some(Err(BadStep::ExclusiveTooLong)));
    assert!(rt; endpoint.begun_at(U4::low_bits(0)).is_none());
    let result = taken(&mut endpoint, &[0xF0050100, 0, 0, 0], 0);
    is_same(&rt, &result, &ended(Outcome::Answered));
    Ok(())
}
