// Messages by hand from the tables of M2-101-UM, and the most messages of a rehearsal. The rows of
// `worked_rows` tell of other rehearsals.
use super::{has_text, is_same};
use ci_initiator::{Ask, EventFault, Initiator, Noted, Rehearsal, Told, Watch, watches_differ};
use ci_messages::laws::views_that_are_read_fit;
use ci_messages::{Address, ProfileId, read};
use ci_responder::Heard;
use endpoint_fixtures::{
    BROADCAST, CiMessage, DEMO_SETUP, DISCOVERY_REPLY, MuidBytes, OTHER_PROFILE, PROFILE,
    SECOND_MUID, profile_id,
};
use function_blocks::Setup;
use small_types::ShortList;
use std::alloc::Global;
use std::test::Fail;
use voice_messages::{U4, U7};

fn opened(alloc: Global) -> Option<Rehearsal> {
    let setup = Setup::read(alloc, DEMO_SETUP.as_bytes()).ok()?;
    Rehearsal::new(alloc, &setup).ok()
}

#[test]
fn too_many_messages(rt: HostRuntime) {
    let mut rehearsal = opened(rt.alloc()).expect(&rt, "no memory");
    for _ in 0..1024 {
        is_same(&rt, &rehearsal.event(0, 0), &Ok(Told::Asked));
    }
    is_same(&rt, &rehearsal.event(0, 0), &Err(EventFault::TooMany));
    is_same(&rt, &rehearsal.event(0, 2), &Err(EventFault::BadEvent));
    for _ in 0..1024 {
        is_same(
            &rt,
            &rehearsal.event(1, 0),
            &Ok(Told::Heard(Heard::Answered)),
        );
    }
    is_same(&rt, &rehearsal.event(1, 0), &Err(EventFault::TooMany));
    is_same(&rt, &rehearsal.event(1, 1024), &Err(EventFault::BadEvent));
}

// ---- the initiator alone

// 1, the initiator's own; 300, the peer's; and 77.
const OWN: MuidBytes = [0x01, 0x00, 0x00, 0x00];

const PEER: MuidBytes = SECOND_MUID;

const OTHER: MuidBytes = [0x4D, 0x00, 0x00, 0x00];

// One profile on and two off; and the same the other way round.
const ON_OFF: [u8; 19] = [
    0x01, 0x00, 0x7E, 0x00, 0x01, 0x01, 0x00, 0x02, 0x00, 0x7E, 0x00, 0x01, 0x01, 0x00, 0x7E, 0x00,
    0x01, 0x02, 0x00,
];

const OFF: [u8; 14] = [
    0x01, 0x00, 0x7E, 0x00, 0x01, 0x02, 0x00, 0x01, 0x00, 0x7E, 0x00, 0x01, 0x01, 0x00,
];

// A message of version 02.
fn came<'a>(
    address: u8,
    sub: u8,
    source: MuidBytes,
    destination: MuidBytes,
    body: &'a [u8],
) -> CiMessage<'a> {
    CiMessage {
        address,
        sub,
        version: 2,
        source,
        destination,
        body,
    }
}

// What is noted of a message on this group; `None` if it isn't one.
fn noted_on(initiator: &mut Initiator, group: u32, came: &CiMessage<'_>) -> Option<Noted> {
    let message = came.exclusive()?;
    views_that_are_read_fit();
    match read(message.as_slice()) {
        Ok(view) => Some(initiator.hear(U4::low_bits(group), &view)),
        Err(_) => None,
    }
}

fn noted(initiator: &mut Initiator, came: &CiMessage<'_>) -> Option<Noted> {
    noted_on(initiator, 0, came)
}

fn watch_of(group: u32, address: Address, id: ProfileId) -> Watch {
    Watch {
        group: U4::low_bits(group),
        address,
        id,
    }
}

fn channel_2() -> Address {
    Address::Channel(U4::low_bits(2))
}

fn another_id() -> ProfileId {
    ProfileId {
        bytes: [U7::low_bits(1); 5],
    }
}

fn watch_of_channel() -> Watch {
    watch_of(0, channel_2(), profile_id())
}

fn watch_of_group() -> Watch {
    watch_of(0, Address::Group, profile_id())
}

// An initiator of the MUID 1 that watches one profile of channel 2 on group 0, and the same of that group.
fn watching(alloc: Global) -> Option<Initiator> {
    let watches = [watch_of_channel(), watch_of_group()];
    if watches_differ(&watches) {
        Initiator::new(alloc, 1, &watches).ok()
    } else {
        None
    }
}

#[test]
fn watches_differ_in_the_group_the_address_or_the_id(rt: HostRuntime) {
    let differing = [
        watch_of_channel(),
        watch_of_group(),
        watch_of(1, channel_2(), profile_id()),
        watch_of(0, channel_2(), another_id()),
    ];
    assert!(rt; watches_differ(&differing));
    let twice = [watch_of_group(), watch_of_channel(), watch_of_group()];
    assert!(rt; !watches_differ(&twice));
}

// The same of an initiator.
fn held(initiator: &Initiator, k: usize) -> Option<bool> {
    if k < initiator.watches() {
        initiator.holds(k)
    } else {
        None
    }
}

#[test]
fn the_first_device_that_replies_is_the_peer(rt: HostRuntime) {
    let mut initiator = watching(rt.alloc()).expect(&rt, "no memory");
    let report = came(0x02, 0x24, PEER, BROADCAST, &PROFILE);
    is_same(&rt, &noted(&mut initiator, &report), &Some(Noted::Other));
    let own = came(0x7F, 0x71, OWN, OWN, &DISCOVERY_REPLY);
    is_same(&rt, &noted(&mut initiator, &own), &Some(Noted::Other));
    let elsewhere = came(0x7F, 0x71, PEER, OTHER, &DISCOVERY_REPLY);
    is_same(&rt, &noted(&mut initiator, &elsewhere), &Some(Noted::Other));
    is_same(&rt, &initiator.peer(), &None);
    let peer = came(0x7F, 0x71, PEER, OWN, &DISCOVERY_REPLY);
    is_same(&rt, &noted(&mut initiator, &peer), &Some(Noted::Peer));
    let other = came(0x7F, 0x71, OTHER, OWN, &DISCOVERY_REPLY);
    is_same(&rt, &noted(&mut initiator, &other), &Some(Noted::Other));
    is_same(&rt, &noted(&mut initiator, &peer), &Some(Noted::Peer));
    is_same(&rt, &initiator.peer(), &Some(300));
}

#[test]
fn what_the_peer_reports_is_held(rt: HostRuntime) {
    let mut initiator = watching(rt.alloc()).expect(&rt, "no memory");
    let peer = came(0x7F, 0x71, PEER, OWN, &DISCOVERY_REPLY);
    is_same(&rt, &noted(&mut initiator, &peer), &Some(Noted::Peer));
    let mut on = came(0x02, 0x24, PEER, BROADCAST, &PROFILE);
    on.version = 0;
    is_same(&rt, &noted(&mut initiator, &on), &Some(Noted::Other));
    on.version = 2;
    is_same(&rt, &noted_on(&mut initiator, 1, &on), &Some(Noted::Other));
    is_same(&rt, &held(&initiator, 0), &None);
    is_same(&rt, &noted(&mut initiator, &on), &Some(Noted::Told(0)));
    is_same(&rt, &held(&initiator, 0), &Some(true));
    is_same(&rt, &held(&initiator, 1), &None);
    for unheard in [
        came(0x02, 0x25, OTHER, BROADCAST, &PROFILE),
        came(0x02, 0x25, PEER, BROADCAST, &OTHER_PROFILE),
        came(0x03, 0x25, PEER, BROADCAST, &PROFILE),
        came(0x02, 0x22, PEER, OWN, &PROFILE),
    ] {
        is_same(&rt, &noted(&mut initiator, &unheard), &Some(Noted::Other));
    }
    is_same(&rt, &held(&initiator, 0), &Some(true));
    let off = came(0x7E, 0x25, PEER, BROADCAST, &PROFILE);
    is_same(&rt, &noted(&mut initiator, &off), &Some(Noted::Told(1)));
    is_same(&rt, &held(&initiator, 0), &Some(true));
    is_same(&rt, &held(&initiator, 1), &Some(false));
}

// A profile in both lists of an inventory is held on.
#[test]
fn inventories_are_of_a_place(rt: HostRuntime) {
    let mut initiator = watching(rt.alloc()).expect(&rt, "no memory");
    let peer = came(0x7F, 0x71, PEER, OWN, &DISCOVERY_REPLY);
    is_same(&rt, &noted(&mut initiator, &peer), &Some(Noted::Peer));
    let both = came(0x02, 0x21, PEER, OWN, &ON_OFF);
    is_same(&rt, &noted(&mut initiator, &both), &Some(Noted::Inventory));
    is_same(&rt, &held(&initiator, 0), &Some(true));
    is_same(&rt, &held(&initiator, 1), &None);
    let off = came(0x02, 0x21, PEER, OWN, &OFF);
    is_same(&rt, &noted(&mut initiator, &off), &Some(Noted::Inventory));
    is_same(&rt, &held(&initiator, 0), &Some(false));
    let other = came(0x02, 0x21, OTHER, OWN, &ON_OFF);
    is_same(&rt, &noted(&mut initiator, &other), &Some(Noted::Other));
    is_same(&rt, &held(&initiator, 0), &Some(false));
}

#[test]
fn nothing_is_held_of_a_peer_that_is_gone(rt: HostRuntime) {
    let mut initiator = watching(rt.alloc()).expect(&rt, "no memory");
    let peer = came(0x7F, 0x71, PEER, OWN, &DISCOVERY_REPLY);
    is_same(&rt, &noted(&mut initiator, &peer), &Some(Noted::Peer));
    let on = came(0x02, 0x24, PEER, BROADCAST, &PROFILE);
    is_same(&rt, &noted(&mut initiator, &on), &Some(Noted::Told(0)));
    let another = came(0x7F, 0x7E, PEER, BROADCAST, &OTHER);
    is_same(&rt, &noted(&mut initiator, &another), &Some(Noted::Other));
    is_same(&rt, &held(&initiator, 0), &Some(true));
    let gone = came(0x7F, 0x7E, OTHER, BROADCAST, &PEER);
    is_same(&rt, &noted(&mut initiator, &gone), &Some(Noted::Gone));
    is_same(&rt, &initiator.peer(), &None);
    is_same(&rt, &held(&initiator, 0), &None);
    is_same(&rt, &noted(&mut initiator, &on), &Some(Noted::Other));
}

// Whether what is asked has these bytes.
fn is_asked(initiator: &Initiator, what: Ask, bytes: &[u8]) -> bool {
    if !initiator.can_ask(what) {
        return false;
    }
    let mut message = ShortList::new();
    initiator.ask(what, &mut message);
    message.as_slice() == bytes
}

#[test]
fn the_messages_that_ask(rt: HostRuntime) {
    let mut initiator = watching(rt.alloc()).expect(&rt, "no memory");
    let discovery = [
        0xF0, 0x7E, 0x7F, 0x0D, 0x70, 0x02, 0x01, 0x00, 0x00, 0x00, 0x7F, 0x7F, 0x7F, 0x7F, 0x00,
        0x00, 0x00, 0x00, 0x00, 0x00, 0x00, 0x00, 0x00, 0x00, 0x00, 0x04, 0x00, 0x04, 0x00, 0x00,
        0x00, 0xF7,
    ];
    assert!(rt; is_asked(&initiator, Ask::Discover, &discovery));
    assert!(rt; !initiator.can_ask(Ask::On(0)));
    let peer = came(0x7F, 0x71, PEER, OWN, &DISCOVERY_REPLY);
    is_same(&rt, &noted(&mut initiator, &peer), &Some(Noted::Peer));
    let inquiry = [
        0xF0, 0x7E, 0x02, 0x0D, 0x20, 0x02, 0x01, 0x00, 0x00, 0x00, 0x2C, 0x02, 0x00, 0x00, 0xF7,
    ];
    assert!(rt; is_asked(&initiator, Ask::Inquire(0), &inquiry));
    let on = [
        0xF0, 0x7E, 0x02, 0x0D, 0x22, 0x02, 0x01, 0x00, 0x00, 0x00, 0x2C, 0x02, 0x00, 0x00, 0x7E,
        0x00, 0x01, 0x01, 0x00, 0x01, 0x00, 0xF7,
    ];
    assert!(rt; is_asked(&initiator, Ask::On(0), &on));
    let on_group = [
        0xF0, 0x7E, 0x7E, 0x0D, 0x22, 0x02, 0x01, 0x00, 0x00, 0x00, 0x2C, 0x02, 0x00, 0x00, 0x7E,
        0x00, 0x01, 0x01, 0x00, 0x00, 0x00, 0xF7,
    ];
    assert!(rt; is_asked(&initiator, Ask::On(1), &on_group));
    let off = [
        0xF0, 0x7E, 0x02, 0x0D, 0x23, 0x02, 0x01, 0x00, 0x00, 0x00, 0x2C, 0x02, 0x00, 0x00, 0x7E,
        0x00, 0x01, 0x01, 0x00, 0x00, 0x00, 0xF7,
    ];
    assert!(rt; is_asked(&initiator, Ask::Off(0), &off));
    assert!(rt; !initiator.can_ask(Ask::Off(2)));
}

#[test]
fn each_fault_has_its_text(rt: HostRuntime) -> Result<(), Fail> {
    for (fault, text) in [
        (
            EventFault::BadEvent,
            "the event is of no kind, or asks for what is not there",
        ),
        (
            EventFault::TooMany,
            "the side that would send has sent 1,024 messages already",
        ),
    ] {
        has_text(&rt, rt.alloc(), &fault, text)?;
    }
    Ok(())
}
