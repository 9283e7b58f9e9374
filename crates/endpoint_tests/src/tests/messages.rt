// Messages by hand from the tables of M2-101-UM, read and written. The rows of `worked_rows` tell of those that
// are only read: cut short, refused, or with bytes after their fields.
ghost use Rattle.std.specs.Prelude.{◌≤◌, length};
ghost use Rattle.ci_messages.specs.Fields.{IsData};
ghost use Rattle.ci_messages.specs.Writing.{IsView, message_bytes};

use super::has_text;
use ci_messages::*;
use endpoint_fixtures::{CiMessage, FIRST_MUID, PEER, framed, profile_id};
use small_types::ShortList;
use std::test::Fail;
use voice_messages::{U4, U7};

// The bytes between F0 and F7 of a message with a body, from MUID 5 to 19088743 at channel 2; `None` if there
// are more than 510.
fn payload(sub: u8, version: u8, body: &[u8]) -> Option<ShortList<u8, 510>> {
    let message = CiMessage {
        address: 0x02,
        sub,
        version,
        source: PEER,
        destination: FIRST_MUID,
        body,
    };
    message.payload()
}

// A view of a message with a body, of version 02 unless another is given.
macro_rules! view_of {
    ($sub:expr, $body:expr) => {
        view_of!($sub, 2, $body)
    };
    ($sub:expr, $version:expr, $body:expr) => {
        CiView {
            address: Address::Channel(U4::low_bits(2)),
            sub: $sub,
            version: $version,
            source: 5,
            destination: 19_088_743,
            body: $body,
        }
    };
}

// Whether the bytes between F0 and F7 are read as the view.
fn is_read(payload: &[u8], view: &CiView<'_>) -> bool {
    match framed(payload) {
        Some(message) => matches!(read(message.as_slice()), Ok(found) if found == *view),
        None => false,
    }
}

// Whether the view is written as the exclusive with these bytes between F0 and F7.
fn is_written(view: &CiView<'_>, payload: &[u8]) -> bool
    requires view { IsView view.now }
    requires version { 1 ≤ view.now.version }
    requires fits { length (message_bytes view.now) ≤ 512 }
{
    let mut message = ShortList::new();
    write(view, &mut message);
    match framed(payload) {
        Some(framed) => framed == message,
        None => false,
    }
}

// Whether a message whose body has these bytes is read as the view, which is written as that message.
fn is_row(bytes: &[u8], view: &CiView<'_>) -> bool
    requires view { IsView view.now }
    requires version { 1 ≤ view.now.version }
    requires fits { length (message_bytes view.now) ≤ 512 }
{
    match payload(view.sub, view.version, bytes) {
        Some(payload) => is_read(payload.as_slice(), view) && is_written(view, payload.as_slice()),
        None => false,
    }
}

fn profile() -> ProfileId
    ensures { IsData result.bytes }
{
    ProfileId {
        bytes: [
            U7::low_bits(0x7E),
            U7::low_bits(0x00),
            U7::low_bits(0x01),
            U7::low_bits(0x02),
            U7::low_bits(0x03),
        ],
    }
}

#[test]
fn discovery_messages(rt: HostRuntime) {
    let bytes = [
        0x00, 0x21, 0x09, 0x11, 0x12, 0x13, 0x14, 0x01, 0x02, 0x03, 0x04, 0x1C, 0x05, 0x06, 0x07,
        0x01, 0x1E, 0x1F,
    ];
    let discovery = Body::Discovery {
        manufacturer: [0x00, 0x21, 0x09],
        family: [0x11, 0x12],
        model: [0x13, 0x14],
        revision: [0x01, 0x02, 0x03, 0x04],
        category: 0x1C,
        size: 2_212_613,
        path: 0x1E,
    };
    assert!(rt; is_row(&bytes[..17], &view_of!(0x70, discovery)));
    let reply = Body::DiscoveryReply {
        manufacturer: [0x00, 0x21, 0x09],
        family: [0x11, 0x12],
        model: [0x13, 0x14],
        revision: [0x01, 0x02, 0x03, 0x04],
        category: 0x1C,
        size: 2_212_613,
        path: 0x1E,
        block: 0x1F,
    };
    assert!(rt; is_row(&bytes, &view_of!(0x71, reply)));
}

#[test]
fn management_messages(rt: HostRuntime) {
    let inquiry = Body::EndpointInquiry { status: 3 };
    assert!(rt; is_row(&[0x03], &view_of!(0x72, inquiry)));
    let reply = Body::EndpointReply {
        status: 3,
        text: &[0x53, 0x4E, 0x31],
    };
    let bytes = [0x03, 0x03, 0x00, 0x53, 0x4E, 0x31];
    assert!(rt; is_row(&bytes, &view_of!(0x73, reply)));
    let invalidate = Body::Invalidate { target: 19_088_743 };
    let bytes = [0x67, 0x0A, 0x0D, 0x09];
    assert!(rt; is_row(&bytes, &view_of!(0x7E, invalidate)));
    let nak = Body::Nak {
        original: 0x22,
        code: 0x01,
        value: 0x02,
        details: [0x03, 0x04, 0x05, 0x06, 0x07],
        text: &[0x6E, 0x6F],
    };
    let bytes = [
        0x22, 0x01, 0x02, 0x03, 0x04, 0x05, 0x06, 0x07, 0x02, 0x00, 0x6E, 0x6F,
    ];
    assert!(rt; is_row(&bytes, &view_of!(0x7F, nak)));
}

#[test]
fn profile_messages(rt: HostRuntime) {
    assert!(rt; is_row(&[], &view_of!(0x20, Body::ProfileInquiry)));
    let reply = Body::ProfileReply {
        on: &[0x7E, 0x00, 0x01, 0x02, 0x03, 0x7E, 0x00, 0x02, 0x02, 0x03],
        off: &[0x7E, 0x00, 0x03, 0x02, 0x03],
    };
    let bytes = [
        0x02, 0x00, 0x7E, 0x00, 0x01, 0x02, 0x03, 0x7E, 0x00, 0x02, 0x02, 0x03, 0x01, 0x00, 0x7E,
        0x00, 0x03, 0x02, 0x03,
    ];
    assert!(rt; is_row(&bytes, &view_of!(0x21, reply)));
    let bytes = [0x7E, 0x00, 0x01, 0x02, 0x03, 0x01, 0x02];
    let set_on = Body::SetOn {
        id: profile(),
        channels: 257,
    };
    assert!(rt; is_row(&bytes, &view_of!(0x22, set_on)));
    let enabled = Body::EnabledReport {
        id: profile(),
        channels: 257,
    };
    assert!(rt; is_row(&bytes, &view_of!(0x24, enabled)));
    let disabled = Body::DisabledReport {
        id: profile(),
        channels: 257,
    };
    assert!(rt; is_row(&bytes, &view_of!(0x25, disabled)));
    let set_off = Body::SetOff { id: profile() };
    let bytes = [0x7E, 0x00, 0x01, 0x02, 0x03, 0x00, 0x00];
    assert!(rt; is_row(&bytes, &view_of!(0x23, set_off)));
}

#[test]
fn unread_messages(rt: HostRuntime) {
    let bytes = [0x01, 0x02, 0x03];
    assert!(rt; is_row(&bytes, &view_of!(0x30, Body::Property(&[0x01, 0x02, 0x03]))));
    assert!(rt; is_row(&bytes, &view_of!(0x3F, Body::Property(&[0x01, 0x02, 0x03]))));
    assert!(rt; is_row(&bytes, &view_of!(0x29, Body::Other(&[0x01, 0x02, 0x03]))));
    assert!(rt; is_row(&[], &view_of!(0x40, Body::Other(&[]))));
}

// A Discovery to broadcast, and a switch of a profile.
const DISCOVERY: [u8; 30] = [
    0x7E, 0x7F, 0x0D, 0x70, 0x02, 0x05, 0x00, 0x00, 0x00, 0x7F, 0x7F, 0x7F, 0x7F, 0x7D, 0x00, 0x00,
    0x01, 0x00, 0x02, 0x00, 0x01, 0x00, 0x00, 0x00, 0x04, 0x00, 0x02, 0x00, 0x00, 0x00,
];

const SET_ON: [u8; 20] = [
    0x7E, 0x02, 0x0D, 0x22, 0x02, 0x05, 0x00, 0x00, 0x00, 0x67, 0x0A, 0x0D, 0x09, 0x7E, 0x00, 0x01,
    0x01, 0x00, 0x01, 0x00,
];

#[test]
fn worked_messages(rt: HostRuntime) {
    let discovery = CiView {
        address: Address::Block,
        sub: 0x70,
        version: 2,
        source: 5,
        destination: 0x0FFF_FFFF,
        body: Body::Discovery {
            manufacturer: [125, 0, 0],
            family: [1, 0],
            model: [2, 0],
            revision: [1, 0, 0, 0],
            category: 4,
            size: 256,
            path: 0,
        },
    };
    assert!(rt; is_read(&DISCOVERY, &discovery));
    assert!(rt; is_written(&discovery, &DISCOVERY));
    let id = profile_id();
    let set_on = view_of!(0x22, Body::SetOn { id, channels: 1 });
    assert!(rt; is_read(&SET_ON, &set_on));
    assert!(rt; is_written(&set_on, &SET_ON));
}

#[test]
fn a_text_of_130_bytes(rt: HostRuntime) {
    // 130 is 02 01, the low seven bits first.
    let mut bytes = [0x41; 133];
    bytes[0] = 0x00;
    bytes[1] = 0x02;
    bytes[2] = 0x01;
    let reply = Body::EndpointReply {
        status: 0,
        text: &[0x41; 130],
    };
    assert!(rt; is_row(&bytes, &view_of!(0x73, reply)));
}

#[test]
fn the_most_profiles(rt: HostRuntime) {
    // 98 ids of five bytes fill 509 bytes, and 64 is 40 00.
    let mut bytes = [0x11; 494];
    bytes[0] = 0x22;
    bytes[1] = 0x00;
    bytes[172] = 0x40;
    bytes[173] = 0x00;
    let reply = Body::ProfileReply {
        on: &[0x11; 170],
        off: &[0x11; 320],
    };
    assert!(rt; is_row(&bytes, &view_of!(0x21, reply)));
}

// Of a Discovery the path has no place, and of its reply neither the path nor the block.
#[test]
fn short_discovery_messages(rt: HostRuntime) {
    let bytes = [
        0x00, 0x21, 0x09, 0x11, 0x12, 0x13, 0x14, 0x01, 0x02, 0x03, 0x04, 0x1C, 0x05, 0x06, 0x07,
        0x01,
    ];
    let discovery = Body::Discovery {
        manufacturer: [0x00, 0x21, 0x09],
        family: [0x11, 0x12],
        model: [0x13, 0x14],
        revision: [0x01, 0x02, 0x03, 0x04],
        category: 0x1C,
        size: 2_212_613,
        path: 0,
    };
    assert!(rt; is_row(&bytes, &view_of!(0x70, 1, discovery)));
    let reply = Body::DiscoveryReply {
        manufacturer: [0x00, 0x21, 0x09],
        family: [0x11, 0x12],
        model: [0x13, 0x14],
        revision: [0x01, 0x02, 0x03, 0x04],
        category: 0x1C,
        size: 2_212_613,
        path: 0,
        block: 0x7F,
    };
    assert!(rt; is_row(&bytes, &view_of!(0x71, 1, reply)));
}

#[test]
fn short_management_messages(rt: HostRuntime) {
    let invalidate = Body::Invalidate { target: 19_088_743 };
    let bytes = [0x67, 0x0A, 0x0D, 0x09];
    assert!(rt; is_row(&bytes, &view_of!(0x7E, 1, invalidate)));
    let nak = Body::Nak {
        original: 0,
        code: 0,
        value: 0,
        details: [0, 0, 0, 0, 0],
        text: &[],
    };
    assert!(rt; is_row(&[], &view_of!(0x7F, 1, nak)));
    // The messages of the endpoint have no row.
    let bytes = [0x03, 0x03, 0x00];
    assert!(rt; is_row(&bytes, &view_of!(0x72, 1, Body::Other(&[0x03, 0x03, 0x00]))));
    assert!(rt; is_row(&bytes, &view_of!(0x73, 1, Body::Other(&[0x03, 0x03, 0x00]))));
    assert!(rt;
        is_row(
            &bytes,
            &view_of!(0x34, 1, Body::Property(&[0x03, 0x03, 0x00]))
        )
    );
    assert!(rt; is_row(&bytes, &view_of!(0x7D, 1, Body::Other(&[0x03, 0x03, 0x00]))));
}

// The channels and the reserved bytes of a switch have no place.
#[test]
fn short_profile_messages(rt: HostRuntime) {
    assert!(rt; is_row(&[], &view_of!(0x20, 1, Body::ProfileInquiry)));
    let reply = Body::ProfileReply {
        on: &[0x7E, 0x00, 0x01, 0x02, 0x03],
        off: &[],
    };
    let bytes = [0x01, 0x00, 0x7E, 0x00, 0x01, 0x02, 0x03, 0x00, 0x00];
    assert!(rt; is_row(&bytes, &view_of!(0x21, 1, reply)));
    let bytes = [0x7E, 0x00, 0x01, 0x02, 0x03];
    let set_on = Body::SetOn {
        id: profile(),
        channels: 0,
    };
    assert!(rt; is_row(&bytes, &view_of!(0x22, 1, set_on)));
    let set_off = Body::SetOff { id: profile() };
    assert!(rt; is_row(&bytes, &view_of!(0x23, 1, set_off)));
    let enabled = Body::EnabledReport {
        id: profile(),
        channels: 0,
    };
    assert!(rt; is_row(&bytes, &view_of!(0x24, 1, enabled)));
    let disabled = Body::DisabledReport {
        id: profile(),
        channels: 0,
    };
    assert!(rt; is_row(&bytes, &view_of!(0x25, 1, disabled)));
}

#[test]
fn each_fault_has_its_text(rt: HostRuntime) -> Result<(), Fail> {
    for (fault, text) in [
        (CiFault::NotCi, "the exclusive is not MIDI-CI"),
        (CiFault::Short, "the message ends before its fields do"),
        (
            CiFault::BadAddress,
            "the address is neither a channel, the group nor the function block",
        ),
        (
            CiFault::ReservedMuid,
            "the source is a reserved or broadcast MUID",
        ),
    ] {
        has_text(&rt, rt.alloc(), &fault, text)?;
    }
    Ok(())
}
