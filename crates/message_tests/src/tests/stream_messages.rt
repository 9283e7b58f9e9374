// The rows of the standard's layout by hand, and each way in which a text can go wrong. The rows of
// `worked_rows` tell of formats that a message may not have.
ghost use Rattle.std.specs.Prelude.{◌≡◌, ◌<◌, ◌^◌};
ghost use Rattle.ump_grammar.specs.Ranges.{IsPacket};
ghost use Rattle.system_stream.specs.Layout.{FitsPlaces, IsStream};

use super::{has_text, is_same_in};
use std::process::Abort;
use std::test::Fail;
use system_stream::*;
use ump_grammar::{Packet, encode};
use voice_messages::Form;

fn stream(format: u8, status: u16, low: u16, second: u32, third: u32, fourth: u32) -> Packet
    requires format { format < 4 }
    requires status { status < 2 ^ 10 }
    ensures stream { IsStream result }
    ensures fits { IsPacket result }
{
    Packet::Stream {
        format,
        status,
        low,
        second,
        third,
        fourth,
    }
}

// Whether the words are those of the packet, which is read as the message and written from it.
fn is_row(words: [u32; 4], packet: &Packet, message: &StreamMessage) -> bool
    requires stream { IsStream packet.now }
    requires packet { IsPacket packet.now }
    requires message { FitsPlaces message.now }
{
    encode(packet).as_slice() == words.as_slice()
        && read(packet) == Ok(*message)
        && write(message) == *packet
}

#[test]
fn messages_of_one_packet(rt: HostRuntime) {
    let discovery = StreamMessage::Discovery {
        major: 1,
        minor: 1,
        filter: 0x1F,
    };
    let packet = stream(0, 0x000, 0x0101, 0x1F, 0, 0);
    assert!(rt; is_row([0xF000_0101, 0x0000_001F, 0, 0], &packet, &discovery));
    let info = StreamMessage::Info {
        major: 1,
        minor: 1,
        fixed: true,
        blocks: 1,
        midi2: true,
        midi1: true,
        receives_jr: false,
        sends_jr: false,
    };
    let packet = stream(0, 0x001, 0x0101, 0x8100_0300, 0, 0);
    assert!(rt; is_row([0xF001_0101, 0x8100_0300, 0, 0], &packet, &info));
    let identity = StreamMessage::Identity {
        manufacturer: [125, 0, 0],
        family: [1, 0],
        model: [2, 0],
        revision: [1, 0, 0, 0],
    };
    let packet = stream(0, 0x002, 0, 0x007D_0000, 0x0100_0200, 0x0100_0000);
    assert!(rt;
        is_row(
            [0xF002_0000, 0x007D_0000, 0x0100_0200, 0x0100_0000],
            &packet,
            &identity
        )
    );
    let request = StreamMessage::ConfigRequest { protocol: 1, jr: 0 };
    let packet = stream(0, 0x005, 0x0100, 0, 0, 0);
    assert!(rt; is_row([0xF005_0100, 0, 0, 0], &packet, &request));
    let notice = StreamMessage::ConfigNotice { protocol: 2, jr: 3 };
    let packet = stream(0, 0x006, 0x0203, 0, 0, 0);
    assert!(rt; is_row([0xF006_0203, 0, 0, 0], &packet, &notice));
}

#[test]
fn bits_and_bytes_are_told_apart(rt: HostRuntime) {
    let info = StreamMessage::Info {
        major: 1,
        minor: 2,
        fixed: false,
        blocks: 5,
        midi2: true,
        midi1: false,
        receives_jr: false,
        sends_jr: true,
    };
    let packet = stream(0, 0x001, 0x0102, 0x0500_0201, 0, 0);
    assert!(rt; is_row([0xF001_0102, 0x0500_0201, 0, 0], &packet, &info));
    let identity = StreamMessage::Identity {
        manufacturer: [1, 2, 3],
        family: [4, 5],
        model: [6, 7],
        revision: [8, 9, 10, 11],
    };
    let packet = stream(0, 0x002, 0, 0x0001_0203, 0x0405_0607, 0x0809_0A0B);
    assert!(rt;
        is_row(
            [0xF002_0000, 0x0001_0203, 0x0405_0607, 0x0809_0A0B],
            &packet,
            &identity
        )
    );
}

#[test]
fn messages_of_blocks_and_clips(rt: HostRuntime) {
    let discovery = StreamMessage::BlockDiscovery {
        block: 255,
        filter: 3,
    };
    let packet = stream(0, 0x010, 0xFF03, 0, 0, 0);
    assert!(rt; is_row([0xF010_FF03, 0, 0, 0], &packet, &discovery));
    let info = StreamMessage::BlockInfo {
        active: true,
        block: 0,
        hint: 3,
        midi1: 0,
        direction: 3,
        first: 0,
        count: 1,
        ci: 2,
        sysex8: 0,
    };
    let packet = stream(0, 0x011, 0x8033, 0x0001_0200, 0, 0);
    assert!(rt; is_row([0xF011_8033, 0x0001_0200, 0, 0], &packet, &info));
    let odd = StreamMessage::BlockInfo {
        active: false,
        block: 127,
        hint: 1,
        midi1: 2,
        direction: 2,
        first: 15,
        count: 1,
        ci: 1,
        sysex8: 255,
    };
    let packet = stream(0, 0x011, 0x7F1A, 0x0F01_01FF, 0, 0);
    assert!(rt; is_row([0xF011_7F1A, 0x0F01_01FF, 0, 0], &packet, &odd));
    let start = stream(0, 0x020, 0, 0, 0, 0);
    assert!(rt; is_row([0xF020_0000, 0, 0, 0], &start, &StreamMessage::StartClip));
    let end = stream(0, 0x021, 0, 0, 0, 0);
    assert!(rt; is_row([0xF021_0000, 0, 0, 0], &end, &StreamMessage::EndClip));
}

#[test]
fn packets_of_texts(rt: HostRuntime) {
    let first = StreamMessage::Name {
        form: Form::Start,
        text: *b"Demo Endpoint ",
    };
    let packet = stream(1, 0x003, 0x4465, 0x6D6F_2045, 0x6E64_706F, 0x696E_7420);
    assert!(rt;
        is_row(
            [0xF403_4465, 0x6D6F_2045, 0x6E64_706F, 0x696E_7420],
            &packet,
            &first
        )
    );
    let last = StreamMessage::Name {
        form: Form::End,
        text: *b"X\0\0\0\0\0\0\0\0\0\0\0\0\0",
    };
    let packet = stream(3, 0x003, 0x5800, 0, 0, 0);
    assert!(rt; is_row([0xFC03_5800, 0, 0, 0], &packet, &last));
    let product = StreamMessage::ProductId {
        form: Form::Complete,
        text: *b"SN-0001\0\0\0\0\0\0\0",
    };
    let packet = stream(0, 0x004, 0x534E, 0x2D30_3030, 0x3100_0000, 0);
    assert!(rt;
        is_row(
            [0xF004_534E, 0x2D30_3030, 0x3100_0000, 0],
            &packet,
            &product
        )
    );
    let block = StreamMessage::BlockName {
        form: Form::Continue,
        block: 2,
        text: *b"Main\0\0\0\0\0\0\0\0!",
    };
    let packet = stream(2, 0x012, 0x024D, 0x6169_6E00, 0, 0x0000_0021);
    assert!(rt; is_row([0xF812_024D, 0x6169_6E00, 0, 0x0000_0021], &packet, &block));
}

// Whether packet `k` of the text has these words, or there is none.
fn is_cut(kind: TextKind, text: &[u8], k: usize, words: Option<[u32; 4]>) -> bool {
    if text.is_empty() || text.len() > kind.limit() {
        return false;
    }
    match (cut_text(kind, 5, text, k), words) {
        (Some(packet), Some(words)) => encode(&packet).as_slice() == words.as_slice(),
        (None, None) => true,
        _ => false,
    }
}

#[test]
fn texts_are_cut(rt: HostRuntime) {
    let (name, id) = (TextKind::EndpointName, TextKind::ProductId);
    let text = b"Demo Endpoint X".as_slice();
    let first = [0xF403_4465, 0x6D6F_2045, 0x6E64_706F, 0x696E_7420];
    let number = b"SN-0001".as_slice();
    let whole = [0xF004_534E, 0x2D30_3030, 0x3100_0000, 0];
    for (kind, text, k, words) in [
        (name, text, 0, Some(first)),
        (name, text, 1, Some([0xFC03_5800, 0, 0, 0])),
        (name, text, 2, None),
        (name, text, usize::MAX, None),
        (id, number, 0, Some(whole)),
        (id, number, 1, None),
    ] {
        assert!(rt; is_cut(kind, text, k, words), "packet {k}");
    }
}

#[test]
fn a_block_name_is_cut(rt: HostRuntime) {
    let text = b"abcdefghijklmnopqrstuvwxyz!".as_slice();
    let first = [0xF412_0561, 0x6263_6465, 0x6667_6869, 0x6A6B_6C6D];
    let second = [0xF812_056E, 0x6F70_7172, 0x7374_7576, 0x7778_797A];
    for (text, k, words) in [
        (text, 0, Some(first)),
        (text, 1, Some(second)),
        (text, 2, Some([0xFC12_0521, 0, 0, 0])),
        (text, 3, None),
        (&text[..26], 2, None),
    ] {
        assert!(rt; is_cut(TextKind::BlockName, text, k, words), "packet {k}");
    }
}

// What the parts of a text answer, one after the other: each has its place in the text, its block and its
// bytes.
fn parts_answer(rt: &impl Abort, kind: TextKind, parts: &[(Form, u8, &[u8], Joined<'_>)]) {
    let mut join = TextJoin::new(kind);
    for (k, (form, block, bytes, answer)) in parts.iter().enumerate() {
        is_same_in(rt, &k, &join.part(*form, *block, bytes), answer);
    }
}

#[test]
fn a_name_is_joined(rt: HostRuntime) {
    let parts: [(Form, u8, &[u8], Joined<'_>); 12] = [
        (Form::Start, 0, b"Demo Endpoint ", Joined::Held),
        (
            Form::End,
            0,
            b"X\0\0\0\0\0\0\0\0\0\0\0\0\0",
            Joined::Whole(b"Demo Endpoint X"),
        ),
        (Form::End, 0, b"X", Joined::Bad),
        (Form::Continue, 0, b"X", Joined::Bad),
        (Form::Complete, 0, b"a\0b\0\0", Joined::Whole(b"a\0b")),
        (Form::Complete, 0, b"\0\0", Joined::Whole(b"")),
        (Form::Start, 0, b"lost", Joined::Held),
        (Form::Start, 0, b"one", Joined::Held),
        (Form::End, 0, b" text", Joined::Whole(b"one text")),
        (Form::Start, 0, b"lost", Joined::Held),
        (Form::Complete, 0, b"whole", Joined::Whole(b"whole")),
        (Form::End, 0, b"X", Joined::Bad),
    ];
    parts_answer(&rt, TextKind::EndpointName, &parts);
}

#[test]
fn utf8_is_tested_on_the_whole_text(rt: HostRuntime) {
    let parts: [(Form, u8, &[u8], Joined<'_>); 4] = [
        (Form::Start, 0, b"Ther\xC3", Joined::Held),
        (
            Form::End,
            0,
            b"\xA9mine\0\0",
            Joined::Whole(b"Ther\xC3\xA9mine"),
        ),
        (Form::Complete, 0, b"Ther\xC3", Joined::Bad),
        (Form::Complete, 0, b"\xFF", Joined::Bad),
    ];
    parts_answer(&rt, TextKind::EndpointName, &parts);
}

#[test]
fn a_product_id_is_printable(rt: HostRuntime) {
    let parts: [(Form, u8, &[u8], Joined<'_>); 5] = [
        (Form::Complete, 0, b"SN-0001\0\0", Joined::Whole(b"SN-0001")),
        (Form::Complete, 0, b" ~", Joined::Whole(b" ~")),
        (Form::Complete, 0, b"SN\x1F", Joined::Bad),
        (Form::Complete, 0, b"SN\x7F", Joined::Bad),
        (Form::Complete, 0, b"S\0N", Joined::Bad),
    ];
    parts_answer(&rt, TextKind::ProductId, &parts);
}

#[test]
fn a_block_name_stays_with_its_block(rt: HostRuntime) {
    let parts: [(Form, u8, &[u8], Joined<'_>); 5] = [
        (Form::Start, 1, b"Left ", Joined::Held),
        (Form::Continue, 2, b"or ", Joined::Bad),
        (Form::End, 1, b"right", Joined::Bad),
        (Form::Start, 2, b"Right", Joined::Held),
        (Form::End, 2, b"!\0", Joined::Whole(b"Right!")),
    ];
    parts_answer(&rt, TextKind::BlockName, &parts);
}

// What a number of full packets answer, one after the other, the last of them as an end; `None` before the
// last if one before it isn't held.
fn joins_packets(kind: TextKind, count: usize) -> Option<bool> {
    let mut join = TextJoin::new(kind);
    for k in 1..count {
        let form = if k == 1 { Form::Start } else { Form::Continue };
        if join.part(form, 0, &[b'a'; 14][..kind.part_size().min(14)]) != Joined::Held {
            return None;
        }
    }
    match join.part(Form::End, 0, &[b'a'; 14][..kind.part_size().min(14)]) {
        Joined::Whole(text) => Some(text.len() == kind.limit()),
        Joined::Held => None,
        Joined::Bad => Some(false),
    }
}

#[test]
fn the_limit_counts_whole_packets(rt: HostRuntime) {
    for (kind, count, is_whole) in [
        (TextKind::EndpointName, 7, true),
        (TextKind::EndpointName, 8, false),
        (TextKind::ProductId, 3, true),
        (TextKind::ProductId, 4, false),
        (TextKind::BlockName, 7, true),
        (TextKind::BlockName, 8, false),
    ] {
        is_same_in(&rt, &count, &joins_packets(kind, count), &Some(is_whole));
    }
}

#[test]
fn the_limit_counts_each_byte(rt: HostRuntime) {
    let parts: [(Form, u8, &[u8], Joined<'_>); 5] = [
        (Form::Start, 0, &[b'a'; 42], Joined::Held),
        (Form::Continue, 0, &[0], Joined::Bad),
        (Form::End, 0, b"", Joined::Bad),
        (Form::Start, 0, &[b'a'; 43], Joined::Bad),
        (Form::Complete, 0, &[0; 43], Joined::Bad),
    ];
    parts_answer(&rt, TextKind::ProductId, &parts);
}

#[test]
fn a_bad_format_has_its_text(rt: HostRuntime) -> Result<(), Fail> {
    let text = "a stream message of one packet has a format other than complete";
    has_text(&rt, rt.alloc(), &BadFormat, text)
}
