// Replies, and how words and refusals are shown. The rows of `worked_rows` tell of the packets themselves.
use super::{has_text, is_same};
use std::test::Fail;
use ump_grammar::*;
use ump_words::Words;
use voice_messages::{U4, U7, Voice2};

fn u4(value: u32) -> U4 {
    U4::low_bits(value)
}

fn u7(value: u32) -> U7 {
    U7::low_bits(value)
}

// A ConfigNotice and a Note On, from the worked rows of the stream messages and of a recording.
#[test]
fn replies_stand_one_after_the_other(rt: HostRuntime) {
    let mut replies = Replies::new();
    let notice = Packet::Stream {
        format: 0,
        status: 0x006,
        low: 0x0200,
        second: 0,
        third: 0,
        fourth: 0,
    };
    let note = Packet::Voice2 {
        group: u4(0),
        message: Voice2::NoteOn {
            channel: u4(0),
            note: u7(60),
            velocity: 0xC924,
            attribute_type: 0,
            attribute: 0,
        },
    };
    replies.push(&notice);
    replies.push(&note);
    let words = [0xF006_0200, 0, 0, 0, 0x4090_3C00, 0xC924_0000];
    assert!(rt; replies.words() == words.as_slice());
    replies.clear();
    assert!(rt; replies.words().is_empty());
}

#[test]
fn words_are_shown_as_a_list(rt: HostRuntime) -> Result<(), Fail> {
    let words = Words::from_slice(&[0x4090_3C00, 0xC924_0000]);
    let shown = format!(in rt.alloc(); "{words:?}")?;
    is_same(&rt, &shown.as_str(), &"[1083194368, 3374579712]");
    Ok(())
}

#[test]
fn each_refusal_has_its_text(rt: HostRuntime) -> Result<(), Fail> {
    for (bad, text) in [
        (
            Bad::BadCount,
            "the count of an exclusive packet is above six",
        ),
        (Bad::HighBit, "a data byte has its high bit set"),
    ] {
        has_text(&rt, rt.alloc(), &bad, text)?;
    }
    Ok(())
}
