// Worked rows, and the header however it is given out.
ghost use Rattle.std.specs.Prelude.{◌≡◌};
ghost use Rattle.ump_grammar.specs.declared.packet.Packet.TheVariants.{Stream, Utility};

use midi_clip::{Clip, ClipFault, ClipStep, header};
use midi_edge::MemSource;
use outside::{Failed, Source};
use std::alloc::{AllocError, Global};
use std::test::Fail;
use ump_grammar::Packet;

// What `header` answers of these bytes, which come in pieces of these
// sizes and with faults at these calls, and how many it leaves.
fn answer_of(
    alloc: Global,
    bytes: &[u8],
    cuts: &[usize],
    fails: &[u64],
) -> Result<(Result<bool, Failed>, Result<usize, Failed>), AllocError> {
    let mut source = MemSource::new(
        Vec::from_slice(alloc, bytes)?,
        Vec::from_slice(alloc, cuts)?,
        Vec::from_slice(alloc, fails)?,
    );
    let answer = header(&mut source);
    let mut rest = [0; 16];
    Ok((answer, source.take(&mut rest)))
}

#[test]
fn headers(rt: HostRuntime) -> Result<(), Fail> {
    let rows: [(&str, &[u8], &[usize], &[u64], Result<bool, Failed>, usize); 9] = [
        ("a header", b"SMF2CLIP", &[], &[], Ok(true), 0),
        (
            "three bytes after it",
            b"SMF2CLIPabc",
            &[],
            &[],
            Ok(true),
            3,
        ),
        (
            "in five pieces",
            b"SMF2CLIPabc",
            &[1, 2, 0, 3, 1],
            &[],
            Ok(true),
            3,
        ),
        (
            "a small letter at its end",
            b"SMF2CLIp",
            &[],
            &[],
            Ok(false),
            0,
        ),
        (
            "another first letter",
            b"XMF2CLIPabc",
            &[3],
            &[],
            Ok(false),
            3,
        ),
        ("no bytes", b"", &[], &[], Ok(false), 0),
        ("seven bytes", b"SMF2CLI", &[], &[], Ok(false), 0),
        (
            "the first read fails",
            b"SMF2CLIPabc",
            &[],
            &[0],
            Err(Failed),
            11,
        ),
        (
            "the third read fails",
            b"SMF2CLIPabc",
            &[3, 4],
            &[2],
            Err(Failed),
            4,
        ),
    ];
    for (name, bytes, cuts, fails, answer, left) in rows {
        let answers = answer_of(rt.alloc(), bytes, cuts, fails)?;
        assert_eq!(rt; answers, (answer, Ok(left)), "{name}");
    }
    Ok(())
}

fn utility(status: u8, value: u32) -> Packet
    ensures { result ≡ Utility status value }
{
    Packet::Utility { status, value }
}

fn stream(format: u8, status: u16) -> Packet
    ensures { result ≡ Stream format status 0 0 0 0 }
{
    Packet::Stream {
        format,
        status,
        low: 0,
        second: 0,
        third: 0,
        fourth: 0,
    }
}

#[test]
fn an_event_between_two_clockstamps(rt: HostRuntime) {
    let mut clip = Clip::new();
    let before = [
        clip.packet(&utility(4, 0)),
        clip.packet(&utility(3, 96)),
        clip.packet(&utility(4, 5)),
        clip.packet(&stream(0, 0x020)),
    ];
    let started = clip.end();
    let after = [
        clip.packet(&utility(4, 48)),
        clip.packet(&utility(0, 7)),
        clip.packet(&utility(4, 48)),
        clip.packet(&stream(0, 0x021)),
    ];
    let ended = clip.end();
    assert_eq!(rt;
        (before, after, started, ended),
        (
            [
                Ok(ClipStep::Before),
                Ok(ClipStep::Before),
                Ok(ClipStep::Before),
                Ok(ClipStep::Began(96)),
            ],
            [
                Ok(ClipStep::Delta),
                Ok(ClipStep::Event(48)),
                Ok(ClipStep::Delta),
                Ok(ClipStep::Ended(96)),
            ],
            Err(ClipFault::NoEnd),
            Ok(96),
        )
    );
}

#[test]
fn faults_leave_the_clip(rt: HostRuntime) {
    let mut clip = Clip::new();
    let steps = [
        clip.packet(&stream(0, 0x020)),
        clip.packet(&stream(0, 0x021)),
        clip.packet(&utility(3, 96)),
        clip.packet(&utility(3, 0x20000)),
        clip.packet(&stream(0, 0x020)),
        clip.packet(&utility(3, 0xFFFFF)),
        clip.packet(&stream(0, 0x020)),
        clip.packet(&stream(0, 0x021)),
        clip.packet(&utility(4, 48)),
        clip.packet(&stream(0, 0x021)),
    ];
    assert_eq!(rt;
        (steps, clip.end()),
        (
            [
                Err(ClipFault::NoResolution),
                Ok(ClipStep::Before),
                Ok(ClipStep::Before),
                Ok(ClipStep::Before),
                Err(ClipFault::NoResolution),
                Ok(ClipStep::Before),
                Ok(ClipStep::Began(65535)),
                Ok(ClipStep::Ended(0)),
                Err(ClipFault::AfterEnd),
                Err(ClipFault::AfterEnd),
            ],
            Ok(0),
        )
    );
}

#[test]
fn other_packets_of_a_clip_are_events(rt: HostRuntime) {
    let mut clip = Clip::new();
    let steps = [
        clip.packet(&utility(3, 1)),
        clip.packet(&stream(1, 0x020)),
        clip.packet(&stream(0, 0x020)),
        clip.packet(&utility(4, 0xFFFFF)),
        clip.packet(&stream(0, 0x020)),
        clip.packet(&stream(1, 0x021)),
        clip.packet(&utility(3, 9)),
        clip.packet(&utility(4, 1)),
        clip.packet(&stream(3, 0x021)),
    ];
    assert_eq!(rt;
        (steps, clip.end()),
        (
            [
                Ok(ClipStep::Before),
                Ok(ClipStep::Before),
                Ok(ClipStep::Began(1)),
                Ok(ClipStep::Delta),
                Ok(ClipStep::Event(1_048_575)),
                Ok(ClipStep::Event(1_048_575)),
                Ok(ClipStep::Event(1_048_575)),
                Ok(ClipStep::Delta),
                Ok(ClipStep::Event(1_048_576)),
            ],
            Err(ClipFault::NoEnd),
        )
    );
}

#[test]
fn faults_are_told_to_people(rt: HostRuntime) -> Result<(), Fail> {
    for (fault, text) in [
        (
            ClipFault::NoResolution,
            "the clip starts without a number of ticks for a quarter note",
        ),
        (
            ClipFault::AfterEnd,
            "a packet comes after the end of the clip",
        ),
        (ClipFault::NoEnd, "the clip does not start, or does not end"),
    ] {
        assert_eq!(rt; fault.to_string(rt.alloc())?.as_str(), text);
    }
    Ok(())
}
