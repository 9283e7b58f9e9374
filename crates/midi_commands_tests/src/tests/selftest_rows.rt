// Rows of the self test, and the two translators over the packets that it draws.
use command_rows::{Left, given_of, left_by};
use midi_commands::Status;
use midi_edge::MemLanes;
use std::alloc::{AllocError, Global};
use std::process::Abort;
use std::test::Fail;

// One draw of sixteen bits.
fn draw(number: &mut u32) -> u32 {
    *number = number.wrapping_mul(1664525).wrapping_add(1013904223);
    *number / 65536
}

// The first word of a channel voice message in group 0.
fn head(opcode: u32, channel: u32, third: u32, fourth: u32) -> u32 {
    0x40000000 | (opcode % 16) << 20 | (channel % 16) << 16 | (third % 128) << 8 | fourth % 128
}

// The words of the packet that comes next.
fn next_words(number: &mut u32) -> [u32; 2] {
    let kind = draw(number);
    let channel = draw(number);
    let first = draw(number);
    let second = draw(number);
    let last = draw(number);
    let value = second << 16 | last % 65536;
    let program = (first % 128) << 24;
    match kind % 8 {
        0 => [head(9, channel, first, 0), last << 16],
        1 => [head(8, channel, first, 0), last << 16],
        2 => [head(11, channel, 1 + first % 95, 0), value],
        3 => [head(2, channel, first, second), last << 16],
        4 if second % 2 == 1 => [
            head(12, channel, 0, 1),
            program | (second / 2 % 128) << 8 | last % 128,
        ],
        4 => [head(12, channel, 0, 0), program],
        5 => [head(14, channel, 0, 0), value],
        6 => [head(10, channel, first, 0), value],
        _ => [head(13, channel, 0, 0), value],
    }
}

// The recording of the first 10,000 packets of seed 7.
fn recording(alloc: Global) -> Result<Vec<u8>, AllocError> {
    let mut bytes = Vec::new(alloc);
    let mut number = 7;
    for _ in 0..10000 {
        for word in next_words(&mut number) {
            bytes.extend_from_slice(&word.to_be_bytes())?;
        }
    }
    Ok(bytes)
}

// The number of the pairs, and the bytes of all pieces.
fn lane_of(alloc: Global, lanes: &MemLanes) -> Result<(usize, Vec<u8>), AllocError> {
    let mut bytes = Vec::new(alloc);
    for k in 0..16384 {
        match lanes.entry(k) {
            Some((_, piece)) => bytes.extend_from_slice(piece)?,
            None => return Ok((k, bytes)),
        }
    }
    Ok((16384, bytes))
}

// What a run with these words leaves of an input.
fn run_over(rt: &impl Abort, alloc: Global, words: &str, input: Vec<u8>) -> Result<Left, Fail> {
    let mut given = given_of(alloc, words).map_err(Fail::new)?;
    given.input = input;
    let left = left_by(alloc, given).map_err(Fail::new)?;
    assert_eq!(rt; left.status, Status::Done);
    Ok(left)
}

// `translate down` and `translate back` over the packets of seed 7
// count what `selftest 7 --packets 10000` tells.
#[test]
fn the_translators_count_the_same(rt: HostRuntime) -> Result<(), Fail> {
    let alloc = rt.alloc();
    let down = run_over(
        &rt,
        alloc,
        "run translate down --folder F",
        recording(alloc)?,
    )?;
    let (carried, bytes) = lane_of(alloc, &down.lanes)?;
    assert_eq!(rt; carried, 9961);
    let lines = down
        .notes
        .held()
        .iter()
        .filter(|byte| **byte == b'\n')
        .count();
    assert_eq!(rt; lines, 39);
    assert_eq!(rt; bytes.len(), 42382);
    let back = run_over(&rt, alloc, "run translate back", bytes)?;
    assert_eq!(rt; back.output.held().len(), 61012);
    Ok(())
}
