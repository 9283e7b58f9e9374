// Bytes that come after one that is refused. The rows of `worked_rows` tell of the rest.
use super::is_same;
use small_types::U4;
use std::alloc::Global;
use std::process::Abort;
use up_translator::*;

const GROUP: u32 = 0;

fn new_up(rt: &impl Abort, alloc: Global) -> Up {
    Up::new(alloc, U4::low_bits(GROUP), 16, false).expect(rt, "memory is ample")
}

// The offset at which one of the bytes is refused, and why.
fn refusal(up: &mut Up, bytes: &[u8]) -> Option<(u64, BadStep)> {
    for (offset, &byte) in (0..64u64).zip(bytes) {
        if let Err(bad) = up.byte(byte, offset) {
            return Some((offset, bad));
        }
    }
    None
}

#[test]
fn refused_bytes(rt: HostRuntime) {
    let mut up = new_up(&rt, rt.alloc());
    let increment = refusal(&mut up, &[0xB0, 0x60, 0x00]);
    is_same(&rt, &increment, &Some((2, BadStep::DataIncrement)));
    // running status goes on
    let decrement = refusal(&mut up, &[0x61, 0x00]);
    is_same(&rt, &decrement, &Some((1, BadStep::DataDecrement)));
    let long = [
        0xF0, 1, 2, 3, 4, 5, 6, 7, 8, 9, 10, 11, 12, 13, 14, 15, 16, 17, 18,
    ];
    let too_long = refusal(&mut up, &long);
    is_same(&rt, &too_long, &Some((17, BadStep::ExclusiveTooLong)));
}
