// What the calls without a handle give.
use crate::tests::is_same;
use c_answers::{Block, Status};
use c_pure::{heard_name, kind_name, packets_in, scale_down, status_name};

#[test]
fn numbers_have_names(rt: HostRuntime) {
    let (mut text, mut length) = ([0u8; 32], 0);
    let _ = status_name(6, &mut text, &mut length);
    is_same(&rt, &length, &12);
    assert!(rt; text.starts_with(b"SMALL_BUFFER"));
    let _ = kind_name(12, &mut text, &mut length);
    assert!(rt; text.starts_with(b"MISPLACED_CONTROLLER"));
    let _ = heard_name(1, &mut text, &mut length);
    assert!(rt; text.starts_with(b"NOT_CI"));
    is_same(
        &rt,
        &status_name(24, &mut text, &mut length).number(),
        &Status::Nothing.number(),
    );
    is_same(
        &rt,
        &heard_name(1, &mut text[..5], &mut length).number(),
        &Status::SmallBuffer.number(),
    );
    is_same(&rt, &length, &0);
}

// A clock and the front of a note on (M2-104-UM, message types), the lowest byte of each word first.
#[test]
fn bytes_are_cut_into_packets(rt: HostRuntime) {
    let bytes = [0, 0, 0xF8, 0x10, 0, 0x3C, 0x90, 0x40, 0, 0];
    let (mut words, mut block) = ([0u32; 3], Block::nothing());
    let status = packets_in(&bytes, 8, &mut words, &mut block);
    is_same(
        &rt,
        &(status.number(), block.taken, block.written, words[0]),
        &(Status::BadSize.number(), 4, 1, 0x10F80000),
    );
    let status = packets_in(&bytes[4..], 8, &mut words[..1], &mut block);
    is_same(
        &rt,
        &(status.number(), block.taken, block.need),
        &(Status::SmallBuffer.number(), 0, 2),
    );
    is_same(
        &rt,
        &packets_in(&bytes, 1, &mut words, &mut block).number(),
        &Status::BadFlags.number(),
    );
}

// The upper bits (M2-115-U, downscaling).
#[test]
fn values_are_lowered(rt: HostRuntime) {
    let mut scaled = 0;
    let _ = scale_down(0xC924, 16, 7, &mut scaled);
    is_same(&rt, &scaled, &100);
    let _ = scale_down(0x9C40E207, 32, 14, &mut scaled);
    is_same(&rt, &scaled, &10000);
    is_same(
        &rt,
        &scale_down(0x10000, 16, 7, &mut scaled).number(),
        &Status::BadValue.number(),
    );
}
