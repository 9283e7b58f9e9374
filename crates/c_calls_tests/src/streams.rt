// What a caller with buffers of its own gets of the readers.
use crate::tests::is_same;
use c_answers::{Block, ByteOutcome, Status};
use c_streams::{CParser, CSysex8, CUsb, CarriedBytes, JoinedPart, split_event};
use small_types::U4;
use std::test::Fail;

// A note under running status with a clock in it, F7 while nothing is open, and an exclusive of seven bytes
// (MIDI 1.0 Detailed Specification).
const STREAM: [u8; 16] = [
    0x90, 0x3C, 0x64, 0x3E, 0xF8, 0x64, 0xF7, 0xF0, 1, 2, 3, 4, 5, 6, 7, 0xF7,
];

// There is an outcome for each message and for the F7; two of them are too few.
#[test]
fn messages_are_written_whole(rt: HostRuntime) -> Result<(), Fail> {
    let mut parser = CParser::new(rt.alloc(), 7)?;
    let (mut messages, mut outcomes) = ([0u8; 16], [ByteOutcome::none(); 5]);
    let mut block = Block::nothing();
    let status = parser.bytes(&STREAM, 0, &mut messages, &mut outcomes[..2], &mut block);
    is_same(
        &rt,
        &(status.number(), block.taken, block.need, block.need_items),
        &(Status::SmallBuffer.number(), 5, 0, 1),
    );
    let status = parser.bytes(
        &STREAM[5..],
        5,
        &mut messages[4..],
        &mut outcomes[2..],
        &mut block,
    );
    is_same(
        &rt,
        &(status.number(), block.taken, block.written, block.items),
        &(Status::Done.number(), 11, 12, 3),
    );
    for (k, written, offset, kind) in [(0, 3, 2, 0), (1, 1, 4, 0), (3, 0, 6, 17), (4, 9, 15, 0)] {
        let outcome = outcomes[k];
        is_same(
            &rt,
            &(outcome.written, outcome.offset, outcome.first.kind),
            &(written, offset, kind),
        );
    }
    is_same(
        &rt,
        &messages,
        &[
            0x90, 0x3C, 0x64, 0xF8, 0x90, 0x3E, 0x64, 0xF0, 1, 2, 3, 4, 5, 6, 7, 0xF7,
        ],
    );
    Ok(())
}

// A data byte after a status byte, and after a reset, when no running status is known.
#[test]
fn a_parser_can_be_reset(rt: HostRuntime) -> Result<(), Fail> {
    let mut parser = CParser::new(rt.alloc(), 6)?;
    let (mut messages, mut outcome) = ([0u8; 8], ByteOutcome::none());
    let _ = parser.byte(0x90, 0, &mut messages, &mut outcome);
    parser.reset();
    let _ = parser.byte(0x3C, 1, &mut messages, &mut outcome);
    is_same(
        &rt,
        &(outcome.written, outcome.first.offset, outcome.first.kind),
        &(0, 1, 17),
    );
    Ok(())
}

// The events of an exclusive on cable 1 (USB Device Class Definition
// for MIDI Devices 1.0, code index numbers), and one of them split.
#[test]
fn an_exclusive_is_packed_at_its_end(rt: HostRuntime) -> Result<(), Fail> {
    let mut packer = CUsb::new(rt.alloc(), U4::low_bits(1), 6)?;
    let (mut events, mut outcome) = ([0u8; 12], ByteOutcome::none());
    let mut block = Block::nothing();
    let _ = packer.bytes(&[0xF0, 1, 2, 3], 0, &mut events, &mut [], &mut block);
    is_same(&rt, &(block.taken, block.need_items), &(0, 1));
    let _ = packer.bytes(&[0xF0, 1, 2, 3], 0, &mut events, &mut [outcome], &mut block);
    let _ = packer.byte(0xF7, 4, &mut events, &mut outcome);
    is_same(
        &rt,
        &(block.taken, block.items, outcome.written, outcome.offset),
        &(4, 0, 8, 4),
    );
    is_same(
        &rt,
        &events,
        &[0x14, 0xF0, 1, 2, 0x16, 3, 0xF7, 0, 0, 0, 0, 0],
    );
    let mut carried = CarriedBytes {
        cable: 0,
        length: 0,
        bytes: [0; 3],
    };
    is_same(
        &rt,
        &split_event(&events[..3], &mut carried).number(),
        &Status::BadSize.number(),
    );
    let _ = split_event(&events[4..8], &mut carried);
    is_same(&rt, &(carried.cable, carried.length), &(1, 2));
    Ok(())
}

// An exclusive of two packets of stream 1 (M2-104-UM, system exclusive 8-bit messages), and the first word of
// a third packet.
#[test]
fn an_exclusive_is_joined(rt: HostRuntime) -> Result<(), Fail> {
    let mut joiner = CSysex8::new(rt.alloc(), 1, 13)?;
    let words = [0x501201A0, 0, 0, 0, 0x503201A1, 0, 0, 0, 0x501201A0];
    let (mut bytes, mut parts) = ([0u8; 15], [JoinedPart::none(); 3]);
    let mut block = Block::nothing();
    let status = joiner.packets(&words, 0, &mut bytes, &mut parts, &mut block);
    is_same(
        &rt,
        &(status.number(), block.taken, block.written, block.items),
        &(Status::BadWordCount.number(), 8, 2, 2),
    );
    is_same(
        &rt,
        &(parts[0].answer, parts[1].answer, parts[1].stream),
        &(1, 2, 1),
    );
    assert!(rt; bytes.starts_with(&[0xA0, 0xA1]));
    let status = joiner.packet(&words[8..], 32, &mut bytes[3..], &mut parts[2]);
    is_same(
        &rt,
        &(status.number(), parts[2].need),
        &(Status::SmallBuffer.number(), 13),
    );
    Ok(())
}
