// What a caller of the translators gets.
use crate::tests::is_same;
use c_answers::{Block, ByteOutcome, Status};
use c_translators::{CDown, CUp, Piece};
use down_translator::Style;
use small_types::U4;
use std::test::Fail;

// A note on (M2-104-UM, default translation), a data increment, and a note on.
const NOTES: [u32; 6] = [
    0x40903C00, 0xC9240000, 0x40B06000, 0, 0x40913E00, 0xC9240000,
];

#[test]
fn packets_go_down(rt: HostRuntime) -> Result<(), Fail> {
    let mut down = CDown::new(rt.alloc(), 6, Style::Plain, false)?;
    let (mut bytes, mut pieces, mut block) = ([0u8; 15], [Piece::none(); 2], Block::nothing());
    let refused = down.packets(&NOTES, 0, &mut bytes, &mut pieces, &mut block);
    is_same(
        &rt,
        &(
            refused.number(),
            block.taken,
            block.written,
            block.items,
            block.refused,
        ),
        &(Status::DataIncrement.number(), 4, 3, 1, 2),
    );
    let status = down.packet(&NOTES[4..], 16, &mut bytes[3..], &mut pieces[1]);
    is_same(&rt, &(status.number(), pieces[1].written), &(0, 3));
    is_same(
        &rt,
        &bytes,
        &[
            0x90, 0x3C, 0x64, 0x91, 0x3E, 0x64, 0, 0, 0, 0, 0, 0, 0, 0, 0,
        ],
    );
    Ok(())
}

// A note under running status with a clock in it, F7 while nothing is open, and an exclusive of seven bytes
// (MIDI 1.0 Detailed Specification).
const STREAM: [u8; 16] = [
    0x90, 0x3C, 0x64, 0x3E, 0xF8, 0x64, 0xF7, 0xF0, 1, 2, 3, 4, 5, 6, 7, 0xF7,
];

// An outcome comes for both notes, the clock, and F7.
#[test]
fn bytes_go_up(rt: HostRuntime) -> Result<(), Fail> {
    let mut up = CUp::new(rt.alloc(), U4::low_bits(2), 12, false)?;
    let (mut words, mut outcomes) = ([0u32; 9], [ByteOutcome::none(); 5]);
    let mut block = Block::nothing();
    let _ = up.bytes(&STREAM[..15], 0, &mut words, &mut outcomes, &mut block);
    is_same(&rt, &(block.taken, block.written, block.items), &(15, 5, 4));
    for (outcome, offset, written, kind) in [
        (outcomes[0], 2, 2, 0),
        (outcomes[1], 4, 1, 0),
        (outcomes[2], 5, 2, 0),
        (outcomes[3], 6, 0, 17),
    ] {
        is_same(
            &rt,
            &(outcome.offset, outcome.written, outcome.first.kind),
            &(offset, written, kind),
        );
    }
    let mut last = ByteOutcome::none();
    let _ = up.byte(STREAM[15], 15, &mut words[5..], &mut last);
    is_same(&rt, &(last.offset, last.written), &(15, 4));
    is_same(
        &rt,
        &words,
        &[
            0x42903C00, 0xC9240000, 0x12F80000, 0x42903E00, 0xC9240000, 0x32160102, 0x03040506,
            0x32310700, 0,
        ],
    );
    Ok(())
}

// Both buffers are short, or one of them.
#[test]
fn what_is_short_is_told(rt: HostRuntime) -> Result<(), Fail> {
    let mut down = CDown::new(rt.alloc(), 6, Style::Plain, false)?;
    let (mut bytes, mut pieces, mut block) = ([0u8; 12], [Piece::none(); 1], Block::nothing());
    let short = down.packets(
        &NOTES[..1],
        0,
        &mut bytes[1..],
        &mut pieces[1..],
        &mut block,
    );
    is_same(
        &rt,
        &(short.number(), block.taken, block.need, block.need_items),
        &(Status::SmallBuffer.number(), 0, 12, 1),
    );
    let cut = down.packets(&NOTES[..1], 0, &mut bytes, &mut pieces, &mut block);
    is_same(
        &rt,
        &(cut.number(), block.taken, block.refused, block.need),
        &(Status::BadWordCount.number(), 0, 0, 0),
    );
    Ok(())
}
