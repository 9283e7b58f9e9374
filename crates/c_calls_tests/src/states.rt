// What a caller with buffers of its own is told of a running state.
use crate::tests::is_same;
use c_answers::Block;
use c_voice_state::{CByteState, CPacketState, FactNumbers};
use small_types::U4;
use std::test::Fail;
use voice_state::Fact;

// What a buffer has before facts are written to it.
fn no_fact() -> FactNumbers {
    FactNumbers::of(&Fact::System {
        group: U4::low_bits(0),
        count: 0,
    })
}

// A note on as a packet (M2-104-UM, MIDI 2.0 channel voice messages), in group 2 and channel 1.
const NOTE: [u32; 2] = [0x42913C00, 0xC9240000];

// There is room for one note: the second one is refused, and counts as taken.
#[test]
fn a_note_of_packets_is_told(rt: HostRuntime) -> Result<(), Fail> {
    let mut state = CPacketState::new(rt.alloc(), 6, 1, 0)?;
    let mut block = Block::nothing();
    let status = state.packets(&[NOTE[0], NOTE[1], NOTE[0], NOTE[1]], &mut block);
    is_same(
        &rt,
        &(status.number(), block.taken, block.refused),
        &(20, 4, 2),
    );
    let (mut facts, mut written, mut need) = ([no_fact(); 1], 0, 0);
    let status = state.facts(2, 1, &mut [], &mut written, &mut need);
    is_same(&rt, &(status.number(), written, need), &(6, 0, 1));
    let _ = state.facts(2, 1, &mut facts, &mut written, &mut need);
    let fact = &facts[0];
    is_same(
        &rt,
        &(written, fact.kind, fact.group, fact.number, fact.value),
        &(1, 0, 2, 0x3C, 0xC924),
    );
    state.reset();
    let status = state.facts(2, 1, &mut facts, &mut written, &mut need);
    is_same(&rt, &(status.number(), written, need), &(0, 0, 0));
    Ok(())
}

// A note on and a clock (MIDI 1.0 Detailed Specification). The clock is of no channel, and there is no
// channel 16.
#[test]
fn a_clock_of_bytes_is_counted(rt: HostRuntime) -> Result<(), Fail> {
    let mut state = CByteState::new(rt.alloc(), 6, 1, 0)?;
    let mut block = Block::nothing();
    let _ = state.bytes(&[0x91, 0x3C, 0xF8, 0x64], &mut block);
    is_same(&rt, &(block.taken, block.refused), &(4, 0));
    let (mut facts, mut written, mut need) = ([no_fact(); 2], 0, 0);
    let _ = state.facts(0, 1, &mut facts[..1], &mut written, &mut need);
    let _ = state.facts(0, 255, &mut facts[1..], &mut written, &mut need);
    is_same(
        &rt,
        &(facts[0].kind, facts[0].channel, facts[0].value),
        &(0, 1, 0x64),
    );
    is_same(&rt, &(facts[1].kind, facts[1].count), &(11, 1));
    let status = state.facts(0, 16, &mut facts, &mut written, &mut need);
    is_same(&rt, &status.number(), &23);
    Ok(())
}
