// States with a room, whose lists can be full.
use crate::tests::{control2, midi2, registered, set2, shift2, tells, u4, u7};
use std::alloc::Global;
use std::process::Abort;
use ump_grammar::Packet;
use voice_messages::{ParamKind, Voice1, Voice2};
use voice_state::{Fact, FactAddress, NotKept, VoiceState};

fn on2(channel: u32) -> Packet {
    midi2(Voice2::NoteOn {
        channel: u4(channel),
        note: u7(60),
        velocity: 1000,
        attribute_type: 0,
        attribute: 0,
    })
}

fn on_in(channel: u32) -> Fact {
    Fact::On {
        group: u4(0),
        channel: u4(channel),
        note: u7(60),
        velocity: 1000,
    }
}

// The list of one channel is full, and its other messages and those of another channel go on.
#[test]
fn a_full_list_of_notes(rt: HostRuntime) {
    let alloc = rt.alloc();
    let mut state = VoiceState::with_room(alloc, 1, 0).expect(&rt, "memory is ample");
    assert_eq!(rt; state.take_packet(&on2(0)), Ok(()));
    assert_eq!(rt; state.take_packet(&on2(0)), Err(NotKept::Full));
    // a channel mode message is in the same list
    assert_eq!(rt; state.take_packet(&control2(120, 0)), Err(NotKept::Full));
    assert_eq!(rt; state.take_packet(&control2(7, 5)), Ok(()));
    assert_eq!(rt; state.take_packet(&on2(1)), Ok(()));
    let control = Fact::Control {
        group: u4(0),
        channel: u4(0),
        index: u7(7),
        value: 5,
    };
    tells(&rt, alloc, &state, &[on_in(0), control, on_in(1)]);
}

// One that is there takes a new value, and the other kind has a list of its own.
#[test]
fn a_full_list_of_parameters(rt: HostRuntime) {
    let alloc = rt.alloc();
    let mut state = VoiceState::with_room(alloc, 0, 1).expect(&rt, "memory is ample");
    assert_eq!(rt;
        state.take_packet(&set2(ParamKind::Registered, 0, 1, 7)),
        Ok(())
    );
    assert_eq!(rt;
        state.take_packet(&set2(ParamKind::Registered, 0, 2, 7)),
        Err(NotKept::Full)
    );
    assert_eq!(rt;
        state.take_packet(&shift2(ParamKind::Registered, 0, 3)),
        Err(NotKept::Full)
    );
    assert_eq!(rt;
        state.take_packet(&set2(ParamKind::Registered, 0, 1, 9)),
        Ok(())
    );
    assert_eq!(rt;
        state.take_packet(&shift2(ParamKind::Assignable, 0, 2)),
        Ok(())
    );
    // the null parameter is never kept
    assert_eq!(rt;
        state.take_packet(&set2(ParamKind::Registered, 127, 127, 9)),
        Ok(())
    );
    let facts = [
        registered(0, 1, Some(9), false),
        Fact::Assignable {
            group: u4(0),
            channel: u4(0),
            bank: u7(0),
            index: u7(2),
            value: None,
            loose: true,
        },
    ];
    tells(&rt, alloc, &state, &facts);
}

// A data entry adds to the list of parameters; the other calls answer want of memory.
#[test]
fn a_full_stream(rt: HostRuntime) {
    let alloc = rt.alloc();
    let mut state = VoiceState::of_stream(alloc, 0, 0).expect(&rt, "memory is ample");
    let control = |index, value| Voice1::Control {
        channel: u4(0),
        index: u7(index),
        value: u7(value),
    };
    assert_eq!(rt; state.take_message(u4(0), &control(6, 1)), Ok(()));
    assert_eq!(rt; state.take_message(u4(0), &control(101, 0)), Ok(()));
    assert_eq!(rt; state.take_message(u4(0), &control(100, 0)), Ok(()));
    assert_eq!(rt;
        state.take_message(u4(0), &control(6, 1)),
        Err(NotKept::Full)
    );
    assert_eq!(rt;
        state.take_message(u4(0), &control(38, 1)),
        Err(NotKept::Full)
    );
    assert_eq!(rt;
        state.take_message(u4(0), &control(121, 0)),
        Err(NotKept::Full)
    );
    assert!(rt; state.apply1(u4(0), &control(6, 1)).is_err());
    tells(&rt, alloc, &state, &[]);
}

// An emptied state has no facts, and the room that it had.
#[test]
fn an_emptied_state(rt: HostRuntime) {
    let alloc = rt.alloc();
    let mut state = VoiceState::with_room(alloc, 1, 1).expect(&rt, "memory is ample");
    assert_eq!(rt; state.take_packet(&on2(0)), Ok(()));
    assert_eq!(rt; state.take_packet(&on2(15)), Ok(()));
    assert_eq!(rt; state.take_packet(&control2(7, 5)), Ok(()));
    assert_eq!(rt;
        state.take_packet(&set2(ParamKind::Registered, 0, 1, 7)),
        Ok(())
    );
    state.system(u4(15), true);
    state.reset();
    tells(&rt, alloc, &state, &[]);
    // no parameter is selected any more, and the lists have their places again
    assert_eq!(rt; state.take_packet(&on2(0)), Ok(()));
    assert_eq!(rt; state.take_packet(&on2(0)), Err(NotKept::Full));
    tells(&rt, alloc, &state, &[on_in(0)]);
}

fn channel_tells(rt: &impl Abort, alloc: Global, state: &VoiceState, channel: u32, facts: &[Fact]) {
    let found: Vec<Fact> = state
        .channel_facts(u4(0), u4(channel))
        .collect(alloc)
        .expect(rt, "memory is ample");
    assert_eq!(rt; found.as_slice(), facts);
}

// The facts of each channel alone, and the counts of the group.
#[test]
fn facts_by_channel(rt: HostRuntime) {
    let alloc = rt.alloc();
    let mut state = VoiceState::with_room(alloc, 2, 2).expect(&rt, "memory is ample");
    assert_eq!(rt; state.take_packet(&on2(0)), Ok(()));
    assert_eq!(rt; state.take_packet(&on2(3)), Ok(()));
    assert_eq!(rt; state.take_packet(&control2(0, 5)), Ok(()));
    assert_eq!(rt; state.take_packet(&control2(119, 6)), Ok(()));
    assert_eq!(rt;
        state.take_packet(&set2(ParamKind::Registered, 0, 1, 7)),
        Ok(())
    );
    state.system(u4(0), false);
    let control = Fact::Control {
        group: u4(0),
        channel: u4(0),
        index: u7(119),
        value: 6,
    };
    let parameter = registered(0, 1, Some(7), false);
    channel_tells(&rt, alloc, &state, 0, &[on_in(0), control, parameter]);
    channel_tells(&rt, alloc, &state, 1, &[]);
    channel_tells(&rt, alloc, &state, 3, &[on_in(3)]);
    let count = Fact::System {
        group: u4(0),
        count: 1,
    };
    assert_eq!(rt; state.system_fact(u4(0)), Some(count));
    assert_eq!(rt; state.real_time_fact(u4(0)), None);
    assert_eq!(rt; state.system_fact(u4(1)), None);
}

// A count is about a whole group, any other fact about one channel.
#[test]
fn addresses_of_facts(rt: HostRuntime) {
    let count = Fact::RealTime {
        group: u4(4),
        count: 1,
    };
    let whole_group = FactAddress {
        group: u4(4),
        channel: None,
    };
    let one_channel = FactAddress {
        group: u4(0),
        channel: Some(u4(9)),
    };
    assert_eq!(rt; count.address(), whole_group);
    assert_eq!(rt; on_in(9).address(), one_channel);
}
