// States that hold many notes, and those that the messages of a program's inputs can't leave. The rows of
// `worked_rows` tell of the facts, worked by hand from the tables of the standards.
use small_types::ShortList;
use std::alloc::Global;
use std::process::Abort;
use std::test::Fail;
use ump_grammar::Packet;
use voice_messages::{Form, Param, ParamKind, U4, U7, Voice1, Voice2};
use voice_state::{Fact, VoiceState};

pub(crate) fn u4(number: u32) -> U4 {
    U4::low_bits(number)
}

pub(crate) fn u7(number: u32) -> U7 {
    U7::low_bits(number)
}

fn param(kind: ParamKind, bank: u32, index: u32) -> Param {
    Param {
        kind,
        bank: u7(bank),
        index: u7(index),
    }
}

pub(crate) fn midi2(message: Voice2) -> Packet {
    Packet::Voice2 {
        group: u4(0),
        message,
    }
}

pub(crate) fn control2(index: u32, value: u32) -> Packet {
    midi2(Voice2::Control {
        channel: u4(0),
        index: u7(index),
        value,
    })
}

pub(crate) fn set2(kind: ParamKind, bank: u32, index: u32, value: u32) -> Packet {
    midi2(Voice2::Set {
        channel: u4(0),
        param: param(kind, bank, index),
        value,
    })
}

pub(crate) fn shift2(kind: ParamKind, bank: u32, index: u32) -> Packet {
    midi2(Voice2::Shift {
        channel: u4(0),
        param: param(kind, bank, index),
        value: 5,
    })
}

fn on(note: u32, velocity: u16) -> Fact {
    Fact::On {
        group: u4(0),
        channel: u4(0),
        note: u7(note),
        velocity,
    }
}

pub(crate) fn registered(bank: u32, index: u32, value: Option<u32>, loose: bool) -> Fact {
    Fact::Registered {
        group: u4(0),
        channel: u4(0),
        bank: u7(bank),
        index: u7(index),
        value,
        loose,
    }
}

fn new_state(rt: &impl Abort, alloc: Global) -> VoiceState {
    VoiceState::new(alloc).expect(rt, "memory is ample")
}

pub(crate) fn tells(rt: &impl Abort, alloc: Global, state: &VoiceState, facts: &[Fact]) {
    let found = state.facts(alloc).expect(rt, "memory is ample");
    assert_eq!(rt; found.as_slice(), facts);
}

// Takes the messages in group 0 and compares the facts.
fn messages_tell(rt: &impl Abort, alloc: Global, messages: &[Voice1], facts: &[Fact]) {
    let mut state = new_state(rt, alloc);
    for message in messages {
        state.apply1(u4(0), message).expect(rt, "memory is ample");
    }
    tells(rt, alloc, &state, facts);
}

// A state keeps all notes: the 65,537th and those after it find memory too.
#[test]
fn many_notes(rt: HostRuntime) {
    let mut state = new_state(&rt, rt.alloc());
    let message = Voice1::NoteOn {
        channel: u4(0),
        note: u7(60),
        velocity: u7(100),
    };
    for _ in 0..70_000u32 {
        state.apply1(u4(0), &message).expect(&rt, "memory is ample");
    }
    let facts = state.facts(rt.alloc()).expect(&rt, "memory is ample");
    assert_eq!(rt; facts.len(), 70_000);
}

// No number of facts is too many.
#[test]
fn each_of_many_notes_is_told(rt: HostRuntime) -> Result<(), Fail> {
    let alloc = rt.alloc();
    let message = Voice1::NoteOn {
        channel: u4(0),
        note: u7(60),
        velocity: u7(100),
    };
    let messages = vec![in alloc; message; 2000]?;
    let facts = vec![in alloc; on(60, 100); 2000]?;
    messages_tell(&rt, alloc, messages.as_slice(), facts.as_slice());
    Ok(())
}

// The part of an exclusive is no message, so a state that takes it alone is told of none.
#[test]
fn an_exclusive_packet_changes_nothing(rt: HostRuntime) {
    let mut state = new_state(&rt, rt.alloc());
    let packet = Packet::Exclusive {
        group: u4(0),
        form: Form::Complete,
        bytes: ShortList::new(),
    };
    state.apply2(&packet).expect(&rt, "memory is ample");
    tells(&rt, rt.alloc(), &state, &[]);
}
