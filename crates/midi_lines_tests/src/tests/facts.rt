// The lines of facts that no input leaves. The rows of `worked_rows` tell of the others.
use midi_lines::fact_line;
use voice_messages::{U4, U7};
use voice_state::Fact;

// Whether the line of a fact is the text.
fn is_fact(fact: &Fact, text: &str) -> bool {
    fact_line(fact).as_slice() == text.as_bytes()
}

#[test]
fn facts_that_no_input_leaves(rt: HostRuntime) {
    let (group, channel) = (U4::low_bits(0), U4::low_bits(15));
    let control = Fact::Control {
        group,
        channel,
        index: U7::low_bits(121),
        value: 0,
    };
    assert!(rt; is_fact(&control, "state 0 15 control 121 0\n"));
    let count = Fact::RealTime {
        group,
        count: 18446744073709551615,
    };
    assert!(rt; is_fact(&count, "state 0 real-time 18446744073709551615\n"));
}
