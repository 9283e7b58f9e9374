// What ends a selection, and what leaves it. The rows of `worked_rows` tell of the other control
// changes.
use super::is_same_in;
use param_collector::*;
use small_types::U4;
use std::process::Abort;
use voice_messages::{Param, ParamKind, U7, U14};

// Takes one control change on a channel and compares what it gives.
fn gives(
    rt: &impl Abort,
    collector: &mut Collector,
    channel: u32,
    (index, value): (u32, u32),
    wanted: Collected,
) {
    let given = collector.control(
        U4::low_bits(channel),
        U7::low_bits(index),
        U7::low_bits(value),
    );
    is_same_in(
        rt,
        &index,
        &(channel, value, given),
        &(channel, value, wanted),
    );
}

// Halves that are held until they are used.
fn holds(rt: &impl Abort, collector: &mut Collector, channel: u32, controls: &[(u32, u32)]) {
    for control in controls {
        gives(rt, collector, channel, *control, Collected::Held);
    }
}

fn set(kind: ParamKind, bank: u32, index: u32, value: u32) -> Collected {
    let param = Param {
        kind,
        bank: U7::low_bits(bank),
        index: U7::low_bits(index),
    };
    Collected::Set(param, U14::low_bits(value))
}

#[test]
fn ends_of_a_selection(rt: HostRuntime) {
    let Ok(mut collector) = Collector::new(rt.alloc(), false) else {
        assert!(rt; false, "memory is ample");
        return;
    };
    let collector = &mut collector;
    // the null parameter
    holds(&rt, collector, 0, &[(101, 127), (100, 127)]);
    gives(&rt, collector, 0, (6, 1), Collected::Ignored);
    gives(&rt, collector, 0, (38, 1), Collected::Ignored);
    // half of it is a parameter
    holds(&rt, collector, 0, &[(100, 0)]);
    gives(
        &rt,
        collector,
        0,
        (6, 1),
        set(ParamKind::Registered, 127, 0, 128),
    );
    // reset all controllers
    holds(&rt, collector, 0, &[(99, 5), (98, 6)]);
    gives(&rt, collector, 0, (121, 0), Collected::Plain);
    gives(&rt, collector, 0, (6, 1), Collected::Ignored);
    holds(&rt, collector, 0, &[(98, 6)]);
    gives(
        &rt,
        collector,
        0,
        (6, 1),
        set(ParamKind::Assignable, 127, 6, 128),
    );
    holds(&rt, collector, 0, &[(101, 127)]);
    gives(&rt, collector, 0, (38, 1), Collected::Ignored);
    // steps and other control changes leave it
    holds(&rt, collector, 0, &[(100, 0)]);
    gives(&rt, collector, 0, (96, 0), Collected::DataIncrement);
    gives(&rt, collector, 0, (97, 0), Collected::DataDecrement);
    for index in [1, 7, 33, 95, 102, 119, 120, 123, 127] {
        gives(&rt, collector, 0, (index, 64), Collected::Plain);
    }
    gives(
        &rt,
        collector,
        0,
        (38, 3),
        set(ParamKind::Registered, 127, 0, 131),
    );
}
