// What stands after each read and each put that fails, and after each front of a recording.
use super::row_holds;
use command_rows::given_of;
use std::alloc::Global;
use std::process::Abort;
use std::test::Fail;

// A put: the number of input bytes after which it is made, which is one more than there are at the end of the
// input; what a row says of its first byte, and of the whole.
#[derive(Clone, Copy)]
struct Step<'a> {
    after: usize,
    part: &'a str,
    whole: &'a str,
}

// A place for puts: how a row says them, the status after one that fails, and the last line.
#[derive(Clone, Copy)]
struct FaultPlace {
    kind: &'static str,
    fault: &'static str,
    last: &'static str,
}

const PLACES: [FaultPlace; 3] = [
    FaultPlace {
        kind: "lane",
        fault: "LaneFault",
        last: "\nnote lane write failed",
    },
    FaultPlace {
        kind: "output",
        fault: "OutputFault",
        last: "\nnote output write failed",
    },
    FaultPlace {
        kind: "note",
        fault: "NoteFault",
        last: "",
    },
];

// The puts of a run in the order in which they are made, one in a line.
fn steps_of<'a>(alloc: Global, text: &'a str) -> Result<Vec<Step<'a>>, Fail> {
    let mut steps = Vec::new(alloc);
    for line in text.split('\n') {
        let Some((after, put)) = line.split_once(' ') else {
            return Err(Fail::new("a put has a number of bytes"));
        };
        let Some((part, whole)) = put.split_once(" / ") else {
            return Err(Fail::new("a put has a first byte and a whole"));
        };
        let after = after.parse::<usize>()?;
        steps.push(Step { after, part, whole })?;
    }
    Ok(steps)
}

// Those that are made once so many bytes are there.
fn made_within<'a, 'b>(steps: &'b [Step<'a>], n: usize) -> &'b [Step<'a>] {
    let count = steps.iter().filter(|step| step.after <= n).count();
    &steps[..count.min(steps.len())]
}

// What a row says of these, and of a part of one more: the pieces of the lanes, the output, and the notes.
fn said_of(alloc: Global, steps: &[Step<'_>], part: &str) -> Result<String, Fail> {
    let mut said = String::new(alloc);
    for place in PLACES {
        for step in steps {
            push_put(&mut said, &place, step.whole)?;
        }
        push_put(&mut said, &place, part)?;
    }
    Ok(said)
}

// Adds a put in this place: in a line of its own, or after `+` in the line that is begun. The text after `|`
// there is in the next line.
fn push_put(said: &mut String, place: &FaultPlace, put: &str) -> Result<(), Fail> {
    let Some(rest) = put.strip_prefix(place.kind) else {
        return Ok(());
    };
    match rest.strip_prefix('+') {
        Some(more) => {
            let (here, next) = more.split_once(" |").unwrap_or((more, ""));
            said.push_str(here)?;
            if !next.is_empty() {
                write!(said, "\n{}{next}", place.kind)?;
            }
        }
        None => write!(said, "\n{put}")?,
    }
    Ok(())
}

// How many bytes of input the lines of a row give.
fn input_length(alloc: Global, given: &str) -> Result<usize, Fail> {
    Ok(given_of(alloc, given).map_err(Fail::new)?.input.len())
}

// Each read fails in turn, the input coming byte by byte.
fn reads_fail_in_turn(
    rt: &impl Abort,
    alloc: Global,
    given: &str,
    steps: &[Step<'_>],
) -> Result<(), Fail> {
    let length = input_length(alloc, given)?;
    for n in 0..length.saturating_add(1) {
        let said = said_of(alloc, made_within(steps, n), "")?;
        let row = format!(in alloc;
            "# read {n} fails: {given}\ncuts-of-one {length}\nread-fails {n}\nleaves ReadFault{said}\nnote read failed"
        )?;
        row_holds(rt, alloc, row.as_str())?;
    }
    Ok(())
}

// Each put in a place fails in turn, of which no byte stands, and then one.
fn puts_fail_in_turn(
    rt: &impl Abort,
    alloc: Global,
    given: &str,
    steps: &[Step<'_>],
    place: &FaultPlace,
) -> Result<(), Fail> {
    let FaultPlace { kind, fault, last } = place;
    let mut put = 0u64;
    for (i, step) in steps.iter().enumerate() {
        if step.whole.starts_with(*kind) {
            for (kept, part) in [(0u8, ""), (1, step.part)] {
                let said = said_of(alloc, &steps[..i], part)?;
                let row = format!(in alloc;
                    "# {kind} put {put} fails: {given}\n{kind}-fails {put} {kept}\nleaves {fault}{said}{last}"
                )?;
                row_holds(rt, alloc, row.as_str())?;
            }
            put = put.saturating_add(1);
        }
    }
    Ok(())
}

// Nothing fails, and then each read fails in turn, and each put.
pub(super) fn all_fail_in_turn(
    rt: &impl Abort,
    alloc: Global,
    given: &str,
    steps: &str,
) -> Result<(), Fail> {
    all_reads_fail_in_turn(rt, alloc, given, steps)?;
    all_puts_fail_in_turn(rt, alloc, given, steps)
}

// Nothing fails, and then each read fails in turn.
fn all_reads_fail_in_turn(
    rt: &impl Abort,
    alloc: Global,
    given: &str,
    steps: &str,
) -> Result<(), Fail> {
    let steps = steps_of(alloc, steps)?;
    let said = said_of(alloc, &steps, "")?;
    let row = format!(in alloc; "{given}\nleaves Done{said}")?;
    row_holds(rt, alloc, row.as_str())?;
    reads_fail_in_turn(rt, alloc, given, &steps)
}

// Each put in each place fails in turn.
fn all_puts_fail_in_turn(
    rt: &impl Abort,
    alloc: Global,
    given: &str,
    steps: &str,
) -> Result<(), Fail> {
    let steps = steps_of(alloc, steps)?;
    for place in PLACES {
        puts_fail_in_turn(rt, alloc, given, &steps, &place)?;
    }
    Ok(())
}

// Each front of a recording in which each packet has one put: it is done
// if it ends with a packet, and otherwise refused at its last packet.
fn fronts_hold(rt: &impl Abort, alloc: Global, given: &str, steps: &str) -> Result<(), Fail> {
    let steps = steps_of(alloc, steps)?;
    let length = input_length(alloc, given)?;
    for n in 0..length.saturating_add(1) {
        let made = made_within(&steps, n);
        let said = said_of(alloc, made, "")?;
        let at = made.last().map_or(0, |step| step.after);
        let left = if at == n {
            format!(in alloc; "Done{said}")?
        } else {
            format!(in alloc;
                "Refused {{ reason: Truncated, offset: {at} }}{said}\nnote refused Truncated at {at}"
            )?
        };
        let row = format!(in alloc;
            "# the first {n} bytes: {given}\ninput-ends-after {n}\nleaves {left}"
        )?;
        row_holds(rt, alloc, row.as_str())?;
    }
    Ok(())
}

const CARRIED: &str = "\
# a recording of a keyboard
run translate down --folder F
input 00200010 40903C00 C9240000 40E00000 A0000000 40803C00 80000000";

const CARRIED_STEPS: &str = "\
4 note-cut |0| / note 0 - utility
12 lane 0 90 / lane 0 90 3C 64
20 lane 0 E0 / lane 0 E0 00 50
28 lane 0 80 / lane 0 80 3C 40";

const SHOWN: &str = "\
# the recording is shown
run show
input 00200010 40903C00 C9240000 40E00000 A0000000 40803C00 80000000";

const SHOWN_STEPS: &str = "\
4 output-cut |0| / output 0 00200010 utility status=2 value=16
12 output-cut |4| / output 4 40903C00 C9240000 note-on group=0 channel=0 note=60 velocity=51492 type=0 attribute=0
20 output-cut |1| / output 12 40E00000 A0000000 bend group=0 channel=0 value=2684354560
28 output-cut |2| / output 20 40803C00 80000000 note-off group=0 channel=0 note=60 velocity=32768 type=0 attribute=0";

const STREAM: &str = "\
# a stream is shown
run show --bytes
input 05 90 3C F0 01 F6 F7 90 3C 64 3E";

const STREAM_STEPS: &str = "\
1 output-cut |0| / output 0 stray
4 output-cut |1| / output 1 cut-message
6 output-cut |3| / output 3 cut-exclusive
6 output-cut |5| / output 5 system status=F6
7 output-cut |6| / output 6 stray
10 output-cut |9| / output 9 m1-note-on channel=0 note=60 velocity=100
12 output-cut |1| / output 10 open-message";

// Two notes under running status, a registered parameter, an exclusive of eight bytes, a message that a
// program change cuts off, and one that is open at the end.
const RAISED: &str = "\
# a stream is raised
run translate up --room 8
input 90 3C 64 3E 64 B0 65 00 64 00 06 02 F0 01 02 03 04 05 06 07 08 F7 90 3C C0 05 90 3C";

const RAISED_STEPS: &str = "\
3 output 40 / output 40903C00 C9240000
5 output+ 40 / output+ 40903E00 C9240000
12 output 40 / output 40200000 04000000
22 output+ 30 / output+ 30160102 03040506
22 output 30 / output 30320708 00000000
25 note-cut |2| / note 22 0 cut-message
26 output+ 40 / output+ 40C00000 05000000
29 note-cut |2| / note 26 0 open-message";

const RETURNED: &str = "\
# the stream is raised, and comes back
run translate back --room 8
input 90 3C 64 3E 64 B0 65 00 64 00 06 02 F0 01 02 03 04 05 06 07 08 F7 90 3C C0 05 90 3C";

const RETURNED_STEPS: &str = "\
3 output 90 / output 90 3C 64
5 output+ 90 / output+ 90 3E 64
12 output+ B0 / output+ B0 65 00 B0 64 00 B0 06 02 B0 | 26 00
22 output+ F0 / output+ F0 01 02 03 04 05 06 07 08 F7
25 note-cut |2| / note 22 0 cut-message
26 output+ C0 / output+ C0 05
29 note-cut |2| / note 26 0 open-message";

#[test]
fn each_front_of_a_recording(rt: HostRuntime) -> Result<(), Fail> {
    let alloc = rt.alloc();
    fronts_hold(&rt, alloc, CARRIED, CARRIED_STEPS)?;
    fronts_hold(&rt, alloc, SHOWN, SHOWN_STEPS)
}

#[test]
fn each_read_and_put_fails_in_turn(rt: HostRuntime) -> Result<(), Fail> {
    let alloc = rt.alloc();
    all_fail_in_turn(&rt, alloc, CARRIED, CARRIED_STEPS)?;
    all_fail_in_turn(&rt, alloc, SHOWN, SHOWN_STEPS)?;
    all_fail_in_turn(&rt, alloc, STREAM, STREAM_STEPS)
}

#[test]
fn each_read_of_a_stream_that_is_raised_fails_in_turn(rt: HostRuntime) -> Result<(), Fail> {
    all_reads_fail_in_turn(&rt, rt.alloc(), RAISED, RAISED_STEPS)
}

#[test]
fn each_put_of_a_stream_that_is_raised_fails_in_turn(rt: HostRuntime) -> Result<(), Fail> {
    all_puts_fail_in_turn(&rt, rt.alloc(), RAISED, RAISED_STEPS)
}

#[test]
fn each_read_of_a_stream_that_comes_back_fails_in_turn(rt: HostRuntime) -> Result<(), Fail> {
    all_reads_fail_in_turn(&rt, rt.alloc(), RETURNED, RETURNED_STEPS)
}

#[test]
fn each_put_of_a_stream_that_comes_back_fails_in_turn(rt: HostRuntime) -> Result<(), Fail> {
    all_puts_fail_in_turn(&rt, rt.alloc(), RETURNED, RETURNED_STEPS)
}
