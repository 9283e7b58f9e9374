// The replies of `endpoint`, its lines, and what stands after each end.
use super::fault_rows::all_fail_in_turn;
use std::test::Fail;

const DISCOVERY: &str = "\
# the discovery of the endpoint
run endpoint a.toml
input F0000101 0000001F 00000000 00000000
demo-setup";

const DISCOVERY_STEPS: &str = "\
16 output F0 / output F0010101 81000300 00000000 00000000
16 output F0 / output F0020000 007D0000 01000200 01000000
16 output F4 / output F4034465 6D6F2045 6E64706F 696E7420
16 output FC / output FC035800 00000000 00000000 00000000
16 output F0 / output F004534E 2D303030 31000000 00000000
16 output F0 / output F0060200 00000000 00000000 00000000
16 note-cut |0| / note 0 - answered
17 note-cut |p| / note protocol 2
17 note-cut |b| / note block 0 muid 19088743
17 note-cut |p| / note profile 0 channel 0 2 7E00010100 off";

const REQUEST: &str = "\
# the request of the protocol of MIDI 1.0
run endpoint a.toml
input F0050100 00000000 00000000 00000000
demo-setup";

const REQUEST_STEPS: &str = "\
16 output F0 / output F0060100 00000000 00000000 00000000
16 note-cut |0| / note 0 - answered
17 note-cut |p| / note protocol 1
17 note-cut |b| / note block 0 muid 19088743
17 note-cut |p| / note profile 0 channel 0 2 7E00010100 off";

const CI_DISCOVERY: &str = "\
# a MIDI-CI Discovery from MUID 5
run endpoint a.toml
input 30167E7F 0D700205 30260000 007F7F7F
input 30267F7D 00000100 30260200 01000000
input 30360400 02000000
demo-setup";

const CI_DISCOVERY_STEPS: &str = "\
40 output 30 / output 30167E7F 0D710267
40 output+ 30 / output+ 30260A0D 09050000
40 output 30 / output 3026007D 00000100
40 output+ 30 / output+ 30260200 01000000
40 output 30 / output 30260400 00400000
40 output+ 30 / output+ 30310000 00000000
40 note-cut |3| / note 32 0 answered
41 note-cut |p| / note protocol 2
41 note-cut |b| / note block 0 muid 19088743
41 note-cut |p| / note profile 0 channel 0 2 7E00010100 off";

// The replies, the line, and the lines at the end.
#[test]
fn each_read_and_put_fails_in_turn(rt: HostRuntime) -> Result<(), Fail> {
    let alloc = rt.alloc();
    all_fail_in_turn(&rt, alloc, DISCOVERY, DISCOVERY_STEPS)?;
    all_fail_in_turn(&rt, alloc, REQUEST, REQUEST_STEPS)?;
    all_fail_in_turn(&rt, alloc, CI_DISCOVERY, CI_DISCOVERY_STEPS)
}
