/// A setup that keeps all rules, of 29 lines: an endpoint, a function block with MIDI-CI on group 0 that has
/// two MUIDs, and a profile of channel 2 of that group, which is off. It is `examples/endpoint.toml` without
/// its comments and empty lines.
pub const DEMO_SETUP: &str = "\
[endpoint]
name = \"Demo Endpoint X\"
id = \"SN-0001\"
manufacturer = [125, 0, 0]
family = 1
model = 2
revision = [1, 0, 0, 0]
midi1 = true
midi2 = true
protocol = 2
static = true
[[block]]
active = true
name = \"Main\"
hint = 3
midi1 = 0
direction = 3
first = 0
count = 1
ci = 2
sysex8 = 0
muids = [19088743, 300]
[[profile]]
block = 0
place = \"channel\"
group = 0
channel = 2
id = [126, 0, 1, 1, 0]
on = false
";
