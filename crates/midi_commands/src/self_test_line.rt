// The line of a self test.
ghost use Rattle.std.specs.Prelude.{◌≡◌, ◌<◌, length};
ghost use Rattle.midi_commands.specs.SelfTest.{counts_text};

use midi_lines::{Line, put_decimal, put_text};
use self_test::Counts;

/// Returns the line for these counts of the first `packets` packets of a seed.
pub fn self_test_line(seed: u32, packets: u32, counts: &Counts) -> Line
    ensures text { result ≡ counts_text seed packets counts.now }
    ensures some { 0 < length result }
{
    let mut line = Line::new();
    put_text(&mut line, "selftest ");
    put_decimal(&mut line, u64::from(seed));
    put_text(&mut line, " packets ");
    put_decimal(&mut line, u64::from(packets));
    put_text(&mut line, " carried ");
    put_decimal(&mut line, counts.carried);
    put_text(&mut line, " listed ");
    put_decimal(&mut line, counts.listed);
    put_text(&mut line, " bytes ");
    put_decimal(&mut line, counts.bytes);
    put_text(&mut line, " again ");
    put_decimal(&mut line, counts.again);
    put_text(&mut line, "\n");
    line
}
