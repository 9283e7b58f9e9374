// The last line of a run.
ghost use Rattle.std.specs.Prelude.{◌≡◌, ◌≤◌, ◌++◌, ◌<◌, length, codes, decimal, IfSome, Result};
ghost use Rattle.std.specs.Option.{option_map, option_to_list};
ghost use Rattle.midi_commands.specs.LastLine.{reason_text as text_for, last_line_text, last_puts};
ghost use Rattle.pass_loop.specs.Places.{Puts, places};
ghost use Rattle.pass_loop.specs.Put.{in_notes};
ghost use Rattle.pass_loop.specs.declared.ends.RunEnd.{RunEnd};

use crate::status::Status;
use midi_lines::{Line, put_decimal, put_text};
use outside::{Lanes, Sink};
use pass_loop::places::put_notes;
use pass_loop::{Reason, RunEnd};

// Returns the name of a reason.
fn reason_text(reason: Reason) -> &'static str
    ensures text { result.now ≡ text_for reason }
    ensures size { length result.now ≤ 16 }
{
    match reason {
        Reason::Truncated => "Truncated",
        Reason::InputTooLong => "InputTooLong",
        Reason::BadCount => "BadCount",
        Reason::HighBit => "HighBit",
        Reason::DataIncrement => "DataIncrement",
        Reason::DataDecrement => "DataDecrement",
        Reason::ExclusiveTooLong => "ExclusiveTooLong",
        Reason::BadEvent => "BadEvent",
        Reason::TooManyMessages => "TooManyMessages",
        Reason::NotClip => "NotClip",
        Reason::NoResolution => "NoResolution",
        Reason::AfterEnd => "AfterEnd",
        Reason::NoEnd => "NoEnd",
    }
}

// Returns the line for a refusal.
fn refusal_line(reason: Reason, offset: u64) -> Line
    ensures text { result
        ≡ codes "refused " ++ text_for reason ++ codes " at " ++ decimal offset ++ codes "\n" }
{
    let mut line = Line::new();
    put_text(&mut line, "refused ");
    put_text(&mut line, reason_text(reason));
    put_text(&mut line, " at ");
    put_decimal(&mut line, offset);
    put_text(&mut line, "\n");
    line
}

// Returns the line for the first rule that a setup breaks.
fn rule_line(rule: u8) -> Line
    ensures text { result ≡ codes "setup field " ++ decimal rule ++ codes "\n" }
{
    let mut line = Line::new();
    put_text(&mut line, "setup field ");
    put_decimal(&mut line, u64::from(rule));
    put_text(&mut line, "\n");
    line
}

// Returns a line with this text.
fn line_of(text: &str) -> Line
    requires { length text.now ≤ 60 }
    ensures { result ≡ text.now ++ codes "\n" }
{
    let mut line = Line::new();
    put_text(&mut line, text);
    put_text(&mut line, "\n");
    line
}

/// Returns the last line for a status, or `None` for `Done` and `NoteFault`.
pub fn last_line(status: Status) -> Option<Line>
    ensures text { result ≡ last_line_text status }
    ensures some { IfSome result (λ line. 0 < length line) }
{
    match status {
        Status::Done | Status::NoteFault => None,
        Status::Refused { reason, offset } => Some(refusal_line(reason, offset)),
        Status::ReadFault => Some(line_of("read failed")),
        Status::LaneFault => Some(line_of("lane write failed")),
        Status::OutputFault => Some(line_of("output write failed")),
        Status::ShelfFault => Some(line_of("setup read failed")),
        Status::SetupSyntax => Some(line_of("setup is not TOML")),
        Status::SetupField(rule) => Some(rule_line(rule)),
        Status::Usage => Some(line_of("usage: translate, show, endpoint or selftest")),
        Status::NoMemory => Some(line_of("no memory")),
    }
}

// Writes a line to the notes, if there is one.
fn put_line<L: Lanes, W: Sink, N: Sink>(
    line: Option<Line>,
    lanes: &mut L,
    output: &mut W,
    notes: &mut N,
) -> Result<(), RunEnd>
    requires { IfSome line (λ text. 0 < length text) }
    ensures { Puts (option_to_list (option_map in_notes line))
        (places L.Lanes W.Sink N.Sink lanes.old output.old notes.old)
        (places L.Lanes W.Sink N.Sink lanes.new output.new notes.new) result }
{
    match line {
        Some(line) => put_notes(line.as_slice(), lanes, output, notes),
        None => Ok(()),
    }
}

/// Writes the last line for a status to the notes, if it has one. If that fails, the notes may have gained a
/// front of the line, and their count of faults has risen.
pub fn put_last<L: Lanes, W: Sink, N: Sink>(
    status: Status,
    lanes: &mut L,
    output: &mut W,
    notes: &mut N,
)
    ensures { (answer : Result (Unit {0}) RunEnd) × Puts (last_puts status)
        (places L.Lanes W.Sink N.Sink lanes.old output.old notes.old)
        (places L.Lanes W.Sink N.Sink lanes.new output.new notes.new) answer }
{
    let _ = put_line(last_line(status), lanes, output, notes);
}
