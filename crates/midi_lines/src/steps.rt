// The lines of the messages of a MIDI 1.0 byte stream.
ghost use Rattle.std.specs.Prelude.{◌≡◌, ◌<◌, ◌≤◌, ◌+◌, ◌++◌, length, codes, decimal, IfSome, Some, None, true, false, if◌then◌else◌};
ghost use Rattle.midi1_bytes.specs.Answers.{step_view};
ghost use Rattle.midi1_bytes.specs.Spoken.{voice_in};
ghost use Rattle.text_lines.specs.Fields.{field};
ghost use Rattle.midi_lines.specs.StepLines.{HasBothEnds, step_text};
ghost use Rattle.text_lines.specs.Voice1Lines.{voice1_fields, system_fields};
ghost use Rattle.text_lines.specs.Room.{before_kind};

use midi1_bytes::{AfterCut, Step, System, VoiceBytes};
use text_lines::{Line, put_decimal, put_system, put_text, put_voice1};

/// Returns the line for the message that a byte at this offset completes in a MIDI 1.0 byte stream: the
/// offset in decimal digits, the kind of the message and its fields. For an exclusive, the field is the
/// length between F0 and F7. Returns `None` exactly if the byte completes no message. A tune request
/// completes one, even if it cuts something off (own rule).
pub fn step_line(step: &Step<'_>, offset: u64) -> Option<Line>
    requires { HasBothEnds step.now }
    ensures text { result ≡ step_text (step_view step.now) offset }
    ensures some { IfSome result (λ line. 0 < length line) }
{
    let mut line = Line::new();
    if fill_step_line(&mut line, step, offset) {
        Some(line)
    } else {
        None
    }
}

/// Overwrites the line with the line that `step_line` returns, and returns whether the byte completes a
/// message (own rule). If it completes none, the line is unchanged.
#[inline(always)]
pub fn fill_step_line(line: &mut Line, step: &Step<'_>, offset: u64) -> bool
    requires { HasBothEnds step.now }
    ensures text { step_text (step_view step.now) offset ≡ (if result then Some line.new else None) }
    ensures some { result ≡ true → 0 < length line.new }
    ensures none { result ≡ false → line.new ≡ line.old }
{
    match step {
        Step::Voice(bytes) => fill_voice_line(line, bytes, offset),
        Step::Common(bytes) => fill_system_line(line, bytes.message(), offset),
        Step::RealTime(byte) => fill_system_line(line, byte.message(), offset),
        Step::Exclusive(bytes) => fill_exclusive_line(line, bytes.len() - 2, offset),
        Step::Cut {
            after: AfterCut::Tune,
            ..
        } => fill_system_line(line, System::Tune, offset),
        _ => return false,
    }
    true
}

fn fill_voice_line(line: &mut Line, bytes: &VoiceBytes, offset: u64)
    ensures text { line.new
        ≡ decimal offset ++ codes " " ++ voice1_fields None (voice_in bytes.now) ++ codes "\n" }
    ensures some { 0 < length line.new }
{
    begin(line, offset);
    put_voice1(line, None, &bytes.message());
    put_text(line, "\n");
}

fn fill_system_line(line: &mut Line, message: System, offset: u64)
    ensures text { line.new ≡ decimal offset ++ codes " " ++ system_fields None message ++ codes "\n" }
    ensures some { 0 < length line.new }
{
    begin(line, offset);
    put_system(line, None, &message);
    put_text(line, "\n");
}

fn fill_exclusive_line(line: &mut Line, size: usize, offset: u64)
    ensures text { line.new
        ≡ decimal offset ++ codes " " ++ codes "exclusive" ++ field (codes "length") size ++ codes "\n" }
    ensures some { 0 < length line.new }
{
    begin(line, offset);
    put_text(line, "exclusive length=");
    put_decimal(line, size as u64);
    put_text(line, "\n");
}

// Overwrites the line with the offset and a space.
fn begin(line: &mut Line, offset: u64)
    ensures text { line.new ≡ decimal offset ++ codes " " }
    ensures room { length line.new ≤ before_kind }
{
    line.clear();
    put_decimal(line, offset);
    put_text(line, " ");
}
