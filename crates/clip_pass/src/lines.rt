// The lines of a clip.
ghost use Rattle.std.specs.Prelude.{◌≡◌, ◌<◌, ◌≤◌, length};
ghost use Rattle.clip_pass.specs.Clipping.{event_text};
ghost use Rattle.clip_pass.specs.Lines.{end_text, resolution_text};

use text_lines::{Line, put_decimal, put_packet_line, put_text};
use ump_grammar::Packet;
use ump_words::Framed;

/// Overwrites the line with the line for the ticks for a quarter note (own rule).
pub(crate) fn fill_resolution_line(line: &mut Line, ticks: u16)
    ensures text { line.new ≡ resolution_text ticks }
    ensures some { 0 < length line.new }
{
    line.clear();
    put_text(line, "resolution ");
    put_decimal(line, u64::from(ticks));
    put_text(line, "\n");
}

/// Overwrites the line with the line for an event: the ticks of the event, and the line of its packet (own
/// rule).
#[inline(always)]
pub(crate) fn fill_event_line(line: &mut Line, ticks: u64, framed: &Framed, packet: &Packet)
    ensures text { line.new ≡ event_text ticks (framed.now, packet.now) }
    ensures some { 0 < length line.new }
{
    line.clear();
    put_decimal(line, ticks);
    put_text(line, " ");
    put_packet_line(line, packet, framed.words.as_slice(), framed.offset);
}

/// Overwrites the line with the line for the ticks at which the clip ends (own rule).
pub(crate) fn fill_end_line(line: &mut Line, ticks: u64)
    ensures text { line.new ≡ end_text ticks }
    ensures some { 0 < length line.new }
{
    line.clear();
    put_text(line, "end ");
    put_decimal(line, ticks);
    put_text(line, "\n");
}
