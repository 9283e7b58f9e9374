// The lines of the texts of stream messages.
ghost use Rattle.std.specs.Prelude.{◌≡◌, ◌<◌, ◌≤◌, ◌+◌, ◌*◌, ◌++◌, length, codes, IfSome, Some, None, true, false, if◌then◌else◌};
ghost use Rattle.system_stream.specs.Joined.{joined_view};
ghost use Rattle.midi_lines.specs.TextLines.{IsWithinLimit, joined_text, spaced_bytes, text_kind_word};
ghost use Rattle.text_lines.specs.Room.{HasRoom, AddsAtMost, longest_word};
ghost use Rattle.midi_lines.specs.TextRoom.{before_text, longest_text};

use system_stream::{Joined, TextKind};
use text_lines::{Line, put_hex_bytes, put_text};

/// Returns the line for a text of this kind that has ended: `text`, the kind, and the bytes in two
/// hexadecimal digits each, or `bad` (own rule). Returns `None` exactly if the text hasn't ended. A whole
/// text has at most as many bytes as its kind allows: 98, 42 or 91.
pub fn text_line(kind: TextKind, joined: &Joined<'_>) -> Option<Line>
    requires { IsWithinLimit kind joined.now }
    ensures text { result ≡ joined_text kind (joined_view joined.now) }
    ensures some { IfSome result (λ line. 0 < length line) }
{
    let mut line = Line::new();
    if fill_text_line(&mut line, kind, joined) {
        Some(line)
    } else {
        None
    }
}

/// Overwrites the line with the line that `text_line` returns, and returns whether the text has ended (own
/// rule). If it hasn't, the line is unchanged.
pub fn fill_text_line(line: &mut Line, kind: TextKind, joined: &Joined<'_>) -> bool
    requires { IsWithinLimit kind joined.now }
    ensures text { joined_text kind (joined_view joined.now) ≡ (if result then Some line.new else None) }
    ensures some { result ≡ true → 0 < length line.new }
    ensures none { result ≡ false → line.new ≡ line.old }
{
    match joined {
        Joined::Held => return false,
        Joined::Whole(bytes) => fill_whole_text(line, kind, bytes),
        Joined::Bad => fill_bad_text(line, kind),
    }
    true
}

fn fill_whole_text(line: &mut Line, kind: TextKind, bytes: &[u8])
    requires { length bytes.now ≤ longest_text }
    ensures text { line.new ≡ codes "text " ++ text_kind_word kind ++ spaced_bytes bytes.now ++ codes "\n" }
    ensures some { 0 < length line.new }
{
    begin(line, kind);
    put_spaced_bytes(line, bytes);
    put_text(line, "\n");
}

fn fill_bad_text(line: &mut Line, kind: TextKind)
    ensures text { line.new ≡ codes "text " ++ text_kind_word kind ++ codes " bad" ++ codes "\n" }
    ensures some { 0 < length line.new }
{
    begin(line, kind);
    put_text(line, " bad\n");
}

// Overwrites the line with the kind of a text.
fn begin(line: &mut Line, kind: TextKind)
    ensures text { line.new ≡ codes "text " ++ text_kind_word kind }
    ensures room { length line.new ≤ before_text }
{
    line.clear();
    put_text(line, "text ");
    put_text(line, kind_name(kind));
}

// Adds a space and the bytes, or nothing if there are no bytes.
fn put_spaced_bytes(line: &mut Line, bytes: &[u8])
    requires { HasRoom (1 + 2 * length bytes.now) line.old }
    ensures text { line.new ≡ line.old ++ spaced_bytes bytes.now }
    ensures room { AddsAtMost (1 + 2 * length bytes.now) line.old line.new }
{
    if !bytes.is_empty() {
        put_text(line, " ");
        put_hex_bytes(line, bytes);
    }
}

// Returns the word for a kind.
fn kind_name(kind: TextKind) -> &'static str
    ensures word { result.now ≡ text_kind_word kind }
    ensures size { length result.now ≤ longest_word }
{
    match kind {
        TextKind::EndpointName => "endpoint-name",
        TextKind::ProductId => "product-id",
        TextKind::BlockName => "block-name",
    }
}
