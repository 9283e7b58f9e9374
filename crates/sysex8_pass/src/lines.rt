// The lines of 8-bit exclusives.
ghost use Rattle.std.specs.Prelude.{◌≡◌, ◌<◌, length};
ghost use Rattle.sysex8_pass.specs.Lines.{kind_text, whole_text, word8};

use small_types::U4;
use text_lines::{Line, put_decimal, put_text};

/// The kind of a line for a type 5 packet.
#[derive(Clone, Copy)]
pub enum Kind8 {
    /// The packet has no part of an 8-bit exclusive.
    Other,
    /// The packet's part continues or ends an exclusive, but none is open.
    Stray,
    /// The exclusive that the packet began was cut off.
    Cut,
    /// The packet begins an exclusive, but all slots are in use.
    Full,
    /// The exclusive that the packet began is open at the end.
    Open,
}

// Returns the word for a kind (own rule).
fn word(kind: Kind8) -> &'static str
    ensures { result.now ≡ word8 kind }
{
    match kind {
        Kind8::Other => "other-data8",
        Kind8::Stray => "stray-sysex8",
        Kind8::Cut => "cut-sysex8",
        Kind8::Full => "full-sysex8",
        Kind8::Open => "open-sysex8",
    }
}

/// Returns the line for a kind: the offset in decimal digits, in bytes from the start of the input, the
/// group, and the word for the kind (own rule).
pub fn kind_line(kind: Kind8, offset: u64, group: U4) -> Line
    ensures text { result ≡ kind_text kind offset group }
    ensures some { 0 < length result }
{
    let mut line = Line::new();
    put_decimal(&mut line, offset);
    put_text(&mut line, " ");
    put_decimal(&mut line, u64::from(group.get()));
    put_text(&mut line, " ");
    put_text(&mut line, word(kind));
    put_text(&mut line, "\n");
    line
}

/// Returns the line for a whole exclusive: the offset of its last packet, in bytes from the start of the
/// input, the group, the stream id, and the number of its bytes (own rule).
pub fn whole_line(offset: u64, group: U4, stream: u8, size: usize) -> Line
    ensures text { result ≡ whole_text offset group stream size }
    ensures some { 0 < length result }
{
    let mut line = Line::new();
    put_decimal(&mut line, offset);
    put_text(&mut line, " ");
    put_decimal(&mut line, u64::from(group.get()));
    put_text(&mut line, " sysex8 ");
    put_decimal(&mut line, u64::from(stream));
    put_text(&mut line, " ");
    put_decimal(&mut line, size as u64);
    put_text(&mut line, "\n");
    line
}
