// The lines of the listing.
ghost use Rattle.std.specs.Prelude.{◌≡◌, ◌<◌, ◌≤◌, ◌+◌, ◌++◌, length, codes};
ghost use Rattle.text_lines.specs.ListingLines.{byte_listing_text, group_text, listed_word, listing_text};
ghost use Rattle.text_lines.specs.Room.{AddsAtMost, before_kind, longest_value, longest_word};

use crate::decimal::{put_decimal, put_number};
use crate::line::Line;
use crate::put::put_text;
use listing_terms::{Kind, Listed};
use voice_messages::U4;

/// Returns the line for a listed message: the offset in decimal digits, the group, or a hyphen if there is
/// none, and the kind (own rule).
pub fn listing_line(listed: &Listed) -> Line
    ensures text { result ≡ listing_text listed.now }
    ensures some { 0 < length result }
{
    let mut line = Line::new();
    fill_listing_line(&mut line, listed);
    line
}

/// Overwrites the line with the line for a listed message, as `listing_line` returns it (own rule).
#[inline(always)]
pub fn fill_listing_line(line: &mut Line, listed: &Listed)
    ensures text { line.new ≡ listing_text listed.now }
    ensures some { 0 < length line.new }
{
    line.clear();
    put_decimal(line, listed.offset);
    put_text(line, " ");
    put_group_or_hyphen(line, listed.group);
    put_kind(line, listed.kind);
}

/// Returns the line for a message that is listed for a MIDI 1.0 byte stream, which has no groups: the offset
/// in decimal digits, and the kind (own rule).
pub fn byte_listing(kind: Kind, offset: u64) -> Line
    ensures text { result ≡ byte_listing_text kind offset }
    ensures some { 0 < length result }
{
    let mut line = Line::new();
    fill_byte_listing(&mut line, kind, offset);
    line
}

/// Overwrites the line with the line for a stream, as `byte_listing` returns it (own rule).
pub fn fill_byte_listing(line: &mut Line, kind: Kind, offset: u64)
    ensures text { line.new ≡ byte_listing_text kind offset }
    ensures some { 0 < length line.new }
{
    line.clear();
    put_decimal(line, offset);
    put_kind(line, kind);
}

/// Adds a group, or a hyphen if there is none.
pub fn put_group_or_hyphen(line: &mut Line, group: Option<U4>)
    requires { length line.old ≤ before_kind }
    ensures text { line.new ≡ line.old ++ group_text group }
    ensures room { AddsAtMost longest_value line.old line.new }
{
    match group {
        Some(group) => put_number(line, group.get() as u32),
        None => put_text(line, "-"),
    }
}

// Adds a space, the word for a kind, and the end of the line.
fn put_kind(line: &mut Line, kind: Kind)
    requires { length line.old ≤ before_kind }
    ensures text { line.new ≡ line.old ++ codes " " ++ listed_word kind ++ codes "\n" }
    ensures some { 0 < length line.new }
{
    put_text(line, " ");
    put_text(line, kind_name(kind));
    put_text(line, "\n");
}

// Returns the word for a kind.
fn kind_name(kind: Kind) -> &'static str
    ensures word { result.now ≡ listed_word kind }
    ensures size { length result.now ≤ longest_word }
{
    match kind {
        Kind::Utility => "utility",
        Kind::Stream => "stream",
        Kind::Reserved => "reserved",
        Kind::Data8 => "data8",
        Kind::Flex => "flex",
        Kind::NoteAttribute => "note-attribute",
        Kind::NoteController => "note-controller",
        Kind::NoteBend => "note-bend",
        Kind::NoteManagement => "note-management",
        Kind::NullParameter => "null-parameter",
        Kind::RelativeParameter => "relative-parameter",
        Kind::MisplacedController => "misplaced-controller",
        Kind::FineController => "fine-controller",
        Kind::StrayExclusive => "stray-exclusive",
        Kind::CutExclusive => "cut-exclusive",
        Kind::OpenExclusive => "open-exclusive",
        Kind::Stray => "stray",
        Kind::Undefined => "undefined",
        Kind::CutMessage => "cut-message",
        Kind::OpenMessage => "open-message",
        Kind::IgnoredDataEntry => "ignored-data-entry",
    }
}
