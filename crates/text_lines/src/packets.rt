// The lines of packets.
ghost use Rattle.std.specs.Prelude.{◌≡◌, ◌<◌, ◌≤◌, ◌+◌, ◌*◌, ◌++◌, length, codes, decimal};
ghost use Rattle.text_lines.specs.Fields.{hex_words, field};
ghost use Rattle.text_lines.specs.PacketLines.{packet_fields, packet_text, form_word, utility, exclusive, stream};
ghost use Rattle.text_lines.specs.Room.{AddsAtMost, HasRoomForEnd, before_fields, before_kind, before_packet, longest_number, longest_word, longest_words, most_words};

use crate::decimal::put_decimal;
use crate::line::Line;
use crate::put::{put_field, put_hex_bytes, put_hex_field, put_text, put_word, put_word_field};
use crate::voice1::{put_system, put_voice1};
use crate::voice2::put_voice2;
use small_types::ShortList;
use ump_grammar::Packet;
use voice_messages::{Form, U4};

/// Returns the line for a packet at this offset, with one to four words: the offset in decimal digits, each
/// word in eight hexadecimal digits, the kind of the packet and its fields (own rule).
pub fn packet_line(packet: &Packet, words: &[u32], offset: u64) -> Line
    requires { length words.now ≤ most_words }
    ensures text { result ≡ packet_text packet.now words.now offset }
    ensures some { 0 < length result }
{
    let mut line = Line::new();
    fill_packet_line(&mut line, packet, words, offset);
    line
}

/// Overwrites the line with the line for a packet, as `packet_line` returns it (own rule).
#[inline(always)]
pub fn fill_packet_line(line: &mut Line, packet: &Packet, words: &[u32], offset: u64)
    requires { length words.now ≤ most_words }
    ensures text { line.new ≡ packet_text packet.now words.now offset }
    ensures some { 0 < length line.new }
{
    line.clear();
    put_packet_line(line, packet, words, offset);
}

/// Adds the line for a packet, as `packet_line` returns it, to a line that is empty or has only the packet's
/// ticks and a space, at most 21 bytes (own rule). A packet has 1 to 4 words.
#[inline(always)]
pub fn put_packet_line(line: &mut Line, packet: &Packet, words: &[u32], offset: u64)
    requires few { length words.now ≤ most_words }
    requires room { length line.old ≤ before_packet }
    ensures { line.new ≡ line.old ++ packet_text packet.now words.now offset }
{
    put_decimal(line, offset);
    put_words(line, words);
    put_text(line, " ");
    put_packet(line, packet);
    put_text(line, "\n");
}

// Adds each word with a space before it.
fn put_words(line: &mut Line, words: &[u32])
    requires few { length words.now ≤ most_words }
    requires room { length line.old ≤ before_packet + longest_number }
    ensures text { line.new ≡ line.old ++ hex_words words.now }
    ensures room { AddsAtMost longest_words line.old line.new }
{
    for word in words {
        put_text(line, " ");
        put_word(line, *word);
    }
}

// Adds the kind of a packet and its fields.
#[inline(always)]
fn put_packet(line: &mut Line, packet: &Packet)
    requires { length line.old ≤ before_kind }
    ensures text { line.new ≡ line.old ++ packet_fields packet.now }
    ensures room { HasRoomForEnd line.new }
{
    match packet {
        Packet::Utility { status, value } => put_utility(line, *status, *value),
        Packet::System { group, message } => put_system(line, Some(*group), message),
        Packet::Voice1 { group, message } => put_voice1(line, Some(*group), message),
        Packet::Exclusive { group, form, bytes } => put_exclusive(line, *group, *form, bytes),
        Packet::Voice2 { group, message } => put_voice2(line, Some(*group), message),
        Packet::Data8 { group, .. } => put_group(line, "data8", *group),
        Packet::Flex { group, .. } => put_group(line, "flex", *group),
        Packet::Stream { format, status, .. } => put_stream(line, *format, *status),
        Packet::Reserved { .. } => put_text(line, "reserved"),
    }
}

fn put_utility(line: &mut Line, status: u8, value: u32)
    requires { length line.old ≤ before_kind }
    ensures text { line.new ≡ line.old ++ utility status value }
    ensures room { HasRoomForEnd line.new }
{
    put_field(line, "utility status=", status as u32);
    put_field(line, " value=", value);
}

// Adds a kind whose only field is the group.
fn put_group(line: &mut Line, kind: &str, group: U4)
    requires { length line.old + length kind.now ≤ before_fields }
    ensures text { line.new ≡ line.old ++ kind.now ++ field (codes "group") group }
    ensures room { HasRoomForEnd line.new }
{
    put_text(line, kind);
    put_field(line, " group=", group.get() as u32);
}

// Returns the word for a form.
fn form_name(form: Form) -> &'static str
    ensures word { result.now ≡ form_word form }
    ensures size { length result.now ≤ longest_word }
{
    match form {
        Form::Complete => "complete",
        Form::Start => "start",
        Form::Continue => "continue",
        Form::End => "end",
    }
}

fn put_exclusive(line: &mut Line, group: U4, form: Form, bytes: &ShortList<u8, 6>)
    requires { length line.old ≤ before_kind }
    ensures text { line.new ≡ line.old ++ exclusive group form bytes.now }
    ensures room { HasRoomForEnd line.new }
{
    put_field(line, "exclusive group=", group.get() as u32);
    put_word_field(line, " form=", form_name(form));
    put_text(line, " bytes=");
    put_hex_bytes(line, bytes.as_slice());
}

fn put_stream(line: &mut Line, format: u8, status: u16)
    requires { length line.old ≤ before_kind }
    ensures text { line.new ≡ line.old ++ stream format status }
    ensures room { HasRoomForEnd line.new }
{
    put_field(line, "stream format=", format as u32);
    put_hex_field(line, " status=", 3, status as u32);
}
