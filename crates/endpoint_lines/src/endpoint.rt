// The lines of the command `endpoint`.
ghost use Rattle.std.specs.Prelude.{◌≡◌, ◌<◌, ◌≤◌, ◌+◌, ◌*◌, ◌++◌, length, codes};
ghost use Rattle.text_lines.specs.Fields.{hex_bytes};
ghost use Rattle.endpoint_lines.specs.EndpointLines.{
  name_word,
  endpoint_text,
  protocol_text,
  muid_text,
  block_text,
  place_text,
  state_word,
  profile_text,
};
ghost use Rattle.text_lines.specs.Room.{AddsAtMost, HasRoom, before_kind, longest_field, longest_word};
ghost use Rattle.endpoint_lines.specs.EndpointRoom.{id_digits, longest_name};

use function_blocks::{Place, Profile};
use text_lines::{Line, put_decimal, put_group_or_hyphen, put_hex, put_number, put_text};
use voice_messages::{U4, U7};

/// The word for what an endpoint did with a whole exclusive or a stream packet (own rule).
#[derive(Clone, Copy, Debug, PartialEq, Eq)]
pub enum OutcomeName {
    /// `not-ci`: the exclusive isn't a MIDI-CI message.
    NotCi,
    /// `short`: the message ends before its fields do.
    Short,
    /// `bad-address`: the device ID is none of the channels, 7E and 7F.
    BadAddress,
    /// `reserved-muid`: the source is a reserved MUID or the broadcast MUID.
    ReservedMuid,
    /// `no-block`: no active function block with MIDI-CI has the group.
    NoBlock,
    /// `silent`: the block has used up its MUIDs.
    Silent,
    /// `collision`: the source is the block's own MUID; the block switches to its next MUID or falls silent.
    Collision,
    /// `old-version`: the message has a version that isn't answered.
    OldVersion,
    /// `not-ours`: the message is for another MUID.
    NotOurs,
    /// `moved`: the block's MUID was invalidated; the block switches to its next MUID or falls silent.
    Moved,
    /// `report`: the message is a reply, a report, an ACK or a NAK. The replies of Process Inquiry aren't
    /// among these.
    Report,
    /// `broadcast`: the message is sent to all, and it isn't Discovery.
    Broadcast,
    /// `answered`: the message has a reply.
    Answered,
    /// `passed`: the message is Property Exchange, which isn't answered.
    Passed,
    /// `nak`: the message is answered with a NAK.
    Nak,
    /// `no-answer`: the stream message has no reply.
    NoAnswer,
    /// `bad-format`: the stream packet has a format that is not allowed for its message.
    BadFormat,
}

/// Returns the line for a whole exclusive or a stream packet: the offset of the packet that ended it, in
/// decimal digits, the group, or a hyphen if there is none, and the word for what the endpoint did (own
/// rule).
pub fn endpoint_line(offset: u64, group: Option<U4>, name: OutcomeName) -> Line
    ensures text { result ≡ endpoint_text offset group name }
    ensures some { 0 < length result }
{
    let mut line = Line::new();
    fill_endpoint_line(&mut line, offset, group, name);
    line
}

/// Overwrites the line with the line for an exclusive or a stream packet, as `endpoint_line` returns it (own
/// rule).
pub fn fill_endpoint_line(line: &mut Line, offset: u64, group: Option<U4>, name: OutcomeName)
    ensures text { line.new ≡ endpoint_text offset group name }
    ensures some { 0 < length line.new }
{
    line.clear();
    put_decimal(line, offset);
    put_text(line, " ");
    put_group_or_hyphen(line, group);
    put_text(line, " ");
    put_text(line, word_of(name));
    put_text(line, "\n");
}

/// Returns the line for the protocol in force, which is 1 for MIDI 1.0 and 2 for MIDI 2.0 (own rule).
pub fn protocol_line(protocol: u8) -> Line
    ensures text { result ≡ protocol_text protocol }
    ensures some { 0 < length result }
{
    let mut line = Line::new();
    put_text(&mut line, "protocol ");
    put_decimal(&mut line, u64::from(protocol));
    put_text(&mut line, "\n");
    line
}

/// Returns the line for a function block: the block's number, and the MUID in decimal digits, or `silent` if
/// there is none (own rule).
pub fn block_line(number: u8, muid: Option<u32>) -> Line
    ensures text { result ≡ block_text number muid }
    ensures some { 0 < length result }
{
    let mut line = Line::new();
    put_text(&mut line, "block ");
    put_decimal(&mut line, u64::from(number));
    put_text(&mut line, " ");
    put_muid(&mut line, muid);
    put_text(&mut line, "\n");
    line
}

/// Returns the line for a profile: the number of its function block, the place, the id in ten hexadecimal
/// digits, and whether the profile is enabled now (own rule). Whether it was enabled at first doesn't matter.
pub fn profile_line(profile: &Profile, on: bool) -> Line
    ensures text { result ≡ profile_text profile.now on }
    ensures some { 0 < length result }
{
    let mut line = Line::new();
    put_text(&mut line, "profile ");
    put_decimal(&mut line, u64::from(profile.block));
    put_text(&mut line, " ");
    put_place(&mut line, profile.place);
    put_text(&mut line, " ");
    put_id(&mut line, &profile.id);
    put_text(&mut line, " ");
    put_text(&mut line, state_name(on));
    put_text(&mut line, "\n");
    line
}

// Adds a MUID, or the word that says that there is none.
fn put_muid(line: &mut Line, muid: Option<u32>)
    requires { length line.old ≤ before_kind }
    ensures text { line.new ≡ line.old ++ muid_text muid }
    ensures room { AddsAtMost longest_field line.old line.new }
{
    match muid {
        Some(muid) => {
            put_text(line, "muid ");
            put_number(line, muid);
        }
        None => put_text(line, "silent"),
    }
}

// Adds the place of a profile.
fn put_place(line: &mut Line, place: Place)
    requires { length line.old ≤ before_kind }
    ensures text { line.new ≡ line.old ++ place_text place }
    ensures room { AddsAtMost (2 * longest_field) line.old line.new }
{
    match place {
        Place::Function => put_text(line, "function"),
        Place::Group(group) => {
            put_text(line, "group ");
            put_number(line, group.get() as u32);
        }
        Place::Channel(group, channel) => {
            put_text(line, "channel ");
            put_number(line, group.get() as u32);
            put_text(line, " ");
            put_number(line, channel.get() as u32);
        }
    }
}

// Adds the id of a profile in ten hexadecimal digits.
fn put_id(line: &mut Line, id: &[U7; 5])
    requires { HasRoom id_digits line.old }
    ensures text { line.new ≡ line.old ++ hex_bytes id.now }
    ensures room { length line.new ≡ length line.old + id_digits }
{
    for byte in id {
        put_hex(line, 2, byte.get() as u32);
    }
}

// Returns the word that says whether a profile is enabled.
fn state_name(on: bool) -> &'static str
    ensures word { result.now ≡ state_word on }
    ensures size { length result.now ≤ longest_word }
{
    if on { "on" } else { "off" }
}

/// Returns the word for a name, as a line has it (own rule).
pub fn word_of(name: OutcomeName) -> &'static str
    ensures word { result.now ≡ name_word name }
    ensures size { length result.now ≤ longest_name }
{
    match name {
        OutcomeName::NotCi => "not-ci",
        OutcomeName::Short => "short",
        OutcomeName::BadAddress => "bad-address",
        OutcomeName::ReservedMuid => "reserved-muid",
        OutcomeName::NoBlock => "no-block",
        OutcomeName::Silent => "silent",
        OutcomeName::Collision => "collision",
        OutcomeName::OldVersion => "old-version",
        OutcomeName::NotOurs => "not-ours",
        OutcomeName::Moved => "moved",
        OutcomeName::Report => "report",
        OutcomeName::Broadcast => "broadcast",
        OutcomeName::Answered => "answered",
        OutcomeName::Passed => "passed",
        OutcomeName::Nak => "nak",
        OutcomeName::NoAnswer => "no-answer",
        OutcomeName::BadFormat => "bad-format",
    }
}
