// The parts that the lines of channel voice messages have in common in both protocols.
ghost use Rattle.std.specs.Prelude.{◌≡◌, ◌≤◌, ◌+◌, ◌*◌, ◌++◌, length};
ghost use Rattle.text_lines.specs.Fields.{group_field, group_and_channel};
ghost use Rattle.text_lines.specs.VoiceLines.{channel_value, controller_value, note_value};
ghost use Rattle.text_lines.specs.Room.{AddsAtMost, HasRoom, HasRoomForEnd, before_fields, longest_field};

use crate::line::Line;
use crate::put::{put_field, put_text};
use voice_messages::{U4, U7};

/// The channel that a message is for, and its group. A message in a byte stream has no group.
#[derive(Clone, Copy)]
pub struct VoiceAddress {
    pub group: Option<U4>,
    pub channel: U4,
}

/// Adds the group of a message, if it has one.
#[tactic(auto, unfolding(crate::specs::Fields::group_field))]
#[inline(always)]
pub fn put_group_field(line: &mut Line, group: Option<U4>)
    requires { HasRoom longest_field line.old }
    ensures text { line.new ≡ line.old ++ group_field group }
    ensures room { AddsAtMost longest_field line.old line.new }
{
    if let Some(group) = group {
        put_field(line, " group=", group.get() as u32);
    }
}

/// Adds the kind, the group if there is one, and the channel of a message.
#[tactic(auto, unfolding(crate::specs::Fields::group_and_channel))]
#[inline(always)]
pub fn put_voice(line: &mut Line, kind: &str, address: VoiceAddress)
    requires { length line.old + length kind.now ≤ before_fields }
    ensures text { line.new ≡ line.old ++ kind.now ++ group_and_channel address.group address.channel }
    ensures room { AddsAtMost (length kind.now + 2 * longest_field) line.old line.new }
{
    put_text(line, kind);
    put_group_field(line, address.group);
    put_field(line, " channel=", address.channel.get() as u32);
}

/// Adds a message that has a value for its channel.
#[inline(always)]
pub fn put_value(line: &mut Line, kind: &str, address: VoiceAddress, value: u32)
    requires { length line.old + length kind.now ≤ before_fields }
    ensures text { line.new ≡ line.old ++ channel_value kind.now address.group address.channel value }
    ensures room { HasRoomForEnd line.new }
{
    put_voice(line, kind, address);
    put_field(line, " value=", value);
}

/// Adds a message that has a value for one note.
#[inline(always)]
pub fn put_note_value(line: &mut Line, kind: &str, address: VoiceAddress, note: U7, value: u32)
    requires { length line.old + length kind.now ≤ before_fields }
    ensures text { line.new ≡ line.old ++ note_value kind.now address.group address.channel note value }
    ensures room { HasRoomForEnd line.new }
{
    put_voice(line, kind, address);
    put_field(line, " note=", note.get() as u32);
    put_field(line, " value=", value);
}

/// Adds a message that has a value for one controller.
#[inline(always)]
pub fn put_control(line: &mut Line, kind: &str, address: VoiceAddress, index: U7, value: u32)
    requires { length line.old + length kind.now ≤ before_fields }
    ensures text { line.new ≡ line.old
        ++ controller_value kind.now address.group address.channel index value }
    ensures room { HasRoomForEnd line.new }
{
    put_voice(line, kind, address);
    put_field(line, " index=", index.get() as u32);
    put_field(line, " value=", value);
}
