// The lines of MIDI 1.0 protocol messages, from their kind on.
ghost use Rattle.std.specs.Prelude.{◌≡◌, ◌≤◌, ◌+◌, ◌++◌, length, codes};
ghost use Rattle.text_lines.specs.Fields.{field};
ghost use Rattle.text_lines.specs.Voice1Lines.{voice1_fields, system_fields, system_status, m1_note, m1_program};
ghost use Rattle.text_lines.specs.VoiceLines.{channel_value, controller_value, note_value};
ghost use Rattle.text_lines.specs.Room.{HasRoomForEnd, before_fields, before_kind, behind_channel};

use crate::line::Line;
use crate::put::{put_field, put_hex_field, put_text};
use crate::voice::{
    VoiceAddress, put_control, put_group_field, put_note_value, put_value, put_voice,
};
use voice_messages::{System, U4, U7, U14, Voice1};

/// Adds the kind and the fields of a channel voice message.
#[inline(always)]
pub fn put_voice1(line: &mut Line, group: Option<U4>, message: &Voice1)
    requires { length line.old ≤ before_kind }
    ensures text { line.new ≡ line.old ++ voice1_fields group message.now }
    ensures room { HasRoomForEnd line.new }
{
    let channel = message.channel();
    let address = VoiceAddress { group, channel };
    match *message {
        Voice1::NoteOff { note, velocity, .. } => {
            put_note(line, "m1-note-off", address, note, velocity);
        }
        Voice1::NoteOn { note, velocity, .. } => {
            put_note(line, "m1-note-on", address, note, velocity);
        }
        Voice1::PolyPressure { note, value, .. } => {
            put_note_value(line, "m1-poly", address, note, value.get() as u32);
        }
        Voice1::Control { index, value, .. } => {
            put_control(line, "m1-control", address, index, value.get() as u32);
        }
        Voice1::Program { program, .. } => put_program(line, address, program),
        Voice1::Pressure { value, .. } => {
            put_value(line, "m1-pressure", address, value.get() as u32);
        }
        Voice1::Bend { value, .. } => put_value(line, "m1-bend", address, value.get() as u32),
    }
}

#[inline(always)]
fn put_note(line: &mut Line, kind: &str, address: VoiceAddress, note: U7, velocity: U7)
    requires { length line.old + length kind.now ≤ before_fields }
    ensures text { line.new ≡ line.old ++ m1_note kind.now address.group address.channel note velocity }
    ensures room { HasRoomForEnd line.new }
{
    put_voice(line, kind, address);
    put_field(line, " note=", note.get() as u32);
    put_field(line, " velocity=", velocity.get() as u32);
}

#[inline(always)]
fn put_program(line: &mut Line, address: VoiceAddress, program: U7)
    requires { length line.old ≤ before_kind }
    ensures text { line.new ≡ line.old ++ m1_program address.group address.channel program }
    ensures room { HasRoomForEnd line.new }
{
    put_voice(line, "m1-program", address);
    put_field(line, " program=", program.get() as u32);
}

/// Adds the kind and the fields of a system message.
pub fn put_system(line: &mut Line, group: Option<U4>, message: &System)
    requires { length line.old ≤ before_kind }
    ensures text { line.new ≡ line.old ++ system_fields group message.now }
    ensures room { HasRoomForEnd line.new }
{
    match message {
        System::Quarter(value) => put_common(line, group, 0xF1, value.get() as u32),
        System::Position(value) => put_common(line, group, 0xF2, value.get() as u32),
        System::Song(value) => put_common(line, group, 0xF3, value.get() as u32),
        System::Tune => put_status(line, group, 0xF6),
        System::Clock => put_status(line, group, 0xF8),
        System::Start => put_status(line, group, 0xFA),
        System::Continue => put_status(line, group, 0xFB),
        System::Stop => put_status(line, group, 0xFC),
        System::Sensing => put_status(line, group, 0xFE),
        System::Reset => put_status(line, group, 0xFF),
    }
}

// Adds a system common message and its value.
fn put_common(line: &mut Line, group: Option<U4>, status: u8, value: u32)
    requires { length line.old ≤ before_kind }
    ensures text { line.new ≡ line.old ++ system_status group status ++ field (codes "value") value }
    ensures room { HasRoomForEnd line.new }
{
    put_status(line, group, status);
    put_field(line, " value=", value);
}

// Adds a system message by its status byte.
fn put_status(line: &mut Line, group: Option<U4>, status: u8)
    requires { length line.old ≤ before_kind }
    ensures text { line.new ≡ line.old ++ system_status group status }
    ensures room { length line.new ≤ behind_channel }
{
    put_text(line, "system");
    put_group_field(line, group);
    put_hex_field(line, " status=", 2, status as u32);
}
