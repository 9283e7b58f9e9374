// The lines of MIDI 2.0 protocol messages, from their kind on.
ghost use Rattle.std.specs.Prelude.{◌≡◌, ◌≤◌, ◌+◌, ◌*◌, ◌++◌, length, codes};
ghost use Rattle.text_lines.specs.Fields.{field};
ghost use Rattle.text_lines.specs.Voice2Lines.{voice2_fields, kind_word, bank_field, param_fields, param_value, controller_fields, note_controller, program, note_management};
ghost use Rattle.text_lines.specs.Room.{AddsAtMost, HasRoom, HasRoomForEnd, before_fields, before_kind, behind_channel, longest_field, longest_word};

use crate::decimal::put_number;
use crate::line::Line;
use crate::put::{put_field, put_text, put_word_field};
use crate::voice::{VoiceAddress, put_control, put_note_value, put_value, put_voice};
use voice_messages::{Bank, Param, ParamKind, U4, U7, Voice2};

/// Adds the kind and the fields of a channel voice message.
pub fn put_voice2(line: &mut Line, group: Option<U4>, message: &Voice2)
    requires { length line.old ≤ before_kind }
    ensures text { line.new ≡ line.old ++ voice2_fields group message.now }
    ensures room { HasRoomForEnd line.new }
{
    let channel = message.channel();
    let address = VoiceAddress { group, channel };
    match *message {
        Voice2::NoteOff {
            note,
            velocity,
            attribute_type,
            attribute,
            ..
        } => {
            put_voice(line, "note-off", address);
            put_note(line, note, velocity, attribute_type, attribute);
        }
        Voice2::NoteOn {
            note,
            velocity,
            attribute_type,
            attribute,
            ..
        } => {
            put_voice(line, "note-on", address);
            put_note(line, note, velocity, attribute_type, attribute);
        }
        Voice2::PolyPressure { note, value, .. } => {
            put_note_value(line, "poly", address, note, value);
        }
        Voice2::NoteController {
            kind,
            note,
            index,
            value,
            ..
        } => put_note_controller(line, address, kind, note, index, value),
        Voice2::NoteBend { note, value, .. } => {
            put_note_value(line, "note-bend", address, note, value);
        }
        Voice2::NoteManagement { note, flags, .. } => {
            put_note_management(line, address, note, flags);
        }
        Voice2::Control { index, value, .. } => {
            put_control(line, "control", address, index, value);
        }
        Voice2::Set { param, value, .. } => put_param(line, "parameter", address, param, value),
        Voice2::Shift { param, value, .. } => put_param(line, "relative", address, param, value),
        Voice2::Program { program, bank, .. } => put_program(line, address, program, bank),
        Voice2::Pressure { value, .. } => put_value(line, "pressure", address, value),
        Voice2::Bend { value, .. } => put_value(line, "bend", address, value),
    }
}

// Adds the fields of a note off or note on that follow the channel.
#[inline(always)]
fn put_note(line: &mut Line, note: U7, velocity: u16, attribute_type: u8, attribute: u16)
    requires { length line.old ≤ behind_channel }
    ensures text { line.new
        ≡ line.old ++ field (codes "note") note ++ field (codes "velocity") velocity
        ++ field (codes "type") attribute_type ++ field (codes "attribute") attribute }
    ensures room { HasRoomForEnd line.new }
{
    put_field(line, " note=", note.get() as u32);
    put_field(line, " velocity=", velocity as u32);
    put_field(line, " type=", attribute_type as u32);
    put_field(line, " attribute=", attribute as u32);
}

/// Returns the word for a kind of parameter.
pub fn kind_name(kind: ParamKind) -> &'static str
    ensures word { result.now ≡ kind_word kind }
    ensures size { length (codes " kind=") + length result.now ≤ longest_word }
{
    match kind {
        ParamKind::Registered => "registered",
        ParamKind::Assignable => "assignable",
    }
}

// Adds the kind and the number of a parameter.
#[tactic(auto, unfolding(crate::specs::Voice2Lines::param_fields))]
fn put_param_fields(line: &mut Line, param: Param)
    requires { length line.old ≤ behind_channel }
    ensures text { line.new ≡ line.old ++ param_fields param }
    ensures room { AddsAtMost (longest_word + 2 * longest_field) line.old line.new }
{
    put_word_field(line, " kind=", kind_name(param.kind));
    put_field(line, " bank=", param.bank.get() as u32);
    put_field(line, " index=", param.index.get() as u32);
}

// Adds a message that sets a parameter's value, or changes it.
#[inline(always)]
fn put_param(line: &mut Line, kind: &str, address: VoiceAddress, param: Param, value: u32)
    requires { length line.old + length kind.now ≤ before_fields }
    ensures text { line.new ≡ line.old ++ param_value kind.now address.group address.channel param value }
    ensures room { HasRoomForEnd line.new }
{
    put_voice(line, kind, address);
    put_param_fields(line, param);
    put_field(line, " value=", value);
}

fn put_program(line: &mut Line, address: VoiceAddress, number: U7, bank: Option<Bank>)
    requires { length line.old ≤ before_kind }
    ensures text { line.new ≡ line.old ++ program address.group address.channel number bank }
    ensures room { HasRoomForEnd line.new }
{
    put_voice(line, "program", address);
    put_field(line, " program=", number.get() as u32);
    put_bank(line, bank);
}

// Adds the bank of a program change.
#[tactic(auto, unfolding(crate::specs::Voice2Lines::bank_field))]
fn put_bank(line: &mut Line, bank: Option<Bank>)
    requires { HasRoom (2 * longest_field) line.old }
    ensures text { line.new ≡ line.old ++ bank_field bank }
    ensures room { AddsAtMost (2 * longest_field) line.old line.new }
{
    match bank {
        None => put_text(line, " bank=none"),
        Some(bank) => {
            put_text(line, " bank=");
            put_number(line, bank.msb.get() as u32);
            put_text(line, "/");
            put_number(line, bank.lsb.get() as u32);
        }
    }
}

// Adds a message that has a value for a controller of one note.
#[inline(always)]
fn put_note_controller(
    line: &mut Line,
    address: VoiceAddress,
    kind: ParamKind,
    note: U7,
    index: u8,
    value: u32,
)
    requires { length line.old ≤ before_kind }
    ensures text { line.new
        ≡ line.old ++ note_controller address.group address.channel kind note index value }
    ensures room { HasRoomForEnd line.new }
{
    put_voice(line, "note-controller", address);
    put_controller_fields(line, kind, note, index);
    put_field(line, " value=", value);
}

// Adds the kind, the note and the index of a note controller.
#[tactic(auto, unfolding(crate::specs::Voice2Lines::controller_fields))]
fn put_controller_fields(line: &mut Line, kind: ParamKind, note: U7, index: u8)
    requires { length line.old ≤ behind_channel }
    ensures text { line.new ≡ line.old ++ controller_fields kind note index }
    ensures room { AddsAtMost (longest_word + 2 * longest_field) line.old line.new }
{
    put_word_field(line, " kind=", kind_name(kind));
    put_field(line, " note=", note.get() as u32);
    put_field(line, " index=", index as u32);
}

fn put_note_management(line: &mut Line, address: VoiceAddress, note: U7, flags: u8)
    requires { length line.old ≤ before_kind }
    ensures text { line.new ≡ line.old ++ note_management address.group address.channel note flags }
    ensures room { HasRoomForEnd line.new }
{
    put_voice(line, "note-management", address);
    put_field(line, " note=", note.get() as u32);
    put_field(line, " flags=", flags as u32);
}
