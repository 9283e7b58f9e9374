// The lines of facts.
ghost use Rattle.std.specs.Prelude.{◌≡◌, ◌<◌, ◌≤◌, ◌+◌, ◌*◌, ◌++◌, length, codes};
ghost use Rattle.midi_lines.specs.FactLines.{address_text, bank_words, fact_text, fact_words, loose_word, of_channel, of_group, param_words, spaced, two_numbers, value_word};
ghost use Rattle.text_lines.specs.Voice2Lines.{kind_word};
ghost use Rattle.text_lines.specs.Room.{AddsAtMost, HasRoom, HasRoomForEnd, before_kind, behind_channel, longest_field, longest_value, longest_word};

use text_lines::{Line, kind_name, put_decimal, put_number, put_text};
use voice_messages::{Bank, Param, ParamKind, U4, U7};
use voice_state::{Fact, FactAddress};

/// Returns the line for a fact: `state`, the group, the channel, the name of the fact, and the numbers of the
/// fact in decimal digits (own rule).
pub fn fact_line(fact: &Fact) -> Line
    ensures text { result ≡ fact_text fact.now }
    ensures some { 0 < length result }
{
    let mut line = Line::new();
    fill_fact_line(&mut line, fact);
    line
}

/// Overwrites the line with the line for a fact, as `fact_line` returns it (own rule).
pub fn fill_fact_line(line: &mut Line, fact: &Fact)
    ensures text { line.new ≡ fact_text fact.now }
    ensures some { 0 < length line.new }
{
    line.clear();
    put_fact(line, fact);
    put_text(line, "\n");
}

// Adds the words of a fact.
fn put_fact(line: &mut Line, fact: &Fact)
    requires { length line.old ≤ before_kind }
    ensures text { line.new ≡ line.old ++ fact_words fact.now }
    ensures room { HasRoomForEnd line.new }
{
    put_address(line, fact.address());
    match *fact {
        Fact::On { note, velocity, .. } => put_two_numbers(line, " on", note, velocity as u32),
        Fact::Off { note, velocity, .. } => put_two_numbers(line, " off", note, velocity as u32),
        Fact::Mode { index, value, .. } => put_two_numbers(line, " mode", index, value),
        Fact::Poly { note, value, .. } => put_two_numbers(line, " poly", note, value),
        Fact::Control { index, value, .. } => put_two_numbers(line, " control", index, value),
        Fact::Pressure { value, .. } => put_value(line, " pressure", value),
        Fact::Bend { value, .. } => put_value(line, " bend", value),
        Fact::Program { program, bank, .. } => put_program(line, program, bank),
        Fact::Registered {
            bank,
            index,
            value,
            loose,
            ..
        } => {
            let kind = ParamKind::Registered;
            put_param(line, Param { kind, bank, index }, value, loose);
        }
        Fact::Assignable {
            bank,
            index,
            value,
            loose,
            ..
        } => {
            let kind = ParamKind::Assignable;
            put_param(line, Param { kind, bank, index }, value, loose);
        }
        Fact::System { count, .. } => put_count(line, " system", count),
        Fact::RealTime { count, .. } => put_count(line, " real-time", count),
    }
}

// Adds the group, and the channel if the fact is about one channel.
fn put_address(line: &mut Line, address: FactAddress)
    requires { length line.old ≤ before_kind }
    ensures text { line.new ≡ line.old ++ address_text address }
    ensures room { length line.new ≤ behind_channel }
{
    match address.channel {
        None => put_group(line, address.group),
        Some(channel) => put_channel(line, address.group, channel),
    }
}

// Adds a space and a number.
#[tactic(auto, unfolding(crate::specs::FactLines::spaced))]
fn put_spaced(line: &mut Line, number: u32)
    requires { HasRoom (1 + longest_value) line.old }
    ensures text { line.new ≡ line.old ++ spaced number }
    ensures room { AddsAtMost (1 + longest_value) line.old line.new }
{
    put_text(line, " ");
    put_number(line, number);
}

#[tactic(auto, unfolding(crate::specs::FactLines::of_group))]
fn put_group(line: &mut Line, group: U4)
    requires { HasRoom longest_field line.old }
    ensures text { line.new ≡ line.old ++ of_group group }
    ensures room { AddsAtMost longest_field line.old line.new }
{
    put_text(line, "state");
    put_spaced(line, group.get() as u32);
}

#[tactic(auto, unfolding(crate::specs::FactLines::of_channel))]
fn put_channel(line: &mut Line, group: U4, channel: U4)
    requires { HasRoom (2 * longest_field) line.old }
    ensures text { line.new ≡ line.old ++ of_channel group channel }
    ensures room { AddsAtMost (2 * longest_field) line.old line.new }
{
    put_group(line, group);
    put_spaced(line, channel.get() as u32);
}

// Adds a fact that has a note or an index, and a value.
fn put_two_numbers(line: &mut Line, name: &str, first: U7, second: u32)
    requires old { length line.old ≤ behind_channel }
    requires name { length name.now ≤ longest_word }
    ensures text { line.new ≡ line.old ++ two_numbers name.now first second }
    ensures room { HasRoomForEnd line.new }
{
    put_text(line, name);
    put_spaced(line, first.get() as u32);
    put_spaced(line, second);
}

// Adds a fact that has only a value.
fn put_value(line: &mut Line, name: &str, value: u32)
    requires old { length line.old ≤ behind_channel }
    requires name { length name.now ≤ longest_word }
    ensures text { line.new ≡ line.old ++ name.now ++ spaced value }
    ensures room { HasRoomForEnd line.new }
{
    put_text(line, name);
    put_spaced(line, value);
}

fn put_program(line: &mut Line, program: U7, bank: Option<Bank>)
    requires { length line.old ≤ behind_channel }
    ensures text { line.new ≡ line.old ++ codes " program" ++ spaced program ++ bank_words bank }
    ensures room { HasRoomForEnd line.new }
{
    put_text(line, " program");
    put_spaced(line, program.get() as u32);
    put_bank(line, bank);
}

// Adds the bank that a program change selected, if there is one.
#[tactic(auto, unfolding(crate::specs::FactLines::bank_words))]
fn put_bank(line: &mut Line, bank: Option<Bank>)
    requires { HasRoom (2 * longest_field) line.old }
    ensures text { line.new ≡ line.old ++ bank_words bank }
    ensures room { AddsAtMost (2 * longest_field) line.old line.new }
{
    match bank {
        None => put_text(line, " bank none"),
        Some(bank) => {
            put_text(line, " bank");
            put_spaced(line, bank.msb.get() as u32);
            put_text(line, "/");
            put_number(line, bank.lsb.get() as u32);
        }
    }
}

// Adds a parameter by the two parts of its number, and the value.
fn put_param(line: &mut Line, param: Param, value: Option<u32>, loose: bool)
    requires { length line.old ≤ behind_channel }
    ensures text { line.new ≡ line.old
        ++ param_words (codes " " ++ kind_word param.kind) param.bank param.index value loose }
    ensures room { HasRoomForEnd line.new }
{
    put_text(line, " ");
    put_text(line, kind_name(param.kind));
    put_spaced(line, param.bank.get() as u32);
    put_spaced(line, param.index.get() as u32);
    put_param_value(line, value, loose);
}

// Adds the value of a parameter, which may never have been set, and which is loose after a relative change.
#[tactic(auto, unfolding(crate::specs::FactLines::value_word, crate::specs::FactLines::loose_word))]
fn put_param_value(line: &mut Line, value: Option<u32>, loose: bool)
    requires { HasRoom (longest_field + longest_word) line.old }
    ensures text { line.new ≡ line.old ++ value_word value ++ loose_word loose }
    ensures room { AddsAtMost (longest_field + longest_word) line.old line.new }
{
    match value {
        None => put_text(line, " none"),
        Some(value) => put_spaced(line, value),
    }
    if loose {
        put_text(line, " loose");
    }
}

// Adds the number of messages that came.
#[tactic(auto, unfolding(crate::specs::FactLines::spaced))]
fn put_count(line: &mut Line, name: &str, count: u64)
    requires old { length line.old ≤ behind_channel }
    requires name { length name.now ≤ longest_word }
    ensures text { line.new ≡ line.old ++ name.now ++ spaced count }
    ensures room { HasRoomForEnd line.new }
{
    put_text(line, name);
    put_text(line, " ");
    put_decimal(line, count);
}
