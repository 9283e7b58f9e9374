// Encodes packets as words.
ghost use Rattle.std.specs.Prelude.{◌≡◌, ◌≤◌, ◌<◌, ◌+◌, ◌*◌, ◌/◌, ◌%◌, ◌^◌, length, slice_index, [], ◌∷◌};
ghost use Rattle.packet_words.specs.Words.{IsWhole};
ghost use Rattle.ump_grammar.specs.WordFields.{
  field,
  word,
  byte,
  type_of,
  group_of,
  opcode_of,
  channel_of,
  count_of,
};
ghost use Rattle.ump_grammar.specs.Ranges.{IsPacket};
ghost use Rattle.ump_grammar.specs.Reading.{Encodes};
ghost use Rattle.ump_grammar.specs.Spelling.{Spells, form_number, kind_number, exclusive_places};

use crate::packet::Packet;
use packet_words::Words;
use voice_messages::{Bank, Form, Param, ParamKind, System, U4, U7, U14, Voice1, Voice2};

/// Returns the words that encode the packet (M2-104-UM), with zeros in the places that its row doesn't
/// name. The packet must be one that some words decode to.
#[inline(always)]
#[tactic(auto, using(crate::proofs::OnePacket::one_packet))]
pub fn encode(packet: &Packet) -> Words
    requires { IsPacket packet.now }
    ensures spelled { Encodes packet.now result }
    ensures only { (other : Packet) → Spells other result → other ≡ packet.now }
{
    match packet {
        Packet::Utility { status, value } => utility(*status, *value),
        Packet::System { group, message } => system(*group, message),
        Packet::Voice1 { group, message } => voice1(*group, message),
        Packet::Exclusive { group, form, bytes } => exclusive(*group, *form, bytes.as_slice()),
        Packet::Voice2 { group, message } => voice2(*group, message),
        Packet::Data8 { group: _, words } => words.copied(),
        Packet::Flex { group: _, words } => words.copied(),
        Packet::Stream {
            format,
            status,
            low,
            second,
            third,
            fourth,
        } => Words::from_slice(&[
            stream_word(*format, *status, *low),
            *second,
            *third,
            *fourth,
        ]),
        Packet::Reserved { words } => words.copied(),
    }
}

// Returns the word of four bytes, with the first two given as halves.
fn first_word(kind: u8, group: U4, opcode: u8, low: u8, third: u8, fourth: u8) -> u32
    requires kind { kind < 16 }
    requires opcode { opcode < 16 }
    requires low { low < 16 }
    ensures top { result / 2 ^ 28 ≡ kind }
    ensures group { field result 24 4 ≡ group }
    ensures opcode { field result 20 4 ≡ opcode }
    ensures low { field result 16 4 ≡ low }
    ensures second { field result 16 8 ≡ 16 * opcode + low }
    ensures third { field result 8 8 ≡ third }
    ensures fourth { field result 0 8 ≡ fourth }
    ensures flag { field result 0 1 ≡ fourth % 2 }
    ensures flags { field result 1 7 ≡ fourth / 2 }
{
    let first = 16 * kind + group.get();
    let second = 16 * opcode + low;
    word_of(first, second, third, fourth)
}

// Returns the word of four bytes.
fn word_of(first: u8, second: u8, third: u8, fourth: u8) -> u32
    ensures { result ≡ first * 2 ^ 24 + second * 2 ^ 16 + third * 2 ^ 8 + fourth }
{
    u32::from_be_bytes([first, second, third, fourth])
}

fn utility(status: u8, value: u32) -> Words
    requires { IsPacket (Packet.Utility status value) }
    ensures { Encodes (Packet.Utility status value) result }
{
    Words::from_slice(&[(u32::from(status) << 20) + value])
}

fn stream_word(format: u8, status: u16, low: u16) -> u32
    requires format { format < 4 }
    requires status { status < 2 ^ 10 }
    ensures top { result / 2 ^ 28 ≡ 0xF }
    ensures format { field result 26 2 ≡ format }
    ensures status { field result 16 10 ≡ status }
    ensures low { field result 0 16 ≡ low }
{
    (0xF << 28) + (u32::from(format) << 26) + (u32::from(status) << 16) + u32::from(low)
}

// Returns a packet of type 1 with this status byte.
fn system_word(group: U4, status: u8, third: u8, fourth: u8) -> Words
    ensures whole { IsWhole result }
    ensures kind { type_of result ≡ 0x1 }
    ensures group { group_of result ≡ group }
    ensures status { byte result 2 ≡ status }
    ensures third { byte result 3 ≡ third }
    ensures fourth { byte result 4 ≡ fourth }
{
    Words::from_slice(&[first_word(0x1, group, status / 16, status % 16, third, fourth)])
}

fn system(group: U4, message: &System) -> Words
    requires { IsPacket (Packet.System group message.now) }
    ensures { Encodes (Packet.System group message.now) result }
{
    match message {
        System::Quarter(value) => system_word(group, 0xF1, value.get(), 0),
        System::Position(value) => system_word(group, 0xF2, low_byte(*value), high_byte(*value)),
        System::Song(value) => system_word(group, 0xF3, value.get(), 0),
        System::Tune => system_word(group, 0xF6, 0, 0),
        System::Clock => system_word(group, 0xF8, 0, 0),
        System::Start => system_word(group, 0xFA, 0, 0),
        System::Continue => system_word(group, 0xFB, 0, 0),
        System::Stop => system_word(group, 0xFC, 0, 0),
        System::Sensing => system_word(group, 0xFE, 0, 0),
        System::Reset => system_word(group, 0xFF, 0, 0),
    }
}

// Returns the data byte that comes first.
fn low_byte(value: U14) -> u8
    ensures { result ≡ value % 128 }
{
    (value.get() % 128) as u8
}

// Returns the data byte that comes second.
fn high_byte(value: U14) -> u8
    ensures value { result ≡ value / 128 }
    ensures below { result < 128 }
{
    (value.get() / 128) as u8
}

// Returns a packet of type 2 with this opcode.
fn voice1_word(group: U4, opcode: u8, channel: U4, third: u8, fourth: u8) -> Words
    requires { opcode < 16 }
    ensures whole { IsWhole result }
    ensures kind { type_of result ≡ 0x2 }
    ensures group { group_of result ≡ group }
    ensures opcode { opcode_of result ≡ opcode }
    ensures channel { channel_of result ≡ channel }
    ensures third { byte result 3 ≡ third }
    ensures fourth { byte result 4 ≡ fourth }
{
    Words::from_slice(&[first_word(0x2, group, opcode, channel.get(), third, fourth)])
}

fn voice1(group: U4, message: &Voice1) -> Words
    requires { IsPacket (Packet.Voice1 group message.now) }
    ensures { Encodes (Packet.Voice1 group message.now) result }
{
    match message {
        Voice1::NoteOff {
            channel,
            note,
            velocity,
        } => voice1_word(group, 0x8, *channel, note.get(), velocity.get()),
        Voice1::NoteOn {
            channel,
            note,
            velocity,
        } => voice1_word(group, 0x9, *channel, note.get(), velocity.get()),
        Voice1::PolyPressure {
            channel,
            note,
            value,
        } => voice1_word(group, 0xA, *channel, note.get(), value.get()),
        Voice1::Control {
            channel,
            index,
            value,
        } => voice1_word(group, 0xB, *channel, index.get(), value.get()),
        Voice1::Program { channel, program } => {
            voice1_word(group, 0xC, *channel, program.get(), 0)
        }
        Voice1::Pressure { channel, value } => voice1_word(group, 0xD, *channel, value.get(), 0),
        Voice1::Bend { channel, value } => voice1_word(
            group,
            0xE,
            *channel,
            low_byte(*value),
            high_byte(*value),
        ),
    }
}

// Returns a packet of type 4 with this opcode.
fn voice2_words(
    group: U4,
    opcode: u8,
    channel: U4,
    third: u8,
    fourth: u8,
    second_word: u32,
) -> Words
    requires { opcode < 16 }
    ensures whole { IsWhole result }
    ensures kind { type_of result ≡ 0x4 }
    ensures group { group_of result ≡ group }
    ensures opcode { opcode_of result ≡ opcode }
    ensures channel { channel_of result ≡ channel }
    ensures third { byte result 3 ≡ third }
    ensures fourth { byte result 4 ≡ fourth }
    ensures flag { field (word result 1) 0 1 ≡ fourth % 2 }
    ensures flags { field (word result 1) 1 7 ≡ fourth / 2 }
    ensures second_word { word result 2 ≡ second_word }
{
    let first = first_word(0x4, group, opcode, channel.get(), third, fourth);
    Words::from_slice(&[first, second_word])
}

// Encodes a MIDI 2.0 channel voice message, with one row for each kind of message.
fn voice2(group: U4, message: &Voice2) -> Words
    requires { IsPacket (Packet.Voice2 group message.now) }
    ensures { Encodes (Packet.Voice2 group message.now) result }
{
    let channel = message.channel();
    match *message {
        Voice2::NoteOff {
            note,
            velocity,
            attribute_type,
            attribute,
            ..
        } => {
            let values = halves(velocity, attribute);
            voice2_words(group, 0x8, channel, note.get(), attribute_type, values)
        }
        Voice2::NoteOn {
            note,
            velocity,
            attribute_type,
            attribute,
            ..
        } => {
            let values = halves(velocity, attribute);
            voice2_words(group, 0x9, channel, note.get(), attribute_type, values)
        }
        Voice2::PolyPressure { note, value, .. } => {
            voice2_words(group, 0xA, channel, note.get(), 0, value)
        }
        Voice2::NoteController {
            kind,
            note,
            index,
            value,
            ..
        } => voice2_words(group, kind_bit(kind), channel, note.get(), index, value),
        Voice2::NoteBend { note, value, .. } => {
            voice2_words(group, 0x6, channel, note.get(), 0, value)
        }
        Voice2::NoteManagement { note, flags, .. } => {
            voice2_words(group, 0xF, channel, note.get(), flags, 0)
        }
        Voice2::Set { param, value, .. } => param_words(group, 0x2, channel, param, value),
        Voice2::Shift { param, value, .. } => param_words(group, 0x4, channel, param, value),
        Voice2::Program { program, bank, .. } => program_words(group, channel, program, bank),
        Voice2::Control { index, value, .. } => {
            voice2_words(group, 0xB, channel, index.get(), 0, value)
        }
        Voice2::Pressure { value, .. } => voice2_words(group, 0xD, channel, 0, 0, value),
        Voice2::Bend { value, .. } => voice2_words(group, 0xE, channel, 0, 0, value),
    }
}

// Encodes a parameter: a registered one has this opcode, an assignable one has the next.
fn param_words(group: U4, opcode: u8, channel: U4, param: Param, value: u32) -> Words
    requires { opcode < 15 }
    ensures whole { IsWhole result }
    ensures kind { type_of result ≡ 0x4 }
    ensures group { group_of result ≡ group }
    ensures opcode { opcode_of result ≡ opcode + kind_number param.kind }
    ensures channel { channel_of result ≡ channel }
    ensures bank { byte result 3 ≡ param.bank }
    ensures index { byte result 4 ≡ param.index }
    ensures value { word result 2 ≡ value }
{
    let opcode = opcode + kind_bit(param.kind);
    voice2_words(
        group,
        opcode,
        channel,
        param.bank.get(),
        param.index.get(),
        value,
    )
}

// Encodes a program change.
fn program_words(group: U4, channel: U4, program: U7, bank: Option<Bank>) -> Words
    requires { IsPacket (Packet.Voice2 group (Voice2.Program channel program bank)) }
    ensures { Encodes (Packet.Voice2 group (Voice2.Program channel program bank)) result }
{
    match bank {
        None => voice2_words(group, 0xC, channel, 0, 0, word_of(program.get(), 0, 0, 0)),
        Some(bank) => {
            let second = word_of(program.get(), 0, bank.msb.get(), bank.lsb.get());
            voice2_words(group, 0xC, channel, 0, 1, second)
        }
    }
}

// Returns the word of two halves.
fn halves(high: u16, low: u16) -> u32
    ensures high { field result 16 16 ≡ high }
    ensures low { field result 0 16 ≡ low }
{
    (u32::from(high) << 16) + u32::from(low)
}

fn kind_bit(kind: ParamKind) -> u8
    ensures number { result ≡ kind_number kind }
    ensures below { result < 2 }
{
    match kind {
        ParamKind::Registered => 0,
        ParamKind::Assignable => 1,
    }
}

/// Returns the number of a form, 0 to 3 (M2-104-UM, formats of stream messages and of 7-bit exclusives).
pub fn form_bits(form: Form) -> u8
    ensures number { result ≡ form_number form }
    ensures below { result < 4 }
{
    match form {
        Form::Complete => 0,
        Form::Start => 1,
        Form::Continue => 2,
        Form::End => 3,
    }
}

// Returns the byte at index `i`, or 0 past the last byte.
fn place(bytes: &[u8], i: usize) -> u8
    ensures { result ≡ slice_index bytes.now i }
{
    bytes.get(i).copied().unwrap_or(0)
}

// Returns a packet of type 3 with these bytes, and zeros after them.
fn exclusive_words(group: U4, form: Form, bytes: &[u8]) -> Words
    requires { length bytes.now ≤ 6 }
    ensures whole { IsWhole result }
    ensures kind { type_of result ≡ 0x3 }
    ensures group { group_of result ≡ group }
    ensures form { opcode_of result ≡ form_number form }
    ensures count { count_of result ≡ length bytes.now }
    ensures places { exclusive_places result ≡
        slice_index bytes.now 0 ∷ slice_index bytes.now 1 ∷ slice_index bytes.now 2
        ∷ slice_index bytes.now 3 ∷ slice_index bytes.now 4 ∷ slice_index bytes.now 5 ∷ [] }
{
    let first = first_word(
        0x3,
        group,
        form_bits(form),
        bytes.len() as u8,
        place(bytes, 0),
        place(bytes, 1),
    );
    let second = word_of(
        place(bytes, 2),
        place(bytes, 3),
        place(bytes, 4),
        place(bytes, 5),
    );
    Words::from_slice(&[first, second])
}

fn exclusive(group: U4, form: Form, bytes: &[u8]) -> Words
    requires { IsPacket (Packet.Exclusive group form bytes.now) }
    ensures { Encodes (Packet.Exclusive group form bytes.now) result }
{
    exclusive_words(group, form, bytes)
}
