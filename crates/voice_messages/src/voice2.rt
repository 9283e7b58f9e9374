// Messages of the MIDI 2.0 protocol.
ghost use Rattle.std.specs.Prelude.{◌≡◌, ◌<◌};
ghost use Rattle.voice_messages.specs.Channels.{channel2};
ghost use Rattle.voice_messages.specs.Forms.{form_at};

use crate::small::U7;
use small_types::U4;

/// The list that a parameter or note controller belongs to.
#[derive(Clone, Copy, Debug, PartialEq, Eq)]
pub enum ParamKind {
    /// The standard registers the number.
    Registered,
    /// The manufacturer assigns the number.
    Assignable,
}

/// A registered or assignable parameter. `bank` is the MSB of its number and `index` is the LSB (MIDI 1.0
/// Detailed Specification, registered and non-registered parameter numbers).
#[derive(Clone, Copy, Debug, PartialEq, Eq)]
pub struct Param {
    pub kind: ParamKind,
    pub bank: U7,
    pub index: U7,
}

/// The bank of a program (MIDI 1.0 Detailed Specification, bank select).
#[derive(Clone, Copy, Debug, PartialEq, Eq)]
pub struct Bank {
    pub msb: U7,
    pub lsb: U7,
}

/// A channel voice message of the MIDI 2.0 protocol (M2-104-UM, MIDI 2.0 channel voice messages).
/// Velocities and attributes have 16 bits, and values have 32. The centre of a bend is 0x8000_0000. A note
/// whose `attribute_type` is 0 has no attribute.
#[derive(Clone, Copy, Debug, PartialEq, Eq)]
pub enum Voice2 {
    /// Opcode 8.
    NoteOff {
        channel: U4,
        note: U7,
        velocity: u16,
        attribute_type: u8,
        attribute: u16,
    },
    /// Opcode 9.
    NoteOn {
        channel: U4,
        note: U7,
        velocity: u16,
        attribute_type: u8,
        attribute: u16,
    },
    /// Opcode A.
    PolyPressure {
        channel: U4,
        note: U7,
        value: u32,
    },
    /// Opcode B.
    Control {
        channel: U4,
        index: U7,
        value: u32,
    },
    /// Opcodes 2 and 3: sets the value of a registered or assignable parameter.
    Set {
        channel: U4,
        param: Param,
        value: u32,
    },
    /// Opcodes 4 and 5: changes a registered or assignable parameter, relative to its value.
    Shift {
        channel: U4,
        param: Param,
        value: u32,
    },
    /// Opcode C.
    Program {
        channel: U4,
        program: U7,
        bank: Option<Bank>,
    },
    /// Opcode D: the pressure of the channel.
    Pressure {
        channel: U4,
        value: u32,
    },
    /// Opcode E.
    Bend {
        channel: U4,
        value: u32,
    },
    /// Opcodes 0 and 1: a registered or assignable controller of one note.
    NoteController {
        channel: U4,
        kind: ParamKind,
        note: U7,
        index: u8,
        value: u32,
    },
    /// Opcode 6: the bend of one note.
    NoteBend {
        channel: U4,
        note: U7,
        value: u32,
    },
    /// Opcode F: manages one note, with a byte of option flags.
    NoteManagement {
        channel: U4,
        note: U7,
        flags: u8,
    },
}

impl Voice2 {
    /// Returns the channel of the message, 0 to 15 (M2-104-UM, MIDI 2.0 channel voice messages).
    #[inline(always)]
    pub fn channel(&self) -> U4
        ensures { result ≡ channel2 self.now }
    {
        match *self {
            Voice2::NoteOff { channel, .. }
            | Voice2::NoteOn { channel, .. }
            | Voice2::PolyPressure { channel, .. }
            | Voice2::Control { channel, .. }
            | Voice2::Set { channel, .. }
            | Voice2::Shift { channel, .. }
            | Voice2::Program { channel, .. }
            | Voice2::Pressure { channel, .. }
            | Voice2::Bend { channel, .. }
            | Voice2::NoteController { channel, .. }
            | Voice2::NoteBend { channel, .. }
            | Voice2::NoteManagement { channel, .. } => channel,
        }
    }
}

/// The part of a message that a packet carries (M2-104-UM, system exclusive and stream messages).
#[derive(Clone, Copy, Debug, PartialEq, Eq)]
pub enum Form {
    /// The whole message.
    Complete,
    /// The start of the message.
    Start,
    /// A part between the start and the end of the message.
    Continue,
    /// The end of the message.
    End,
}

impl Form {
    /// Returns the form of packet `k`, counted from 0, in a message of `count` packets (M2-104-UM, system
    /// exclusive and stream messages).
    pub fn at(k: usize, count: usize) -> Form
        requires { k < count }
        ensures { result ≡ form_at count k }
    {
        if count == 1 {
            Form::Complete
        } else if k == 0 {
            Form::Start
        } else if k + 1 == count {
            Form::End
        } else {
            Form::Continue
        }
    }
}
