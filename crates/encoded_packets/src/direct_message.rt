// Direct messages.
ghost use Rattle.std.specs.Prelude.{◌≡◌, ◌/◌, ◌<◌};
ghost use Rattle.encoded_packets.specs.DirectMessages.{is_direct_kind, kind_by};

use voice_messages::{U4, U7};

/// The kind of a direct message, by the opcode of its packet (M2-104-UM, MIDI 2.0 channel voice messages).
#[derive(Clone, Copy, Debug)]
pub enum DirectKind {
    /// Opcode 8.
    NoteOff,
    /// Opcode 9.
    NoteOn,
    /// Opcode A: the pressure of a note.
    PolyPressure,
    /// Opcode B: a control change.
    Control,
    /// Opcode D: the pressure of a channel.
    Pressure,
    /// Opcode E: the bend of a channel.
    Bend,
    /// Any other opcode. No direct message has it.
    Other,
}

// The kinds for opcodes 0 to F. This is a table, since the kind of the next message can't be predicted.
static KINDS: [DirectKind; 16] = [
    DirectKind::Other,
    DirectKind::Other,
    DirectKind::Other,
    DirectKind::Other,
    DirectKind::Other,
    DirectKind::Other,
    DirectKind::Other,
    DirectKind::Other,
    DirectKind::NoteOff,
    DirectKind::NoteOn,
    DirectKind::PolyPressure,
    DirectKind::Control,
    DirectKind::Other,
    DirectKind::Pressure,
    DirectKind::Bend,
    DirectKind::Other,
];

impl DirectKind {
    /// Returns the kind of the messages with this opcode, 0 to 15.
    #[inline(always)]
    pub fn of(opcode: u8) -> DirectKind
        requires { opcode < 16 }
        ensures { result ≡ kind_by opcode }
    {
        KINDS[opcode as usize]
    }

    /// Returns whether this is the kind of a direct message: any kind but `Other`.
    #[inline(always)]
    pub fn is_direct(self) -> bool
        ensures { result ≡ is_direct_kind self }
    {
        !matches!(self, DirectKind::Other)
    }
}

/// A MIDI 2.0 channel voice message whose MIDI 1.0 counterpart has the same status byte: a note off or on,
/// the pressure of a note or channel, a control change, or a bend (M2-104-UM, opcodes 8 to B, D and E). Its
/// fields are those of the packet.
#[derive(Clone, Copy, Debug)]
pub struct DirectMessage {
    /// The group, 0 to 15.
    pub group: U4,
    /// The status byte: the opcode (8 to B, D or E) in the upper half, and the channel, 0 to 15, in the
    /// lower half.
    pub status: u8,
    /// The number of the note, or the index of the control change. It has no meaning in other messages.
    pub index: U7,
    /// The attribute type of a note off or on. It has no meaning in other messages.
    pub attribute_type: u8,
    /// The value of 32 bits. In a note off or on, the velocity is the upper 16 bits and the attribute is
    /// the lower 16.
    pub value: u32,
}

impl DirectMessage {
    /// Returns the kind, by the opcode in the status byte.
    #[inline(always)]
    pub fn kind(&self) -> DirectKind
        ensures { result ≡ kind_by (self.now.status / 16) }
    {
        DirectKind::of(self.status / 16)
    }
}
