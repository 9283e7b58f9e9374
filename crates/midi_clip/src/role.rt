// What packets mean to a clip.
ghost use Rattle.std.specs.Prelude.{◌≡◌};
ghost use Rattle.midi_clip.specs.Roles.{role_of as role_in};

use ump_grammar::Packet;

/// The meaning of a packet to a clip (M2-104-UM, utility messages, Start of Clip and End of Clip).
#[derive(Clone, Copy, Debug, PartialEq, Eq)]
pub enum Role {
    /// Start of Clip.
    StartOfClip,
    /// End of Clip.
    EndOfClip,
    /// Delta Clockstamp Ticks Per Quarter Note, with the number of ticks.
    Resolution(u16),
    /// Delta Clockstamp, with the number of ticks: 0 to 1,048,575 in a decoded packet.
    Delta(u32),
    /// Any other packet.
    Other,
}

/// Returns the meaning of a packet to a clip.
pub fn role_of(packet: &Packet) -> Role
    ensures { result ≡ role_in packet.now }
{
    match packet {
        Packet::Utility { status, value } => match *status {
            3 => Role::Resolution((*value % 0x1_0000) as u16),
            4 => Role::Delta(*value),
            _ => Role::Other,
        },
        Packet::Stream { format, status, .. } => match (*format, *status) {
            (0, 0x020) => Role::StartOfClip,
            (0, 0x021) => Role::EndOfClip,
            _ => Role::Other,
        },
        _ => Role::Other,
    }
}
