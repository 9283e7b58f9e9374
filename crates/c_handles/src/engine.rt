// The engine that a handle holds.
use c_endpoint::CEndpoint;
use c_streams::{CParser, CSysex8, CUsb};
use c_translators::{CDown, CUp};
use c_voice_state::{CByteState, CPacketState};

/// The object that a handle was opened for.
#[derive(Drop)]
pub enum Engine {
    /// A translator of packets to MIDI 1.0 bytes.
    Down(CDown),
    /// A translator of MIDI 1.0 bytes to packets.
    Up(CUp),
    /// A parser of the bytes of a MIDI 1.0 stream.
    Parser(CParser),
    /// A packer of the bytes of a MIDI 1.0 stream into USB-MIDI events.
    Usb(CUsb),
    /// A join of 8-bit exclusives.
    Sysex8(CSysex8),
    /// An endpoint that answers a peer.
    Endpoint(CEndpoint),
    /// The running state of a receiver of packets.
    PacketState(CPacketState),
    /// The running state of a receiver of the bytes of a MIDI 1.0 stream.
    ByteState(CByteState),
}
