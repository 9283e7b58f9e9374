// The messages of stream packets.
use thiserror::Error;
use voice_messages::Form;

/// The message in a stream packet (M2-104-UM, UMP stream messages).
#[derive(Clone, Copy, Debug, PartialEq, Eq)]
pub enum StreamMessage {
    /// Endpoint Discovery, with the version of the format that the sender uses and a filter. In the filter,
    /// bit 0 asks for `Info`, bit 1 for `Identity`, bit 2 for the name, bit 3 for the product id and bit 4
    /// for `ConfigNotice`.
    Discovery {
        major: u8,
        minor: u8,
        filter: u8,
    },
    /// Endpoint Info, with the version of the format and the number of function blocks, 0 to 127. `fixed`
    /// says that the blocks don't change. `midi1` and `midi2` are the protocols that the endpoint supports.
    /// `receives_jr` and `sends_jr` say whether it receives and sends JR Timestamps.
    Info {
        major: u8,
        minor: u8,
        fixed: bool,
        blocks: u8,
        midi2: bool,
        midi1: bool,
        receives_jr: bool,
        sends_jr: bool,
    },
    /// Device Identity, with the bytes as they are in the packet: the family and the model have their low
    /// seven bits first.
    Identity {
        manufacturer: [u8; 3],
        family: [u8; 2],
        model: [u8; 2],
        revision: [u8; 4],
    },
    /// A part of the endpoint's name.
    Name {
        form: Form,
        text: [u8; 14],
    },
    /// A part of the product instance id.
    ProductId {
        form: Form,
        text: [u8; 14],
    },
    /// Stream Configuration Request: protocol 1 is MIDI 1.0, 2 is MIDI 2.0. `jr` has the bits for JR
    /// Timestamps: bit 1 to receive them and bit 0 to send them.
    ConfigRequest {
        protocol: u8,
        jr: u8,
    },
    /// Stream Configuration Notification, with the numbers of a request.
    ConfigNotice {
        protocol: u8,
        jr: u8,
    },
    /// Function Block Discovery for one block, or for all blocks if `block` is 255. In the filter, bit 0
    /// asks for `BlockInfo` and bit 1 for the name.
    BlockDiscovery {
        block: u8,
        filter: u8,
    },
    /// Function Block Info for the block with this number, 0 to 127.
    ///
    /// * `hint`, 0 to 3, is the block's main use: 0 undeclared, 1 it receives, 2 it sends, 3 both.
    /// * `midi1`, 0 to 3, is its MIDI 1.0 port: 0 none, 1 one without a limit of speed, 2 one at 31.25
    ///   kbit/s.
    /// * `direction`, 0 to 3, is the direction of its messages: 1 it only receives, 2 it only sends, 3
    ///   both.
    /// * `first` is its first group, counted from 0, and `count` is the number of its groups.
    /// * `ci` is the version of MIDI-CI, 0 for none.
    /// * `sysex8` is the number of System Exclusive 8 streams that it accepts at a time, 0 for none.
    BlockInfo {
        active: bool,
        block: u8,
        hint: u8,
        midi1: u8,
        direction: u8,
        first: u8,
        count: u8,
        ci: u8,
        sysex8: u8,
    },
    /// A part of a function block's name.
    BlockName {
        form: Form,
        block: u8,
        text: [u8; 13],
    },
    /// Start of Clip.
    StartClip,
    /// End of Clip.
    EndClip,
    /// A message whose status has no row.
    Other,
}

/// The format isn't 0, but the message has only one packet (M2-104-UM, UMP stream messages).
#[derive(Clone, Copy, Debug, PartialEq, Eq, Error)]
#[error("a stream message of one packet has a format other than complete")]
pub struct BadFormat;
