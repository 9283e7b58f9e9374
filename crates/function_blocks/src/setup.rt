// The contents of a setup.
ghost use Rattle.std.specs.Prelude.{◌≡◌};

use small_types::ShortList;
use voice_messages::{U4, U7};

/// The endpoint's own keys. The values are within the ranges of the rules.
#[derive(Debug, PartialEq, Eq, Drop)]
pub struct Endpoint {
    /// The endpoint's name: 1 to 98 bytes of UTF-8.
    pub name: ShortList<u8, 98>,
    /// The product instance id: 1 to 42 bytes, each 32 to 126.
    pub id: ShortList<u8, 42>,
    /// The System Exclusive id of the manufacturer. Each number is 0 to 127.
    pub manufacturer: [u8; 3],
    /// The device's family, 0 to 16,383.
    pub family: u16,
    /// The device's model, 0 to 16,383.
    pub model: u16,
    /// The revision of the device's software. Each number is 0 to 127.
    pub revision: [u8; 4],
    /// Whether the endpoint supports the MIDI 1.0 protocol.
    pub midi1: bool,
    /// Whether the endpoint supports the MIDI 2.0 protocol. It supports at least one of the two.
    pub midi2: bool,
    /// The protocol at the start: 1 for MIDI 1.0, 2 for MIDI 2.0. The endpoint supports it.
    pub protocol: u8,
    /// Whether the function blocks never change. In the setup, this is the key `static`.
    pub fixed: bool,
}

/// A function block, as the keys of the setup describe it (own rules; M2-104-UM, Function Block Info).
#[derive(Debug, PartialEq, Eq, Drop)]
pub struct Block {
    /// Whether the block is in use. An inactive block has no MIDI-CI.
    pub active: bool,
    /// The block's name: 1 to 91 bytes of UTF-8.
    pub name: ShortList<u8, 91>,
    /// A hint to users about the main use of the block, 0 to 3: 0 undeclared, 1 receives, 2 sends, 3 both.
    pub hint: u8,
    /// Whether the block stands for a MIDI 1.0 port, 0 to 2: 0 it doesn't, 1 for a port without a speed
    /// limit, 2 for a port at 31.25 kbit/s.
    pub midi1: u8,
    /// The direction of the block's messages, 1 to 3: 1 it only receives, 2 it only sends, 3 both.
    pub direction: u8,
    /// The first group, 0 to 15.
    pub first: u8,
    /// The number of groups, 1 to 16; `first + count` is at most 16.
    pub count: u8,
    /// The version of MIDI-CI, 0 to 2. 0 means that the block has no MIDI-CI.
    pub ci: u8,
    /// How many System Exclusive 8 streams the block accepts at a time, 0 to 255. 0 means none.
    pub sysex8: u8,
    /// The MUIDs that the block uses one after the other, each at most 268,435,199. There is at least one if
    /// `ci` isn't 0.
    pub muids: ShortList<u32, 16>,
}

impl Block {
    ghost use Rattle.function_blocks.specs.Blocks.{has_ci as has_midi_ci};

    /// Returns whether the block has MIDI-CI (M2-104-UM, Function Block Info; own rule): it is active, and
    /// `ci` isn't 0.
    pub fn has_ci(&self) -> bool
        ensures { result ≡ has_midi_ci self.now }
    {
        self.active && self.ci != 0
    }
}

/// The part of a function block to which a profile applies (M2-101-UM, profile addresses).
#[derive(Clone, Copy, Debug, PartialEq, Eq)]
pub enum Place {
    /// The whole function block.
    Function,
    /// One group of the block.
    Group(U4),
    /// One group of the block, and one channel of that group.
    Channel(U4, U4),
}

/// A profile of a function block.
#[derive(Debug, PartialEq, Eq, Drop)]
pub struct Profile {
    /// The number of the profile's block, counted from 0. The `ci` of that block isn't 0.
    pub block: u8,
    /// The part of the block to which the profile applies.
    pub place: Place,
    /// The profile's id (M2-101-UM, profile id).
    pub id: [U7; 5],
    /// Whether the profile is enabled at the start.
    pub on: bool,
}

/// The identity of the device, as it is written in Device Identity (M2-104-UM). The family and the model have
/// seven bits in each byte, the lowest bits first.
#[derive(Clone, Copy, Debug, PartialEq, Eq)]
pub struct Identity {
    /// The System Exclusive id of the manufacturer. Each byte is 0 to 127.
    pub manufacturer: [u8; 3],
    /// The device's family. Each byte is 0 to 127.
    pub family: [u8; 2],
    /// The device's model. Each byte is 0 to 127.
    pub model: [u8; 2],
    /// The revision of the device's software. Each byte is 0 to 127.
    pub revision: [u8; 4],
}

/// The stream configuration that is in force (M2-104-UM, Stream Configuration Notification).
#[derive(Clone, Copy, Debug, PartialEq, Eq)]
pub struct Config {
    /// The protocol: 1 for MIDI 1.0, 2 for MIDI 2.0.
    pub protocol: u8,
}
