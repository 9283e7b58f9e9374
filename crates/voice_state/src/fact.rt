// The facts of a state.
ghost use Rattle.std.specs.Prelude.{◌≡◌, ◌++◌, OnOk};
ghost use Rattle.std.specs.Option.{option_to_list};
ghost use Rattle.voice_state.specs.Addresses.{address_of};

use small_types::NoMemory;
use voice_messages::{Bank, U4, U7};

/// One fact about the state in which messages have left a receiver: a note or a channel mode message that
/// arrived, or a value that isn't the initial one. Values are those of the stream: of 7 and 14 bits for
/// MIDI 1.0 bytes, of 16 and 32 bits for packets.
#[derive(Clone, Copy, Debug, PartialEq, Eq)]
pub enum Fact {
    /// A note on, with its velocity.
    On {
        group: U4,
        channel: U4,
        note: U7,
        velocity: u16,
    },
    /// A note off, with its velocity.
    Off {
        group: U4,
        channel: U4,
        note: U7,
        velocity: u16,
    },
    /// A channel mode message: control change 120 to 127.
    Mode {
        group: U4,
        channel: U4,
        index: U7,
        value: u32,
    },
    /// The pressure of one key.
    Poly {
        group: U4,
        channel: U4,
        note: U7,
        value: u32,
    },
    /// The value of a controller.
    Control {
        group: U4,
        channel: U4,
        index: U7,
        value: u32,
    },
    /// The pressure of the channel, if it isn't 0.
    Pressure {
        group: U4,
        channel: U4,
        value: u32,
    },
    /// The bend, if it isn't at its centre: 8,192 of 14 bits, 0x8000_0000 of 32.
    Bend {
        group: U4,
        channel: U4,
        value: u32,
    },
    /// The last program change, with the bank that was selected for it.
    Program {
        group: U4,
        channel: U4,
        program: U7,
        bank: Option<Bank>,
    },
    /// A registered parameter, by the MSB (`bank`) and the LSB (`index`) of its number: its value, if it
    /// was set, and whether a relative change has arrived since.
    Registered {
        group: U4,
        channel: U4,
        bank: U7,
        index: U7,
        value: Option<u32>,
        loose: bool,
    },
    /// An assignable parameter, with the same fields as a registered one.
    Assignable {
        group: U4,
        channel: U4,
        bank: U7,
        index: U7,
        value: Option<u32>,
        loose: bool,
    },
    /// The number of system common messages and exclusives that have arrived.
    System {
        group: U4,
        count: u64,
    },
    /// The number of system Real Time messages that have arrived.
    RealTime {
        group: U4,
        count: u64,
    },
}

/// The subject of a fact: a channel of a group, or a whole group.
#[derive(Clone, Copy, Debug, PartialEq, Eq)]
pub struct FactAddress {
    pub group: U4,
    /// The channel, if the fact is about one channel.
    pub channel: Option<U4>,
}

impl Fact {
    /// Returns the group and the channel that the fact is about. A count of system messages is about the
    /// whole group and has no channel.
    pub fn address(&self) -> FactAddress
        ensures { result ≡ address_of self.now }
    {
        match *self {
            Fact::On { group, channel, .. }
            | Fact::Off { group, channel, .. }
            | Fact::Mode { group, channel, .. }
            | Fact::Poly { group, channel, .. }
            | Fact::Control { group, channel, .. }
            | Fact::Pressure { group, channel, .. }
            | Fact::Bend { group, channel, .. }
            | Fact::Program { group, channel, .. }
            | Fact::Registered { group, channel, .. }
            | Fact::Assignable { group, channel, .. } => FactAddress {
                group,
                channel: Some(channel),
            },
            Fact::System { group, .. } | Fact::RealTime { group, .. } => FactAddress {
                group,
                channel: None,
            },
        }
    }
}

/// Appends a fact, if there is one.
pub(crate) fn put(facts: &mut Vec<Fact>, fact: Option<Fact>) -> Result<(), NoMemory>
    ensures { OnOk result (facts.new.items ≡ facts.old.items ++ option_to_list fact) }
{
    let Some(fact) = fact else {
        return Ok(());
    };
    // The type is named here, so that the check knows it in the value that a refused push hands back.
    let _: Option<Bank> = None;
    match facts.push(fact) {
        Ok(()) => Ok(()),
        Err(_) => Err(NoMemory),
    }
}
