// The packets of the Universal MIDI Packet format.
use packet_words::Words;
use small_types::ShortList;
use thiserror::Error;
use voice_messages::{Form, System, U4, Voice1, Voice2};

/// A packet of the Universal MIDI Packet format (M2-104-UM).
#[derive(Debug, PartialEq, Eq, Drop)]
pub enum Packet {
    /// Type 0: a utility message with a value of 20 bits and a status of 0 to 4. The statuses are 0 NOOP, 1
    /// JR Clock, 2 JR Timestamp, 3 Delta Clockstamp Ticks Per Quarter Note and 4 Delta Clockstamp.
    Utility {
        status: u8,
        value: u32,
    },
    /// Type 1: a system common or real time message.
    System {
        group: U4,
        message: System,
    },
    /// Type 2: a channel voice message of the MIDI 1.0 protocol.
    Voice1 {
        group: U4,
        message: Voice1,
    },
    /// Type 3: up to six bytes of a 7-bit exclusive, each below 128.
    Exclusive {
        group: U4,
        form: Form,
        bytes: ShortList<u8, 6>,
    },
    /// Type 4: a channel voice message of the MIDI 2.0 protocol.
    Voice2 {
        group: U4,
        message: Voice2,
    },
    /// Type 5: 8-bit exclusives and mixed data. The words aren't decoded further.
    Data8 {
        group: U4,
        words: Words,
    },
    /// Type D: flex data. The words aren't decoded further.
    Flex {
        group: U4,
        words: Words,
    },
    /// Type F: a stream message with a format of 0 to 3 and a status of 10 bits. `low` is bytes 3 and 4,
    /// the low half of word 1, and `second` to `fourth` are words 2 to 4.
    Stream {
        format: u8,
        status: u16,
        low: u16,
        second: u32,
        third: u32,
        fourth: u32,
    },
    /// A packet with a reserved type, status, opcode or form.
    Reserved {
        words: Words,
    },
}

/// The reason why `decode` refuses the words of a packet.
#[derive(Clone, Copy, Debug, PartialEq, Eq, Error)]
pub enum Bad {
    /// The count of a 7-bit exclusive is above 6.
    #[error("the count of an exclusive packet is above six")]
    BadCount,
    /// A byte that carries seven bits is 128 or more.
    #[error("a data byte has its high bit set")]
    HighBit,
}
