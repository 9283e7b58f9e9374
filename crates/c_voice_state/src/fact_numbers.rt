// The facts of a running state as numbers.
ghost use Rattle.std.specs.Prelude.{◌≡◌, unwrap_or};
ghost use Rattle.c_voice_state.specs.Facts.{counted, lsb_of, msb_of, nothing_at, numbers_of, parametrised, programmed, valued};

use voice_messages::{Bank, Param, ParamKind, U4, U7};
use voice_state::{Fact, FactAddress};

/// One fact of a state: a note or a channel mode message that came, a value that isn't initial, or a count of
/// system messages.
#[repr(C)]
#[derive(Clone, Copy)]
pub struct FactNumbers {
    /// The number of messages, at most 2^64 - 1, for kinds 10 and 11; 0 for other kinds.
    pub count: u64,
    /// The value, which has 7 or 14 bits after bytes, and 16 or 32 bits after packets; 0 if there is none.
    pub value: u32,
    /// The kind of the fact:
    /// - 0: a note on.
    /// - 1: a note off.
    /// - 2: a channel mode message.
    /// - 3: the pressure of a key.
    /// - 4: a controller.
    /// - 5: the pressure of the channel.
    /// - 6: the bend.
    /// - 7: the program.
    /// - 8: a registered parameter.
    /// - 9: an assignable parameter.
    /// - 10: system common messages and exclusives.
    /// - 11: system Real Time messages.
    pub kind: u8,
    /// The group, 0 to 15.
    pub group: u8,
    /// The channel, 0 to 15; 0 for kinds 10 and 11.
    pub channel: u8,
    /// The note, the index of the controller or the mode message, the program, or the LSB of the parameter's
    /// number: 0 to 127.
    pub number: u8,
    /// The MSB of the program's bank, if it has one, or of the parameter's number: 0 to 127.
    pub bank: u8,
    /// The LSB of the program's bank, if it has one: 0 to 127.
    pub bank_lsb: u8,
    /// Whether a bank was selected for the program.
    pub has_bank: bool,
    /// Whether there is a value: always for kinds 0 to 6, and for a parameter if it was set.
    pub has_value: bool,
    /// Whether a relative change of the parameter came after its value was set.
    pub is_loose: bool,
}

fn msb_of(bank: Option<Bank>) -> u8
    ensures { result ≡ msb_of bank }
{
    match bank {
        None => 0,
        Some(bank) => bank.msb.get(),
    }
}

fn lsb_of(bank: Option<Bank>) -> u8
    ensures { result ≡ lsb_of bank }
{
    match bank {
        None => 0,
        Some(bank) => bank.lsb.get(),
    }
}

// Returns the channel of a fact, or 0 for a fact without a channel.
fn channel_number(channel: Option<U4>) -> u8
    ensures { result ≡ unwrap_or channel 0 }
{
    match channel {
        Some(channel) => channel.get(),
        None => 0,
    }
}

impl FactNumbers {
    // Returns a fact at this address without numbers of its own. The channel is 0 if the fact is about the
    // whole group.
    fn at(address: FactAddress) -> FactNumbers
        ensures { result ≡ nothing_at address }
    {
        FactNumbers {
            count: 0,
            value: 0,
            kind: 0,
            group: address.group.get(),
            channel: channel_number(address.channel),
            number: 0,
            bank: 0,
            bank_lsb: 0,
            has_bank: false,
            has_value: false,
            is_loose: false,
        }
    }

    fn valued(self, kind: u8, number: u8, value: u32) -> FactNumbers
        ensures { result ≡ valued self kind number value }
    {
        FactNumbers {
            kind,
            number,
            value,
            has_value: true,
            ..self
        }
    }

    fn counted(self, kind: u8, count: u64) -> FactNumbers
        ensures { result ≡ counted self kind count }
    {
        FactNumbers {
            kind,
            count,
            ..self
        }
    }

    fn programmed(self, program: U7, bank: Option<Bank>) -> FactNumbers
        ensures { result ≡ programmed self program bank }
    {
        FactNumbers {
            kind: 7,
            number: program.get(),
            bank: msb_of(bank),
            bank_lsb: lsb_of(bank),
            has_bank: bank.is_some(),
            ..self
        }
    }

    fn parametrised(self, kind: u8, param: Param, value: Option<u32>, is_loose: bool) -> FactNumbers
        ensures { result ≡ parametrised self kind param value is_loose }
    {
        FactNumbers {
            kind,
            bank: param.bank.get(),
            number: param.index.get(),
            value: value.unwrap_or(0),
            has_value: value.is_some(),
            is_loose,
            ..self
        }
    }

    /// Returns the numbers of a fact.
    pub fn of(fact: &Fact) -> FactNumbers
        ensures { result ≡ numbers_of fact.now }
    {
        let at = FactNumbers::at(fact.address());
        match *fact {
            Fact::On { note, velocity, .. } => at.valued(0, note.get(), u32::from(velocity)),
            Fact::Off { note, velocity, .. } => at.valued(1, note.get(), u32::from(velocity)),
            Fact::Mode { index, value, .. } => at.valued(2, index.get(), value),
            Fact::Poly { note, value, .. } => at.valued(3, note.get(), value),
            Fact::Control { index, value, .. } => at.valued(4, index.get(), value),
            Fact::Pressure { value, .. } => at.valued(5, 0, value),
            Fact::Bend { value, .. } => at.valued(6, 0, value),
            Fact::Program { program, bank, .. } => at.programmed(program, bank),
            Fact::Registered {
                bank,
                index,
                value,
                loose,
                ..
            } => {
                let kind = ParamKind::Registered;
                at.parametrised(8, Param { kind, bank, index }, value, loose)
            }
            Fact::Assignable {
                bank,
                index,
                value,
                loose,
                ..
            } => {
                let kind = ParamKind::Assignable;
                at.parametrised(9, Param { kind, bank, index }, value, loose)
            }
            Fact::System { count, .. } => at.counted(10, count),
            Fact::RealTime { count, .. } => at.counted(11, count),
        }
    }
}
