// The roles of control changes and the registers of a channel, worked
// by hand from the tables of the standards.
use super::{is_same, is_same_in};
use midi_meaning::{ControlRole, Registers, is_null_param};
use std::process::Abort;
use voice_messages::{Bank, Param, ParamKind, U7};

fn u7(number: u32) -> U7 {
    U7::low_bits(number)
}

fn bank(msb: u32, lsb: u32) -> Bank {
    Bank {
        msb: u7(msb),
        lsb: u7(lsb),
    }
}

fn param(kind: ParamKind, bank: u32, index: u32) -> Param {
    Param {
        kind,
        bank: u7(bank),
        index: u7(index),
    }
}

// MIDI 1.0, the table of controller numbers.
#[test]
fn roles_of_controllers(rt: HostRuntime) {
    let rows = [
        (0, ControlRole::BankMsb),
        (1, ControlRole::Coarse),
        (5, ControlRole::Coarse),
        (6, ControlRole::DataMsb),
        (7, ControlRole::Coarse),
        (31, ControlRole::Coarse),
        (32, ControlRole::BankLsb),
        (33, ControlRole::Fine),
        (38, ControlRole::DataLsb),
        (39, ControlRole::Fine),
        (63, ControlRole::Fine),
        (64, ControlRole::Plain),
        (95, ControlRole::Plain),
        (96, ControlRole::DataIncrement),
        (97, ControlRole::DataDecrement),
        (98, ControlRole::NumberLsb(ParamKind::Assignable)),
        (99, ControlRole::NumberMsb(ParamKind::Assignable)),
        (100, ControlRole::NumberLsb(ParamKind::Registered)),
        (101, ControlRole::NumberMsb(ParamKind::Registered)),
        (102, ControlRole::Plain),
        (119, ControlRole::Plain),
        (120, ControlRole::ChannelMode),
        (121, ControlRole::ResetAll),
        (122, ControlRole::ChannelMode),
        (127, ControlRole::ChannelMode),
    ];
    for (index, role) in rows {
        is_same_in(&rt, &index, &ControlRole::of(u7(index)), &role);
    }
}

#[test]
fn halves_of_controllers_where_they_are_paired(rt: HostRuntime) {
    for (role, paired, found) in [
        (ControlRole::Coarse, true, ControlRole::Coarse),
        (ControlRole::Coarse, false, ControlRole::Plain),
        (ControlRole::Fine, true, ControlRole::Fine),
        (ControlRole::Fine, false, ControlRole::Plain),
        (ControlRole::DataMsb, false, ControlRole::DataMsb),
    ] {
        is_same(&rt, &role.pairing(paired), &found);
    }
}

// What the registers tell: the MSB and the LSB of the bank, the bank, and the parameter that is selected.
type Told = (Option<U7>, Option<U7>, Option<Bank>, Option<Param>);

// What they tell after each control change of a table, one after the other.
fn registers_tell(rt: &impl Abort, table: &[(u32, u32, Told)]) {
    let mut registers = Registers::unset();
    is_same(rt, &registers.bank(), &None);
    for (index, value, told) in table {
        registers.control(u7(*index), u7(*value));
        let (msb, lsb) = (registers.bank_msb(), registers.bank_lsb());
        let found = (msb, lsb, registers.bank(), registers.selected());
        is_same_in(rt, index, &found, told);
    }
}

fn whole_bank() -> Option<Bank> {
    Some(bank(1, 2))
}

fn registered() -> Option<Param> {
    Some(param(ParamKind::Registered, 0, 5))
}

fn assignable() -> Option<Param> {
    Some(param(ParamKind::Assignable, 127, 126))
}

#[test]
fn halves_of_registers(rt: HostRuntime) {
    let table = [
        (32, 2, (None, Some(u7(2)), Some(bank(0, 2)), None)),
        (0, 1, (Some(u7(1)), Some(u7(2)), whole_bank(), None)),
        (101, 0, (Some(u7(1)), Some(u7(2)), whole_bank(), None)),
        (
            100,
            5,
            (Some(u7(1)), Some(u7(2)), whole_bank(), registered()),
        ),
        (
            7,
            100,
            (Some(u7(1)), Some(u7(2)), whole_bank(), registered()),
        ),
        (
            6,
            64,
            (Some(u7(1)), Some(u7(2)), whole_bank(), registered()),
        ),
        (99, 127, (Some(u7(1)), Some(u7(2)), whole_bank(), None)),
        (98, 127, (Some(u7(1)), Some(u7(2)), whole_bank(), None)),
        (
            98,
            126,
            (Some(u7(1)), Some(u7(2)), whole_bank(), assignable()),
        ),
        (121, 0, (Some(u7(1)), Some(u7(2)), whole_bank(), None)),
    ];
    registers_tell(&rt, &table);
}

#[test]
fn the_null_parameter(rt: HostRuntime) {
    for (bank, index, null) in [
        (127, 127, true),
        (127, 126, false),
        (126, 127, false),
        (0, 0, false),
    ] {
        let param = param(ParamKind::Assignable, bank, index);
        is_same(&rt, &(param, is_null_param(&param)), &(param, null));
    }
}
