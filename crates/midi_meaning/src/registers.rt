// The registers of a channel: the two halves of its bank and of its parameter numbers.
ghost use Rattle.std.specs.Prelude.{◌≡◌, ◌<◌, IfSome};
ghost use Rattle.voice_messages.specs.Ranges.{IsParam};
ghost use Rattle.midi_meaning.specs.Controllers.{role_of};
ghost use Rattle.midi_meaning.specs.Registers.{
  bank_of,
  is_null,
  selected,
  selected_by,
  unset_registers,
  with_bank,
  with_selected,
};
ghost use Rattle.midi_meaning.specs.Roles.{registers_after, role_in};

use crate::role::ControlRole;
use std::marker::Model;
use voice_messages::{Bank, Param, ParamKind, U7};

// Both halves of the null parameter.
const NULL: u8 = 127;

/// Returns whether this is the null parameter 127/127, which selects no parameter (MIDI 1.0 Detailed
/// Specification, registered and non-registered parameter numbers).
#[inline(always)]
pub fn is_null_param(param: &Param) -> bool
    ensures { result ≡ is_null param.now }
{
    param.bank.get() == NULL && param.index.get() == NULL
}

// A bank or a parameter number, each half of which may be unset.
#[derive(Clone, Copy, Debug)]
struct Pair {
    msb: Option<U7>,
    lsb: Option<U7>,
}

impl Pair {
    ghost use Rattle.std.specs.Prelude.{None, Some};

    fn unset() -> Pair
        ensures msb { result.msb ≡ None }
        ensures lsb { result.lsb ≡ None }
    {
        Pair {
            msb: None,
            lsb: None,
        }
    }

    fn whole(msb: U7, lsb: U7) -> Pair
        ensures msb { result.msb ≡ Some msb }
        ensures lsb { result.lsb ≡ Some lsb }
    {
        Pair {
            msb: Some(msb),
            lsb: Some(lsb),
        }
    }

    fn null() -> Pair
        ensures msb { result.msb ≡ Some 127 }
        ensures lsb { result.lsb ≡ Some 127 }
    {
        Pair {
            msb: Some(U7::low_bits(127)),
            lsb: Some(U7::low_bits(127)),
        }
    }

    // Returns the parameter of a number, or `None` if a half is unset or it is the null number 127/127.
    fn param(self, kind: ParamKind) -> Option<Param>
        ensures param { result ≡ selected_by kind self.msb self.lsb }
        ensures in_range { IfSome result IsParam }
    {
        let (Some(bank), Some(index)) = (self.msb, self.lsb) else {
            return None;
        };
        let param = Param { kind, bank, index };
        if is_null_param(&param) {
            None
        } else {
            Some(param)
        }
    }
}

/// The bank and the two parameter numbers of a channel, each half set or unset, and which of the two
/// numbers was touched last (MIDI 1.0 Detailed Specification, bank select, registered and non-registered
/// parameter numbers). In contracts its value is the registers of the definition.
#[derive(Drop)]
pub struct Registers {
    bank: Pair,
    registered: Pair,
    assignable: Pair,
    touched: Option<ParamKind>,
}

impl Model for Registers {
    ghost use Rattle.midi_meaning.specs.Registers as definition;

    ghost Value = { definition.Registers };

    ghost view = { λ r. record {
      bank = record { msb = r.bank.msb; lsb = r.bank.lsb };
      registered = record { msb = r.registered.msb; lsb = r.registered.lsb };
      assignable = record { msb = r.assignable.msb; lsb = r.assignable.lsb };
      touched = r.touched;
    } };
}

impl Registers {
    /// Creates registers with no half set and neither number touched.
    pub fn unset() -> Registers
        ensures { result ≡ unset_registers }
    {
        Registers {
            bank: Pair::unset(),
            registered: Pair::unset(),
            assignable: Pair::unset(),
            touched: None,
        }
    }

    /// Updates the registers for a control change of seven bits. If it sets a half, the other half is
    /// unchanged. Reset All Controllers sets both numbers to the null parameter (RP-015). Data entries and
    /// all other control changes leave the registers unchanged.
    #[inline(always)]
    pub fn control(&mut self, index: U7, value: U7)
        ensures { self.new ≡ registers_after (role_of index) value self.old }
    {
        self.take(ControlRole::of(index), value);
    }

    /// Updates the registers as `control` does, for a control change of 0 to 127 whose role is already
    /// known.
    #[inline(always)]
    pub fn take(&mut self, role: ControlRole, value: U7)
        ensures { self.new ≡ registers_after (role_in role) value self.old }
    {
        match role {
            ControlRole::BankMsb => self.bank.msb = Some(value),
            ControlRole::BankLsb => self.bank.lsb = Some(value),
            ControlRole::NumberMsb(ParamKind::Registered) => {
                self.registered.msb = Some(value);
                self.touched = Some(ParamKind::Registered);
            }
            ControlRole::NumberMsb(ParamKind::Assignable) => {
                self.assignable.msb = Some(value);
                self.touched = Some(ParamKind::Assignable);
            }
            ControlRole::NumberLsb(ParamKind::Registered) => {
                self.registered.lsb = Some(value);
                self.touched = Some(ParamKind::Registered);
            }
            ControlRole::NumberLsb(ParamKind::Assignable) => {
                self.assignable.lsb = Some(value);
                self.touched = Some(ParamKind::Assignable);
            }
            ControlRole::ResetAll => {
                self.registered = Pair::null();
                self.assignable = Pair::null();
            }
            ControlRole::DataMsb
            | ControlRole::DataLsb
            | ControlRole::DataIncrement
            | ControlRole::DataDecrement
            | ControlRole::ChannelMode
            | ControlRole::Coarse
            | ControlRole::Fine
            | ControlRole::Plain => {}
        }
    }

    /// Returns the MSB of the bank, if it was set.
    pub fn bank_msb(&self) -> Option<U7>
        ensures { result ≡ self.now.bank.msb }
    {
        self.bank.msb
    }

    /// Returns the LSB of the bank, if it was set.
    pub fn bank_lsb(&self) -> Option<U7>
        ensures { result ≡ self.now.bank.lsb }
    {
        self.bank.lsb
    }

    /// Returns the bank for a program change (MIDI 1.0 Detailed Specification, bank select). An unset half
    /// is 0. `None` exactly if neither half is set.
    pub fn bank(&self) -> Option<Bank>
        ensures { result ≡ bank_of self.now }
    {
        let zero = U7::low_bits(0);
        match (self.bank.msb, self.bank.lsb) {
            (None, None) => None,
            (Some(msb), None) => Some(Bank { msb, lsb: zero }),
            (None, Some(lsb)) => Some(Bank { msb: zero, lsb }),
            (Some(msb), Some(lsb)) => Some(Bank { msb, lsb }),
        }
    }

    /// Returns the parameter that a data entry sets: the one whose number was touched last (MIDI 1.0
    /// Detailed Specification, registered and non-registered parameter numbers). `None` exactly if no
    /// number was touched, if a half of it is unset, or if it is the null parameter 127/127.
    pub fn selected(&self) -> Option<Param>
        ensures param { result ≡ selected self.now }
        ensures in_range { IfSome result IsParam }
    {
        match self.touched {
            None => None,
            Some(ParamKind::Registered) => self.registered.param(ParamKind::Registered),
            Some(ParamKind::Assignable) => self.assignable.param(ParamKind::Assignable),
        }
    }

    /// Sets the bank to that of a program change (M2-104-UM, MIDI 2.0 program change).
    pub fn take_bank(&mut self, bank: Bank)
        ensures { self.new ≡ with_bank bank self.old }
    {
        self.bank = Pair::whole(bank.msb, bank.lsb);
    }

    /// Selects a parameter (M2-104-UM, registered and assignable controllers).
    pub fn select(&mut self, param: &Param)
        ensures { self.new ≡ with_selected param.now self.old }
    {
        let number = Pair::whole(param.bank, param.index);
        match param.kind {
            ParamKind::Registered => self.registered = number,
            ParamKind::Assignable => self.assignable = number,
        }
        self.touched = Some(param.kind);
    }
}
