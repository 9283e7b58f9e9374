// The roles of control changes.
ghost use Rattle.std.specs.Prelude.{◌≡◌, ℕ};
ghost use Rattle.midi_meaning.specs.Controllers.{is_direct, pairing, role_of};
ghost use Rattle.midi_meaning.specs.Indexes.{HasIndex, HasIndexIn};
ghost use Rattle.midi_meaning.specs.Roles.{role_in};

use voice_messages::{ParamKind, U7};

/// The role of a control change, by its index (MIDI 1.0 Detailed Specification, the table of controller
/// numbers). Only this crate distinguishes indexes.
#[derive(Clone, Copy, Debug, PartialEq, Eq)]
pub enum ControlRole {
    /// 0: bank select, MSB.
    BankMsb,
    /// 32: bank select, LSB.
    BankLsb,
    /// 6: data entry, MSB.
    DataMsb,
    /// 38: data entry, LSB.
    DataLsb,
    /// 96: data increment.
    DataIncrement,
    /// 97: data decrement.
    DataDecrement,
    /// The MSB of a parameter number: 101 for a registered one, 99 for an assignable (non-registered) one.
    NumberMsb(ParamKind),
    /// The LSB of a parameter number: 100 for a registered one, 98 for an assignable (non-registered) one.
    NumberLsb(ParamKind),
    /// 121: Reset All Controllers, which is also a channel mode message (RP-015).
    ResetAll,
    /// 120, and 122 to 127: the other channel mode messages.
    ChannelMode,
    /// 1 to 31, except for 6: the MSB of a controller.
    Coarse,
    /// 33 to 63, except for 38: the LSB of the controller whose index is lower by 32.
    Fine,
    /// All other indexes: a controller that has a value.
    Plain,
}

impl ControlRole {
    /// Returns the role of the control change with this index.
    #[tactic(auto, unfolding(crate::specs::Controllers::role_of))]
    #[inline(always)]
    pub fn of(index: U7) -> ControlRole
        ensures role { role_in result ≡ role_of index }
        ensures index { HasIndex (role_in result) index }
    {
        match index.get() {
            0 => ControlRole::BankMsb,
            32 => ControlRole::BankLsb,
            6 => ControlRole::DataMsb,
            38 => ControlRole::DataLsb,
            96 => ControlRole::DataIncrement,
            97 => ControlRole::DataDecrement,
            98 => ControlRole::NumberLsb(ParamKind::Assignable),
            99 => ControlRole::NumberMsb(ParamKind::Assignable),
            100 => ControlRole::NumberLsb(ParamKind::Registered),
            101 => ControlRole::NumberMsb(ParamKind::Registered),
            121 => ControlRole::ResetAll,
            120..=127 => ControlRole::ChannelMode,
            1..=31 => ControlRole::Coarse,
            33..=63 => ControlRole::Fine,
            _ => ControlRole::Plain,
        }
    }

    /// Returns the role with controllers paired or not. Without pairs, an MSB or LSB is a controller like
    /// all others (own rule).
    #[inline(always)]
    pub fn pairing(self, paired: bool) -> ControlRole
        ensures role { role_in result ≡ pairing paired (role_in self) }
        ensures index { (index : ℕ) → HasIndex (role_in self) index →
            HasIndexIn paired (role_in result) index }
    {
        match self {
            ControlRole::Coarse | ControlRole::Fine if !paired => ControlRole::Plain,
            role => role,
        }
    }

    /// Returns whether the control change only sets its controller to a value, or is a channel mode message
    /// other than Reset All Controllers (MIDI 1.0 Detailed Specification). Such a control change selects,
    /// enters and resets nothing, and isn't half of a pair.
    #[inline(always)]
    pub fn is_direct(self) -> bool
        ensures { result ≡ is_direct (role_in self) }
    {
        matches!(self, ControlRole::ChannelMode | ControlRole::Plain)
    }
}
