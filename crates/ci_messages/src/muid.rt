// The numbers by which devices are addressed.
ghost use Rattle.std.specs.Prelude.{◌≡◌, ◌<◌, ◌≤◌, ◌^◌, MatchOption};
ghost use Rattle.ci_messages.specs.Reading.{is_reserved as is_reserved_of};

use std::marker::Model;

/// The destination of a message that is for all devices (M2-101-UM, MUID).
pub const BROADCAST: u32 = 0x0FFF_FFFF;

/// The first of the MUIDs that no device may have as its own.
const FIRST_RESERVED: u32 = 0x0FFF_FF00;

/// A MUID: the number of 28 bits by which a MIDI-CI device is addressed (M2-101-UM, MUID). In contracts its
/// value is the number.
#[derive(Clone, Copy, Debug, PartialEq, Eq)]
pub struct Muid {
    number: u32,
}

impl Model for Muid {
    ghost use Rattle.std.specs.Prelude.{ℕ, ◌<◌, ◌^◌};

    ghost Value = { ℕ };

    ghost view = { λ m. m.number };

    ghost invariant = { λ m. m.number < 2 ^ 28 };

    ghost inverse = { λ n. record { number = n } };
}

/// Returns whether no device may have this number as its own MUID. These numbers are 0FFFFF00 and above,
/// which are reserved or broadcast.
pub(crate) fn is_reserved(number: u32) -> bool
    ensures { result ≡ is_reserved_of number }
{
    number >= FIRST_RESERVED
}

impl Muid {
    /// Creates the MUID of this number (M2-101-UM, MUID). Returns `None` exactly if the number has more than
    /// 28 bits.
    pub fn new(number: u32) -> Option<Muid>
        ensures { MatchOption result (2 ^ 28 ≤ number) (λ muid. (muid ≡ number) × (number < 2 ^ 28)) }
    {
        if number < 0x1000_0000 {
            Some(Muid { number })
        } else {
            None
        }
    }

    /// Creates the MUID of a number below 0FFFFF00, which a device may have as its own (M2-101-UM, MUID).
    pub fn unreserved(number: u32) -> Muid
        requires { number < 0x0FFFFF00 }
        ensures { result ≡ number }
    {
        Muid { number }
    }

    /// Returns the number, which has 28 bits (M2-101-UM, MUID).
    pub fn get(self) -> u32
        ensures value { result ≡ self }
        ensures fits { self < 2 ^ 28 }
    {
        self.number
    }
}
