// Numbers of four bits.
ghost use Rattle.std.specs.Prelude.{◌≡◌, ◌<◌, ◌≤◌, ◌%◌, MatchOption};

use std::marker::Model;

/// A number from 0 to 15, such as a group or a channel counted from 0. In contracts its value is that
/// number.
#[derive(Clone, Copy, Debug, PartialEq, Eq)]
pub struct U4 {
    value: u8,
}

impl Model for U4 {
    ghost use Rattle.std.specs.Prelude.{ℕ, ◌<◌};

    ghost Value = { ℕ };

    ghost view = { λ u. u.value };

    ghost invariant = { λ u. u.value < 16 };

    ghost inverse = { λ n. record { value = n } };
}

impl U4 {
    /// Returns the number as a `U4`, or `None` exactly if it is 16 or more.
    pub fn new(value: u8) -> Option<Self>
        ensures { MatchOption result (16 ≤ value) (λ u. (u ≡ value) × (value < 16)) }
    {
        if value < 16 { Some(U4 { value }) } else { None }
    }

    /// Returns the low four bits of a number.
    pub fn low_bits(value: u32) -> Self
        ensures { result ≡ value % 16 }
    {
        U4 {
            value: (value % 16) as u8,
        }
    }

    /// Returns the number, 0 to 15.
    pub fn get(self) -> u8
        ensures value { result ≡ self }
        ensures below { self < 16 }
    {
        self.value
    }
}
