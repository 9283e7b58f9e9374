// Numbers of seven and fourteen bits.
ghost use Rattle.std.specs.Prelude.{◌≡◌, ◌<◌, ◌≤◌, ◌%◌, MatchOption};

use std::marker::Model;

/// A number from 0 to 127, such as a data byte. In contracts its value is that number.
#[derive(Clone, Copy, Debug, PartialEq, Eq)]
pub struct U7 {
    value: u8,
}

impl Model for U7 {
    ghost use Rattle.std.specs.Prelude.{ℕ, ◌<◌};

    ghost Value = { ℕ };

    ghost view = { λ u. u.value };

    ghost invariant = { λ u. u.value < 128 };

    ghost inverse = { λ n. record { value = n } };
}

impl U7 {
    /// Returns the number as a `U7`, or `None` exactly if it is 128 or more.
    pub fn new(value: u8) -> Option<Self>
        ensures { MatchOption result (128 ≤ value) (λ u. (u ≡ value) × (value < 128)) }
    {
        if value < 128 {
            Some(U7 { value })
        } else {
            None
        }
    }

    /// Returns the low seven bits of a number.
    pub fn low_bits(value: u32) -> Self
        ensures { result ≡ value % 128 }
    {
        U7 {
            value: (value % 128) as u8,
        }
    }

    /// Returns the number, 0 to 127.
    pub fn get(self) -> u8
        ensures value { result ≡ self }
        ensures below { self < 128 }
    {
        self.value
    }
}

/// A number from 0 to 16,383, such as two data bytes contain. In contracts its value is that number.
#[derive(Clone, Copy, Debug, PartialEq, Eq)]
pub struct U14 {
    value: u16,
}

impl Model for U14 {
    ghost use Rattle.std.specs.Prelude.{ℕ, ◌<◌};

    ghost Value = { ℕ };

    ghost view = { λ u. u.value };

    ghost invariant = { λ u. u.value < 16384 };

    ghost inverse = { λ n. record { value = n } };
}

impl U14 {
    /// Returns the number as a `U14`, or `None` exactly if it is 16,384 or more.
    pub fn new(value: u16) -> Option<Self>
        ensures { MatchOption result (16384 ≤ value) (λ u. (u ≡ value) × (value < 16384)) }
    {
        if value < 16384 {
            Some(U14 { value })
        } else {
            None
        }
    }

    /// Returns the low fourteen bits of a number.
    pub fn low_bits(value: u32) -> Self
        ensures { result ≡ value % 16384 }
    {
        U14 {
            value: (value % 16384) as u16,
        }
    }

    /// Returns the number, 0 to 16,383.
    pub fn get(self) -> u16
        ensures value { result ≡ self }
        ensures below { self < 16384 }
    {
        self.value
    }
}
