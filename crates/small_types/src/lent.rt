// Numbers of four bits for values that are lent.
ghost use Rattle.std.specs.Prelude.{◌≡◌, ◌<◌};

use crate::few_bits::U4;

/// A number from 0 to 15 for use within a lent value. A lent value can't contain a `U4`, since contracts
/// see a `U4` as another value.
#[derive(Clone, Copy, Debug)]
pub struct LentU4 {
    /// The number, 0 to 15.
    pub number: u8,
    ghost below: { number < 16 },
}

impl LentU4 {
    /// Wraps a number, so that it can be lent.
    #[inline]
    pub fn of(number: U4) -> Self
        ensures { result.number ≡ number }
    {
        LentU4 {
            number: number.get(),
        }
    }

    /// Returns the number as a `U4`.
    #[inline]
    pub fn get(self) -> U4
        ensures { result ≡ self.number }
    {
        U4::low_bits(u32::from(self.number))
    }
}
