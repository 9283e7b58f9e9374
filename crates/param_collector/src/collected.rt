// The result of a control change.
use voice_messages::{Param, U7, U14};

/// The collector's result for a control change (MIDI 1.0 Detailed Specification, control change).
#[derive(Clone, Copy, Debug, PartialEq, Eq)]
pub enum Collected {
    /// A data increment, 96. It changes nothing.
    DataIncrement,
    /// A data decrement, 97. It changes nothing.
    DataDecrement,
    /// Half of a bank or of a parameter number: 0, 32 or 98 to 101. It is stored for the message that uses
    /// it.
    Held,
    /// A data entry, 6 or 38: the selected parameter and its new value of 14 bits.
    Set(Param, U14),
    /// A data entry, 6 or 38, but no parameter is selected.
    Ignored,
    /// An MSB or LSB of a controller, 1 to 31 or 33 to 63, except for 6 and 38, if controllers are paired
    /// (own rule). It has the index of the MSB, and the controller's new value of 14 bits.
    Pair(U7, U14),
    /// Any other control change.
    Plain,
}
