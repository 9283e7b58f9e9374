// The styles in which a lane is written.

/// The style in which messages are written in a lane.
#[derive(Clone, Copy, Debug, PartialEq, Eq)]
pub enum Style {
    /// Each message has its status byte, each parameter its number and each program its bank.
    Plain,
    /// Leaves out what the receiver of the lane already has since the lane's last System Reset: the running
    /// status, a parameter that is selected, and a bank with both halves set (MIDI 1.0 Detailed
    /// Specification, running status, bank select, registered and non-registered parameter numbers).
    Compact,
}
