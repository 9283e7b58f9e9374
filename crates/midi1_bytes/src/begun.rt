// The open message of a parser, and its running status.

/// The open message or exclusive, by the data byte that it awaits. `start` is the offset at which it
/// starts: the offset of its status byte, or under running status that of its first data byte (MIDI 1.0
/// Detailed Specification).
#[derive(Clone, Copy, Debug)]
pub(crate) enum Begun {
    /// Nothing is open.
    Nothing,
    /// A message of one data byte, which it still awaits. Its status byte is C0 to DF, F1 or F3.
    Only { start: u64, status: u8 },
    /// A message of two data bytes, both of which it still awaits. Its status byte is 80 to BF, E0 to EF or
    /// F2.
    First { start: u64, status: u8 },
    /// A message of two data bytes that has the first, 0 to 7F, and awaits the second.
    Second { start: u64, status: u8, first: u8 },
    /// An exclusive. The parser's buffer has its bytes, from F0 on.
    Exclusive { start: u64 },
}

/// The running status (MIDI 1.0 Detailed Specification), by the number of data bytes that its messages
/// have.
#[derive(Clone, Copy, Debug)]
pub(crate) enum Running {
    /// There is no running status.
    Unset,
    /// A status byte C0 to DF.
    One(u8),
    /// A status byte 80 to BF or E0 to EF.
    Two(u8),
}
