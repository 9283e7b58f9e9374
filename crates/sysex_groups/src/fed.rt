// The result of feeding one more part of an exclusive.

/// What a part did to the open exclusive of its group.
#[derive(Clone, Copy, Debug, PartialEq, Eq)]
pub enum Fed<'a> {
    /// The part is stored: it begins an exclusive or continues one.
    Held,
    /// The part ends this exclusive, from F0 to F7.
    Whole(&'a [u8]),
    /// The part continues or ends an exclusive, but none is open.
    Stray,
    /// The part begins an exclusive and cuts off the one that started at this offset.
    Restarted { cut_at: u64 },
    /// The part is the whole of this exclusive, from F0 to F7, and cuts off the one that started at this
    /// offset.
    RestartedWhole { cut_at: u64, whole: &'a [u8] },
    /// The exclusive has more bytes between F0 and F7 than the limit, and is dropped.
    TooLong,
}
