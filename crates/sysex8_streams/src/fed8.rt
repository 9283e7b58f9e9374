// The result of feeding one more part of a stream.

/// What a part did to the exclusive of its stream.
#[derive(Clone, Copy, Debug, PartialEq, Eq)]
pub enum Fed8<'a> {
    /// The part is stored: it begins an exclusive or continues one.
    Held,
    /// The part ends this exclusive.
    Whole(&'a [u8]),
    /// The part continues or ends an exclusive, but none has begun.
    Stray,
    /// The part begins an exclusive and cuts off the one that started at this offset.
    Restarted { cut_at: u64 },
    /// The part is the whole of this exclusive, and cuts off the one that started at this offset.
    RestartedWhole { cut_at: u64, whole: &'a [u8] },
    /// The exclusive has more bytes than the limit, and is dropped.
    TooLong,
    /// The part begins an exclusive, but other streams have all slots. The part is ignored, and nothing
    /// changes.
    Full,
}
