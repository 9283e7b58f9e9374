// The outcome of one byte of a stream.
ghost use Rattle.std.specs.Prelude.{◌≡◌};
ghost use Rattle.c_answers.specs.Outcomes.{empty_outcome, is_told, needing, no_outcome, outcome_of};

use crate::line::ListingLine;

/// The outcome of one byte of a stream: how much was written for it, and its lines of the listing.
#[repr(C)]
#[derive(Clone, Copy)]
pub struct ByteOutcome {
    /// The number of elements written to the buffer: words or bytes.
    pub written: usize,
    /// After `SmallBuffer`, a sufficient buffer size. Otherwise 0.
    pub need: usize,
    /// The offset of the byte, as the caller numbered it.
    pub offset: u64,
    /// If the byte cuts something off, the line for what it cuts off; otherwise the line for the byte itself.
    pub first: ListingLine,
    /// If the byte cuts something off, the line for the byte itself.
    pub second: ListingLine,
}

impl ByteOutcome {
    /// Returns the outcome of a call that handled no byte.
    #[inline(always)]
    pub fn none() -> ByteOutcome
        ensures { result ≡ no_outcome }
    {
        ByteOutcome::empty(0)
    }

    /// Returns the outcome of the byte at this offset if nothing was written for it and it has no line.
    #[inline(always)]
    pub fn empty(offset: u64) -> ByteOutcome
        ensures { result ≡ empty_outcome offset }
    {
        ByteOutcome::of(offset, 0, ListingLine::none(), ListingLine::none())
    }

    /// Returns the outcome of the byte at this offset, with the number of elements written for it and its
    /// lines.
    #[inline(always)]
    pub fn of(offset: u64, written: usize, first: ListingLine, second: ListingLine) -> ByteOutcome
        ensures { result ≡ outcome_of offset written first second }
    {
        ByteOutcome {
            written,
            need: 0,
            offset,
            first,
            second,
        }
    }

    /// Returns the outcome of the byte at this offset if the buffer was too small, so that the byte wasn't
    /// taken. `size` is a sufficient buffer size.
    #[inline(always)]
    pub fn needing(offset: u64, size: usize) -> ByteOutcome
        ensures { result ≡ needing offset size }
    {
        ByteOutcome {
            written: 0,
            need: size,
            offset,
            first: ListingLine::none(),
            second: ListingLine::none(),
        }
    }

    /// Returns whether something was written for the byte, or it has a line.
    #[inline(always)]
    pub fn is_told(&self) -> bool
        ensures { result ≡ is_told self.now }
    {
        self.written != 0 || self.first.kind != 0
    }
}
