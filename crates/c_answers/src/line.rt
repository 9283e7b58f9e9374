// A line of the listing, in the form in which a caller gets it.
ghost use Rattle.std.specs.Prelude.{◌≡◌};
ghost use Rattle.c_answers.specs.Lines.{line_of, listed_line, no_line};

use crate::kinds::kind_number;
use listing_terms::{Kind, Listed};

/// A line of the listing.
#[repr(C)]
#[derive(Clone, Copy)]
pub struct ListingLine {
    /// The offset that the line reports, as the caller numbered it; 0 if there is no line.
    pub offset: u64,
    /// The number of the line's kind; 0 if there is no line.
    pub kind: u8,
}

impl ListingLine {
    /// Returns the value that stands for no line.
    pub fn none() -> ListingLine
        ensures { result ≡ no_line }
    {
        ListingLine { offset: 0, kind: 0 }
    }

    /// Creates a line with this kind and offset.
    pub fn of(kind: Kind, offset: u64) -> ListingLine
        ensures { result ≡ line_of (kind, offset) }
    {
        ListingLine {
            offset,
            kind: kind_number(kind),
        }
    }

    /// Creates a line, or the value that stands for no line. The group is left out.
    pub fn listed(listed: Option<Listed>) -> ListingLine
        ensures { result ≡ listed_line listed }
    {
        match listed {
            None => ListingLine::none(),
            Some(listed) => ListingLine::of(listed.kind, listed.offset),
        }
    }
}
