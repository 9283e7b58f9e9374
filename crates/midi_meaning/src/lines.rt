// The lines of the listing for a byte, and for a message that is open at the end.
ghost use Rattle.std.specs.Prelude.{◌≡◌};
ghost use Rattle.listing_terms.specs.ByteLines.{told_of};
ghost use Rattle.listing_terms.specs.declared.listed.Kind.TheVariants as kinds;
ghost use Rattle.midi_meaning.specs.StepListing.{cut_kind, open_kind};

use listing_terms::{ByteLine, Kind};
use midi1_bytes::CutKind;

/// Returns the line of a byte at this offset that belongs to no message (own rule).
pub fn stray(offset: u64) -> ByteLine
    ensures { told_of result ≡ (kinds.Stray, offset) }
{
    ByteLine {
        offset,
        kind: Kind::Stray,
    }
}

/// Returns the line of a status byte at this offset that no message has (own rule).
pub fn undefined(offset: u64) -> ByteLine
    ensures { told_of result ≡ (kinds.Undefined, offset) }
{
    ByteLine {
        offset,
        kind: Kind::Undefined,
    }
}

/// Returns the line of a data entry without a selected parameter, completed at this offset (own rule).
pub fn ignored(offset: u64) -> ByteLine
    ensures { told_of result ≡ (kinds.IgnoredDataEntry, offset) }
{
    ByteLine {
        offset,
        kind: Kind::IgnoredDataEntry,
    }
}

/// Returns the line of the message or exclusive that started at this offset and is cut off (own rule).
pub fn cut_off(start: u64, what: CutKind) -> ByteLine
    ensures { told_of result ≡ (cut_kind what, start) }
{
    ByteLine {
        offset: start,
        kind: kind_of_cut(what),
    }
}

/// Returns the kind of line for a message or exclusive that is cut off (own rule).
pub fn kind_of_cut(what: CutKind) -> Kind
    ensures { result ≡ cut_kind what }
{
    match what {
        CutKind::Message => Kind::CutMessage,
        CutKind::Exclusive => Kind::CutExclusive,
    }
}

/// Returns the kind of line for a message or exclusive that is open at the end (own rule).
pub fn kind_of_open(what: CutKind) -> Kind
    ensures { result ≡ open_kind what }
{
    match what {
        CutKind::Message => Kind::OpenMessage,
        CutKind::Exclusive => Kind::OpenExclusive,
    }
}
