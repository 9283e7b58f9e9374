// The end of a pass that refuses its input.
ghost use Rattle.std.specs.Prelude.{◌≡◌};
ghost use Rattle.listing_lines.specs.Refusal.{reason_of};

use listing_terms::BadStep;
use pass_loop::{Reason, RunEnd};

/// Returns the end of a pass that refuses the packet or byte at this offset.
pub fn refused(bad: BadStep, offset: u64) -> RunEnd
    ensures { result ≡ RunEnd.Refused (reason_of bad) offset }
{
    let reason = match bad {
        BadStep::DataIncrement => Reason::DataIncrement,
        BadStep::DataDecrement => Reason::DataDecrement,
        BadStep::ExclusiveTooLong => Reason::ExclusiveTooLong,
    };
    RunEnd::Refused { reason, offset }
}
