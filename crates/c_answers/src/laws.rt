// A law that holds for all streams.
ghost use Rattle.c_answers.specs.Within.{ExclusivesStayWithinTheirLimit};

/// An exclusive that a parser has open doesn't exceed the parser's limit, and neither does one that a byte
/// completes.
#[tactic(auto, using(crate::proofs::WithinLaws::parse_within))]
pub fn exclusives_stay_within_their_limit()
    ensures { ExclusivesStayWithinTheirLimit }
{}
