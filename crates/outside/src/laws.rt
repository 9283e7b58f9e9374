// Laws that hold for every object outside the program.
ghost use Rattle.std.specs.Prelude.{ℕ, List};
ghost use Rattle.outside.specs.Runs.{RunsAreGainedAsOne, RunsAreLostAsOne};

/// Proves that two runs of bytes, lost one after the other, are lost as a single run.
pub fn runs_are_lost_as_one()
    ensures { RunsAreLostAsOne }
{}

/// Proves that two runs, gained one after the other, are gained as a single run. It holds for bytes, and
/// for pairs of a lane and a piece.
pub fn runs_are_gained_as_one()
    ensures bytes { RunsAreGainedAsOne ℕ }
    ensures pairs { RunsAreGainedAsOne (ℕ × List ℕ) }
{}
