// The calls at which an object in memory is to fail.
ghost use Rattle.std.specs.Prelude.{◌≡◌};
ghost use Rattle.midi_edge.specs.Script.{kept_at as kept_at_call};

/// Returns how many bytes the call keeps if it is listed to fail, or `None` if it isn't listed.
pub(crate) fn kept_at(fails: &[(u64, usize)], call: u64) -> Option<usize>
    ensures { result ≡ kept_at_call fails.now call }
{
    fails.iter().find(|fail| fail.0 == call).map(|fail| fail.1)
}
