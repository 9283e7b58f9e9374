// A single write to one place.
ghost use Rattle.std.specs.Prelude.{◌≡◌, ◌<◌, ◌∷◌, [], true, length};
ghost use Rattle.pass_loop.specs.Places.{Puts, places};
ghost use Rattle.pass_loop.specs.Put.{in_notes, in_output};

use crate::ends::RunEnd;
use outside::{Lanes, Sink};

/// Writes text, which isn't empty, to the output. The error is always `OutputFault`, and is returned only if
/// the output's count of faults rose. In that case the output has gained at most a front of the text, but not
/// the whole text.
#[inline]
pub fn put_output<L: Lanes, W: Sink, N: Sink>(
    text: &[u8],
    lanes: &mut L,
    output: &mut W,
    notes: &mut N,
) -> Result<(), RunEnd>
    requires { 0 < length text.now }
    ensures { Puts (in_output text.now ∷ [])
        (places L.Lanes W.Sink N.Sink lanes.old output.old notes.old)
        (places L.Lanes W.Sink N.Sink lanes.new output.new notes.new) result }
{
    match output.put(text) {
        Ok(()) => Ok(()),
        Err(_) => Err(RunEnd::OutputFault),
    }
}

/// Writes text, which isn't empty, to the notes. The error is always `NoteFault`, and is returned only if the
/// notes' count of faults rose. In that case the notes have gained at most a front of the text, but not the
/// whole text.
#[inline]
pub fn put_notes<L: Lanes, W: Sink, N: Sink>(
    text: &[u8],
    lanes: &mut L,
    output: &mut W,
    notes: &mut N,
) -> Result<(), RunEnd>
    requires { 0 < length text.now }
    ensures { Puts (in_notes text.now ∷ [])
        (places L.Lanes W.Sink N.Sink lanes.old output.old notes.old)
        (places L.Lanes W.Sink N.Sink lanes.new output.new notes.new) result }
{
    match notes.put(text) {
        Ok(()) => Ok(()),
        Err(_) => Err(RunEnd::NoteFault),
    }
}
