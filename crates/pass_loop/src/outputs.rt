// The places that a pass writes to, as one value.
ghost use Rattle.std.specs.Prelude.{◌≡◌, ◌<◌, ◌∷◌, [], true, length};
ghost use Rattle.pass_loop.specs.Places.{Places, Puts, borrowed, places};
ghost use Rattle.pass_loop.specs.Put.{in_lane, in_notes, in_output};

use crate::ends::RunEnd;
use outside::{Lanes, Sink};
use small_types::U4;

/// The places that a pass writes to: lanes, an output and notes.
pub trait Outputs {
    /// The contents of the places, as far as contracts see them, and the counts of their faults.
    ghost places: { Self → Places };

    /// Writes a piece, which isn't empty, to a lane. The lanes must have been begun. The error is always
    /// `LaneFault`, and is returned only if the lanes' count of faults rose. In that case the lane has gained
    /// nothing, or a front of the piece that is neither empty nor the whole piece.
    fn put_lane(&mut self, lane: U4, piece: &[u8]) -> Result<(), RunEnd>
        requires begun { (places self.old).begun ≡ true }
        requires piece { 0 < length piece.now }
        ensures { Puts (in_lane lane piece.now ∷ []) (places self.old) (places self.new) result };

    /// Writes text, which isn't empty, to the output. The error is always `OutputFault`, and is returned only
    /// if the output's count of faults rose. In that case the output has gained at most a front of the text,
    /// but not the whole text.
    fn put_output(&mut self, text: &[u8]) -> Result<(), RunEnd>
        requires { 0 < length text.now }
        ensures { Puts (in_output text.now ∷ []) (places self.old) (places self.new) result };

    /// Writes text, which isn't empty, to the notes. The error is always `NoteFault`, and is returned only if
    /// the notes' count of faults rose. In that case the notes have gained at most a front of the text, but
    /// not the whole text.
    fn put_notes(&mut self, text: &[u8]) -> Result<(), RunEnd>
        requires { 0 < length text.now }
        ensures { Puts (in_notes text.now ∷ []) (places self.old) (places self.new) result };

    /// Tries to write out what the lanes, the output and the notes have buffered. A pass calls it before it
    /// waits for input. The call reports no fault: what it can't write stays buffered, and the next put to
    /// that object fails and counts the fault.
    fn write_out(&mut self)
        ensures { places self.new ≡ places self.old };
}

/// Three objects that are borrowed for a pass.
#[derive(Drop)]
pub struct Borrowed<'l, 'o, 'n, L, W, N> {
    pub lanes: &'l mut L,
    pub output: &'o mut W,
    pub notes: &'n mut N,
}

impl<'l, 'o, 'n, L: Lanes, W: Sink, N: Sink> Outputs for Borrowed<'l, 'o, 'n, L, W, N> {
    ghost places = { λ o. borrowed (o.lanes.ghost_name, o.output.ghost_name, o.notes.ghost_name)
        (places L.Lanes W.Sink N.Sink o.lanes.now o.output.now o.notes.now) };

    #[inline(always)]
    fn put_lane(&mut self, lane: U4, piece: &[u8]) -> Result<(), RunEnd> {
        match self.lanes.put(lane, piece) {
            Ok(()) => Ok(()),
            Err(_) => Err(RunEnd::LaneFault),
        }
    }

    #[inline(always)]
    fn put_output(&mut self, text: &[u8]) -> Result<(), RunEnd> {
        match self.output.put(text) {
            Ok(()) => Ok(()),
            Err(_) => Err(RunEnd::OutputFault),
        }
    }

    #[inline(always)]
    fn put_notes(&mut self, text: &[u8]) -> Result<(), RunEnd> {
        match self.notes.put(text) {
            Ok(()) => Ok(()),
            Err(_) => Err(RunEnd::NoteFault),
        }
    }

    fn write_out(&mut self) {
        self.lanes.write_out();
        self.output.write_out();
        self.notes.write_out();
    }
}
