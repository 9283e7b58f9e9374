// The loop of a pass over bytes whose engine may process several bytes at once.
ghost use Rattle.std.specs.Prelude.{◌≡◌, ◌<◌, ◌≤◌, ℕ, IfOk, List, length, true};
ghost use Rattle.item_reader.specs.ByteReader.{new_bytes};
ghost use Rattle.pass_loop.specs.Bytes.{byte_cutting, limit};
ghost use Rattle.pass_loop.specs.Pass.{CutsOnce, seen};
ghost use Rattle.pass_loop.specs.PassEnds.{PassEnds};
ghost use Rattle.pass_loop.specs.Runs.{HoldsSoMany, TakesRun};

use crate::ends::RunEnd;
use crate::held::Taking;
use crate::laws::items_are_taken_in_order;
use crate::outputs::{Borrowed, Outputs};
use crate::pass::{Engine, drive_into};
use item_reader::{ByteReader, EachByte};
use outside::{Lanes, Sink, Source};

/// Does the work on bytes one by one, and on several bytes at once where it can.
pub trait Runs: Engine<u64, u8> {
    /// The engine processes none of the bytes at the front of these at once.
    ghost TakesNone: { Self → List ℕ → Type 0 };

    /// Processes bytes at the front of these at once, as far as it can, with the same result as a step for
    /// each, and returns their number. Returns 0 only if it can process none of them at once. In that case
    /// nothing is done, and the caller processes the next byte by a step.
    fn take_run<O: Outputs>(&mut self, bytes: &[u8], outputs: &mut O) -> Result<usize, RunEnd>
        requires holds { (first : Self) × (past : List (ℕ × ℕ)) × Self.Holds first self.old past }
        requires begun { Self.UsesLanes → (O.places outputs.old).begun ≡ true }
        ensures count { IfOk result (λ count. count ≤ length bytes.now) }
        ensures none { IfOk result (λ count. count ≡ 0 → Self.TakesNone self.old bytes.now) }
        ensures run { (first : Self) (past : List (ℕ × ℕ)) → Self.Holds first self.old past →
            TakesRun (Self.work first) (Self.Holds first) bytes.now self.new past
            (O.places outputs.old) (O.places outputs.new) result };
}

// Processes several bytes at the front of these at once if the engine can, otherwise the first byte, which
// has this offset. Returns the number of bytes that are processed.
#[inline(always)]
fn take_some<E: Runs, O: Outputs>(
    engine: &mut E,
    bytes: &[u8],
    at: u64,
    outputs: &mut O,
) -> Result<usize, RunEnd>
    requires items { (past : List (ℕ × ℕ)) (item : ℕ × ℕ) → item.0 ≡ length past →
        E.Asks item × E.AsksAfter past item }
    requires some { 0 < length bytes.now }
    requires holds { HoldsSoMany E.Holds engine.old at }
    requires begun { E.UsesLanes → (O.places outputs.old).begun ≡ true }
    ensures count { IfOk result (λ count. (0 < count) × (count ≤ length bytes.now)) }
    ensures run { (first : E) (past : List (ℕ × ℕ)) → E.Holds first engine.old past → at ≡ length past →
        TakesRun (E.work first) (E.Holds first) bytes.now engine.new past
        (O.places outputs.old) (O.places outputs.new) result }
{
    match engine.take_run(bytes, outputs) {
        Ok(0) => match engine.step(&at, &bytes[0], outputs) {
            Ok(()) => Ok(1),
            Err(end) => Err(end),
        },
        taken => taken,
    }
}

/// Processes several bytes at once where the engine can, and otherwise one byte by a step.
pub(crate) struct SeveralAtOnce;

impl<E: Runs> Taking<u64, u8, ByteReader, E> for SeveralAtOnce {
    #[inline(always)]
    fn take_held<O: Outputs>(
        &self,
        reader: &ByteReader,
        engine: &mut E,
        outputs: &mut O,
    ) -> Result<usize, RunEnd> {
        items_are_taken_in_order::<EachByte, (u64, u8)>();
        let (held, offset) = reader.held();
        let mut place = 0;
        while place < held.len() {
            place += take_some(engine, &held[place..], offset + place as u64, outputs)?;
        }
        Ok(place)
    }
}

/// Reads an input byte by byte and does the work on each, or on several bytes at once, to the end of the
/// input or to the first refusal. The result is the same as that of `drive`. Before a read that may keep
/// waiting, it writes out what is buffered.
#[inline(always)]
pub fn drive_bytes<E: Runs + Drop, S: Source, L: Lanes, W: Sink, N: Sink>(
    reader: ByteReader,
    engine: E,
    input: &mut S,
    lanes: &mut L,
    output: &mut W,
    notes: &mut N,
) -> RunEnd
    requires cuts { CutsOnce byte_cutting }
    requires new { reader ≡ new_bytes limit }
    requires ready { E.IsReady engine }
    requires items { (past : List (ℕ × ℕ)) (item : ℕ × ℕ) → item.0 ≡ length past →
        E.Asks item × E.AsksAfter past item }
    requires begun { E.UsesLanes → L.begun lanes.old ≡ true }
    ensures { PassEnds byte_cutting (E.work engine)
        (seen S.Source L.Lanes W.Sink N.Sink input.old lanes.old output.old notes.old)
        (seen S.Source L.Lanes W.Sink N.Sink input.new lanes.new output.new notes.new) result }
{
    let mut outputs = Borrowed {
        lanes,
        output,
        notes,
    };
    drive_into(&SeveralAtOnce, reader, engine, input, &mut outputs)
}
