// The one loop that every pass uses.
ghost use Rattle.std.specs.Prelude.{◌≡◌, ◌<◌, ◌≤◌, ℕ, IfOk, IfSome, List, [], ◌∷◌, None, Option, length, true};
ghost use Rattle.item_reader.specs.SoFar.{Given, given};
ghost use Rattle.pass_loop.specs.Named.{AreNamed};
ghost use Rattle.pass_loop.specs.Next.{GivesFoundAt, GivesMore, IsFurther, MoreCause};
ghost use Rattle.pass_loop.specs.Pass.{AreAccepted, ArePut, Closes, Cutting, CutsOnce, Ends, Steps, Work, end_of as end_after, seen, seen_with};
ghost use Rattle.pass_loop.specs.PassEnds.{PassEnds};
ghost use Rattle.pass_loop.specs.Put.{Put};

use crate::ends::{Reason, RunEnd};
use crate::held::{OneByOne, Taking};
use crate::outputs::{Borrowed, Outputs};
use outside::{Lanes, Sink, Source};

/// The next part of an input.
#[derive(Debug, Drop)]
pub enum Next<A, I> {
    /// An item, and its position.
    Item { at: A, item: I },
    /// The input ends after the last item.
    End,
    /// The input is refused at this offset.
    Refused { reason: Reason, offset: u64 },
    /// A read failed.
    Failed,
}

/// What begins at a position of the bytes that a reader holds.
#[derive(Debug, Drop)]
pub enum Found<A, I> {
    /// An item, its position, and the position at which the next item begins.
    Item { at: A, item: I, next: usize },
    /// The input is refused at this offset.
    Refused { reason: Reason, offset: u64 },
}

/// The result of reading more of an input.
#[derive(Clone, Copy, Debug, PartialEq, Eq)]
pub enum More {
    /// The reader holds a whole item.
    Held,
    /// The input ends after the last item.
    End,
    /// The input is refused at this offset.
    Refused { reason: Reason, offset: u64 },
    /// A read failed.
    Failed,
}

/// Cuts an input into items, and holds bytes that it has read. A loop goes over these bytes with its own
/// position, from item to item (`item_in`), tells the reader how many bytes it has passed (`pass`), and lets
/// the reader read more (`more`).
pub trait Items<A, I> {
    /// How a new reader cuts an input.
    ghost IsCut: { Self → Cutting (A × I) };

    /// The reader has read nothing.
    ghost IsNew: { Self → Type 0 };

    /// The first reader was new, has become the second, and has returned these items.
    ghost HasGiven: { Self → Self → Given (A × I) → Type 0 };

    /// What holds of an item that comes after others, the newest first.
    ghost Promises: { List (A × I) → A × I → Type 0 };

    /// How far away the end may be.
    ghost to_go: { Self → ℕ };

    /// The bytes that the reader holds and may return as items.
    ghost held_bytes: { Self → List ℕ };

    /// The offset of the first of these bytes.
    ghost first_offset: { Self → ℕ };

    /// The reader after this many of the bytes are passed.
    ghost passed: { ℕ → Self → Self };

    /// A whole item begins after this many of the bytes.
    ghost IsHeld: { ℕ → Self → Type 0 };

    /// Returns the bytes that the reader holds and may return as items, and the offset of the first of these
    /// bytes.
    fn held(&self) -> (&[u8], u64)
        ensures bytes { result.0.now ≡ held_bytes self.now }
        ensures offset { result.1 ≡ first_offset self.now };

    /// Returns what begins after the first `place` of the bytes that the reader holds, or `None` exactly if
    /// no whole item begins there.
    fn item_in(&self, held: &[u8], offset: u64, place: usize) -> Option<Found<A, I>>
        requires held { held.now ≡ held_bytes self.now }
        requires offset { offset ≡ first_offset self.now }
        requires place { place ≤ length held.now }
        ensures answer { (first : Self) (all left : Option (List ℕ)) (items : List (A × I)) →
            HasGiven first (passed place self.now) (given all left items) →
            GivesFoundAt (IsCut first) Promises (HasGiven first) passed self.now (given all left items)
            result }
        ensures further { IfSome result (λ found. IsFurther (λ at. to_go (passed at self.now))
            (length held.now) place found) }
        ensures none { result ≡ None → IsHeld place self.now → ⊥ };

    /// Continues after the first `count` of the bytes that the reader holds.
    fn pass(&mut self, count: usize)
        requires { count ≤ length (held_bytes self.old) }
        ensures { self.new ≡ passed count self.old };

    /// Reads until the reader holds a whole item, if it doesn't yet. After `More::Failed` nothing is lost,
    /// and a later call continues from there.
    fn more<S: Source>(&mut self, input: &mut S) -> More
        ensures answer { (first : Self) (all : Option (List ℕ)) (items : List (A × I)) →
            HasGiven first self.old (given all (S.left input.old) items) →
            GivesMore (IsCut first) (HasGiven first self.new) (given all (S.left input.new) items) result }
        ensures held { result ≡ More.Held → IsHeld 0 self.new × (to_go self.new ≡ to_go self.old) }
        ensures cause { MoreCause (S.faults input.old) (S.faults input.new) result };

    /// A new reader has returned nothing.
    ghost starts: { (first : Self) (all : Option (List ℕ)) → IsNew first →
        HasGiven first first (given all all []) };

    /// A reader that passes no bytes stays as it is.
    ghost stays: { (reader : Self) → passed 0 reader ≡ reader };
}

/// Does the work of a pass on items, one by one.
pub trait Engine<A, I> {
    /// The work that a new engine does.
    ghost work: { Self → Work (A × I) };

    /// The engine has processed no item.
    ghost IsReady: { Self → Type 0 };

    /// The engine writes pieces to lanes.
    ghost UsesLanes: { Type 0 };

    /// The first engine, which was ready, has become the second after these items, the newest first.
    ghost Holds: { Self → Self → List (A × I) → Type 0 };

    /// What a step requires of an item.
    ghost Asks: { A × I → Type 0 };

    /// What a step requires of an item that comes after others, the newest first.
    ghost AsksAfter: { List (A × I) → A × I → Type 0 };

    /// Does the work on one more item.
    fn step<O: Outputs>(&mut self, at: &A, item: &I, outputs: &mut O) -> Result<(), RunEnd>
        requires item { Asks (at.now, item.now) }
        requires holds { (first : Self) × (past : List (A × I)) × Holds first self.old past
            × AsksAfter past (at.now, item.now) }
        requires begun { UsesLanes → (O.places outputs.old).begun ≡ true }
        ensures { (first : Self) (past : List (A × I)) → Holds first self.old past →
            AsksAfter past (at.now, item.now) →
            Steps (work first) past
            (O.places outputs.old) (O.places outputs.new) (at.now, item.now) result
            × IfOk result (λ done. Holds first self.new ((at.now, item.now) ∷ past)) };

    /// Does the work that is left at the end of the input.
    fn close<O: Outputs>(&self, outputs: &mut O) -> Result<(), RunEnd>
        requires { UsesLanes → (O.places outputs.old).begun ≡ true }
        ensures { (first : Self) (past : List (A × I)) → Holds first self.now past →
            Closes (work first) past
            (O.places outputs.old) (O.places outputs.new) result };

    /// What is written for an item and at the end of the input goes to the places that the work names.
    ghost puts_are_named: { (first : Self) (past : List (A × I)) (item : A × I) (puts : List Put) →
        (work first).IsPut past item puts → AreNamed (work first).names puts };

    ghost last_puts_are_named: { (first : Self) (past : List (A × I)) (puts : List Put) →
        (work first).IsPutAtEnd past puts → AreNamed (work first).names puts };

    /// A ready engine holds the state that no items leave.
    ghost starts: { (first : Self) → IsReady first → Holds first first [] };

    /// What is written for items means what the items mean.
    ghost means: { (first now : Self) (past : List (A × I)) (puts : List Put) → Holds first now past →
        AreAccepted (work first) past → ArePut (work first) past puts → (work first).Means past puts };
}

// Returns the end of a run after `close`, which succeeded or failed.
pub(crate) fn end_of(closed: Result<(), RunEnd>) -> RunEnd
    ensures { result ≡ end_after closed }
{
    match closed {
        Ok(()) => RunEnd::Done,
        Err(end) => end,
    }
}

/// Writes out what is buffered if reading the input may wait, so that no peer waits for it.
#[inline(never)]
pub fn write_out<S: Source, O: Outputs>(input: &S, outputs: &mut O)
    ensures { O.places outputs.new ≡ O.places outputs.old }
{
    if input.may_wait() {
        outputs.write_out();
    }
}

/// Reads an input item by item and does the work on each, to the end of the input or to the first refusal.
/// Before a read that may keep waiting, it writes out what is buffered. The page `docs/passes.md` explains
/// the promises.
#[inline(always)]
pub fn drive<
    A: Drop,
    I: Drop,
    R: Items<A, I> + Drop,
    E: Engine<A, I> + Drop,
    S: Source,
    L: Lanes,
    W: Sink,
    N: Sink,
>(reader: R, engine: E, input: &mut S, lanes: &mut L, output: &mut W, notes: &mut N) -> RunEnd
    requires cuts { CutsOnce (R.IsCut reader) }
    requires new { R.IsNew reader }
    requires ready { E.IsReady engine }
    requires items { (past : List (A × I)) (item : A × I) → R.Promises past item →
        E.Asks item × E.AsksAfter past item }
    requires begun { E.UsesLanes → L.begun lanes.old ≡ true }
    ensures { PassEnds (R.IsCut reader) (E.work engine)
        (seen S.Source L.Lanes W.Sink N.Sink input.old lanes.old output.old notes.old)
        (seen S.Source L.Lanes W.Sink N.Sink input.new lanes.new output.new notes.new) result }
{
    let mut outputs = Borrowed {
        lanes,
        output,
        notes,
    };
    drive_into(&OneByOne, reader, engine, input, &mut outputs)
}

// Does the same as `drive`, for places that are given as one value. `taking` says how held items are
// processed.
#[inline(always)]
pub(crate) fn drive_into<
    A: Drop,
    I: Drop,
    R: Items<A, I> + Drop,
    E: Engine<A, I> + Drop,
    T: Taking<A, I, R, E>,
    S: Source,
    O: Outputs,
>(taking: &T, mut reader: R, mut engine: E, input: &mut S, outputs: &mut O) -> RunEnd
    requires new { R.IsNew reader }
    requires ready { E.IsReady engine }
    requires items { (past : List (A × I)) (item : A × I) → R.Promises past item →
        E.Asks item × E.AsksAfter past item }
    requires begun { E.UsesLanes → (O.places outputs.old).begun ≡ true }
    ensures { Ends (R.IsCut reader) (E.work engine)
        (seen_with S.Source input.old (O.places outputs.old))
        (seen_with S.Source input.new (O.places outputs.new)) result }
{
    loop {
        write_out(input, outputs);
        match reader.more(input) {
            More::Held => match taking.take_held(&reader, &mut engine, outputs) {
                Ok(count) => reader.pass(count),
                Err(end) => return end,
            },
            More::End => return end_of(engine.close(outputs)),
            More::Refused { reason, offset } => return RunEnd::Refused { reason, offset },
            More::Failed => return RunEnd::ReadFault,
        }
    }
}
