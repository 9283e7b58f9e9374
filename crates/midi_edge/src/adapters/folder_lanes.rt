// Lanes over a folder.
ghost use Rattle.std.specs.Prelude.{◌≡◌, ◌<◌, ◌==◌, None, Err, true, false, [], All, length, vec_len, IfOk, OnOk, OnErr, IsErr, Some};
ghost use Rattle.midi_edge.specs.Adapters.{IsWrittenOut, HasFailedEarly, AcceptsInLane, KeepsEach, KeepsLanes};
ghost use Rattle.midi_edge.specs.Adapters.{TriesEach, TriesLanes, has_failed_early, lanes_failed_early, unwritten};
ghost use Rattle.outside.specs.Outside.{HasCause, HasOpenCause, PutsPair, kept_bytes};

use super::write_sink::WriteSink;
use super::{count_fault, counted, counted_opening, fault_of};
use crate::kept_text::KeptText;
use outside::{Failed, Lanes, OpenFault, Sink};
use small_types::U4;
use std::fs;
use std::io::Write;
use std::rt::Files;

/// Sixteen files in a folder, `group-00.midi1` to `group-15.midi1`, one for each lane. `begin` creates or
/// empties them. The folder must exist. `begin` allocates a buffer of 8,192 bytes for each file. An empty
/// path is no folder, so opening it fails. If memory runs out while the files are opened, the result is
/// `NoMemory`.
///
/// A small piece is buffered, and written out when a later one doesn't fit. So an `Ok` of `put` means that
/// the piece was accepted, and a fault shows at the `put` that writes out, or at `flush`. A fault loses
/// nothing that was accepted before: the next call that writes to this lane writes out the bytes that the
/// fault left in the buffer.
///
/// `write_out` writes the buffered bytes early, and counts no fault. If that fails at one lane, each later
/// `put`, to whichever lane, and each `flush` fails, though `flush` still writes out as much as it can.
/// Bytes that are still buffered when the lanes are dropped are lost, so call `flush` after the last `put`.
#[derive(Drop)]
pub struct FolderLanes<R: Files + AllocGlobal> {
    rt: R,
    lanes: Vec<WriteSink<R::File>>,
    faults: u64,
    has_failed_early: bool,
    path: KeptText,
}

impl<R: Files + AllocGlobal> FolderLanes<R> {
    /// Creates lanes that are not yet opened, and take no memory. Nothing is buffered yet, and no fault is
    /// counted.
    pub fn new(rt: R) -> Self
        ensures folder { ⟦<FolderLanes<R> as Lanes>⟧.folder result ≡ None }
        ensures begun { ⟦<FolderLanes<R> as Lanes>⟧.begun result ≡ false }
        ensures faults { ⟦<FolderLanes<R> as Lanes>⟧.faults result ≡ 0 }
        ensures empty { IsWrittenOut result }
        ensures early { lanes_failed_early result ≡ false }
    {
        let lanes = Vec::new(rt.alloc());
        FolderLanes {
            rt,
            lanes,
            faults: 0,
            has_failed_early: false,
            path: KeptText::new(),
        }
    }

    /// Returns the number of faults of the lanes, which saturates at `u64::MAX`.
    pub fn faults(&self) -> u64
        ensures { result ≡ ⟦<FolderLanes<R> as Lanes>⟧.faults self.now }
    {
        self.faults
    }

    /// Writes out the buffered bytes of every lane, even after a lane that fails. After an `Err` the bytes
    /// that aren't written yet stay buffered, and a later call continues from there. The call also returns
    /// `Err` if `write_out` has failed before, even if everything is written out now. Before `begin` there is
    /// nothing to write.
    pub fn flush(&mut self) -> Result<(), Failed>
        ensures begun { ⟦<FolderLanes<R> as Lanes>⟧.begun self.new
            ≡ ⟦<FolderLanes<R> as Lanes>⟧.begun self.old }
        ensures folder { ⟦<FolderLanes<R> as Lanes>⟧.folder self.new
            ≡ ⟦<FolderLanes<R> as Lanes>⟧.folder self.old }
        ensures cause { HasCause (⟦<FolderLanes<R> as Lanes>⟧.faults self.old)
            (⟦<FolderLanes<R> as Lanes>⟧.faults self.new) result }
        ensures keeps { KeepsLanes ⟦<R::File as Write>⟧.contents self.old self.new }
        ensures written { OnOk result (IsWrittenOut self.new) }
        ensures tried { TriesLanes self.old self.new }
        ensures early { HasFailedEarly self.old → IsErr result }
    {
        let answer = flush_each(&mut self.lanes);
        if self.has_failed_early {
            count_fault(&mut self.faults);
            return Err(Failed);
        }
        counted(answer, &mut self.faults)
    }
}

// Flushes every sink, and returns the first fault.
fn flush_each<W: Write>(sinks: &mut [WriteSink<W>]) -> Result<(), Failed>
    ensures count { length sinks.new ≡ length sinks.old }
    ensures keeps { KeepsEach W.contents sinks.old sinks.new }
    ensures written { OnOk result (All (λ s. unwritten s ≡ []) sinks.new) }
    ensures tried { TriesEach sinks.old sinks.new }
{
    let mut outcome = Ok(());
    for sink in sinks {
        let answer = sink.flush_anyway();
        outcome = outcome.and(answer);
    }
    outcome
}

// Makes each later put to every sink fail.
fn fail_each<W: Write>(sinks: &mut [WriteSink<W>])
    ensures count { length sinks.new ≡ length sinks.old }
    ensures keeps { KeepsEach W.contents sinks.old sinks.new }
    ensures early { All (λ s. has_failed_early s ≡ true) sinks.new }
{
    for sink in sinks {
        sink.fail_early();
    }
}

// Flushes every sink. If one fails, or has failed before, each later put to every sink fails. Returns whether
// it does.
#[tactic(auto, using(crate::proofs::Accepting::keeps_each_twice))]
fn write_out_each<W: Write>(sinks: &mut [WriteSink<W>], has_failed: bool) -> bool
    ensures count { length sinks.new ≡ length sinks.old }
    ensures keeps { KeepsEach W.contents sinks.old sinks.new }
    ensures written { result ≡ false → All (λ s. unwritten s ≡ []) sinks.new }
    ensures early { result ≡ true → All (λ s. has_failed_early s ≡ true) sinks.new }
    ensures still { has_failed ≡ true → result ≡ true }
{
    let answer = flush_each(sinks);
    let fails = has_failed || answer.is_err();
    if fails {
        fail_each(sinks);
    }
    fails
}

// Creates or empties the sixteen files. No folder has an empty path.
fn open_lanes<R: Files + AllocGlobal>(
    rt: &R,
    folder: &str,
) -> Result<Vec<WriteSink<R::File>>, OpenFault>
    ensures lanes { IfOk result (λ lanes. vec_len lanes ≡ 16) }
    ensures written { IfOk result (λ lanes. All (λ s. unwritten s ≡ []) lanes.items) }
    ensures empty { folder.now ≡ [] → result ≡ Err OpenFault.Failed }
{
    if folder.is_empty() {
        return Err(OpenFault::Failed);
    }
    let Ok(mut lanes) = Vec::with_capacity(rt.alloc(), 16) else {
        return Err(OpenFault::NoMemory);
    };
    for lane in 0..16u8 {
        let file = open_lane(rt, folder, lane)?;
        if lanes.push(WriteSink::new(file)).is_err() {
            return Err(OpenFault::NoMemory);
        }
    }
    Ok(lanes)
}

// Creates or empties the file of a lane.
fn open_lane<R: Files + AllocGlobal>(rt: &R, folder: &str, lane: u8) -> Result<R::File, OpenFault> {
    let Ok(name) = format!(in rt.alloc(); "{folder}/group-{lane:02}.midi1") else {
        return Err(OpenFault::NoMemory);
    };
    fs::create(rt, name.as_str()).map_err(fault_of)
}

impl<R: Files + AllocGlobal> Lanes for FolderLanes<R> {
    ghost begun = { λ l. vec_len l.lanes == 16 };

    ghost folder = { λ l. l.path };

    ghost pieces = { λ _. None };

    ghost faults = { λ l. l.faults };

    fn begin(&mut self, path: &str) -> Result<(), OpenFault>
        requires { ⟦<Self as Lanes>⟧.folder self.old ≡ None }
        ensures folder { ⟦<Self as Lanes>⟧.folder self.new ≡ Some (kept_bytes path.now) }
        ensures pieces { ⟦<Self as Lanes>⟧.pieces self.new ≡ ⟦<Self as Lanes>⟧.pieces self.old }
        ensures begun { OnOk result (⟦<Self as Lanes>⟧.begun self.new ≡ true) }
        ensures err { OnErr result (⟦<Self as Lanes>⟧.begun self.new ≡ ⟦<Self as Lanes>⟧.begun self.old) }
        ensures cause { HasOpenCause (⟦<Self as Lanes>⟧.faults self.old)
            (⟦<Self as Lanes>⟧.faults self.new) result }
        ensures written { OnOk result (IsWrittenOut self.new) }
    {
        self.path.keep(path);
        let answer = open_lanes(&self.rt, path);
        self.lanes = counted_opening(answer, &mut self.faults)?;
        Ok(())
    }

    #[inline(always)]
    fn put(&mut self, lane: U4, piece: &[u8]) -> Result<(), Failed>
        requires begun { ⟦<Self as Lanes>⟧.begun self.old ≡ true }
        requires piece { 0 < length piece.now }
        ensures begun { ⟦<Self as Lanes>⟧.begun self.new ≡ ⟦<Self as Lanes>⟧.begun self.old }
        ensures folder { ⟦<Self as Lanes>⟧.folder self.new ≡ ⟦<Self as Lanes>⟧.folder self.old }
        ensures pieces { PutsPair None None result lane piece.now }
        ensures cause { HasCause (⟦<Self as Lanes>⟧.faults self.old)
            (⟦<Self as Lanes>⟧.faults self.new) result }
        ensures accepts { AcceptsInLane ⟦<R::File as Write>⟧.contents
            self.old self.new (lane, piece.now) result }
        ensures early { HasFailedEarly self.old → IsErr result }
        ensures still { HasFailedEarly self.old → HasFailedEarly self.new }
    {
        let answer = self.lanes[usize::from(lane.get())].put(piece);
        counted(answer, &mut self.faults)
    }

    fn write_out(&mut self)
        ensures begun { ⟦<Self as Lanes>⟧.begun self.new ≡ ⟦<Self as Lanes>⟧.begun self.old }
        ensures folder { ⟦<Self as Lanes>⟧.folder self.new ≡ ⟦<Self as Lanes>⟧.folder self.old }
        ensures pieces { ⟦<Self as Lanes>⟧.pieces self.new ≡ ⟦<Self as Lanes>⟧.pieces self.old }
        ensures faults { ⟦<Self as Lanes>⟧.faults self.new ≡ ⟦<Self as Lanes>⟧.faults self.old }
        ensures keeps { KeepsLanes ⟦<R::File as Write>⟧.contents self.old self.new }
        ensures written { lanes_failed_early self.new ≡ false → IsWrittenOut self.new }
        ensures early { lanes_failed_early self.new ≡ true → HasFailedEarly self.new }
        ensures still { HasFailedEarly self.old → HasFailedEarly self.new }
    {
        self.has_failed_early = write_out_each(&mut self.lanes, self.has_failed_early);
    }
}
