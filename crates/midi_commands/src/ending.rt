// Ends a run: writes out what is buffered, and puts the last line of a fault at that.
ghost use Rattle.std.specs.Prelude.{◌≡◌, ◌≢◌, true, false, []};
ghost use Rattle.std.specs.Io.KnownBytes.{Keeps};
ghost use Rattle.midi_edge.specs.Adapters.{IsWrittenOut, KeepsLanes, accepted, unwritten};
ghost use Rattle.midi_commands.specs.Ending.{EndsAs, IsOutOrFailed, IsOutOrTold, PutsLast, WritesBoth, fault_counts};
ghost use Rattle.midi_commands.specs.ExitCode.{exit_code_of, is_fault};

use crate::last_line::last_line;
use crate::status::Status;
use midi_edge::{FolderLanes, WriteSink};
use outside::{Lanes, Sink};
use std::io::{ErrorKind, Write};
use std::rt::Files;

/// Returns the status if the words of the command line couldn't be read: `Usage` if a word isn't UTF-8, and
/// `NoMemory` if memory ran out (own rule). Puts the last line in the notes.
pub fn unread_words<N: Write>(kind: ErrorKind, notes: &mut WriteSink<N>) -> Status
    ensures memory { kind ≡ ErrorKind.OutOfMemory → result ≡ Status.NoMemory }
    ensures other { kind ≢ ErrorKind.OutOfMemory → result ≡ Status.Usage }
    ensures line { PutsLast result (accepted N.contents notes.old) (accepted N.contents notes.new)
        (⟦<WriteSink<N> as Sink>⟧.faults notes.old) (⟦<WriteSink<N> as Sink>⟧.faults notes.new) }
{
    let status = match kind {
        ErrorKind::OutOfMemory => Status::NoMemory,
        _ => Status::Usage,
    };
    tell_last(status, notes);
    status
}

/// Writes out the bytes that the objects have buffered, whatever the status, and returns the exit code. The
/// notes come last, since the last line is in them.
///
/// If the status isn't a fault and this writing fails, the exit code is that of the fault (own rule): of the
/// first of the lanes, the output and the notes that failed. The last line of the fault, if it has one, is
/// put after everything else, and so after the last line of a refusal. Everything that was put before
/// stays.
pub fn finish<R: Files + AllocGlobal, O: Write, N: Write>(
    status: Status,
    lanes: &mut FolderLanes<R>,
    output: &mut WriteSink<O>,
    notes: &mut WriteSink<N>,
) -> u8
    ensures cause { is_fault status ≡ true → result ≡ exit_code_of status }
    ensures done { result ≡ 0 → status ≡ Status.Done }
    ensures ends { let counts = fault_counts
        ⟦<FolderLanes<R> as Lanes>⟧ ⟦<WriteSink<O> as Sink>⟧ ⟦<WriteSink<N> as Sink>⟧ in
        let before = counts lanes.old output.old notes.old in
        let now = counts lanes.new output.new notes.new in
        is_fault status ≡ false → (end : Status) × (result ≡ exit_code_of end)
        × EndsAs status end before now (accepted N.contents notes.old) (accepted N.contents notes.new) }
    ensures lanes { IsOutOrTold (IsWrittenOut lanes.new) (⟦<FolderLanes<R> as Lanes>⟧.faults lanes.old)
        (⟦<FolderLanes<R> as Lanes>⟧.faults lanes.new) result }
    ensures output { IsOutOrTold (unwritten output.new ≡ []) (⟦<WriteSink<O> as Sink>⟧.faults output.old)
        (⟦<WriteSink<O> as Sink>⟧.faults output.new) result }
    ensures notes { IsOutOrTold (unwritten notes.new ≡ []) (⟦<WriteSink<N> as Sink>⟧.faults notes.old)
        (⟦<WriteSink<N> as Sink>⟧.faults notes.new) result }
    ensures keeps_lanes { KeepsLanes ⟦<R::File as Write>⟧.contents lanes.old lanes.new }
    ensures keeps_output { Keeps (accepted O.contents output.old) (accepted O.contents output.new) }
    ensures keeps_notes { is_fault status ≡ true →
        Keeps (accepted N.contents notes.old) (accepted N.contents notes.new) }
{
    let written = write_out(status, lanes, output);
    tell_fault(status, written, notes);
    written
        .after_writing(notes.flush(), Status::NoteFault)
        .exit_code()
}

// Writes out the bytes that the lanes and the output have buffered, and returns the status after that.
fn write_out<R: Files + AllocGlobal, O: Write>(
    status: Status,
    lanes: &mut FolderLanes<R>,
    output: &mut WriteSink<O>,
) -> Status
    ensures cause { is_fault status ≡ true → result ≡ status }
    ensures written { is_fault status ≡ false → WritesBoth status result
        (⟦<FolderLanes<R> as Lanes>⟧.faults lanes.old) (⟦<FolderLanes<R> as Lanes>⟧.faults lanes.new)
        (⟦<WriteSink<O> as Sink>⟧.faults output.old) (⟦<WriteSink<O> as Sink>⟧.faults output.new) }
    ensures lanes { IsOutOrFailed (IsWrittenOut lanes.new) (⟦<FolderLanes<R> as Lanes>⟧.faults lanes.old)
        (⟦<FolderLanes<R> as Lanes>⟧.faults lanes.new) result }
    ensures output { IsOutOrFailed (unwritten output.new ≡ []) (⟦<WriteSink<O> as Sink>⟧.faults output.old)
        (⟦<WriteSink<O> as Sink>⟧.faults output.new) result }
    ensures keeps_lanes { KeepsLanes ⟦<R::File as Write>⟧.contents lanes.old lanes.new }
    ensures keeps_output { Keeps (accepted O.contents output.old) (accepted O.contents output.new) }
{
    status
        .after_writing(lanes.flush(), Status::LaneFault)
        .after_writing(output.flush(), Status::OutputFault)
}

// Puts the last line of the fault that the status has become. A status that stays has its line already.
fn tell_fault<N: Write>(status: Status, written: Status, notes: &mut WriteSink<N>)
    ensures told { is_fault status ≡ false → is_fault written ≡ true → PutsLast written
        (accepted N.contents notes.old) (accepted N.contents notes.new)
        (⟦<WriteSink<N> as Sink>⟧.faults notes.old) (⟦<WriteSink<N> as Sink>⟧.faults notes.new) }
    ensures before { is_fault status ≡ true → notes.new ≡ notes.old }
    ensures none { is_fault written ≡ false → notes.new ≡ notes.old }
{
    if written.is_fault() && !status.is_fault() {
        tell_last(written, notes);
    }
}

// Puts the last line of a status, if it has one. If that fails, the notes may have gained a prefix of the
// line, and their count of faults has risen.
fn tell_last<N: Write>(status: Status, notes: &mut WriteSink<N>)
    ensures { PutsLast status (accepted N.contents notes.old) (accepted N.contents notes.new)
        (⟦<WriteSink<N> as Sink>⟧.faults notes.old) (⟦<WriteSink<N> as Sink>⟧.faults notes.new) }
{
    if let Some(line) = last_line(status) {
        let _ = notes.put(line.as_slice());
    }
}
