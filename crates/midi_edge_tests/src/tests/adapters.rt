// The adapters over a reader, a writer and files that fail as they are told to.
use super::file_shelf::fetched;
use super::is_same;
use super::scripted::{Log, Scripted, ScriptedFiles, Step};
use midi_edge::{BufferedSource, FolderLanes, ReadSource, WriteSink};
use outside::{Failed, Lanes, OpenFault, Sink, Source};
use std::alloc::Global;
use std::io::ErrorKind;
use std::test::Fail;

#[test]
fn a_source_reads_again_after_a_signal(rt: HostRuntime) {
    let steps = [
        Step::Fails(ErrorKind::Interrupted),
        Step::Moves(2),
        Step::Fails(ErrorKind::BrokenPipe),
    ];
    let log = Log::new();
    let mut source = ReadSource::new(Scripted::new(&steps, b"", &log));
    let mut buf = [0; 3];
    let taken = [
        source.take(&mut buf),
        source.take(&mut buf),
        source.take(&mut buf),
    ];
    assert!(rt; taken == [Ok(2), Err(Failed), Ok(3)]);
    is_same(&rt, &source.faults(), &1);
}

// What each of four takes of three bytes answers, and whether the next one may wait.
fn takes(source: &mut BufferedSource<Scripted<'_>>) -> [(Result<usize, Failed>, bool); 4] {
    let mut buf = [0; 3];
    let first = (source.take(&mut buf), source.may_wait());
    let second = (source.take(&mut buf), source.may_wait());
    let third = (source.take(&mut buf), source.may_wait());
    [
        first,
        second,
        third,
        (source.take(&mut buf), source.may_wait()),
    ]
}

#[test]
fn a_source_that_reads_ahead_waits_only_where_it_holds_nothing(
    rt: HostRuntime,
) -> Result<(), Fail> {
    let steps = [
        Step::Fails(ErrorKind::Interrupted),
        Step::Moves(5),
        Step::Fails(ErrorKind::BrokenPipe),
        Step::Moves(4),
    ];
    let log = Log::new();
    let mut source = BufferedSource::new(rt.alloc(), Scripted::new(&steps, b"", &log))?;
    assert!(rt; source.may_wait());
    let taken = takes(&mut source);
    assert!(rt;
        taken
            == [
                (Ok(3), false),
                (Ok(2), true),
                (Err(Failed), true),
                (Ok(3), false)
            ]
    );
    assert!(rt; log.counts() == [4, 0, 0]);
    is_same(&rt, &source.faults(), &1);
    let log = Log::new();
    let mut file = BufferedSource::of_file(rt.alloc(), Scripted::new(&steps, b"", &log))?;
    assert!(rt; !file.may_wait());
    let taken = takes(&mut file);
    assert!(rt;
        taken
            == [
                (Ok(3), false),
                (Ok(2), false),
                (Err(Failed), false),
                (Ok(3), false)
            ]
    );
    Ok(())
}

// The counts of the log after small pieces, a large one, a flush with
// nothing gathered, and one more piece and two flushes.
fn gathers(sink: &mut WriteSink<Scripted<'_>>, log: &Log) -> Result<[[usize; 3]; 4], Failed> {
    sink.put(b"one ")?;
    sink.put(b"two ")?;
    let small = log.counts();
    sink.put(&[b'x'; 9000])?;
    let large = log.counts();
    sink.flush()?;
    let flushed = log.counts();
    sink.put(b"three")?;
    sink.flush()?;
    sink.flush()?;
    Ok([small, large, flushed, log.counts()])
}

#[test]
fn a_sink_gathers_small_pieces(rt: HostRuntime) {
    let mut awaited = [b'x'; 9013];
    awaited[..8].copy_from_slice(b"one two ");
    awaited[9008..].copy_from_slice(b"three");
    let log = Log::new();
    let mut sink = WriteSink::new(Scripted::new(&[], &awaited, &log));
    let counts = gathers(&mut sink, &log);
    assert!(rt; counts == Ok([[0, 0, 0], [2, 0, 9008], [2, 1, 9008], [3, 3, 9013]]));
}

// What the calls answer, the counts of faults, and how many bytes are written.
fn goes_on(sink: &mut WriteSink<Scripted<'_>>, log: &Log) -> bool {
    let one = sink.put(b"one ");
    let refused = sink.put(&[b'x'; 8190]);
    let faults = sink.faults();
    let two = sink.put(b"two");
    let stopped = sink.flush();
    let [_, _, moved] = log.counts();
    let more_faults = sink.faults();
    let flushed = sink.flush();
    let [_, _, all] = log.counts();
    [one, refused, two] == [Ok(()), Err(Failed), Ok(())]
        && [stopped, flushed] == [Err(Failed), Ok(())]
        && [faults, more_faults] == [1, 2]
        && [moved, all] == [3, 7]
}

#[test]
fn a_fault_is_told_and_takes_nothing_away(rt: HostRuntime) {
    for fault in [Step::Moves(0), Step::Fails(ErrorKind::BrokenPipe)] {
        let steps = [
            fault,
            Step::Fails(ErrorKind::Interrupted),
            Step::Moves(3),
            fault,
        ];
        let log = Log::new();
        let mut sink = WriteSink::new(Scripted::new(&steps, b"one two", &log));
        assert!(rt; goes_on(&mut sink, &log));
    }
}

// All is written out before the writer is flushed, and what it answers then is told.
#[test]
fn a_writer_that_cannot_be_flushed_is_a_fault(rt: HostRuntime) {
    let log = Log::new();
    let mut sink = WriteSink::new(Scripted::unflushed(&[], b"one", &log));
    let put = sink.put(b"one");
    let flushed = sink.flush();
    assert!(rt; [put, flushed] == [Ok(()), Err(Failed)]);
    assert!(rt; log.counts() == [1, 1, 3]);
    assert!(rt; sink.faults() == 1);
}

// The counts of the log after each of three times that a small piece
// is written out, of which the first stops within it.
fn writes_out(sink: &mut WriteSink<Scripted<'_>>, log: &Log) -> Result<[[usize; 3]; 3], Failed> {
    sink.put(b"one ")?;
    sink.write_out();
    let stopped = log.counts();
    sink.write_out();
    let written = log.counts();
    sink.write_out();
    Ok([stopped, written, log.counts()])
}

#[test]
fn what_is_gathered_is_written_out_before_its_time(rt: HostRuntime) {
    let steps = [Step::Moves(3), Step::Fails(ErrorKind::BrokenPipe)];
    let log = Log::new();
    let mut sink = WriteSink::new(Scripted::new(&steps, b"one ", &log));
    let counts = writes_out(&mut sink, &log);
    assert!(rt; counts == Ok([[2, 0, 3], [3, 1, 4], [3, 2, 4]]));
    is_same(&rt, &sink.faults(), &0);
}

// What the calls answer once a piece can't be written out before its time, and how many bytes are written.
fn stays_failed(sink: &mut WriteSink<Scripted<'_>>, log: &Log) -> bool {
    let one = sink.put(b"one ");
    sink.write_out();
    let untold = sink.faults();
    let two = sink.put(b"two");
    let told = sink.faults();
    sink.write_out();
    let three = sink.put(&[b'x'; 9000]);
    let flushed = sink.flush();
    let [_, _, moved] = log.counts();
    [one, two, three, flushed] == [Ok(()), Err(Failed), Err(Failed), Err(Failed)]
        && [untold, told, sink.faults()] == [0, 1, 3]
        && moved == 4
}

// A later write is made, and loses nothing of what was accepted, but the fault is told all the same.
#[test]
fn a_put_fails_after_nothing_could_be_written_out(rt: HostRuntime) {
    for fault in [Step::Moves(0), Step::Fails(ErrorKind::BrokenPipe)] {
        let steps = [Step::Moves(1), fault];
        let log = Log::new();
        let mut sink = WriteSink::new(Scripted::new(&steps, b"one ", &log));
        assert!(rt; stays_failed(&mut sink, &log));
    }
}

// What the calls answer if a signal interrupts what is written out before its time.
fn goes_on_after_a_signal(sink: &mut WriteSink<Scripted<'_>>) -> [Result<(), Failed>; 3] {
    let one = sink.put(b"one ");
    sink.write_out();
    let two = sink.put(b"two");
    [one, two, sink.flush()]
}

#[test]
fn a_put_goes_on_after_a_signal(rt: HostRuntime) {
    let signal = Step::Fails(ErrorKind::Interrupted);
    let steps = [signal, Step::Moves(1), signal];
    let log = Log::new();
    let mut sink = WriteSink::new(Scripted::new(&steps, b"one two", &log));
    let answers = goes_on_after_a_signal(&mut sink);
    assert!(rt; answers == [Ok(()); 3]);
    assert!(rt; log.counts() == [5, 2, 7]);
    is_same(&rt, &sink.faults(), &0);
}

// Whether a source that fails so tells it at once.
fn source_tells(kind: ErrorKind) -> bool {
    let steps = [Step::Fails(kind)];
    let log = Log::new();
    let mut source = ReadSource::new(Scripted::new(&steps, b"", &log));
    let taken = source.take(&mut [0; 3]);
    taken == Err(Failed) && log.counts() == [1, 0, 0] && source.faults() == 1
}

// Whether a sink that fails so tells it at once.
fn sink_tells(kind: ErrorKind) -> bool {
    let steps = [Step::Fails(kind)];
    let log = Log::new();
    let mut sink = WriteSink::new(Scripted::new(&steps, b"one", &log));
    let put = sink.put(b"one");
    let flushed = sink.flush();
    [put, flushed] == [Ok(()), Err(Failed)] && log.counts() == [1, 0, 0] && sink.faults() == 1
}

#[test]
fn each_error_but_an_interruption_is_a_fault_at_once(rt: HostRuntime) {
    for kind in [
        ErrorKind::WouldBlock,
        ErrorKind::TimedOut,
        ErrorKind::UnexpectedEof,
        ErrorKind::WriteZero,
        ErrorKind::OutOfMemory,
        ErrorKind::Other,
    ] {
        assert!(rt; source_tells(kind));
        assert!(rt; sink_tells(kind));
    }
}

// What lanes answer if a file opens so.
fn lanes_answer(files: ScriptedFiles<'_>, alloc: Global) -> Result<(), OpenFault> {
    let mut lanes = FolderLanes::new((files, alloc));
    lanes.begin("folder")
}

#[test]
fn only_a_lack_of_memory_is_told_apart(rt: HostRuntime) {
    let mut into = Vec::new(rt.alloc());
    for (kind, fault) in [
        (ErrorKind::OutOfMemory, OpenFault::NoMemory),
        (ErrorKind::NotFound, OpenFault::Failed),
        (ErrorKind::PermissionDenied, OpenFault::Failed),
        (ErrorKind::IsADirectory, OpenFault::Failed),
        (ErrorKind::Interrupted, OpenFault::Failed),
    ] {
        let files = ScriptedFiles::Fails(kind);
        is_same(&rt, &fetched(files, 4, &mut into), &Err(fault));
        is_same(&rt, &lanes_answer(files, rt.alloc()), &Err(fault));
    }
}
