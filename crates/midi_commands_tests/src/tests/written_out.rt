// What is put is written out before an input that may wait is read, and not before a file is.
use super::places::begun_places;
use clip_pass::run_clip;
use midi_edge::{BufferedSource, WriteSink};
use small_types::U4;
use std::alloc::Global;
use std::test::Fail;
use usb_passes::{PackRun, run_pack};

// A clip of no ticks, with one tick for a quarter note.
const CLIP: &[u8] = b"SMF2CLIP\x00\x30\x00\x01\
    \xF0\x20\x00\x00\x00\x00\x00\x00\x00\x00\x00\x00\x00\x00\x00\x00\
    \xF0\x21\x00\x00\x00\x00\x00\x00\x00\x00\x00\x00\x00\x00\x00\x00";

// What the output of a clip's lines has written out, and loses no more, at the end of the pass.
fn written_of_clip(alloc: Global, mut input: BufferedSource<&[u8]>) -> Result<[u8; 24], Fail> {
    let mut places = begun_places(alloc)?;
    let mut written = [0; 24];
    let mut output = WriteSink::new(written.as_mut_slice());
    let _end = run_clip(
        &mut input,
        &mut places.lanes,
        &mut output,
        &mut places.notes,
    );
    Ok(written)
}

// The same of the events of a stream.
fn written_of_events(alloc: Global, mut input: BufferedSource<&[u8]>) -> Result<[u8; 8], Fail> {
    let mut places = begun_places(alloc)?;
    let mut written = [0; 8];
    let mut output = WriteSink::new(written.as_mut_slice());
    let engine = PackRun::new(alloc, U4::low_bits(2), 8)?;
    let _end = run_pack(
        engine,
        &mut input,
        &mut places.lanes,
        &mut output,
        &mut places.notes,
    );
    Ok(written)
}

#[test]
fn lines_are_written_out_before_the_input_is_waited_for(rt: HostRuntime) -> Result<(), Fail> {
    let alloc = rt.alloc();
    let lines = written_of_clip(alloc, BufferedSource::new(alloc, CLIP)?)?;
    assert!(rt; lines.starts_with(b"resolution 1\nend 0\n"));
    let of_file = written_of_clip(alloc, BufferedSource::of_file(alloc, CLIP)?)?;
    assert!(rt; of_file == [0; 24]);
    Ok(())
}

#[test]
fn events_are_written_out_before_the_input_is_waited_for(rt: HostRuntime) -> Result<(), Fail> {
    let alloc = rt.alloc();
    let note = [0x90, 0x3C, 0x64].as_slice();
    let events = written_of_events(alloc, BufferedSource::new(alloc, note)?)?;
    assert!(rt; events == *b"\x29\x90\x3C\x64\0\0\0\0");
    let of_file = written_of_events(alloc, BufferedSource::of_file(alloc, note)?)?;
    assert!(rt; of_file == [0; 8]);
    Ok(())
}
