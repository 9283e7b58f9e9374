// The words of the program: which are commands, and what their options do.
use command_rows::words_of;
use midi_commands::{Status, run};
use midi_edge::{FolderLanes, MemShelf, MemSink, MemSource};
use std::fs;
use std::test::Fail;

#[test]
fn an_empty_folder_cannot_be_opened(rt: HostRuntime) -> Result<(), Fail> {
    let alloc = rt.alloc();
    let words = words_of(alloc, "translate down --folder ''").map_err(Fail::new)?;
    let mut input = MemSource::new(Vec::new(alloc), Vec::new(alloc), Vec::new(alloc));
    let mut lanes = FolderLanes::new(rt.clone()?);
    let mut output = MemSink::new(alloc, 64, Vec::new(alloc))?;
    let mut notes = MemSink::new(alloc, 64, Vec::new(alloc))?;
    let mut shelf = MemShelf::new(Vec::new(alloc), Vec::new(alloc));
    let status = run(
        alloc,
        &words,
        &mut input,
        &mut lanes,
        &mut output,
        &mut notes,
        &mut shelf,
    );
    assert_eq!(rt; status, Status::LaneFault);
    assert_eq!(rt; notes.held(), b"lane write failed\n".as_slice());
    assert!(rt; fs::read(&rt, "group-00.midi1").is_err());
    assert!(rt; fs::read(&rt, "/group-00.midi1").is_err());
    Ok(())
}
