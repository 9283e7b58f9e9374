// What comes after a run: what is gathered is written out, and the exit code.
use midi_commands::{Status, finish, unread_words};
use midi_edge::{FolderLanes, WriteSink};
use outside::{Lanes, Sink};
use pass_loop::Reason;
use small_types::U4;
use std::io::ErrorKind;
use std::os::unix::fs as unix_fs;
use std::process::Abort;
use std::test::Fail;
use std::{fs, process};

// A folder of its own for a test.
fn new_folder(rt: &HostRuntime, name: &str) -> Result<String, Fail> {
    let id = process::id(rt.process());
    let folder = format!(in rt.alloc(); "/tmp/midi_tool_{name}_{id}")?;
    let _ = fs::remove_dir_all(rt, folder.as_str());
    fs::create_dir(rt, folder.as_str())?;
    Ok(folder)
}

// The path of a file in a folder.
fn path_in(rt: &HostRuntime, folder: &str, name: &str) -> Result<String, Fail> {
    Ok(format!(in rt.alloc(); "{folder}/{name}")?)
}

// Ends a run of this status that has put a piece of lane 15 in the folder, a line in the output and one in
// the notes, in these files.
fn finished(
    rt: &HostRuntime,
    status: Status,
    folder: &str,
    output: &str,
    notes: &str,
) -> Result<u8, Fail> {
    let mut lanes = FolderLanes::new(rt.clone()?);
    lanes.begin(folder)?;
    lanes.put(U4::low_bits(15), b"fifteen")?;
    let mut output = WriteSink::new(fs::File::create(rt, output)?);
    output.put(b"a line")?;
    let mut notes = WriteSink::new(fs::File::create(rt, notes)?);
    notes.put(b"a note\n")?;
    Ok(finish(status, &mut lanes, &mut output, &mut notes))
}

fn file_holds(rt: &impl Abort, files: &HostRuntime, path: &str, text: &str) -> Result<(), Fail> {
    assert_eq!(rt;
        fs::read(files, path)?.as_slice(),
        text.as_bytes(),
        "{path}"
    );
    Ok(())
}

const REFUSED: Status = Status::Refused {
    reason: Reason::HighBit,
    offset: 8,
};

const CODES: [(Status, u8); 11] = [
    (Status::Done, 0),
    (REFUSED, 1),
    (Status::ReadFault, 2),
    (Status::LaneFault, 3),
    (Status::OutputFault, 4),
    (Status::NoteFault, 5),
    (Status::ShelfFault, 6),
    (Status::Usage, 7),
    (Status::SetupSyntax, 8),
    (Status::SetupField(14), 9),
    (Status::NoMemory, 10),
];

// If everything can be written, what is gathered is written out
// whatever the status, which gives its own exit code.
#[test]
fn each_status_has_its_exit_code(rt: HostRuntime) -> Result<(), Fail> {
    for (status, code) in CODES {
        all_is_written(&rt, &rt, status, code)?;
    }
    Ok(())
}

fn all_is_written(
    rt: &impl Abort,
    files: &HostRuntime,
    status: Status,
    code: u8,
) -> Result<(), Fail> {
    let folder = new_folder(files, "exit")?;
    let lane = path_in(files, folder.as_str(), "group-15.midi1")?;
    let output = path_in(files, folder.as_str(), "output")?;
    let notes = path_in(files, folder.as_str(), "notes")?;
    let found = finished(
        files,
        status,
        folder.as_str(),
        output.as_str(),
        notes.as_str(),
    )?;
    assert_eq!(rt; found, code);
    file_holds(rt, files, lane.as_str(), "fifteen")?;
    file_holds(rt, files, output.as_str(), "a line")?;
    file_holds(rt, files, notes.as_str(), "a note\n")?;
    fs::remove_dir_all(files, folder.as_str())?;
    Ok(())
}

// Each row has the objects that write to a full place, and the exit code and the last line of a run that hadn't
// ended by a fault.
const FULL_PLACES: &str = "\
lanes 3 lane write failed
output 4 output write failed
lanes,output 3 lane write failed
notes 5
output,notes 4";

// A full place gives its own code and line whatever the status was, unless that is a fault: then both are
// unchanged.
#[test]
fn a_full_place_is_told(rt: HostRuntime) -> Result<(), Fail> {
    for row in FULL_PLACES.lines() {
        let (full, told) = row.split_once(' ').unwrap_or((row, ""));
        let (code, line) = told.split_once(' ').unwrap_or((told, ""));
        for (status, own) in CODES {
            match own {
                2..=6 => is_told(&rt, &rt, full, status, own, "")?,
                _ => is_told(&rt, &rt, full, status, code.parse::<u8>()?, line)?,
            }
        }
    }
    Ok(())
}

// A run of this status whose objects write to these full places ends
// with this code, and this line if the notes take one.
fn is_told(
    rt: &impl Abort,
    files: &HostRuntime,
    full: &str,
    status: Status,
    code: u8,
    line: &str,
) -> Result<(), Fail> {
    let folder = new_folder(files, "full")?;
    let output = if full.contains("output") {
        "/dev/full"
    } else {
        "/dev/null"
    };
    if full.contains("lanes") {
        let lane = path_in(files, folder.as_str(), "group-15.midi1")?;
        unix_fs::symlink(files, "/dev/full", lane.as_str())?;
    }
    if full.contains("notes") {
        let found = finished(files, status, folder.as_str(), output, "/dev/full")?;
        assert_eq!(rt; found, code, "{full}");
    } else {
        let notes = path_in(files, folder.as_str(), "notes")?;
        let found = finished(files, status, folder.as_str(), output, notes.as_str())?;
        assert_eq!(rt; found, code, "{full}");
        notes_end_with(rt, files, notes.as_str(), line)?;
    }
    fs::remove_dir_all(files, folder.as_str())?;
    Ok(())
}

// Whether the notes are the one that was put, and this line after it.
fn notes_end_with(
    rt: &impl Abort,
    files: &HostRuntime,
    path: &str,
    line: &str,
) -> Result<(), Fail> {
    if line.is_empty() {
        return file_holds(rt, files, path, "a note\n");
    }
    let text = format!(in files.alloc(); "a note\n{line}\n")?;
    file_holds(rt, files, path, text.as_str())
}

// Words that are no UTF-8 are told the usage.
#[test]
fn words_that_cannot_be_read_are_told(rt: HostRuntime) -> Result<(), Fail> {
    let usage = "usage: translate, show, endpoint or selftest\n";
    unread_is_told(&rt, &rt, ErrorKind::InvalidData, 7, usage)?;
    unread_is_told(&rt, &rt, ErrorKind::OutOfMemory, 10, "no memory\n")
}

fn unread_is_told(
    rt: &impl Abort,
    files: &HostRuntime,
    kind: ErrorKind,
    code: u8,
    text: &str,
) -> Result<(), Fail> {
    let folder = new_folder(files, "words")?;
    let told = path_in(files, folder.as_str(), "notes")?;
    let mut lanes = FolderLanes::new(files.clone()?);
    let mut output = WriteSink::new(fs::File::create(files, "/dev/null")?);
    let mut notes = WriteSink::new(fs::File::create(files, told.as_str())?);
    let status = unread_words(kind, &mut notes);
    assert_eq!(rt; finish(status, &mut lanes, &mut output, &mut notes), code);
    file_holds(rt, files, told.as_str(), text)?;
    fs::remove_dir_all(files, folder.as_str())?;
    Ok(())
}
