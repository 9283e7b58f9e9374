//! Runs the program with the process's own arguments, input, folder, output, notes and files: translates
//! between Universal MIDI Packets and MIDI 1.0 streams, and shows both.
#![tactic(auto)]

use midi_commands::{finish, run, unread_words};
use midi_edge::{BufferedSource, FileShelf, FolderLanes, WriteSink};
use small_types::NoMemory;
use std::fs::{self, File};
use std::io::{ErrorKind, Stdin};
use std::process::ExitCode;
use std::{env, io};

// Returns the arguments of the command line, without the program's name.
fn words(rt: &HostRuntime) -> io::Result<Vec<String>> {
    Ok(env::args(rt)?.skip(1).collect(rt.alloc())?)
}

// Opens the root of the files, if that is possible.
fn open_root(rt: &HostRuntime) -> Option<File> {
    File::open(rt, "/").ok()
}

// Opens standard input. A read of it may wait, unless it is a file.
fn open_input(rt: &HostRuntime) -> Result<BufferedSource<Stdin>, NoMemory> {
    match fs::metadata(rt, "/dev/stdin") {
        Ok(about) if about.is_file() => BufferedSource::of_file(rt.alloc(), rt.stdin()),
        _ => BufferedSource::new(rt.alloc(), rt.stdin()),
    }
}

fn main(rt: HostRuntime) -> io::Result<ExitCode> {
    // An open folder can be neither read nor written. If standard streams are closed, these folders get their
    // numbers. Then any use of such a stream fails, and no output file can be opened in its place.
    let _in_place_of_closed = [open_root(&rt), open_root(&rt), open_root(&rt)];
    let alloc = rt.alloc();
    let mut lanes = FolderLanes::new(rt.clone()?);
    let mut output = WriteSink::new(rt.stdout());
    let mut notes = WriteSink::new(rt.stderr());
    let mut shelf = FileShelf::new(rt.clone()?);
    let status = match (words(&rt), open_input(&rt)) {
        (Ok(words), Ok(mut input)) => run(
            alloc,
            &words,
            &mut input,
            &mut lanes,
            &mut output,
            &mut notes,
            &mut shelf,
        ),
        (Ok(_), Err(NoMemory)) => unread_words(ErrorKind::OutOfMemory, &mut notes),
        (Err(error), _) => unread_words(error.kind(), &mut notes),
    };
    let code = finish(status, &mut lanes, &mut output, &mut notes);
    Ok(ExitCode::from(code))
}
