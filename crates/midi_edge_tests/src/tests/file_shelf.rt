// What a shelf over files fetches.
use super::fetching::fetches;
use super::folders::new_folder;
use super::is_same;
use super::scripted::{Log, Scripted, ScriptedFiles, Step};
use midi_edge::FileShelf;
use outside::{OpenFault, Shelf};
use std::fs;
use std::io::ErrorKind;
use std::test::Fail;

// Whether a new shelf answers so, and these bytes stand then.
fn is_row(
    rt: &HostRuntime,
    name: &str,
    limit: usize,
    answer: Result<(), OpenFault>,
    bytes: &[u8],
) -> Result<bool, Fail> {
    let mut into = Vec::from_slice(rt.alloc(), b"> ")?;
    let mut shelf = FileShelf::new(rt);
    let fetched = fetches(&mut shelf, name, limit, &mut into, answer, bytes);
    Ok(fetched && shelf.faults() == u64::from(answer.is_err()))
}

// Whether each row of a file of nine bytes is so, and of what isn't a file.
fn are_rows(rt: &HostRuntime, folder: &str, file: &str, missing: &str) -> Result<[bool; 6], Fail> {
    fs::write(rt, file, "nine long")?;
    let failed = Err(OpenFault::Failed);
    Ok([
        is_row(rt, file, 4, Ok(()), b"> nine")?,
        is_row(rt, file, 9, Ok(()), b"> nine long")?,
        is_row(rt, file, 100, Ok(()), b"> nine long")?,
        is_row(rt, missing, 4, failed, b"> ")?,
        is_row(rt, folder, 4, failed, b"> ")?,
        is_row(rt, "", 4, failed, b"> ")?,
    ])
}

#[test]
fn a_file_is_fetched_up_to_the_limit(rt: HostRuntime) -> Result<(), Fail> {
    let folder = new_folder(&rt, "shelf")?;
    let file = format!(in rt.alloc(); "{folder}/text")?;
    let missing = format!(in rt.alloc(); "{folder}/missing")?;
    let rows = are_rows(&rt, folder.as_str(), file.as_str(), missing.as_str())?;
    fs::remove_dir_all(&rt, folder.as_str())?;
    is_same(&rt, &rows, &[true; 6]);
    Ok(())
}

#[test]
fn no_more_than_the_limit_is_read(rt: HostRuntime) {
    let mut shelf = FileShelf::new(&rt);
    let mut into = Vec::new(rt.alloc());
    let answer = shelf.fetch("/dev/zero", 100_000, &mut into);
    assert!(rt; answer == Ok(()) && into.len() == 100_000);
}

// What a fetch after two bytes answers if the file opens so.
pub(super) fn fetched(
    files: ScriptedFiles<'_>,
    limit: usize,
    into: &mut Vec<u8>,
) -> Result<(), OpenFault> {
    into.truncate(2);
    let mut shelf = FileShelf::new(files);
    shelf.fetch("text", limit, into)
}

#[test]
fn what_was_read_before_a_fault_stays(rt: HostRuntime) -> Result<(), Fail> {
    let steps = [
        Step::Moves(2),
        Step::Fails(ErrorKind::Interrupted),
        Step::Moves(1),
        Step::Fails(ErrorKind::BrokenPipe),
    ];
    let mut into = Vec::from_slice(rt.alloc(), b"> ")?;
    for (limit, answer) in [(3, Ok(())), (4, Err(OpenFault::Failed))] {
        let log = Log::new();
        let files = ScriptedFiles::Opens(Scripted::new(&steps, b"", &log));
        let answered = fetched(files, limit, &mut into);
        assert!(rt; answered == answer && into.as_slice() == b"> rrr".as_slice());
    }
    Ok(())
}
