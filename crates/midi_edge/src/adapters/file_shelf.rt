// A shelf over files.
ghost use Rattle.std.specs.Prelude.{◌≡◌, ℕ, List, [], ◌++◌, None, Some, Err, OnOk, OnErr, IfSome, take};
ghost use Rattle.outside.specs.Outside.{HasOpenCause, Fetches, kept_bytes};

use super::{counted_opening, fault_of};
use crate::kept_text::KeptText;
use outside::{OpenFault, Shelf};
use std::fs;
use std::io::{self, Read};
use std::rt::Files;

/// A shelf of files, each named by its path. `fetch` fails for an empty path and for a folder.
///
/// `fetch` reads no more than the limit, so it ends even if the file has no end. With a limit of 0, it
/// opens the file and reads nothing. `into` grows as needed. `fetch` returns `NoMemory` if there is too
/// little memory to open the file, to read it, or to grow `into`. If a signal interrupts a read, `fetch`
/// tries again. Bytes that it read before an `Err` remain in `into`.
#[derive(Drop)]
pub struct FileShelf<R: Files> {
    rt: R,
    faults: u64,
    name: KeptText,
}

impl<R: Files> FileShelf<R> {
    /// Creates a shelf, without allocating memory. Nothing has been fetched yet, and the count of faults is
    /// 0.
    pub fn new(rt: R) -> Self
        ensures asked { ⟦<FileShelf<R> as Shelf>⟧.asked result ≡ None }
        ensures texts { ⟦<FileShelf<R> as Shelf>⟧.texts result ≡ None }
        ensures faults { ⟦<FileShelf<R> as Shelf>⟧.faults result ≡ 0 }
    {
        FileShelf {
            rt,
            faults: 0,
            name: KeptText::new(),
        }
    }

    /// Returns the number of failed calls, saturating at `u64::MAX`.
    pub fn faults(&self) -> u64
        ensures { result ≡ ⟦<FileShelf<R> as Shelf>⟧.faults self.now }
    {
        self.faults
    }
}

// Appends the first bytes from a reader, at most `limit`.
fn add_front<F: Read + Drop>(reader: F, limit: usize, into: &mut Vec<u8>) -> io::Result<()>
    ensures front { OnOk result
        (IfSome (F.remaining reader) (λ text. into.new.items ≡ into.old.items ++ take limit text)) }
    ensures keeps { (more : List ℕ) × (into.new.items ≡ into.old.items ++ more) }
{
    reader.take(limit as u64).read_to_end(into)?;
    Ok(())
}

// Appends the first bytes of a file, at most `limit`. No file has an empty path.
fn read_front<R: Files>(
    rt: &R,
    path: &str,
    limit: usize,
    into: &mut Vec<u8>,
) -> Result<(), OpenFault>
    ensures keeps { (more : List ℕ) × (into.new.items ≡ into.old.items ++ more) }
    ensures empty { path.now ≡ [] → result ≡ Err OpenFault.Failed }
{
    if path.is_empty() {
        return Err(OpenFault::Failed);
    }
    let file = fs::open(rt, path).map_err(fault_of)?;
    add_front(file, limit, into).map_err(fault_of)
}

impl<R: Files> Shelf for FileShelf<R> {
    ghost asked = { λ s. s.name };

    ghost texts = { λ _. None };

    ghost faults = { λ s. s.faults };

    fn fetch(&mut self, name: &str, limit: usize, into: &mut Vec<u8>) -> Result<(), OpenFault>
        requires { ⟦<Self as Shelf>⟧.asked self.old ≡ None }
        ensures asked { ⟦<Self as Shelf>⟧.asked self.new ≡ Some (kept_bytes name.now) }
        ensures texts { ⟦<Self as Shelf>⟧.texts self.new ≡ ⟦<Self as Shelf>⟧.texts self.old }
        ensures ok { OnOk result (Fetches None name.now limit into.old.items into.new.items) }
        ensures err { OnErr result ((more : List ℕ) × (into.new.items ≡ into.old.items ++ more)) }
        ensures cause { HasOpenCause (⟦<Self as Shelf>⟧.faults self.old)
            (⟦<Self as Shelf>⟧.faults self.new) result }
        ensures keeps { (more : List ℕ) × (into.new.items ≡ into.old.items ++ more) }
        ensures empty { name.now ≡ [] → result ≡ Err OpenFault.Failed }
    {
        self.name.keep(name);
        let answer = read_front(&self.rt, name, limit, into);
        counted_opening(answer, &mut self.faults)
    }
}
