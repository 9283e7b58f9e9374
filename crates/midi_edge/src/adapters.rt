// Adapters that make readers, writers, folders and files into the objects of `outside`. They show no
// content.
ghost use Rattle.std.specs.Prelude.{◌≡◌, ◌≢◌, ◌≤◌, Ok, IsErr, MatchResult};
ghost use Rattle.std.specs.IoError.{error_kind};
ghost use Rattle.outside.specs.Outside.{HasCause, HasOpenCause, Rose};

mod buffered_source;
mod file_shelf;
mod folder_lanes;
mod read_source;
mod room;
mod write_sink;

pub use crate::adapters::buffered_source::BufferedSource;
pub use crate::adapters::file_shelf::FileShelf;
pub use crate::adapters::folder_lanes::FolderLanes;
pub use crate::adapters::read_source::ReadSource;
pub use crate::adapters::write_sink::WriteSink;
use outside::{Failed, OpenFault};
use std::io::{self, ErrorKind};

// The capacity of an output buffer, in bytes.
const CAPACITY: usize = 8192;

// Adds a fault to the count, which saturates at `u64::MAX`.
fn count_fault(faults: &mut u64)
    ensures later { faults.old ≤ faults.new }
    ensures rose { Rose faults.old faults.new }
{
    *faults = faults.saturating_add(1);
}

// Turns the result of a call into that of an object, and counts a fault if the call failed.
fn counted<T, E: Drop>(answer: Result<T, E>, faults: &mut u64) -> Result<T, Failed>
    ensures value { MatchResult result (λ x. answer ≡ Ok x) (λ _. IsErr answer) }
    ensures cause { HasCause faults.old faults.new result }
{
    match answer {
        Ok(value) => Ok(value),
        Err(_) => {
            count_fault(faults);
            Err(Failed)
        }
    }
}

// Returns the result of an opening, and counts a fault if it failed for a reason other than out of memory.
fn counted_opening<T>(answer: Result<T, OpenFault>, faults: &mut u64) -> Result<T, OpenFault>
    ensures answer { result ≡ answer }
    ensures cause { HasOpenCause faults.old faults.new result }
{
    if let Err(OpenFault::Failed) = &answer {
        count_fault(faults);
    }
    answer
}

// Returns why a file couldn't be opened, created or read.
fn fault_of(error: io::Error) -> OpenFault
    ensures memory { error_kind error ≡ ErrorKind.OutOfMemory → result ≡ OpenFault.NoMemory }
    ensures other { error_kind error ≢ ErrorKind.OutOfMemory → result ≡ OpenFault.Failed }
{
    match error.kind() {
        ErrorKind::OutOfMemory => OpenFault::NoMemory,
        _ => OpenFault::Failed,
    }
}
