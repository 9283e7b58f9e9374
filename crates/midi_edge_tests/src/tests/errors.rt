// The texts of the errors.
use super::is_same;
use outside::{Failed, OpenFault, ReadStop};
use small_types::NoMemory;
use std::alloc::Global;
use std::fmt::Display;

// Whether the error is shown so.
fn shows(alloc: Global, error: &impl Display, text: &str) -> bool {
    match format!(in alloc; "{error}") {
        Ok(shown) => shown.as_str() == text,
        Err(_) => false,
    }
}

#[test]
fn each_error_has_its_text(rt: HostRuntime) {
    let alloc = rt.alloc();
    let stops = [
        shows(alloc, &ReadStop::Read(Failed), "a read or a write failed"),
        shows(
            alloc,
            &ReadStop::Truncated(4096),
            "the input ends within what begins at byte 4096",
        ),
        shows(
            alloc,
            &ReadStop::TooLong,
            "the input is longer than the limit",
        ),
    ];
    let others = [
        shows(alloc, &Failed, "a read or a write failed"),
        shows(alloc, &NoMemory, "out of memory"),
        shows(
            alloc,
            &OpenFault::Failed,
            "the folder or file cannot be opened",
        ),
        shows(alloc, &OpenFault::NoMemory, "out of memory"),
    ];
    is_same(&rt, &stops, &[true; 3]);
    is_same(&rt, &others, &[true; 4]);
}
