// The error of a call that runs out of memory.
use thiserror::Error;

/// The call ran out of memory.
#[derive(Clone, Copy, Debug, PartialEq, Eq, Error)]
#[error("out of memory")]
pub struct NoMemory;
