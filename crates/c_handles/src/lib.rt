//! Implements the handles of the library for C. A handle is a struct owned by the caller, which contains the
//! address of a heap block that only the library uses.
//!
//! Start with [`Handle`], which is closed or holds an [`Engine`].
#![tactic(auto)]

pub mod engine;
pub mod handle;
pub mod parted;

pub use crate::engine::Engine;
pub use crate::handle::Handle;
