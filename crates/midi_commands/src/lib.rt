//! Runs the commands of the program with the objects that it is handed.
//!
//! Start with [`run`], which does what the arguments of a command line ask for and returns a [`Status`].
//! Afterwards [`finish`] writes out what is still buffered and returns the exit code.
#![tactic(auto)]

mod commands;
mod ending;
mod last_line;
pub mod laws;
mod perform;
mod self_test_line;
mod setups;
mod status;

pub use crate::commands::run;
pub use crate::ending::{finish, unread_words};
pub use crate::status::Status;
