//! Runs the command `endpoint` over a whole recording of a peer, for the program and for others: answers it
//! as an endpoint.
//!
//! Start with [`EndpointRun`], whose `new` takes a setup and allocates, and [`run_endpoint`], which writes
//! the replies and the lines.
#![tactic(auto)]

mod endpoint;
pub mod laws;
mod lines;
mod replies;

pub use crate::endpoint::{EndpointRun, run_endpoint};
