//! Implements the library for C: each function is a call that `include/larboardyuzu.h` declares. The calls
//! with a handle work on a `c_handles::Handle`. `docs/c-library.md` shows how to use them.
#![tactic(auto)]

mod down;
mod endpoint;
mod flags;
mod parser;
mod pure;
mod state;
mod sysex8;
mod up;
mod usb;
