//! Tracks the state of a receiver, updated with each message of a MIDI 1.0 stream or each packet of a
//! recording.
//!
//! Start with [`VoiceState`]: `new` allocates, `take_message` and `take_packet` update the state, and
//! `facts` returns it as a list of [`Fact`].
#![tactic(auto)]

mod acts;
mod channel;
pub mod channel_facts;
mod control;
pub mod fact;
mod group;
pub mod not_kept;
mod note_act;
mod param_map;
mod params;
pub mod running;
pub mod state_laws;
mod table;
mod voice;
mod width;

pub use crate::channel_facts::ChannelFacts;
pub use crate::fact::{Fact, FactAddress};
pub use crate::not_kept::NotKept;
pub use crate::running::VoiceState;
pub use midi_meaning::{
    BadStep, ControlRole, DirectControls, Kind, Listed, Registers, is_null_param,
};
