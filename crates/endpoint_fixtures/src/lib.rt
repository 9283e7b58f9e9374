//! What the tests of an endpoint share: the text of its setup, and the MIDI-CI messages that a peer sends it,
//! byte by byte from the tables of M2-101-UM. Only tests crates use it.
#![tactic(auto)]

mod messages;
mod setup_text;

pub use messages::{
    BROADCAST, CiMessage, DISCOVERY_REPLY, FIRST_MUID, MuidBytes, OTHER_PROFILE, PEER, PROFILE,
    SECOND_MUID, framed, profile_id,
};
pub use setup_text::DEMO_SETUP;
