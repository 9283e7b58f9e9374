//! Defines the meaning of the bytes of a MIDI 1.0 stream and of the packets of a group, and when the two
//! mean the same. It also defines which packets and bytes are translated, listed or refused, and how each
//! becomes the other.
//!
//! Start with the laws `plain_pairs_are_a_translation` in [`laws`] and `raised_packets_mean_the_bytes` in
//! [`up_laws`]. A translator uses [`Registers`], the selected bank and parameter of a channel, and
//! [`ControlRole`], the role of a control change.
#![tactic(auto)]

pub mod compact_rows;
pub mod direct_controls;
pub mod laws;
pub mod lines;
pub mod meaning_rows;
pub mod paired_rows;
pub mod registers;
pub mod role;
pub mod style_laws;
pub mod up_laws;
pub mod up_rows;

pub use crate::direct_controls::DirectControls;
pub use crate::lines::{kind_of_cut, kind_of_open};
pub use crate::registers::{Registers, is_null_param};
pub use crate::role::ControlRole;
pub use listing_terms::{BadStep, Kind, Listed, listed};
