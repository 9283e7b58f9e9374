//! Joins the System Exclusive messages of sixteen groups, each from the packets of its group, and cuts a
//! payload into packets.
//!
//! Start with [`Groups`]: `new` allocates, and `feed` accepts one part and returns a [`Fed`]. [`part`] cuts
//! a payload.
#![tactic(auto)]

mod buffer;
pub mod cutting;
pub mod fed;
pub mod groups;
pub mod laws;
pub mod reserved;

pub use crate::cutting::{cut, part};
pub use crate::fed::Fed;
pub use crate::groups::Groups;
pub use crate::laws::{
    cut_payload_is_joined, fed_parts_are_the_definition, parts_of_one_group,
    payload_of_any_size_is_joined,
};
