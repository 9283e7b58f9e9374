// A function block in the form in which the responder stores it.
use small_types::ShortList;

/// A function block of the setup, with the fields that MIDI-CI needs.
#[derive(Debug, PartialEq, Eq, Drop)]
pub struct CiBlock {
    /// Whether the block has MIDI-CI: it is active, and the setup gives it a version of MIDI-CI.
    pub has_ci: bool,
    /// The first group, 0 to 15.
    pub first: u8,
    /// The number of groups. `first + count` is at most 16.
    pub count: u8,
    /// The MUIDs that the block uses one after the other, each below 0FFFFF00.
    pub muids: ShortList<u32, 16>,
    /// How many of the MUIDs are used up.
    pub spent: usize,
}
