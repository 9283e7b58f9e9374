// The block that a message is for.
ghost use Rattle.std.specs.Prelude.{◌<◌};

use ci_messages::Muid;
use small_types::U4;

/// The function block that a message is for, with the block's MUID in force, and the group on which the block
/// replies.
#[derive(Clone, Copy, Debug, PartialEq, Eq)]
pub(crate) struct Owner {
    pub(crate) group: U4,
    /// The number of the block, 0 to 31.
    pub(crate) block: u8,
    /// The block's MUID, which isn't reserved.
    pub(crate) muid: Muid,
    ghost few_blocks: { block < 32 },
    ghost not_reserved: { muid < 0x0FFFFF00 },
}
