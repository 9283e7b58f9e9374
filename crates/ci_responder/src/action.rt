// The action of a function block on a message.
use crate::heard::Heard;
use ci_messages::ProfileId;

/// The action of a function block on a message that it hears (M2-101-UM).
#[derive(Clone, Copy, Debug, PartialEq, Eq)]
pub(crate) enum Action {
    /// Does nothing more. The message is heard as this.
    PassOver(Heard),
    /// Invalidates the block's own MUID, by a message to all, and takes the next one.
    Invalidate,
    /// Takes the next MUID.
    Move,
    /// Replies with a Discovery Reply that has the device's identity and the inquiry's output path id, 0
    /// to 127.
    TellDevice { path: u8 },
    /// Replies with the product instance id.
    TellProductId,
    /// Replies with the profiles that are enabled and those that are disabled.
    TellProfiles,
    /// Enables or disables a profile, and reports it.
    Switch(Switch),
    /// Replies with a NAK.
    Nak,
}

/// A request to enable or disable a profile that the setup names.
#[derive(Clone, Copy, Debug, PartialEq, Eq)]
pub(crate) struct Switch {
    /// The number of the profile, counted from 0 in the setup's order.
    pub(crate) number: usize,
    /// The id of the profile.
    pub(crate) id: ProfileId,
    /// Whether the profile is to be enabled.
    pub(crate) on: bool,
}
