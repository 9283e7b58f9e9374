// What an initiator notes about a message.

/// What an initiator notes about a MIDI-CI message (M2-101-UM). A message is `Other` if its source is the
/// initiator's own MUID, or if it is neither for the initiator nor for all. Any other message is the first of
/// the variants after `Other` that applies, or `Other` if none does. The order of the variants, what the
/// initiator remembers, and passing over a message from its own MUID are own rules.
#[derive(Clone, Copy, Debug, PartialEq, Eq)]
pub enum Noted {
    /// The initiator notes nothing.
    Other,
    /// The message is a Reply to Discovery, and no peer is known or the peer sent it. The source is now the
    /// peer.
    Peer,
    /// The message invalidates the peer's MUID. Now no peer is known, and nothing is known of any watch.
    Gone,
    /// The peer reports that the profile of this watch is enabled or disabled, and the initiator remembers
    /// it.
    Told(usize),
    /// The peer lists the profiles of a place. The initiator remembers watched profiles in the first list as
    /// enabled, and those in the second as disabled.
    Inventory,
}
