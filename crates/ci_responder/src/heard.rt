// The ways in which a message is heard.

/// What a responder does with a MIDI-CI message (M2-101-UM): the first variant that applies. The order is an
/// own rule.
#[derive(Clone, Copy, Debug, PartialEq, Eq)]
pub enum Heard {
    /// No active function block with MIDI-CI has the group. Nothing is done.
    NoBlock,
    /// The block has used up its MUIDs. Nothing is done.
    Silent,
    /// The message's source is the block's own MUID. The block invalidates that MUID, and takes the next of
    /// its list or becomes silent.
    Collision,
    /// The message has version 00 of the message format. Nothing is done.
    OldVersion,
    /// The destination is neither the block's MUID nor broadcast, or the message invalidates another MUID.
    /// Nothing is done.
    NotOurs,
    /// The message invalidates the block's MUID. The block takes the next of its list or becomes silent,
    /// without a reply.
    Moved,
    /// The message is a reply, a report, an ACK or a NAK: sub-ids 21, 24 to 27, 29, 71, 73, 7D and 7F.
    /// Nothing is done. The sub-ids of Process Inquiry (41, 43 and 44) aren't among them: such messages are
    /// `Nak` if no earlier variant applies (own rule).
    Report,
    /// The message is sent to broadcast and isn't Discovery. Nothing is done.
    Broadcast,
    /// The message is an inquiry that the block answers, or a request to enable or disable a profile that the
    /// setup names at the message's address.
    Answered,
    /// The message is Property Exchange, 30 to 3F, whose bytes aren't read further. Nothing is done.
    Passed,
    /// Anything else. The block sends a NAK.
    Nak,
}
