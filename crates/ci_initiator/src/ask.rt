// The requests of an initiator.

/// A request that an initiator sends to a peer. A number is the number of a watch, counted from 0.
#[derive(Clone, Copy, Debug, PartialEq, Eq)]
pub enum Ask {
    /// Discovery: asks all devices who is there.
    Discover,
    /// Profile Inquiry: asks the peer which profiles there are at the address of a watch.
    Inquire(usize),
    /// Set Profile On: asks the peer to enable the profile of a watch.
    On(usize),
    /// Set Profile Off: asks the peer to disable the profile of a watch.
    Off(usize),
}
