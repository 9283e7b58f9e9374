// The profiles that an initiator watches.
ghost use Rattle.std.specs.Prelude.{◌≡◌, ◌≤◌, length};
ghost use Rattle.std.specs.List.{list_any};
ghost use Rattle.ci_initiator.specs.Known.{are_different, same_watch};

use ci_messages::{Address, ProfileId};
use voice_messages::U4;

/// A peer's profile that an initiator watches: the address on a group, and the id (M2-101-UM, profile
/// configuration).
#[derive(Clone, Copy, Debug, PartialEq, Eq)]
pub struct Watch {
    /// The group on which requests for the profile are sent and answers about it arrive, 0 to 15.
    pub group: U4,
    /// The channel, the group or the function block that has the profile (M2-101-UM, device id).
    pub address: Address,
    /// The profile's id (M2-101-UM, profile id).
    pub id: ProfileId,
}

/// A watch and its state.
#[derive(Clone, Copy, Debug, PartialEq, Eq)]
pub struct Watched {
    pub watch: Watch,
    /// Whether the peer last said that the profile is enabled. `None` if the peer has said nothing about it.
    pub held: Option<bool>,
}

/// Returns whether these watches, at most 64, are all different, as `Initiator::new` requires (own rule).
pub fn watches_differ(watches: &[Watch]) -> bool
    requires { length watches.now ≤ 64 }
    ensures { result ≡ are_different watches.now }
{
    match watches {
        [] => true,
        [first, rest @ ..] => !is_among(first, rest) && watches_differ(rest),
    }
}

// Returns whether a watch is one of these.
fn is_among(watch: &Watch, others: &[Watch]) -> bool
    ensures { result ≡ list_any (same_watch watch.now) others.now }
{
    others.iter().any(|other| is_same(watch, other))
}

// Returns whether two watches have the same group, address and id.
fn is_same(one: &Watch, other: &Watch) -> bool
    ensures { result ≡ same_watch one.now other.now }
{
    one.group == other.group && one.address == other.address && one.id.bytes == other.id.bytes
}
