// How a message is noted, and what it says about a watch.
ghost use Rattle.std.specs.Prelude.{◌≡◌, ◌≤◌, ◌+◌, length, map, position};
ghost use Rattle.std.specs.Str.{bytes_eq};
ghost use Rattle.ci_messages.specs.Positions.{part_at};
ghost use Rattle.ci_initiator.specs.Incoming.{
  incoming_of,
  inventory,
  lists as is_listed,
  report,
  said_in,
};
ghost use Rattle.ci_initiator.specs.Known.{held_by};
ghost use Rattle.ci_initiator.specs.Rows.{
  is_at as is_at_watch,
  is_from as is_from_peer,
  is_report_of as is_report_of_watch,
  noted_row,
  row_of_said,
  state_told,
  tells as tells_of_watch,
  told_row,
};

use crate::noted::Noted;
use crate::watch::{Watch, Watched};
use ci_messages::{Body, CiView, Muid, ProfileId};
use voice_messages::U4;

/// The number of bytes of a profile's id.
const ID_BYTES: usize = 5;

// Returns whether a message comes from the place of a watch.
fn is_at(watch: &Watch, group: U4, view: &CiView<'_>) -> bool
    ensures { result ≡ is_at_watch watch.now (incoming_of group view.now) }
{
    watch.group == group && watch.address == view.address
}

// Returns whether this is the peer's MUID.
fn is_from(peer: Option<Muid>, number: u32) -> bool
    ensures { result ≡ is_from_peer peer number }
{
    match peer {
        Some(muid) => number == muid.get(),
        None => false,
    }
}

// Returns whether this id is in the five bytes from position `at` on.
fn has_id_at(id: &ProfileId, ids: &[u8], at: usize) -> bool
    requires { at + 5 ≤ length ids.now }
    ensures { result ≡ bytes_eq (part_at ids.now at 5) id.now.bytes }
{
    let wanted = id.data_bytes();
    let part = &ids[at..at + ID_BYTES];
    part == wanted.as_slice()
}

// Returns whether a list of ids, each of five bytes, contains this id.
fn lists(id: &ProfileId, ids: &[u8]) -> bool
    ensures { result ≡ is_listed id.now.bytes ids.now }
{
    for k in 0..ids.len() / ID_BYTES {
        if has_id_at(id, ids, ID_BYTES * k) {
            return true;
        }
    }
    false
}

// Returns whether two ids are the same.
fn is_same_id(one: &ProfileId, other: &ProfileId) -> bool
    ensures { result ≡ bytes_eq one.now.bytes other.now.bytes }
{
    one.bytes == other.bytes
}

// Returns what a report of the profile `told` says about the profile `id`.
fn state_of_report(told: &ProfileId, on: bool, id: &ProfileId) -> Option<bool>
    ensures { result ≡ state_told id.now.bytes (report told.now.bytes on) }
{
    if is_same_id(told, id) { Some(on) } else { None }
}

// Returns what a list of enabled profiles and a list of disabled profiles say about a profile.
fn state_in_lists(on: &[u8], off: &[u8], id: &ProfileId) -> Option<bool>
    ensures { result ≡ state_told id.now.bytes (inventory on.now off.now) }
{
    if lists(id, on) {
        Some(true)
    } else if lists(id, off) {
        Some(false)
    } else {
        None
    }
}

// Returns what a message's body says about the profile with this id.
fn state(id: &ProfileId, body: &Body<'_>) -> Option<bool>
    ensures { result ≡ state_told id.now.bytes (said_in body.now) }
{
    match body {
        Body::EnabledReport { id: told, .. } => state_of_report(told, true, id),
        Body::DisabledReport { id: told, .. } => state_of_report(told, false, id),
        Body::ProfileReply { on, off } => state_in_lists(on, off, id),
        _ => None,
    }
}

// Returns what a message says about the profile of a watch.
fn told_of(watch: &Watch, group: U4, view: &CiView<'_>) -> Option<bool>
    ensures { result ≡ tells_of_watch (incoming_of group view.now) watch.now }
{
    if is_at(watch, group, view) {
        state(&watch.id, &view.body)
    } else {
        None
    }
}

// Returns the state of a watch after a message that is noted as `noted`.
fn held_after(noted: Noted, watched: &Watched, group: U4, view: &CiView<'_>) -> Watched
    ensures { result ≡ held_by noted (incoming_of group view.now) watched.now }
{
    let held = match noted {
        Noted::Gone => None,
        _ => told_of(&watched.watch, group, view).or(watched.held),
    };
    Watched {
        watch: watched.watch,
        held,
    }
}

// Updates the state of one watch.
fn hold_one(watched: &mut Watched, noted: Noted, group: U4, view: &CiView<'_>)
    ensures { watched.new ≡ held_by noted (incoming_of group view.now) watched.old }
{
    *watched = held_after(noted, watched, group, view);
}

/// Updates the state of each watch after a message that is noted as `noted`.
pub(crate) fn hold(watched: &mut [Watched], noted: Noted, group: U4, view: &CiView<'_>)
    ensures { watched.new ≡ map (held_by noted (incoming_of group view.now)) watched.old }
{
    for k in 0..watched.len() {
        hold_one(&mut watched[k], noted, group, view);
    }
}

// Returns whether a message is a report of the profile of a watch.
fn is_report_of(id: &ProfileId, group: U4, view: &CiView<'_>, watched: &Watched) -> bool
    ensures { result ≡ is_report_of_watch id.now.bytes (incoming_of group view.now) watched.now.watch }
{
    is_at(&watched.watch, group, view) && is_same_id(id, &watched.watch.id)
}

// Returns the watch whose profile a message reports.
fn watch_reported(
    watched: &[Watched],
    id: &ProfileId,
    group: U4,
    view: &CiView<'_>,
) -> Option<usize>
    ensures { result ≡ position
        (λ watched. is_report_of_watch id.now.bytes (incoming_of group view.now) watched.watch) watched.now }
{
    watched
        .iter()
        .position(|watched| is_report_of(id, group, view, watched))
}

// Returns how a report is noted, given the watch that it is about.
fn told(watch: Option<usize>) -> Noted
    ensures { result ≡ told_row watch }
{
    match watch {
        Some(k) => Noted::Told(k),
        None => Noted::Other,
    }
}

// Returns how a report from the peer is noted.
fn row_of_report(watched: &[Watched], id: &ProfileId, group: U4, view: &CiView<'_>) -> Noted
    ensures { result ≡ told_row (position (is_report_of_watch id.now.bytes (incoming_of group view.now))
        (map (λ watched. watched.watch) watched.now)) }
{
    told(watch_reported(watched, id, group, view))
}

// Returns how a message for the initiator is noted.
fn row_by_body(peer: Option<Muid>, watched: &[Watched], group: U4, view: &CiView<'_>) -> Noted
    ensures { result ≡ row_of_said peer (map (λ watched. watched.watch) watched.now)
        (incoming_of group view.now) (said_in view.now.body) }
{
    let is_from_peer = is_from(peer, view.source);
    match &view.body {
        Body::DiscoveryReply { .. } if peer.is_none() || is_from_peer => Noted::Peer,
        Body::Invalidate { target } if is_from(peer, *target) => Noted::Gone,
        Body::EnabledReport { id, .. } if is_from_peer => row_of_report(watched, id, group, view),
        Body::DisabledReport { id, .. } if is_from_peer => row_of_report(watched, id, group, view),
        Body::ProfileReply { .. } if is_from_peer => Noted::Inventory,
        _ => Noted::Other,
    }
}

/// Returns how a message is noted by an initiator that has this MUID and knows this peer.
pub(crate) fn noted_row(
    muid: Muid,
    peer: Option<Muid>,
    watched: &[Watched],
    group: U4,
    view: &CiView<'_>,
) -> Noted
    ensures { result ≡ noted_row muid peer (map (λ watched. watched.watch) watched.now)
        (incoming_of group view.now) }
{
    if view.is_from(muid) || !view.is_for(muid) {
        Noted::Other
    } else {
        row_by_body(peer, watched, group, view)
    }
}
