// The profiles, by their keys.
ghost use Rattle.std.specs.Prelude.{◌≡◌, ◌≤◌, ◌+◌, ◌*◌, ◌%◌, ◌==◌, ◌&&◌, ◌++◌};
ghost use Rattle.std.specs.Prelude.{length, true, false, is_some, IfSome};
ghost use Rattle.std.specs.Map.{set_value};
ghost use Rattle.ci_messages.specs.Fields.{IsData};
ghost use Rattle.function_blocks.specs.Profiles.{same_place};
ghost use Rattle.ci_responder.specs.declared.keys.Key.{Key};
ghost use Rattle.ci_responder.specs.ForProofs.Actions.{IsFirstOf};
ghost use Rattle.ci_responder.specs.Keys.{same_key, state_in};
ghost use Rattle.ci_responder.specs.Messages.{place_at};
ghost use Rattle.ci_responder.specs.Replies.{ids_of, listed};

use crate::keys::Key;
use ci_messages::{Address, ProfileId};
use function_blocks::Place;
use indexmap::IndexMap;
use small_types::ShortList;
use voice_messages::U4;

/// Returns the place of an address (M2-101-UM, device id).
pub(crate) fn place_of(address: Address, group: U4) -> Place
    ensures { result ≡ place_at address group }
{
    match address {
        Address::Channel(channel) => Place::Channel(group, channel),
        Address::Group => Place::Group(group),
        Address::Block => Place::Function,
    }
}

/// Returns whether a profile is enabled, or `None` exactly if the setup doesn't name the profile.
pub(crate) fn state(states: &IndexMap<Key, bool>, key: &Key) -> Option<bool>
    ensures { result ≡ state_in states.now.entries key.now }
{
    states.get(key).copied()
}

/// Returns the number of the first profile with this key, counted from 0, or `None` exactly if the setup
/// doesn't name the profile.
pub(crate) fn number_of(states: &IndexMap<Key, bool>, key: &Key) -> Option<usize>
    ensures named { is_some result ≡ is_some (state_in states.now.entries key.now) }
    ensures first { IfSome result (λ number. IsFirstOf key.now states.now.entries number) }
{
    states.get_index_of(key)
}

/// Enables or disables the profile of this number. All other profiles stay as they are.
pub(crate) fn set(states: &mut IndexMap<Key, bool>, number: usize, on: bool)
    requires { (key : Key) × IsFirstOf key states.old.entries number }
    ensures value { (key : Key) → IsFirstOf key states.old.entries number →
        states.new.entries ≡ set_value (same_key key) states.old.entries on }
    ensures count { length states.new.entries ≡ length states.old.entries }
{
    states[number] = on;
}

// Returns whether a profile belongs to this block and applies at this place.
fn is_at(key: &Key, block: u8, place: &Place) -> bool
    ensures { result ≡ (key.now.block == block && same_place key.now.place place.now) }
{
    key.block == block && key.place == *place
}

/// The ids of the profiles at one place, each of five bytes.
#[derive(Debug, PartialEq, Eq, Drop)]
pub(crate) struct Ids {
    pub(crate) on: ShortList<u8, 320>,
    pub(crate) off: ShortList<u8, 320>,
}

// Adds the id of a profile if the profile belongs to this block and applies at this place.
fn add_listed(ids: &mut Ids, key: &Key, on: bool, block: u8, place: &Place)
    requires { length ids.old.on + length ids.old.off + 5 ≤ 320 }
    ensures on { ids.new.on ≡ ids.old.on ++ listed true block place.now (key.now, on) }
    ensures off { ids.new.off ≡ ids.old.off ++ listed false block place.now (key.now, on) }
    ensures few { length ids.new.on + length ids.new.off ≤ length ids.old.on + length ids.old.off + 5 }
    ensures on_fives { length ids.old.on % 5 ≡ 0 → length ids.new.on % 5 ≡ 0 }
    ensures off_fives { length ids.old.off % 5 ≡ 0 → length ids.new.off % 5 ≡ 0 }
    ensures on_data { IsData ids.old.on → IsData ids.new.on }
    ensures off_data { IsData ids.old.off → IsData ids.new.off }
{
    if !is_at(key, block, place) {
        return;
    }
    let id = key.id.data_bytes();
    if on {
        ids.on.extend(&id);
    } else {
        ids.off.extend(&id);
    }
}

/// Returns the ids of the profiles of a block and place, those that are enabled and those that are disabled,
/// each in the order of the setup.
pub(crate) fn ids_at(states: &IndexMap<Key, bool>, block: u8, place: &Place) -> Ids
    requires { length states.now.entries ≤ 64 }
    ensures on { result.on ≡ ids_of true block place.now states.now.entries }
    ensures off { result.off ≡ ids_of false block place.now states.now.entries }
    ensures few { length result.on + length result.off ≤ 320 }
    ensures on_fives { length result.on % 5 ≡ 0 }
    ensures off_fives { length result.off % 5 ≡ 0 }
    ensures on_data { IsData result.on }
    ensures off_data { IsData result.off }
{
    let mut ids = Ids {
        on: ShortList::new(),
        off: ShortList::new(),
    };
    let mut k = 0;
    while let Some((key, on)) = states.get_index(k) {
        add_listed(&mut ids, key, *on, block, place);
        k += 1;
    }
    ids
}
