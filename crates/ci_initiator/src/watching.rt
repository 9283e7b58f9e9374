// Chooses the MUID and the watches of an initiator from a setup.
ghost use Rattle.std.specs.Prelude.{◌≡◌, ◌≤◌, ◌∷◌, ◌++◌, [], length, slice_get, true, IfOk, OnOk};
ghost use Rattle.ci_initiator.specs.Known.{are_different};
ghost use Rattle.ci_initiator.specs.Watching.{
  HasIds,
  IsLeastUnnamed,
  first_group as first_group_watched,
  first_group_of as first_group_of_block,
  first_unnamed as first_unnamed_of,
  has_ci_at as has_ci_at_number,
  is_named as is_named_by,
  names_muid,
  own_muid as own_muid_of,
  watch_at as watch_at_place,
  watch_where,
  watched_block as watched_block_of,
  watches_of_setup,
};

use crate::watch::Watch;
use ci_messages::{Address, ProfileId};
use function_blocks::{Block, Place, Profile, Setup};
use small_types::NoMemory;
use std::alloc::Global;
use voice_messages::{U4, U7};

/// The most MUIDs that a block names.
const MOST_MUIDS: u32 = 16;

// Returns whether a block names a MUID.
fn names(block: &Block, muid: u32) -> bool
    ensures { result ≡ names_muid muid block.now }
{
    block.muids.as_slice().iter().any(|named| *named == muid)
}

// Returns whether a block of the setup names a MUID.
fn is_named(setup: &Setup, muid: u32) -> bool
    ensures { result ≡ is_named_by setup.now.blocks muid }
{
    setup.blocks().iter().any(|block| names(block, muid))
}

// Returns the first number from 1 on that the setup doesn't name, after at most `tries` tries.
fn first_unnamed(setup: &Setup, tries: u32) -> u32
    requires { tries ≤ 512 }
    ensures value { result ≡ first_unnamed_of setup.now.blocks tries 1 }
    ensures few { result ≤ 513 }
{
    for k in 0..tries {
        if !is_named(setup, k + 1) {
            return k + 1;
        }
    }
    tries + 1
}

/// Returns the least number from 1 on that the setup doesn't name as a MUID.
pub(crate) fn own_muid(setup: &Setup) -> u32
    ensures value { result ≡ own_muid_of setup.now.blocks }
    ensures least { IsLeastUnnamed setup.now.blocks result }
    ensures few { result ≤ 513 }
{
    let count = u32::from(setup.block_count());
    first_unnamed(setup, MOST_MUIDS * count)
}

// Returns whether the block with this number has MIDI-CI.
fn has_ci_at(setup: &Setup, number: u8) -> bool
    ensures { result ≡ has_ci_at_number setup.now.blocks number }
{
    match setup.block(number) {
        Some(block) => block.has_ci(),
        None => false,
    }
}

// Returns the block of the first profile whose block has MIDI-CI.
fn watched_block(setup: &Setup) -> Option<u8>
    ensures { result ≡ watched_block_of setup.now.blocks setup.now.profiles }
{
    for profile in setup.profiles() {
        if has_ci_at(setup, profile.block) {
            return Some(profile.block);
        }
    }
    None
}

// Returns the first group of the block with this number, or 0 if there is no such block.
fn first_group_of(setup: &Setup, number: u8) -> U4
    ensures { result ≡ first_group_of_block (slice_get setup.now.blocks number) }
{
    match setup.block(number) {
        Some(block) => U4::low_bits(u32::from(block.first)),
        None => U4::low_bits(0),
    }
}

// Returns the first group of the watched block, or 0 if there is no such block.
fn first_group(setup: &Setup, watched: Option<u8>) -> U4
    ensures { result ≡ first_group_watched setup.now.blocks watched }
{
    match watched {
        Some(number) => first_group_of(setup, number),
        None => U4::low_bits(0),
    }
}

// Returns the id of a profile.
fn id_of(profile: &Profile) -> ProfileId
    ensures value { result.bytes ≡ profile.now.id }
    ensures five { length profile.now.id ≡ 5 }
{
    let bytes = profile.id;
    let id = ProfileId { bytes };
    // says that the id has five bytes
    id.data_bytes();
    id
}

// Returns the watch for a place and an id, in a block with this first group.
fn watch_at(first: U4, place: Place, id: ProfileId) -> Watch
    ensures { result ≡ watch_at_place first place id.bytes }
{
    match place {
        Place::Function => Watch {
            group: first,
            address: Address::Block,
            id,
        },
        Place::Group(group) => Watch {
            group,
            address: Address::Group,
            id,
        },
        Place::Channel(group, channel) => Watch {
            group,
            address: Address::Channel(channel),
            id,
        },
    }
}

// Adds the watch for an address on a group and an id. The function takes the parts, because the toolchain
// can't prove a push of a whole watch here.
fn push_watch(
    watches: &mut Vec<Watch>,
    group: U4,
    address: Address,
    bytes: [U7; 5],
) -> Result<(), NoMemory>
    ensures { OnOk result (watches.new.items ≡ watches.old.items ++
        record { group = group; address = address; id = record { bytes = bytes } } ∷ []) }
{
    let id = ProfileId { bytes };
    let watch = Watch { group, address, id };
    match watches.push(watch) {
        Ok(()) => Ok(()),
        Err(_) => Err(NoMemory),
    }
}

// Adds the watch of a profile, if the profile belongs to the watched block.
fn add_watch(
    watches: &mut Vec<Watch>,
    watched: Option<u8>,
    first: U4,
    profile: &Profile,
) -> Result<(), NoMemory>
    ensures added { OnOk result (watches.new.items ≡ watches.old.items ++
        watch_where watched first profile.now) }
    ensures id { length profile.now.id ≡ 5 }
{
    let id = id_of(profile);
    if watched != Some(profile.block) {
        return Ok(());
    }
    let watch = watch_at(first, profile.place, id);
    push_watch(watches, watch.group, watch.address, watch.id.bytes)
}

/// Returns the watches of the watched block's profiles, in the order of the setup.
pub(crate) fn watches(alloc: Global, setup: &Setup) -> Result<Vec<Watch>, NoMemory>
    ensures value { IfOk result (λ watches. watches.items ≡ watches_of_setup setup.now) }
    ensures few { IfOk result (λ watches. length watches.items ≤ 64) }
    ensures different { IfOk result (λ watches. are_different watches.items ≡ true) }
    ensures ids { IfOk result (λ watches. HasIds setup.now.profiles) }
{
    let watched = watched_block(setup);
    let first = first_group(setup, watched);
    let profiles = setup.profiles();
    let Ok(mut watches) = Vec::with_capacity(alloc, profiles.len()) else {
        return Err(NoMemory);
    };
    for profile in profiles {
        add_watch(&mut watches, watched, first, profile)?;
    }
    Ok(watches)
}
