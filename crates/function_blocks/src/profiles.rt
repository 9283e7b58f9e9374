// The profiles of a setup.
ghost use Rattle.std.specs.Prelude.{
  ◌≡◌,
  ◌<◌,
  ◌≤◌,
  codes,
  map,
  slice_get,
  true,
  length,
  IfOk,
  IfSome,
  Some,
  is_some,
  option_and_then,
  option_map,
};
ghost use Rattle.std.specs.List.{All, list_any};
ghost use Rattle.std.specs.Str.{bytes_eq};
ghost use Rattle.toml.specs.Data.{as_table};
ghost use Rattle.toml.specs.View.{table_view, view};
ghost use Rattle.function_blocks.specs.Blocks.{AddsRead, Gives, IsBlock};
ghost use Rattle.function_blocks.specs.Keys.{
  each,
  number_at as number_of_key,
  numbers_at as numbers_of_key,
  text_at as text_of,
};
ghost use Rattle.function_blocks.specs.Profiles.{
  IsProfile,
  block_naming_ci as block_naming_ci_of,
  group_of,
  has_group,
  has_place,
  is_same_profile as are_same_profiles,
  kind_of as kind_of_word,
  place_of,
  profile_of,
  profiles_are_distinct,
  profiles_of,
  same_place,
  naming_ci as naming_ci_of,
};
ghost use Rattle.function_blocks.specs.Rules.{needs};
ghost use Rattle.function_blocks.specs.declared.rules.Rule.TheVariants as rule;

use crate::keys::{array, entries_at, flag_at, number_at, numbers_at, text_at};
use crate::rules::{Rule, SetupFault, broken};
use crate::setup::{Block, Place, Profile};
use std::alloc::Global;
use toml::{Table, Value};
use voice_messages::{U4, U7};

/// The kind of a place, by the word in the setup. The kind decides which other keys the place needs.
#[derive(Clone, Copy)]
pub enum PlaceKind {
    Function,
    Group,
    Channel,
}

// Returns the block of this number, if there is one and its `ci` isn't 0.
fn block_naming_ci(blocks: &[Block], number: u32) -> Option<&Block>
    requires { All IsBlock blocks.now }
    ensures value { option_map (λ b. b.now) result ≡ block_naming_ci_of blocks.now number }
    ensures there { IfSome result (λ b. slice_get blocks.now number ≡ Some b.now) }
    ensures fits { IfSome result (λ b. IsBlock b.now) }
    ensures within { IfSome result (λ b. number < length blocks.now) }
    ensures names_ci { IfSome result (λ b. is_some (block_naming_ci_of blocks.now number) ≡ true) }
{
    naming_ci(blocks.get(number as usize)?)
}

fn kind_of(word: &str) -> Option<PlaceKind>
    ensures { result ≡ kind_of_word word.now }
{
    if word == "function" {
        Some(PlaceKind::Function)
    } else if word == "group" {
        Some(PlaceKind::Group)
    } else if word == "channel" {
        Some(PlaceKind::Channel)
    } else {
        None
    }
}

fn kind_at(table: &Table) -> Option<PlaceKind>
    ensures { result ≡ option_and_then kind_of_word (text_of (codes "place") (table_view table.now)) }
{
    kind_of(text_at(table, "place")?)
}

// Returns the value of the key `group`, if it is a group of the block.
fn group_at(table: &Table, block: &Block) -> Option<U4>
    requires { IsBlock block.now }
    ensures value { result ≡ group_of block.now (table_view table.now) }
    ensures within { IfSome result (λ group. has_group block.now group ≡ true) }
{
    let first = u32::from(block.first);
    let last = first + u32::from(block.count) - 1;
    Some(U4::low_bits(number_at(table, "group", first, last)?))
}

fn channel_at(table: &Table) -> Option<U4>
    ensures { result ≡ number_of_key 0 15 (codes "channel") (table_view table.now) }
{
    Some(U4::low_bits(number_at(table, "channel", 0, 15)?))
}

fn read_place(table: &Table, block: &Block, kind: PlaceKind) -> Result<Place, SetupFault>
    requires { IsBlock block.now }
    ensures value { result ≡ place_of block.now (table_view table.now) kind }
    ensures fits { IfOk result (λ place. has_place block.now place ≡ true) }
{
    if let PlaceKind::Function = kind {
        return Ok(Place::Function);
    }
    let group = group_at(table, block).ok_or(broken(Rule::GroupIsOfTheBlock))?;
    if let PlaceKind::Group = kind {
        return Ok(Place::Group(group));
    }
    let channel = channel_at(table).ok_or(broken(Rule::ChannelIsInRange))?;
    Ok(Place::Channel(group, channel))
}

fn naming_ci(block: &Block) -> Option<&Block>
    ensures value { option_map (λ b. b.now) result ≡ naming_ci_of block.now }
    ensures same { IfSome result (λ b. b.now ≡ block.now) }
{
    if block.ci == 0 { None } else { Some(block) }
}

// Returns a number below 128 as seven bits.
fn seven_bits(number: u8) -> U7
    requires { number ≤ 127 }
    ensures { result ≡ number }
{
    U7::low_bits(u32::from(number))
}

// Returns the numbers of a profile's id as seven bits each.
fn id_of(numbers: [u8; 5]) -> [U7; 5]
    requires { All (λ n. n ≤ 127) numbers }
    ensures { result ≡ numbers }
{
    let [first, second, third, fourth, fifth] = numbers;
    [
        seven_bits(first),
        seven_bits(second),
        seven_bits(third),
        seven_bits(fourth),
        seven_bits(fifth),
    ]
}

fn id_at(table: &Table) -> Option<[U7; 5]>
    ensures { result ≡ numbers_of_key 5 127 (codes "id") (table_view table.now) }
{
    let numbers = numbers_at(table, "id", 127)?;
    Some(id_of(array(&numbers)))
}

/// Reads a profile by the rules for its keys, in the order of the rules, and adds it at the end.
fn add_profile(
    profiles: &mut Vec<Profile>,
    table: &Table,
    blocks: &[Block],
) -> Result<(), SetupFault>
    requires { All IsBlock blocks.now }
    ensures { AddsRead (profile_of blocks.now (table_view table.now)) (IsProfile blocks.now)
        profiles.old.items profiles.new.items result }
{
    let number = number_at(table, "block", 0, 31).ok_or(broken(Rule::ProfileBlockNamesCi))?;
    let block = block_naming_ci(blocks, number).ok_or(broken(Rule::ProfileBlockNamesCi))?;
    let kind = kind_at(table).ok_or(broken(Rule::PlaceIsKnown))?;
    let place = read_place(table, block, kind)?;
    let id = id_at(table).ok_or(broken(Rule::ProfileIdIsFiveNumbers))?;
    let on = flag_at(table, "on").ok_or(broken(Rule::OnIsAFlag))?;
    let profile = Profile {
        block: number as u8,
        place,
        id,
        on,
    };
    match profiles.push(profile) {
        Ok(()) => Ok(()),
        Err(_) => Err(SetupFault::NoMemory),
    }
}

fn add_entry(profiles: &mut Vec<Profile>, value: &Value, blocks: &[Block]) -> Result<(), SetupFault>
    requires { All IsBlock blocks.now }
    ensures { AddsRead (needs rule.ProfilesAreTables (as_table (view value.now)) (profile_of blocks.now))
        (IsProfile blocks.now) profiles.old.items profiles.new.items result }
{
    match value.as_table() {
        Some(table) => add_profile(profiles, table, blocks),
        None => Err(broken(Rule::ProfilesAreTables)),
    }
}

fn read_each_profile(
    alloc: Global,
    values: &[Value],
    blocks: &[Block],
) -> Result<Vec<Profile>, SetupFault>
    requires { All IsBlock blocks.now }
    ensures value { Gives (each rule.ProfilesAreTables (profile_of blocks.now) (map view values.now)) result }
    ensures count { IfOk result (λ profiles. length profiles.items ≡ length values.now) }
    ensures fits { IfOk result (λ profiles. All (IsProfile blocks.now) profiles.items) }
{
    let mut profiles = Vec::new(alloc);
    for value in values {
        add_entry(&mut profiles, value, blocks)?;
    }
    Ok(profiles)
}

/// Reads the profiles by their rules, one profile after the other.
pub(crate) fn read_profiles(
    alloc: Global,
    setup: &Table,
    blocks: &[Block],
) -> Result<Vec<Profile>, SetupFault>
    requires { All IsBlock blocks.now }
    ensures value { Gives (profiles_of blocks.now (table_view setup.now)) result }
    ensures few { IfOk result (λ profiles. length profiles.items ≤ 64) }
    ensures fits { IfOk result (λ profiles. All (IsProfile blocks.now) profiles.items) }
{
    let values = entries_at(setup, "profile", 64, Rule::ProfilesAreTables)?;
    read_each_profile(alloc, values, blocks)
}

fn is_same_place(one: &Place, other: &Place) -> bool
    ensures { result ≡ same_place one.now other.now }
{
    one == other
}

fn is_same_id(one: &[U7; 5], other: &[U7; 5]) -> bool
    ensures { result ≡ bytes_eq one.now other.now }
{
    one == other
}

fn is_same_profile(one: &Profile, other: &Profile) -> bool
    ensures { result ≡ are_same_profiles one.now other.now }
{
    one.block == other.block
        && is_same_place(&one.place, &other.place)
        && is_same_id(&one.id, &other.id)
}

fn is_among(profile: &Profile, others: &[Profile]) -> bool
    ensures { result ≡ list_any (are_same_profiles profile.now) others.now }
{
    others.iter().any(|other| is_same_profile(profile, other))
}

/// Returns whether no two profiles have the same block, place and id.
pub(crate) fn are_distinct(profiles: &[Profile]) -> bool
    ensures { result ≡ profiles_are_distinct profiles.now }
{
    match profiles {
        [] => true,
        [first, rest @ ..] => !is_among(first, rest) && are_distinct(rest),
    }
}
