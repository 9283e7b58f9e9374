// The function blocks of a setup.
ghost use Rattle.std.specs.Prelude.{◌≡◌, ◌≤◌, ◌*◌, not, map, length, IfOk};
ghost use Rattle.std.specs.List.{All, list_all};
ghost use Rattle.toml.specs.Data.{as_table};
ghost use Rattle.toml.specs.View.{table_view, view};
ghost use Rattle.function_blocks.specs.Blocks.{
  Gives,
  IsBlock,
  are_apart as are_all_apart,
  are_distinct as are_all_distinct,
  block_in,
  blocks_of,
  muids_of,
  shares_group as has_group_of,
};
ghost use Rattle.function_blocks.specs.Keys.{each};
ghost use Rattle.function_blocks.specs.Rules.{needs};
ghost use Rattle.function_blocks.specs.declared.rules.Rule.TheVariants as rule;

use crate::keys::{entries_at, flag_at, limited_text_at, number_at, short_numbers_at};
use crate::rules::{Rule, SetupFault, broken};
use crate::setup::Block;
use small_types::ShortList;
use std::alloc::Global;
use toml::{Table, Value};

/// Reads a block by the rules for its keys, in the order of the rules.
fn read_block(table: &Table) -> Result<Block, SetupFault>
    ensures value { result ≡ block_in (table_view table.now) }
    ensures fits { IfOk result IsBlock }
{
    let active = flag_at(table, "active").ok_or(broken(Rule::ActiveIsAFlag))?;
    let name = limited_text_at(table, "name").ok_or(broken(Rule::BlockNameIsShort))?;
    let hint = number_at(table, "hint", 0, 3).ok_or(broken(Rule::HintIsInRange))?;
    let midi1 = number_at(table, "midi1", 0, 2).ok_or(broken(Rule::Midi1IsInRange))?;
    let direction = number_at(table, "direction", 1, 3).ok_or(broken(Rule::DirectionIsInRange))?;
    let first = number_at(table, "first", 0, 15).ok_or(broken(Rule::FirstIsAGroup))?;
    let count = number_at(table, "count", 1, 16).ok_or(broken(Rule::GroupsEndWithinSixteen))?;
    if first + count > 16 {
        return Err(broken(Rule::GroupsEndWithinSixteen));
    }
    let ci = number_at(table, "ci", 0, 2).ok_or(broken(Rule::CiIsInRange))?;
    let sysex8 = number_at(table, "sysex8", 0, 255).ok_or(broken(Rule::Sysex8IsInRange))?;
    let muids = short_numbers_at(table, "muids", 268_435_199).ok_or(broken(Rule::MuidsAreInRange))?;
    if ci != 0 && muids.is_empty() {
        return Err(broken(Rule::MuidsAreInRange));
    }
    Ok(Block {
        active,
        name,
        hint: hint as u8,
        midi1: midi1 as u8,
        direction: direction as u8,
        first: first as u8,
        count: count as u8,
        ci: ci as u8,
        sysex8: sysex8 as u8,
        muids,
    })
}

fn read_entry(value: &Value) -> Result<Block, SetupFault>
    ensures value { result ≡ needs rule.BlocksAreTables (as_table (view value.now)) block_in }
    ensures fits { IfOk result IsBlock }
{
    match value.as_table() {
        Some(table) => read_block(table),
        None => Err(broken(Rule::BlocksAreTables)),
    }
}

fn read_each_block(alloc: Global, values: &[Value]) -> Result<Vec<Block>, SetupFault>
    ensures value { Gives (each rule.BlocksAreTables block_in (map view values.now)) result }
    ensures count { IfOk result (λ blocks. length blocks.items ≡ length values.now) }
    ensures fits { IfOk result (λ blocks. All IsBlock blocks.items) }
{
    let mut blocks = Vec::new(alloc);
    for value in values {
        let block = read_entry(value)?;
        match blocks.push(block) {
            Ok(()) => {}
            Err(_) => return Err(SetupFault::NoMemory),
        }
    }
    Ok(blocks)
}

/// Reads the blocks by their rules, one block after the other.
pub(crate) fn read_blocks(alloc: Global, setup: &Table) -> Result<Vec<Block>, SetupFault>
    ensures value { Gives (blocks_of (table_view setup.now)) result }
    ensures few { IfOk result (λ blocks. length blocks.items ≤ 32) }
    ensures fits { IfOk result (λ blocks. All IsBlock blocks.items) }
{
    let values = entries_at(setup, "block", 32, Rule::BlocksAreTables)?;
    read_each_block(alloc, values)
}

// Returns whether both blocks have MIDI-CI and some group is in both.
fn shares_group(one: &Block, other: &Block) -> bool
    ensures { result ≡ has_group_of one.now other.now }
{
    let have_ci = one.has_ci() && other.has_ci();
    let one_first = u32::from(one.first);
    let other_first = u32::from(other.first);
    have_ci
        && one_first < other_first + u32::from(other.count)
        && other_first < one_first + u32::from(one.count)
}

fn is_apart_from(block: &Block, others: &[Block]) -> bool
    ensures { result ≡ list_all (λ other. not (has_group_of block.now other)) others.now }
{
    others.iter().all(|other| !shares_group(block, other))
}

/// Returns whether no two blocks with MIDI-CI share a group.
pub(crate) fn are_apart(blocks: &[Block]) -> bool
    ensures { result ≡ are_all_apart blocks.now }
{
    match blocks {
        [] => true,
        [first, rest @ ..] => is_apart_from(first, rest) && are_apart(rest),
    }
}

// Returns the MUIDs of all blocks.
fn all_muids(blocks: &[Block]) -> ShortList<u32, 512>
    requires { length blocks.now ≤ 32 }
    ensures { result ≡ muids_of blocks.now }
{
    let mut muids = ShortList::new();
    for block in blocks {
        muids.extend(block.muids.as_slice());
    }
    muids
}

fn are_distinct(numbers: &[u32]) -> bool
    ensures { result ≡ are_all_distinct numbers.now }
{
    match numbers {
        [] => true,
        [first, rest @ ..] => !rest.contains(first) && are_distinct(rest),
    }
}

/// Returns whether no MUID appears twice, in one block or in two.
pub(crate) fn muids_are_distinct(blocks: &[Block]) -> bool
    requires { length blocks.now ≤ 32 }
    ensures { result ≡ are_all_distinct (muids_of blocks.now) }
{
    are_distinct(all_muids(blocks).as_slice())
}
