// The function blocks in the form in which the responder stores them.
ghost use Rattle.std.specs.Prelude.{◌≡◌, ◌<◌, ◌≤◌, ◌+◌, length, true, is_some, IfSome};
ghost use Rattle.std.specs.List.{All};
ghost use Rattle.function_blocks.specs.Blocks.{IsBlock};
ghost use Rattle.ci_responder.specs.Held.{
  IsCiBlock,
  block_in,
  change_at,
  has_group as has_group_of,
  muid_in,
  muid_of as muid_of_block,
  next,
};
ghost use Rattle.ci_responder.specs.History.{kept};

use crate::kept::CiBlock;
use ci_messages::Muid;
use function_blocks::Block;
use small_types::{ShortList, U4};

/// Returns a block of the setup that has used up none of its MUIDs.
pub(crate) fn kept_block(block: &Block) -> CiBlock
    requires { IsBlock block.now }
    ensures value { result ≡ kept 0 block.now }
    ensures fits { IsCiBlock result }
{
    let mut muids = ShortList::new();
    muids.extend(block.muids.as_slice());
    CiBlock {
        has_ci: block.has_ci(),
        first: block.first,
        count: block.count,
        muids,
        spent: 0,
    }
}

// Returns whether a block has MIDI-CI and contains this group.
fn has_group(block: &CiBlock, group: u8) -> bool
    requires { IsCiBlock block.now }
    ensures { result ≡ has_group_of group block.now }
{
    block.has_ci && block.first <= group && group < block.first + block.count
}

/// Returns the number of the block that has this group, if there is one with MIDI-CI.
pub(crate) fn block_of(blocks: &[CiBlock], group: U4) -> Option<usize>
    requires { All IsCiBlock blocks.now }
    ensures value { result ≡ block_in blocks.now group }
    ensures within { IfSome result (λ block. block < length blocks.now) }
{
    let number = group.get();
    blocks.iter().position(|block| has_group(block, number))
}

// Returns the MUID that the block uses now, if the block has MIDI-CI and isn't silent.
fn muid_in_force(block: &CiBlock) -> Option<Muid>
    requires { IsCiBlock block.now }
    ensures value { result ≡ muid_of_block block.now }
    ensures fits { IfSome result (λ muid. muid < 0x0FFFFF00) }
{
    if !block.has_ci {
        return None;
    }
    let number = *block.muids.as_slice().get(block.spent)?;
    Muid::new(number)
}

/// Returns the MUID in force of the block with this number, if that block has MIDI-CI and isn't silent.
pub(crate) fn muid_of(blocks: &[CiBlock], number: usize) -> Option<Muid>
    requires { All IsCiBlock blocks.now }
    ensures value { result ≡ muid_in blocks.now number }
    ensures fits { IfSome result (λ muid. muid < 0x0FFFFF00) }
{
    match blocks.get(number) {
        Some(block) => muid_in_force(block),
        None => None,
    }
}

// Uses up the block's MUID in force.
fn use_up(block: &mut CiBlock)
    requires { block.old.spent < 16 }
    ensures { block.new ≡ next block.old }
{
    block.spent += 1;
}

/// Uses up the MUID in force of block `number`.
pub(crate) fn spend(blocks: &mut [CiBlock], number: usize)
    requires blocks { All IsCiBlock blocks.old }
    requires in_force { is_some (muid_in blocks.old number) ≡ true }
    ensures value { blocks.new ≡ change_at next number blocks.old }
    ensures fits { All IsCiBlock blocks.new }
{
    use_up(&mut blocks[number]);
}
