// Creates the state of a responder from a setup.
ghost use Rattle.std.specs.Prelude.{◌≡◌, ◌≤◌, [], ◌∷◌, ◌++◌, None, length, IfOk, OnOk};
ghost use Rattle.std.specs.List.{All};
ghost use Rattle.function_blocks.specs.Blocks.{IsBlock};
ghost use Rattle.ci_responder.specs.Held.{IsCiBlock};
ghost use Rattle.ci_responder.specs.History.{kept, kept_from, spent_at};
ghost use Rattle.ci_responder.specs.Keys.{first_states as first_states_of, key_of, state_in};

use crate::blocks::kept_block;
use crate::kept::CiBlock;
use crate::keys::Key;
use ci_messages::ProfileId;
use function_blocks::{Block, Place, Profile, Setup};
use indexmap::IndexMap;
use small_types::NoMemory;
use std::alloc::Global;

// Adds a block at the end.
fn add_block(blocks: &mut Vec<CiBlock>, block: &Block) -> Result<(), NoMemory>
    requires { IsBlock block.now }
    ensures added { OnOk result (blocks.new.items ≡ blocks.old.items ++ kept 0 block.now ∷ []) }
    ensures fits { IsCiBlock (kept 0 block.now) }
{
    match blocks.push(kept_block(block)) {
        Ok(()) => Ok(()),
        Err(_) => Err(NoMemory),
    }
}

/// Returns the blocks of the setup, by number.
pub(crate) fn kept_blocks(alloc: Global, setup: &Setup) -> Result<Vec<CiBlock>, NoMemory>
    ensures value { IfOk result (λ blocks.
        blocks.items ≡ kept_from 0 (spent_at setup.now []) setup.now.blocks) }
    ensures fits { IfOk result (λ blocks. All IsCiBlock blocks.items) }
    ensures few { IfOk result (λ blocks. length blocks.items ≤ 32) }
{
    let blocks = setup.blocks();
    let Ok(mut kept) = Vec::with_capacity(alloc, blocks.len()) else {
        return Err(NoMemory);
    };
    for block in blocks {
        add_block(&mut kept, block)?;
    }
    Ok(kept)
}

// Adds a profile at the end.
fn add(states: &mut IndexMap<Key, bool>, profile: &Profile) -> Result<(), NoMemory>
    requires { state_in states.old.entries (key_of profile.now) ≡ None }
    ensures { OnOk result (states.new.entries ≡
        states.old.entries ++ (key_of profile.now, profile.now.on) ∷ []) }
{
    let place: Place = profile.place;
    let bytes = profile.id;
    let id: ProfileId = ProfileId { bytes };
    let key = Key {
        block: profile.block,
        place,
        id,
    };
    match states.insert(key, profile.on) {
        Ok(_) => Ok(()),
        Err(_) => Err(NoMemory),
    }
}

/// Returns the profiles of the setup, in the order of the setup.
pub(crate) fn first_states(alloc: Global, setup: &Setup) -> Result<IndexMap<Key, bool>, NoMemory>
    ensures value { IfOk result (λ states. states.entries ≡ first_states_of setup.now.profiles) }
    ensures few { IfOk result (λ states. length states.entries ≤ 64) }
{
    let profiles = setup.profiles();
    let Ok(mut states) = IndexMap::with_capacity(alloc, profiles.len()) else {
        return Err(NoMemory);
    };
    for profile in profiles {
        add(&mut states, profile)?;
    }
    Ok(states)
}
