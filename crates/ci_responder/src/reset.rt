// Returns a responder to the state in which it was created.
ghost use Rattle.std.specs.Prelude.{◌≡◌, map};
ghost use Rattle.std.specs.List.{All};
ghost use Rattle.std.specs.Map.{keys_of};
ghost use Rattle.ci_responder.specs.Held.{IsCiBlock};
ghost use Rattle.ci_responder.specs.Keys.{first_states, key_of};
ghost use Rattle.ci_responder.specs.Reset.{unspent};

use crate::kept::CiBlock;
use crate::keys::Key;
use function_blocks::Profile;
use indexmap::IndexMap;

/// Makes all MUIDs of each block available again.
pub(crate) fn reset_blocks(blocks: &mut [CiBlock])
    requires { All IsCiBlock blocks.old }
    ensures value { blocks.new ≡ map unspent blocks.old }
    ensures fits { All IsCiBlock blocks.new }
{
    for block in blocks.iter_mut() {
        block.spent = 0;
    }
}

/// Enables or disables each profile as the setup says.
pub(crate) fn reset_states(states: &mut IndexMap<Key, bool>, profiles: &[Profile])
    requires { keys_of states.old.entries ≡ map key_of profiles.now }
    ensures { states.new.entries ≡ first_states profiles.now }
{
    for (number, profile) in profiles.iter().enumerate() {
        states[number] = profile.on;
    }
}
