// The keys by which profiles are found.
use ci_messages::ProfileId;
use function_blocks::Place;
use std::hash::{Hash, Hasher};

/// The key of a profile: its function block, its place in that block, and its id.
#[derive(Clone, Copy, Debug)]
pub struct Key {
    /// The number of the function block, counted from 0.
    pub block: u8,
    /// The block itself, one of its groups, or a channel of one of its groups.
    pub place: Place,
    /// The profile's id (M2-101-UM, profile id).
    pub id: ProfileId,
}

impl PartialEq for Key {
    ghost use Rattle.ci_responder.specs.Keys.{same_key};
    ghost use Rattle.ci_responder.specs.ForProofs.SameKeys.{same_key_laws};

    ghost eq = { same_key };

    ghost laws = { same_key_laws };

    fn eq(&self, other: &Key) -> bool {
        self.block == other.block && self.place == other.place && self.id.bytes == other.id.bytes
    }
}

impl Eq for Key {
    ghost use Rattle.ci_responder.specs.ForProofs.SameKeys.{key-equivalence};

    ghost laws = { key-equivalence };
}

impl Hash for Key {
    ghost use Rattle.std.specs.Prelude.{◌++◌, ◌∷◌, []};
    ghost use Rattle.std.specs.Hash as fed;
    ghost use Rattle.ci_responder.specs.ForProofs.SameKeys.{same_hash};

    ghost hash_input = { λ key. fed.u8 key.block ++ (key.id.bytes ∷ []) };

    ghost respects_eq = { same_hash };

    fn hash<H: Hasher>(&self, state: &mut H) {
        state.write_u8(self.block);
        state.write(&self.id.data_bytes());
    }
}
