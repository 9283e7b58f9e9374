// The whole setup.
ghost use Rattle.std.specs.Prelude.{◌≡◌, ◌<◌, ◌≤◌, ◌^◌, true, length, slice_get, IfSome, option_map};
ghost use Rattle.std.specs.List.{All, list_all};
ghost use Rattle.system_stream.specs.Texts.{is_printable};
ghost use Rattle.function_blocks.specs.Setups.{in_two_bytes as two_bytes_of};

use crate::setup::{Block, Config, Endpoint, Identity, Profile};
use std::marker::Model;

/// The setup of an endpoint. It keeps the rules that `IsSetup` names. In contracts its value is the record of
/// the endpoint's own keys, the blocks and the profiles, each in the order of the text.
#[derive(Drop)]
pub struct Setup {
    pub(crate) endpoint: Endpoint,
    pub(crate) blocks: Vec<Block>,
    pub(crate) profiles: Vec<Profile>,
}

impl Model for Setup {
    ghost use Rattle.function_blocks.specs.Setups.{SetupData, IsSetup};

    ghost Value = { SetupData };

    ghost view = { λ s. record {
      endpoint = s.endpoint;
      blocks = s.blocks.items;
      profiles = s.profiles.items;
    } };

    ghost invariant = { λ s. IsSetup (record {
      endpoint = s.endpoint;
      blocks = s.blocks.items;
      profiles = s.profiles.items;
    }) };
}

// Returns a number below 16,384 in two bytes of seven bits each, the lowest bits first.
fn in_two_bytes(number: u16) -> [u8; 2]
    requires { number < 16384 }
    ensures { result ≡ two_bytes_of number }
{
    [(number % 128) as u8, (number / 128) as u8]
}

impl Setup {
    ghost use Rattle.function_blocks.specs.Blocks.{IsBlock, are_apart, are_distinct, muids_of};
    ghost use Rattle.function_blocks.specs.Profiles.{IsProfile, profiles_are_distinct};
    ghost use Rattle.function_blocks.specs.Setups.{identity_of};

    /// Returns the function blocks by number, at most 32 (M2-104-UM, Function Block Info). No two active
    /// blocks with MIDI-CI share a group, and no MUID appears twice.
    pub fn blocks(&self) -> &[Block]
        ensures value { result.now ≡ self.now.blocks }
        ensures few { length result.now ≤ 32 }
        ensures fits { All IsBlock result.now }
        ensures apart { are_apart result.now ≡ true }
        ensures distinct { are_distinct (muids_of result.now) ≡ true }
    {
        self.blocks.as_slice()
    }

    /// Returns the number of function blocks, at most 32 (M2-104-UM, Endpoint Info). No two active blocks
    /// with MIDI-CI share a group, and no MUID appears twice.
    pub fn block_count(&self) -> u8
        ensures value { result ≡ length self.now.blocks }
        ensures few { length self.now.blocks ≤ 32 }
        ensures fits { All IsBlock self.now.blocks }
        ensures apart { are_apart self.now.blocks ≡ true }
        ensures distinct { are_distinct (muids_of self.now.blocks) ≡ true }
    {
        self.blocks.len() as u8
    }

    /// Returns the block of number `n`, counted from 0 (M2-104-UM, Function Block Info), or `None` exactly if
    /// `n` is past the last block.
    pub fn block(&self, n: u8) -> Option<&Block>
        ensures value { option_map (λ b. b.now) result ≡ slice_get self.now.blocks n }
        ensures fits { IfSome result (λ b. IsBlock b.now) }
        ensures within { IfSome result (λ b. n < length self.now.blocks) }
        ensures few { length self.now.blocks ≤ 32 }
    {
        self.blocks.get(n as usize)
    }

    /// Returns the profiles in the order of the setup, at most 64 (own rule). No two have the same block,
    /// place and id. Each profile belongs to one of the setup's blocks, and the `ci` of that block isn't 0.
    /// If a place names a group, that group belongs to the profile's block.
    pub fn profiles(&self) -> &[Profile]
        ensures value { result.now ≡ self.now.profiles }
        ensures few { length result.now ≤ 64 }
        ensures fits { All (IsProfile self.now.blocks) result.now }
        ensures distinct { profiles_are_distinct result.now ≡ true }
    {
        self.profiles.as_slice()
    }

    /// Returns the number of profiles, at most 64 (own rule). No two profiles have the same block, place and
    /// id.
    pub fn profile_count(&self) -> usize
        ensures value { result ≡ length self.now.profiles }
        ensures few { length self.now.profiles ≤ 64 }
        ensures distinct { profiles_are_distinct self.now.profiles ≡ true }
    {
        self.profiles.len()
    }

    /// Returns profile `k` in the order of the setup, counted from 0 (own rule), or `None` exactly if `k` is
    /// past the last profile. The profile belongs to one of the setup's blocks, and the `ci` of that block
    /// isn't 0. If the place names a group, that group belongs to the block.
    pub fn profile(&self, k: usize) -> Option<&Profile>
        ensures value { option_map (λ p. p.now) result ≡ slice_get self.now.profiles k }
        ensures block { IfSome result (λ p. p.now.block < length self.now.blocks) }
        ensures fits { IfSome result (λ p. IsProfile self.now.blocks p.now) }
    {
        self.profiles.get(k)
    }

    /// Returns the identity as it is written in Device Identity (M2-104-UM). `family` and `model` have seven
    /// bits in each byte, the lowest bits first. Each byte is below 128.
    pub fn identity(&self) -> Identity
        ensures value { result ≡ identity_of self.now }
        ensures manufacturer { (length result.manufacturer ≡ 3)
            × All (λ byte. byte ≤ 127) result.manufacturer }
        ensures family { self.now.endpoint.family < 2 ^ 14 }
        ensures model { self.now.endpoint.model < 2 ^ 14 }
        ensures revision { (length result.revision ≡ 4) × All (λ byte. byte ≤ 127) result.revision }
    {
        Identity {
            manufacturer: self.endpoint.manufacturer,
            family: in_two_bytes(self.endpoint.family),
            model: in_two_bytes(self.endpoint.model),
            revision: self.endpoint.revision,
        }
    }

    /// Returns the product instance id, 1 to 42 bytes, each 32 to 126 (M2-104-UM, Product Instance Id).
    pub fn product_id(&self) -> &str
        ensures value { result.now ≡ self.now.endpoint.id }
        ensures some { 0 < length self.now.endpoint.id }
        ensures few { length self.now.endpoint.id ≤ 42 }
        ensures printable { list_all is_printable self.now.endpoint.id ≡ true }
    {
        match str::from_utf8(self.endpoint.id.as_slice()) {
            Ok(id) => id,
            // ASCII characters are UTF-8, so this can't happen
            Err(_) => unreachable!(),
        }
    }

    /// Returns the configuration with which an endpoint of this setup starts (M2-104-UM, Stream Configuration
    /// Notification). The protocol is the setup's.
    pub fn config(&self) -> Config
        ensures { result.protocol ≡ self.now.endpoint.protocol }
    {
        Config {
            protocol: self.endpoint.protocol,
        }
    }
}
