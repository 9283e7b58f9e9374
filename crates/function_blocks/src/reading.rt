// Reads the setup of a text.
ghost use Rattle.std.specs.Prelude.{◌≡◌, ◌⊎◌, None, Some, IfErr, IfOk};
ghost use Rattle.toml.specs.View.{table_view};
ghost use Rattle.function_blocks.specs.Setups.{IsSetup, MeetsRead, setup_in, setup_of, tree_of};

use crate::blocks::{are_apart, muids_are_distinct, read_blocks};
use crate::endpoint::read_endpoint;
use crate::profiles::{are_distinct, read_profiles};
use crate::rules::{Rule, SetupFault, broken};
use crate::whole::Setup;
use std::alloc::Global;
use toml::Table;

/// The most bytes that the text of a setup may have (own rule).
pub const MOST_BYTES: usize = 65_536;

impl Setup {
    /// Reads a setup from a TOML text, by the rules in their order (`Rule`; own rules). A number is a TOML
    /// integer, and unknown keys are ignored. The setup that is returned keeps all rules.
    ///
    /// Returns `Field` exactly if the rule of that number is the first that the text breaks. Returns `Syntax`
    /// exactly if the text is short enough, but isn't UTF-8 or isn't accepted by `toml`. Returns `NoMemory`,
    /// instead of any of these results, if the call runs out of memory.
    pub fn read(alloc: Global, text: &[u8]) -> Result<Setup, SetupFault>
        ensures setup { MeetsRead (setup_of text.now) result }
        ensures fits { IfOk result IsSetup }
    {
        if text.len() > MOST_BYTES {
            return Err(broken(Rule::TextIsShort));
        }
        let table = tree(alloc, text)?;
        read_table(alloc, &table)
    }
}

// Returns the TOML table of a text.
fn tree(alloc: Global, text: &[u8]) -> Result<Table, SetupFault>
    ensures ok { IfOk result (λ t. tree_of text.now ≡ Some (table_view t)) }
    ensures err { IfErr result (λ e.
        (e ≡ SetupFault.NoMemory) ⊎ ((e ≡ SetupFault.Syntax) × (tree_of text.now ≡ None))) }
{
    match toml::table_from_slice(alloc, text) {
        Ok(table) => Ok(table),
        Err(error) => {
            if error.is_memory() {
                return Err(SetupFault::NoMemory);
            }
            Err(SetupFault::Syntax)
        }
    }
}

// Reads a setup by the rules from the second on.
fn read_table(alloc: Global, table: &Table) -> Result<Setup, SetupFault>
    ensures setup { MeetsRead (setup_in (table_view table.now)) result }
    ensures fits { IfOk result IsSetup }
{
    let endpoint = read_endpoint(table)?;
    let blocks = read_blocks(alloc, table)?;
    if !are_apart(blocks.as_slice()) {
        return Err(broken(Rule::BlocksThatHaveCiShareNoGroup));
    }
    if !muids_are_distinct(blocks.as_slice()) {
        return Err(broken(Rule::MuidsAreDistinct));
    }
    let profiles = read_profiles(alloc, table, blocks.as_slice())?;
    if !are_distinct(profiles.as_slice()) {
        return Err(broken(Rule::ProfilesAreDistinct));
    }
    Ok(Setup {
        endpoint,
        blocks,
        profiles,
    })
}
