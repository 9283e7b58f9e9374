// The MSBs of paired controllers, in one table.
ghost use Rattle.std.specs.Prelude.{◌≡◌, ◌<◌, true, false, IfOk, length};
ghost use Rattle.param_collector.specs.Holding.{pair_count};
ghost use Rattle.param_collector.specs.Msbs.{pair_place, zeros};

use crate::msbs::zeros;
use small_types::{NoMemory, U4};
use std::alloc::Global;
use std::marker::Model;
use voice_messages::U7;

// Sixteen channels, and the indexes of 32 MSBs.
const SIZE: usize = 512;

// Returns the index of a pair's MSB in the table.
fn pair_place(channel: U4, index: U7) -> usize
    ensures place { result ≡ pair_place channel index }
{
    channel.get() as usize * 32 + index.get() as usize
}

/// The MSBs of the paired controllers of all channels, 0 if none was set. The table is empty if controllers
/// aren't paired. In contracts its value is the table.
#[derive(Drop)]
pub(crate) struct PairMsbs {
    table: Vec<U7>,
}

impl Model for PairMsbs {
    ghost use Rattle.std.specs.Prelude.{ℕ, List};

    ghost Value = { List ℕ };

    ghost view = { λ m. m.table.items };
}

impl PairMsbs {
    ghost use Rattle.std.specs.Prelude.{slice_index_or, slice_set};

    /// Creates a table in which no controller has an MSB. Returns `NoMemory` if the memory can't be
    /// allocated.
    #[tactic(auto, using(crate::proofs::Meaning::length_zeros))]
    pub(crate) fn new(alloc: Global, paired: bool) -> Result<PairMsbs, NoMemory>
        ensures table { IfOk result (λ msbs. msbs ≡ zeros (pair_count paired)) }
        ensures size { IfOk result (λ msbs. paired ≡ true → length msbs ≡ 512) }
        ensures none { IfOk result (λ msbs. paired ≡ false → length msbs ≡ 0) }
    {
        let count = if paired { SIZE } else { 0 };
        let table = zeros(alloc, count)?;
        Ok(PairMsbs { table })
    }

    /// Clears the MSBs of all controllers.
    pub(crate) fn clear(&mut self)
        ensures { self.new ≡ zeros (length self.old) }
    {
        self.table.fill(U7::low_bits(0));
    }

    /// Returns the MSB of a pair, by its index.
    pub(crate) fn get(&self, channel: U4, index: U7) -> U7
        ensures { result ≡ slice_index_or self.now (pair_place channel index) 0 }
    {
        match self.table.get(pair_place(channel, index)) {
            Some(msb) => *msb,
            None => U7::low_bits(0),
        }
    }

    /// Sets the MSB of a pair, if controllers are paired.
    pub(crate) fn set(&mut self, channel: U4, index: U7, msb: U7)
        ensures { self.new ≡ slice_set self.old (pair_place channel index) msb }
    {
        if let Some(old) = self.table.get_mut(pair_place(channel, index)) {
            *old = msb;
        }
    }
}
