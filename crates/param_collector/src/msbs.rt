// The MSBs of parameters, in one table.
ghost use Rattle.std.specs.Prelude.{◌≡◌, ◌<◌, IfOk, length};
ghost use Rattle.param_collector.specs.Msbs.{place_of, zeros};

use small_types::{NoMemory, U4};
use std::alloc::Global;
use std::marker::Model;
use voice_messages::{Param, ParamKind, U7};

// Sixteen channels, two kinds, and 128 * 128 numbers.
const SIZE: usize = 524288;

// Returns the index of a parameter's MSB in the table.
fn place_of(channel: U4, param: &Param) -> usize
    ensures place { result ≡ place_of channel param.now }
    ensures within { result < 524288 }
{
    let kind = match param.kind {
        ParamKind::Registered => 0,
        ParamKind::Assignable => 1,
    };
    let (bank, index) = (param.bank.get() as usize, param.index.get() as usize);
    ((channel.get() as usize * 2 + kind) * 128 + bank) * 128 + index
}

#[tactic(auto, unfolding(crate::specs::Msbs::zeros))]
pub(crate) fn zeros(alloc: Global, count: usize) -> Result<Vec<U7>, NoMemory>
    ensures { IfOk result (λ table. table.items ≡ zeros count) }
{
    match Vec::from_elem(alloc, U7::low_bits(0), count) {
        Ok(table) => Ok(table),
        Err(_) => Err(NoMemory),
    }
}

/// The MSBs of the parameters of all channels, 0 if none was set. In contracts its value is the table of
/// them.
#[derive(Drop)]
pub(crate) struct Msbs {
    table: Vec<U7>,
}

impl Model for Msbs {
    ghost use Rattle.std.specs.Prelude.{◌≡◌, ℕ, List, length};

    ghost Value = { List ℕ };

    ghost view = { λ m. m.table.items };

    ghost invariant = { λ m. length m.table.items ≡ 524288 };
}

impl Msbs {
    ghost use Rattle.std.specs.Prelude.{slice_index_or, slice_set};

    /// Creates a table in which no parameter has an MSB. Returns `NoMemory` if the memory can't be
    /// allocated.
    #[tactic(auto, using(crate::proofs::Meaning::length_zeros))]
    pub(crate) fn new(alloc: Global) -> Result<Msbs, NoMemory>
        ensures table { IfOk result (λ msbs. msbs ≡ zeros 524288) }
        ensures size { IfOk result (λ msbs. length msbs ≡ 524288) }
    {
        let table = zeros(alloc, SIZE)?;
        Ok(Msbs { table })
    }

    /// Clears the MSBs of all parameters.
    pub(crate) fn clear(&mut self)
        ensures { self.new ≡ zeros 524288 }
    {
        self.table.fill(U7::low_bits(0));
    }

    /// Returns the MSB of a parameter.
    pub(crate) fn get(&self, channel: U4, param: &Param) -> U7
        ensures { result ≡ slice_index_or self.now (place_of channel param.now) 0 }
    {
        self.table[place_of(channel, param)]
    }

    /// Sets the MSB of a parameter.
    pub(crate) fn set(&mut self, channel: U4, param: &Param, msb: U7)
        ensures { self.new ≡ slice_set self.old (place_of channel param.now) msb }
    {
        self.table[place_of(channel, param)] = msb;
    }
}
