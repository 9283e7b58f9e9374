// The registers and parameters that the control changes of a stream have set.
ghost use Rattle.std.specs.Prelude.{◌≡◌, ℕ, Bool, ◌<◌, ◌+◌, ◌*◌, IfOk, IfSome, length, replicate};
ghost use Rattle.voice_messages.specs.Ranges.{IsParam};
ghost use Rattle.midi_meaning.specs.Controllers.{coarse, fine, pairing, role_of};
ghost use Rattle.midi_meaning.specs.Indexes.{HasIndex};
ghost use Rattle.midi_meaning.specs.Messages.{as_they_come, start};
ghost use Rattle.midi_meaning.specs.Registers.{bank_of, selected, unset_registers};
ghost use Rattle.midi_meaning.specs.Roles.{registers_after, role_in};
ghost use Rattle.midi_meaning.specs.State.{GroupState};
ghost use Rattle.param_collector.specs.Control.{
  answer_of,
  at_registers,
  entered,
  holding_after,
  with_entry,
  with_reset,
  AreInRange,
  EntryInRange,
  Leaves,
};
ghost use Rattle.param_collector.specs.Holding.{IsHolding, fresh, msb_at, registers_at};
ghost use Rattle.param_collector.specs.Indexes.{IsIndexOf};
ghost use Rattle.param_collector.specs.Keeps.{IsMeant, Keeps};

use crate::collected::Collected;
use crate::msbs::Msbs;
use crate::pairs::PairMsbs;
use midi_meaning::{ControlRole, Registers};
use small_types::{NoMemory, U4};
use std::alloc::Global;
use std::marker::Model;
use voice_messages::{Bank, Param, U7, U14};

/// The values that the control changes of a MIDI 1.0 stream have set. For each of sixteen channels, these
/// are the halves of the bank and of the two parameter numbers, and the MSB of each parameter's value. If
/// controllers are paired (own rule), they include the MSB of each pair. In contracts its value is these
/// registers and MSBs, and whether controllers are paired.
#[derive(Drop)]
pub struct Collector {
    registers: Vec<Registers>,
    msbs: Msbs,
    paired: bool,
    pairs: PairMsbs,
}

impl Model for Collector {
    ghost use Rattle.std.specs.Prelude.{◌≡◌, true, false, length};
    ghost use Rattle.param_collector.specs.Holding.{Holding};

    ghost Value = { Holding };

    ghost view = { λ c. record {
      registers = c.registers.items;
      msbs = c.msbs;
      paired = c.paired;
      pairs = c.pairs;
    } };

    ghost invariant = { λ c. (length c.registers.items ≡ 16) × (length c.msbs ≡ 524288) ×
        (c.paired ≡ true → length c.pairs ≡ 512) × (c.paired ≡ false → length c.pairs ≡ 0) };
}

// Returns the value of fourteen bits with these halves.
fn of_halves(msb: U7, lsb: U7) -> U14
    ensures value { result ≡ msb * 128 + lsb }
    ensures msb_below { msb < 128 }
    ensures lsb_below { lsb < 128 }
{
    let (msb, lsb) = (msb.get(), lsb.get());
    U14::low_bits(msb as u32 * 128 + lsb as u32)
}

// Unsets every half of these registers.
fn unset_all(channels: &mut [Registers])
    ensures { channels.new ≡ replicate (length channels.old) unset_registers }
{
    for registers in channels.iter_mut() {
        *registers = Registers::unset();
    }
}

impl Collector {
    /// Creates a collector for a stream before its first byte: no half of a register is set, and no
    /// parameter or controller has a value. If controllers are paired (own rule), the MSB and the LSB of a
    /// controller are one value of 14 bits. Allocates all the memory that the collector will ever need, a
    /// little more than 512 KiB. Returns `NoMemory` if the memory can't be allocated.
    pub fn new(alloc: Global, paired: bool) -> Result<Collector, NoMemory>
        ensures fresh { IfOk result (λ collector. collector ≡ fresh paired) }
        ensures holding { IfOk result IsHolding }
        ensures start { IfOk result (λ collector. Keeps collector (start as_they_come)) }
    {
        let Ok(mut registers) = Vec::with_capacity(alloc, 16) else {
            return Err(NoMemory);
        };
        for _ in 0..16usize {
            if registers.push(Registers::unset()).is_err() {
                return Err(NoMemory);
            }
        }
        let msbs = Msbs::new(alloc)?;
        let pairs = PairMsbs::new(alloc, paired)?;
        Ok(Collector {
            registers,
            msbs,
            paired,
            pairs,
        })
    }

    /// Forgets everything that control changes have set: the collector equals a new one, with controllers
    /// paired or not as before (own rule). Allocates no memory.
    pub fn reset(&mut self)
        ensures fresh { self.new ≡ fresh self.old.paired }
        ensures holding { IsHolding self.new }
        ensures start { Keeps self.new (start as_they_come) }
    {
        unset_all(&mut self.registers);
        self.msbs.clear();
        self.pairs.clear();
    }

    /// Applies one control change (MIDI 1.0 Detailed Specification, control change, bank select, registered
    /// and non-registered parameter numbers), and returns its result. A new value has 14 bits: an MSB
    /// clears the LSB, and an LSB keeps the MSB. Control change 121 also sets both parameter numbers to
    /// 127/127 (RP-015). After `DataIncrement`, `DataDecrement` and `Ignored` nothing has changed.
    #[inline(always)]
    pub fn control(&mut self, channel: U4, index: U7, value: U7) -> Collected
        ensures answer { result ≡
            answer_of (pairing self.old.paired (role_of index)) self.old channel index value }
        ensures after { self.new ≡
            holding_after (pairing self.old.paired (role_of index)) self.old channel index value }
        ensures unchanged { Leaves result self.old self.new }
        ensures index { IsIndexOf self.old.paired result index }
        ensures holding { IsHolding self.new }
        ensures meant { IsMeant self.old self.new channel index value result }
    {
        let role = ControlRole::of(index);
        self.act(channel, role, index, value)
    }

    // Applies a control change by its role. Roles of pairs count only if controllers are paired, which is
    // tested last.
    #[inline(always)]
    fn act(&mut self, channel: U4, role: ControlRole, index: U7, value: U7) -> Collected
        ensures answer { result ≡
            answer_of (pairing self.old.paired (role_in role)) self.old channel index value }
        ensures after { self.new ≡
            holding_after (pairing self.old.paired (role_in role)) self.old channel index value }
        ensures unchanged { Leaves result self.old self.new }
        ensures index { HasIndex (role_in role) index → IsIndexOf self.old.paired result index }
        ensures before { IsHolding self.old }
        ensures in_range { EntryInRange (pairing self.old.paired (role_in role)) channel
            (selected (registers_at self.old channel)) value }
    {
        // Borrowed here, so that the prover knows the sizes of the tables in each arm.
        let _ = &self.msbs;
        match role {
            ControlRole::DataMsb => self.enter_msb(channel, value),
            ControlRole::DataLsb => self.enter_lsb(channel, value),
            ControlRole::DataIncrement => Collected::DataIncrement,
            ControlRole::DataDecrement => Collected::DataDecrement,
            ControlRole::ResetAll => {
                self.reset_all_controllers(channel);
                Collected::Plain
            }
            ControlRole::Coarse if self.paired => self.enter_coarse(channel, index, value),
            ControlRole::Fine if self.paired => self.enter_fine(channel, index, value),
            ControlRole::ChannelMode
            | ControlRole::Coarse
            | ControlRole::Fine
            | ControlRole::Plain => Collected::Plain,
            ControlRole::BankMsb
            | ControlRole::BankLsb
            | ControlRole::NumberMsb(_)
            | ControlRole::NumberLsb(_) => {
                self.take(channel, role, value);
                Collected::Held
            }
        }
    }

    // Applies Reset All Controllers (RP-015).
    fn reset_all_controllers(&mut self, channel: U4)
        ensures after { self.new ≡ with_reset channel self.old }
        ensures channel_below { channel < 16 }
    {
        self.take(channel, ControlRole::ResetAll, U7::low_bits(0));
        self.pairs.set(channel, U7::low_bits(11), U7::low_bits(127));
        self.pairs.set(channel, U7::low_bits(1), U7::low_bits(0));
    }

    // Updates the channel's registers for a control change that isn't a data entry.
    #[inline(always)]
    fn take(&mut self, channel: U4, role: ControlRole, value: U7)
        ensures after { self.new ≡ at_registers channel (registers_after (role_in role) value) self.old }
    {
        let registers = &mut self.registers[channel.get() as usize];
        registers.take(role, value);
    }

    // Returns the parameter that a data entry of the channel sets.
    fn selected(&self, channel: U4) -> Option<Param>
        ensures param { result ≡ selected (registers_at self.now channel) }
        ensures in_range { IfSome result IsParam }
        ensures channel_below { channel < 16 }
    {
        self.registers[channel.get() as usize].selected()
    }

    // Applies a data entry of the MSB, which sets the LSB to 0.
    fn enter_msb(&mut self, channel: U4, value: U7) -> Collected
        ensures answer { result ≡
            entered (selected (registers_at self.old channel)) (λ param. value * 128) }
        ensures after { self.new ≡
            with_entry (selected (registers_at self.old channel)) channel value self.old }
        ensures unchanged { Leaves result self.old self.new }
        ensures in_range { AreInRange channel (selected (registers_at self.old channel)) value }
    {
        match self.selected(channel) {
            None => Collected::Ignored,
            Some(param) => {
                self.msbs.set(channel, &param, value);
                Collected::Set(param, of_halves(value, U7::low_bits(0)))
            }
        }
    }

    // Applies a data entry of the LSB, which keeps the MSB of its parameter.
    fn enter_lsb(&self, channel: U4, value: U7) -> Collected
        ensures answer { result ≡ entered (selected (registers_at self.now channel))
            (λ param. msb_at self.now channel param * 128 + value) }
        ensures in_range { AreInRange channel (selected (registers_at self.now channel)) value }
    {
        match self.selected(channel) {
            None => Collected::Ignored,
            Some(param) => {
                let msb = self.msbs.get(channel, &param);
                Collected::Set(param, of_halves(msb, value))
            }
        }
    }

    // Applies the MSB of a pair, which sets the LSB to 0.
    fn enter_coarse(&mut self, channel: U4, index: U7, value: U7) -> Collected
        ensures answer { result ≡ answer_of coarse self.old channel index value }
        ensures after { self.new ≡ holding_after coarse self.old channel index value }
        ensures in_range { (channel < 16) × (value < 128) }
    {
        self.pairs.set(channel, index, value);
        Collected::Pair(index, of_halves(value, U7::low_bits(0)))
    }

    // Applies the LSB of a pair, which keeps the MSB. Its index is higher by 32.
    fn enter_fine(&self, channel: U4, index: U7, value: U7) -> Collected
        ensures answer { result ≡ answer_of fine self.now channel index value }
        ensures in_range { (channel < 16) × (value < 128) }
    {
        let coarse = U7::low_bits(index.get().saturating_sub(32) as u32);
        let msb = self.pairs.get(channel, coarse);
        Collected::Pair(coarse, of_halves(msb, value))
    }

    /// Returns the bank for a program change that would come now (MIDI 1.0 Detailed Specification, bank
    /// select). An unset half is 0. `None` exactly if neither half was set.
    pub fn program(&self, channel: U4) -> Option<Bank>
        ensures exact { result ≡ bank_of (registers_at self.now channel) }
        ensures meant { (group : GroupState) → Keeps self.now group →
            result ≡ bank_of (group.channels channel).registers }
    {
        self.registers[channel.get() as usize].bank()
    }
}
