// The state of a channel.
ghost use Rattle.std.specs.Prelude.{◌≡◌, ◌++◌, IfOk, OnOk, OnErr};
ghost use Rattle.std.specs.Option.{option_map, option_to_list};
ghost use Rattle.midi_meaning.specs.Messages.{Scale, as_they_come, raised, start_channel};
ghost use Rattle.midi_meaning.specs.State as definition;
ghost use Rattle.voice_state.specs.Acts.{act_of};
ghost use Rattle.voice_state.specs.Facts.{bend_facts, channel_facts, pressure_facts, program_fact};
ghost use Rattle.voice_state.specs.Kept.{KeepsChannel};
ghost use Rattle.voice_state.specs.Rooms.{AreActsFull, IsFullWhere};
ghost use Rattle.voice_state.specs.ForProofs.Widths.{scale_of};

use crate::acts::Acts;
use crate::channel_facts::ChannelFacts;
use crate::fact::{Fact, put};
use crate::not_kept::{NotKept, Room};
use crate::note_act::NoteAct;
use crate::params::Params;
use crate::table::Table;
use crate::width::Width;
use midi_meaning::Registers;
use small_types::{NoMemory, U4};
use std::alloc::Global;
use voice_messages::{Bank, U7};

/// A program change, with the bank that was selected for it.
#[derive(Clone, Copy, Debug)]
pub(crate) struct ProgramChange {
    pub program: U7,
    pub bank: Option<Bank>,
}

/// The state in which messages have left a channel. The bend is `None` at its centre.
#[derive(Drop)]
pub(crate) struct Channel {
    pub acts: Acts,
    pub poly: Table,
    pub controllers: Table,
    pub pressure: u32,
    pub bend: Option<u32>,
    pub program: Option<ProgramChange>,
    pub params: Params,
    pub registers: Registers,
    pub room: Room,
}

impl Channel {
    /// Creates a channel without messages. Allocates the memory for `taken`.
    pub(crate) fn new(alloc: Global, taken: Room, room: Room) -> Result<Channel, NoMemory>
        ensures midi1 { IfOk result
            (λ channel. KeepsChannel as_they_come channel (start_channel as_they_come)) }
        ensures packets { IfOk result (λ channel. KeepsChannel raised channel (start_channel raised)) }
        ensures room { IfOk result (λ channel. channel.room ≡ room) }
    {
        let poly = Table::new(alloc)?;
        let controllers = Table::new(alloc)?;
        let acts = Acts::new(alloc, taken.notes)?;
        let params = Params::new(alloc, taken.params)?;
        Ok(Channel {
            acts,
            poly,
            controllers,
            pressure: 0,
            bend: None,
            program: None,
            params,
            registers: Registers::unset(),
            room,
        })
    }

    /// Empties the channel: it is as before its first message, with the same room. Its lists keep their
    /// memory.
    pub(crate) fn clear(&mut self)
        ensures midi1 { KeepsChannel as_they_come self.new (start_channel as_they_come) }
        ensures packets { KeepsChannel raised self.new (start_channel raised) }
        ensures room { self.new.room ≡ self.old.room }
    {
        self.acts.clear();
        self.poly.clear();
        self.controllers.clear();
        self.pressure = 0;
        self.bend = None;
        self.program = None;
        self.params.clear();
        self.registers = Registers::unset();
    }

    /// Adds a note or a channel mode message. If it can't be stored, nothing changes.
    pub(crate) fn act(&mut self, act: NoteAct) -> Result<(), NotKept>
        ensures step { OnOk result
            ((scale : Scale) (state : definition.Channel) → KeepsChannel scale self.old state
            → KeepsChannel scale self.new (definition.with_act (act_of act) state)) }
        ensures unchanged { OnErr result (self.new ≡ self.old) }
        ensures full { IsFullWhere result (AreActsFull self.old) }
        ensures room { self.new.room ≡ self.old.room }
    {
        self.acts.add(act, self.room.notes)
    }

    /// Sets the bend, which isn't stored at its centre.
    pub(crate) fn set_bend(&mut self, width: Width, value: u32)
        ensures step { (state : definition.Channel) → KeepsChannel (scale_of width) self.old state
            → KeepsChannel (scale_of width) self.new (definition.with_bend value state) }
        ensures room { self.new.room ≡ self.old.room }
    {
        self.bend = if value == width.centre() {
            None
        } else {
            Some(value)
        };
    }

    /// Stores a program change, with the bank that is selected.
    pub(crate) fn set_program(&mut self, program: U7)
        ensures step { (scale : Scale) (state : definition.Channel) → KeepsChannel scale self.old state
            → KeepsChannel scale self.new (definition.with_program program state) }
        ensures room { self.new.room ≡ self.old.room }
    {
        let bank = self.registers.bank();
        self.program = Some(ProgramChange { program, bank });
    }

    /// Appends the facts of the channel to a list.
    pub(crate) fn put_facts(
        &self,
        facts: &mut Vec<Fact>,
        group: U4,
        channel: U4,
    ) -> Result<(), NoMemory>
        ensures { OnOk result ((scale : Scale) (state : definition.Channel)
            → KeepsChannel scale self.now state
            → facts.new.items ≡ facts.old.items ++ channel_facts scale group channel state) }
    {
        for fact in ChannelFacts::of(self, group, channel) {
            put(facts, Some(fact))?;
        }
        Ok(())
    }

    pub(crate) fn pressure_fact(&self, group: U4, channel: U4) -> Option<Fact>
        ensures { (scale : Scale) (state : definition.Channel) → KeepsChannel scale self.now state
            → option_to_list result ≡ pressure_facts group channel state.pressure }
    {
        let value = self.pressure;
        if value == 0 {
            None
        } else {
            Some(Fact::Pressure {
                group,
                channel,
                value,
            })
        }
    }

    pub(crate) fn bend_fact(&self, group: U4, channel: U4) -> Option<Fact>
        ensures { (scale : Scale) (state : definition.Channel) → KeepsChannel scale self.now state
            → option_to_list result ≡ bend_facts (scale.wide 8192) group channel state.bend }
    {
        let value = self.bend?;
        Some(Fact::Bend {
            group,
            channel,
            value,
        })
    }

    pub(crate) fn program_fact(&self, group: U4, channel: U4) -> Option<Fact>
        ensures { (scale : Scale) (state : definition.Channel) → KeepsChannel scale self.now state
            → result ≡ option_map (program_fact group channel) state.program }
    {
        let ProgramChange { program, bank } = self.program?;
        Some(Fact::Program {
            group,
            channel,
            program,
            bank,
        })
    }
}
