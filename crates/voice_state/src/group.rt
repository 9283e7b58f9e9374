// The state of a group.
ghost use Rattle.std.specs.Prelude.{◌≡◌, ◌++◌, IfOk, OnOk, OnErr};
ghost use Rattle.std.specs.Option.{option_to_list};
ghost use Rattle.voice_messages.specs.declared.voice1.System as system;
ghost use Rattle.midi1_bytes.specs.Messages.{Message};
ghost use Rattle.midi_meaning.specs.Messages.{Scale, as_they_come, raised, start};
ghost use Rattle.midi_meaning.specs.State.{GroupState, with_common, with_real_time};
ghost use Rattle.voice_state.specs.declared.fact.Fact.TheVariants as fact;
ghost use Rattle.voice_state.specs.Facts.{channel_facts, count_facts, facts_of_channels, group_facts};
ghost use Rattle.voice_state.specs.Kept.{KeepsGroup};
ghost use Rattle.voice_state.specs.Rooms.{ChannelsHaveRoom, IsFullWhere, IsGroupFull1, IsGroupFull2, KeepsRooms};
ghost use Rattle.voice_state.specs.States.{after_voice1, after_voice2};
ghost use Rattle.voice_state.specs.ForProofs.Widths.{scale_of};

use crate::channel::Channel;
use crate::channel_facts::ChannelFacts;
use crate::fact::{Fact, put};
use crate::not_kept::{NotKept, Room};
use crate::width::Width;
use small_types::{NoMemory, U4};
use std::alloc::Global;
use std::marker::Model;
use voice_messages::{Voice1, Voice2};

/// The state in which messages have left the sixteen channels of a group, and the number of system messages
/// that have arrived. In contracts its value is a record of these.
#[derive(Drop)]
pub(crate) struct Group {
    channels: Vec<Channel>,
    commons: u64,
    real_times: u64,
}

impl Model for Group {
    ghost use Rattle.std.specs.Prelude.{◌≡◌, length};
    ghost use Rattle.voice_state.specs.Kept.{KeptGroup};

    ghost Value = { KeptGroup };

    ghost view = { λ g. record {
      channels = g.channels.items;
      commons = g.commons;
      real_times = g.real_times;
    } };

    ghost invariant = { λ g. length g.channels.items ≡ 16 };
}

impl Group {
    /// Creates a group before its first message. Allocates the memory for `taken` in each channel.
    pub(crate) fn new(alloc: Global, taken: Room, room: Room) -> Result<Group, NoMemory>
        ensures midi1 { IfOk result (λ group. KeepsGroup as_they_come group (start as_they_come)) }
        ensures packets { IfOk result (λ group. KeepsGroup raised group (start raised)) }
        ensures rooms { IfOk result (ChannelsHaveRoom room) }
    {
        let Ok(mut channels) = Vec::with_capacity(alloc, 16) else {
            return Err(NoMemory);
        };
        for _ in 0..16usize {
            let Ok(channel) = Channel::new(alloc, taken, room) else {
                return Err(NoMemory);
            };
            if channels.push(channel).is_err() {
                return Err(NoMemory);
            }
        }
        Ok(Group {
            channels,
            commons: 0,
            real_times: 0,
        })
    }

    /// Empties the group: it is as before its first message, with the same rooms. Allocates and frees no
    /// memory.
    pub(crate) fn clear(&mut self)
        ensures midi1 { KeepsGroup as_they_come self.new (start as_they_come) }
        ensures packets { KeepsGroup raised self.new (start raised) }
        ensures rooms { KeepsRooms self.old self.new }
    {
        for index in 0..16usize {
            let channel = &mut self.channels[index];
            channel.clear();
        }
        self.commons = 0;
        self.real_times = 0;
    }

    /// Applies a message of the MIDI 1.0 protocol. If it can't be stored, nothing changes.
    pub(crate) fn voice1(&mut self, width: Width, message: &Voice1) -> Result<(), NotKept>
        ensures step { OnOk result ((state : GroupState) → KeepsGroup (scale_of width) self.old state
            → KeepsGroup (scale_of width) self.new (after_voice1 (scale_of width) message.now state)) }
        ensures unchanged { OnErr result (self.new ≡ self.old) }
        ensures full { IsFullWhere result (IsGroupFull1 message.now self.old) }
        ensures rooms { KeepsRooms self.old self.new }
    {
        let channel = &mut self.channels[message.channel().get() as usize];
        channel.voice1(width, message)
    }

    /// Applies a message of the MIDI 2.0 protocol. If it can't be stored, nothing changes.
    pub(crate) fn voice2(&mut self, message: &Voice2) -> Result<(), NotKept>
        ensures step { OnOk result ((state : GroupState) → KeepsGroup raised self.old state
            → KeepsGroup raised self.new (after_voice2 message.now state)) }
        ensures unchanged { OnErr result (self.new ≡ self.old) }
        ensures full { IsFullWhere result (IsGroupFull2 message.now self.old) }
        ensures rooms { KeepsRooms self.old self.new }
    {
        let channel = &mut self.channels[message.channel().get() as usize];
        channel.voice2(message)
    }

    /// Counts a system common message or an exclusive.
    pub(crate) fn count_common(&mut self)
        ensures step { (scale : Scale) (state : GroupState) (message : Message)
            → KeepsGroup scale self.old state
            → KeepsGroup scale self.new (with_common message state) }
        ensures rooms { KeepsRooms self.old self.new }
    {
        self.commons = self.commons.saturating_add(1);
    }

    /// Counts a system Real Time message.
    pub(crate) fn count_real_time(&mut self)
        ensures step { (scale : Scale) (state : GroupState) (message : system.System)
            → KeepsGroup scale self.old state
            → KeepsGroup scale self.new (with_real_time message state) }
        ensures rooms { KeepsRooms self.old self.new }
    {
        self.real_times = self.real_times.saturating_add(1);
    }

    /// Appends the facts of the group: those of its channels, then the counts that aren't 0.
    pub(crate) fn put_facts(&self, facts: &mut Vec<Fact>, group: U4) -> Result<(), NoMemory>
        ensures { OnOk result ((scale : Scale) (state : GroupState) → KeepsGroup scale self.now state
            → facts.new.items ≡ facts.old.items ++ group_facts scale group state) }
    {
        self.put_channel_facts(facts, group)?;
        put(facts, self.system_fact(group))?;
        put(facts, self.real_time_fact(group))
    }

    fn put_channel_facts(&self, facts: &mut Vec<Fact>, group: U4) -> Result<(), NoMemory>
        ensures { OnOk result ((scale : Scale) (state : GroupState) → KeepsGroup scale self.now state
            → facts.new.items ≡ facts.old.items ++ facts_of_channels 16 scale group state) }
    {
        for index in 0..16u8 {
            self.channels[index as usize].put_facts(facts, group, U4::low_bits(index as u32))?;
        }
        Ok(())
    }

    /// Returns the facts of a channel.
    pub(crate) fn channel_facts(&self, group: U4, channel: U4) -> ChannelFacts<'_>
        ensures { (scale : Scale) (state : GroupState) → KeepsGroup scale self.now state
            → result ≡ channel_facts scale group channel (state.channels channel) }
    {
        ChannelFacts::of(&self.channels[channel.get() as usize], group, channel)
    }

    /// Returns the count of the system common messages and exclusives, if it isn't 0.
    pub(crate) fn system_fact(&self, group: U4) -> Option<Fact>
        ensures { option_to_list result ≡ count_facts (fact.System group) self.now.commons }
    {
        let count = self.commons;
        if count == 0 {
            None
        } else {
            Some(Fact::System { group, count })
        }
    }

    /// Returns the count of the Real Time messages, if it isn't 0.
    pub(crate) fn real_time_fact(&self, group: U4) -> Option<Fact>
        ensures { option_to_list result ≡ count_facts (fact.RealTime group) self.now.real_times }
    {
        let count = self.real_times;
        if count == 0 {
            None
        } else {
            Some(Fact::RealTime { group, count })
        }
    }
}
