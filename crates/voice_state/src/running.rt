// The state in which messages or packets have left a receiver.
ghost use Rattle.std.specs.Prelude.{◌≡◌, ◌++◌, true, false, None, IfOk, OnOk, OnErr};
ghost use Rattle.std.specs.Option.{option_to_list};
ghost use Rattle.voice_messages.specs.declared.voice1.System as system;
ghost use Rattle.midi1_bytes.specs.Messages.{Message, system_message, voice};
ghost use Rattle.midi_meaning.specs.Messages.{Scale, as_they_come, raised};
ghost use Rattle.midi_meaning.specs.State.{with_common, with_real_time};
ghost use Rattle.voice_state.specs.declared.fact.Fact.TheVariants as fact;
ghost use Rattle.voice_state.specs.Facts.{channel_facts, count_facts, count_of, facts_of};
ghost use Rattle.voice_state.specs.Kept.{Keeps};
ghost use Rattle.voice_state.specs.Rooms.{GroupIs, HasRoom, IsFullWhere, IsGroupFull1, IsGroupFull2, IsPacketFull, KeepsAllRooms, no_limit};
ghost use Rattle.voice_state.specs.States.{States, after_message, after_packet, after_voice1, after_voice2, at_group, first_states, is_real_time};
ghost use Rattle.voice_state.specs.ForProofs.Widths.{scale_of};

use crate::channel_facts::ChannelFacts;
use crate::fact::Fact;
use crate::group::Group;
use crate::not_kept::{NotKept, Room};
use crate::width::Width;
use small_types::{NoMemory, U4};
use std::alloc::Global;
use std::marker::Model;
use ump_grammar::Packet;
use voice_messages::{System, Voice1, Voice2};

/// The state in which the messages of a MIDI 1.0 stream, or the packets of a recording, have left a
/// receiver: the states of sixteen groups, with counts instead of the lists of system messages. In
/// contracts its value is what is stored for each group, and `Keeps` relates it to the states of the
/// definition.
///
/// Use one state either for messages, of 7 and 14 bits, or for packets, of 16 and 32 bits. Nothing is
/// promised about a state that has taken both.
///
/// Notes and channel mode messages are stored as a list of all that have arrived, and parameters in a list
/// by their numbers. The constructor allocates all other memory, and if the lists have a room, their memory
/// too.
#[derive(Drop)]
pub struct VoiceState {
    groups: Vec<Group>,
}

impl Model for VoiceState {
    ghost use Rattle.std.specs.Prelude.{◌≡◌, List, length};
    ghost use Rattle.voice_state.specs.Kept.{KeptGroup};

    ghost Value = { List KeptGroup };

    ghost view = { λ s. s.groups.items };

    ghost invariant = { λ s. length s.groups.items ≡ 16 };
}

impl VoiceState {
    /// Creates the state before the first message or packet. The lists have no limit and allocate memory as
    /// they grow. Returns `NoMemory` if the memory for the tables can't be allocated.
    pub fn new(alloc: Global) -> Result<VoiceState, NoMemory>
        ensures messages { IfOk result (λ state. Keeps as_they_come state (first_states as_they_come)) }
        ensures packets { IfOk result (λ state. Keeps raised state (first_states raised)) }
        ensures room { IfOk result (HasRoom no_limit no_limit) }
    {
        VoiceState::made(alloc, 0, Room::none(), Room::unlimited())
    }

    /// Creates the state before the first message or packet, with room for `notes` notes and mode messages
    /// in each channel, and for `params` parameters of each kind in each channel. Allocates all the memory
    /// that the state will ever need. Returns `NoMemory` if the memory can't be allocated.
    pub fn with_room(alloc: Global, notes: usize, params: usize) -> Result<VoiceState, NoMemory>
        ensures messages { IfOk result (λ state. Keeps as_they_come state (first_states as_they_come)) }
        ensures packets { IfOk result (λ state. Keeps raised state (first_states raised)) }
        ensures room { IfOk result (HasRoom notes params) }
    {
        let room = Room { notes, params };
        VoiceState::made(alloc, 16, room, room)
    }

    /// Creates the same state for a stream, all messages of which are in group 0 (own rule). Allocates the
    /// memory of the lists for that group only.
    pub fn of_stream(alloc: Global, notes: usize, params: usize) -> Result<VoiceState, NoMemory>
        ensures messages { IfOk result (λ state. Keeps as_they_come state (first_states as_they_come)) }
        ensures packets { IfOk result (λ state. Keeps raised state (first_states raised)) }
        ensures room { IfOk result (HasRoom notes params) }
    {
        let room = Room { notes, params };
        VoiceState::made(alloc, 1, room, room)
    }

    // Creates the state before the first message. Allocates the memory for `taken` in each channel of the
    // first `with_room` groups.
    fn made(alloc: Global, with_room: u8, taken: Room, room: Room) -> Result<VoiceState, NoMemory>
        ensures messages { IfOk result (λ state. Keeps as_they_come state (first_states as_they_come)) }
        ensures packets { IfOk result (λ state. Keeps raised state (first_states raised)) }
        ensures room { IfOk result (HasRoom room.notes room.params) }
    {
        let Ok(mut groups) = Vec::with_capacity(alloc, 16) else {
            return Err(NoMemory);
        };
        for index in 0..16u8 {
            let here = if index < with_room {
                taken
            } else {
                Room::none()
            };
            let Ok(group) = Group::new(alloc, here, room) else {
                return Err(NoMemory);
            };
            if groups.push(group).is_err() {
                return Err(NoMemory);
            }
        }
        Ok(VoiceState { groups })
    }

    /// Empties the state: it is as `new`, `with_room` or `of_stream` created it, with the same room.
    /// Allocates and frees no memory.
    pub fn reset(&mut self)
        ensures messages { Keeps as_they_come self.new (first_states as_they_come) }
        ensures packets { Keeps raised self.new (first_states raised) }
        ensures rooms { KeepsAllRooms self.old self.new }
    {
        for index in 0..16usize {
            let group = &mut self.groups[index];
            group.clear();
        }
    }

    /// Applies a channel voice message of a MIDI 1.0 stream to a group, as `take_message` does. Returns
    /// `NoMemory` if the message can't be stored because memory or room is lacking; then nothing changes.
    pub fn apply1(&mut self, group: U4, m: &Voice1) -> Result<(), NoMemory>
        ensures step { OnOk result ((states : States) → Keeps as_they_come self.old states
            → Keeps as_they_come self.new (after_message group (voice m.now) states)) }
        ensures unchanged { OnErr result (self.new ≡ self.old) }
    {
        match self.take_message(group, m) {
            Ok(()) => Ok(()),
            Err(_) => Err(NoMemory),
        }
    }

    /// Applies a packet, as `take_packet` does. Returns `NoMemory` if the packet can't be stored because
    /// memory or room is lacking; then nothing changes.
    pub fn apply2(&mut self, p: &Packet) -> Result<(), NoMemory>
        ensures step { OnOk result ((states : States) → Keeps raised self.old states
            → Keeps raised self.new (after_packet p.now None states)) }
        ensures unchanged { OnErr result (self.new ≡ self.old) }
    {
        match self.take_packet(p) {
            Ok(()) => Ok(()),
            Err(_) => Err(NoMemory),
        }
    }

    /// Applies a channel voice message of a MIDI 1.0 stream to a group (MIDI 1.0 Detailed Specification,
    /// channel voice messages; RP-015). Returns `Full` exactly if the message would be added to a list of
    /// its channel that is full. If the message can't be stored, nothing changes.
    pub fn take_message(&mut self, group: U4, m: &Voice1) -> Result<(), NotKept>
        ensures step { OnOk result ((states : States) → Keeps as_they_come self.old states
            → Keeps as_they_come self.new (after_message group (voice m.now) states)) }
        ensures unchanged { OnErr result (self.new ≡ self.old) }
        ensures full { IsFullWhere result (GroupIs self.old group (IsGroupFull1 m.now)) }
        ensures rooms { KeepsAllRooms self.old self.new }
    {
        self.voice1(Width::Midi1, group, m)
    }

    /// Applies a packet (M2-104-UM). A packet of an exclusive changes nothing, since `system` counts whole
    /// exclusives. Returns `Full` exactly if the packet would be added to a list of its channel that is
    /// full. If the packet can't be stored, nothing changes.
    pub fn take_packet(&mut self, p: &Packet) -> Result<(), NotKept>
        ensures step { OnOk result ((states : States) → Keeps raised self.old states
            → Keeps raised self.new (after_packet p.now None states)) }
        ensures unchanged { OnErr result (self.new ≡ self.old) }
        ensures full { IsFullWhere result (IsPacketFull p.now self.old) }
        ensures rooms { KeepsAllRooms self.old self.new }
    {
        match p {
            Packet::System { group, message } => {
                self.system(*group, is_real_time(message));
                Ok(())
            }
            Packet::Voice1 { group, message } => self.voice1(Width::Midi2, *group, message),
            Packet::Voice2 { group, message } => self.voice2(*group, message),
            Packet::Utility { .. }
            | Packet::Exclusive { .. }
            | Packet::Data8 { .. }
            | Packet::Flex { .. }
            | Packet::Stream { .. }
            | Packet::Reserved { .. } => Ok(()),
        }
    }

    /// Counts a system message of a group: a Real Time message if `real_time` is true, otherwise a common
    /// message or a whole exclusive. The counts saturate at their maximum.
    pub fn system(&mut self, group: U4, real_time: bool)
        ensures common { real_time ≡ false → (scale : Scale) (states : States) (message : Message)
            → Keeps scale self.old states
            → Keeps scale self.new (at_group group (with_common message) states) }
        ensures real_time { real_time ≡ true → (scale : Scale) (states : States) (message : system.System)
            → Keeps scale self.old states
            → Keeps scale self.new (at_group group (with_real_time message) states) }
        ensures rooms { KeepsAllRooms self.old self.new }
    {
        if real_time {
            self.count_real_time(group);
        } else {
            self.count_common(group);
        }
    }

    // Applies a message of the MIDI 1.0 protocol.
    fn voice1(&mut self, width: Width, group: U4, message: &Voice1) -> Result<(), NotKept>
        ensures step { OnOk result ((states : States) → Keeps (scale_of width) self.old states
            → Keeps (scale_of width) self.new
            (at_group group (after_voice1 (scale_of width) message.now) states)) }
        ensures unchanged { OnErr result (self.new ≡ self.old) }
        ensures full { IsFullWhere result (GroupIs self.old group (IsGroupFull1 message.now)) }
        ensures rooms { KeepsAllRooms self.old self.new }
    {
        let group = &mut self.groups[group.get() as usize];
        group.voice1(width, message)
    }

    // Applies a message of the MIDI 2.0 protocol.
    fn voice2(&mut self, group: U4, message: &Voice2) -> Result<(), NotKept>
        ensures step { OnOk result ((states : States) → Keeps raised self.old states
            → Keeps raised self.new (at_group group (after_voice2 message.now) states)) }
        ensures unchanged { OnErr result (self.new ≡ self.old) }
        ensures full { IsFullWhere result (GroupIs self.old group (IsGroupFull2 message.now)) }
        ensures rooms { KeepsAllRooms self.old self.new }
    {
        let group = &mut self.groups[group.get() as usize];
        group.voice2(message)
    }

    fn count_common(&mut self, group: U4)
        ensures step { (scale : Scale) (states : States) (message : Message)
            → Keeps scale self.old states
            → Keeps scale self.new (at_group group (with_common message) states) }
        ensures rooms { KeepsAllRooms self.old self.new }
    {
        let group = &mut self.groups[group.get() as usize];
        group.count_common();
    }

    fn count_real_time(&mut self, group: U4)
        ensures step { (scale : Scale) (states : States) (message : system.System)
            → Keeps scale self.old states
            → Keeps scale self.new (at_group group (with_real_time message) states) }
        ensures rooms { KeepsAllRooms self.old self.new }
    {
        let group = &mut self.groups[group.get() as usize];
        group.count_real_time();
    }

    /// Returns the facts about one channel of a group, one at a time, in the order of `facts` (own rule).
    /// Allocates no memory.
    pub fn channel_facts(&self, group: U4, channel: U4) -> ChannelFacts<'_>
        ensures { (scale : Scale) (states : States) → Keeps scale self.now states
            → result ≡ channel_facts scale group channel ((states group).channels channel) }
    {
        self.groups[group.get() as usize].channel_facts(group, channel)
    }

    /// Returns the count of a group's system common messages and exclusives, if any have arrived.
    pub fn system_fact(&self, group: U4) -> Option<Fact>
        ensures { (scale : Scale) (states : States) → Keeps scale self.now states
            → option_to_list result ≡ count_facts (fact.System group) (count_of (states group).commons) }
    {
        self.groups[group.get() as usize].system_fact(group)
    }

    /// Returns the count of a group's Real Time messages, if any have arrived.
    pub fn real_time_fact(&self, group: U4) -> Option<Fact>
        ensures { (scale : Scale) (states : States) → Keeps scale self.now states
            → option_to_list result ≡ count_facts (fact.RealTime group) (count_of (states group).real_times) }
    {
        self.groups[group.get() as usize].real_time_fact(group)
    }

    /// Returns a fact for every note and mode message, and for every value that isn't the initial one, in
    /// this order (own rule). The facts are ordered by group and channel. Within a channel come the notes
    /// and mode messages in the order of arrival, then poly pressures by note, controllers by index, the
    /// pressure, the bend, the program, and registered and assignable parameters by bank and index. The
    /// counts of a group come after its channels.
    pub fn facts(&self, alloc: Global) -> Result<Vec<Fact>, NoMemory>
        ensures { IfOk result (λ facts. (scale : Scale) (states : States) → Keeps scale self.now states
            → facts.items ≡ facts_of scale states) }
    {
        let mut facts = Vec::new(alloc);
        self.put_facts(&mut facts)?;
        Ok(facts)
    }

    /// Appends the facts to a list. Returns `NoMemory` if the list has to grow and the memory can't be
    /// allocated.
    pub fn put_facts(&self, facts: &mut Vec<Fact>) -> Result<(), NoMemory>
        ensures { OnOk result ((scale : Scale) (states : States) → Keeps scale self.now states
            → facts.new.items ≡ facts.old.items ++ facts_of scale states) }
    {
        for index in 0..16u8 {
            self.groups[index as usize].put_facts(facts, U4::low_bits(index as u32))?;
        }
        Ok(())
    }
}

// Returns whether a system message is a Real Time message.
fn is_real_time(message: &System) -> bool
    ensures { result ≡ is_real_time (system_message message.now) }
{
    match message {
        System::Quarter(_) | System::Position(_) | System::Song(_) | System::Tune => false,
        System::Clock
        | System::Start
        | System::Continue
        | System::Stop
        | System::Sensing
        | System::Reset => true,
    }
}
