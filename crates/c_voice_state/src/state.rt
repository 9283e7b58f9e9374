// The running state of packets.
ghost use Rattle.std.specs.Prelude.{◌≡◌, ◌≢◌, ◌≤◌, length, None, IfOk};
ghost use Rattle.ump_grammar.specs.Ranges.{IsPacket};
ghost use Rattle.sysex_groups.specs.Exclusives.{IsData};
ghost use Rattle.sysex_groups.specs.Table.{answer_to, empty_table, with_part};
ghost use Rattle.midi_meaning.specs.Messages.{raised, Scale};
ghost use Rattle.voice_state.specs.Kept.{Keeps};
ghost use Rattle.voice_state.specs.Rooms.{HasRoom, IsPacketFull, KeepsAllRooms};
ghost use Rattle.voice_state.specs.States.{after_packet, first_states, States};
ghost use Rattle.c_answers.specs.Numbers.{number_of};
ghost use Rattle.c_voice_state.specs.Facts.{HasFacts};
ghost use Rattle.c_voice_state.specs.Kept.{kept_status, takes_part, ArePacketsTaken, Changes, IsPacketTaken, IsTaken};

use crate::fact_numbers::FactNumbers;
use crate::told::tell_facts;
use c_answers::{Block, Status, framed};
use packet_words::words::words_in_packet;
use small_types::{NoMemory, U4};
use std::alloc::Global;
use std::marker::Model;
use sysex_groups::{Fed, Groups};
use ump_grammar::{Packet, decode};
use voice_messages::Form;
use voice_state::{NotKept, VoiceState};

// Returns the status for a message, by whether it is stored.
pub(crate) fn kept_status(kept: Result<(), NotKept>) -> Status
    ensures { number_of result ≡ kept_status kept }
{
    match kept {
        Ok(()) => Status::Done,
        Err(NotKept::Full) => Status::StateFull,
        Err(NotKept::NoMemory) => Status::NoMemory,
    }
}

/// The state in which the packets so far leave a receiver. In contracts its value is the stored state of the
/// groups, and the exclusives that they have open.
///
/// Notes and channel mode messages are stored as a list of all that came, and parameters by their numbers.
/// `new` allocates all the memory.
#[derive(Drop)]
pub struct CPacketState {
    state: VoiceState,
    groups: Groups,
}

impl Model for CPacketState {
    ghost use Rattle.c_voice_state.specs.Kept.{StateKept};

    ghost Value = { StateKept };

    ghost view = { λ s. record { kept = s.state; exclusives = s.groups } };
}

impl CPacketState {
    /// Creates the state before the first packet, for exclusives of `room` bytes between F0 and F7, 6 to
    /// 1,048,576, with room for `notes` notes and mode messages of each channel, and for `params` parameters
    /// of each kind and channel (own rule). Allocates all the memory that the state will ever need. Returns
    /// `NoMemory` if there isn't enough.
    pub fn new(alloc: Global, room: u32, notes: u32, params: u32) -> Result<CPacketState, NoMemory>
        requires least { 6 ≤ room }
        requires most { room ≤ 1048576 }
        ensures exclusives { IfOk result (λ state. state.exclusives ≡ empty_table room) }
        ensures kept { IfOk result (λ state. Keeps raised state.kept (first_states raised)) }
        ensures room { IfOk result (λ state. HasRoom notes params state.kept) }
    {
        let state = VoiceState::with_room(alloc, notes as usize, params as usize)?;
        let groups = Groups::new(alloc, room)?;
        Ok(CPacketState { state, groups })
    }

    // Takes a part of an exclusive, and counts the exclusive if it is now whole.
    fn part(&mut self, group: U4, form: Form, bytes: &[u8]) -> Status
        requires few { length bytes.now ≤ 6 }
        requires data_bytes { IsData bytes.now }
        ensures exclusives { self.new.exclusives ≡
            with_part (record { group = group; form = form; bytes = bytes.now; offset = 0 })
            self.old.exclusives }
        ensures kept { takes_part (answer_to self.old.exclusives
            (record { group = group; form = form; bytes = bytes.now; offset = 0 }))
            group self.old.kept (number_of result) self.new.kept }
    {
        match self.groups.feed(group, form, bytes, 0) {
            Fed::Whole(_) => {
                self.state.system(group, false);
                Status::Done
            }
            Fed::RestartedWhole { .. } => {
                self.state.system(group, false);
                Status::Done
            }
            Fed::TooLong => Status::ExclusiveTooLong,
            Fed::Held | Fed::Stray | Fed::Restarted { .. } => Status::Done,
        }
    }

    // Takes a packet.
    fn take(&mut self, packet: &Packet) -> Status
        requires { IsPacket packet.now }
        ensures { IsTaken self.old packet.now (number_of result) self.new }
    {
        match packet {
            Packet::Exclusive { group, form, bytes } => self.part(*group, *form, bytes.as_slice()),
            _ => self.other(packet),
        }
    }

    // Takes a packet that has no part of an exclusive.
    fn other(&mut self, packet: &Packet) -> Status
        ensures exclusives { self.new.exclusives ≡ self.old.exclusives }
        ensures kept { Changes raised (after_packet packet.now None)
            (IsPacketFull packet.now self.old.kept) self.old.kept (number_of result) self.new.kept }
    {
        kept_status(self.state.take_packet(packet))
    }

    /// Takes the packet that the words encode (M2-104-UM). Returns `BadWordCount` if the words aren't those
    /// of one packet, `BadCount` or `HighBit` if no packet has these words, and `StateFull` exactly if the
    /// message would add to a list that is full. In these cases nothing has changed. `ExclusiveTooLong` drops
    /// the exclusive of the group. The clauses also allow `NoMemory`, which changes nothing.
    pub fn packet(&mut self, words: &[u32]) -> Status
        ensures { IsPacketTaken self.old words.now (number_of result) self.new }
    {
        let Some(framed) = framed(words, 0) else {
            return Status::BadWordCount;
        };
        match decode(&framed) {
            Ok(packet) => self.take(&packet),
            Err(bad) => Status::of_bad(bad),
        }
    }

    /// Takes packets whose words follow one another, each as `packet` does. `block` says how far the call
    /// came. Returns `Done` if all words are taken, and `BadWordCount` before a last packet whose words are
    /// incomplete. A packet that is refused ends the call with its status, and its words count as taken and
    /// as refused.
    pub fn packets(&mut self, words: &[u32], block: &mut Block) -> Status
        ensures { ArePacketsTaken self.old words.now (number_of result) block.new self.new }
    {
        *block = Block::nothing();
        while block.taken < words.len() {
            let rest = &words[block.taken..];
            let count = words_in_packet(rest[0]);
            if rest.len() < count {
                return Status::BadWordCount;
            }
            match self.packet(&rest[..count]) {
                Status::Done => block.add(count, 0, 0),
                why => {
                    block.refuse(count);
                    return why;
                }
            }
        }
        Status::Done
    }

    /// Returns the state to the one that `new` creates with the same arguments (own rule). The call doesn't
    /// allocate.
    pub fn reset(&mut self)
        ensures exclusives { self.new.exclusives ≡ empty_table self.old.exclusives.room }
        ensures kept { Keeps raised self.new.kept (first_states raised) }
        ensures rooms { KeepsAllRooms self.old.kept self.new.kept }
    {
        self.state.reset();
        self.groups.reset();
    }

    /// Writes the facts of one channel of a group, 0 to 15 each, to the front of the buffer, and their number
    /// to `written`. They are everything that isn't in its initial state, in the order of `show --state`.
    /// With channel 255, the facts are the counts of the group's system messages (own rule).
    ///
    /// Returns the first that applies of `BadGroup`, `BadChannel`, and `SmallBuffer` if the buffer is smaller
    /// than the number of facts. No fact is written then. With `SmallBuffer`, `need` is the number of facts,
    /// at most 2^64 - 1; otherwise it is 0.
    pub fn facts(
        &self,
        group: u8,
        channel: u8,
        buffer: &mut [FactNumbers],
        written: &mut usize,
        need: &mut usize,
    ) -> Status
        ensures { HasFacts self.now.kept group channel buffer.old
            (number_of result) written.new need.new buffer.new }
    {
        tell_facts(&self.state, group, channel, buffer, written, need)
    }
}
