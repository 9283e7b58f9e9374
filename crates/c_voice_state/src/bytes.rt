// The running state of a MIDI 1.0 stream.
ghost use Rattle.std.specs.Prelude.{◌≡◌, ◌≢◌, ◌≤◌, IfOk};
ghost use Rattle.midi1_bytes.specs.Answers.{step_view};
ghost use Rattle.midi1_bytes.specs.Messages.{voice};
ghost use Rattle.midi1_bytes.specs.Parsing.{idle};
ghost use Rattle.midi_meaning.specs.Messages.{as_they_come, Scale};
ghost use Rattle.voice_state.specs.Kept.{Keeps};
ghost use Rattle.voice_state.specs.Rooms.{GroupIs, HasRoom, IsGroupFull1, KeepsAllRooms};
ghost use Rattle.voice_state.specs.States.{after_message, first_states, States};
ghost use Rattle.c_answers.specs.Numbers.{number_of};
ghost use Rattle.c_voice_state.specs.Bytes.{takes_step, AreBytesTaken, IsByteTaken};
ghost use Rattle.c_voice_state.specs.Facts.{HasFacts};
ghost use Rattle.c_voice_state.specs.Kept.{Changes};

use crate::fact_numbers::FactNumbers;
use crate::state::kept_status;
use crate::told::tell_facts;
use c_answers::{Block, Status};
use midi1_bytes::{AfterCut, Parser, Step, Voice1};
use small_types::{NoMemory, U4};
use std::alloc::Global;
use std::marker::Model;
use voice_state::VoiceState;

/// The state in which the bytes of a MIDI 1.0 stream so far leave a receiver. In contracts its value is the
/// stored state of the groups, and the state of the parser. A stream has no groups: all its messages are in
/// group 0 (own rule).
#[derive(Drop)]
pub struct CByteState {
    state: VoiceState,
    parser: Parser,
}

impl Model for CByteState {
    ghost use Rattle.c_voice_state.specs.Bytes.{ByteKept};

    ghost Value = { ByteKept };

    ghost view = { λ s. record { kept = s.state; parsing = s.parser } };
}

// Returns the group that is used for a stream, which has none (own rule).
fn stream_group() -> U4
    ensures { result ≡ 0 }
{
    U4::low_bits(0)
}

// Updates the state with a voice message.
fn take_voice(state: &mut VoiceState, message: &Voice1) -> Status
    ensures { Changes as_they_come (after_message 0 (voice message.now))
        (GroupIs state.old 0 (IsGroupFull1 message.now)) state.old (number_of result) state.new }
{
    kept_status(state.take_message(stream_group(), message))
}

// Updates the state with the step of a byte.
fn take_step(state: &mut VoiceState, step: &Step<'_>) -> Status
    ensures { takes_step (step_view step.now) state.old (number_of result) state.new }
{
    match step {
        Step::Voice(bytes) => take_voice(state, &bytes.message()),
        Step::RealTime(_) => {
            state.system(stream_group(), true);
            Status::Done
        }
        Step::Common(_) => {
            state.system(stream_group(), false);
            Status::Done
        }
        Step::Exclusive(_) => {
            state.system(stream_group(), false);
            Status::Done
        }
        Step::Cut { after, .. } => match after {
            AfterCut::Tune => {
                state.system(stream_group(), false);
                Status::Done
            }
            AfterCut::Begins | AfterCut::Undefined | AfterCut::Stray => Status::Done,
        },
        Step::Held | Step::Stray | Step::Undefined => Status::Done,
        Step::TooLong => Status::ExclusiveTooLong,
    }
}

impl CByteState {
    /// Creates the state before the first byte, for exclusives of `room` bytes between F0 and F7, 6 to
    /// 1,048,576, with room for `notes` notes and mode messages of each channel, and for `params` parameters
    /// of each kind and channel (own rule). Allocates all the memory that the state will ever need. Returns
    /// `NoMemory` if there isn't enough.
    pub fn new(alloc: Global, room: u32, notes: u32, params: u32) -> Result<CByteState, NoMemory>
        requires least { 6 ≤ room }
        requires most { room ≤ 1048576 }
        ensures parsing { IfOk result (λ state. state.parsing ≡ idle room) }
        ensures kept { IfOk result (λ state. Keeps as_they_come state.kept (first_states as_they_come)) }
        ensures room { IfOk result (λ state. HasRoom notes params state.kept) }
    {
        let state = VoiceState::of_stream(alloc, notes as usize, params as usize)?;
        let parser = Parser::new(alloc, room)?;
        Ok(CByteState { state, parser })
    }

    /// Takes one more byte (MIDI 1.0 Detailed Specification; RP-015). Returns `ExclusiveTooLong` if the byte
    /// makes the exclusive longer than the limit; the exclusive is dropped. Returns `StateFull` exactly if
    /// the message that the byte completes would add to a list that is full; the message isn't stored. The
    /// byte is taken in either case. The clauses also allow `NoMemory` if a message isn't stored.
    pub fn byte(&mut self, byte: u8) -> Status
        ensures { IsByteTaken self.old byte (number_of result) self.new }
    {
        let step = self.parser.byte(byte, 0);
        take_step(&mut self.state, &step)
    }

    /// Takes bytes that follow one another, each as `byte` does. `block` says how far the call came. Returns
    /// `Done` if all bytes are taken. A byte that is refused ends the call with its status, and counts as
    /// taken and as refused.
    pub fn bytes(&mut self, bytes: &[u8], block: &mut Block) -> Status
        ensures { AreBytesTaken self.old bytes.now (number_of result) block.new self.new }
    {
        *block = Block::nothing();
        while block.taken < bytes.len() {
            match self.byte(bytes[block.taken]) {
                Status::Done => block.add(1, 0, 0),
                why => {
                    block.refuse(1);
                    return why;
                }
            }
        }
        Status::Done
    }

    /// Returns the state to the one that `new` creates with the same arguments (own rule). The call doesn't
    /// allocate.
    pub fn reset(&mut self)
        ensures parsing { self.new.parsing ≡ idle self.old.parsing.room }
        ensures kept { Keeps as_they_come self.new.kept (first_states as_they_come) }
        ensures rooms { KeepsAllRooms self.old.kept self.new.kept }
    {
        self.state.reset();
        self.parser.reset();
    }

    /// Writes the facts of one channel of a group, 0 to 15 each, to the front of the buffer, and their number
    /// to `written`. They are everything that isn't in its initial state, in the order of `show --state`.
    /// With channel 255, the facts are the counts of the group's system messages (own rule).
    ///
    /// Returns the first that applies of `BadGroup`, `BadChannel`, and `SmallBuffer` if the buffer is smaller
    /// than the number of facts. No fact is written then. With `SmallBuffer`, `need` is the number of facts,
    /// at most 2^64 - 1; otherwise it is 0.
    pub fn facts(
        &self,
        group: u8,
        channel: u8,
        buffer: &mut [FactNumbers],
        written: &mut usize,
        need: &mut usize,
    ) -> Status
        ensures { HasFacts self.now.kept group channel buffer.old
            (number_of result) written.new need.new buffer.new }
    {
        tell_facts(&self.state, group, channel, buffer, written, need)
    }
}
