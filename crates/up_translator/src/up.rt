// The translator from MIDI 1.0 bytes to packets.
ghost use Rattle.std.specs.Prelude.{◌≡◌, ◌≢◌, ◌≤◌, ℕ, [], length, map, take, IfOk, MatchOption, Option};
ghost use Rattle.std.specs.Option.{option_map, option_to_list};
ghost use Rattle.midi1_bytes.specs.Answers.{step_view, LendsData, LendsFramed};
ghost use Rattle.midi1_bytes.specs.Fronts.{data_taken};
ghost use Rattle.midi1_bytes.specs.Parsing.{ended_by, Begun};
ghost use Rattle.midi_meaning.specs.StepListing.{kinds_at_end, line_up};
ghost use Rattle.param_collector.specs.Holding.{Holding};
ghost use Rattle.up_translator.specs.Step.{Accepts};

use crate::direct_message::DirectVoice;
use crate::raised::Raised;
use crate::raiser::Raiser;
use encoded_packets::DirectMessage;
use midi_meaning::lines::{cut_off, kind_of_open, stray, undefined};
use midi_meaning::{BadStep, Listed};
use midi1_bytes::{AfterCut, Parser, PlainStep, Step, System};
use param_collector::Collector;
use param_collector::laws::other_messages_change_nothing_kept;
use small_types::{NoMemory, U4};
use std::alloc::Global;
use std::marker::Model;
use voice_messages::END_OF_EXCLUSIVE;

// Returns the outcome of F7: the exclusive that F7 ends, or the line of the message that it cuts off and
// the line of F7 itself, which then belongs to no message.
#[inline(always)]
fn raised_end<'a>(group: U4, step: Step<'a>, offset: u64) -> Raised<'a>
    requires ended { (begun : Option Begun) × (step_view step ≡ ended_by begun) }
    requires framed { LendsFramed step }
    requires data_bytes { LendsData step }
    ensures { (holding : Holding) → Accepts holding group offset (step_view step.entry) result }
{
    match step {
        Step::Exclusive(bytes) => Raised::of_exclusive(group, bytes),
        Step::Cut { start, what, .. } => {
            Raised::only_listed(group, Some(cut_off(start, what)), Some(stray(offset)))
        }
        // F7 neither ends an exclusive nor cuts anything off, so it belongs to no message.
        _ => Raised::only_listed(group, Some(stray(offset)), None),
    }
}

/// The result of `Up::direct` for one more byte.
#[derive(Debug, Drop)]
pub enum DirectStep {
    /// The byte begins or continues a message or an exclusive, and completes no packet.
    Held,
    /// The byte completes a message that is translated into this one.
    Message(DirectVoice),
    /// Any other byte. It hasn't been taken.
    Other,
}

/// Translates the bytes of one MIDI 1.0 stream to packets of one group. In contracts its value is the
/// group, the open message or exclusive, and the state that control changes have set.
#[derive(Drop)]
pub struct Up {
    parser: Parser,
    raiser: Raiser,
}

impl Model for Up {
    ghost use Rattle.up_translator.specs.Held.{UpState};

    ghost Value = { UpState };

    ghost view = { λ up. record {
      group = up.raiser.group;
      parsing = up.parser;
      holding = up.raiser.holding;
    } };
}

impl Up {
    ghost use Rattle.std.specs.Borrow.{sem};
    ghost use Rattle.midi1_bytes.specs.Parsing.{idle, open_of};
    ghost use Rattle.param_collector.specs.Holding.{fresh};
    ghost use Rattle.up_translator.specs.Fronts.{HasNoDirectFront, IsDirect, IsDirectFront, RaiseNothing};
    ghost use Rattle.up_translator.specs.Held.{KeepsAfter, step_in, up_after};
    ghost use Rattle.up_translator.specs.Lend.{KeepsUp};
    ghost use Rattle.up_translator.specs.Recording.{HoldsUp};
    ghost use Rattle.up_translator.specs.Step.{Raises};

    /// Creates a translator into a group, for a stream before its first byte. Controllers are paired or not
    /// (own rule). Allocates all the memory that the translator will ever need: for an exclusive with
    /// `room` bytes between F0 and F7, 6 to 1,048,576, and a little more than 512 KiB for the values that
    /// control changes set. Returns `NoMemory` if the memory can't be allocated.
    pub fn new(alloc: Global, group: U4, room: u32, paired: bool) -> Result<Up, NoMemory>
        requires least { 6 ≤ room }
        requires most { room ≤ 1048576 }
        ensures fresh { IfOk result (λ up.
            up ≡ record { group = group; parsing = idle room; holding = fresh paired }) }
        ensures holds { IfOk result (HoldsUp paired room group []) }
    {
        let parser = Parser::new(alloc, room)?;
        let collector = Collector::new(alloc, paired)?;
        Ok(Up {
            parser,
            raiser: Raiser::new(group, collector, paired),
        })
    }

    /// Drops the open message or exclusive and everything that control changes have set. The translator
    /// then equals a new one with the same group and limit, and with controllers paired or not as before
    /// (own rule). Allocates no memory.
    pub fn reset(&mut self)
        ensures fresh { self.new ≡ record {
          group = self.old.group;
          parsing = idle self.old.parsing.room;
          holding = fresh self.old.holding.paired;
        } }
        ensures holds { HoldsUp self.old.holding.paired self.old.parsing.room self.old.group [] self.new }
    {
        self.parser.reset();
        self.raiser.reset();
    }

    // Takes F7, which ends an exclusive, cuts off a message, or belongs to no message.
    #[inline(always)]
    fn end_exclusive(&mut self, offset: u64) -> Result<Raised<'_>, BadStep>
        ensures answer { Raises self.old offset 247 result }
        ensures kept { KeepsAfter self.old.holding (step_in self.old offset 247) }
        ensures* after { sem 𝓛 (KeepsUp self.entry (up_after self.old offset 247)) }
    {
        other_messages_change_nothing_kept();
        let group = self.raiser.group();
        Ok(raised_end(group, self.parser.byte(END_OF_EXCLUSIVE, offset), offset))
    }

    // Takes any other byte. It ends no exclusive.
    #[inline(always)]
    fn take(&mut self, byte: u8, offset: u64) -> Result<Raised<'_>, BadStep>
        requires { byte ≢ 247 }
        ensures answer { Raises self.old offset byte result }
        ensures kept { KeepsAfter self.old.holding (step_in self.old offset byte) }
        ensures* after { sem 𝓛 (KeepsUp self.entry (up_after self.old offset byte)) }
    {
        other_messages_change_nothing_kept();
        match self.parser.byte(byte, offset) {
            Step::Held => Ok(Raised::only_listed(self.raiser.group(), None, None)),
            Step::Voice(bytes) => self.raiser.voice(&bytes, offset),
            Step::Common(bytes) => Ok(self.raiser.system(bytes.message(), None)),
            Step::RealTime(byte) => Ok(self.raiser.system(byte.message(), None)),
            // Only F7 ends an exclusive, and this byte is another one.
            Step::Exclusive(_) => unreachable!(),
            Step::Stray => Ok(Raised::only_listed(self.raiser.group(), Some(stray(offset)), None)),
            Step::Undefined => Ok(Raised::only_listed(
                self.raiser.group(),
                Some(undefined(offset)),
                None,
            )),
            Step::Cut {
                start,
                what,
                after: AfterCut::Begins,
            } => Ok(Raised::only_listed(self.raiser.group(), Some(cut_off(start, what)), None)),
            Step::Cut {
                start,
                what,
                after: AfterCut::Tune,
            } => Ok(self.raiser.system(System::Tune, Some(cut_off(start, what)))),
            Step::Cut {
                start,
                what,
                after: AfterCut::Undefined,
            } => Ok(Raised::only_listed(
                self.raiser.group(),
                Some(cut_off(start, what)),
                Some(undefined(offset)),
            )),
            Step::Cut {
                start,
                what,
                after: AfterCut::Stray,
            } => Ok(Raised::only_listed(
                self.raiser.group(),
                Some(cut_off(start, what)),
                Some(stray(offset)),
            )),
            Step::TooLong => Err(BadStep::ExclusiveTooLong),
        }
    }

    /// Translates one more byte, and returns its packets (M2-104-UM, translation from MIDI 1.0; M2-115-U)
    /// and its lines of the listing (own rules). The offset is the number of bytes before it.
    ///
    /// * `DataIncrement` and `DataDecrement` are returned exactly at the byte that completes a control
    ///   change 96 or 97. The values that control changes have set are then unchanged.
    /// * `ExclusiveTooLong` is returned exactly if the byte makes an exclusive longer than the limit. The
    ///   exclusive is dropped (own rules).
    #[inline(always)]
    pub fn byte(&mut self, byte: u8, offset: u64) -> Result<Raised<'_>, BadStep>
        ensures answer { Raises self.old offset byte result }
        ensures kept { KeepsAfter self.old.holding (step_in self.old offset byte) }
        ensures* after { sem 𝓛 (KeepsUp self.entry (up_after self.old offset byte)) }
    {
        // Most bytes are data bytes. The parser first tests whether a byte is a data byte, so this test
        // costs nothing.
        if byte >= 0x80 {
            if byte == END_OF_EXCLUSIVE {
                return self.end_exclusive(offset);
            }
        }
        self.take(byte, offset)
    }

    /// Translates the voice message at the front of these bytes, if it neither uses nor changes the values
    /// that control changes have set. Returns the message into which it is translated (M2-104-UM,
    /// translation from MIDI 1.0) and the number of its bytes here, 1 to 3. The call has the same effect as
    /// `byte` on each of these bytes: the last one completes the packet of this message, the others
    /// complete no packet, and none has a line.
    ///
    /// Returns `None` exactly if `Parser::front` finds no message here, or if the message uses or changes
    /// the values that control changes have set (own rule). Then nothing changes: translate the bytes one
    /// at a time.
    #[inline(always)]
    pub fn front(&mut self, bytes: &[u8]) -> Option<(DirectMessage, usize)>
        ensures { MatchOption result
            (HasNoDirectFront self.old bytes.now × (self.new ≡ self.old))
            (λ given. IsDirectFront self.old bytes.now given.0 given.1 self.new) }
    {
        other_messages_change_nothing_kept();
        let (spoken, count) = self.parser.front(bytes)?;
        let message = self.raiser.direct_message(&spoken)?;
        self.parser.take_front(&spoken);
        Some((message, count))
    }

    /// Takes the data bytes at the front of these bytes into the open exclusive, up to its limit (own
    /// rule), and returns how many it took. Returns 0 if no exclusive is open. The call has the same effect
    /// as `byte` on each of them: none completes a packet or has a line. Allocates no memory.
    #[inline(always)]
    pub fn take_data(&mut self, bytes: &[u8]) -> usize
        ensures count { result ≡ data_taken self.old.parsing bytes.now }
        ensures within { result ≤ length bytes.now }
        ensures after { (offset : ℕ) → RaiseNothing (take result bytes.now) self.old offset self.new }
    {
        self.parser.take_data(bytes)
    }

    /// Translates one more byte, if it only continues or begins a message, or if it completes a channel
    /// voice message that neither uses nor changes the values that control changes have set (M2-104-UM,
    /// translation from MIDI 1.0). The call then has the same effect as `byte`: a byte of the first kind
    /// completes no packet, one of the second kind completes the packet of this message, and neither has a
    /// line.
    ///
    /// Returns `Other` exactly for all other bytes. Then nothing changes: call `byte`. The offset is the
    /// number of bytes before this one. Allocates no memory.
    #[inline(always)]
    pub fn direct(&mut self, byte: u8, offset: u64) -> DirectStep
        ensures { IsDirect result self.old offset byte self.new }
    {
        other_messages_change_nothing_kept();
        match self.parser.plain(byte, offset) {
            PlainStep::Held => return DirectStep::Held,
            PlainStep::Other => return DirectStep::Other,
            PlainStep::Voice(spoken) => {
                let Some(voice) = self.raiser.direct_voice(&spoken) else {
                    return DirectStep::Other;
                };
                self.parser.take_voice();
                return DirectStep::Message(voice);
            }
        }
    }

    /// Returns the line of the message or exclusive that is open at the end of the stream, at the offset of
    /// its start (own rule), or `None` exactly if nothing is open.
    pub fn end(&self) -> Option<Listed>
        ensures { option_to_list result ≡ map (line_up self.now.group) (kinds_at_end
            (option_map (λ begun. (begun.start, begun.kind)) (open_of self.now.parsing))) }
    {
        match self.parser.end() {
            None => None,
            Some((start, what)) => Some(Listed {
                offset: start,
                group: Some(self.raiser.group()),
                kind: kind_of_open(what),
            }),
        }
    }
}
