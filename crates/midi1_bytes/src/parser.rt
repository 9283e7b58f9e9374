// The parser of a MIDI 1.0 stream.
ghost use Rattle.std.specs.Prelude.{
  ℕ,
  ◌≡◌,
  ◌<◌,
  ◌≤◌,
  ◌+◌,
  [],
  ◌∷◌,
  ◌++◌,
  length,
  take,
  Some,
  None,
  IfOk,
  IfSome,
  MatchOption,
  vec_len,
  vec_capacity,
};
ghost use Rattle.std.specs.Option.{option_map, ForSome};
ghost use Rattle.midi1_bytes.specs.Answers.{step_view, LendsData, LendsFramed, cut_off_by};
ghost use Rattle.midi1_bytes.specs.Fronts.{IsFront, after_voice, data_taken, front_voice};
ghost use Rattle.midi1_bytes.specs.Plain.{IsPlain};
ghost use Rattle.midi1_bytes.specs.Sorts.{count_of, data_byte, one, sort_of, two};
ghost use Rattle.midi1_bytes.specs.Spoken.{voice_in};

use crate::begun::{Begun, Running};
use crate::front::{leading_data_within, one_running, two_running, with_status};
use crate::spoken::{CommonBytes, RealTimeByte, VoiceBytes};
use crate::step::{AfterCut, CutKind, PlainStep, Step};
use small_types::NoMemory;
use std::alloc::Global;
use std::marker::Model;
use voice_messages::{END_OF_EXCLUSIVE, START_OF_EXCLUSIVE};

// Appends bytes for which memory has been reserved.
#[inline]
fn append_all(bytes: &mut Vec<u8>, more: &[u8])
    requires { vec_len bytes.old + length more.now ≤ vec_capacity bytes.old }
    ensures items { bytes.new.items ≡ bytes.old.items ++ more.now }
    ensures capacity { vec_capacity bytes.old ≤ vec_capacity bytes.new }
{
    match bytes.extend_from_slice(more) {
        Ok(()) => {}
        // Memory for these bytes has been reserved, so the call allocates none and can't fail.
        Err(_) => unreachable!(),
    }
}

// Returns the step of a status byte: it cuts off the open message and does `besides`, or does `alone` if
// nothing is open.
#[inline(always)]
fn cut_off<'a>(begun: Option<(u64, CutKind)>, besides: AfterCut, alone: Step<'a>) -> Step<'a>
    requires framed { LendsFramed alone }
    requires data_bytes { LendsData alone }
    ensures step { step_view result ≡ cut_off_by begun besides (step_view alone.entry) }
    ensures framed { LendsFramed result }
    ensures data_bytes { LendsData result }
{
    match begun {
        Some((start, what)) => Step::Cut {
            start,
            what,
            after: besides,
        },
        None => alone,
    }
}

/// A parser for the bytes of a MIDI 1.0 stream (MIDI 1.0 Detailed Specification: running status, system
/// exclusive messages). In contracts its value has the running status, 80 to EF if there is one; the open
/// message or exclusive, with its start and its bytes; and the limit, `room`. The limit is the number of
/// bytes that an exclusive may have between F0 and F7, 6 to 1,048,576 (own rule).
#[derive(Drop)]
pub struct Parser {
    running: Running,
    begun: Begun,
    bytes: Vec<u8>,
    room: u32,
}

impl Model for Parser {
    ghost use Rattle.std.specs.Prelude.{◌≡◌, ◌≤◌, ◌+◌, [], ◌∷◌, length, take, vec_capacity};
    ghost use Rattle.midi1_bytes.specs.Parsing.{Parsing};
    ghost use Rattle.midi1_bytes.specs.Held.{begun_view, running_view, HoldsData, IsCounted, IsKept};

    ghost Value = { Parsing };

    ghost view = { λ p. record {
      room = p.room;
      running = running_view p.running;
      begun = begun_view p.begun p.bytes.items;
    } };

    ghost invariant = { λ p. (p.room + 2 ≤ vec_capacity p.bytes)
        × (take 1 p.bytes.items ≡ 240 ∷ [])
        × IsKept p.room p.begun (length p.bytes.items)
        × HoldsData p.begun p.bytes.items
        × IsCounted p.running };
}

impl Parser {
    ghost use Rattle.std.specs.Borrow.{sem};
    ghost use Rattle.midi1_bytes.specs.Held.{bytes_begun};
    ghost use Rattle.midi1_bytes.specs.Lend.{KeepsParser};
    ghost use Rattle.midi1_bytes.specs.Parsing.{
      begun_message,
      begun_exclusive,
      idle,
      beginning,
      open_of,
      ended_by,
      message_step,
      data_step,
      begun_after,
      parse,
      parse_under,
      quiet,
      AreHeld,
    };

    /// Creates a parser with nothing open and no running status. Reserves memory for exclusives with `room`
    /// bytes between F0 and F7, 6 to 1,048,576 (own rule). No other call allocates memory. Returns
    /// `NoMemory` if the memory can't be allocated.
    pub fn new(alloc: Global, room: u32) -> Result<Parser, NoMemory>
        requires least { 6 ≤ room }
        requires most { room ≤ 1048576 }
        ensures { IfOk result (λ parser. parser ≡ idle room) }
    {
        let Ok(mut bytes) = Vec::with_capacity(alloc, room as usize + 2) else {
            return Err(NoMemory);
        };
        bytes.push_reserved(START_OF_EXCLUSIVE);
        Ok(Parser {
            running: Running::Unset,
            begun: Begun::Nothing,
            bytes,
            room,
        })
    }

    /// Drops the open message and the running status, so that the parser is like a new one with the same
    /// limit (own rule). Allocates no memory.
    pub fn reset(&mut self)
        ensures { self.new ≡ idle self.old.room }
    {
        self.leave();
    }

    /// Returns the kind of the open message or exclusive and the offset at which it starts, as given to
    /// `byte`: the offset of its status byte, or under running status that of its first data byte. `None`
    /// exactly if nothing is open (own rule).
    #[inline(always)]
    pub fn end(&self) -> Option<(u64, CutKind)>
        ensures { result ≡ option_map (λ begun. (begun.start, begun.kind)) (open_of self.now) }
    {
        match self.begun {
            Begun::Nothing => None,
            Begun::Only { start, .. } | Begun::First { start, .. } | Begun::Second { start, .. } =>
                Some((start, CutKind::Message)),
            Begun::Exclusive { start } => Some((start, CutKind::Exclusive)),
        }
    }

    /// Returns the voice message with which these bytes begin, and how many of them it has: 3 or 2, or
    /// under running status 2 or 1 (MIDI 1.0 Detailed Specification: channel voice messages, running
    /// status). `byte` would return `Held` for each of these bytes but the last, and this message for the
    /// last. `take_front` takes them.
    ///
    /// Returns `None` exactly if something is open, if the bytes don't begin with a whole message without a
    /// gap, or if they are a message of one data byte and nothing more (own rule). Then take the bytes one
    /// at a time.
    #[inline(always)]
    pub fn front(&self, bytes: &[u8]) -> Option<(VoiceBytes, usize)>
        ensures message { MatchOption result (front_voice self.now bytes.now ≡ None)
            (λ given. front_voice self.now bytes.now ≡ Some (voice_in given.0)) }
        ensures front { IfSome result (λ given. IsFront self.now bytes.now given.0 given.1) }
    {
        if !matches!(self.begun, Begun::Nothing) {
            return None;
        }
        let [first, second, ..] = *bytes else {
            return None;
        };
        if first < 0x80 {
            return match self.running {
                Running::Two(status) => two_running(status, first, second),
                Running::One(status) => Some(one_running(status, first)),
                Running::Unset => None,
            };
        }
        let [_, _, third, ..] = *bytes else {
            return None;
        };
        with_status(first, second, third)
    }

    /// Takes the bytes of the voice message that `front` has returned. The parser is then as if `byte` had
    /// taken each of them.
    #[tactic(auto, unfolding(crate::specs::Sorts::sort_of))]
    #[inline(always)]
    pub fn take_front(&mut self, message: &VoiceBytes)
        requires { self.old.begun ≡ None }
        ensures { self.new ≡ after_voice self.old message.now.status }
    {
        let status = message.status;
        self.running = if matches!(status, 0xc0..=0xdf) {
            Running::One(status)
        } else {
            Running::Two(status)
        };
    }

    /// Takes the data bytes of the open exclusive at the front of `bytes`, as far as the limit allows (own
    /// rule), and returns how many they are. Returns 0 if no exclusive is open. `byte` would return `Held`
    /// for each of them, and the parser is then as if `byte` had taken each of them. Allocates no memory.
    #[inline(always)]
    pub fn take_data(&mut self, bytes: &[u8]) -> usize
        ensures count { result ≡ data_taken self.old bytes.now }
        ensures within { result ≤ length bytes.now }
        ensures after { (offset : ℕ) → AreHeld (take result bytes.now) self.old offset self.new }
    {
        let Begun::Exclusive { .. } = self.begun else {
            return 0;
        };
        // The buffer also has F0.
        let left = self.room as usize + 1 - self.bytes.len();
        let count = leading_data_within(bytes, left);
        append_all(&mut self.bytes, &bytes[..count]);
        count
    }

    // Ends the open message and the running status.
    #[inline(always)]
    fn leave(&mut self)
        ensures { self.new ≡ idle self.old.room }
    {
        self.running = Running::Unset;
        self.begun = Begun::Nothing;
    }

    // Begins a voice message and makes its status byte the running status.
    #[tactic(auto, unfolding(crate::specs::Sorts::sort_of))]
    #[inline(always)]
    fn begin_voice(&mut self, status: u8, start: u64)
        requires least { 128 ≤ status }
        requires most { status < 240 }
        ensures { self.new ≡ beginning self.old.room (Some status) (begun_message start status None) }
    {
        if matches!(status, 0xc0..=0xdf) {
            self.running = Running::One(status);
            self.begun = Begun::Only { start, status };
        } else {
            self.running = Running::Two(status);
            self.begun = Begun::First { start, status };
        }
    }

    // Begins a common message with data bytes, which ends the running status.
    #[tactic(auto, unfolding(crate::specs::Sorts::sort_of))]
    #[inline(always)]
    fn begin_common(&mut self, status: u8, start: u64)
        requires least { 241 ≤ status }
        requires most { status ≤ 243 }
        ensures { self.new ≡ beginning self.old.room None (begun_message start status None) }
    {
        self.running = Running::Unset;
        if status == 0xf2 {
            self.begun = Begun::First { start, status };
        } else {
            self.begun = Begun::Only { start, status };
        }
    }

    #[tactic(auto, using(crate::proofs::DataLaws::no_data))]
    #[inline(always)]
    fn begin_exclusive(&mut self, start: u64)
        ensures { self.new ≡ beginning self.old.room None (begun_exclusive start []) }
    {
        self.running = Running::Unset;
        self.begun = Begun::Exclusive { start };
        self.bytes.truncate(1);
    }

    // Takes a data byte of an exclusive.
    #[tactic(auto, using(crate::proofs::DataLaws::more_data))]
    #[inline(always)]
    fn exclusive_data<'a>(&mut self, start: u64, byte: u8) -> Step<'a>
        requires begun { self.old.begun ≡ Some (begun_exclusive start (bytes_begun self.old)) }
        requires below { byte < 128 }
        ensures step { step_view result ≡
            data_step self.old.room (begun_exclusive start (bytes_begun self.old)) byte }
        ensures framed { LendsFramed result }
        ensures data_bytes { LendsData result }
        ensures after { self.new ≡ record self.old {
          begun = begun_after
              (data_step self.old.room (begun_exclusive start (bytes_begun self.old)) byte)
              (begun_exclusive start (bytes_begun self.old ++ byte ∷ []));
        } }
    {
        // The buffer also has F0.
        if self.bytes.len() > self.room as usize {
            self.begun = Begun::Nothing;
            return Step::TooLong;
        }
        self.bytes.push_reserved(byte);
        Step::Held
    }

    // Completes a message of one data byte.
    #[tactic(auto, using(crate::proofs::CountLaws::counted_status))]
    #[inline(always)]
    fn complete_one<'a>(&mut self, status: u8, only: u8) -> Step<'a>
        requires counted { count_of (sort_of status) ≡ Some one }
        requires below { only < 128 }
        ensures step { step_view result ≡ message_step (sort_of status) status None only }
        ensures framed { LendsFramed result }
        ensures data_bytes { LendsData result }
        ensures after { self.new ≡ record self.old { begun = None } }
    {
        self.begun = Begun::Nothing;
        if status < 0xf0 {
            Step::Voice(VoiceBytes::of_one(status, only))
        } else {
            Step::Common(CommonBytes::of_one(status, only))
        }
    }

    // Completes a message of two data bytes.
    #[tactic(auto, using(crate::proofs::CountLaws::counted_status))]
    #[inline(always)]
    fn complete_two<'a>(&mut self, status: u8, first: u8, second: u8) -> Step<'a>
        requires counted { count_of (sort_of status) ≡ Some two }
        requires first_below { first < 128 }
        requires second_below { second < 128 }
        ensures step { step_view result ≡ message_step (sort_of status) status (Some first) second }
        ensures framed { LendsFramed result }
        ensures data_bytes { LendsData result }
        ensures after { self.new ≡ record self.old { begun = None } }
    {
        self.begun = Begun::Nothing;
        if status < 0xf0 {
            Step::Voice(VoiceBytes::of_two(status, first, second))
        } else {
            Step::Common(CommonBytes::of_two(status, first, second))
        }
    }

    // Takes a data byte when nothing is open: the first of a message under running status, or one that
    // belongs to no message.
    #[tactic(auto, using(crate::proofs::CountLaws::counted_data))]
    #[inline(always)]
    fn data_under_running<'a>(&mut self, byte: u8, offset: u64) -> Step<'a>
        requires begun { self.old.begun ≡ None }
        requires below { byte < 128 }
        ensures step { step_view result ≡ (parse_under data_byte self.old offset byte).step }
        ensures framed { LendsFramed result }
        ensures data_bytes { LendsData result }
        ensures after { self.new ≡ (parse_under data_byte self.old offset byte).after }
    {
        match self.running {
            Running::Two(status) => {
                self.begun = Begun::Second {
                    start: offset,
                    status,
                    first: byte,
                };
                Step::Held
            }
            Running::One(status) => Step::Voice(VoiceBytes::of_one(status, byte)),
            Running::Unset => Step::Stray,
        }
    }

    // Takes a data byte.
    #[tactic(auto, using(crate::proofs::CountLaws::counted_data))]
    #[inline(always)]
    fn data<'a>(&mut self, byte: u8, offset: u64) -> Step<'a>
        requires { byte < 128 }
        ensures step { step_view result ≡ (parse_under data_byte self.old offset byte).step }
        ensures framed { LendsFramed result }
        ensures data_bytes { LendsData result }
        ensures after { self.new ≡ (parse_under data_byte self.old offset byte).after }
    {
        match self.begun {
            Begun::Second { status, first, .. } => self.complete_two(status, first, byte),
            Begun::First { start, status } => {
                self.begun = Begun::Second {
                    start,
                    status,
                    first: byte,
                };
                Step::Held
            }
            Begun::Exclusive { start } => self.exclusive_data(start, byte),
            Begun::Only { status, .. } => self.complete_one(status, byte),
            Begun::Nothing => self.data_under_running(byte, offset),
        }
    }

    // Takes the status byte of a voice message.
    #[tactic(auto, using(crate::proofs::OpenLaws::cut_off_open), unfolding(crate::specs::Sorts::sort_of))]
    #[inline(always)]
    fn voice_status<'a>(&mut self, status: u8, offset: u64) -> Step<'a>
        requires least { 128 ≤ status }
        requires most { status < 240 }
        ensures step { step_view result ≡ (parse self.old offset status).step }
        ensures framed { LendsFramed result }
        ensures data_bytes { LendsData result }
        ensures after { self.new ≡ (parse self.old offset status).after }
    {
        let begun = self.end();
        self.begin_voice(status, offset);
        cut_off(begun, AfterCut::Begins, Step::Held)
    }

    // Takes the status byte of a system message other than F7 and Real Time.
    #[tactic(auto, using(crate::proofs::OpenLaws::cut_off_open), unfolding(crate::specs::Sorts::sort_of))]
    #[inline(always)]
    fn system_status<'a>(&mut self, status: u8, offset: u64) -> Step<'a>
        requires least { 240 ≤ status }
        requires most { status < 247 }
        ensures step { step_view result ≡ (parse self.old offset status).step }
        ensures framed { LendsFramed result }
        ensures data_bytes { LendsData result }
        ensures after { self.new ≡ (parse self.old offset status).after }
    {
        let begun = self.end();
        match status {
            0xf1..=0xf3 => {
                self.begin_common(status, offset);
                cut_off(begun, AfterCut::Begins, Step::Held)
            }
            0xf0 => {
                self.begin_exclusive(offset);
                cut_off(begun, AfterCut::Begins, Step::Held)
            }
            0xf6 => {
                self.leave();
                cut_off(begun, AfterCut::Tune, Step::Common(CommonBytes::tune()))
            }
            _ => {
                self.leave();
                cut_off(begun, AfterCut::Undefined, Step::Undefined)
            }
        }
    }

    // Takes F7.
    #[tactic(auto, using(crate::proofs::DataLaws::lent_data))]
    #[inline(always)]
    fn end_exclusive(&mut self) -> Step<'_>
        ensures step { step_view result ≡ ended_by self.old.begun }
        ensures framed { LendsFramed result }
        ensures data_bytes { LendsData result }
        ensures* after { sem 𝓛 (KeepsParser self.entry (idle self.old.room)) }
    {
        let begun = self.begun;
        self.running = Running::Unset;
        self.begun = Begun::Nothing;
        match begun {
            Begun::Nothing => Step::Stray,
            Begun::Only { start, .. } | Begun::First { start, .. } | Begun::Second { start, .. } =>
                Step::Cut {
                    start,
                    what: CutKind::Message,
                    after: AfterCut::Stray,
                },
            Begun::Exclusive { .. } => {
                self.bytes.push_reserved(END_OF_EXCLUSIVE);
                Step::Exclusive(self.bytes.as_slice())
            }
        }
    }

    // Takes a data byte when nothing is open, for `plain`.
    #[inline(always)]
    fn plain_under_running(&mut self, byte: u8, start: u64) -> PlainStep
        requires begun { self.old.begun ≡ None }
        requires below { byte < 128 }
        ensures { IsPlain result (parse_under data_byte self.old start byte) self.old self.new }
    {
        match self.running {
            Running::Two(status) => {
                self.begun = Begun::Second {
                    start,
                    status,
                    first: byte,
                };
                PlainStep::Held
            }
            Running::One(status) => PlainStep::Voice(VoiceBytes::of_one(status, byte)),
            Running::Unset => PlainStep::Other,
        }
    }

    // Takes a data byte of the open exclusive, for `plain`.
    #[tactic(auto, using(crate::proofs::DataLaws::more_data))]
    #[inline(always)]
    fn plain_exclusive(&mut self, start: u64, byte: u8) -> PlainStep
        requires begun { self.old.begun ≡ Some (begun_exclusive start (bytes_begun self.old)) }
        requires below { byte < 128 }
        ensures { IsPlain result (parse_under data_byte self.old 0 byte) self.old self.new }
    {
        // The buffer also has F0.
        if self.bytes.len() <= self.room as usize {
            self.bytes.push_reserved(byte);
            return PlainStep::Held;
        }
        PlainStep::Other
    }

    // Takes a data byte, for `plain`.
    #[tactic(auto, using(crate::proofs::PlainLaws::plain_data))]
    #[inline(always)]
    fn plain_data(&mut self, byte: u8, offset: u64) -> PlainStep
        requires { byte < 128 }
        ensures { IsPlain result (parse_under data_byte self.old offset byte) self.old self.new }
    {
        match self.begun {
            Begun::Second { status, first, .. } => {
                if status >= 0xf0 {
                    return PlainStep::Other;
                }
                PlainStep::Voice(VoiceBytes::of_two(status, first, byte))
            }
            Begun::First { start, status } => {
                self.begun = Begun::Second {
                    start,
                    status,
                    first: byte,
                };
                PlainStep::Held
            }
            Begun::Exclusive { start } => self.plain_exclusive(start, byte),
            Begun::Only { status, .. } => {
                if status >= 0xf0 {
                    return PlainStep::Other;
                }
                PlainStep::Voice(VoiceBytes::of_one(status, byte))
            }
            Begun::Nothing => self.plain_under_running(byte, offset),
        }
    }

    // Takes a status byte, for `plain`.
    #[tactic(auto, using(crate::proofs::PlainLaws::status_plain), unfolding(crate::specs::Sorts::sort_of))]
    #[inline(always)]
    fn plain_status(&mut self, byte: u8, offset: u64) -> PlainStep
        requires { 128 ≤ byte }
        ensures { IsPlain result (parse self.old offset byte) self.old self.new }
    {
        if !matches!(self.begun, Begun::Nothing) {
            return PlainStep::Other;
        }
        match byte {
            0x80..=0xef => self.begin_voice(byte, offset),
            0xf0 => self.begin_exclusive(offset),
            0xf1..=0xf3 => self.begin_common(byte, offset),
            _ => return PlainStep::Other,
        }
        PlainStep::Held
    }

    /// Returns what one more byte does, if it is only held or if it completes a channel voice message (MIDI
    /// 1.0 Detailed Specification: summary of status bytes, running status). Returns `Other` exactly if it
    /// does anything else.
    ///
    /// If the result is `Held`, the byte has been taken as `byte` takes it. Otherwise nothing changes: call
    /// `take_voice` to take a byte that completes a message, or `byte` to take any byte. The offset is
    /// stored as by `byte`. Allocates no memory.
    #[tactic(auto, unfolding(crate::specs::Sorts::sort_of))]
    #[inline(always)]
    pub fn plain(&mut self, byte: u8, offset: u64) -> PlainStep
        ensures { IsPlain result (parse self.old offset byte) self.old self.new }
    {
        if byte < 0x80 {
            self.plain_data(byte, offset)
        } else {
            self.plain_status(byte, offset)
        }
    }

    /// Takes the byte that completes the message which `plain` has returned. The parser is then as if
    /// `byte` had taken that byte.
    #[inline(always)]
    pub fn take_voice(&mut self)
        ensures { self.new ≡ quiet self.old.room self.old.running }
    {
        self.begun = Begun::Nothing;
    }

    /// Takes one more byte of the stream, 0 to FF (MIDI 1.0 Detailed Specification: summary of status
    /// bytes, running status, system messages). The parser only stores the offset, in bytes from the start
    /// of the stream, and returns it as the start of the message that the byte begins; any number will do.
    /// Allocates no memory, and no byte is an error.
    ///
    /// * `Exclusive` lends the exclusive from F0 to F7.
    /// * `TooLong` is returned exactly at the data byte that would make the bytes between F0 and F7 more
    ///   than the limit. The exclusive is then dropped, and there is no running status.
    /// * A message that a status byte cuts off is dropped and reported, and a byte that belongs to no
    ///   message is `Stray` (own rules).
    #[tactic(auto, unfolding(crate::specs::Sorts::sort_of))]
    #[inline(always)]
    pub fn byte(&mut self, byte: u8, offset: u64) -> Step<'_>
        ensures step { step_view result ≡ (parse self.old offset byte).step }
        ensures framed { LendsFramed result }
        ensures data_bytes { LendsData result }
        ensures* after { sem 𝓛 (KeepsParser self.entry (parse self.old offset byte).after) }
    {
        // Most bytes are data bytes, and most others begin voice messages, so these come first.
        if byte < 0x80 {
            return self.data(byte, offset);
        }
        if byte < 0xf0 {
            return self.voice_status(byte, offset);
        }
        match byte {
            0xf0..=0xf6 => self.system_status(byte, offset),
            0xf7 => self.end_exclusive(),
            0xf9 | 0xfd => Step::Undefined,
            _ => Step::RealTime(RealTimeByte::of(byte)),
        }
    }
}
