// Writes facts to the caller's buffer.
ghost use Rattle.std.specs.Prelude.{◌≡◌, ◌≤◌, ◌==◌, ◌||◌, [], ◌∷◌, nat_lt, true, length, map};
ghost use Rattle.midi_meaning.specs.Messages.{Scale};
ghost use Rattle.voice_state.specs.Facts.{channel_facts, count_of, group_counts};
ghost use Rattle.voice_state.specs.Kept.{Keeps};
ghost use Rattle.voice_state.specs.States.{States};
ghost use Rattle.c_answers.specs.Fronts.{with_front};
ghost use Rattle.c_answers.specs.Numbers.{number_of};
ghost use Rattle.c_voice_state.specs.Facts.{facts_at, no_channel, numbers_of, ArePut, HasFacts};

use crate::fact_numbers::FactNumbers;
use c_answers::Status;
use small_types::U4;
use voice_state::{ChannelFacts, Fact, VoiceState};

/// The channel number that stands for no channel, for the counts of the group (own rule).
const NO_CHANNEL: u8 = 255;

// Returns the number of facts, at most 2^64 - 1.
fn count(facts: ChannelFacts<'_>) -> usize
    ensures { result ≡ count_of facts.entry }
{
    let mut count = 0usize;
    for _fact in facts {
        count = count.saturating_add(1);
    }
    count
}

// Writes the numbers of a channel's facts to the front of a buffer, as many as fit.
fn write_facts(facts: ChannelFacts<'_>, buffer: &mut [FactNumbers])
    ensures size { length buffer.new ≡ length buffer.old }
    ensures written { length facts.entry ≤ length buffer.old
        → buffer.new ≡ with_front (map numbers_of facts.entry) buffer.old }
{
    let mut k = 0;
    for fact in facts {
        if k < buffer.len() {
            buffer[k] = FactNumbers::of(&fact);
            k += 1;
        }
    }
}

// Writes the numbers of a channel's facts, and returns how many there are. If the buffer is smaller, returns
// that number as the error and writes nothing.
fn put_channel(
    state: &VoiceState,
    group: U4,
    channel: U4,
    buffer: &mut [FactNumbers],
) -> Result<usize, usize>
    ensures { (scale : Scale) (states : States) → Keeps scale state.now states
        → ArePut (channel_facts scale group channel ((states group).channels channel))
        buffer.old result buffer.new }
{
    let count = count(state.channel_facts(group, channel));
    if buffer.len() < count {
        return Err(count);
    }
    write_facts(state.channel_facts(group, channel), buffer);
    Ok(count)
}

// Writes the numbers of one fact, with the same result as `put_channel`. `put_two` writes those of two facts.
fn put_one(fact: &Fact, buffer: &mut [FactNumbers]) -> Result<usize, usize>
    ensures { ArePut (fact.now ∷ []) buffer.old result buffer.new }
{
    if buffer.is_empty() {
        return Err(1);
    }
    buffer[0] = FactNumbers::of(fact);
    Ok(1)
}

fn put_two(first: &Fact, second: &Fact, buffer: &mut [FactNumbers]) -> Result<usize, usize>
    ensures { ArePut (first.now ∷ second.now ∷ []) buffer.old result buffer.new }
{
    if buffer.len() < 2 {
        return Err(2);
    }
    buffer[0] = FactNumbers::of(first);
    buffer[1] = FactNumbers::of(second);
    Ok(2)
}

// Writes the numbers of a group's counts, with the same result as `put_channel`.
fn put_counts(state: &VoiceState, group: U4, buffer: &mut [FactNumbers]) -> Result<usize, usize>
    ensures { (scale : Scale) (states : States) → Keeps scale state.now states
        → ArePut (group_counts group (states group)) buffer.old result buffer.new }
{
    match (state.system_fact(group), state.real_time_fact(group)) {
        (None, None) => Ok(0),
        (Some(fact), None) => put_one(&fact, buffer),
        (None, Some(fact)) => put_one(&fact, buffer),
        (Some(first), Some(second)) => put_two(&first, &second, buffer),
    }
}

// Writes the numbers of the facts of a channel, or with channel 255 those of a group's counts, with the same
// result as `put_channel`.
fn put_asked(
    state: &VoiceState,
    group: U4,
    channel: u8,
    buffer: &mut [FactNumbers],
) -> Result<usize, usize>
    requires { (nat_lt channel 16 || channel == no_channel) ≡ true }
    ensures { (scale : Scale) (states : States) → Keeps scale state.now states
        → ArePut (facts_at scale states group channel) buffer.old result buffer.new }
{
    match U4::new(channel) {
        Some(channel) => put_channel(state, group, channel, buffer),
        None => put_counts(state, group, buffer),
    }
}

// Writes the facts of one channel of a group, or with channel 255 the counts of the group's system messages,
// as `CPacketState::facts` says.
pub(crate) fn tell_facts(
    state: &VoiceState,
    group: u8,
    channel: u8,
    buffer: &mut [FactNumbers],
    written: &mut usize,
    need: &mut usize,
) -> Status
    ensures { HasFacts state.now group channel buffer.old (number_of result) written.new need.new buffer.new }
{
    *written = 0;
    *need = 0;
    let Some(group) = U4::new(group) else {
        return Status::BadGroup;
    };
    if channel > 15 && channel != NO_CHANNEL {
        return Status::BadChannel;
    }
    match put_asked(state, group, channel, buffer) {
        Ok(count) => {
            *written = count;
            Status::Done
        }
        Err(count) => {
            *need = count;
            Status::SmallBuffer
        }
    }
}
