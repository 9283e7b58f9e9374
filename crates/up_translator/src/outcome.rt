// The outcome of a voice message, which depends on the banks and parameters that control changes have set
// before it.
ghost use Rattle.std.specs.Prelude.{◌≡◌, Some, false};
ghost use Rattle.midi1_bytes.specs.Messages.{voice};
ghost use Rattle.voice_messages.specs.declared.voice1.Voice1.TheVariants as voice1;
ghost use Rattle.midi_meaning.specs.Controllers.{pairing, role_of};
ghost use Rattle.midi_meaning.specs.Messages.{step1};
ghost use Rattle.midi_meaning.specs.Refusal.{bad_control, bad_voice1};
ghost use Rattle.midi_meaning.specs.State.{GroupState};
ghost use Rattle.param_collector.specs.Control.{holding_after};
ghost use Rattle.param_collector.specs.Keeps.{Keeps};
ghost use Rattle.up_translator.specs.Outcome.{
  messages_in,
  refusal_in,
  selecting_in,
  outcome_by,
  holding_with,
  FitsVoice2,
  IsRaisedVoice,
};

use crate::voice::{raise_data_entry, raise_program};
use bit_scaling::{up7, up14};
use midi_meaning::BadStep;
use midi1_bytes::VoiceBytes;
use param_collector::laws::other_messages_change_nothing_kept;
use param_collector::{Collected, Collector};
use voice_messages::{U4, U7, Voice2};

/// A voice message that isn't translated alone: its outcome depends on the selected bank and parameter, or
/// it selects one (MIDI 1.0 Detailed Specification, bank select, registered and non-registered parameter
/// numbers).
#[derive(Clone, Copy)]
pub enum SelectingMessage {
    /// A control change that isn't direct.
    Control { channel: U4, index: U7, value: U7 },
    /// A program change.
    Program { channel: U4, program: U7 },
}

impl SelectingMessage {
    ghost use Rattle.std.specs.Prelude.{Bool};
    ghost use Rattle.midi1_bytes.specs.Spoken.{voice_in};
    ghost use Rattle.up_translator.specs.Direct.{goes_direct};
    ghost use Rattle.up_translator.specs.Outcome.{selecting_in};

    /// Returns the message with these bytes. The status byte decides, since all other kinds are translated
    /// alone.
    #[inline(always)]
    pub fn of(bytes: &VoiceBytes) -> SelectingMessage
        requires { (paired : Bool) × (goes_direct (Some paired) (voice_in bytes.now) ≡ false) }
        ensures { selecting_in result ≡ voice_in bytes.now }
    {
        let channel = U4::low_bits(u32::from(bytes.status));
        let first = U7::low_bits(u32::from(bytes.first));
        if bytes.status >= 0xC0 {
            SelectingMessage::Program {
                channel,
                program: first,
            }
        } else {
            SelectingMessage::Control {
                channel,
                index: first,
                value: U7::low_bits(u32::from(bytes.second)),
            }
        }
    }
}

/// The outcome of a voice message.
#[derive(Debug, Drop)]
pub enum Outcome {
    /// Nothing now: the selection is stored for the messages that use it.
    Nothing,
    /// This MIDI 2.0 control change.
    Control { channel: U4, index: U7, value: u32 },
    /// This MIDI 2.0 message, which isn't a direct one: a parameter that is set, or a program change.
    Message(Voice2),
    /// Nothing, since the message is a data entry without a selected parameter.
    Ignored,
    /// The message is refused.
    Refused(BadStep),
}

// Returns the outcome of a control change, from the collector's result.
#[inline(always)]
fn outcome_of(collected: Collected, channel: U4, index: U7, value: U7) -> Outcome
    ensures outcome { result ≡ outcome_by collected channel index value }
    ensures fits { FitsVoice2 result }
{
    match collected {
        Collected::DataIncrement => Outcome::Refused(BadStep::DataIncrement),
        Collected::DataDecrement => Outcome::Refused(BadStep::DataDecrement),
        Collected::Held => Outcome::Nothing,
        Collected::Set(param, entered) => {
            Outcome::Message(raise_data_entry(channel, param, entered))
        }
        Collected::Ignored => Outcome::Ignored,
        Collected::Pair(coarse, entered) => Outcome::Control {
            channel,
            index: coarse,
            value: up14(entered),
        },
        Collected::Plain => Outcome::Control {
            channel,
            index,
            value: up7(value),
        },
    }
}

// Returns the outcome of a control change.
#[inline(always)]
fn raise_control_change(collector: &mut Collector, channel: U4, index: U7, value: U7) -> Outcome
    ensures refused { refusal_in result ≡ bad_control index }
    ensures raised { (state : GroupState) → Keeps collector.old state →
        IsRaisedVoice collector.old.paired state (voice1.Control channel index value) result }
    ensures fits { FitsVoice2 result }
    ensures after { collector.new ≡
        holding_after (pairing collector.old.paired (role_of index)) collector.old channel index value }
    ensures kept { (state : GroupState) → Keeps collector.old state →
        Keeps collector.new
        (step1 collector.old.paired state (voice (voice1.Control channel index value))) }
{
    let collected = collector.control(channel, index, value);
    outcome_of(collected, channel, index, value)
}

/// Returns the outcome of a message that isn't translated alone (M2-104-UM, translation from MIDI 1.0). A
/// control change goes to the collector, and a program change takes the selected bank.
#[inline(always)]
pub fn raise_selecting(collector: &mut Collector, message: SelectingMessage) -> Outcome
    ensures refused { refusal_in result ≡ bad_voice1 (selecting_in message) }
    ensures raised { (state : GroupState) → Keeps collector.old state →
        IsRaisedVoice collector.old.paired state (selecting_in message) result }
    ensures fits { FitsVoice2 result }
    ensures after { collector.new ≡ holding_with collector.old (selecting_in message) }
    ensures kept { (state : GroupState) → Keeps collector.old state →
        Keeps collector.new (step1 collector.old.paired state (voice (selecting_in message))) }
{
    other_messages_change_nothing_kept();
    match message {
        SelectingMessage::Control {
            channel,
            index,
            value,
        } => raise_control_change(collector, channel, index, value),
        SelectingMessage::Program { channel, program } => {
            let bank = collector.program(channel);
            Outcome::Message(raise_program(channel, program, bank))
        }
    }
}
