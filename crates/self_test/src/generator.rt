// The generator of packets (own rule).
ghost use Rattle.std.specs.Prelude.{◌≡◌, ◌+◌, ◌*◌, ◌<◌, ◌^◌, ◌%◌, None};
ghost use Rattle.voice_messages.specs.Ranges.{IsBank, IsVoice2};
ghost use Rattle.midi_meaning.specs.Refusal.{bad_voice2};
ghost use Rattle.self_test.specs.Generator.{bank_of, drawn_message};

use small_types::U4;
use std::marker::Model;
use ump_grammar::Packet;
use voice_messages::{Bank, Param, ParamKind, U7, Voice2};

const FACTOR: u64 = 1_664_525;

const INCREMENT: u64 = 1_013_904_223;

const MODULUS: u64 = 4_294_967_296;

// The five draws for a packet, in the order in which they are drawn.
#[derive(Clone, Copy, Debug, PartialEq, Eq)]
struct Draws {
    kind: u16,
    channel: u16,
    number: u16,
    high: u16,
    low: u16,
}

impl Draws {
    // Returns a value of 32 bits.
    fn value(&self) -> u32
        ensures value { result ≡ self.now.high * 65536 + self.now.low }
        ensures below { result < 2 ^ 32 }
    {
        u32::from(self.high) * 65536 + u32::from(self.low)
    }

    // Returns the bank of a program change, or `None`.
    fn bank(&self) -> Option<Bank>
        ensures bank { result ≡ bank_of self.now.high self.now.low }
        ensures range { IsBank result }
    {
        if self.high % 2 == 1 {
            Some(Bank {
                msb: U7::low_bits(u32::from(self.high / 2)),
                lsb: U7::low_bits(u32::from(self.low)),
            })
        } else {
            None
        }
    }

    // Returns the registered parameter that the message sets.
    fn param(&self) -> Param
        ensures kind { result.kind ≡ ParamKind.Registered }
        ensures bank { result.bank ≡ self.now.number % 128 }
        ensures index { result.index ≡ self.now.high % 128 }
    {
        Param {
            kind: ParamKind::Registered,
            bank: U7::low_bits(u32::from(self.number)),
            index: U7::low_bits(u32::from(self.high)),
        }
    }

    // Returns the message that the five draws give.
    #[tactic(auto, using(crate::proofs::GeneratorLaws::not_refused), unfolding(crate::specs::Generator::drawn_message))]
    fn message(&self) -> Voice2
        ensures message { result ≡
            drawn_message self.now.kind self.now.channel self.now.number self.now.high self.now.low }
        ensures range { IsVoice2 result }
        ensures accepted { bad_voice2 result ≡ None }
    {
        let channel = U4::low_bits(u32::from(self.channel));
        let number = U7::low_bits(u32::from(self.number));
        let value = self.value();
        match self.kind % 8 {
            0 => Voice2::NoteOn {
                channel,
                note: number,
                velocity: self.low,
                attribute_type: 0,
                attribute: 0,
            },
            1 => Voice2::NoteOff {
                channel,
                note: number,
                velocity: self.low,
                attribute_type: 0,
                attribute: 0,
            },
            2 => Voice2::Control {
                channel,
                index: U7::low_bits(1 + u32::from(self.number % 95)),
                value,
            },
            3 => Voice2::Set {
                channel,
                param: self.param(),
                value: u32::from(self.low) * 65536,
            },
            4 => Voice2::Program {
                channel,
                program: number,
                bank: self.bank(),
            },
            5 => Voice2::Bend { channel, value },
            6 => Voice2::PolyPressure {
                channel,
                note: number,
                value,
            },
            _ => Voice2::Pressure { channel, value },
        }
    }
}

/// A generator of packets: MIDI 2.0 channel voice messages in group 0. Five draws from a linear congruential
/// sequence give each packet (own rule). In contracts its value is the number from which the next draw
/// starts.
#[derive(Clone, Copy, Debug, PartialEq, Eq)]
pub struct Generator {
    number: u32,
}

impl Model for Generator {
    ghost use Rattle.std.specs.Prelude.{ℕ, ◌<◌, ◌^◌};

    ghost Value = { ℕ };

    ghost view = { λ generator. generator.number };

    ghost invariant = { λ generator. generator.number < 2 ^ 32 };

    ghost inverse = { λ number. record { number = number } };
}

impl Generator {
    ghost use Rattle.std.specs.Prelude.{◌≡◌, ◌+◌, ℕ};
    ghost use Rattle.self_test.specs.ForProofs.Draws.{AreDrawn};
    ghost use Rattle.self_test.specs.Generator.{after_draw, generated, HasGiven, upper_half};
    ghost use Rattle.self_test.specs.Played.{IsPlayed};

    /// Creates a generator that hasn't returned a packet yet.
    pub fn new(seed: u32) -> Generator
        ensures { HasGiven seed 0 result }
    {
        Generator { number: seed }
    }

    // Makes one draw of 16 bits.
    fn draw(&mut self) -> u16
        ensures drawn { result ≡ upper_half (after_draw self.old) }
        ensures after { self.new ≡ after_draw self.old }
    {
        let number = (u64::from(self.number) * FACTOR + INCREMENT) % MODULUS;
        self.number = number as u32;
        (self.number / 65536) as u16
    }

    // Makes the five draws for a packet.
    fn draws(&mut self) -> Draws
        ensures drawn { (seed count : ℕ) → HasGiven seed count self.old → AreDrawn seed count result }
        ensures after { (seed count : ℕ) → HasGiven seed count self.old →
            HasGiven seed (count + 1) self.new }
    {
        let kind = self.draw();
        let channel = self.draw();
        let number = self.draw();
        let high = self.draw();
        let low = self.draw();
        Draws {
            kind,
            channel,
            number,
            high,
            low,
        }
    }

    /// Returns the next packet. Words spell it, and the way down doesn't refuse it.
    pub fn next(&mut self) -> Packet
        ensures packet { (seed count : ℕ) → HasGiven seed count self.old → result ≡ generated seed count }
        ensures after { (seed count : ℕ) → HasGiven seed count self.old →
            HasGiven seed (count + 1) self.new }
        ensures played { IsPlayed result }
    {
        let draws = self.draws();
        Packet::Voice2 {
            group: U4::low_bits(0),
            message: draws.message(),
        }
    }
}
