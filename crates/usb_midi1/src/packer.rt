// The packer, which turns a MIDI 1.0 stream into events.
ghost use Rattle.std.specs.Prelude.{◌≡◌, ◌≤◌, map, IfOk};
ghost use Rattle.std.specs.Option.{option_map, option_to_list};
ghost use Rattle.midi_meaning.specs.StepListing.{kinds_at_end, line_up};
ghost use Rattle.midi1_bytes.specs.Steps as steps;
ghost use Rattle.usb_midi1.specs.Packed.{IsPacked};

use crate::packed::{Packed, TooLong};
use crate::packing::{system_event, voice_event};
use midi_meaning::Listed;
use midi_meaning::lines::{cut_off, kind_of_open, stray, undefined};
use midi1_bytes::{AfterCut, CutKind, Parser, Step, System};
use small_types::{NoMemory, U4};
use std::alloc::Global;
use std::marker::Model;

// Creates the outcome of a byte that cuts off a message or exclusive, which started at offset `start`.
fn cut<'a>(cable: U4, start: u64, what: CutKind, after: AfterCut, offset: u64) -> Packed<'a>
    ensures { IsPacked cable offset (steps.cut start what after) result }
{
    let first = cut_off(start, what);
    match after {
        AfterCut::Begins => Packed::only_listed(cable, Some(first), None),
        AfterCut::Tune => {
            let event = system_event(cable, &System::Tune);
            Packed::of_event(cable, event, Some(first))
        }
        AfterCut::Undefined => Packed::only_listed(cable, Some(first), Some(undefined(offset))),
        AfterCut::Stray => Packed::only_listed(cable, Some(first), Some(stray(offset))),
    }
}

/// Packs the bytes of one MIDI 1.0 stream into events of one cable. In contracts its value is the cable, and
/// the message or exclusive that is still open.
#[derive(Drop)]
pub struct Packer {
    parser: Parser,
    cable: U4,
}

impl Model for Packer {
    ghost use Rattle.usb_midi1.specs.Held.{PackerState};

    ghost Value = { PackerState };

    ghost view = { λ p. record { cable = p.cable; parsing = p.parser } };
}

impl Packer {
    ghost use Rattle.std.specs.Borrow.{sem};
    ghost use Rattle.midi1_bytes.specs.Parsing.{idle, open_of};
    ghost use Rattle.usb_midi1.specs.Held.{packer_after};
    ghost use Rattle.usb_midi1.specs.Lend.{KeepsPacker};
    ghost use Rattle.usb_midi1.specs.Packed.{Packs};

    /// Creates a packer for a stream that has had no byte yet. Allocates all the memory that the packer will
    /// ever need, for exclusives of `room` bytes between F0 and F7, 6 to 1,048,576 (own rule). Returns
    /// `NoMemory` if there isn't enough.
    pub fn new(alloc: Global, cable: U4, room: u32) -> Result<Packer, NoMemory>
        requires least { 6 ≤ room }
        requires most { room ≤ 1048576 }
        ensures { IfOk result (λ packer. packer ≡ record { cable = cable; parsing = idle room }) }
    {
        let parser = Parser::new(alloc, room)?;
        Ok(Packer { parser, cable })
    }

    /// Drops the message or exclusive that is open, and the running status (own rule). Afterwards the packer
    /// equals a new one with the same cable and limit. The call doesn't allocate.
    pub fn reset(&mut self)
        ensures { self.new ≡ record { cable = self.old.cable; parsing = idle self.old.parsing.room } }
    {
        self.parser.reset();
    }

    /// Takes one more byte, whose offset is the number of bytes before it. Returns the byte's events (USB
    /// Device Class Definition for MIDI Devices 1.0, code index numbers), each with its status byte, and the
    /// byte's lines of the listing (own rules). The call doesn't allocate.
    ///
    /// Returns `TooLong` exactly at the data byte that makes an exclusive longer than the limit between F0
    /// and F7. The packer then drops that exclusive (own rule).
    #[inline(always)]
    pub fn byte(&mut self, byte: u8, offset: u64) -> Result<Packed<'_>, TooLong>
        ensures answer { Packs self.old offset byte result }
        ensures* after { sem 𝓛 (KeepsPacker self.entry (packer_after self.old offset byte)) }
    {
        let cable = self.cable;
        // Each arm returns, so that the prover handles each result alone. With all arms together its search
        // doesn't end.
        match self.parser.byte(byte, offset) {
            Step::Held => return Ok(Packed::only_listed(cable, None, None)),
            Step::Voice(bytes) => {
                let event = voice_event(cable, &bytes.message());
                return Ok(Packed::of_event(cable, event, None));
            }
            Step::Common(bytes) => {
                let event = system_event(cable, &bytes.message());
                return Ok(Packed::of_event(cable, event, None));
            }
            Step::RealTime(status) => {
                let event = system_event(cable, &status.message());
                return Ok(Packed::of_event(cable, event, None));
            }
            Step::Exclusive(whole) => return Ok(Packed::of_whole(cable, whole)),
            Step::Stray => return Ok(Packed::only_listed(cable, Some(stray(offset)), None)),
            Step::Undefined => return Ok(Packed::only_listed(cable, Some(undefined(offset)), None)),
            Step::Cut { start, what, after } => return Ok(cut(cable, start, what, after, offset)),
            Step::TooLong => return Err(TooLong),
        }
    }

    /// Returns the line for the message or exclusive that is still open at the end of the stream (own rule).
    /// The line has the offset at which that message starts, and the cable as its group. Returns `None`
    /// exactly when nothing is open.
    pub fn end(&self) -> Option<Listed>
        ensures { option_to_list result ≡ map (line_up self.now.cable) (kinds_at_end
            (option_map (λ begun. (begun.start, begun.kind)) (open_of self.now.parsing))) }
    {
        match self.parser.end() {
            None => None,
            Some((start, what)) => Some(Listed {
                offset: start,
                group: Some(self.cable),
                kind: kind_of_open(what),
            }),
        }
    }
}
