// Takes packets down, up and down again.
ghost use Rattle.std.specs.Prelude.{◌≡◌, ◌≤◌, ◌<◌, ◌*◌, ◌^◌, ◌==◌, if◌then◌else◌, [], ◌∷◌, IfOk, List, length};
ghost use Rattle.std.specs.Option.{option_to_list};
ghost use Rattle.midi_meaning.specs.Parts.{Placed};
ghost use Rattle.down_translator.specs.Carried.{line_in};
ghost use Rattle.self_test.specs.Counts.{counts_of, counts_with};
ghost use Rattle.self_test.specs.ForProofs.Held.{HasTaken};
ghost use Rattle.self_test.specs.Played.{IsPlayed};

use crate::back::bring_back;
use crate::counts::Counts;
use down_translator::{Carried, Down, Style};
use midi_meaning::laws::carried_packets_have_a_piece;
use midi_meaning::up_laws::rooms_that_are_not_reached_do_not_matter_in_bytes;
use small_types::{NoMemory, U4};
use std::alloc::Global;
use ump_grammar::Packet;
use up_translator::Up;

// The most bytes of an exclusive between F0 and F7. No exclusive occurs, so this is the least that is
// allowed.
const ROOM: u32 = 6;

// The three translators, and the counts so far.
#[derive(Drop)]
pub(crate) struct Course {
    down: Down,
    up: Up,
    again: Down,
    counts: Counts,
}

impl Course {
    // Creates the three translators. Allocates all the memory.
    pub(crate) fn new(alloc: Global) -> Result<Course, NoMemory>
        ensures { IfOk result (HasTaken []) }
    {
        let down = Down::new(alloc, ROOM, Style::Plain, false)?;
        let up = Up::new(alloc, U4::low_bits(0), ROOM, false)?;
        let again = Down::new(alloc, ROOM, Style::Plain, false)?;
        Ok(Course {
            down,
            up,
            again,
            counts: Counts {
                carried: 0,
                listed: 0,
                bytes: 0,
                again: 0,
            },
        })
    }

    // Takes one more packet, which has eight bytes, at its offset. No packet is refused.
    pub(crate) fn take(&mut self, packet: &Packet, offset: u64)
        requires played { IsPlayed packet.now }
        requires taken { (past : List Placed) × HasTaken past self.old × (length past < 2 ^ 32)
            × (offset ≡ 8 * length past) }
        ensures { (past : List Placed) → HasTaken past self.old →
            HasTaken (record { offset = offset; packet = packet.now } ∷ past) self.new }
    {
        carried_packets_have_a_piece();
        rooms_that_are_not_reached_do_not_matter_in_bytes();
        if let Ok(carried) = self.down.packet(packet, offset) {
            let again = bring_back(
                carried.piece,
                self.counts.bytes,
                &mut self.up,
                &mut self.again,
            );
            self.counts = with_more(self.counts, &carried, again);
        }
    }

    // Returns the counts so far.
    pub(crate) fn counts(&self) -> Counts
        ensures { (past : List Placed) → HasTaken past self.now → result ≡ counts_of past }
    {
        self.counts
    }
}

// Returns the counts with one more packet, whose outcome on the first way down is `carried`, and which came
// back as `again` bytes.
fn with_more(counts: Counts, carried: &Carried<'_>, again: u64) -> Counts
    requires carried { counts.carried < 2 ^ 60 }
    requires listed { counts.listed < 2 ^ 60 }
    requires bytes { counts.bytes < 2 ^ 60 }
    requires again { counts.again < 2 ^ 60 }
    requires short { length carried.now.piece.now ≤ 12 }
    requires few { again ≤ 144 }
    ensures { result ≡ counts_with counts carried.now again }
{
    Counts {
        carried: counts.carried + piece_count(carried),
        listed: counts.listed + line_count(carried),
        bytes: counts.bytes + carried.piece.len() as u64,
        again: counts.again + again,
    }
}

// Returns 1 for a packet that is carried, otherwise 0.
fn piece_count(carried: &Carried<'_>) -> u64
    ensures count { result ≡ (if length carried.now.piece.now == 0 then 0 else 1) }
    ensures few { result ≤ 1 }
{
    if carried.piece.is_empty() { 0 } else { 1 }
}

// Returns the number of the packet's lines, 0 or 1.
fn line_count(carried: &Carried<'_>) -> u64
    ensures count { result ≡ length (option_to_list (line_in carried.now)) }
    ensures few { result ≤ 1 }
{
    match carried.listed() {
        Some(_) => 1,
        None => 0,
    }
}
