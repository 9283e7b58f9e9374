// Writes the packets of an exclusive.
ghost use Rattle.std.specs.Prelude.{◌≡◌, ◌≤◌, false, length};
ghost use Rattle.sysex_groups.specs.Cut.{part_at};
ghost use Rattle.ump_grammar.specs.Ranges.{IsPacket};
ghost use Rattle.ump_grammar.specs.Reading.{Encodes};
ghost use Rattle.ump_grammar.specs.Reason.{has_high};
ghost use Rattle.ump_grammar.specs.declared.packet.Packet.TheVariants as packet;
ghost use Rattle.c_answers.specs.Numbers.{number_of};
ghost use Rattle.c_translators.specs.Exclusives.{IsCut, cuts, is_refused};

use c_answers::{Status, put_words};
use small_types::{ShortList, U4};
use sysex_groups::part;
use ump_grammar::{Packet, encode};
use voice_messages::Form;

// Returns whether one of these bytes is 128 or more.
fn has_high(bytes: &[u8]) -> bool
    ensures { result ≡ has_high bytes.now }
{
    bytes.iter().any(|byte| *byte >= 128)
}

// Returns whether a byte is refused before packet `index`, whose bytes are `own`. Before the first packet,
// any byte of the payload may be refused, so that no part of an exclusive with such a byte is sent.
#[tactic(auto, using(crate::proofs::ExclusiveLaws::allowed))]
fn is_refused(index: usize, payload: &[u8], own: &[u8]) -> bool
    ensures refused { result ≡ is_refused index payload.now own.now }
    ensures allowed { result ≡ false → has_high own.now ≡ false }
{
    has_high(own) || index == 0 && has_high(payload)
}

/// Returns the two words of a packet of an exclusive (M2-104-UM, system exclusive 7-bit messages).
#[tactic(auto, using(crate::proofs::ExclusiveLaws::two_words))]
pub fn exclusive_words(group: U4, form: Form, bytes: ShortList<u8, 6>) -> [u32; 2]
    requires { IsPacket (packet.Exclusive group form bytes) }
    ensures { Encodes (packet.Exclusive group form bytes) result }
{
    let spelled = encode(&Packet::Exclusive { group, form, bytes });
    let words = spelled.as_slice();
    [words[0], words[1]]
}

// Writes the words of packet `index` of an exclusive with these bytes between F0 and F7, if there is such a
// packet.
fn put_part(group: U4, payload: &[u8], index: usize, words: &mut [u32]) -> Status
    requires { 2 ≤ length words.old }
    ensures { cuts (part_at payload.now index) group payload.now index
        words.old (number_of result) words.new }
{
    let Some((form, bytes)) = part(payload, index) else {
        return Status::Nothing;
    };
    if is_refused(index, payload, bytes.as_slice()) {
        return Status::HighBit;
    }
    put_words(&exclusive_words(group, form, bytes), words);
    Status::Done
}

/// Writes the two words of packet `index`, counted from 0, of an exclusive with these bytes between F0 and F7
/// (M2-104-UM, system exclusive 7-bit messages) to the front of the buffer.
///
/// Returns the first of these that applies, and then writes nothing: `SmallBuffer` if the buffer has fewer
/// than two words; `BadGroup` if the group isn't 0 to 15; `Nothing` if the exclusive has no such packet; and
/// `HighBit` if a byte of the packet, or with index 0 any byte of the exclusive, is 128 or more.
pub fn exclusive_packet(group: u8, payload: &[u8], index: usize, words: &mut [u32]) -> Status
    ensures { IsCut group payload.now index words.old (number_of result) words.new }
{
    if words.len() < 2 {
        return Status::SmallBuffer;
    }
    let Some(group) = U4::new(group) else {
        return Status::BadGroup;
    };
    put_part(group, payload, index, words)
}
