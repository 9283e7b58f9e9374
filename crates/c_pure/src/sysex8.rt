// The packets of an 8-bit exclusive.
ghost use Rattle.std.specs.Prelude.{◌≡◌};
ghost use Rattle.c_answers.specs.Numbers.{number_of};
ghost use Rattle.c_pure.specs.Sysex8.{IsCut};

use c_answers::{Status, put_words};
use small_types::U4;
use sysex8_streams::packets::{part8, part8_words};

/// Writes the four words of packet `index`, counted from 0, of an 8-bit exclusive to the front of the buffer
/// (M2-104-UM, system exclusive 8-bit messages). `payload` has the bytes of the exclusive. Each packet except
/// the last has thirteen bytes, and an exclusive without bytes is one packet (own rule).
///
/// Returns the first of these that applies, and then writes nothing: `SmallBuffer` if the buffer has fewer
/// than four words; `BadGroup` if the group isn't 0 to 15; and `Nothing` if the exclusive has no such packet.
pub fn sysex8_cut(group: u8, stream: u8, payload: &[u8], index: usize, words: &mut [u32]) -> Status
    ensures { IsCut group stream payload.now index words.old (number_of result) words.new }
{
    if words.len() < 4 {
        return Status::SmallBuffer;
    }
    let Some(group) = U4::new(group) else {
        return Status::BadGroup;
    };
    let Some(part) = part8(group, stream, payload, index) else {
        return Status::Nothing;
    };
    put_words(&part8_words(&part), words);
    Status::Done
}
