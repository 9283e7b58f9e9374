// The line of a packet.
ghost use Rattle.std.specs.Prelude.{◌≡◌};
ghost use Rattle.c_answers.specs.Numbers.{number_of};
ghost use Rattle.c_pure.specs.Texts.{IsTold};

use c_answers::{Status, framed, put_bytes};
use text_lines::packet_line;
use ump_grammar::decode;

/// The most bytes of a line of `show` (own rule).
const MOST_BYTES: usize = 256;

/// Writes the line of the program's `show` for the packet of these words at this offset to the front of the
/// buffer, with the line feed, and the line's length in bytes to `length` (own rule).
///
/// Returns the first of these that applies: `SmallBuffer` if the buffer has fewer than 256 bytes;
/// `BadWordCount` if the number of words isn't the number that the first word's message type has; `BadCount`
/// if the packet is of a 7-bit exclusive and has a count above six bytes; and `HighBit` if a byte that
/// carries seven bits is 128 or more. Then nothing is written to the buffer, and the length is 0.
pub fn packet_text(words: &[u32], offset: u64, text: &mut [u8], length: &mut usize) -> Status
    ensures { IsTold words.now offset text.old (number_of result) text.new length.new }
{
    *length = 0;
    if text.len() < MOST_BYTES {
        return Status::SmallBuffer;
    }
    let Some(framed) = framed(words, offset) else {
        return Status::BadWordCount;
    };
    match decode(&framed) {
        Ok(packet) => {
            let line = packet_line(&packet, framed.words.as_slice(), offset);
            *length = put_bytes(line.as_slice(), text);
            Status::Done
        }
        Err(bad) => Status::of_bad(bad),
    }
}
