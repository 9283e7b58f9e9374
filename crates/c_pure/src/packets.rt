// Cuts bytes into the words of packets.
ghost use Rattle.std.specs.Prelude.{◌≡◌, ◌≤◌, ◌*◌, Some, length, take, MatchResult};
ghost use Rattle.packet_words.specs.Words.{IsPacket, words_of};
ghost use Rattle.c_answers.specs.Numbers.{number_of};
ghost use Rattle.c_pure.specs.Packets.{order_by, stop_before, AreCut, ArePacketsIn};

use c_answers::{Block, Status, put_words};
use packet_words::words::{word_in, words_in, words_in_packet};
use packet_words::{Order, Words};

/// The flag for words whose lowest byte comes first.
const LITTLE_ENDIAN: u32 = 8;

// The reason why no packet is taken, and how many words its packet needs.
#[derive(Clone, Copy)]
struct Stop {
    why: Status,
    need: usize,
}

// Returns the words of the packet at the front of these bytes, if `places` are enough for them.
fn front(order: Order, bytes: &[u8], places: usize) -> Result<Words, Stop>
    ensures { MatchResult result
        (λ words. let own = take (4 * length words) bytes.now in
        IsPacket order own × (words ≡ words_of order own)
        × (4 * length words ≤ length bytes.now) × (length words ≤ places))
        (λ stop. stop_before order places bytes.now ≡ Some (stop.why, stop.need)) }
{
    if bytes.is_empty() {
        let why = Status::Done;
        return Err(Stop { why, need: 0 });
    }
    let why = Status::BadSize;
    if bytes.len() < 4 {
        return Err(Stop { why, need: 0 });
    }
    let count = words_in_packet(word_in(order, bytes, 0));
    if places < count {
        let why = Status::SmallBuffer;
        return Err(Stop { why, need: count });
    }
    if bytes.len() < 4 * count {
        return Err(Stop { why, need: 0 });
    }
    Ok(words_in(order, &bytes[..4 * count]))
}

// Cuts bytes in this byte order.
fn cut(order: Order, bytes: &[u8], words: &mut [u32], block: &mut Block) -> Status
    ensures { AreCut order bytes.now words.old (number_of result) words.new block.new }
{
    let (mut taken, mut written) = (0, 0);
    loop {
        match front(order, &bytes[taken..], words.len() - written) {
            Ok(packet) => {
                let own = packet.as_slice();
                taken += 4 * own.len();
                written += put_words(own, &mut words[written..]);
            }
            Err(stop) => {
                *block = Block {
                    taken,
                    written,
                    need: stop.need,
                    ..Block::nothing()
                };
                return stop.why;
            }
        }
    }
}

// Returns the byte order that the flags select, or `None` if another flag is set.
fn order_by(flags: u32) -> Option<Order>
    ensures { result ≡ order_by flags }
{
    match flags {
        0 => Some(Order::Big),
        LITTLE_ENDIAN => Some(Order::Little),
        _ => None,
    }
}

/// Cuts bytes, from the front, into the words of whole packets (M2-104-UM, message types), and writes the
/// words to the front of the buffer. The highest byte of each word comes first, or the lowest with flag 8.
/// `block` says how many bytes are taken and how many words are written.
///
/// Returns `BadFlags` if another flag is set, and `Done` if all bytes are taken. Otherwise the status says
/// why the next packet isn't taken: `BadSize` if fewer than four bytes are left; `SmallBuffer` if its words
/// don't fit in the rest of the buffer, and then `need` is their number; `BadSize` if its bytes are
/// incomplete.
pub fn packets_in(bytes: &[u8], flags: u32, words: &mut [u32], block: &mut Block) -> Status
    ensures { ArePacketsIn bytes.now flags words.old (number_of result) words.new block.new }
{
    match order_by(flags) {
        Some(order) => cut(order, bytes, words, block),
        None => {
            *block = Block::nothing();
            Status::BadFlags
        }
    }
}
