// The packets of a recording, or of a file after its first bytes, one by one.
ghost use Rattle.std.specs.Prelude.{◌≡◌, ◌<◌, ◌≤◌, ◌-◌, ℕ, IfSome, List, Option, None, length};
ghost use Rattle.std.proofs.Common.{ap};
ghost use Rattle.item_reader.specs.SoFar.{Given, given};
ghost use Rattle.outside.specs.Outside.{ahead};
ghost use Rattle.pass_loop.specs.Items.{limit};
ghost use Rattle.item_reader.specs.Reading.{held_bytes, passed};
ghost use Rattle.pass_loop.specs.Next.{GivesFound, GivesMore, IsFurther, MoreCause};
ghost use Rattle.ump_grammar.specs.Ranges.{IsPacket};
ghost use Rattle.ump_grammar.specs.declared.packet.Packet.{Packet};
ghost use Rattle.ump_words.specs.Cut.{IsWhole};
ghost use Rattle.ump_words.specs.declared.words.Framed.{Framed};
ghost use Rattle.ump_words.specs.declared.words.Order.{Order};
ghost use Rattle.packet_input.specs.Packets.{BeginsPacket, GivenSoFar, GivesNextPacket, IsReadInto, new_words, packet_cutting};
ghost use Rattle.packet_input.specs.ForProofs.Starting.{none_given};
ghost use Rattle.pass_loop.specs.ForProofs.Starting.{none_passed};

use crate::endings::{reason_of, stopped};
use crate::more::more_words;
use item_reader::items_are_read_in_order;
use outside::Source;
use pass_loop::{Found, Items, LIMIT, More, Next};
use ump_grammar::{Packet, decode};
use ump_words::{Framed, Order, Packets, WordReader};

/// Returns the next packet (M2-104-UM, message types) of an input that has `before` bytes before the first
/// word. These bytes count in each offset and in the limit of the whole input, 4,294,967,296 bytes (own
/// rule). So the reader must be one that `WordReader::new(order, LIMIT - before)` returned, from which only
/// this call has read, and which has not ended. After `Next::Failed` no byte is lost, and a later call
/// continues from there.
#[inline(always)]
pub fn next_packet<S: Source>(
    words: &mut WordReader,
    before: u64,
    input: &mut S,
) -> Next<Framed, Packet>
    requires { before ≤ limit }
    ensures { GivesNextPacket S.Source before words.old words.new input.old input.new result }
{
    items_are_read_in_order::<Packets, Framed>();
    match words.next(input) {
        Ok(Some(mut framed)) => {
            // Both are within the limit, so the sum never overflows.
            framed.offset = framed.offset.wrapping_add(before);
            match decode(&framed) {
                Ok(packet) => Next::Item {
                    at: framed,
                    item: packet,
                },
                Err(bad) => Next::Refused {
                    reason: reason_of(bad),
                    offset: framed.offset,
                },
            }
        }
        Ok(None) => Next::End,
        Err(stop) => stopped(stop, before),
    }
}

/// Returns the packets of a recording, decoded.
#[derive(Drop)]
pub struct PacketReader {
    words: WordReader,
}

impl PacketReader {
    /// Creates a reader of words in this byte order (M2-104-UM, message types).
    pub fn new(order: Order) -> PacketReader
        ensures { result.words ≡ new_words order }
    {
        PacketReader {
            words: WordReader::new(order, LIMIT),
        }
    }
}

// Reads the words of one packet. `next` is the position at which the next words begin.
#[inline(always)]
fn read_words(framed: Framed, next: usize) -> Found<Framed, Packet>
    requires { IsWhole framed.words }
    ensures { IsReadInto framed next result }
{
    match decode(&framed) {
        Ok(packet) => Found::Item {
            at: framed,
            item: packet,
            next,
        },
        Err(bad) => Found::Refused {
            reason: reason_of(bad),
            offset: framed.offset,
        },
    }
}

impl Items<Framed, Packet> for PacketReader {
    ghost IsCut = { λ first. packet_cutting first.words.how };

    ghost IsNew = { λ first. first.words ≡ new_words first.words.how };

    ghost HasGiven = { λ first now so_far. GivenSoFar first.words.how now.words so_far };

    ghost Promises = { λ past item. IsPacket item.1 };

    ghost to_go = { λ reader. reader.words.limit - reader.words.offset };

    ghost held_bytes = { λ reader. held_bytes reader.words };

    ghost first_offset = { λ reader. reader.words.offset };

    ghost passed = { λ count reader. record reader { words = passed count reader.words } };

    ghost IsHeld = { λ place reader. BeginsPacket reader.words place };

    #[inline(always)]
    fn held(&self) -> (&[u8], u64) {
        self.words.held()
    }

    #[inline(always)]
    fn item_in(&self, held: &[u8], offset: u64, place: usize) -> Option<Found<Framed, Packet>> {
        items_are_read_in_order::<Packets, Framed>();
        match self.words.item_in(held, offset, place) {
            Some(given) => {
                let (framed, next) = given;
                Some(read_words(framed, next))
            }
            None => None,
        }
    }

    #[inline(always)]
    fn pass(&mut self, count: usize) {
        self.words.pass(count);
    }

    #[inline(always)]
    fn more<S: Source>(&mut self, input: &mut S) -> More {
        more_words(&mut self.words, input)
    }

    ghost starts = { λ first all new. none_given first.words first.words.how 0 all new };

    ghost stays = { λ reader. ap (λ words. record reader { words = words }) (none_passed reader.words) };
}
