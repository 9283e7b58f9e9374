// The packets of a recording, one by one, as the words that encode them.
ghost use Rattle.std.specs.Prelude.{◌≡◌, ◌<◌, ◌≤◌, ◌-◌, ℕ, IfSome, List, MatchOption, Option, None, length};
ghost use Rattle.std.proofs.Common.{ap};
ghost use Rattle.item_reader.specs.SoFar.{Given, given};
ghost use Rattle.outside.specs.Outside.{ahead};
ghost use Rattle.pass_loop.specs.Items.{limit};
ghost use Rattle.item_reader.specs.Reading.{held_bytes, passed};
ghost use Rattle.pass_loop.specs.Next.{GivesFound, GivesMore, IsFurther, MoreCause};
ghost use Rattle.ump_grammar.specs.Ranges.{IsPacket};
ghost use Rattle.ump_grammar.specs.declared.packet.Packet.{Packet};
ghost use Rattle.ump_words.specs.Cut.{IsWhole};
ghost use Rattle.ump_words.specs.declared.words.Framed.{Framed};
ghost use Rattle.ump_words.specs.declared.words.Order.{Order};
ghost use Rattle.packet_input.specs.Packets.{BeginsPacket, GivenSoFar, IsReadInto, IsUnknownAt, ReadsAt, new_words, packet_cutting};
ghost use Rattle.packet_input.specs.ForProofs.Starting.{none_given};
ghost use Rattle.pass_loop.specs.ForProofs.Starting.{none_passed};

use crate::endings::reason_of;
use crate::more::more_words;
use encoded_packets::EncodedPacket;
use item_reader::items_are_read_in_order;
use outside::Source;
use pass_loop::{Found, Items, LIMIT, More};
use ump_words::{Framed, Order, Packets, WordReader, Words};

/// Returns the packets of a recording as their words.
#[derive(Drop)]
pub struct EncodedReader {
    words: WordReader,
}

impl EncodedReader {
    /// Creates a reader of words in this byte order (M2-104-UM, message types).
    pub fn new(order: Order) -> EncodedReader
        ensures { result.words ≡ new_words order }
    {
        EncodedReader {
            words: WordReader::new(order, LIMIT),
        }
    }
}

// Returns the packet at a position in the reader's bytes, if its first two words show that the packet is
// these two words or the first alone. Most packets are of these kinds, so finding the next packet needs no
// table of lengths. Returns `None` exactly for other bytes.
#[inline(always)]
fn known_in(
    words: &WordReader,
    held: &[u8],
    offset: u64,
    place: usize,
) -> Option<Found<Framed, EncodedPacket>>
    requires held { held.now ≡ held_bytes words.now }
    requires offset { offset ≡ words.now.offset }
    requires place { place ≤ length held.now }
    ensures { MatchOption result (IsUnknownAt words.now place) (λ found. ReadsAt words.now place found) }
{
    let pair = words.two_in(held, place)?;
    let offset = offset + place as u64;
    match EncodedPacket::of_two(pair.0, pair.1) {
        Some(packet) => Some(Found::Item {
            at: Framed {
                offset,
                words: Words::of_two(pair.0, pair.1),
            },
            item: packet,
            next: place + 8,
        }),
        None => {
            let packet = EncodedPacket::of_one(pair.0)?;
            Some(Found::Item {
                at: Framed {
                    offset,
                    words: Words::from_slice(&[pair.0]),
                },
                item: packet,
                next: place + 4,
            })
        }
    }
}

// Reads the words of one packet. `next` is the position at which the next words begin.
#[inline(always)]
fn read_words(framed: Framed, next: usize) -> Found<Framed, EncodedPacket>
    requires { IsWhole framed.words }
    ensures { IsReadInto framed next result }
{
    match EncodedPacket::new(&framed) {
        Ok(packet) => Found::Item {
            at: framed,
            item: packet,
            next,
        },
        Err(bad) => Found::Refused {
            reason: reason_of(bad),
            offset: framed.offset,
        },
    }
}

impl Items<Framed, EncodedPacket> for EncodedReader {
    ghost IsCut = { λ first. packet_cutting first.words.how };

    ghost IsNew = { λ first. first.words ≡ new_words first.words.how };

    ghost HasGiven = { λ first now so_far. GivenSoFar first.words.how now.words so_far };

    ghost Promises = { λ past item. IsPacket item.1 };

    ghost to_go = { λ reader. reader.words.limit - reader.words.offset };

    ghost held_bytes = { λ reader. held_bytes reader.words };

    ghost first_offset = { λ reader. reader.words.offset };

    ghost passed = { λ count reader. record reader { words = passed count reader.words } };

    ghost IsHeld = { λ place reader. BeginsPacket reader.words place };

    #[inline(always)]
    fn held(&self) -> (&[u8], u64) {
        self.words.held()
    }

    #[inline(always)]
    fn item_in(
        &self,
        held: &[u8],
        offset: u64,
        place: usize,
    ) -> Option<Found<Framed, EncodedPacket>> {
        items_are_read_in_order::<Packets, Framed>();
        if let Some(found) = known_in(&self.words, held, offset, place) {
            return Some(found);
        }
        match self.words.item_in(held, offset, place) {
            Some(given) => {
                let (framed, next) = given;
                Some(read_words(framed, next))
            }
            None => None,
        }
    }

    #[inline(always)]
    fn pass(&mut self, count: usize) {
        self.words.pass(count);
    }

    #[inline(always)]
    fn more<S: Source>(&mut self, input: &mut S) -> More {
        more_words(&mut self.words, input)
    }

    ghost starts = { λ first all new. none_given first.words first.words.how 0 all new };

    ghost stays = { λ reader. ap (λ words. record reader { words = words }) (none_passed reader.words) };
}
