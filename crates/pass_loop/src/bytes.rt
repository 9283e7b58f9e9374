// The bytes of a stream, one by one.
ghost use Rattle.std.specs.Prelude.{◌≡◌, ◌<◌, ◌≤◌, ◌-◌, ℕ, IfSome, List, Option, length, None, Some};
ghost use Rattle.outside.specs.Outside.{ahead};
ghost use Rattle.item_reader.specs.ByteReader.{each_byte, new_bytes, one_byte};
ghost use Rattle.item_reader.specs.Reading.{held_bytes, passed};
ghost use Rattle.item_reader.specs.SoFar.{Given, given};
ghost use Rattle.pass_loop.specs.Bytes.{GivenSoFar, byte_cutting, limit, placed_at};
ghost use Rattle.pass_loop.specs.Next.{GivesFoundAt, GivesMore, IsFurther, MoreCause};
ghost use Rattle.pass_loop.specs.Pass.{Cutting};
ghost use Rattle.pass_loop.specs.ForProofs.Starting.{none_given, none_passed};

use crate::ends::Reason;
use crate::laws::items_are_taken_in_order;
use crate::pass::{Found, Items, More};
use item_reader::{ByteReader, EachByte};
use outside::{ReadStop, Source};

/// The most bytes that an input may have.
pub const LIMIT: u64 = 4_294_967_296;

impl Items<u64, u8> for ByteReader {
    ghost IsCut = { λ first. byte_cutting };

    ghost IsNew = { λ first. first ≡ new_bytes limit };

    ghost HasGiven = { λ first now so_far. GivenSoFar now so_far };

    ghost Promises = { λ past item. item.0 ≡ length past };

    ghost to_go = { λ reader. reader.limit - reader.offset };

    ghost held_bytes = { λ reader. held_bytes reader };

    ghost first_offset = { λ reader. reader.offset };

    ghost passed = { λ count reader. passed count reader };

    ghost IsHeld = { λ place reader. place < length (held_bytes reader) };

    #[inline(always)]
    fn held(&self) -> (&[u8], u64) {
        ByteReader::held(self)
    }

    #[inline(always)]
    fn item_in(&self, held: &[u8], offset: u64, place: usize) -> Option<Found<u64, u8>> {
        items_are_taken_in_order::<EachByte, (u64, u8)>();
        match ByteReader::item_in(self, held, offset, place) {
            Some(given) => {
                let ((item, at), next) = given;
                Some(Found::Item { at, item, next })
            }
            None => None,
        }
    }

    #[inline(always)]
    fn pass(&mut self, count: usize) {
        ByteReader::pass(self, count);
    }

    #[inline(always)]
    fn more<S: Source>(&mut self, input: &mut S) -> More {
        items_are_taken_in_order::<EachByte, (u64, u8)>();
        match ByteReader::more(self, input) {
            Ok(true) => More::Held,
            Ok(false) => More::End,
            Err(ReadStop::TooLong) => More::Refused {
                reason: Reason::InputTooLong,
                offset: LIMIT,
            },
            // A single byte is always whole, so the end of the input can't cut one off: if a read stops here,
            // it failed.
            Err(ReadStop::Read(_) | ReadStop::Truncated(_)) => More::Failed,
        }
    }

    ghost starts = { λ first all new. none_given one_byte placed_at each_byte first all new };

    ghost stays = { λ reader. none_passed reader };
}
