// The items of a stream, one by one, each with its offset.
ghost use Rattle.std.specs.Prelude.{◌≡◌, ◌<◌, ◌≤◌, ◌-◌, ℕ, IfSome, List, Option, None, drop, length};
ghost use Rattle.outside.specs.Outside.{ahead};
ghost use Rattle.item_reader.specs.Reading.{held_bytes, new_reading, passed};
ghost use Rattle.item_reader.specs.SoFar.{Given, ReadSoFar, given};
ghost use Rattle.pass_loop.specs.Items.{HoldsItem, after_offset, item_cutting, limit};
ghost use Rattle.pass_loop.specs.Next.{GivesFoundAt, GivesMore, IsFurther, MoreCause};
ghost use Rattle.pass_loop.specs.Pass.{Cutting};
ghost use Rattle.pass_loop.specs.ForProofs.Starting.{none_given, none_passed};

use crate::bytes::LIMIT;
use crate::ends::Reason;
use crate::laws::items_are_taken_in_order;
use crate::pass::{Found, Items, More};
use item_reader::{Cut, ItemReader};
use outside::{ReadStop, Source};
use std::marker::Model;

/// Returns the items of a stream that is cut as `how` says, each with its offset. In contracts its value is
/// the `Reading`.
#[derive(Drop)]
pub struct EachItems<H> {
    reader: ItemReader<H>,
}

impl<H> Model for EachItems<H> {
    ghost use Rattle.item_reader.specs.Reading.{Reading};

    ghost Value = { Reading H };

    ghost view = { λ r. r.reader };
}

impl<H: Cut> EachItems<H> {
    /// Creates a reader that has read nothing, for a stream that is cut as `how` says.
    pub fn new(how: H) -> Self
        ensures { result ≡ new_reading how limit }
    {
        EachItems {
            reader: ItemReader::new(how, LIMIT),
        }
    }
}

impl<I, H: Cut<Item = (I, u64)>> Items<u64, I> for EachItems<H> {
    ghost IsCut = { λ first. item_cutting (H.asked first.how) (after_offset (H.item_of first.how)) };

    ghost IsNew = { λ first. first ≡ new_reading first.how limit };

    ghost HasGiven = { λ first now so_far.
        ReadSoFar (H.asked first.how) (after_offset (H.item_of first.how)) first.how limit now so_far };

    ghost Promises = { λ past item. Unit {0} };

    ghost to_go = { λ reader. reader.limit - reader.offset };

    ghost held_bytes = { λ reader. held_bytes reader };

    ghost first_offset = { λ reader. reader.offset };

    ghost passed = { λ count reader. passed count reader };

    ghost IsHeld = { λ place reader. HoldsItem (H.asked reader.how) place reader };

    #[inline(always)]
    fn held(&self) -> (&[u8], u64) {
        self.reader.held()
    }

    #[inline(always)]
    fn item_in(&self, held: &[u8], offset: u64, place: usize) -> Option<Found<u64, I>> {
        items_are_taken_in_order::<H, (u64, I)>();
        match self.reader.item_in(held, offset, place) {
            Some(given) => {
                let ((item, at), next) = given;
                Some(Found::Item { at, item, next })
            }
            None => None,
        }
    }

    #[inline(always)]
    fn pass(&mut self, count: usize) {
        self.reader.pass(count);
    }

    #[inline(always)]
    fn more<S: Source>(&mut self, input: &mut S) -> More {
        items_are_taken_in_order::<H, (u64, I)>();
        match self.reader.more(input) {
            Ok(true) => More::Held,
            Ok(false) => More::End,
            Err(ReadStop::Read(_)) => More::Failed,
            Err(ReadStop::Truncated(offset)) => More::Refused {
                reason: Reason::Truncated,
                offset,
            },
            Err(ReadStop::TooLong) => More::Refused {
                reason: Reason::InputTooLong,
                offset: LIMIT,
            },
        }
    }

    ghost starts = { λ first all new.
        none_given (H.asked first.how) (after_offset (H.item_of first.how)) first.how first all new };

    ghost stays = { λ reader. none_passed reader };
}
