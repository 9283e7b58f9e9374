// Reads more of the words of a recording.
ghost use Rattle.std.specs.Prelude.{◌≡◌, ◌-◌, ℕ, List, Option};
ghost use Rattle.item_reader.specs.SoFar.{given};
ghost use Rattle.pass_loop.specs.Next.{GivesMore, MoreCause};
ghost use Rattle.ump_grammar.specs.declared.packet.Packet.{Packet};
ghost use Rattle.ump_words.specs.declared.words.Framed.{Framed};
ghost use Rattle.ump_words.specs.declared.words.Order.{Order};
ghost use Rattle.packet_input.specs.Packets.{BeginsPacket, GivenSoFar, packet_cutting};

use crate::endings::refusal_of;
use item_reader::items_are_read_in_order;
use outside::Source;
use pass_loop::More;
use ump_words::{Framed, Packets, WordReader};

/// Reads until the words of a whole packet are held (M2-104-UM, message types). After `More::Failed` no byte
/// is lost, and a later call continues from there.
#[inline(always)]
pub(crate) fn more_words<S: Source>(words: &mut WordReader, input: &mut S) -> More
    ensures answer { (order : Order) (all : Option (List ℕ)) (items : List (Framed × Packet)) →
        GivenSoFar order words.old (given all (S.left input.old) items) →
        GivesMore (packet_cutting order) (GivenSoFar order words.new)
        (given all (S.left input.new) items) result }
    ensures held { result ≡ More.Held → BeginsPacket words.new 0
        × (words.new.limit - words.new.offset ≡ words.old.limit - words.old.offset) }
    ensures cause { MoreCause (S.faults input.old) (S.faults input.new) result }
{
    items_are_read_in_order::<Packets, Framed>();
    match words.more(input) {
        Ok(true) => More::Held,
        Ok(false) => More::End,
        Err(stop) => match refusal_of(stop, 0) {
            Some(refusal) => More::Refused {
                reason: refusal.0,
                offset: refusal.1,
            },
            None => More::Failed,
        },
    }
}
