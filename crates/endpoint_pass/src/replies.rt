// Writes the replies of an endpoint to the output.
ghost use Rattle.std.specs.Prelude.{List, []};
ghost use Rattle.ump_grammar.specs.Replies.{AddsPackets};
ghost use Rattle.ump_grammar.specs.declared.packet.Packet.{Packet};
ghost use Rattle.endpoint_pass.specs.ForProofs.Taking.{PutsPackets};

use packet_input::put_encoded;
use packet_words::Order;
use pass_loop::{Outputs, RunEnd};
use ump_endpoint::ReplyPackets;

/// Writes the words of the packets to the output, one packet after the other.
pub(crate) fn put_replies<O: Outputs>(
    replies: ReplyPackets<'_>,
    order: Order,
    outputs: &mut O,
) -> Result<(), RunEnd>
    ensures { (packets : List Packet) → AddsPackets packets [] replies.entry →
        PutsPackets order packets (O.places outputs.old) (O.places outputs.new) result }
{
    let mut rest = replies;
    while let Some(packet) = rest.next() {
        put_encoded(packet, order, outputs)?;
    }
    Ok(())
}
