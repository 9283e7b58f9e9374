// Cuts messages into packets.
ghost use Rattle.std.specs.Prelude.{◌≡◌, ◌≤◌, ℕ, List, [], length};
ghost use Rattle.ump_grammar.specs.Replies.{AddsPackets};
ghost use Rattle.ci_messages.specs.Fields.{IsData};
ghost use Rattle.ci_responder.specs.Replies.{message_of_payload, packets_of};

use crate::message::CiMessage;
use small_types::U4;
use sysex_groups::part;
use ump_grammar::{Packet, Replies};

// Adds the packets of a payload to `replies`, which is empty.
fn push_payload(replies: &mut Replies, group: U4, payload: &[u8])
    requires empty { replies.old ≡ [] }
    requires fits { length payload.now ≤ 342 }
    requires bytes { IsData payload.now }
    ensures packets { AddsPackets (packets_of group payload.now) [] replies.new }
    ensures few { length replies.new ≤ 114 }
{
    // says that the group is below 16
    group.get();
    let mut k = 0;
    while let Some((form, bytes)) = part(payload, k) {
        replies.push(&Packet::Exclusive { group, form, bytes });
        k += 1;
    }
}

/// Adds the packets of a message to `replies`, which is empty. Each packet has six bytes, and the last may
/// have fewer (M2-104-UM, system exclusive 7-bit messages).
pub(crate) fn push_message(replies: &mut Replies, group: U4, message: &CiMessage)
    requires { replies.old ≡ [] }
    ensures packets { (payload : List ℕ) → message.now ≡ message_of_payload payload →
        AddsPackets (packets_of group payload) [] replies.new }
    ensures few { length replies.new ≤ 114 }
{
    let bytes = message.as_slice();
    push_payload(replies, group, &bytes[1..bytes.len() - 1]);
}
