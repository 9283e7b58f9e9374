// The outcome of one packet.
ghost use Rattle.std.specs.Prelude.{◌≡◌};
ghost use Rattle.c_endpoint.specs.Packets.{group_number, needing, no_replies, replies_of};

use crate::heard::heard_number;
use c_answers::ListingLine;
use ump_endpoint::Taken;
use ump_grammar::Packet;

/// The outcome of one packet.
#[repr(C)]
#[derive(Clone, Copy)]
pub struct PacketReplies {
    /// The number of words of replies written, packet after packet.
    pub written: usize,
    /// If the buffer is too small, a sufficient number of words; otherwise 0.
    pub need: usize,
    /// The offset of the line of the listing: that of the packet if it is stray, or that of the first packet
    /// of the exclusive that it cuts off. 0 if there is no line.
    pub offset: u64,
    /// The number of what the endpoint did with the message that the packet ended; 0 if the packet ended
    /// none.
    pub heard: u8,
    /// The group of a packet of an exclusive, 0 to 15; 255 for all other packets.
    pub group: u8,
    /// The number of the line's kind; 0 if there is no line.
    pub kind: u8,
}

// Returns the group of a packet of an exclusive; 255 for all other packets.
fn group_number(packet: &Packet) -> u8
    ensures { result ≡ group_number packet.now }
{
    match packet {
        Packet::Exclusive { group, .. } => group.get(),
        _ => 255,
    }
}

impl PacketReplies {
    /// Returns the value for a packet without replies.
    #[inline(always)]
    pub fn none() -> PacketReplies
        ensures { result ≡ no_replies }
    {
        PacketReplies {
            written: 0,
            need: 0,
            offset: 0,
            heard: 0,
            group: 255,
            kind: 0,
        }
    }

    /// Returns the value for a packet that wasn't taken because the buffer was too small. `size` is a
    /// sufficient buffer size.
    pub fn needing(size: usize) -> PacketReplies
        ensures { result ≡ needing size }
    {
        PacketReplies {
            need: size,
            ..PacketReplies::none()
        }
    }

    /// Returns the value for a packet that was taken, by what was done with it and the number of words
    /// written.
    pub fn of(packet: &Packet, taken: &Taken, words: usize) -> PacketReplies
        ensures { result ≡ replies_of packet.now taken.now words }
    {
        let line = ListingLine::listed(taken.listed);
        PacketReplies {
            written: words,
            need: 0,
            offset: line.offset,
            heard: heard_number(taken.outcome),
            group: group_number(packet),
            kind: line.kind,
        }
    }
}
