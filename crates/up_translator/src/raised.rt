// The outcome of a byte.
use crate::raised_packet::RaisedPacket;
use listing_terms::byte_lines::{ByteLine, ByteLines};
use small_types::U4;

/// The outcome of a byte.
#[derive(Clone, Copy, Debug)]
pub struct Raised<'a> {
    /// The packet of the voice or system message that the byte completes.
    pub packet: Option<&'a RaisedPacket>,
    /// The bytes between F0 and F7 of the exclusive that the byte ends. `sysex_groups::part` returns its
    /// packets. If there is a payload, there is no packet.
    pub payload: Option<&'a [u8]>,
    /// The lines of the byte in the listing, in the group of the packets.
    pub lines: ByteLines,
}

impl<'a> Raised<'a> {
    ghost use Rattle.std.specs.Prelude.{◌≡◌, ◌++◌, [], ◌∷◌, map, Some, None};
    ghost use Rattle.std.specs.Option.{option_to_list};
    ghost use Rattle.midi1_bytes.specs.Answers.{framed, payload_of};
    ghost use Rattle.midi_meaning.specs.Raising.{exclusive_packets};
    ghost use Rattle.midi_meaning.specs.StepListing.{line_up};
    ghost use Rattle.listing_terms.specs.ByteLines.{lines_in, told_of, AreInOrder, IsInOrder};
    ghost use Rattle.up_translator.specs.Raised.{
      group_in,
      packet_in,
      payload_in,
      packets_in,
      IsApart,
    };

    /// Creates an outcome with lines only, at most two, in order.
    pub(crate) fn only_listed(
        group: U4,
        first: Option<ByteLine>,
        second: Option<ByteLine>,
    ) -> Raised<'a>
        requires { AreInOrder first second }
        ensures group { group_in result ≡ group }
        ensures order { IsInOrder result.lines }
        ensures apart { IsApart result }
        ensures packet { packet_in result ≡ None }
        ensures payload { payload_in result ≡ None }
        ensures packets { packets_in result ≡ [] }
        ensures lines { lines_in result.lines ≡
            map (line_up group) (map told_of (option_to_list first ++ option_to_list second)) }
    {
        Raised {
            packet: None,
            payload: None,
            lines: ByteLines::new(group, first, second),
        }
    }

    /// Creates an outcome with a packet, and with a line if there is one.
    pub(crate) fn of_packet(
        group: U4,
        packet: &'a RaisedPacket,
        first: Option<ByteLine>,
    ) -> Raised<'a>
        ensures group { group_in result ≡ group }
        ensures order { IsInOrder result.lines }
        ensures apart { IsApart result }
        ensures packet { packet_in result ≡ Some packet.now }
        ensures payload { payload_in result ≡ None }
        ensures packets { packets_in result ≡ packet.now ∷ [] }
        ensures lines { lines_in result.lines ≡ map (line_up group) (map told_of (option_to_list first)) }
    {
        Raised {
            packet: Some(packet),
            payload: None,
            lines: ByteLines::new(group, first, None),
        }
    }

    /// Creates an outcome with the payload of an exclusive. `bytes` is the exclusive from F0 to F7.
    pub(crate) fn of_exclusive(group: U4, bytes: &'a [u8]) -> Raised<'a>
        requires { bytes.now ≡ framed (payload_of bytes.now) }
        ensures group { group_in result ≡ group }
        ensures order { IsInOrder result.lines }
        ensures apart { IsApart result }
        ensures packet { packet_in result ≡ None }
        ensures payload { payload_in result ≡ Some (payload_of bytes.now) }
        ensures packets { packets_in result ≡ exclusive_packets group (payload_of bytes.now) }
        ensures lines { lines_in result.lines ≡ [] }
    {
        let payload = &bytes[1..bytes.len() - 1];
        Raised {
            packet: None,
            payload: Some(payload),
            lines: ByteLines::new(group, None, None),
        }
    }

    /// Returns the group of the packets and of the lines.
    pub fn group(&self) -> U4
        ensures { result ≡ group_in self.now }
    {
        self.lines.group()
    }
}
