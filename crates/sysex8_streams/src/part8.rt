// The part of an 8-bit exclusive in a packet.
ghost use Rattle.std.specs.Prelude.{◌≡◌, length};
ghost use Rattle.packet_words.specs.Words.{IsWhole};
ghost use Rattle.ump_grammar.specs.WordFields.{type_of};
ghost use Rattle.sysex8_streams.specs.Reading.{Reads8, data_places as places_of};

use packet_words::Words;
use small_types::{ShortList, U4};
use ump_grammar::decoding::form_of;
use ump_grammar::fields::{bits, byte, nibble};
use voice_messages::Form;

/// The part of a stream's exclusive in one packet. A group and a stream id name the stream.
#[derive(Debug, PartialEq, Eq, Drop)]
pub struct Part8 {
    /// The group.
    pub group: U4,
    /// Which part of an exclusive it is.
    pub form: Form,
    /// The stream id, 0 to 255.
    pub stream: u8,
    /// The bytes of the part, 0 to 13, each 00 to FF.
    pub bytes: ShortList<u8, 13>,
}

/// Returns the part in the words of a type 5 packet (M2-104-UM, system exclusive 8-bit messages), or `None`
/// exactly if the form is above 3, as in mixed data, or if the count, which includes the stream id, is 0 or
/// 15.
pub fn read8(words: &Words) -> Option<Part8>
    requires whole { IsWhole words.now }
    requires kind { type_of words.now ≡ 0x5 }
    ensures { Reads8 words.now result }
{
    let word = words.as_slice()[0];
    let form = form_of(bits(word, 20, 4))?;
    let count = bits(word, 16, 4) as usize;
    if count == 0 || count == 15 {
        return None;
    }
    let places = data_places(words.as_slice());
    let mut bytes = ShortList::new();
    bytes.extend(&places[..count - 1]);
    Some(Part8 {
        group: nibble(word, 24),
        form,
        stream: byte(word, 8),
        bytes,
    })
}

// Returns bytes 4 to 16.
fn data_places(words: &[u32]) -> [u8; 13]
    requires { length words.now ≡ 4 }
    ensures { result ≡ places_of words.now }
{
    [
        byte(words[0], 0),
        byte(words[1], 24),
        byte(words[1], 16),
        byte(words[1], 8),
        byte(words[1], 0),
        byte(words[2], 24),
        byte(words[2], 16),
        byte(words[2], 8),
        byte(words[2], 0),
        byte(words[3], 24),
        byte(words[3], 16),
        byte(words[3], 8),
        byte(words[3], 0),
    ]
}
