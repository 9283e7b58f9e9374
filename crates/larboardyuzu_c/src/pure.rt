// The calls without a handle.
ghost use Rattle.std.specs.Prelude.{◌≡◌};
ghost use Rattle.c_pure.specs.Names.{heard_names, kind_names, status_names, IsNamed};
ghost use Rattle.c_pure.specs.Packets.{ArePacketsIn};
ghost use Rattle.c_pure.specs.Scaling.{IsLowered, IsRaised};
ghost use Rattle.c_pure.specs.Texts.{IsTold};
ghost use Rattle.c_translators.specs.Exclusives.{IsCut};
ghost use Rattle.packet_words.specs.Words.{words_asked};

use c_answers::Block;
use packet_words::words::words_in_packet;

/// Returns the version of the library: the sum of the major number times 65,536, the minor number times 256,
/// and the patch number.
#[unsafe(no_mangle)]
pub extern "C" fn larboardyuzu_version() -> u32
    ensures { result ≡ 768 }
{
    0x000300
}

/// Returns the number of words, 1 to 4, of a packet that begins with this word (M2-104-UM, message types).
/// For example, 4 for a first word 0xF0000000 (a stream message).
#[unsafe(no_mangle)]
pub extern "C" fn larboardyuzu_words_in_packet(first: u32) -> u32
    ensures { result ≡ words_asked first }
{
    words_in_packet(first) as u32
}

/// Writes the name of a status, as the header has it after its prefix, and the name's length in bytes (own
/// rule). Returns `Nothing` if no status has the number, or `SmallBuffer` if the name doesn't fit; the length
/// is then 0.
#[unsafe(no_mangle)]
pub extern "C" fn larboardyuzu_status_name(status: u32, text: &mut [u8], length: &mut usize) -> u32
    ensures { IsNamed status_names status text.old result text.new length.new }
{
    c_pure::status_name(status, text, length).number()
}

/// Writes the name of a kind of line, and the name's length in bytes, as `larboardyuzu_status_name` does.
#[unsafe(no_mangle)]
pub extern "C" fn larboardyuzu_kind_name(kind: u32, text: &mut [u8], length: &mut usize) -> u32
    ensures { IsNamed kind_names kind text.old result text.new length.new }
{
    c_pure::kind_name(kind, text, length).number()
}

/// Writes the name of what an endpoint did with a message, and the name's length in bytes, as
/// `larboardyuzu_status_name` does.
#[unsafe(no_mangle)]
pub extern "C" fn larboardyuzu_heard_name(heard: u32, text: &mut [u8], length: &mut usize) -> u32
    ensures { IsNamed heard_names heard text.old result text.new length.new }
{
    c_pure::heard_name(heard, text, length).number()
}

/// Cuts bytes, from the front, into the words of whole packets (M2-104-UM, message types), as
/// `c_pure::packets_in` does. Returns `BadFlags`, `SmallBuffer` or `BadSize` as that call says.
#[unsafe(no_mangle)]
pub extern "C" fn larboardyuzu_packets_in(
    bytes: &[u8],
    flags: u32,
    words: &mut [u32],
    block: &mut Block,
) -> u32
    ensures { ArePacketsIn bytes.now flags words.old result words.new block.new }
{
    c_pure::packets_in(bytes, flags, words, block).number()
}

/// Writes the two words of packet `index`, counted from 0, of an exclusive with these bytes between F0 and F7
/// (M2-104-UM, system exclusive 7-bit messages). Returns `SmallBuffer`, `BadGroup`, `Nothing` or `HighBit`,
/// and writes nothing, as `c_translators::exclusive_packet` says.
#[unsafe(no_mangle)]
pub extern "C" fn larboardyuzu_exclusive_packet(
    group: u8,
    payload: &[u8],
    index: usize,
    words: &mut [u32],
) -> u32
    ensures { IsCut group payload.now index words.old result words.new }
{
    c_translators::exclusive_packet(group, payload, index, words).number()
}

/// Writes the line of the program's `show` for a packet, with the line feed, and the line's length in bytes
/// (own rule). Returns `SmallBuffer`, `BadWordCount`, `BadCount` or `HighBit`, with length 0, as
/// `c_pure::packet_text` says.
#[unsafe(no_mangle)]
pub extern "C" fn larboardyuzu_packet_line(
    words: &[u32],
    offset: u64,
    text: &mut [u8],
    length: &mut usize,
) -> u32
    ensures { IsTold words.now offset text.old result text.new length.new }
{
    c_pure::packet_text(words, offset, text, length).number()
}

/// Scales a value of 7 bits up to 16 or 32, or a value of 14 bits to 32 (M2-115-U, min-centre-max). `narrow`
/// and `wide` are widths in bits. Returns `BadBits` for other widths, or `BadValue` if the value has more
/// than `narrow` bits; nothing is written then.
#[unsafe(no_mangle)]
pub extern "C" fn larboardyuzu_scale_up(value: u32, narrow: u8, wide: u8, scaled: &mut u32) -> u32
    ensures { IsRaised value narrow wide scaled.old result scaled.new }
{
    c_pure::scale_up(value, narrow, wide, scaled).number()
}

/// Scales a value down: writes the upper 7 of 16 bits, or the upper 7 or 14 of 32 (M2-115-U, downscaling).
/// Returns `BadBits` for other widths, or `BadValue` if the value has more than `wide` bits; nothing is
/// written then.
#[unsafe(no_mangle)]
pub extern "C" fn larboardyuzu_scale_down(value: u32, wide: u8, narrow: u8, scaled: &mut u32) -> u32
    ensures { IsLowered value wide narrow scaled.old result scaled.new }
{
    c_pure::scale_down(value, wide, narrow, scaled).number()
}
