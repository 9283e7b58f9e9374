// The parts of which lines are made, each with the room that it needs.
ghost use Rattle.std.specs.Prelude.{◌≡◌, ◌<◌, ◌+◌, ◌*◌, ◌/◌, ◌++◌, length, decimal};
ghost use Rattle.text_lines.specs.Fields.{hex_digit, hex, hex_bytes};
ghost use Rattle.text_lines.specs.Room.{AddsAtMost, HasRoom, longest_value};

use crate::decimal::put_number;
use crate::line::Line;

/// Adds a text at the end. Requires room in the 256-byte line for the whole text.
#[inline(always)]
pub fn put_text(line: &mut Line, text: &str)
    requires { HasRoom (length text.now) line.old }
    ensures { line.new ≡ line.old ++ text.now }
{
    line.extend_one_by_one(text.as_bytes());
}

// Returns an upper case hexadecimal digit.
fn digit_byte(digit: u8) -> u8
    requires { digit < 16 }
    ensures { result ≡ hex_digit digit }
{
    if digit < 10 {
        b'0' + digit
    } else {
        b'A' + (digit - 10)
    }
}

/// Adds the last `width` hexadecimal digits of a number. Requires room in the 256-byte line for `width`
/// digits.
#[tactic(auto, unfolding(crate::specs::Fields::hex))]
pub fn put_hex(line: &mut Line, width: usize, number: u32)
    requires { HasRoom width line.old }
    ensures text { line.new ≡ line.old ++ hex width number }
    ensures room { length line.new ≡ length line.old + width }
{
    if width == 0 {
        return;
    }
    put_hex(line, width - 1, number / 16);
    line.extend(&[digit_byte((number % 16) as u8)]);
}

// The two hexadecimal digits of each byte.
#[rattlefmt::skip]
static HEX_PAIRS: [u8; 512] =
    *b"000102030405060708090A0B0C0D0E0F\
      101112131415161718191A1B1C1D1E1F\
      202122232425262728292A2B2C2D2E2F\
      303132333435363738393A3B3C3D3E3F\
      404142434445464748494A4B4C4D4E4F\
      505152535455565758595A5B5C5D5E5F\
      606162636465666768696A6B6C6D6E6F\
      707172737475767778797A7B7C7D7E7F\
      808182838485868788898A8B8C8D8E8F\
      909192939495969798999A9B9C9D9E9F\
      A0A1A2A3A4A5A6A7A8A9AAABACADAEAF\
      B0B1B2B3B4B5B6B7B8B9BABBBCBDBEBF\
      C0C1C2C3C4C5C6C7C8C9CACBCCCDCECF\
      D0D1D2D3D4D5D6D7D8D9DADBDCDDDEDF\
      E0E1E2E3E4E5E6E7E8E9EAEBECEDEEEF\
      F0F1F2F3F4F5F6F7F8F9FAFBFCFDFEFF";

// Returns a number without its lowest byte, as the number that the other bytes spell.
fn above_lowest_byte(number: u32) -> u32
    ensures { result ≡ number / 16 / 16 }
{
    number / 256
}

// Adds the last two hexadecimal digits of a number.
#[inline(always)]
fn put_pair(line: &mut Line, number: u32)
    requires { HasRoom 2 line.old }
    ensures text { line.new ≡ line.old ++ hex 2 number }
    ensures room { length line.new ≡ length line.old + 2 }
{
    let at = (number % 256) as usize * 2;
    line.extend(&[HEX_PAIRS[at], HEX_PAIRS[at + 1]]);
}

/// Adds a word in eight hexadecimal digits. Requires room for them in the 256-byte line.
#[tactic(auto, unfolding(crate::specs::Fields::hex))]
pub fn put_word(line: &mut Line, word: u32)
    requires { HasRoom 8 line.old }
    ensures text { line.new ≡ line.old ++ hex 8 word }
    ensures room { length line.new ≡ length line.old + 8 }
{
    let third = above_lowest_byte(word);
    let second = above_lowest_byte(third);
    put_pair(line, above_lowest_byte(second));
    put_pair(line, second);
    put_pair(line, third);
    put_pair(line, word);
}

/// Adds each byte in two hexadecimal digits, with nothing between the bytes. Requires room for all of them in
/// the 256-byte line.
pub fn put_hex_bytes(line: &mut Line, bytes: &[u8])
    requires { HasRoom (2 * length bytes.now) line.old }
    ensures text { line.new ≡ line.old ++ hex_bytes bytes.now }
    ensures room { length line.new ≡ length line.old + 2 * length bytes.now }
{
    for byte in bytes {
        put_pair(line, *byte as u32);
    }
}

/// Adds a label, such as ` note=`, and a number in decimal digits. Requires room in the 256-byte line for the
/// label and 10 digits.
#[inline(always)]
pub fn put_field(line: &mut Line, label: &str, number: u32)
    requires { HasRoom (length label.now + longest_value) line.old }
    ensures text { line.new ≡ line.old ++ label.now ++ decimal number }
    ensures room { AddsAtMost (length label.now + longest_value) line.old line.new }
{
    put_text(line, label);
    put_number(line, number);
}

/// Adds a label, such as ` form=`, and a word. Requires room for both in the 256-byte line.
#[inline(always)]
pub fn put_word_field(line: &mut Line, label: &str, word: &str)
    requires { HasRoom (length label.now + length word.now) line.old }
    ensures text { line.new ≡ line.old ++ label.now ++ word.now }
    ensures room { AddsAtMost (length label.now + length word.now) line.old line.new }
{
    put_text(line, label);
    put_text(line, word);
}

/// Adds a label, such as ` status=`, and the last `width` hexadecimal digits of a number. Requires room in
/// the 256-byte line for the label and `width` digits.
#[inline(always)]
pub fn put_hex_field(line: &mut Line, label: &str, width: usize, number: u32)
    requires { HasRoom (length label.now + width) line.old }
    ensures text { line.new ≡ line.old ++ label.now ++ hex width number }
    ensures room { AddsAtMost (length label.now + width) line.old line.new }
{
    put_text(line, label);
    put_hex(line, width, number);
}
