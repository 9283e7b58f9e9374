// The words of a packet.
ghost use Rattle.std.specs.Prelude.{◌≡◌, ◌≤◌, ◌+◌, ◌*◌, ◌<◌, [], ◌∷◌, length, flat_map};
ghost use Rattle.packet_words.specs.Words.{words_asked, word_at, words_of, word_bytes, IsPacket};

use byteorder::{BigEndian, ByteOrder, LittleEndian};
use small_types::ShortList;
use std::fmt;
use std::marker::Model;

/// The byte order of a word.
#[derive(Clone, Copy, Debug, PartialEq, Eq)]
pub enum Order {
    /// The most significant byte first.
    Big,
    /// The least significant byte first.
    Little,
}

/// One to four words of 32 bits. In contracts its value is the list of the words.
#[derive(Drop)]
pub struct Words {
    cells: [u32; 4],
    count: usize,
}

impl Model for Words {
    ghost use Rattle.std.specs.Prelude.{ℕ, ◌≤◌, ◌<◌, List, take};

    ghost Value = { List ℕ };

    ghost view = { λ w. take w.count w.cells };

    ghost invariant = { λ w. (0 < w.count) × (w.count ≤ 4) };
}

impl Words {
    /// Creates the value from one to four words.
    pub fn from_slice(words: &[u32]) -> Self
        requires { (0 < length words.now) × (length words.now ≤ 4) }
        ensures { result ≡ words.now }
    {
        let cells = match *words {
            [first] => [first, 0, 0, 0],
            [first, second] => [first, second, 0, 0],
            [first, second, third] => [first, second, third, 0],
            [first, second, third, fourth, ..] => [first, second, third, fourth],
            [] => [0; 4],
        };
        Words {
            cells,
            count: words.len(),
        }
    }

    /// Creates the value from two words.
    #[inline(always)]
    pub fn of_two(first: u32, second: u32) -> Self
        ensures { result ≡ first ∷ second ∷ [] }
    {
        Words {
            cells: [first, second, 0, 0],
            count: 2,
        }
    }

    /// Returns the words, one to four.
    #[inline]
    pub fn as_slice(&self) -> &[u32]
        ensures words { result.now ≡ self.now }
        ensures size { (0 < length self.now) × (length self.now ≤ 4) }
    {
        &self.cells[..self.count]
    }

    /// Returns a copy of the words. Unlike `clone`, it can't fail.
    #[inline]
    pub fn copied(&self) -> Self
        ensures { result ≡ self.now }
    {
        Words {
            cells: self.cells,
            count: self.count,
        }
    }
}

impl PartialEq for Words {
    ghost use Rattle.std.specs.Prelude.{nat_eq};
    ghost use Rattle.std.specs.Cmp.{partial_equiv_from_equiv};
    ghost use Rattle.std.specs.Cmp.Lexicographic.{pointwise, nat_list_eq_equiv};

    ghost eq = { λ v w. pointwise nat_eq v w };

    ghost laws = { partial_equiv_from_equiv nat_list_eq_equiv };

    fn eq(&self, other: &Self) -> bool {
        self.as_slice() == other.as_slice()
    }
}

impl Eq for Words {
    ghost use Rattle.std.specs.Cmp.Lexicographic.{nat_list_eq_equiv};

    ghost laws = { nat_list_eq_equiv };
}

impl fmt::Debug for Words {
    fn fmt<W: fmt::Write>(&self, f: &mut fmt::Formatter<W>) -> fmt::Result {
        f.debug_list().entries(self.as_slice()).finish()
    }
}

/// The words of a packet, with the packet's offset.
#[derive(Debug, Drop)]
pub struct Framed {
    /// The number of bytes before the packet.
    pub offset: u64,
    /// The words of the packet. The message type of the first one determines how many there are.
    pub words: Words,
}

// The number of words of a packet, by message type.
const WORD_COUNTS: [usize; 16] = [1, 1, 1, 2, 2, 4, 1, 1, 2, 2, 2, 3, 3, 4, 4, 4];

/// Returns the number of words, 1 to 4, of a packet that begins with this word (M2-104-UM, message types).
#[inline]
pub fn words_in_packet(first: u32) -> usize
    ensures count { result ≡ words_asked first }
    ensures size { (0 < words_asked first) × (words_asked first ≤ 4) }
{
    WORD_COUNTS[(first >> 28) as usize]
}

/// Returns word number `i` of these bytes, counted from 0.
#[inline]
pub fn word_in(order: Order, bytes: &[u8], i: usize) -> u32
    requires { 4 * i + 4 ≤ length bytes.now }
    ensures { result ≡ word_at order bytes.now i }
{
    let part = &bytes[4 * i..4 * i + 4];
    match order {
        Order::Big => BigEndian::read_u32(part),
        Order::Little => LittleEndian::read_u32(part),
    }
}

/// Returns the words of one packet from its bytes.
#[inline]
pub fn words_in(order: Order, bytes: &[u8]) -> Words
    requires { IsPacket order bytes.now }
    ensures { result ≡ words_of order bytes.now }
{
    let first = word_in(order, bytes, 0);
    let count = bytes.len() / 4;
    let cells = match count {
        1 => [first, 0, 0, 0],
        2 => [first, word_in(order, bytes, 1), 0, 0],
        3 => [first, word_in(order, bytes, 1), word_in(order, bytes, 2), 0],
        _ => [
            first,
            word_in(order, bytes, 1),
            word_in(order, bytes, 2),
            word_in(order, bytes, 3),
        ],
    };
    Words { cells, count }
}

// Returns the bytes of a word.
#[inline(always)]
fn word_bytes(word: u32, order: Order) -> [u8; 4]
    ensures { result ≡ word_bytes order word }
{
    let mut bytes = [0; 4];
    match order {
        Order::Big => BigEndian::write_u32(&mut bytes, word),
        Order::Little => LittleEndian::write_u32(&mut bytes, word),
    }
    bytes
}

/// Returns the bytes of at most four words, one word after the other.
#[inline(always)]
pub fn write_words(words: &[u32], order: Order) -> ShortList<u8, 16>
    requires { length words.now ≤ 4 }
    ensures bytes { result ≡ flat_map (word_bytes order) words.now }
    ensures size { length result ≡ 4 * length words.now }
{
    let mut bytes = ShortList::new();
    for word in words {
        bytes.extend(&word_bytes(*word, order));
    }
    bytes
}

/// Returns the bytes of two words, one word after the other.
#[inline(always)]
pub fn pair_bytes(first: u32, second: u32, order: Order) -> [u8; 8]
    ensures { result ≡ flat_map (word_bytes order) (first ∷ second ∷ []) }
{
    let mut bytes = [0; 8];
    match order {
        Order::Big => {
            BigEndian::write_u32(&mut bytes[..4], first);
            BigEndian::write_u32(&mut bytes[4..], second);
        }
        Order::Little => {
            LittleEndian::write_u32(&mut bytes[..4], first);
            LittleEndian::write_u32(&mut bytes[4..], second);
        }
    }
    bytes
}
