// Byte lists of a fixed capacity.
ghost use Rattle.std.specs.Prelude.{◌≡◌, ◌≤◌, ◌+◌, [], ◌++◌, length, take};

use std::marker::Model;

/// A list of at most `N` bytes, stored inline without heap memory. In contracts its value is the list of
/// bytes.
///
/// To empty it, `clear` only sets the size to 0. The bytes remain in the array until others overwrite them,
/// but no call returns them.
#[derive(Drop)]
pub struct ByteBuffer<const N: usize> {
    bytes: [u8; N],
    size: usize,
}

impl<const N: usize> Model for ByteBuffer<N> {
    ghost use Rattle.std.specs.Prelude.{◌≡◌, ◌≤◌, ℕ, List, length, take};

    ghost Value = { List ℕ };

    ghost view = { λ b. take b.size b.bytes };

    ghost invariant = { λ b. (b.size ≤ N) × (length b.bytes ≡ N) };
}

impl<const N: usize> ByteBuffer<N> {
    /// Returns an empty list.
    #[inline(always)]
    pub fn new() -> Self
        ensures { result ≡ [] }
    {
        ByteBuffer {
            bytes: [0; N],
            size: 0,
        }
    }

    /// Returns the number of bytes, at most `N`.
    #[inline(always)]
    pub fn len(&self) -> usize
        ensures value { result ≡ length self.now }
        ensures fits { length self.now ≤ N }
    {
        self.size
    }

    /// Returns the bytes, at most `N` of them.
    #[inline(always)]
    pub fn as_slice(&self) -> &[u8]
        ensures value { result.now ≡ self.now }
        ensures fits { length self.now ≤ N }
    {
        &self.bytes[..self.size]
    }

    /// Removes all bytes.
    #[inline(always)]
    pub fn clear(&mut self)
        ensures { self.new ≡ [] }
    {
        self.size = 0;
    }

    /// Appends bytes. The list must have room for all of them: at most `N` less its length.
    #[inline(always)]
    pub fn extend(&mut self, bytes: &[u8])
        requires { length self.old + length bytes.now ≤ N }
        ensures { self.new ≡ self.old ++ bytes.now }
    {
        let size = self.size;
        write_at(&mut self.bytes[..], size, bytes);
        self.size = size + bytes.len();
    }

    /// Appends bytes as `extend` does, but one at a time, whatever their number. Use it for a text that the
    /// compiler knows: the compiler joins the writes, so it is the fastest way for such a text.
    #[inline(always)]
    pub fn extend_one_by_one(&mut self, bytes: &[u8])
        requires { length self.old + length bytes.now ≤ N }
        ensures { self.new ≡ self.old ++ bytes.now }
    {
        let size = self.size;
        write_each(&mut self.bytes[..], size, bytes);
        self.size = size + bytes.len();
    }

    /// Appends the first `count` of `bytes`. The list must have room for all of `bytes`, since all are
    /// written: so they can be copied without a test of `count`.
    #[inline(always)]
    pub fn extend_by(&mut self, bytes: &[u8], count: usize)
        requires room { length self.old + length bytes.now ≤ N }
        requires within { count ≤ length bytes.now }
        ensures { self.new ≡ self.old ++ take count bytes.now }
    {
        let size = self.size;
        write_copy(&mut self.bytes[..], size, bytes);
        self.size = size + count;
    }
}

// Writes bytes over those from `start` on. Most messages have one to three bytes. These are written one at
// a time, which is faster than a copy.
#[inline(always)]
fn write_at(cells: &mut [u8], start: usize, bytes: &[u8])
    requires { start + length bytes.now ≤ length cells.old }
    ensures front { take (start + length bytes.now) cells.new ≡ take start cells.old ++ bytes.now }
    ensures size { length cells.new ≡ length cells.old }
{
    match *bytes {
        [first, second, third] => write_each(cells, start, &[first, second, third]),
        [first, second] => write_each(cells, start, &[first, second]),
        [first] => write_each(cells, start, &[first]),
        _ => write_copy(cells, start, bytes),
    }
}

// Writes bytes over those from `start` on, one at a time.
#[inline(always)]
fn write_each(cells: &mut [u8], start: usize, bytes: &[u8])
    requires { start + length bytes.now ≤ length cells.old }
    ensures front { take (start + length bytes.now) cells.new ≡ take start cells.old ++ bytes.now }
    ensures size { length cells.new ≡ length cells.old }
{
    for (index, byte) in bytes.iter().enumerate() {
        cells[start + index] = *byte;
    }
}

// Writes bytes over those from `start` on, with one copy.
#[inline(always)]
fn write_copy(cells: &mut [u8], start: usize, bytes: &[u8])
    requires { start + length bytes.now ≤ length cells.old }
    ensures front { take (start + length bytes.now) cells.new ≡ take start cells.old ++ bytes.now }
    ensures size { length cells.new ≡ length cells.old }
{
    cells[start..start + bytes.len()].copy_from_slice(bytes);
}
