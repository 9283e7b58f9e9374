// Writes to the front of the caller's buffer.
ghost use Rattle.std.specs.Prelude.{◌≡◌, ◌≤◌, length};
ghost use Rattle.c_answers.specs.Fronts.{with_front};

/// Copies bytes to the front of a buffer that is large enough for all of them, and returns the number of
/// bytes.
#[inline(always)]
pub fn put_bytes(bytes: &[u8], buffer: &mut [u8]) -> usize
    requires { length bytes.now ≤ length buffer.old }
    ensures count { result ≡ length bytes.now }
    ensures written { buffer.new ≡ with_front bytes.now buffer.old }
{
    buffer[..bytes.len()].copy_from_slice(bytes);
    bytes.len()
}

/// Copies words to the front of a buffer that is large enough for all of them, and returns the number of
/// words.
#[inline(always)]
pub fn put_words(words: &[u32], buffer: &mut [u32]) -> usize
    requires { length words.now ≤ length buffer.old }
    ensures count { result ≡ length words.now }
    ensures written { buffer.new ≡ with_front words.now buffer.old }
{
    buffer[..words.len()].copy_from_slice(words);
    words.len()
}
