// The fields of words.
ghost use Rattle.std.specs.Prelude.{◌≡◌, ◌<◌, ◌≤◌, MatchOption};
ghost use Rattle.ump_grammar.specs.WordFields.{field};

use voice_messages::{U4, U7};

/// Returns the field of `width` bits that begins at bit `low`. Both are below 32, and bit 0 is the lowest
/// bit.
pub fn bits(word: u32, low: u32, width: u32) -> u32
    requires { (low < 32) × (width < 32) }
    ensures { result ≡ field word low width }
{
    (word >> low) % (1 << width)
}

/// Returns the field of four bits that begins at bit `low`, which is below 32.
pub fn nibble(word: u32, low: u32) -> U4
    requires { low < 32 }
    ensures { result ≡ field word low 4 }
{
    U4::low_bits(word >> low)
}

/// Returns the field of eight bits that begins at bit `low`, which is below 32.
pub fn byte(word: u32, low: u32) -> u8
    requires { low < 32 }
    ensures { result ≡ field word low 8 }
{
    ((word >> low) % 256) as u8
}

/// Returns the field of sixteen bits that begins at bit `low`, which is below 32.
pub fn half(word: u32, low: u32) -> u16
    requires { low < 32 }
    ensures { result ≡ field word low 16 }
{
    ((word >> low) % 0x1_0000) as u16
}

/// Returns the field of eight bits that begins at bit `low`, which is below 32, or `None` exactly if the
/// field is 128 or more.
pub fn data_byte(word: u32, low: u32) -> Option<U7>
    requires { low < 32 }
    ensures { MatchOption result (128 ≤ field word low 8) (λ b. (b ≡ field word low 8) × (b < 128)) }
{
    U7::new(byte(word, low))
}
