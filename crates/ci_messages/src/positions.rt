// Returns parts of a message by their positions.
ghost use Rattle.std.specs.Prelude.{◌≡◌, ◌<◌, ◌≤◌, ◌+◌, length};
ghost use Rattle.ci_messages.specs.Positions.{byte_at, part_at, number2_at, number4_at};
ghost use Rattle.ci_messages.specs.Fields.{IsData};

use crate::view::ProfileId;
use voice_messages::U7;

/// Returns the `size` bytes from position `at` on.
pub fn part(bytes: &[u8], at: usize, size: usize) -> &[u8]
    requires { at + size ≤ length bytes.now }
    ensures { result.now ≡ part_at bytes.now at size }
{
    &bytes[at..at + size]
}

/// Returns the `N` bytes from position `at` on.
pub fn array<const N: usize>(bytes: &[u8], at: usize) -> [u8; N]
    requires { at + N ≤ length bytes.now }
    ensures { result ≡ part_at bytes.now at N }
{
    *bytes[at..].first_chunk().unwrap()
}

/// Returns the number in the two bytes from position `at` on, seven bits each, the lowest bits first.
pub fn number_of_two(bytes: &[u8], at: usize) -> u32
    requires { at + 2 ≤ length bytes.now }
    ensures value { result ≡ number2_at bytes.now at }
    ensures below { result ≤ 32895 }
{
    u32::from(bytes[at]) + 128 * u32::from(bytes[at + 1])
}

/// Returns the number in the four bytes from position `at` on, seven bits each, the lowest bits first.
pub fn number_of_four(bytes: &[u8], at: usize) -> u32
    requires { at + 4 ≤ length bytes.now }
    ensures { result ≡ number4_at bytes.now at }
{
    number_of_two(bytes, at) + 16384 * number_of_two(bytes, at + 2)
}

/// Returns the data byte at a position.
fn data_byte(bytes: &[u8], at: usize) -> U7
    requires within { at < length bytes.now }
    requires data_bytes { IsData bytes.now }
    ensures { result ≡ byte_at bytes.now at }
{
    U7::low_bits(u32::from(bytes[at]))
}

/// Returns the profile id in the five bytes from position `at` on.
pub fn profile_id(bytes: &[u8], at: usize) -> ProfileId
    requires within { at + 5 ≤ length bytes.now }
    requires data_bytes { IsData bytes.now }
    ensures { result.bytes ≡ part_at bytes.now at 5 }
{
    ProfileId {
        bytes: [
            data_byte(bytes, at),
            data_byte(bytes, at + 1),
            data_byte(bytes, at + 2),
            data_byte(bytes, at + 3),
            data_byte(bytes, at + 4),
        ],
    }
}
