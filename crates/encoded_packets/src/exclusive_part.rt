// Parts of exclusives.
use voice_messages::{Form, U4};

/// A 7-bit exclusive packet with its six places for bytes, the first of which are in use (M2-104-UM, system
/// exclusive 7-bit messages).
#[derive(Clone, Copy, Debug)]
pub struct ExclusivePart {
    /// The group.
    pub group: U4,
    /// Which part of an exclusive it is.
    pub form: Form,
    /// The number of bytes, 0 to 6.
    pub count: usize,
    /// The bytes in the places, each below 128. Those after the first `count` have no meaning.
    pub bytes: [u8; 6],
}
