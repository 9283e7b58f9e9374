// The number of bytes that a sink may buffer.
ghost use Rattle.std.specs.Prelude.{◌≡◌, ◌≤◌};

/// The number of bytes that a sink may buffer, at most 8,192.
#[derive(Clone, Copy)]
pub struct Room {
    /// The number of bytes.
    pub bytes: usize,
    ghost within: { bytes ≤ 8192 },
}

impl Room {
    /// Returns the room for as many bytes as the buffer holds.
    pub fn whole() -> Self
        ensures { result.bytes ≡ 8192 }
    {
        Room { bytes: 8192 }
    }

    /// Returns the room for no byte.
    pub fn none() -> Self
        ensures { result.bytes ≡ 0 }
    {
        Room { bytes: 0 }
    }
}
