// The kinds of texts.
ghost use Rattle.std.specs.Prelude.{◌≡◌, ◌<◌, ◌≤◌};
ghost use Rattle.std.specs.List.{list_all};
ghost use Rattle.std.specs.Str.{is_utf8 as is_utf8_text};
ghost use Rattle.system_stream.specs.Texts.{
  is_printable as is_printable_byte,
  is_text as is_text_of,
  limit_of,
  part_size as part_size_of,
  without_trailing_zeros as trimmed,
};

/// A kind of text in stream packets (M2-104-UM, UMP stream messages).
#[derive(Clone, Copy, Debug, PartialEq, Eq)]
pub enum TextKind {
    /// Endpoint Name Notification: up to 98 bytes of UTF-8.
    EndpointName,
    /// Product Instance Id Notification: up to 42 bytes, each 32 to 126.
    ProductId,
    /// Function Block Name Notification: up to 91 bytes of UTF-8.
    BlockName,
}

impl TextKind {
    /// Returns the maximum size of a text, in bytes, including the zeros that fill its last packet.
    pub fn limit(self) -> usize
        ensures value { result ≡ limit_of self }
        ensures most { limit_of self ≤ 98 }
    {
        match self {
            TextKind::EndpointName => 98,
            TextKind::ProductId => 42,
            TextKind::BlockName => 91,
        }
    }

    /// Returns the number of bytes of a text in each packet.
    pub fn part_size(self) -> usize
        ensures value { result ≡ part_size_of self }
        ensures some { 0 < part_size_of self }
    {
        match self {
            TextKind::EndpointName | TextKind::ProductId => 14,
            TextKind::BlockName => 13,
        }
    }

    /// Returns whether the bytes are a text of this kind: UTF-8, or for a product id bytes of 32 to 126.
    pub fn is_text(self, bytes: &[u8]) -> bool
        ensures { result ≡ is_text_of self bytes.now }
    {
        match self {
            TextKind::EndpointName | TextKind::BlockName => is_utf8(bytes),
            TextKind::ProductId => is_printable(bytes),
        }
    }
}

fn is_utf8(bytes: &[u8]) -> bool
    ensures { result ≡ is_utf8_text bytes.now }
{
    str::from_utf8(bytes).is_ok()
}

// Returns whether each byte is a printable ASCII character.
fn is_printable(bytes: &[u8]) -> bool
    ensures { result ≡ list_all is_printable_byte bytes.now }
{
    bytes.iter().all(|byte| *byte >= 32 && *byte <= 126)
}

/// Returns the bytes up to the last one that isn't zero.
pub(crate) fn without_trailing_zeros(bytes: &[u8]) -> &[u8]
    ensures { result.now ≡ trimmed bytes.now }
{
    let mut text = bytes;
    while let [front @ .., 0] = text {
        text = front;
    }
    text
}
