// How a stream is cut into items.
ghost use Rattle.std.specs.Prelude.{◌≡◌, ◌<◌, ◌≤◌, ℕ, List};
ghost use Rattle.item_reader.specs.Cut.{IsItem, IsLength};

/// The way in which a stream ends.
#[derive(Clone, Copy, Debug, PartialEq, Eq)]
pub enum Tail {
    /// The stream ends with its last item.
    End,
    /// The stream ends within the item that begins at this offset, counted in bytes from 0.
    Truncated(u64),
    /// The stream has more bytes than the limit.
    TooLong,
}

/// A way of cutting a stream into items of one to sixteen bytes. The first bytes of an item determine its
/// length.
pub trait Cut {
    /// The type of an item, once its bytes have been read.
    type Item;

    /// The length of the item at the front of these bytes. If they are too few to determine it, the length
    /// exceeds their number.
    ghost asked: { Self → List ℕ → ℕ };

    /// The item made of these bytes, which begins at this offset.
    ghost item_of: { Self → ℕ → List ℕ → Self.Item };

    /// Returns the length of the item at the front of these bytes, 1 to 16. If they are too few to
    /// determine it, the result exceeds their number.
    fn asked(&self, bytes: &[u8]) -> usize
        ensures count { result ≡ asked self.now bytes.now }
        ensures size { (0 < result) × (result ≤ 16) };

    /// Returns the item made of these bytes, which begins at this offset.
    fn item(&self, offset: u64, bytes: &[u8]) -> Self::Item
        requires { IsItem (asked self.now) bytes.now }
        ensures { result ≡ item_of self.now offset bytes.now };

    /// The first bytes of an item determine its length.
    ghost lengths: { (how : Self) → IsLength (asked how) };
}
