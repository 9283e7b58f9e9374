// The result of joining one more part of a text.

/// What a part did to the open text (M2-104-UM, UMP stream messages).
#[derive(Clone, Copy, Debug, PartialEq, Eq)]
pub enum Joined<'a> {
    /// The part is stored: it begins a text or continues one.
    Held,
    /// The part ends this text. The text is returned without the zeros at its end.
    Whole(&'a [u8]),
    /// The part is refused for one of these reasons:
    ///
    /// * It continues or ends a text, but no text is open, or the part names another block than the open
    ///   text does.
    /// * The text exceeds the limit of its kind.
    /// * The text has ended and isn't UTF-8, or is a product id with a byte outside 32 to 126.
    Bad,
}
