// A line of text.
use small_types::ByteBuffer;

/// The capacity of a line in bytes.
pub const CAPACITY: usize = 256;

/// A line of text, or the start of one: at most 256 bytes. A complete line ends with a line feed. In
/// contracts its value is the list of bytes.
pub type Line = ByteBuffer<CAPACITY>;
