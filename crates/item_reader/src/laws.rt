// Laws that hold for all streams.
ghost use Rattle.std.specs.Prelude.{ℕ, List};
ghost use Rattle.item_reader.specs.CutLaws.{CutsStreams, ItemsAreReadInOrder};

use crate::cutting::Cut;

/// Proves that a stream can be cut into items in only one way, that a prefix of a stream is cut as the
/// stream begins, and that every stream can be cut.
pub fn streams_are_cut_once<H: Cut>()
    ensures { (how : H) → CutsStreams (H.asked how) }
{}

/// Proves that a reader returns the items at the front of the stream, in order, while it goes on, and that
/// it has returned all the items at the end, whatever it reads from their bytes.
pub fn items_are_read_in_order<H: Cut, I>()
    ensures { (item_of : H → ℕ → List ℕ → I) → ItemsAreReadInOrder H.asked item_of }
{}
