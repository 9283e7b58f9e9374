// Laws that hold for all inputs that are cut into items by their lengths.
ghost use Rattle.std.specs.Prelude.{ℕ, List};
ghost use Rattle.pass_loop.specs.Bytes.{byte_cutting};
ghost use Rattle.pass_loop.specs.ItemLaws.{ItemsAreTakenInOrder};
ghost use Rattle.pass_loop.specs.Items.{item_cutting};
ghost use Rattle.pass_loop.specs.Pass.{CutsOnce};

use item_reader::{Cut, EachByte, items_are_read_in_order, streams_are_cut_once};

/// A reader returns the items at the front of its input, in order, whatever their bytes are. When it ends,
/// the items that it has returned are those that this end says.
pub fn items_are_taken_in_order<H: Cut, I>()
    ensures { (item_of : H → ℕ → List ℕ → I) → ItemsAreTakenInOrder H.asked item_of }
{
    items_are_read_in_order::<H, I>();
}

/// An input is cut into its items in one way. A front of the input begins with the same items.
pub fn items_are_cut_once<H: Cut, I>()
    ensures { (how : H) (item_of : ℕ → List ℕ → I) → CutsOnce (item_cutting (H.asked how) item_of) }
{
    streams_are_cut_once::<H>();
}

/// A stream is cut into its bytes in one way. A front of the stream begins with the same bytes.
pub fn bytes_are_cut_once()
    ensures { CutsOnce byte_cutting }
{
    items_are_cut_once::<EachByte, (u64, u8)>();
}
