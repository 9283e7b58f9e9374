// The result of a call over a block.
ghost use Rattle.std.specs.Prelude.{◌≡◌, ◌≤◌, ◌+◌, ◌-◌, ◌<◌, ◌^◌, IsTrue, false};
ghost use Rattle.c_answers.specs.Blocks.{leaves_few, nothing_taken, with_item, with_need, with_refused};

/// The result of a call over a block of packets, or of bytes of a stream: how far the call came.
#[repr(C)]
#[derive(Clone, Copy)]
pub struct Block {
    /// The number of words or bytes taken from the front of the input, including those of a refused item.
    pub taken: usize,
    /// The number of elements written to the first buffer.
    pub written: usize,
    /// The number of items written to the second buffer.
    pub items: usize,
    /// How many of the last words or bytes in `taken` belong to the item that was refused; 0 if no item was
    /// refused.
    pub refused: usize,
    /// After `SmallBuffer`, if the rest of the first buffer was too small: the size that an empty first
    /// buffer needs. Otherwise 0.
    pub need: usize,
    /// After `SmallBuffer`, if the second buffer was full: 1. Otherwise 0.
    pub need_items: usize,
}

impl Block {
    /// Returns the block of a call that took nothing.
    #[inline(always)]
    pub fn nothing() -> Block
        ensures { result ≡ nothing_taken }
    {
        Block {
            taken: 0,
            written: 0,
            items: 0,
            refused: 0,
            need: 0,
            need_items: 0,
        }
    }

    /// Returns whether the rest of a buffer is too small for one more item. The arguments are the size of
    /// each buffer and the most elements that an item may need in it. If a buffer is too small, sets `need`
    /// and `need_items`; otherwise changes nothing.
    #[inline(always)]
    pub fn is_full(
        &mut self,
        places: usize,
        most_written: usize,
        item_places: usize,
        most_items: usize,
    ) -> bool
        requires written { self.old.written ≤ places }
        requires items { self.old.items ≤ item_places }
        ensures answer { result ≡ leaves_few self.old places most_written item_places most_items }
        ensures short { IsTrue result →
            self.new ≡ with_need self.old places most_written item_places most_items }
        ensures same { result ≡ false → self.new ≡ self.old }
        ensures room { result ≡ false → most_written ≤ places - self.old.written }
        ensures item_room { result ≡ false → most_items ≤ item_places - self.old.items }
    {
        let is_short = places - self.written < most_written;
        let lacks_item = item_places - self.items < most_items;
        if is_short || lacks_item {
            self.need = if is_short { most_written } else { 0 };
            self.need_items = if lacks_item { most_items } else { 0 };
            return true;
        }
        false
    }

    /// Counts an item that was taken, which has `count` words or bytes, and the elements that it wrote to
    /// each buffer.
    #[inline(always)]
    pub fn add(&mut self, count: usize, written: usize, items: usize)
        requires taken { self.old.taken + count < 2 ^ 64 }
        requires written { self.old.written + written < 2 ^ 64 }
        requires items { self.old.items + items < 2 ^ 64 }
        ensures { self.new ≡ with_item self.old count written items }
    {
        self.taken += count;
        self.written += written;
        self.items += items;
    }

    /// Counts an item of `count` words or bytes that was refused.
    #[inline(always)]
    pub fn refuse(&mut self, count: usize)
        requires { self.old.taken + count < 2 ^ 64 }
        ensures { self.new ≡ with_refused self.old count }
    {
        self.taken += count;
        self.refused = count;
    }
}
