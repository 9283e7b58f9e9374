// Lists of a fixed capacity.
ghost use Rattle.std.specs.Prelude.{◌≡◌, ◌<◌, ◌≤◌, ◌+◌, ◌==◌, [], ◌∷◌, ◌++◌, length};

use arrayvec::ArrayVec;
use std::fmt;
use std::marker::Model;

/// A list of at most `N` items, stored inline without heap memory. In contracts its value is the list of
/// items.
#[derive(Drop)]
pub struct ShortList<T, const N: usize> {
    cells: ArrayVec<T, N>,
}

impl<T, const N: usize> Model for ShortList<T, N> {
    ghost use Rattle.std.specs.Prelude.{List};

    ghost Value = { List T };

    ghost view = { λ s. s.cells.items };
}

impl<T: Copy + Default, const N: usize> ShortList<T, N> {
    /// Returns an empty list.
    #[inline(always)]
    pub fn new() -> Self
        ensures { result ≡ [] }
    {
        ShortList {
            cells: ArrayVec::new(),
        }
    }

    /// Returns the number of items, at most `N`.
    #[inline(always)]
    pub fn len(&self) -> usize
        ensures value { result ≡ length self.now }
        ensures fits { length self.now ≤ N }
    {
        self.cells.len()
    }

    /// Returns whether the list is empty.
    #[inline(always)]
    pub fn is_empty(&self) -> bool
        ensures { result ≡ (length self.now == 0) }
    {
        self.cells.len() == 0
    }

    /// Returns the items, at most `N` of them.
    #[inline(always)]
    pub fn as_slice(&self) -> &[T]
        ensures value { result.now ≡ self.now }
        ensures fits { length self.now ≤ N }
    {
        self.cells.as_slice()
    }

    /// Appends an item. The list must have fewer than `N` items.
    #[inline(always)]
    pub fn push(&mut self, item: T)
        requires { length self.old < N }
        ensures { self.new ≡ self.old ++ item ∷ [] }
    {
        self.cells.push(item);
    }

    /// Appends items. The list must have room for all of them: at most `N` less its length.
    #[inline(always)]
    pub fn extend(&mut self, items: &[T])
        requires { length self.old + length items.now ≤ N }
        ensures { self.new ≡ self.old ++ items.now }
    {
        match *items {
            [first, second, third] => {
                self.cells.push(first);
                self.cells.push(second);
                self.cells.push(third);
            }
            [first, second] => {
                self.cells.push(first);
                self.cells.push(second);
            }
            [first] => self.cells.push(first),
            _ => self.extend_by_copy(items),
        }
    }

    // Appends items with one copy. For a few items that takes longer than appending each.
    fn extend_by_copy(&mut self, items: &[T])
        requires { length self.old + length items.now ≤ N }
        ensures { self.new ≡ self.old ++ items.now }
    {
        match self.cells.try_extend_from_slice(items) {
            Ok(()) => {}
            // The list has room for the items, so the copy can't fail.
            Err(_) => unreachable!(),
        }
    }

    /// Removes all items.
    pub fn clear(&mut self)
        ensures { self.new ≡ [] }
    {
        self.cells.clear();
    }

    /// Returns a copy of the list. Unlike `clone`, it can't fail. It reads the items one at a time, so that
    /// a short list can remain in registers.
    #[inline(always)]
    pub fn copied(&self) -> Self
        ensures { result ≡ self.now }
    {
        let items = self.as_slice();
        let mut list = Self::new();
        for index in 0..N {
            if index < items.len() {
                list.push(items[index]);
            }
        }
        list
    }
}

impl<T: PartialEq, const N: usize> PartialEq for ShortList<T, N> {
    ghost use Rattle.std.specs.Cmp.Lexicographic.{pointwise, lists_per};

    ghost eq = { λ v w. pointwise T.eq v w };

    ghost laws = { lists_per T.laws };

    fn eq(&self, other: &Self) -> bool {
        self.cells.as_slice() == other.cells.as_slice()
    }
}

impl<T: Eq, const N: usize> Eq for ShortList<T, N> {
    ghost use Rattle.std.specs.Cmp.Lexicographic.{lists_equiv};

    ghost laws = { lists_equiv T.Eq.laws };
}

impl<T: fmt::Debug, const N: usize> fmt::Debug for ShortList<T, N> {
    fn fmt<W: fmt::Write>(&self, f: &mut fmt::Formatter<W>) -> fmt::Result {
        f.debug_list().entries(self.cells.as_slice()).finish()
    }
}
