// A box as the address of its value.
ghost use Rattle.std.specs.Prelude.{◌≡◌};
ghost use Rattle.std.specs.Box.Ownership.{box_owns};

use std::alloc::Allocator;
use std::marker::Model;

/// A box that was taken apart: the address of its value, and the allocator that frees it. The value is only
/// freed after `into_box`.
pub struct Parted<T, A: Allocator> {
    pub alloc: A,
    pub address: *mut T,
    pub ghost value: { T },
}

impl<T, A: Allocator> Model for Parted<T, A> {
    ghost also_owns = { λ p. box_owns (A.dealloc_token p.alloc) T.row p.address p.value };
}

impl<T: Drop, A: Allocator> Parted<T, A> {
    /// Takes a box apart.
    #[inline(always)]
    pub fn of(value: Box<T, A>) -> Parted<T, A>
        ensures { result.value ≡ value.value }
    {
        let (address, alloc) = Box::into_raw_with_allocator(value);
        Parted { alloc, address }
    }

    /// Turns the parts into a box again.
    #[inline(always)]
    pub fn into_box(self) -> Box<T, A>
        ensures { result.value ≡ self.value }
    {
        let Parted { alloc, address } = self;
        unsafe { Box::from_raw(alloc, address) }
    }
}
