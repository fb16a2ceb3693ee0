//! A box taken apart, with its fields in sight of the module above.
ghost use Rattle.std.specs.Prelude.{◌≡◌};
ghost use Rattle.std.specs.Box.Ownership.{box_owns};

use std::alloc::Allocator;
use std::marker::Model;

/// The address of a box's value, and the heap that it goes back to. It owns what the box did.
pub struct Unboxed<T, A: Allocator> {
    pub(super) at: *mut T,
    pub(super) alloc: A,
    pub ghost value: { T },
}

impl<T, A: Allocator> Model for Unboxed<T, A> {
    ghost also_owns = { λ u. box_owns (A.dealloc_token u.alloc) T.row u.at u.value };
}

impl<T: Drop, A: Allocator> Unboxed<T, A> {
    /// The box taken apart.
    pub fn of(boxed: Box<T, A>) -> Unboxed<T, A>
        ensures { result.value ≡ boxed.value }
    {
        let (at, alloc) = Box::into_raw_with_allocator(boxed);
        Unboxed { at, alloc }
    }

    /// The box again.
    pub fn into_box(self) -> Box<T, A>
        ensures { result.value ≡ self.value }
    {
        let Unboxed { at, alloc } = self;
        unsafe { Box::from_raw(alloc, at) }
    }
}
