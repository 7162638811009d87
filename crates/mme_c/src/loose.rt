//! A box as its pointer: the step between a `Box`, whose memory Rattle follows, and a raw pointer that C keeps.

ghost use Rattle.std.specs.Prelude.{◌≡◌};
ghost use Rattle.std_alloc.specs.Box.Ownership.{box_owns};

use std::alloc::Allocator;
use std::marker::Model;

/// A box taken apart: the pointer, with the memory at it and the right to free that, the allocator, and the value that lies there.
pub struct Loose<T, A: Allocator> {
    /// Where the value lies.
    pub at: *mut T,
    /// What the memory is of.
    pub alloc: A,
    pub ghost value: { T },
}

impl<T, A: Allocator> Model for Loose<T, A> {
    ghost also_owns = { λ l. box_owns (A.dealloc_token l.alloc) T.row l.at l.value };
}

impl<T: Drop, A: Allocator> Loose<T, A> {
    /// A box, taken apart.
    pub fn of(value: Box<T, A>) -> Loose<T, A>
        ensures { result.value ≡ value.value }
    {
        let (at, alloc) = Box::into_raw_with_allocator(value);
        Loose { at, alloc }
    }

    /// The box again.
    pub fn into_box(self) -> Box<T, A>
        ensures { result.value ≡ self.value }
    {
        let Loose { at, alloc } = self;
        unsafe { Box::from_raw(alloc, at) }
    }
}
