//! A box that is taken apart, with all that it owns.
ghost use Rattle.std.specs.Prelude.{◌≡◌};
ghost use Rattle.ch_c.specs.Erased.{owns_boxed};

use std::alloc::Global;
use std::marker::Model;

/// The pointer and the allocator of a box.
#[derive(Drop)]
pub struct RawBox<T> {
    pub(crate) at: *mut T,
    pub(crate) alloc: Global,
    pub ghost value: { T },
}

impl<T> Model for RawBox<T> {
    ghost also_owns = { λ raw. owns_boxed T.row raw.alloc raw.at raw.value };
}

impl<T: Drop> RawBox<T> {
    /// Takes a box apart.
    pub(crate) fn of(whole: Box<T, Global>) -> RawBox<T>
        ensures { result.value ≡ whole.value }
    {
        let (at, alloc) = Box::into_raw_with_allocator(whole);
        RawBox { at, alloc }
    }
}
