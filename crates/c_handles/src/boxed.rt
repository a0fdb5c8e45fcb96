//! A value in a box of the heap's, or none, as its pointer.

ghost use Rattle.std.specs.Prelude.{◌≡◌, IsSome, Some, None, Option};
ghost use Rattle.std.specs.Coded.{coded_option};
ghost use Rattle.c_handles.specs.Owned.{boxed_owns};

use crate::parts::Parts;
use std::alloc::Global;
use std::marker::Model;
use std::ptr;

/// A value in a box, or none. A library puts the pointer under one that names no type, since no type that owns memory may
/// cross to C.
pub struct Boxed<T> {
    /// Where the value lies; null where there is none.
    pub at: *mut T,
    /// The allocator of its memory.
    pub alloc: Global,
    pub ghost value: { Option T } by { coded_option T.code },
}

impl<T> Model for Boxed<T> {
    ghost also_owns = { λ s. boxed_owns T.row s.alloc s.at s.value };
}

impl<T> Boxed<T> {
    fn of_parts(parts: Parts<T, Global>) -> Boxed<T>
        ensures { result.value ≡ Some parts.value }
    {
        let Parts { ptr, alloc } = parts;
        Boxed { at: ptr, alloc }
    }

    fn into_parts(self) -> Parts<T, Global>
        requires { IsSome self.value }
        ensures { Some result.value ≡ self.value }
    {
        let Boxed { at, alloc } = self;
        Parts { ptr: at, alloc }
    }

    /// No value.
    pub fn empty(alloc: Global) -> Boxed<T>
        ensures { result.value ≡ None }
    {
        Boxed {
            at: ptr::null_mut(),
            alloc,
        }
    }

    /// The value of a box.
    pub fn of(value: Box<T>) -> Boxed<T>
    where
        T: Drop,
        ensures { result.value ≡ Some value.value }
    {
        Boxed::of_parts(Parts::of(value))
    }

    /// The box, where there is a value.
    pub fn into_box(self) -> Box<T>
        requires { IsSome self.value }
        ensures { Some result.value ≡ self.value }
    {
        self.into_parts().into_box()
    }
}
