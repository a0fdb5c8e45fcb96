//! Holders: what a C program has of a queue that threads share, of a seat, or of a closed queue.

ghost use Rattle.std.specs.Prelude.{◌≡◌, IsTrue, IsFalse, IsSome, IfSome, IfNone, Option};
ghost use Rattle.std.specs.Coded.{coded_option};
ghost use Rattle.c_handles.specs.Owned.{boxed_owns};
ghost use Rattle.pq_c.specs.contracts.held.Held.{the_row};
ghost use Rattle.pq_c.specs.declared.held.Held.{Held};
ghost use Rattle.pq_c.specs.declared.holder.TheConstants.{FULL};

use crate::held::Held;
use c_handles::boxed::Boxed;
use std::alloc::Global;
use std::marker::Model;

/// The first word of a holder that holds something: "pmq" and a version.
pub const FULL: u64 = 0x706d_7100_0000_0001;

/// What is held, or nothing, under a pointer that names no type: no type that owns memory may cross to C.
#[repr(C)]
#[derive(Drop)]
pub struct BoxedHeld {
    at: *mut u8,
    alloc: Global,
    pub ghost value: { Option Held } by { coded_option the_row.coded },
}

impl Model for BoxedHeld {
    ghost also_owns = { λ s. boxed_owns the_row s.alloc s.at s.value };
}

// It goes where what is held may go.
unsafe impl Send for BoxedHeld {}

impl BoxedHeld {
    fn of_boxed(boxed: Boxed<Held>) -> BoxedHeld
        ensures { result.value ≡ boxed.value }
    {
        let Boxed { at, alloc } = boxed;
        BoxedHeld {
            at: at as *mut u8,
            alloc,
        }
    }

    fn into_boxed(self) -> Boxed<Held>
        ensures { result.value ≡ self.value }
    {
        let BoxedHeld { at, alloc } = self;
        Boxed {
            at: at as *mut Held,
            alloc,
        }
    }
}

/// A holder, in memory of the C program. It holds something where its first word is `FULL`. During a call it holds
/// nothing.
#[repr(C)]
#[derive(Drop)]
pub struct Holder {
    held: u64,
    state: BoxedHeld,
    pub ghost fits: { held ≡ FULL → IsSome state.value },
}

impl Holder {
    ghost use Rattle.pq_c.specs.Holders.{HasHeld, HasNone, HasSome};

    /// A holder that holds what is in the box.
    pub fn of(held: Box<Held>) -> Holder
        ensures { HasHeld result held.value }
    {
        Holder {
            held: FULL,
            state: BoxedHeld::of_boxed(Boxed::of(held)),
        }
    }

    /// A holder that holds nothing.
    pub fn empty(alloc: Global) -> Holder
        ensures { HasNone result }
    {
        Holder {
            held: 0,
            state: BoxedHeld::of_boxed(Boxed::empty(alloc)),
        }
    }

    /// Whether it holds nothing.
    pub fn is_empty(&self) -> bool
        ensures empty { IsTrue result → HasNone self.now }
        ensures full { IsFalse result → HasSome self.now }
    {
        self.held != FULL
    }

    /// Takes what it holds out of it; it holds nothing then. `None` where it holds nothing: then it stays as it is.
    pub fn take(&mut self, alloc: Global) -> Option<Box<Held>>
        ensures some { IfSome result (λ held. HasHeld self.old held.value × HasNone self.new) }
        ensures none { IfNone result (HasNone self.old × (self.new ≡ self.old)) }
    {
        if self.held != FULL {
            return None;
        }
        let Holder { held: _, state } = std::mem::replace(self, Holder::empty(alloc));
        Some(state.into_boxed().into_box())
    }
}
