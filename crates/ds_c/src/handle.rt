//! Handles: what a C program has of a world.

ghost use Rattle.std.specs.Prelude.{◌≡◌, IsTrue, IsFalse, IsSome, IfSome, IfNone, Option};
ghost use Rattle.std.specs.Coded.{coded_option};
ghost use Rattle.c_handles.specs.Owned.{boxed_owns};
ghost use Rattle.ds_state.specs.contracts.world.World.{the_row};
ghost use Rattle.ds_state.specs.Value.{WorldValue};
ghost use Rattle.ds_c.specs.declared.handle.TheConstants.{HELD};

use c_handles::boxed::Boxed;
use ds_state::world::World;
use std::alloc::Global;
use std::marker::Model;

/// The first word of a handle that holds a world: "dsheet" and a version. One that was filled with zeros, or whose
/// world was freed, does not have it.
pub const HELD: u64 = 0x6473_6865_6574_0001;

/// A world, or none, under a pointer that names no type: no type that owns memory may cross to C.
#[repr(C)]
#[derive(Drop)]
pub struct BoxedWorld {
    at: *mut u8,
    alloc: Global,
    pub ghost value: { Option WorldValue } by { coded_option the_row.coded },
}

impl Model for BoxedWorld {
    ghost also_owns = { λ s. boxed_owns the_row s.alloc s.at s.value };
}

// It goes where its world may go.
unsafe impl Send for BoxedWorld {}

impl BoxedWorld {
    fn of_boxed(boxed: Boxed<World>) -> BoxedWorld
        ensures { result.value ≡ boxed.value }
    {
        let Boxed { at, alloc } = boxed;
        BoxedWorld {
            at: at as *mut u8,
            alloc,
        }
    }

    fn into_boxed(self) -> Boxed<World>
        ensures { result.value ≡ self.value }
    {
        let BoxedWorld { at, alloc } = self;
        Boxed {
            at: at as *mut World,
            alloc,
        }
    }
}

/// A handle, in memory of the C program. It holds a world where its first word is `HELD`. During a call it holds none.
#[repr(C)]
#[derive(Drop)]
pub struct Handle {
    held: u64,
    state: BoxedWorld,
    pub ghost fits: { held ≡ HELD → IsSome state.value },
}

impl Handle {
    ghost use Rattle.ds_c.specs.Handles.{Holds, IsEmpty, IsFull};

    /// A handle that holds the world of the box.
    pub fn of(world: Box<World>) -> Handle
        ensures { Holds result world.value }
    {
        Handle {
            held: HELD,
            state: BoxedWorld::of_boxed(Boxed::of(world)),
        }
    }

    /// A handle that holds no world.
    pub fn empty(alloc: Global) -> Handle
        ensures { IsEmpty result }
    {
        Handle {
            held: 0,
            state: BoxedWorld::of_boxed(Boxed::empty(alloc)),
        }
    }

    /// Whether it holds no world.
    pub fn is_empty(&self) -> bool
        ensures empty { IsTrue result → IsEmpty self.now }
        ensures full { IsFalse result → IsFull self.now }
    {
        self.held != HELD
    }

    /// Takes its world out of it; it holds none then. `None` where it holds none: then it stays as it is.
    pub fn take(&mut self, alloc: Global) -> Option<Box<World>>
        ensures some { IfSome result (λ world. Holds self.old world.value × IsEmpty self.new) }
        ensures none { IfNone result (IsEmpty self.old × (self.new ≡ self.old)) }
    {
        if self.held != HELD {
            return None;
        }
        let Handle { held: _, state } = std::mem::replace(self, Handle::empty(alloc));
        Some(state.into_boxed().into_box())
    }
}
