//! Rings by which passes come back.

ghost use Rattle.std.specs.Prelude.{◌≡◌, ◌<◌, [], ◌∷◌, length, All, IfOk};
ghost use Rattle.rtrb.specs.Ring.{sent, received, known_items, known_free, IsPair};
ghost use Rattle.ds_shared_seats.specs.Turns.{IsSameAll};
ghost use Rattle.ds_shared.specs.declared.pass.Pass.{Pass};

use ds_shared::pass::Pass;
use rtrb::{Consumer, Producer, Protocol, RingBuffer};
use std::alloc::{AllocError, Global};

/// The passes that go through a ring are all of one process of one sheet.
pub struct OneProcess;

impl Protocol<Pass> for OneProcess {
    ghost allows = { λ before later. IsSameAll before later };
}

/// The end at which a seat gives its pass back.
pub type Back = Producer<Pass, Global, OneProcess>;

/// Both ends of a ring that nothing has gone through.
#[derive(Drop)]
pub(crate) struct Ring {
    back: Back,
    end: Consumer<Pass, Global, OneProcess>,
    pub ghost pair: { IsPair back end },
    pub ghost new: { (sent back ≡ []) × (known_free back ≡ 2) × (received end ≡ []) × (known_items end ≡ []) },
}

/// Where the pass of a process comes back, and lies while nobody has taken it.
#[derive(Drop)]
pub struct Home {
    pub(crate) process: usize,
    pub(crate) end: Consumer<Pass, Global, OneProcess>,
    pub ghost some: { 0 < length (received end) },
    pub ghost own: { All (λ p. p.process ≡ process) (received end) },
}

impl Ring {
    /// A new ring. An error is that an allocation failed.
    pub(crate) fn make(alloc: Global) -> Result<Ring, AllocError> {
        let (back, end) = RingBuffer::with_protocol::<Global, OneProcess>(alloc, 2)?;
        Ok(Ring { back, end })
    }

    /// The pass goes through the ring, so that each that comes back has to be of its process and its sheet.
    pub(crate) fn pass_through(self, process: usize, pass: Pass) -> (Back, Home, Pass)
        requires { pass.process ≡ process }
        ensures pass { result.2 ≡ pass }
        ensures back { (sent result.0 ≡ pass ∷ []) × (0 < known_free result.0) }
        ensures home { (result.1.process ≡ process) × (received result.1.end ≡ pass ∷ []) × (known_items result.1.end ≡ []) }
        ensures pair { IsPair result.0 result.1.end }
    {
        let Ring { mut back, mut end } = self;
        back.push_reserved(pass);
        end.slots_beside(&mut back);
        let pass = end.pop_known();
        (back, Home { process, end }, pass)
    }

    /// The pass lies in its home.
    pub(crate) fn house(self, process: usize, pass: Pass) -> Home
        requires { pass.process ≡ process }
        ensures { (result.process ≡ process) × (received result.end ≡ pass ∷ []) × (known_items result.end ≡ pass ∷ []) }
    {
        let (mut back, mut home, pass) = self.pass_through(process, pass);
        back.push_reserved(pass);
        home.end.slots_beside(&mut back);
        home
    }
}

impl Home {
    ghost use Rattle.std.specs.Prelude.{◌↔◌, IsTrue, IfSome, IfNone};
    ghost use Rattle.ds_shared.specs.declared.sheet.SharedSheet.{SharedSheet};
    ghost use Rattle.ds_shared_seats.specs.Homes.{HomeLooked, IsFull, IsHomeOf, Lends};

    /// Whether a pass is known to lie in it, now that it has been looked at.
    pub(crate) fn is_full(&mut self) -> bool
        ensures looked { HomeLooked self.old self.new }
        ensures full { IsTrue result ↔ IsFull self.new }
    {
        !self.end.is_empty()
    }

    /// The pass that lies in it, with the end of a new ring, by which it is to come back. `None` where none is seen.
    pub(crate) fn lend(&mut self, ring: Ring) -> Option<(Back, Pass)>
        ensures some { IfSome result (λ r. Lends self.old self.new r.0 r.1) }
        ensures none { IfNone result (HomeLooked self.old self.new × (known_items self.old.end ≡ [])) }
        ensures stays { self.new.process ≡ self.old.process }
        ensures of { (s : SharedSheet) → IsHomeOf s self.old → IsHomeOf s self.new }
    {
        let Ok(pass) = self.end.pop() else {
            return None;
        };
        let (back, home, pass) = ring.pass_through(self.process, pass);
        *self = home;
        Some((back, pass))
    }
}
