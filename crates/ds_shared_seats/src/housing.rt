//! Passes are laid into homes, and gathered from them.

ghost use Rattle.std.specs.Prelude.{◌≡◌, ◌≤◌, ◌↔◌, [], ◌∷◌, length, map, All, IfOk, IsTrue, vec_capacity};
ghost use Rattle.std.specs.List.{range_with_len};
ghost use Rattle.rtrb.specs.Ring.{received, known_items};
ghost use Rattle.ds_shared.specs.Answers.{IsOf};
ghost use Rattle.ds_shared_seats.specs.Homes.{AreLooked, IsFull, in_home};

use crate::ring::{Home, Ring};
use ds_shared::pass::Pass;
use ds_shared::sheet::SharedSheet;
use std::alloc::{AllocError, Global};

/// That number of rings, through which nothing has gone. An error is that an allocation failed.
pub(crate) fn rings(alloc: Global, count: usize) -> Result<Vec<Ring>, AllocError>
    ensures { IfOk result (λ v. length v.items ≡ count) }
{
    let mut rings = Vec::with_capacity(alloc, count)?;
    for _made in 0..count {
        rings.push(Ring::make(alloc)?)?;
    }
    Ok(rings)
}

/// Each pass lies in a home of its own, in order.
pub(crate) fn housed(passes: Vec<Pass>, mut rings: Vec<Ring>, mut homes: Vec<Home>) -> Vec<Home>
    requires order { map (λ p. p.process) passes.items ≡ range_with_len 0 (length passes.items) }
    requires rings { length rings.items ≡ length passes.items }
    requires room { (homes.items ≡ []) × (length passes.items ≤ vec_capacity homes) }
    ensures order { map (λ h. h.process) result.items ≡ map (λ p. p.process) passes.items }
    ensures known { map (λ h. known_items h.end) result.items ≡ map (λ p. p ∷ []) passes.items }
    ensures received { map (λ h. received h.end) result.items ≡ map (λ p. p ∷ []) passes.items }
{
    for pass in passes {
        let Some(ring) = rings.pop() else {
            return homes;
        };
        let process = homes.len();
        homes.push_reserved(ring.house(process, pass));
    }
    homes
}

/// Whether a pass is known to lie in every home, now that each has been looked at.
pub(crate) fn look(homes: &mut Vec<Home>) -> bool
    ensures looked { AreLooked homes.old.items homes.new.items }
    ensures full { IsTrue result ↔ All IsFull homes.new.items }
{
    let mut full = true;
    for number in 0..homes.len() {
        let here = homes[number].is_full();
        full = full && here;
    }
    full
}

/// The passes that lie in homes, in order.
pub(crate) fn gathered(sheet: &SharedSheet, homes: Vec<Home>, mut passes: Vec<Pass>) -> Vec<Pass>
    requires full { All IsFull homes.items }
    requires fit { All (λ h. All (λ p. IsOf sheet.now p) (received h.end)) homes.items }
    requires room { (passes.items ≡ []) × (length homes.items ≤ vec_capacity passes) }
    ensures order { map (λ p. p.process) result.items ≡ map (λ h. h.process) homes.items }
    ensures fit { All (λ p. IsOf sheet.now p) result.items }
    ensures known { map (λ p. p ∷ []) result.items ≡ map in_home homes.items }
{
    for home in homes {
        let Home {
            process: _,
            mut end,
        } = home;
        passes.push_reserved(end.pop_known());
    }
    passes
}
