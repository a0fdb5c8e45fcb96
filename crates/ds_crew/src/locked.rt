//! A sheet behind a lock, from its making to its close.

ghost use Rattle.std.specs.Prelude.{◌≡◌, ◌<◌, IfOk, IfErr, length};
ghost use Rattle.ds_crew.specs.Passes.{AreFirstPasses, FirstStray, dones_of, settleds_of};

use crate::dealing::{deal, gather, lasts_of, stray_of};
use crate::kept::{Kept, kept_of};
use crate::pass::Pass;
use ds_layout::layout::Layout;
use ds_state::world::World;
use std::alloc::Global;
use std::sync::Mutex;
use std::sync::ledger::{Blank, Ledger};

/// A sheet behind a lock. Its world is sound whenever the lock is free, and each event happens to
/// it as by `ds_core::take`, while the lock is held. `L` names the count of edits that are answered
/// Done, `M` that of reports that are answered Settled.
///
/// No call of it migrates the sheet. Where a process of the world was in the middle of a migration, it stays there while
/// the sheet is behind the lock: it makes no step, each of its calls is refused as `Busy`, and a recovery of another
/// process that is in no call is refused as `Migrating`, with the process that migrates.
#[derive(Drop)]
pub struct LockedSheet<L: Ledger, M: Ledger> {
    pub(crate) layout: Layout,
    pub(crate) kept: Mutex<Kept<L, M>>,
}

/// What was handed to a making that lacked memory.
#[derive(Drop)]
pub struct Unmade {
    /// The world.
    pub world: World,
    /// The blank of the count of Done answers.
    pub dones: Blank,
    /// The blank of the count of Settled answers.
    pub settleds: Blank,
}

/// A sheet that is closed.
#[derive(Drop)]
pub struct Closed {
    /// Its world.
    pub world: World,
    /// The process of the first pass that keeps other values of its last settled show than the
    /// world, if one does.
    pub stray: Option<usize>,
}

impl<L: Ledger, M: Ledger> LockedSheet<L, M> {
    /// A sheet behind a lock, and a pass for each of its processes, in their order. The first one's
    /// shares begin with what the world has counted, the others' with 0; each keeps the world's values
    /// of its process's last settled show, in room for those of the next ones.
    ///
    /// The blanks are of as many parts as the world has processes. Where memory is refused, all is
    /// handed back as it was.
    pub fn make(
        alloc: Global,
        world: World,
        dones: Blank,
        settleds: Blank,
    ) -> Result<(LockedSheet<L, M>, Vec<Pass<L, M>>), Unmade>
        requires names { (dones.name ≡ L.name) × (settleds.name ≡ M.name) }
        requires parts { (dones.parts ≡ L.parts) × (settleds.parts ≡ M.parts) }
        requires processes { (L.parts ≡ world.sheet.layout.processes) × (M.parts ≡ world.sheet.layout.processes) }
        ensures layout { IfOk result (λ r. r.0.layout ≡ world.sheet.layout) }
        ensures passes { IfOk result (λ r. AreFirstPasses world r.1.items) }
        ensures dones { IfOk result (λ r. dones_of r.1.items ≡ world.done) }
        ensures settleds { IfOk result (λ r. settleds_of r.1.items ≡ world.settled) }
        ensures world { IfErr result (λ e. e.world ≡ world) }
        ensures blanks { IfErr result (λ e. (e.dones ≡ dones) × (e.settleds ≡ settleds)) }
    {
        let layout = world.words.layout();
        let Ok(lasts) = lasts_of(alloc, &world) else {
            return Err(Unmade {
                world,
                dones,
                settleds,
            });
        };
        let Ok(room) = Vec::with_capacity(alloc, layout.processes) else {
            return Err(Unmade {
                world,
                dones,
                settleds,
            });
        };
        let (mut book, mut rest) = dones.open::<L>();
        let (mut reports, mut others) = settleds.open::<M>();
        book.add(&mut rest, world.done);
        reports.add(&mut others, world.settled);
        let passes = deal(&world, lasts, rest, others, room);
        let kept = Mutex::new(kept_of(world, book, reports));
        Ok((LockedSheet { layout, kept }, passes))
    }

    /// The shape of the sheet, and how many processes it has.
    pub fn layout(&self) -> Layout
        ensures { result ≡ self.now.layout }
    {
        self.layout
    }

    /// Takes all passes, and gives the world back: its counts are the sums of those of the passes. A
    /// stray is named exactly where a pass keeps other values than the world.
    pub fn close(self, passes: Vec<Pass<L, M>>) -> Closed
        requires some { 0 < length passes.items }
        requires dones { length passes.items ≡ L.parts }
        requires settleds { length passes.items ≡ M.parts }
        ensures done { result.world.done ≡ dones_of passes.items }
        ensures settled { result.world.settled ≡ settleds_of passes.items }
        ensures stray { FirstStray result.world.reports passes.items result.stray }
    {
        let kept = self.kept.into_inner();
        let stray = stray_of(kept.world(), &passes);
        let Some((dones, settleds)) = gather(passes) else {
            unreachable!()
        };
        let world = kept.closed(dones, settleds);
        Closed { world, stray }
    }
}
