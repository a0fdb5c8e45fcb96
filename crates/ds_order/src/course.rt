//! Rounds over the cells of a sheet.

ghost use Rattle.std.specs.Prelude.{◌≡◌, ◌<◌, ◌⊎◌, slice_index_or};
ghost use Rattle.ds_formula.specs.Cells.{count_of};
ghost use Rattle.ds_order.specs.Orders.{IsOrder};

use crate::known::KnownReferences;
use crate::plan::{Kind, Part, Plan, make_plan};
use std::alloc::Global;

/// In which order somebody goes over the cells of a sheet.
#[derive(Drop)]
pub struct Course {
    plan: Plan,
    version: Option<u64>,
}

impl Course {
    /// By the numbers of the cells, before any references are known.
    pub fn new(alloc: Global) -> Course {
        Course {
            plan: Plan::new(alloc),
            version: None,
        }
    }

    /// The order by what is known now. Where that is what was known before, or an allocation fails, it stays as it was.
    pub fn renew(&mut self, alloc: Global, known: &KnownReferences)
        ensures { (self.new ≡ self.old) ⊎ IsOrder (count_of known.now.shape) self.new.plan.order.items }
    {
        let version = known.version();
        if self.version == Some(version) {
            return;
        }
        if let Ok(plan) = make_plan(alloc, known, known.shape().count()) {
            self.plan = plan;
            self.version = Some(version);
        }
    }

    /// The cell at this place of a round over as many cells.
    pub fn cell(&self, place: usize, count: usize) -> usize
        requires { place < count }
        ensures below { result < count }
        ensures planned { IsOrder count self.now.plan.order.items → result ≡ slice_index_or self.now.plan.order.items place 0 }
    {
        match self.plan.order.get(place) {
            Some(cell) if *cell < count => *cell,
            _ => place,
        }
    }
}

impl Course {
    // How many parts the plan has.
    pub(crate) fn parts(&self) -> usize {
        self.plan.parts.len().max(1)
    }

    // A part of the plan, over as many cells.
    pub(crate) fn part(&self, part: usize, cells: usize) -> Part {
        match self.plan.parts.get(part) {
            Some(part) => *part,
            None => Part {
                first: 0,
                end: cells,
                kind: Kind::Line,
            },
        }
    }

    // The part after this one, round.
    pub(crate) fn part_after(&self, part: usize) -> usize {
        let after = part.saturating_add(1);
        if after < self.parts() { after } else { 0 }
    }

    // The part that has this place.
    pub(crate) fn part_of(&self, place: usize) -> usize {
        for part in 0..self.plan.parts.len() {
            if place < self.plan.parts[part].end {
                return part;
            }
        }
        0
    }

    // The cell after this one on its closed way, if it is on one.
    pub(crate) fn next(&self, cell: usize) -> Option<usize> {
        self.plan.next.get(cell).copied().flatten()
    }
}
