//! The last settled show of each process.

ghost use Rattle.std.specs.Prelude.{◌≡◌, ◌<◌, ◌≤◌, IfOk, All, [], length, replicate, slice_index_or, vec_capacity};
ghost use Rattle.ds_state.specs.KnownShow.{values_of, noted};

use crate::copies::with_room;
use crate::shown;
use ds_eval::value::Value;
use ds_layout::stored::Stored;
use std::alloc::{AllocError, Global};
use std::marker::Model;

/// How many shows can be counted as answered Settled: as many as a count of 64 bits holds.
pub const SETTLED_MOST: u64 = u64::MAX;

/// The values of each process's last show that was answered Settled: none at first. Each has room
/// for the values of all cells, so that a show takes no memory when it is answered.
#[derive(Drop)]
pub struct Reports {
    cells: usize,
    values: Vec<Vec<Value>>,
}

impl Model for Reports {
    ghost use Rattle.std.specs.Prelude.{map, vec_capacity};
    ghost use Rattle.ds_state.specs.Reports.{PlainReports, HaveRoom};

    ghost Value = { PlainReports };

    ghost view = { λ r. record { cells = r.cells; values = map (λ v. v.items) r.values.items } };

    ghost invariant = { λ r. HaveRoom r.cells (map (λ v. vec_capacity v) r.values.items) };
}

/// The values that these words of cells show, a pair of words for each cell, in a list that has room for them: what it
/// held before goes.
pub fn fill(report: &mut Vec<Value>, cells: usize, values: &[u64], kinds: &[u64])
    requires room { cells ≤ vec_capacity report.old }
    requires values { length values.now ≡ cells }
    requires kinds { length kinds.now ≡ cells }
    ensures items { report.new.items ≡ values_of cells (noted values.now) (noted kinds.now) }
    ensures capacity { vec_capacity report.new ≡ vec_capacity report.old }
{
    report.clear();
    for cell in 0..cells {
        let stored = Stored::read(values[cell], kinds[cell], cells);
        report.push_reserved(shown::shown(stored));
    }
}

impl Reports {
    ghost use Rattle.ds_state.specs.Reports.{no_reports, with_report};

    /// No show of any of n processes, with room for m cells each. An error means that an
    /// allocation failed.
    pub fn new(alloc: Global, processes: usize, cells: usize) -> Result<Reports, AllocError>
        ensures { IfOk result (λ r. r ≡ no_reports processes cells) }
    {
        let mut values = Vec::with_capacity(alloc, processes)?;
        for _ in 0..processes {
            values.push(Vec::with_capacity(alloc, cells)?)?;
        }
        Ok(Reports { cells, values })
    }

    /// Equal snapshots, in memory of their own, with the same room. An error means that an allocation failed.
    pub fn copy(&self, alloc: Global) -> Result<Reports, AllocError>
        ensures { IfOk result (λ r. r ≡ self.now) }
    {
        let cells = self.cells;
        let mut values = Vec::with_capacity(alloc, self.values.len())?;
        for report in &self.values {
            values.push(with_room(alloc, report, cells)?)?;
        }
        Ok(Reports { cells, values })
    }

    /// Keeps the values that these words show, cell by cell, as those of a process's last settled
    /// snapshot, in place of the one before. No memory is taken.
    pub fn keep(&mut self, process: usize, values: &[u64], kinds: &[u64])
        requires process { process < length self.old.values }
        requires values { length values.now ≡ self.old.cells }
        requires kinds { length kinds.now ≡ self.old.cells }
        ensures { self.new ≡ with_report self.old process (values_of self.old.cells (noted values.now) (noted kinds.now)) }
    {
        fill(&mut self.values[process], self.cells, values, kinds);
    }

    /// The values of a process's last settled show, row by row from the left; none where it has
    /// had none.
    pub fn of(&self, process: usize) -> &[Value]
        requires { process < length self.now.values }
        ensures { result.now ≡ slice_index_or self.now.values process [] }
    {
        self.values[process].as_slice()
    }
}
