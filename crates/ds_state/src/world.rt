//! A sheet and its processes.

ghost use Rattle.std.specs.Prelude.{◌≡◌, ◌<◌, ◌↔◌, IsTrue, IfOk, All, None};
ghost use Rattle.ds_formula.specs.Cells.{IsInside};

use crate::ledger::{Edit, Issue};
use crate::point::Point;
use crate::reports::Reports;
use crate::shown;
use crate::situation::Situation;
use ds_eval::inputs::Inputs;
use ds_eval::value::Value;
use ds_formula::cells::Cell;
use ds_layout::mark::Mark;
use ds_layout::sheet_words::SheetWords;
use std::alloc::{AllocError, Global};
use std::marker::Model;

/// A sheet and its processes. It is sound at each moment.
#[derive(Drop)]
pub struct World {
    /// The words of the sheet.
    pub words: SheetWords,
    /// What each process does.
    pub situations: Vec<Situation>,
    /// The edits that count, in their order. It has room for all that can come.
    pub counted: Vec<Edit>,
    /// The edit of each process that is not answered.
    pub open_edits: Vec<Option<Issue>>,
    /// How many edits were answered Done.
    pub done: u64,
    /// How many reports were answered Settled.
    pub settled: u64,
    /// The values of each process's last report that was answered Settled.
    pub reports: Reports,
    /// Room for inputs that the last answered work has left, for the next one.
    pub spare: Option<Inputs>,
}

impl Model for World {
    ghost use Rattle.std.specs.Prelude.{vec_capacity};
    ghost use Rattle.ds_state.specs.Value.{WorldValue, IsReserved};
    ghost use Rattle.ds_eval.specs.Code.{plain_code};
    ghost use Rattle.std.specs.Coded.{codes};

    ghost Value = { WorldValue };

    ghost coded = { Prim.hlevel (codes, plain_code) };

    ghost view = { λ w. record {
      sheet = w.words;
      situations = w.situations.items;
      counted = w.counted.items;
      open_edits = w.open_edits.items;
      done = w.done;
      settled = w.settled;
      reports = w.reports;
    } };

    ghost invariant = { λ w. IsReserved (record {
      sheet = w.words;
      situations = w.situations.items;
      counted = w.counted.items;
      open_edits = w.open_edits.items;
      done = w.done;
      settled = w.settled;
      reports = w.reports;
    }) (vec_capacity w.counted) };
}

fn all_answered(open_edits: &[Option<Issue>]) -> bool
    ensures { IsTrue result ↔ All (λ issue. issue ≡ None) open_edits.now }
{
    open_edits.iter().all(|issue| issue.is_none())
}

impl World {
    ghost use Rattle.ds_state.specs.Value.{world_of, IsGood};
    ghost use Rattle.ds_state.specs.Points.{point_of};
    ghost use Rattle.ds_state.specs.Shown.{mark_in, value_in, text_in, IsQuiet};

    /// It is sound, as it is at each moment.
    pub fn is_always_good(&self)
        ensures { IsGood self.now }
    {
        let _words = &self.words;
    }

    /// Whether each edit is answered, and no cell's mark is dirty or held.
    pub fn is_quiet(&self) -> bool
        ensures { IsTrue result ↔ IsQuiet (world_of self.now) }
    {
        all_answered(&self.open_edits) && shown::are_clean(&self.words)
    }

    /// The mark of a cell, as processes see it.
    pub fn mark_of(&self, cell: Cell) -> Mark
        requires { IsInside self.now.sheet.layout.shape cell }
        ensures { result ≡ mark_in (world_of self.now) cell }
    {
        shown::mark(&self.words, self.words.layout().shape.index(cell))
    }

    /// The value of a cell, as processes see it.
    pub fn value_of(&self, cell: Cell) -> Value
        requires { IsInside self.now.sheet.layout.shape cell }
        ensures { result ≡ value_in (world_of self.now) cell }
    {
        shown::value(&self.words, self.words.layout().shape.index(cell))
    }

    /// The text of a cell, as processes see it: `laws::texts_are_of_last_edits` says that it is as the
    /// last of the cell's linearized edits was handed in, and empty where none is linearized. An error is
    /// that an allocation failed.
    pub fn text_of(&self, alloc: Global, cell: Cell) -> Result<Vec<u8>, AllocError>
        requires { IsInside self.now.sheet.layout.shape cell }
        ensures { IfOk result (λ v. v.items ≡ text_in (world_of self.now) cell) }
    {
        shown::text(&self.words, alloc, self.words.layout().shape.index(cell))
    }

    /// The last point that the call of a process has passed: none where it is in no call, in a show, or has passed none yet.
    pub fn point_of(&self, process: usize) -> Option<Point>
        requires { process < self.now.sheet.layout.processes }
        ensures { result ≡ point_of ((world_of self.now).situation process) }
    {
        Point::of(&self.situations[process])
    }
}
