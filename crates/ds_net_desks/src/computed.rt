//! Answers from scratch, by the edits that are listed: for readers, where each process is a client's.

ghost use Rattle.std.specs.Prelude.{◌≡◌};
ghost use Rattle.ds_formula.specs.Cells.{IsInside};
ghost use Rattle.ds_server.specs.Replies.{got_view, report_view};
ghost use Rattle.ds_net_desks.specs.CellQuestions.{HasComputed, HasComputedCell, SaysCell, SaysValues};

use crate::cell_question::got_of;
use crate::seat_pool::NoneFree;
use ds_formula::cells::{Cell, Shape};
use ds_net_floor::edit_list::EditList;
use ds_net_floor::notebook::Notebook;
use ds_net_values::values::values_in;
use ds_server::desk::{CallRefusal, Got, Reported};
use std::alloc::Global;
use std::sync::Wait;

// The values after the edits of this list.
fn values_of(alloc: Global, shape: Shape, list: &EditList) -> Result<Reported, CallRefusal>
    ensures { SaysValues shape list.now (report_view result) }
{
    match values_in(alloc, shape, list) {
        Ok(values) => Ok(Reported::Settled(values)),
        Err(_) => Err(CallRefusal::NoMemory),
    }
}

// The value of the cell after the edits of this list, and its last edit there.
fn cell_of(alloc: Global, shape: Shape, list: &EditList, cell: Cell) -> Result<Got, CallRefusal>
    requires { IsInside shape cell }
    ensures { SaysCell shape cell list.now (got_view cell result) }
{
    let end = values_of(alloc, shape, list);
    match list.last(alloc, cell) {
        Ok(edit) => got_of(end, shape.index(cell), edit),
        Err(_) => Err(CallRefusal::NoMemory),
    }
}

/// The values of the sheet, while nobody edits; for a reader for whom no process is free.
pub fn computed_values<R: Wait>(
    rt: &R,
    alloc: Global,
    shape: Shape,
    notebook: &mut Notebook<'_>,
    none: &NoneFree,
) -> Result<Reported, CallRefusal>
    requires { none.now.from ≡ 0 }
    ensures computed { HasComputed shape notebook.old.seen.items (report_view result) notebook.new.seen.items }
    ensures notes { (notebook.new.heard ≡ notebook.old.heard) × (notebook.new.keyed ≡ notebook.old.keyed) }
{
    // The body does not use it: a clause names it.
    let _none = none;
    let backlog = notebook.take_turn(rt);
    values_of(alloc, shape, backlog.show(notebook))
}

/// The value of the cell and its last edit that counts, while nobody edits; for a reader for whom no process is free.
pub fn computed_cell<R: Wait>(
    rt: &R,
    alloc: Global,
    shape: Shape,
    notebook: &mut Notebook<'_>,
    cell: Cell,
    none: &NoneFree,
) -> Result<Got, CallRefusal>
    requires inside { IsInside shape cell }
    requires none { none.now.from ≡ 0 }
    ensures computed { HasComputedCell shape cell notebook.old.seen.items (got_view cell result) notebook.new.seen.items }
    ensures notes { (notebook.new.heard ≡ notebook.old.heard) × (notebook.new.keyed ≡ notebook.old.keyed) }
{
    // The body does not use it: a clause names it.
    let _none = none;
    let backlog = notebook.take_turn(rt);
    cell_of(alloc, shape, backlog.show(notebook), cell)
}
