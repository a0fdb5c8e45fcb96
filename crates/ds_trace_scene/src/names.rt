//! Cells and places, as scripts name them.

ghost use Rattle.std.specs.Prelude.{◌≡◌, IfOk, string_bytes};
ghost use Rattle.ds_formula.specs.Cells.{cell_at};
ghost use Rattle.ds_formula.specs.Names.{cell_text};
ghost use Rattle.ds_trace_scene.specs.PlaceNames.{name_by_cell, name_of};

use ds_layout::layout::Layout;
use ds_layout::place::{Edition, Place};
use ds_script_io::answer::cell_at;
use std::alloc::{AllocError, Global};

/// The cell with this number, as `A1`.
pub fn cell_name(alloc: Global, layout: Layout, cell: usize) -> Result<String, AllocError>
    ensures { IfOk result (λ text. string_bytes text ≡ cell_text (cell_at layout.shape cell)) }
{
    let cell = cell_at(layout.shape, cell);
    format!(in alloc; "{cell}")
}

// A place of a cell: its kind, and the cell.
fn of_cell(alloc: Global, layout: Layout, kind: &str, cell: usize) -> Result<String, AllocError>
    ensures { IfOk result (λ text. string_bytes text ≡ name_by_cell layout kind.now cell) }
{
    let cell = cell_at(layout.shape, cell);
    format!(in alloc; "{kind} {cell}")
}

/// The place as scripts write it: `head A1`, `announce 0`.
pub fn place_name(alloc: Global, layout: Layout, place: Place) -> Result<String, AllocError>
    ensures { IfOk result (λ text. string_bytes text ≡ name_of layout place) }
{
    match place {
        Place::Version => format!(in alloc; "version"),
        Place::Head(cell) => of_cell(alloc, layout, "head", cell),
        Place::Mark(cell) => of_cell(alloc, layout, "mark", cell),
        Place::Value(cell) => of_cell(alloc, layout, "value", cell),
        Place::Kind(cell) => of_cell(alloc, layout, "kind", cell),
        Place::Index { row, part } => {
            let cell = cell_at(layout.shape, row);
            format!(in alloc; "index {cell} {part}")
        }
        Place::Announce(process) => format!(in alloc; "announce {process}"),
        Place::Header { process, number } => format!(in alloc; "header {process} {number}"),
        Place::Text {
            edition: Edition::First,
            process,
            number,
            part,
        } => format!(in alloc; "text {process} {number} {part}"),
        Place::Text {
            edition: Edition::Second,
            process,
            number,
            part,
        } => format!(in alloc; "newtext {process} {number} {part}"),
        Place::Done { process, part } => format!(in alloc; "done {process} {part}"),
    }
}
