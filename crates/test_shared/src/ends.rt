//! The words of a closed sheet, against what its processes were answered and against the values from scratch.

ghost use Rattle.ds_formula.specs.Cells.{IsInside};

use crate::account::{Edit, Surprise};
use crate::crowd::{Crowd, PROCESSES};
use crate::grid::{CELLS, Values, cell_of, values_of};
use ds_eval::value::Value;
use ds_layout::head::Head;
use ds_layout::place::Place;
use ds_shared::sheet::ClosedSheet;
use ds_state::shown::SheetReader;
use std::alloc::Global;

/// What a closed sheet shows of a cell.
#[derive(Drop)]
pub struct Shown {
    head: u64,
    value: Value,
    text: Vec<u8>,
}

/// What was found wrong.
#[derive(Clone, Copy, Debug, PartialEq, Eq)]
pub enum Wrong {
    /// An allocation failed.
    NoMemory,
    /// A process was answered what does not fit.
    CallEvent(Surprise),
    /// A settled report had values that no sheet of the texts has.
    Stray(Values),
    /// No report was settled, after works on all cells.
    Unsettled,
    /// The stamp of the cell's head is not the number of linearized edits.
    Stamp {
        /// The cell.
        cell: usize,
        /// How many edits of it are linearized, by what was answered.
        answered: u64,
        /// The word of its head.
        head: u64,
    },
    /// The cell's last edit is none that was answered as linearized, or a later one was.
    Last {
        /// The cell.
        cell: usize,
        /// The word of its head.
        head: u64,
        /// What its process was answered about its last edit of the cell.
        answered: Option<Edit>,
    },
    /// The cell has another text than its last edit gave it.
    Text(usize),
    /// The values are not those from scratch.
    Values {
        /// What the report had.
        reported: Values,
        /// What the words show.
        shown: Values,
        /// What the texts give from scratch.
        scratch: Values,
    },
}

/// What a closed sheet shows of each cell.
pub fn shown_by(alloc: Global, closed: &ClosedSheet) -> Option<Vec<Shown>> {
    let shape = closed.layout().shape;
    let mut all = Vec::new(alloc);
    for number in 0..CELLS {
        let cell = cell_of(shape, number)?;
        if !closed.layout().contains(Place::Head(number)) {
            return None;
        }
        let head = closed.cached(Place::Head(number));
        let value = closed.value_of(cell);
        let text = closed.text_of(alloc, cell).ok()?;
        all.push(Shown { head, value, text }).ok()?;
    }
    Some(all)
}

// The last edit of the cell that was answered to its process as linearized.
fn last_of(crowd: &Crowd, process: usize, cell: usize) -> Option<Edit> {
    if process < PROCESSES {
        crowd.hand(process).account.last_of(cell)
    } else {
        None
    }
}

// The cell's head and text are those of its last edit that was answered as linearized.
fn check_cell(shown: &Shown, crowd: &Crowd, cell: usize) -> Result<(), Wrong> {
    let head = shown.head;
    let mut answered = 0u64;
    for process in 0..PROCESSES {
        answered = answered.wrapping_add(crowd.hand(process).account.count_of(cell));
    }
    let parts = Head::parts(head);
    if parts.stamp != answered {
        return Err(Wrong::Stamp {
            cell,
            answered,
            head,
        });
    }
    if answered == 0 {
        return if shown.text.is_empty() {
            Ok(())
        } else {
            Err(Wrong::Text(cell))
        };
    }
    match last_of(crowd, parts.process, cell) {
        Some(edit) if edit.number == parts.number => {
            if shown.text.as_slice() == edit.text.as_bytes() {
                Ok(())
            } else {
                Err(Wrong::Text(cell))
            }
        }
        answered => Err(Wrong::Last {
            cell,
            head,
            answered,
        }),
    }
}

// The values of the cells are those of the report, and those from scratch of the texts.
fn check_values(alloc: Global, all: &[Shown], reported: &[Value]) -> Result<(), Wrong> {
    let [a, b, c, d] = all else {
        return Err(Wrong::NoMemory);
    };
    let shown = [a.value, b.value, c.value, d.value];
    let texts = [
        a.text.as_slice(),
        b.text.as_slice(),
        c.text.as_slice(),
        d.text.as_slice(),
    ];
    let scratch = values_of(alloc, texts).ok_or(Wrong::NoMemory)?;
    let reported = crate::grid::four(reported).ok_or(Wrong::Unsettled)?;
    if shown == scratch && reported == scratch {
        Ok(())
    } else {
        Err(Wrong::Values {
            reported,
            shown,
            scratch,
        })
    }
}

/// Whether a closed sheet is what its processes were answered, and its values are those from scratch of its texts.
pub fn check(
    alloc: Global,
    all: &[Shown],
    crowd: &Crowd,
    reported: Option<Vec<Value>>,
) -> Result<(), Wrong> {
    for process in 0..PROCESSES {
        let hand = crowd.hand(process);
        if let Some(surprise) = hand.account.surprise {
            return Err(Wrong::CallEvent(surprise));
        }
        if let Some(values) = hand.stray {
            return Err(Wrong::Stray(values));
        }
    }
    let reported = reported.ok_or(Wrong::Unsettled)?;
    for (cell, shown) in all.iter().enumerate() {
        check_cell(shown, crowd, cell)?;
    }
    check_values(alloc, all, &reported)
}
