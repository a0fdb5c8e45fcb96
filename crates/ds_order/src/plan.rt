//! How a sweep goes over the cells of a sheet.

ghost use Rattle.std.specs.Prelude.{IfOk};
ghost use Rattle.ds_order.specs.Orders.{IsOrder};

use crate::components::{Components, find_components};
use crate::order::{References, ascending, is_order};
use crate::tours::Tours;
use std::alloc::{AllocError, Global};

// How a sweep goes over a part.
#[derive(Clone, Copy)]
pub(crate) enum Kind {
    // No cell is in a circle: over each once.
    Line,
    // A component with a circle: round a closed way, on which each cell refers to the one before, until one is circular; then
    // over all, each after one that it refers to.
    Circle { start: usize, length: usize },
    // A component with a circle that refers to an earlier one: over all, each after one that it refers to.
    Spread,
}

// The cells of an order from one place to another.
#[derive(Clone, Copy)]
pub(crate) struct Part {
    pub(crate) first: usize,
    pub(crate) end: usize,
    pub(crate) kind: Kind,
}

// An order, its parts, and of each cell of a closed way the one after it. Without parts it is one line.
#[derive(Drop)]
pub(crate) struct Plan {
    pub(crate) order: Vec<usize>,
    pub(crate) parts: Vec<Part>,
    pub(crate) next: Vec<Option<usize>>,
}

impl Plan {
    // One line by the numbers of the cells.
    pub(crate) fn new(alloc: Global) -> Plan {
        Plan {
            order: Vec::new(alloc),
            parts: Vec::new(alloc),
            next: Vec::new(alloc),
        }
    }
}

// Whether the parts follow on one another, over as many cells in all.
fn are_whole(parts: &[Part], cells: usize) -> bool {
    let mut end = 0;
    for part in parts {
        if part.first != end || part.end < end {
            return false;
        }
        end = part.end;
    }
    end == cells
}

// One part more: together with the last one where both are lines.
fn add_part(parts: &mut Vec<Part>, part: Part) {
    match (parts.last_mut(), part.kind) {
        (Some(last), Kind::Line) if matches!(last.kind, Kind::Line) => last.end = part.end,
        _ => {
            let _has_room = parts.push(part);
        }
    }
}

// The plan of these components.
fn plan_of<R: References>(
    alloc: Global,
    references: &R,
    components: Components,
) -> Result<Plan, AllocError> {
    let mut parts = Vec::with_capacity(alloc, components.ends.len())?;
    let mut tours = Tours::new(alloc, components.cells)?;
    let mut first = 0;
    for end in components.ends.as_slice() {
        let kind = tours.tour(alloc, references, first, *end)?;
        add_part(
            &mut parts,
            Part {
                first,
                end: *end,
                kind,
            },
        );
        first = *end;
    }
    Ok(Plan {
        order: tours.order,
        parts,
        next: tours.next,
    })
}

// The plan of as many cells, by what is known of their references. Where it is no order, it is one line by their numbers.
pub(crate) fn make_plan<R: References>(
    alloc: Global,
    references: &R,
    cells: usize,
) -> Result<Plan, AllocError>
    ensures { IfOk result (λ plan. IsOrder cells plan.order.items) }
{
    let components = find_components(alloc, references, cells)?;
    let plan = plan_of(alloc, references, components)?;
    let whole = are_whole(plan.parts.as_slice(), cells);
    if is_order(alloc, plan.order.as_slice(), cells)? && whole {
        return Ok(plan);
    }
    Ok(Plan {
        order: ascending(alloc, cells)?,
        parts: Vec::new(alloc),
        next: Vec::new(alloc),
    })
}
