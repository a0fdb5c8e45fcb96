//! Where a sweep is.

use crate::course::Course;
use crate::plan::{Kind, Part};
use crate::sweep::Outcome;

// How often a sweep goes over the cells of a component at most, beyond the first pass.
const PASSES: usize = 8;

// A cell of a closed way; how many works the sweep has done on it before; how many of them, the last ones in a row, have changed
// their cells, and how many have not.
#[derive(Clone, Copy)]
struct Round {
    cell: usize,
    works: usize,
    changes: usize,
    calm: usize,
}

impl Round {
    // After a work on its cell: at the next one.
    fn after(self, outcome: Outcome, next: Option<usize>) -> Round {
        let changed = outcome == Outcome::Changed;
        Round {
            cell: next.unwrap_or(self.cell),
            works: self.works.saturating_add(1),
            changes: if changed {
                self.changes.saturating_add(1)
            } else {
                0
            },
            calm: if changed {
                0
            } else {
                self.calm.saturating_add(1)
            },
        }
    }
}

#[derive(Clone, Copy)]
enum Stage {
    Way(Round),
    // At a place of the order; whether it passes over the cells of the way.
    Cells { place: usize, spreads: bool },
    End,
}

// The part of the plan where a sweep is, how many come after it, and at which place it ends; where in the part it is; whether
// this pass over it has changed a cell, whether its way is circular, and how many passes there may be more.
#[derive(Clone, Copy)]
pub(crate) struct Position {
    part: usize,
    parts: usize,
    end: usize,
    stage: Stage,
    changed: bool,
    is_circular: bool,
    passes: usize,
}

impl Position {
    // At this place of the order, or at the beginning of the circle that it is in.
    pub(crate) fn new(course: &Course, cells: usize, from: usize) -> Position {
        let mut position = Position {
            part: course.part_of(from),
            parts: course.parts(),
            end: from,
            stage: Stage::Cells {
                place: from,
                spreads: false,
            },
            changed: false,
            is_circular: false,
            passes: PASSES,
        };
        let part = position.current(course, cells);
        if !matches!(part.kind, Kind::Line) || from <= part.first || from >= part.end {
            position.parts = position.parts.saturating_sub(1);
            position.end = cells;
            position.begin_pass(part);
        }
        position
    }

    // The part that it is in.
    fn current(&self, course: &Course, cells: usize) -> Part {
        let part = course.part(self.part, cells);
        match self.parts {
            0 => Part {
                end: part.end.min(self.end),
                ..part
            },
            _ => part,
        }
    }

    // The next cell, unless it is at the end.
    pub(crate) fn cell(&self, course: &Course, cells: usize) -> Option<usize> {
        match self.stage {
            Stage::Way(round) => Some(round.cell),
            Stage::Cells { place, .. } if place < cells => Some(course.cell(place, cells)),
            _ => None,
        }
    }

    // Takes what a work on the next cell has found.
    pub(crate) fn note(&mut self, course: &Course, cells: usize, outcome: Outcome) {
        self.changed = self.changed || outcome == Outcome::Changed;
        match self.stage {
            Stage::Way(round) => self.go_round(course, cells, round, outcome),
            Stage::Cells { place, spreads } => {
                self.go_to(course, cells, place.saturating_add(1), spreads);
            }
            Stage::End => {}
        }
    }
}

impl Position {
    fn begin_pass(&mut self, part: Part) {
        self.changed = false;
        self.stage = match part.kind {
            Kind::Circle { start, .. } if !self.is_circular => Stage::Way(Round {
                cell: start,
                works: 0,
                changes: 0,
                calm: 0,
            }),
            _ => Stage::Cells {
                place: part.first,
                spreads: false,
            },
        };
    }

    // Goes on to the next part, unless this one was the last.
    fn go_on(&mut self, course: &Course, cells: usize) {
        if self.parts == 0 {
            self.stage = Stage::End;
            return;
        }
        self.parts = self.parts.saturating_sub(1);
        self.part = course.part_after(self.part);
        self.is_circular = false;
        self.passes = PASSES;
        let part = self.current(course, cells);
        self.begin_pass(part);
    }

    // Begins another pass where this one has changed a cell of a component with a circle.
    fn end_pass(&mut self, course: &Course, cells: usize) {
        let part = self.current(course, cells);
        if self.changed && self.passes > 0 && !matches!(part.kind, Kind::Line) {
            self.passes = self.passes.saturating_sub(1);
            self.begin_pass(part);
        } else {
            self.go_on(course, cells);
        }
    }

    // Goes on to this place, or to the first one after it whose cell it does not pass over.
    fn go_to(&mut self, course: &Course, cells: usize, from: usize, spreads: bool) {
        let end = self.current(course, cells).end.min(cells);
        for place in from..end {
            if !spreads || course.next(course.cell(place, cells)).is_none() {
                self.stage = Stage::Cells { place, spreads };
                return;
            }
        }
        self.end_pass(course, cells);
    }

    // Goes on round a closed way: to its next cell, or over all cells of the component, where a cell is circular or no work
    // of a whole round has changed its cell. A cell is circular that has not changed after all cells of the way, it too, have.
    fn go_round(&mut self, course: &Course, cells: usize, round: Round, outcome: Outcome) {
        let part = self.current(course, cells);
        let length = match part.kind {
            Kind::Circle { length, .. } => length,
            _ => 0,
        };
        let after = round.after(outcome, course.next(round.cell));
        let is_over = after.works >= length.saturating_mul(2).saturating_add(cells);
        if round.changes > length && (after.changes == 0 || is_over) {
            self.is_circular = true;
            self.go_to(course, cells, part.first, true);
        } else if after.calm >= length || is_over {
            self.go_to(course, cells, part.first, false);
        } else {
            self.stage = Stage::Way(after);
        }
    }
}
