//! The script of an order.

use crate::lines::FoundLine;
use crate::search::Start;
use ds_explore_state::position::{Move, Position};
use ds_script::drive::has_come;
use ds_script::point::PointName;
use ds_state::world::World;
use std::alloc::{AllocError, Global};

// The points of all calls, those of each call in their order.
const POINTS: [PointName; 16] = [
    PointName::Written,
    PointName::Announced,
    PointName::Indexed,
    PointName::Helped,
    PointName::Held,
    PointName::Stored,
    PointName::Valued,
    PointName::Spread,
    PointName::Cleared,
    PointName::Freed,
    PointName::Swung,
    PointName::Kept,
    PointName::Marked,
    PointName::Answered,
    PointName::Copied,
    PointName::Switched,
];

// Steps of one process, one after another.
#[derive(Clone, Copy)]
struct StepsOfProcess {
    process: usize,
    // The last point that they have come to.
    point: Option<PointName>,
    // How many there are after it.
    behind: usize,
}

// The lines so far, and steps that have no line yet.
#[derive(Drop)]
struct Lines {
    lines: Vec<FoundLine>,
    steps: Option<StepsOfProcess>,
}

// The last point that a process's call has passed.
fn last_point(world: &World, process: usize) -> Option<PointName> {
    let mut last = None;
    for name in POINTS {
        if has_come(world, process, name) {
            last = Some(name);
        }
    }
    last
}

// Whether the call of a process was answered.
fn is_answered(position: &Position, process: usize) -> bool {
    match position.seats.get(process) {
        Some(seat) => seat.answer.is_some(),
        None => false,
    }
}

impl StepsOfProcess {
    // One more, which has led from a point to a point.
    fn with(self, before: Option<PointName>, after: Option<PointName>) -> StepsOfProcess {
        if before == after {
            return StepsOfProcess {
                behind: self.behind.saturating_add(1),
                ..self
            };
        }
        StepsOfProcess {
            process: self.process,
            point: after,
            behind: 0,
        }
    }
}

impl Lines {
    // The steps that have no line get theirs.
    fn close(&mut self) -> Result<(), AllocError> {
        let Some(steps) = self.steps.take() else {
            return Ok(());
        };
        if let Some(name) = steps.point {
            self.lines.push(FoundLine::RunTo {
                process: steps.process,
                name,
            })?;
        }
        for _ in 0..steps.behind {
            self.lines.push(FoundLine::Step(steps.process))?;
        }
        Ok(())
    }

    // What is no step.
    fn push(&mut self, line: FoundLine) -> Result<(), AllocError> {
        self.close()?;
        self.lines.push(line)?;
        Ok(())
    }

    // The steps of a process that stand last.
    fn steps_of(&mut self, process: usize) -> Result<StepsOfProcess, AllocError> {
        match self.steps {
            Some(steps) if steps.process == process => Ok(steps),
            _ => {
                self.close()?;
                Ok(StepsOfProcess {
                    process,
                    point: None,
                    behind: 0,
                })
            }
        }
    }

    // A step of a process.
    fn step(
        &mut self,
        alloc: Global,
        position: &mut Position,
        process: usize,
    ) -> Result<(), AllocError> {
        let steps = self.steps_of(process)?;
        let before = last_point(&position.world, process);
        let _written = position.apply(alloc, Move::Step(process))?;
        if is_answered(position, process) {
            self.steps = None;
            self.lines.push(FoundLine::Run(process))?;
            return Ok(());
        }
        self.steps = Some(steps.with(before, last_point(&position.world, process)));
        Ok(())
    }

    // What happens next.
    fn go(&mut self, alloc: Global, position: &mut Position, next: Move) -> Result<(), AllocError> {
        match next {
            Move::Step(process) => return self.step(alloc, position, process),
            Move::Stop(process) => self.push(FoundLine::Stop(process))?,
            Move::Evict(place) => self.push(FoundLine::Evict(place))?,
        }
        let _written = position.apply(alloc, next)?;
        Ok(())
    }

    // What is done after an order.
    fn end(&mut self, processes: usize, crashed: bool) -> Result<(), AllocError> {
        self.close()?;
        if crashed {
            self.push(FoundLine::Crash)?;
        }
        for process in 0..processes {
            self.push(FoundLine::Recover(process))?;
        }
        self.push(FoundLine::Settle)?;
        self.push(FoundLine::Report)
    }
}

/// The lines of an order of these events, with a crash after it or not, and of what is done then.
pub(crate) fn lines_of(
    alloc: Global,
    start: &Start,
    path: &[u32],
    crashed: bool,
) -> Result<Vec<FoundLine>, AllocError> {
    let mut position = start.position(alloc)?;
    let mut lines = Lines {
        lines: Vec::new(alloc),
        steps: None,
    };
    for by in path {
        if let Some(next) = start.moves.get(*by as usize) {
            lines.go(alloc, &mut position, *next)?;
        }
    }
    lines.end(position.seats.len(), crashed)?;
    Ok(lines.lines)
}
