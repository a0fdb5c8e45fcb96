//! Calls on shared sheets: each thread has a pass of each sheet, and goes from sheet to sheet.

ghost use Rattle.std.specs.Prelude.{◌≡◌, All, IfSome};
ghost use Rattle.std.specs.Arc.{arc_value};
ghost use Rattle.ds_shared.specs.Answers.{IsOf};

use crate::pace::{CALLS, PROCESSES, Pace, PaceTask, Texts};
use crate::round::Round;
use crate::tally::PaceTally;
use ds_formula::cells::{Cell, Shape};
use ds_layout::layout::Layout;
use ds_shared::ended::Ended;
use ds_shared::pass::Pass;
use ds_shared::sheet::SharedSheet;
use ds_state::answer::EditEnd;
use ds_state::show::ShowEnd;
use ds_state::work::WorkEnd;
use pm_board::fuse::Whole;
use std::alloc::{AllocError, Global};
use std::sync::Arc;
use std::thread::{Threads, map_vec};
use std::time::Clock;

/// A pass of a sheet, beside the sheet.
#[derive(Drop)]
pub struct Seat {
    sheet: Arc<SharedSheet, Global>,
    pass: Pass,
    ghost fits: { IsOf (arc_value sheet) pass },
}

/// A thread: its process, and a pass of each sheet.
#[derive(Drop)]
pub struct Runner {
    process: usize,
    seats: Vec<Seat>,
}

impl Seat {
    // An edit of the cell in this column: whether it is Done.
    fn edit(&mut self, alloc: Global, column: usize, text: &str) -> bool {
        let sheet: &SharedSheet = &self.sheet;
        let cell = Cell { column, row: 0 };
        if !sheet.layout().shape.contains(cell) {
            return false;
        }
        match sheet.edit(alloc, &mut self.pass, cell, text.as_bytes(), &mut Whole) {
            Ended::Answered(EditEnd::Done(_)) => true,
            _ => false,
        }
    }

    // Work on the cell in this column: whether it is Published.
    fn work(&mut self, alloc: Global, column: usize) -> bool {
        let sheet: &SharedSheet = &self.sheet;
        let cell = Cell { column, row: 0 };
        if !sheet.layout().shape.contains(cell) {
            return false;
        }
        match sheet.work(alloc, &mut self.pass, cell, &mut Whole) {
            Ended::Answered(WorkEnd::Published(_)) => true,
            _ => false,
        }
    }

    // A report: whether it is Settled.
    fn report(&mut self, alloc: Global) -> bool {
        let (ended, _values) = self.sheet.show(alloc, &mut self.pass, &mut Whole);
        ended == Ended::Answered(ShowEnd::Settled)
    }

    // The call with this number of a task.
    fn call(&mut self, alloc: Global, task: PaceTask, texts: [&str; 2], number: usize) -> bool {
        let text = texts[number % 2];
        match task {
            PaceTask::Edit(column) => self.edit(alloc, column, text),
            PaceTask::EditAndWork(column) => {
                self.edit(alloc, column, text) && self.work(alloc, column)
            }
            PaceTask::Report => self.report(alloc),
        }
    }

    // All calls of a task.
    fn play(&mut self, alloc: Global, task: PaceTask, texts: [&str; 2], tally: &mut PaceTally) {
        for number in 0..CALLS {
            tally.count(self.call(alloc, task, texts, number));
        }
    }
}

// The calls of a thread, when all have come.
fn run<R: Clock>(rt: &R, alloc: Global, mut runner: Runner, round: &Round) -> PaceTally {
    let task = round.pace.task(runner.process);
    let texts = round.pace.texts.pair();
    let mut tally = PaceTally::new();
    tally.begun = round.begin(rt);
    for seat in &mut runner.seats {
        seat.play(alloc, task, texts, &mut tally);
    }
    tally.ended = round.now(rt);
    tally
}

// A new sheet, and a pass for each process.
fn opened(alloc: Global, texts: Texts) -> Option<(SharedSheet, Vec<Pass, Global>)>
    ensures { IfSome result (λ r. All (λ p. IsOf r.0 p) r.1.items) }
{
    let layout = Layout::new(Shape::new(PROCESSES, texts.rows())?, PROCESSES)?;
    let (sheet, _past, passes) = SharedSheet::make(alloc, layout).ok()?;
    Some((sheet, passes))
}

// The last pass, beside its sheet.
fn last(
    sheet: &Arc<SharedSheet, Global>,
    passes: &mut Vec<Pass, Global>,
) -> Result<Option<Seat>, AllocError>
    requires { All (λ p. IsOf (arc_value sheet.now) p) passes.old.items }
    ensures { All (λ p. IsOf (arc_value sheet.now) p) passes.new.items }
{
    let Some(pass) = passes.pop() else {
        return Ok(None);
    };
    let sheet = Arc::try_clone(sheet)?;
    Ok(Some(Seat { sheet, pass }))
}

// A new sheet, one pass of which goes to each thread.
fn deal(alloc: Global, texts: Texts, runners: &mut Vec<Runner>) -> Result<(), AllocError> {
    let Some((sheet, mut passes)) = opened(alloc, texts) else {
        return Ok(());
    };
    let sheet = Arc::new(alloc, sheet)?;
    for runner in runners {
        if let Some(seat) = last(&sheet, &mut passes)? {
            runner.seats.push(seat)?;
        }
    }
    Ok(())
}

// As many threads as are asked for, with no pass yet.
fn runners(alloc: Global, threads: usize) -> Result<Vec<Runner>, AllocError> {
    let mut runners = Vec::new(alloc);
    for process in 0..threads {
        runners.push(Runner {
            process,
            seats: Vec::new(alloc),
        })?;
    }
    Ok(runners)
}

/// What the threads that report have counted, and the others.
pub fn measure<R: Threads + Clock + Sync>(
    rt: &R,
    alloc: Global,
    pace: Pace,
) -> Result<(PaceTally, PaceTally), AllocError> {
    let mut runners = runners(alloc, pace.threads)?;
    for _ in 0..pace.sheets {
        deal(alloc, pace.texts, &mut runners)?;
    }
    let round = Round::new(rt, pace);
    let tallies = map_vec(rt, runners, &|runner| run(rt, alloc, runner, &round))?;
    Ok(pace.split(&tallies))
}
