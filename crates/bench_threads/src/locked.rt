//! Calls on sheets behind a lock, one sheet after the other.

ghost use Rattle.std.specs.Prelude.{◌≡◌, ◌<◌, IfSome};
ghost use Rattle.bench_threads.specs.declared.pace.TheConstants.{PROCESSES};

use crate::pace::{CALLS, PROCESSES, Pace, PaceTask, Texts};
use crate::round::Round;
use crate::tally::PaceTally;
use ds_crew::ended::{Edited, Reported, Worked};
use ds_crew::locked::LockedSheet;
use ds_crew::pass::Pass;
use ds_formula::cells::{Cell, Shape};
use ds_state::work::WorkEnd;
use ds_state::world::World;
use std::alloc::{AllocError, Global};
use std::marker::Brand;
use std::sync::Wait;
use std::sync::ledger::{Blank, Ledger};
use std::thread::{Threads, for_each_mut};
use std::time::Clock;

/// A thread: its process, its pass, and what it counts.
#[derive(Drop)]
struct Runner<L: Ledger, M: Ledger> {
    process: usize,
    pass: Pass<L, M>,
    tally: PaceTally,
}

// An edit of the cell in this column: whether it is Done.
fn edit<L: Ledger, M: Ledger, R: Wait>(
    rt: &R,
    alloc: Global,
    sheet: &LockedSheet<L, M>,
    pass: &mut Pass<L, M>,
    column: usize,
    text: &str,
) -> bool {
    let Ok(text) = Vec::from_slice(alloc, text.as_bytes()) else {
        return false;
    };
    match sheet.edit(rt, alloc, pass, Cell { column, row: 0 }, text) {
        Edited::Done(_receipt) => true,
        _ => false,
    }
}

// A call of a task.
fn call<L: Ledger, M: Ledger, R: Wait>(
    rt: &R,
    alloc: Global,
    sheet: &LockedSheet<L, M>,
    pass: &mut Pass<L, M>,
    task: PaceTask,
    text: &str,
) -> bool {
    match task {
        PaceTask::Edit(column) => edit(rt, alloc, sheet, pass, column, text),
        PaceTask::EditAndWork(column) => {
            let cell = Cell { column, row: 0 };
            edit(rt, alloc, sheet, pass, column, text)
                && match sheet.work(rt, alloc, pass, cell) {
                    Worked::Ended(WorkEnd::Published(_)) => true,
                    _ => false,
                }
        }
        PaceTask::Report => sheet.show(rt, alloc, pass) == Reported::Settled,
    }
}

// The calls of a thread on a sheet, when all have come.
fn run<L: Ledger, M: Ledger, R: Wait + Clock>(
    rt: &R,
    alloc: Global,
    sheet: &LockedSheet<L, M>,
    round: &Round,
    runner: &mut Runner<L, M>,
) {
    let task = round.pace.task(runner.process);
    let texts = round.pace.texts.pair();
    runner.tally.begun = round.begin(rt);
    for number in 0..CALLS {
        let text = texts[number % 2];
        let is_good = call(rt, alloc, sheet, &mut runner.pass, task, text);
        runner.tally.count(is_good);
    }
    runner.tally.ended = round.now(rt);
}

// A new world for edits that give these texts.
fn new_world(alloc: Global, texts: Texts) -> Option<World>
    ensures { IfSome result (λ w. w.sheet.layout.processes ≡ PROCESSES) }
{
    World::new(alloc, Shape::new(PROCESSES, texts.rows())?, PROCESSES).ok()
}

// The passes of that number of processes.
fn runners<L: Ledger, M: Ledger>(
    alloc: Global,
    mut passes: Vec<Pass<L, M>>,
    threads: usize,
) -> Result<Vec<Runner<L, M>>, AllocError> {
    let mut runners = Vec::new(alloc);
    for process in 0..threads {
        if let Some(pass) = passes.pop() {
            let tally = PaceTally::new();
            runners.push(Runner {
                process,
                pass,
                tally,
            })?;
        }
    }
    Ok(runners)
}

// The calls of all threads on a sheet.
fn run_all<L: Ledger + Send + Sync, M: Ledger + Send + Sync, R: Threads + Wait + Clock + Sync>(
    rt: &R,
    alloc: Global,
    sheet: &LockedSheet<L, M>,
    mut runners: Vec<Runner<L, M>>,
    pace: Pace,
) -> Result<(PaceTally, PaceTally), AllocError>
    requires { 0 < pace.threads }
{
    let round = Round::new(rt, pace);
    for_each_mut(
        rt,
        runners.as_mut_slice(),
        pace.threads,
        &|_place, runner| run(rt, alloc, sheet, &round, runner),
    );
    let mut tallies = Vec::new(alloc);
    for runner in &runners {
        tallies.push(runner.tally)?;
    }
    Ok(pace.split(&tallies))
}

// The calls of all threads on a new sheet, or none where an allocation fails.
fn once<L: Ledger + Send + Sync, M: Ledger + Send + Sync, R: Threads + Wait + Clock + Sync>(
    rt: &R,
    alloc: Global,
    world: World,
    dones: Blank,
    settleds: Blank,
    pace: Pace,
) -> Result<(PaceTally, PaceTally), AllocError>
    requires names { (dones.name ≡ L.name) × (settleds.name ≡ M.name) }
    requires parts { (dones.parts ≡ L.parts) × (settleds.parts ≡ M.parts) }
    requires processes { (L.parts ≡ world.sheet.layout.processes) × (M.parts ≡ world.sheet.layout.processes) }
    requires threads { 0 < pace.threads }
{
    match LockedSheet::<L, M>::make(alloc, world, dones, settleds) {
        Ok((sheet, passes)) => {
            let runners = runners(alloc, passes, pace.threads)?;
            run_all(rt, alloc, &sheet, runners, pace)
        }
        Err(_unmade) => Ok((PaceTally::new(), PaceTally::new())),
    }
}

/// What the threads that report have counted, and the others.
pub fn measure<R: Threads + Wait + Clock + Sync>(
    rt: &R,
    alloc: Global,
    pace: Pace,
) -> Result<(PaceTally, PaceTally), AllocError>
    requires { 0 < pace.threads }
{
    let (mut reports, mut edits) = (PaceTally::new(), PaceTally::new());
    for _ in 0..pace.sheets {
        if let Some(world) = new_world(alloc, pace.texts) {
            let (dones, settleds) = (Blank::new(PROCESSES as u64), Blank::new(PROCESSES as u64));
            let more = once::<Brand, Brand, R>(rt, alloc, world, dones, settleds, pace)?;
            reports = reports.and(more.0);
            edits = edits.and(more.1);
        }
    }
    Ok((reports, edits))
}
