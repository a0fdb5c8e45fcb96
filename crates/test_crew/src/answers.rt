//! What the calls of a locked sheet answer, one after the other: by one pass, and by two in the middle of a migration.

ghost use Rattle.std.specs.Prelude.{◌≡◌, length};

use ds_core::event::Event;
use ds_core::reply::Reply;
use ds_core::take::take;
use ds_crew::ended::{Edited, Recovered, Reported, Worked};
use ds_crew::locked::{Closed, LockedSheet};
use ds_crew::pass::Pass;
use ds_formula::cells::{Cell, Shape};
use ds_formula::fault::{FaultKind, TextFault};
use ds_layout::place::Place;
use ds_state::answer::Answer;
use ds_state::migration::MigrateEnd;
use ds_state::recovery::LastEdit;
use ds_state::refusal::Refusal;
use ds_state::work::WorkEnd;
use ds_state::world::World;
use std::alloc::{AllocError, Global};
use std::marker::Brand;
use std::sync::Wait;
use std::sync::ledger::{Blank, Ledger};
use std::test::Fail;

// More steps than a migration of two processes takes.
const STEPS: usize = 65536;

// What is asked of a sheet.
#[derive(Clone, Copy, Debug)]
enum Ask {
    Edit(Cell, &'static str),
    Work(Cell),
    Report,
    Recover,
    NextMarked(usize),
}

// What is answered.
#[derive(Clone, Copy, Debug, PartialEq, Eq)]
enum Seen {
    Done(usize),
    Overtaken,
    Refused(Refusal),
    NotEnabled,
    Worked(Worked),
    Reported(Reported),
    Recovered(Recovered),
    Marked(Option<usize>),
    NoMemory,
}

fn answer_to<L: Ledger, M: Ledger, R: Wait>(
    rt: &R,
    alloc: Global,
    sheet: &LockedSheet<L, M>,
    pass: &mut Pass<L, M>,
    what: Ask,
) -> Seen {
    match what {
        Ask::Edit(cell, text) => match Vec::from_slice(alloc, text.as_bytes()) {
            Ok(text) => match sheet.edit(rt, alloc, pass, cell, text) {
                Edited::Done(receipt) => Seen::Done(receipt.number),
                Edited::Overtaken { number: _, by: _ } => Seen::Overtaken,
                Edited::Refused(why) => Seen::Refused(why),
                Edited::NotEnabled => Seen::NotEnabled,
            },
            Err(_) => Seen::NoMemory,
        },
        Ask::Work(cell) => Seen::Worked(sheet.work(rt, alloc, pass, cell)),
        Ask::Report => Seen::Reported(sheet.show(rt, alloc, pass)),
        Ask::Recover => Seen::Recovered(sheet.recover(rt, alloc, pass)),
        Ask::NextMarked(from) => Seen::Marked(sheet.next_marked(rt, from)),
    }
}

const A1: Cell = Cell { column: 0, row: 0 };

const C1: Cell = Cell { column: 2, row: 0 };

// What is asked by the pass of a process, and what it is to be answered.
type Row = (usize, Ask, Seen);

const ROWS: [Row; 13] = [
    (0, Ask::Recover, Seen::Recovered(Recovered::Nothing)),
    (0, Ask::Edit(A1, "=1+2"), Seen::Done(0)),
    (0, Ask::NextMarked(0), Seen::Marked(Some(0))),
    (0, Ask::NextMarked(1), Seen::Marked(None)),
    (
        0,
        Ask::Report,
        Seen::Reported(Reported::Unsettled(Place::Mark(0), 1)),
    ),
    (
        0,
        Ask::Work(A1),
        Seen::Worked(Worked::Ended(WorkEnd::Published(true))),
    ),
    (
        0,
        Ask::Work(A1),
        Seen::Worked(Worked::Ended(WorkEnd::NotDirty)),
    ),
    (0, Ask::NextMarked(0), Seen::Marked(None)),
    (0, Ask::Report, Seen::Reported(Reported::Settled)),
    (
        0,
        Ask::Edit(A1, "=1.5"),
        Seen::Refused(Refusal::Text(TextFault {
            kind: FaultKind::NotWhole,
            offset: 2,
        })),
    ),
    (0, Ask::Edit(C1, "1"), Seen::NotEnabled),
    (0, Ask::Work(C1), Seen::Worked(Worked::NotEnabled)),
    (
        0,
        Ask::Recover,
        Seen::Recovered(Recovered::Last(LastEdit {
            number: 0,
            cell: 0,
            counts: true,
        })),
    ),
];

// The rows of a sheet that process 0 migrates, while process 1 is stopped.
const MIGRATING: [Row; 6] = [
    (
        1,
        Ask::Recover,
        Seen::Recovered(Recovered::Refused(Refusal::Migrating(0))),
    ),
    (1, Ask::Edit(A1, "1"), Seen::Refused(Refusal::Stopped)),
    (0, Ask::Edit(A1, "1"), Seen::Refused(Refusal::Busy)),
    (
        0,
        Ask::Work(A1),
        Seen::Worked(Worked::Refused(Refusal::Busy)),
    ),
    (
        0,
        Ask::Report,
        Seen::Reported(Reported::Refused(Refusal::Busy)),
    ),
    (
        0,
        Ask::Recover,
        Seen::Recovered(Recovered::Refused(Refusal::Busy)),
    ),
];

// The first calls on a new sheet, of its last process first.
const FIRST: [Row; 2] = [
    (1, Ask::Edit(A1, "1"), Seen::Done(0)),
    (0, Ask::Edit(A1, "2"), Seen::Done(0)),
];

// The first row whose answer is another one; how many rows there are, where all are right.
fn rows_right<L: Ledger, M: Ledger, R: Wait>(
    rt: &R,
    alloc: Global,
    sheet: &LockedSheet<L, M>,
    passes: &mut [Pass<L, M>],
    rows: &[Row],
) -> usize
    ensures { length passes.new ≡ length passes.old }
{
    for place in 0..rows.len() {
        let (process, what, wanted) = rows[place];
        if process >= passes.len()
            || answer_to(rt, alloc, sheet, &mut passes[process], what) != wanted
        {
            return place;
        }
    }
    rows.len()
}

// The place of a sheet made for the rows, and the world that its close gives back; `None` where an allocation fails, or
// where there is a stray.
fn lock_and_ask<L: Ledger, M: Ledger, R: Wait>(
    rt: &R,
    alloc: Global,
    world: World,
    dones: Blank,
    settleds: Blank,
    rows: &[Row],
) -> Option<(World, usize)>
    requires names { (dones.name ≡ L.name) × (settleds.name ≡ M.name) }
    requires parts { (dones.parts ≡ L.parts) × (settleds.parts ≡ M.parts) }
    requires processes { (L.parts ≡ world.sheet.layout.processes) × (M.parts ≡ world.sheet.layout.processes) }
{
    let Ok((sheet, mut passes)) = LockedSheet::<L, M>::make(alloc, world, dones, settleds) else {
        return None;
    };
    if passes.is_empty() {
        return None;
    }
    let right = rows_right(rt, alloc, &sheet, &mut passes, rows);
    let Closed { world, stray } = sheet.close(passes);
    if stray.is_some() {
        return None;
    }
    Some((world, right))
}

// The same rows on a sheet of two processes, under two new names.
fn ask_two<R: Wait>(rt: &R, alloc: Global, world: World, rows: &[Row]) -> Option<(World, usize)> {
    if world.words.layout().processes != 2 {
        return None;
    }
    lock_and_ask::<Brand, Brand, R>(rt, alloc, world, Blank::new(2), Blank::new(2), rows)
}

fn new_right<R: Wait>(rt: &R, alloc: Global) -> Option<usize> {
    let world = World::new(alloc, Shape::new(2, 2)?, 2).ok()?;
    let (_world, right) = ask_two(rt, alloc, world, &ROWS)?;
    Some(right)
}

// A sheet of the first layout after a crash, whose process 0 has made some steps of a migration, and whose process 1 is
// stopped.
fn half_migrated(alloc: Global) -> Option<World> {
    let mut world = World::first(alloc, Shape::new(2, 2)?, 2).ok()?;
    let _stopped = take(alloc, &mut world, &Event::Crash);
    let _entered = take(alloc, &mut world, &Event::BeginMigrate(0));
    for _ in 0..9u8 {
        let _stepped = take(alloc, &mut world, &Event::Step(0));
    }
    Some(world)
}

// The answer of the call that process 0 is in.
fn finish(alloc: Global, world: &mut World) -> Option<Answer> {
    for _ in 0..STEPS {
        match take(alloc, world, &Event::Step(0)) {
            Reply::Stepped => {}
            Reply::Answered(answer) => return Some(answer),
            _ => return None,
        }
    }
    None
}

// What is asked in the middle of a migration; how many rows are right, and how the migration ends after the close.
fn between<R: Wait>(rt: &R, alloc: Global) -> Option<(usize, Option<Answer>)> {
    let (mut world, right) = ask_two(rt, alloc, half_migrated(alloc)?, &MIGRATING)?;
    Some((right, finish(alloc, &mut world)))
}

// The first calls after a making: how many rows are right, and how shows begin of both processes after the close.
fn around<R: Wait>(rt: &R, alloc: Global) -> Option<(usize, Reply, Reply)> {
    let world = World::new(alloc, Shape::new(2, 2)?, 2).ok()?;
    let (mut world, right) = ask_two(rt, alloc, world, &FIRST)?;
    let first = take(alloc, &mut world, &Event::BeginShow(0));
    let last = take(alloc, &mut world, &Event::BeginShow(1));
    Some((right, first, last))
}

#[test]
fn calls_answer(rt: HostRuntime) -> Result<(), Fail> {
    let alloc = rt.alloc();
    assert_eq!(rt; new_right(&rt, alloc), Some(13));
    Ok(())
}

// Neither the making nor the close stops a process.
#[test]
fn made_and_closed_as_it_is(rt: HostRuntime) -> Result<(), Fail> {
    let alloc = rt.alloc();
    let wanted = (2, Reply::Entered, Reply::Entered);
    assert_eq!(rt; around(&rt, alloc), Some(wanted));
    Ok(())
}

#[test]
fn locked_in_a_migration(rt: HostRuntime) -> Result<(), Fail> {
    let alloc = rt.alloc();
    let wanted = (6, Some(Answer::Migration(MigrateEnd::Migrated)));
    assert_eq!(rt; between(&rt, alloc), Some(wanted));
    Ok(())
}
