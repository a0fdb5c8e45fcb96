//! Four threads edit, their receipts are audited, and the world is locked again after a crash.

ghost use Rattle.std.specs.Prelude.{◌≡◌, length};

use ds_core::event::Event;
use ds_core::take::take;
use ds_crew::audit::{AuditFault, audit};
use ds_crew::ended::{Edited, Receipt};
use ds_crew::locked::{Closed, LockedSheet};
use ds_crew::pass::Pass;
use ds_formula::cells::{Cell, Shape};
use ds_state::world::World;
use std::alloc::{AllocError, Global};
use std::marker::Brand;
use std::sync::ledger::{Blank, Ledger};
use std::sync::{Mutex, Wait};
use std::test::Fail;
use std::thread;
use std::thread::Threads;

// How many edits each thread makes.
const EDITS: usize = 64;

// Which cells threads edit.
#[derive(Clone, Copy, Debug, PartialEq, Eq)]
enum Cells {
    Own,
    First,
}

// How edits ended that were not done.
#[derive(Clone, Copy, Debug, PartialEq, Eq)]
struct Undone {
    overtaken: usize,
    refused: usize,
}

// A pass, the receipts of its edits, and how those ended that were not done.
#[derive(Drop)]
struct Edits<L: Ledger, M: Ledger> {
    pass: Pass<L, M>,
    receipts: Vec<Receipt>,
    undone: Undone,
}

// Recovers the process of a pass, and gives a cell of the first two rows and columns n texts.
fn edit_all<L: Ledger, M: Ledger, R: Wait>(
    rt: &R,
    alloc: Global,
    sheet: &LockedSheet<L, M>,
    mine: &Mutex<Edits<L, M>>,
    cell: usize,
) {
    let mut guard = mine.lock(rt);
    let Edits {
        pass,
        receipts,
        undone,
    } = &mut *guard;
    let cell = Cell {
        column: cell % 2,
        row: cell / 2 % 2,
    };
    let _recovered = sheet.recover(rt, alloc, pass);
    for _ in 0..EDITS {
        if let Ok(text) = Vec::from_slice(alloc, b"=1+2") {
            match sheet.edit(rt, alloc, pass, cell, text) {
                Edited::Done(receipt) => {
                    let _ = receipts.push(receipt);
                }
                Edited::Overtaken { number: _, by: _ } => {
                    undone.overtaken = undone.overtaken.saturating_add(1);
                }
                Edited::Refused(_) | Edited::NotEnabled => {
                    undone.refused = undone.refused.saturating_add(1);
                }
            }
        }
    }
}

// Four threads do, each a cell of its own, or all of them the first one.
fn edit_in_threads<L: Ledger + Send + Sync, M: Ledger + Send + Sync, R: Threads + Wait + Sync>(
    rt: &R,
    alloc: Global,
    sheet: &LockedSheet<L, M>,
    all: &[Mutex<Edits<L, M>>],
    cells: Cells,
) -> usize {
    let count = all.len();
    thread::scope(
        thread::scope_env(),
        rt,
        |scope| -> usize
            requires { length all.now ≡ count }
        {
            let mut started = 0usize;
            for place in 0..count {
                let mine = &all[place];
                let cell = match cells {
                    Cells::Own => place,
                    Cells::First => 0,
                };
                if scope
                    .spawn(move || edit_all(rt, alloc, sheet, mine, cell))
                    .is_ok()
                {
                    started = place + 1;
                }
            }
            started
        },
    )
}

// What an audit finds in receipts, and in lists that are not quite theirs.
#[derive(Clone, Copy, Debug, PartialEq, Eq)]
struct Findings {
    all: Result<u64, AuditFault>,
    one_left_out: Result<u64, AuditFault>,
    one_doubled: Result<u64, AuditFault>,
    one_invented: Result<u64, AuditFault>,
}

// The invented one is the last of process 7, of a text that nobody gave.
fn find_all(alloc: Global, world: &World, receipts: Vec<Receipt>) -> Result<Findings, AllocError> {
    let mut receipts = receipts;
    let all = audit(world, &receipts);
    let one_left_out = match receipts.split_last() {
        Some((_, rest)) => audit(world, rest),
        None => all,
    };
    if let Some(first) = receipts.first() {
        let again = Receipt {
            process: first.process,
            number: first.number,
            cell: first.cell,
            text: Vec::from_slice(alloc, &first.text)?,
        };
        receipts.push(again)?;
    }
    let one_doubled = audit(world, &receipts);
    let _again = receipts.pop();
    receipts.push(Receipt {
        process: 7,
        number: 255,
        cell: Cell { column: 0, row: 0 },
        text: Vec::new(alloc),
    })?;
    let one_invented = audit(world, &receipts);
    Ok(Findings {
        all,
        one_left_out,
        one_doubled,
        one_invented,
    })
}

// Gives passes and receipts back, each pass beside those that are left, and adds up how the other edits ended; whether
// there was room.
fn take_back<L: Ledger, M: Ledger>(
    passes: &mut Vec<Pass<L, M>>,
    receipts: &mut Vec<Receipt>,
    undone: &mut Undone,
    all: Vec<Mutex<Edits<L, M>>>,
) -> bool {
    let mut room = true;
    for mine in all {
        let Edits {
            pass,
            receipts: mut more,
            undone: others,
        } = mine.into_inner();
        undone.overtaken = undone.overtaken.saturating_add(others.overtaken);
        undone.refused = undone.refused.saturating_add(others.refused);
        room = room && passes.push(pass).is_ok() && receipts.append(&mut more).is_ok();
    }
    room
}

// The last four passes, each by itself behind a lock of its own.
fn four_of<L: Ledger, M: Ledger>(
    alloc: Global,
    passes: &mut Vec<Pass<L, M>>,
) -> Option<Vec<Mutex<Edits<L, M>>>> {
    let mut four = Vec::new(alloc);
    for _ in 0..4u8 {
        let pass = passes.pop()?;
        let receipts = Vec::new(alloc);
        let undone = Undone {
            overtaken: 0,
            refused: 0,
        };
        four.push(Mutex::new(Edits {
            pass,
            receipts,
            undone,
        }))
        .ok()?;
    }
    Some(four)
}

// A closed world, the receipts of the edits that were made while it was locked, and how the others ended.
type Made = (World, Vec<Receipt>, Undone);

// Locks a world of eight processes, lets four of them edit these cells, and closes it. `None` where an allocation failed,
// a thread could not be started, or a pass keeps other values than the world.
fn lock_and_edit<L: Ledger + Send + Sync, M: Ledger + Send + Sync, R: Threads + Wait + Sync>(
    rt: &R,
    alloc: Global,
    world: World,
    dones: Blank,
    settleds: Blank,
    cells: Cells,
) -> Option<Made>
    requires names { (dones.name ≡ L.name) × (settleds.name ≡ M.name) }
    requires parts { (dones.parts ≡ L.parts) × (settleds.parts ≡ M.parts) }
    requires processes { (L.parts ≡ world.sheet.layout.processes) × (M.parts ≡ world.sheet.layout.processes) }
    requires eight { (L.parts ≡ 8) × (M.parts ≡ 8) }
{
    let Ok((sheet, mut passes)) = LockedSheet::<L, M>::make(alloc, world, dones, settleds) else {
        return None;
    };
    let four = four_of(alloc, &mut passes)?;
    let started = edit_in_threads(rt, alloc, &sheet, &four, cells);
    let mut receipts = Vec::new(alloc);
    let mut undone = Undone {
        overtaken: 0,
        refused: 0,
    };
    let room = take_back(&mut passes, &mut receipts, &mut undone, four);
    if started != 4 || !room || passes.len() != 8 {
        return None;
    }
    let Closed { world, stray } = sheet.close(passes);
    if stray.is_some() {
        return None;
    }
    Some((world, receipts, undone))
}

// The same check, under two new names.
fn lock<R: Threads + Wait + Sync>(
    rt: &R,
    alloc: Global,
    world: World,
    cells: Cells,
) -> Option<Made> {
    if world.words.layout().processes != 8 {
        return None;
    }
    lock_and_edit::<Brand, Brand, R>(rt, alloc, world, Blank::new(8), Blank::new(8), cells)
}

fn new_world(alloc: Global) -> Option<World> {
    World::new(alloc, Shape::new(2, 2)?, 8).ok()
}

// One locking, and what is found in its receipts.
fn once<R: Threads + Wait + Sync>(rt: &R, alloc: Global) -> Option<Findings> {
    let (world, receipts, _undone) = lock(rt, alloc, new_world(alloc)?, Cells::Own)?;
    find_all(alloc, &world, receipts).ok()
}

// One locking, in which all threads edit one cell: how many edits were done or overtaken, and how many were refused.
fn one_cell<R: Threads + Wait + Sync>(rt: &R, alloc: Global) -> Option<(usize, usize)> {
    let (world, receipts, undone) = lock(rt, alloc, new_world(alloc)?, Cells::First)?;
    if audit(&world, &receipts) != Ok(receipts.len() as u64) {
        return None;
    }
    Some((
        receipts.len().saturating_add(undone.overtaken),
        undone.refused,
    ))
}

// A crash between two lockings, and what is found in the receipts of both.
fn twice<R: Threads + Wait + Sync>(rt: &R, alloc: Global) -> Option<Findings> {
    let (mut world, mut receipts, _first) = lock(rt, alloc, new_world(alloc)?, Cells::Own)?;
    let _crashed = take(alloc, &mut world, &Event::Crash);
    let (world, mut more, _second) = lock(rt, alloc, world, Cells::Own)?;
    receipts.append(&mut more).ok()?;
    find_all(alloc, &world, receipts).ok()
}

// What is to be found in the receipts of that number of edits.
fn wanted(edits: usize) -> Findings {
    Findings {
        all: Ok(edits as u64),
        one_left_out: Err(AuditFault::Count {
            receipts: edits.saturating_sub(1),
            acknowledged: edits as u64,
        }),
        one_doubled: Err(AuditFault::Twice(edits)),
        one_invented: Err(AuditFault::Missing(edits)),
    }
}

#[test]
fn shares_add_up(rt: HostRuntime) -> Result<(), Fail> {
    let alloc = rt.alloc();
    assert_eq!(rt; once(&rt, alloc), Some(wanted(256)));
    Ok(())
}

// An edit that another one overtakes is answered so, and not as one that has not begun.
#[test]
fn one_cell_for_all(rt: HostRuntime) -> Result<(), Fail> {
    let alloc = rt.alloc();
    assert_eq!(rt; one_cell(&rt, alloc), Some((256, 0)));
    Ok(())
}

#[test]
fn a_crash_between_two_lockings(rt: HostRuntime) -> Result<(), Fail> {
    let alloc = rt.alloc();
    assert_eq!(rt; twice(&rt, alloc), Some(wanted(512)));
    Ok(())
}
