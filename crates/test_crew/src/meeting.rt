//! Three workers evaluate at once, one of which first recovers its process.

ghost use Rattle.std.specs.Prelude.{◌≡◌};

use ds_core::event::Event;
use ds_core::take::take;
use ds_crew::ended::Reported;
use ds_crew::locked::LockedSheet;
use ds_crew::pass::Pass;
use ds_crew::workers::{Gate, work_all};
use ds_eval::value::Value;
use ds_formula::cells::{Cell, Shape};
use ds_state::world::World;
use std::alloc::{AllocError, Global};
use std::marker::Brand;
use std::sync::Wait;
use std::sync::atomic::{AtomicU64, Ordering};
use std::sync::ledger::{Blank, Ledger};
use std::test::Fail;
use std::thread;
use std::thread::Threads;

// How often an evaluation looks for the others.
const TURNS: u64 = 10_000_000;

// Holds each evaluation until three go on at once.
#[derive(Drop)]
struct Meet {
    inside: AtomicU64,
    met: AtomicU64,
}

impl Gate for Meet {
    fn before(&self, _process: usize, _cell: Cell) {
        self.inside.fetch_add(1, Ordering::SeqCst);
        for _ in 0..TURNS {
            if self.inside.load(Ordering::SeqCst) >= 3 {
                self.met.store(1, Ordering::SeqCst);
            }
            if self.met.load(Ordering::SeqCst) == 1 {
                return;
            }
            thread::yield_now();
        }
    }

    fn after(&self, _process: usize, _cell: Cell) {
        self.inside.fetch_sub(1, Ordering::SeqCst);
    }
}

// What came of three workers on three cells.
#[derive(Clone, Copy, Debug, PartialEq, Eq)]
struct Seen {
    met: u64,
    shown: Reported,
    values: [Value; 4],
}

// The values that a pass keeps of a sheet of four cells.
fn values<L: Ledger, M: Ledger>(pass: &Pass<L, M>) -> [Value; 4] {
    let mut values = [Value::Blank; 4];
    let last = pass.last();
    for place in 0..4 {
        if place < last.len() {
            values[place] = last[place];
        }
    }
    values
}

// Edits the last three of four cells, lets workers go round, and reports.
fn run_all<L: Ledger + Send + Sync, M: Ledger + Send + Sync, R: Threads + Wait + Sync>(
    rt: &R,
    alloc: Global,
    world: World,
    dones: Blank,
    settleds: Blank,
) -> Result<Option<Seen>, AllocError>
    requires names { (dones.name ≡ L.name) × (settleds.name ≡ M.name) }
    requires parts { (dones.parts ≡ L.parts) × (settleds.parts ≡ M.parts) }
    requires processes { (L.parts ≡ world.sheet.layout.processes) × (M.parts ≡ world.sheet.layout.processes) }
{
    let Ok((sheet, mut passes)) = LockedSheet::<L, M>::make(alloc, world, dones, settleds) else {
        return Ok(None);
    };
    let shape = sheet.layout().shape;
    if passes.is_empty() || shape.count() != 4 {
        return Ok(None);
    }
    for index in 1..4usize {
        let text = Vec::from_slice(alloc, b"=1+1")?;
        let _edited = sheet.edit(rt, alloc, &mut passes[0], shape.cell(index), text);
    }
    let gate = Meet {
        inside: AtomicU64::new(0),
        met: AtomicU64::new(0),
    };
    work_all(rt, alloc, &sheet, &mut passes, &gate, 2);
    let shown = sheet.show(rt, alloc, &mut passes[0]);
    Ok(Some(Seen {
        met: gate.met.load(Ordering::SeqCst),
        shown,
        values: values(&passes[0]),
    }))
}

#[test]
fn three_evaluations_meet(rt: HostRuntime) -> Result<(), Fail> {
    let alloc = rt.alloc();
    let Some(shape) = Shape::new(2, 2) else {
        return Err(Fail::from("no shape"));
    };
    let mut world = World::new(alloc, shape, 3)?;
    let _stopped = take(alloc, &mut world, &Event::Stop(2));
    if world.words.layout().processes != 3 {
        return Err(Fail::from("another number of processes"));
    }
    let seen = run_all::<Brand, Brand, _>(&rt, alloc, world, Blank::new(3), Blank::new(3))?;
    let wanted = Seen {
        met: 1,
        shown: Reported::Settled,
        values: [
            Value::Blank,
            Value::Number(2),
            Value::Number(2),
            Value::Number(2),
        ],
    };
    assert_eq!(rt; seen, Some(wanted));
    Ok(())
}
