//! Two threads share registers, and two a mark.

ghost use Rattle.std.specs.Prelude.{◌≡◌, ◌<◌, ◌^◌, IfSome};
ghost use Rattle.pm_mark.specs.declared.mark.Doing.TheVariants as marks;
ghost use Rattle.pm_registers.specs.declared.calls.Doing.TheVariants.{Idle};
ghost use Rattle.pm_board.specs.Views.{RunsOne, Sits};

use pm_board::board::{Board, TableSeat};
use pm_board::fuse::Whole;
use pm_mark::mark;
use pm_mark::mark::Mark;
use pm_registers::calls::{Doing, Response};
use pm_registers::registers::Registers;
use pm_shared::mark::raise;
use pm_shared::registers::write;
use std::alloc::Global;
use std::test::Fail;
use std::thread::{Threads, join};

// How many values each thread writes or raises.
const VALUES: u64 = 100;

// A board of two registers, and the seats of its processes.
fn registers(
    alloc: Global,
) -> Option<
    (
        Board<Registers>,
        TableSeat<Doing, Response>,
        TableSeat<Doing, Response>,
    ),
>
    ensures { IfSome result (λ r. (r.0.key ≡ 2) × (r.1.table_id ≡ r.0.table.shared.table_id) × Sits r.1.me 0 (Idle 0) × (r.2.table_id ≡ r.0.table.shared.table_id) × Sits r.2.me 1 (Idle 0)) }
{
    let (board, mut rest) = Board::<Registers>::make(alloc, 2).ok()?;
    let first = board.deal(&mut rest, 0, false);
    let second = board.deal(&mut rest, 1, false);
    Some((board, first, second))
}

// A process writes value after value: its seat, and the last one that it wrote.
fn write_all(
    board: &Board<Registers>,
    mut place: TableSeat<Doing, Response>,
    process: usize,
) -> (TableSeat<Doing, Response>, u64)
    requires table { place.table_id ≡ board.now.table.shared.table_id }
    requires sits { Sits place.me process (Idle 0) }
    requires low { (process < board.now.key) × (board.now.key < 2 ^ 32) }
    ensures { (result.0.table_id ≡ board.now.table.shared.table_id) × RunsOne result.0.me process }
{
    for last in 0..VALUES {
        if !write(board, &mut place, process, last, last + 1, &mut Whole) {
            return (place, last);
        }
    }
    (place, VALUES)
}

// A board of a mark and two processes, and their seats.
fn marks(
    alloc: Global,
) -> Option<
    (
        Board<Mark>,
        TableSeat<mark::Doing, u64>,
        TableSeat<mark::Doing, u64>,
    ),
>
    ensures { IfSome result (λ r. (r.0.key ≡ 2) × (r.1.table_id ≡ r.0.table.shared.table_id) × Sits r.1.me 0 marks.Idle × (r.2.table_id ≡ r.0.table.shared.table_id) × Sits r.2.me 1 marks.Idle) }
{
    let (board, mut rest) = Board::<Mark>::make(alloc, 2).ok()?;
    let first = board.deal(&mut rest, 0, false);
    let second = board.deal(&mut rest, 1, false);
    Some((board, first, second))
}

// A process raises the mark to value after value: its seat, and the last one of which it was answered that it is up.
fn raise_all(
    board: &Board<Mark>,
    mut place: TableSeat<mark::Doing, u64>,
    process: usize,
) -> (TableSeat<mark::Doing, u64>, u64)
    requires table { place.table_id ≡ board.now.table.shared.table_id }
    requires sits { Sits place.me process marks.Idle }
    ensures { (result.0.table_id ≡ board.now.table.shared.table_id) × RunsOne result.0.me process }
{
    let mut up = 0;
    for last in 0..VALUES {
        match raise(board, &mut place, process, last + 1, &mut Whole) {
            Some(true) => up = last + 1,
            Some(false) => {}
            None => return (place, up),
        }
    }
    (place, up)
}

#[test]
fn two_threads_share_registers(rt: HostRuntime) -> Result<(), Fail> {
    let Some((board, first, second)) = registers(rt.alloc()) else {
        return Err(Fail::new("out of memory"));
    };
    let ((mut first, one), (second, two)) = join(
        &rt,
        || -> (TableSeat<Doing, Response>, u64)
            requires { (first.table_id ≡ board.table.shared.table_id) × Sits first.me 0 (Idle 0) × (board.key ≡ 2) }
            ensures { (result.0.table_id ≡ board.table.shared.table_id) × RunsOne result.0.me 0 }
        { write_all(&board, first, 0) },
        || -> (TableSeat<Doing, Response>, u64)
            requires { (second.table_id ≡ board.table.shared.table_id) × Sits second.me 1 (Idle 0) × (board.key ≡ 2) }
            ensures { (result.0.table_id ≡ board.table.shared.table_id) × RunsOne result.0.me 1 }
        { write_all(&board, second, 1) },
    );
    board.join(&mut first, second);
    let closed = board.close(first);
    let head = closed.persisted(1);
    let other = closed.persisted(3);
    closed.free();
    assert_eq!(rt; one, VALUES);
    assert_eq!(rt; two, VALUES);
    assert_eq!(rt; head, VALUES);
    assert_eq!(rt; other, VALUES);
    Ok(())
}

#[test]
fn two_threads_share_a_mark(rt: HostRuntime) -> Result<(), Fail> {
    let Some((board, first, second)) = marks(rt.alloc()) else {
        return Err(Fail::new("out of memory"));
    };
    let ((mut first, one), (second, two)) = join(
        &rt,
        || -> (TableSeat<mark::Doing, u64>, u64)
            requires { (first.table_id ≡ board.table.shared.table_id) × Sits first.me 0 marks.Idle }
            ensures { (result.0.table_id ≡ board.table.shared.table_id) × RunsOne result.0.me 0 }
        { raise_all(&board, first, 0) },
        || -> (TableSeat<mark::Doing, u64>, u64)
            requires { (second.table_id ≡ board.table.shared.table_id) × Sits second.me 1 marks.Idle }
            ensures { (result.0.table_id ≡ board.table.shared.table_id) × RunsOne result.0.me 1 }
        { raise_all(&board, second, 1) },
    );
    board.join(&mut first, second);
    let closed = board.close(first);
    let mark = closed.persisted(0);
    closed.free();
    assert_eq!(rt; mark >= one, true);
    assert_eq!(rt; mark >= two, true);
    assert_eq!(rt; mark <= VALUES, true);
    Ok(())
}
