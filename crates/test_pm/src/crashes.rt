//! A write is crashed after each of its steps: what recovery says of it.

ghost use Rattle.std.specs.Prelude.{◌≡◌, IfSome};
ghost use Rattle.pm_registers.specs.declared.calls.Doing.TheVariants.{Idle};
ghost use Rattle.pm_board.specs.Views.{Sits};

use pm_board::board::{Board, TableSeat};
use pm_board::fuse::{Steps, Whole};
use pm_registers::calls::{Doing, Response};
use pm_registers::registers::Registers;
use pm_shared::registers::{recover, write};
use std::alloc::Global;
use std::test::Fail;

// A board of one register, and the seat of its process.
fn opened(alloc: Global) -> Option<(Board<Registers>, TableSeat<Doing, Response>)>
    ensures { IfSome result (λ r. (r.0.key ≡ 1) × (r.1.table_id ≡ r.0.table.shared.table_id) × Sits r.1.me 0 (Idle 0)) }
{
    let (board, mut rest) = Board::<Registers>::make(alloc, 1).ok()?;
    let place = board.deal(&mut rest, 0, false);
    Some((board, place))
}

// A write of 7 that is broken off after this many steps, and a crash, before which both words were evicted or neither:
// what a recovery says then.
fn recalled(alloc: Global, steps: u64, evicted: bool) -> Option<Response> {
    let (board, mut place) = opened(alloc)?;
    let mut fuse = Steps { left: steps };
    let _done = write(&board, &mut place, 0, 0, 7, &mut fuse);
    let mut closed = board.close(place);
    closed.crash_with(&[evicted, evicted]);
    match closed.reopen(alloc) {
        Ok((board, mut rest)) => {
            let mut place = board.deal(&mut rest, 0, true);
            let returned = recover(&board, &mut place, 0, &mut Whole);
            board.close(place).free();
            returned
        }
        Err(closed) => {
            closed.free();
            None
        }
    }
}

// Nothing was announced, or 7 was and the register does not have it, or it has.
const NOTHING: Option<Response> = Some(Response::Recalled(0, true));

const NOT_DONE: Option<Response> = Some(Response::Recalled(7, false));

const DONE: Option<Response> = Some(Response::Recalled(7, true));

#[test]
fn a_crash_leaves_what_was_persisted(rt: HostRuntime) -> Result<(), Fail> {
    for steps in 0..8 {
        let wanted = if steps < 3 {
            NOTHING
        } else if steps < 7 {
            NOT_DONE
        } else {
            DONE
        };
        assert_eq!(rt; recalled(rt.alloc(), steps, false), wanted);
    }
    Ok(())
}

#[test]
fn a_crash_after_evictions_leaves_what_was_cached(rt: HostRuntime) -> Result<(), Fail> {
    for steps in 0..8 {
        let wanted = if steps < 1 {
            NOTHING
        } else if steps < 5 {
            NOT_DONE
        } else {
            DONE
        };
        assert_eq!(rt; recalled(rt.alloc(), steps, true), wanted);
    }
    Ok(())
}
