//! An edit is crashed after each of its steps: what recovery says of it.

ghost use Rattle.std.specs.Prelude.{◌≡◌, IfSome};
ghost use Rattle.ds_state.specs.declared.situation.Situation.TheVariants.{Idle};
ghost use Rattle.ds_structure.specs.Calls.{second_rest};
ghost use Rattle.pm_board.specs.Views.{Sits};

use ds_edit::begin::prepared;
use ds_formula::cells::{Cell, Shape};
use ds_layout::layout::Layout;
use ds_layout::place::Edition;
use ds_recover::begin::fresh;
use ds_state::answer::EditEnd;
use ds_state::recovery::{LastEdit, RecoveryEnd};
use ds_state::situation::Rest;
use ds_structure::sheet::Sheet;
use ds_structure_shared::board::make;
use ds_structure_shared::calls::{SheetSeat, edit, recover};
use pm_board::board::Board;
use pm_board::fuse::{Steps, Whole};
use std::alloc::Global;
use std::test::Fail;

// A board of a sheet of one cell for one process, and the seat of that.
fn opened(alloc: Global) -> Option<(Board<Sheet>, SheetSeat)>
    ensures processes { IfSome result (λ r. r.0.key.layout.processes ≡ 1) }
    ensures seat { IfSome result (λ r. (r.1.table_id ≡ r.0.table.shared.table_id) × Sits r.1.me 0 (Idle (second_rest 0))) }
{
    let layout = Layout::new(Shape::new(1, 1)?, 1)?;
    let (board, mut rest) = make(alloc, layout).ok()?;
    let place = board.deal(&mut rest, 0, false);
    Some((board, place))
}

// An edit of A1 to 7 that is broken off after this many steps, and a crash, before which all words were evicted or none:
// how it ended, and what a recovery says then.
fn recalled(
    alloc: Global,
    steps: u64,
    evicted: bool,
) -> Option<(Option<EditEnd>, Option<RecoveryEnd>)> {
    let (board, mut place) = opened(alloc)?;
    let next = Rest {
        number: 0,
        edition: Edition::Second,
    };
    let cell = board.key.layout.shape.named(b"A1")?;
    let Ok((mut call, _content)) = prepared(alloc, &board.key.layout, 0, next, cell, b"7") else {
        return None;
    };
    let mut fuse = Steps { left: steps };
    let edited = edit(&board, &mut place, &mut call, &mut fuse);
    let count = board.key.layout.words();
    let choice: Vec<bool, Global> = match vec![in alloc; evicted; count] {
        Ok(choice) => choice,
        Err(_) => return None,
    };
    let mut closed = board.close(place);
    closed.crash_with(choice.as_slice());
    match closed.reopen(alloc) {
        Ok((board, mut rest)) => {
            let mut place = board.deal(&mut rest, 0, true);
            let mut call = fresh(&board.key.layout, 0);
            let returned = recover(&board, &mut place, &mut call, &mut Whole);
            board.close(place).free();
            Some((edited, returned))
        }
        Err(closed) => {
            closed.free();
            None
        }
    }
}

// What it says where the edit is announced for good after `announced` steps, and has taken effect for good after `done`.
fn resolved(steps: u64, announced: u64, done: u64) -> Option<RecoveryEnd> {
    if steps < announced {
        return Some(RecoveryEnd::Nothing);
    }
    Some(RecoveryEnd::Last(LastEdit {
        number: 0,
        cell: 0,
        counts: steps >= done,
    }))
}

#[test]
fn edits_are_resolved(rt: HostRuntime) -> Result<(), Fail> {
    for steps in 0..20u64 {
        let Some((edited, told)) = recalled(rt.alloc(), steps, false) else {
            return Err(Fail::new("memory is wanting"));
        };
        assert_eq!(rt; edited == Some(EditEnd::Done(0)), steps == 19);
        assert_eq!(rt; told, resolved(steps, 9, 13));
        let Some((_edited, told)) = recalled(rt.alloc(), steps, true) else {
            return Err(Fail::new("memory is wanting"));
        };
        assert_eq!(rt; told, resolved(steps, 7, 11));
    }
    Ok(())
}
