// Rows that are not true of a new sheet: each is found out.

use crate::mismatch::Mismatch;
use crate::row::{Action, RunRow, carry_out};
use crate::sheet::{A1, small};
use ds_core::reply::Reply;
use ds_state::answer::Answer;
use ds_state::work::WorkEnd;
use std::alloc::Global;
use std::test::Fail;

const FALSE_ROWS: [(RunRow, Mismatch); 9] = [
    (
        RunRow::Event(Action::Step(0), Reply::Stepped),
        Mismatch::Replied(Reply::NotEnabled),
    ),
    (
        RunRow::Event(Action::Edit(0, A1, "1"), Reply::Begun(1)),
        Mismatch::Replied(Reply::Begun(0)),
    ),
    (
        RunRow::Event(Action::Offer(0), Reply::Stepped),
        Mismatch::NoTask,
    ),
    (
        RunRow::Steps(0, 1, Reply::Stepped),
        Mismatch::Replied(Reply::NotEnabled),
    ),
    (
        RunRow::Steps(0, 2, Reply::NotEnabled),
        Mismatch::Replied(Reply::NotEnabled),
    ),
    (
        RunRow::End(0, Answer::Work(WorkEnd::NotDirty)),
        Mismatch::Replied(Reply::NotEnabled),
    ),
    (RunRow::Counted(1), Mismatch::Edits(0)),
    (RunRow::Done(1), Mismatch::Answers(0)),
    (RunRow::Reports(1), Mismatch::Answers(0)),
];

// What is found where a row is not true of a new sheet.
fn found(alloc: Global, row: RunRow) -> Result<Option<Mismatch>, Fail> {
    let mut world = small(alloc)?;
    Ok(carry_out(alloc, &mut world, row).err())
}

#[test]
fn false_rows(rt: HostRuntime) -> Result<(), Fail> {
    for (row, mismatch) in FALSE_ROWS {
        assert_eq!(rt; found(rt.alloc(), row)?, Some(mismatch), "{row:?}");
    }
    Ok(())
}
