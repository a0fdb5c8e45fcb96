// How many edits are linearized, how many were answered Done, and how many reports were settled.

use crate::row::{Action, RunRow, play_on};
use crate::sheet::{A1, A2, B1, small};
use ds_core::reply::Reply;
use ds_layout::place::Place;
use ds_state::answer::{Answer, EditEnd, Other};
use ds_state::recovery::{LastEdit, RecoveryEnd};
use ds_state::show::ShowEnd;
use ds_state::work::WorkEnd;
use std::test::Fail;

// The edit of process 0 is not linearized: edit 0 of process 1 took the place that it had noted.
const OVERTAKEN: Reply = Reply::Answered(Answer::Edit(EditEnd::Overtaken(
    0,
    Other {
        process: 1,
        number: 0,
    },
)));

// An edit that overtakes another one; a report that is not settled, and one that is; a head that only the cached side
// has, lost, and helped by the next edit of the cell.
const COUNTS: [RunRow; 39] = [
    RunRow::Event(Action::Edit(0, A1, "1"), Reply::Begun(0)),
    RunRow::Steps(0, 10, Reply::Stepped),
    RunRow::Event(Action::Edit(1, A1, "2"), Reply::Begun(0)),
    RunRow::Steps(1, 20, Reply::Answered(Answer::Edit(EditEnd::Done(0)))),
    RunRow::Steps(0, 5, OVERTAKEN),
    RunRow::Counted(1),
    RunRow::Done(1),
    RunRow::Event(Action::Show(0), Reply::Entered),
    RunRow::End(0, Answer::Show(ShowEnd::Unsettled(Place::Mark(0), 1))),
    RunRow::Reports(0),
    RunRow::Event(Action::Work(0, A1), Reply::Entered),
    RunRow::End(0, Answer::Work(WorkEnd::Published(true))),
    RunRow::Event(Action::Show(1), Reply::Entered),
    RunRow::End(1, Answer::Show(ShowEnd::Settled)),
    RunRow::Reports(1),
    RunRow::Event(Action::Edit(0, B1, "3"), Reply::Begun(1)),
    RunRow::Steps(0, 11, Reply::Stepped),
    RunRow::Counted(2),
    RunRow::Done(1),
    RunRow::Event(Action::Crash, Reply::Crashed),
    RunRow::Counted(1),
    RunRow::Event(Action::Recover(0), Reply::Entered),
    RunRow::End(
        0,
        Answer::Recovery(RecoveryEnd::Last(LastEdit {
            number: 1,
            cell: 1,
            counts: false,
        })),
    ),
    RunRow::Event(Action::Recover(1), Reply::Entered),
    RunRow::End(
        1,
        Answer::Recovery(RecoveryEnd::Last(LastEdit {
            number: 0,
            cell: 0,
            counts: true,
        })),
    ),
    RunRow::Event(Action::Edit(0, A2, "4"), Reply::Begun(2)),
    RunRow::Steps(0, 11, Reply::Stepped),
    RunRow::Event(Action::Edit(1, A2, "5"), Reply::Begun(1)),
    RunRow::End(1, Answer::Edit(EditEnd::Done(1))),
    RunRow::Event(Action::Crash, Reply::Crashed),
    RunRow::Event(Action::Recover(0), Reply::Entered),
    RunRow::End(
        0,
        Answer::Recovery(RecoveryEnd::Last(LastEdit {
            number: 2,
            cell: 2,
            counts: true,
        })),
    ),
    RunRow::Counted(3),
    RunRow::Done(2),
    RunRow::Reports(1),
    RunRow::Event(Action::Edit(0, A1, ""), Reply::Begun(3)),
    RunRow::End(0, Answer::Edit(EditEnd::Done(3))),
    RunRow::Counted(4),
    RunRow::Done(3),
];

#[test]
fn counts(rt: HostRuntime) -> Result<(), Fail> {
    let mut world = small(rt.alloc())?;
    play_on(rt.alloc(), &mut world, &COUNTS)
}
