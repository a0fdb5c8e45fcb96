//! What C gets of a call: replies and values as rows of numbers.

ghost use Rattle.std.specs.Prelude.{◌≡◌};
ghost use Rattle.ds_state.specs.declared.answer.Answer.TheVariants.{Edit, Work, Show, Recovery, Migration};
ghost use Rattle.ds_c.specs.Answers.{answer_row, unsettled_row, reply_row, refusal_row, result_row, settle_row, ended_row, plain_row, fault_number};

use crate::answer_kind::AnswerKind;
use ds_calls::settle::SettleEnd;
use ds_core::ends::CallEnd;
use ds_core::reply::Reply;
use ds_formula::fault::FaultKind;
use ds_layout::place::Place;
use ds_shared::ended::Ended;
use ds_state::answer::{Answer, EditEnd};
use ds_state::migration::MigrateEnd;
use ds_state::recovery::RecoveryEnd;
use ds_state::refusal::Refusal;
use ds_state::show::ShowEnd;
use ds_state::work::WorkEnd;

/// What was replied to an event, or answered by a call. `kind` says which; fields that it does not use are 0.
#[repr(C)]
#[derive(Clone, Copy, Debug, PartialEq, Eq)]
pub struct AnswerRow {
    /// Which reply or answer it is: the number of an `AnswerKind`.
    pub kind: u32,
    /// Why the call is refused: 1 for the text, 2 busy, 3 stopped, 4 for want of records, 5 of memory.
    pub cause: u32,
    /// What is wrong with a text: the number of its kind of fault, from 1.
    pub fault: u32,
    /// Whether the edit counts, or whether the value has changed: 1 or 0. It is no `bool`, since a row of the caller's
    /// may have any bytes.
    pub holds: u32,
    /// The number of an edit, from 0; of a text's fault, its offset in bytes; of a settle, how many cells are left.
    pub number: usize,
    /// A process.
    pub process: usize,
    /// The number of an edit of that process.
    pub other: usize,
    /// A cell, by its number.
    pub cell: usize,
    /// The word that a report saw.
    pub seen: u64,
}

const BLANK: AnswerRow = AnswerRow {
    kind: 0,
    cause: 0,
    fault: 0,
    holds: 0,
    number: 0,
    process: 0,
    other: 0,
    cell: 0,
    seen: 0,
};

// The number of a kind of fault: from 1 on, in the order of the variants.
fn fault_number(kind: FaultKind) -> u32
    ensures { result ≡ fault_number kind }
{
    match kind {
        FaultKind::TooLong => 1,
        FaultKind::BadToken => 2,
        FaultKind::NotWhole => 3,
        FaultKind::NumberTooLarge => 4,
        FaultKind::UnknownFunction => 5,
        FaultKind::WrongArguments => 6,
        FaultKind::OutsideSheet => 7,
        FaultKind::RangeNotAllowed => 8,
        FaultKind::TooDeep => 9,
        FaultKind::Unfinished => 10,
        FaultKind::NoMemory => 11,
    }
}

impl AnswerRow {
    // A row of this kind alone.
    fn plain(kind: AnswerKind) -> AnswerRow
        ensures { result ≡ plain_row kind }
    {
        AnswerRow {
            kind: kind.number(),
            ..BLANK
        }
    }

    /// The row of a refusal.
    pub fn of_refusal(refusal: Refusal) -> AnswerRow
        ensures { result ≡ refusal_row refusal }
    {
        let row = AnswerRow::plain(AnswerKind::Refused);
        match refusal {
            Refusal::Text(fault) => AnswerRow {
                cause: 1,
                fault: fault_number(fault.kind),
                number: fault.offset,
                ..row
            },
            Refusal::Busy => AnswerRow { cause: 2, ..row },
            Refusal::Stopped => AnswerRow { cause: 3, ..row },
            Refusal::RecordsFull => AnswerRow { cause: 4, ..row },
            Refusal::NoMemory => AnswerRow { cause: 5, ..row },
            Refusal::Migrating(process) => AnswerRow {
                cause: 6,
                process,
                ..row
            },
            Refusal::NotStopped(process) => AnswerRow {
                cause: 7,
                process,
                ..row
            },
        }
    }

    // The row of how an edit ended.
    fn of_edit(end: EditEnd) -> AnswerRow
        ensures { result ≡ answer_row (Edit end) }
    {
        match end {
            EditEnd::Done(number) => AnswerRow {
                number,
                ..AnswerRow::plain(AnswerKind::Done)
            },
            EditEnd::Overtaken(number, other) => AnswerRow {
                number,
                process: other.process,
                other: other.number,
                ..AnswerRow::plain(AnswerKind::Overtaken)
            },
        }
    }

    // The row of how a work ended.
    fn of_work(end: WorkEnd) -> AnswerRow
        ensures { result ≡ answer_row (Work end) }
    {
        match end {
            WorkEnd::NotDirty => AnswerRow::plain(AnswerKind::NotDirty),
            WorkEnd::Missed => AnswerRow::plain(AnswerKind::Missed),
            WorkEnd::Worn => AnswerRow::plain(AnswerKind::Worn),
            WorkEnd::Published(changed) => AnswerRow {
                holds: changed as u32,
                ..AnswerRow::plain(AnswerKind::Published)
            },
            WorkEnd::Again => AnswerRow::plain(AnswerKind::Again),
            WorkEnd::NoMemory => AnswerRow::plain(AnswerKind::NoMemory),
        }
    }

    // The row of what a report saw that was not at rest.
    fn of_unsettled(place: Place, seen: u64) -> AnswerRow
        ensures { result ≡ unsettled_row place seen }
    {
        match place {
            Place::Mark(cell) => AnswerRow {
                cell,
                seen,
                ..AnswerRow::plain(AnswerKind::UnsettledMark)
            },
            Place::Announce(process) => AnswerRow {
                process,
                seen,
                ..AnswerRow::plain(AnswerKind::UnsettledAnnouncement)
            },
            _ => AnswerRow::plain(AnswerKind::UnsettledWord),
        }
    }

    // The row of how a report ended.
    fn of_show(end: ShowEnd) -> AnswerRow
        ensures { result ≡ answer_row (Show end) }
    {
        match end {
            ShowEnd::Settled => AnswerRow::plain(AnswerKind::Settled),
            ShowEnd::Unsettled(place, seen) => AnswerRow::of_unsettled(place, seen),
        }
    }

    // The row of how a recovery ended.
    fn of_recovery(end: RecoveryEnd) -> AnswerRow
        ensures { result ≡ answer_row (Recovery end) }
    {
        match end {
            RecoveryEnd::Last(told) => AnswerRow {
                number: told.number,
                cell: told.cell,
                holds: told.counts as u32,
                ..AnswerRow::plain(AnswerKind::Last)
            },
            RecoveryEnd::Nothing => AnswerRow::plain(AnswerKind::Nothing),
        }
    }

    // The row of how a migration ended.
    fn of_migration(end: MigrateEnd) -> AnswerRow
        ensures { result ≡ answer_row (Migration end) }
    {
        match end {
            MigrateEnd::Migrated => AnswerRow::plain(AnswerKind::Migrated),
            MigrateEnd::Already => AnswerRow::plain(AnswerKind::Already),
        }
    }

    /// The row of an answer.
    pub fn of_answer(answer: Answer) -> AnswerRow
        ensures { result ≡ answer_row answer }
    {
        match answer {
            Answer::Edit(end) => AnswerRow::of_edit(end),
            Answer::Work(end) => AnswerRow::of_work(end),
            Answer::Show(end) => AnswerRow::of_show(end),
            Answer::Recovery(end) => AnswerRow::of_recovery(end),
            Answer::Migration(end) => AnswerRow::of_migration(end),
        }
    }

    /// The row of a reply to an event.
    pub fn of_reply(reply: Reply) -> AnswerRow
        ensures { result ≡ reply_row reply }
    {
        match reply {
            Reply::Begun(number) => AnswerRow {
                number,
                ..AnswerRow::plain(AnswerKind::Begun)
            },
            Reply::Entered => AnswerRow::plain(AnswerKind::Entered),
            Reply::Refused(refusal) => AnswerRow::of_refusal(refusal),
            Reply::Stepped => AnswerRow::plain(AnswerKind::Stepped),
            Reply::Answered(answer) => AnswerRow::of_answer(answer),
            Reply::WrongTask => AnswerRow::plain(AnswerKind::WrongTask),
            Reply::Evicted => AnswerRow::plain(AnswerKind::Evicted),
            Reply::Stopped => AnswerRow::plain(AnswerKind::Stopped),
            Reply::Crashed => AnswerRow::plain(AnswerKind::Crashed),
            Reply::NotEnabled => AnswerRow::plain(AnswerKind::NotEnabled),
        }
    }

    /// The row of what a whole call came to.
    pub fn of_result<E: CallEnd>(ended: Result<E, Refusal>) -> AnswerRow
        ensures { result ≡ result_row E.kind.answer ended }
    {
        match ended {
            Ok(end) => AnswerRow::of_answer(end.answer()),
            Err(refusal) => AnswerRow::of_refusal(refusal),
        }
    }

    /// The row of how a call on a sheet that threads share ended.
    pub fn of_ended<E: CallEnd>(ended: Ended<E>) -> AnswerRow
        ensures { result ≡ ended_row E.kind.answer ended }
    {
        match ended {
            Ended::Answered(end) => AnswerRow::of_answer(end.answer()),
            Ended::Refused(refusal) => AnswerRow::of_refusal(refusal),
            Ended::Stopped => AnswerRow::plain(AnswerKind::Stopped),
        }
    }

    /// The row of how a settle ended.
    pub fn of_settle(end: SettleEnd) -> AnswerRow
        ensures { result ≡ settle_row end }
    {
        match end {
            SettleEnd::Left(cells) => AnswerRow {
                number: cells,
                ..AnswerRow::plain(AnswerKind::Left)
            },
            SettleEnd::Refused(refusal) => AnswerRow::of_refusal(refusal),
            SettleEnd::NoMemory => AnswerRow::plain(AnswerKind::NoMemory),
        }
    }
}
