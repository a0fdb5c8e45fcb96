//! How calls of a locked sheet end.

use ds_formula::cells::Cell;
use ds_layout::place::Place;
use ds_state::answer::Other;
use ds_state::recovery::LastEdit;
use ds_state::refusal::Refusal;
use ds_state::work::WorkEnd;
use std::marker::Model;

/// That an edit was answered Done.
#[derive(Debug, Drop)]
pub struct Receipt {
    /// The process that ran it.
    pub process: usize,
    /// Which edit of the process it is, from 0.
    pub number: usize,
    /// The cell.
    pub cell: Cell,
    /// What the cell was given.
    pub text: Vec<u8>,
}

impl Model for Receipt {
    ghost use Rattle.ds_crew.specs.Receipts.{PlainReceipt};

    ghost Value = { PlainReceipt };

    ghost view = { λ r. record { process = r.process; number = r.number; cell = r.cell; text = r.text.items } };
}

/// How an edit ended.
#[derive(Debug, Drop)]
pub enum Edited {
    /// It counts, and no crash takes it.
    Done(Receipt),
    /// It does not count, and its number is spent: another edit stood in its place.
    Overtaken {
        /// Which edit of its process it is, from 0.
        number: usize,
        /// The edit that stood there.
        by: Other,
    },
    /// It has not begun, for this cause. The sheet is unchanged.
    Refused(Refusal),
    /// The sheet has no such process or cell. The sheet is unchanged.
    NotEnabled,
}

/// How work on a cell ended.
#[derive(Clone, Copy, Debug, PartialEq, Eq)]
pub enum Worked {
    /// It was answered so. `NoMemory` is also the answer where its task could not be copied: then its
    /// process is stopped, and its cell is held until the process recovers.
    Ended(WorkEnd),
    /// It has not begun, for this cause. The sheet is unchanged.
    Refused(Refusal),
    /// The sheet has no such process or cell. The sheet is unchanged.
    NotEnabled,
}

/// How a show ended.
#[derive(Clone, Copy, Debug, PartialEq, Eq)]
pub enum Reported {
    /// Its values are those of one moment. The pass keeps them as its last ones.
    Settled,
    /// This mark or announcement, whose word it saw, was not at rest.
    Unsettled(Place, u64),
    /// It has not begun, for this cause. The sheet is unchanged.
    Refused(Refusal),
    /// The sheet has no such process. The sheet is unchanged.
    NotEnabled,
}

/// How a recovery ended.
#[derive(Clone, Copy, Debug, PartialEq, Eq)]
pub enum Recovered {
    /// The process's last edit that was announced ended so.
    Last(LastEdit),
    /// The process has announced no edit.
    Nothing,
    /// It has not begun, for this cause: `Busy`, where the process is in a call or migrates the sheet; else
    /// `Migrating`, where another process migrates it, with that process. The sheet is unchanged.
    Refused(Refusal),
    /// The sheet has no such process. The sheet is unchanged.
    NotEnabled,
}
