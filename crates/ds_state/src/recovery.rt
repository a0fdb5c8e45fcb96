//! A recovery under way.

ghost use Rattle.std.specs.Prelude.{◌≡◌};

use crate::row::IndexRow;
use crate::spread::Spread;
use ds_layout::place::Edition;
use std::marker::Model;

/// What a recovery reports of an edit of its process.
#[derive(Clone, Copy, Debug, PartialEq, Eq)]
pub struct LastEdit {
    /// Which edit of the process it is, from 0.
    pub number: usize,
    /// The cell of the edit, by its number.
    pub cell: usize,
    /// Whether it is linearized.
    pub counts: bool,
}

/// How a recovery ended.
#[derive(Clone, Copy, Debug, PartialEq, Eq)]
pub enum RecoveryEnd {
    /// The process has announced no edit.
    Nothing,
    /// The process's last edit that it announced ended so.
    Last(LastEdit),
}

/// What a recovery does next.
#[derive(Clone, Copy, Debug, PartialEq, Eq)]
pub enum RecoverStage {
    /// Load the version's word.
    LoadVersion,
    /// Flush it.
    FlushVersion,
    /// Write that back.
    BackVersion,
    /// Load a cell's mark.
    LoadMark(usize),
    /// Flush the value of a held cell.
    FlushValue(usize),
    /// Flush its kind.
    FlushKind(usize),
    /// Write the value back.
    BackValue(usize),
    /// Write the kind back.
    BackKind(usize),
    /// Mark the cells that refer to it.
    Telling(usize, Spread),
    /// Give it back, dirty.
    Give(usize),
    /// Give it back, dirty, since it was marked meanwhile.
    GiveDirty(usize),
    /// Flush the mark.
    FlushGiven(usize),
    /// Write that back.
    BackGiven(usize),
    /// Load the announcement.
    LoadAnnounce,
    /// Load the header of its record.
    LoadHeader,
    /// Load the head of its cell.
    LoadHead,
    /// Flush the head.
    FlushHead,
    /// Write that back.
    BackHead,
    /// Load the done bit.
    LoadDone,
    /// Mark the cell.
    OrMark(bool),
    /// Flush the mark.
    FlushMark(bool),
    /// Write that back.
    BackMark(bool),
    /// Announce how the edit ended.
    StoreOutcome(bool),
    /// Flush that.
    FlushOutcome(bool),
    /// Write that back.
    BackOutcome(bool),
    /// Answer: nothing, or how the last edit ended.
    Answer(Option<bool>),
}

/// A recovery under way. The numbers of its stage are those of its sheet.
#[derive(Debug, Drop)]
pub struct RecoverCall {
    /// The process that runs it.
    pub process: usize,
    /// The layout of the sheet's texts, as it was noted.
    pub edition: Edition,
    /// How many cells the sheet has.
    pub cells: usize,
    /// How many processes the sheet has.
    pub processes: usize,
    /// The mark that it saw.
    pub mark: u64,
    /// The index row so far, in place.
    pub row: IndexRow,
    /// The announcement that it saw.
    pub announcement: u64,
    /// The cell of the edit in doubt.
    pub cell: usize,
    /// What it does next.
    pub stage: RecoverStage,
}

impl Model for RecoverCall {
    ghost use Rattle.ds_state.specs.Works.{PlainRecoverCall};
    ghost use Rattle.ds_state.specs.RecoverStages.{IsRecovery};

    ghost Value = { PlainRecoverCall };

    ghost view = { λ a. record {
      process = a.process;
      edition = a.edition;
      cells = a.cells;
      processes = a.processes;
      mark = a.mark;
      row = a.row;
      announcement = a.announcement;
      cell = a.cell;
      stage = a.stage;
    } };

    ghost invariant = { λ a. IsRecovery (record {
      process = a.process;
      edition = a.edition;
      cells = a.cells;
      processes = a.processes;
      mark = a.mark;
      row = a.row;
      announcement = a.announcement;
      cell = a.cell;
      stage = a.stage;
    }) };
}
