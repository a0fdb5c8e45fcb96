//! Work on a cell under way.

ghost use Rattle.std.specs.Prelude.{◌≡◌};

use crate::row::IndexRow;
use crate::spread::Spread;
use crate::text::Text;
use ds_eval::inputs::{Entry, Inputs};
use ds_formula::content::Content;
use ds_layout::place::Edition;
use std::marker::Model;

/// How work ended.
#[derive(Clone, Copy, Debug, PartialEq, Eq)]
pub enum WorkEnd {
    /// The mark was clean.
    NotDirty,
    /// The cell was held, or the claim was lost.
    Missed,
    /// The mark's generation was too great.
    Worn,
    /// The cell's value is right; whether it changed.
    Published(bool),
    /// The cell was marked meanwhile.
    Again,
    /// Reading the content lacked memory.
    NoMemory,
}

/// What work does next.
#[derive(Clone, Copy, Debug, PartialEq, Eq)]
pub enum WorkStage {
    /// Load the cell's mark.
    LoadMark,
    /// Claim the cell.
    Claim,
    /// Flush the claim.
    FlushClaim,
    /// Write that back.
    BackClaim,
    /// Load the head.
    LoadHead,
    /// Load the header of the head's record.
    LoadHeader,
    /// Load a part of its text.
    LoadText(usize),
    /// Read the content.
    Read,
    /// Load the value of a reference.
    LoadValue(usize),
    /// Load its kind, beside the value.
    LoadKind {
        /// Which reference, from 0.
        input: usize,
        /// The word of the value that was loaded.
        value: u64,
    },
    /// Load the cell's own value.
    LoadOwnValue,
    /// Load its own kind.
    LoadOwnKind,
    /// Wait for the entry.
    Wait,
    /// Store the value.
    StoreValue,
    /// Store the kind.
    StoreKind,
    /// Flush the value.
    FlushValue,
    /// Flush the kind.
    FlushKind,
    /// Write the value back.
    BackValue,
    /// Write the kind back.
    BackKind,
    /// Mark the cells that refer to this one.
    Telling(Spread),
    /// Let the cell go, clean; whether it changed.
    Clear(bool),
    /// Let it go, dirty, since it was marked meanwhile.
    ClearDirty,
    /// An allocation failed: let it go, dirty.
    Give,
    /// Give it back, dirty, since it was marked meanwhile.
    GiveDirty,
    /// Flush the mark.
    FlushCleared(WorkEnd),
    /// Write that back.
    BackCleared(WorkEnd),
    /// Answer.
    Answer(WorkEnd),
}

/// Work on a cell, with what it has read so far.
#[derive(Debug, Drop)]
pub struct WorkCall {
    /// The process that runs it.
    pub process: usize,
    /// The layout of the sheet's texts, as it was noted.
    pub edition: Edition,
    /// The number of its next edit.
    pub next: usize,
    /// The cell.
    pub cell: usize,
    /// How many cells the sheet has.
    pub cells: usize,
    /// How many processes the sheet has.
    pub processes: usize,
    /// The mark that it saw, then that of its claim.
    pub mark: u64,
    /// The head that it noted.
    pub head: u64,
    /// The length of the text.
    pub length: usize,
    /// The text so far.
    pub text: Text,
    /// What the cell holds.
    pub content: Content,
    /// The references and what they show, so far. There is room for one for each cell of the sheet.
    pub inputs: Inputs,
    /// The cell's own value.
    pub value: u64,
    /// The cell's own kind.
    pub kind: u64,
    /// What the inputs give.
    pub entry: Entry,
    /// The index row so far.
    pub row: IndexRow,
    /// What it does next.
    pub stage: WorkStage,
}

impl Model for WorkCall {
    ghost use Rattle.std.specs.Prelude.{◌≤◌};
    ghost use Rattle.ds_state.specs.Works.{PlainWorkCall, IsWorkIn};
    ghost use Rattle.ds_eval.specs.Code.{plain_code};
    ghost use Rattle.ds_formula.specs.Plain.{plain};
    ghost use Rattle.std.specs.Coded.{codes};

    ghost Value = { PlainWorkCall };

    ghost coded = { Prim.hlevel (codes, plain_code) };

    ghost view = { λ a. record {
      process = a.process;
      edition = a.edition;
      next = a.next;
      cell = a.cell;
      cells = a.cells;
      processes = a.processes;
      mark = a.mark;
      head = a.head;
      length = a.length;
      text = a.text;
      content = plain a.content;
      inputs = a.inputs.items;
      value = a.value;
      kind = a.kind;
      entry = a.entry;
      row = a.row;
      stage = a.stage;
    } };

    ghost invariant = { λ a. IsWorkIn (record {
      process = a.process;
      edition = a.edition;
      next = a.next;
      cell = a.cell;
      cells = a.cells;
      processes = a.processes;
      mark = a.mark;
      head = a.head;
      length = a.length;
      text = a.text;
      content = plain a.content;
      inputs = a.inputs.items;
      value = a.value;
      kind = a.kind;
      entry = a.entry;
      row = a.row;
      stage = a.stage;
    }) a.inputs.room };
}
