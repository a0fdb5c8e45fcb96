//! An edit that was answered Done.

use ds_formula::cells::Cell;
use std::marker::Model;

/// An edit that was answered Done: one fact, from the call to the file.
#[derive(Debug, Drop)]
pub struct AnsweredEdit {
    /// The process of the edit, below those of the sheet.
    pub process: usize,
    /// The number of the edit among those of its process, from 0.
    pub number: usize,
    /// The cell of the edit, one of the sheet.
    pub cell: Cell,
    /// The text that the cell was given, at most 240 bytes.
    pub text: Vec<u8>,
}

impl Model for AnsweredEdit {
    ghost use Rattle.ds_store_journal.specs.Journals.{KeptEdit};

    ghost Value = { KeptEdit };

    ghost view = { λ e. record { process = e.process; number = e.number; cell = e.cell; text = e.text.items } };
}
