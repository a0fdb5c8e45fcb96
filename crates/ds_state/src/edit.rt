//! An edit under way.

ghost use Rattle.std.specs.Prelude.{◌≡◌, ◌+◌, ◌/◌, length};

use crate::stage::Stage;
use crate::text::Text;
use ds_layout::place::Edition;
use std::marker::Model;

/// An edit of a cell, with all that its steps need.
#[derive(Debug, Drop)]
pub struct EditCall {
    /// The process that runs it.
    pub process: usize,
    /// Which edit of the process it is, from 0.
    pub number: usize,
    /// The layout that it writes.
    pub edition: Edition,
    /// The cell, by its number.
    pub cell: usize,
    /// What the cell is to hold.
    pub text: Text,
    /// The cells that the text refers to, by their numbers.
    pub refs: Vec<usize>,
    /// How many cells the sheet has.
    pub cells: usize,
    /// How many processes the sheet has.
    pub processes: usize,
    /// What it does next.
    pub stage: Stage,
}

impl Model for EditCall {
    ghost use Rattle.ds_state.specs.Edits.{PlainEditCall, IsEdit};

    ghost Value = { PlainEditCall };

    ghost view = { λ a. record {
      process = a.process;
      number = a.number;
      edition = a.edition;
      cell = a.cell;
      text = a.text;
      refs = a.refs.items;
      cells = a.cells;
      processes = a.processes;
      stage = a.stage;
    } };

    ghost invariant = { λ a. IsEdit (record {
      process = a.process;
      number = a.number;
      edition = a.edition;
      cell = a.cell;
      text = a.text;
      refs = a.refs.items;
      cells = a.cells;
      processes = a.processes;
      stage = a.stage;
    }) };
}
