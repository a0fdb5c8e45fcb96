//! A show under way.

ghost use Rattle.std.specs.Prelude.{◌≡◌};

use ds_layout::place::{Edition, Place};
use std::marker::Model;

/// How a show ended.
#[derive(Clone, Copy, Debug, PartialEq, Eq)]
pub enum ShowEnd {
    /// All was seen again as it was.
    Settled,
    /// This mark is not clean, or this announcement pending, or one of them moved. The word is what was seen.
    Unsettled(Place, u64),
}

/// What a show does next.
#[derive(Clone, Copy, Debug, PartialEq, Eq)]
pub enum ShowStage {
    /// Load an announcement.
    LoadAnnounce(usize),
    /// Load a mark.
    LoadMark(usize),
    /// Load a value.
    LoadValue(usize),
    /// Load its kind.
    LoadKind(usize),
    /// Load a mark again.
    AgainMark(usize),
    /// Load an announcement again.
    AgainAnnounce(usize),
    /// Answer.
    Answer(ShowEnd),
}

/// A show under way. It has room for all that it notes, and its stage is one of its sheet.
#[derive(Debug, Drop)]
pub struct ShowCall {
    /// The process that runs it.
    pub process: usize,
    /// The layout of the sheet's texts, as it was noted.
    pub edition: Edition,
    /// The number of its next edit.
    pub next: usize,
    /// How many cells the sheet has.
    pub cells: usize,
    /// How many processes the sheet has.
    pub processes: usize,
    /// The announcements so far.
    pub announcements: Vec<u64>,
    /// The marks so far.
    pub marks: Vec<u64>,
    /// The values so far.
    pub values: Vec<u64>,
    /// The kinds so far.
    pub kinds: Vec<u64>,
    /// What it does next.
    pub stage: ShowStage,
}

impl Model for ShowCall {
    ghost use Rattle.std.specs.Prelude.{vec_capacity};
    ghost use Rattle.ds_state.specs.Works.{PlainShowCall};
    ghost use Rattle.ds_state.specs.ShowStages.{IsReady};

    ghost Value = { PlainShowCall };

    ghost view = { λ a. record {
      process = a.process;
      edition = a.edition;
      next = a.next;
      cells = a.cells;
      processes = a.processes;
      announcements = a.announcements.items;
      marks = a.marks.items;
      values = a.values.items;
      kinds = a.kinds.items;
      stage = a.stage;
    } };

    ghost invariant = { λ a. IsReady (record {
      process = a.process;
      edition = a.edition;
      next = a.next;
      cells = a.cells;
      processes = a.processes;
      announcements = a.announcements.items;
      marks = a.marks.items;
      values = a.values.items;
      kinds = a.kinds.items;
      stage = a.stage;
    }) (vec_capacity a.announcements) (vec_capacity a.marks) (vec_capacity a.values) (vec_capacity a.kinds) };
}
