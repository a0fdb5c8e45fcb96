//! A migration under way.

ghost use Rattle.std.specs.Prelude.{◌≡◌};

use std::marker::Model;

/// How a migration ended.
#[derive(Clone, Copy, Debug, PartialEq, Eq)]
pub enum MigrateEnd {
    /// The sheet has come to the second layout.
    Migrated,
    /// It had it already.
    Already,
}

/// What a migration does next. Words are counted over all texts of the first layout.
#[derive(Clone, Copy, Debug, PartialEq, Eq)]
pub enum MigrateStage {
    /// Load the version's word.
    LoadVersion,
    /// Load a word of the first layout's texts.
    LoadOld(usize),
    /// Store it where the second layout has it.
    StoreNew(usize),
    /// Flush that.
    FlushNew(usize),
    /// Write that back.
    BackNew(usize),
    /// Make the second layout the sheet's.
    Swap,
    /// Flush the version's word.
    FlushVersion(MigrateEnd),
    /// Write that back.
    BackVersion(MigrateEnd),
    /// Answer.
    Answer(MigrateEnd),
}

/// A migration under way.
#[derive(Debug, Drop)]
pub struct MigrateCall {
    /// The process that runs it.
    pub process: usize,
    /// How many processes the sheet has.
    pub processes: usize,
    /// The word that it loaded.
    pub word: u64,
    /// What it does next.
    pub stage: MigrateStage,
}

impl Model for MigrateCall {
    ghost use Rattle.ds_state.specs.Works.{PlainMigrateCall, IsMigration};

    ghost Value = { PlainMigrateCall };

    ghost view = { λ a. record {
      process = a.process;
      processes = a.processes;
      word = a.word;
      stage = a.stage;
    } };

    ghost invariant = { λ a. IsMigration (record {
      process = a.process;
      processes = a.processes;
      word = a.word;
      stage = a.stage;
    }) };
}
