//! A closed sheet is opened again.

ghost use Rattle.std.specs.Prelude.{List, ◌≡◌, true, map, IfOk, IfErr, All};
ghost use Rattle.std.specs.List.{range_with_len};
ghost use Rattle.std.specs.Mem.Slots.{slots_items};
ghost use Rattle.pm_board.specs.Looks.{BeginsWithAll};
ghost use Rattle.pm_board.specs.Views.{past_of};
ghost use Rattle.ds_structure_shared.specs.Boards.{SheetEntry};
ghost use Rattle.ds_shared.specs.Known.{past_in, seen_by};
ghost use Rattle.ds_shared.specs.Answers.{IsFresh, IsOf, IsPastOf, Rests, opened_with};

use crate::pass::{Pass, Past};
use crate::seats::dealt;
use crate::sheet::{ClosedSheet, SharedSheet};
use ds_structure_shared::board::KeptBoard;
use std::alloc::Global;

impl ClosedSheet {
    /// Opens a sheet with these words, in which every process has stopped, with a pass for each, in
    /// order. It asks for what `close` and `crash_with` leave: a run leads to these words, at rest, and what is remembered
    /// stands in it. It is the past of the new sheet. Where an allocation fails the words are handed back.
    pub fn reopen(
        self,
        alloc: Global,
    ) -> Result<(SharedSheet, Past, Vec<Pass, Global>), ClosedSheet>
        requires { Rests self }
        ensures layout { IfOk result (λ r. r.0.board.layout ≡ self.layout) }
        ensures order { IfOk result (λ r. map (λ p. p.process) r.2.items ≡ range_with_len 0 self.layout.processes) }
        ensures fit { IfOk result (λ r. All (λ p. IsOf r.0 p × IsFresh true p) r.2.items) }
        ensures past { IfOk result (λ r. IsPastOf r.0 r.1 × (past_in r.1.place ≡ past_of self.words.before)) }
        ensures words { IfOk result (λ r. opened_with r.0 ≡ slots_items self.words.table.words) }
        ensures seen { IfOk result (λ r. (seen : List SheetEntry) × BeginsWithAll seen (past_of self.words.before) × All (λ p. seen_by p.place ≡ seen) r.2.items) }
        ensures back { IfErr result (λ c. (c.words.table ≡ self.words.table) × (c.words.key ≡ self.words.key) × (c.words.before ≡ self.words.before)) }
    {
        let passes: Vec<Pass, Global> = match Vec::with_capacity(alloc, self.layout.processes) {
            Ok(passes) => passes,
            Err(_) => return Err(self),
        };
        let Ok(kept) = KeptBoard::room(alloc, self.layout) else {
            return Err(self);
        };
        let ClosedSheet { words, layout } = self;
        match words.reopen(alloc) {
            Ok((words, mut before)) => {
                let board = KeptBoard::of(words, kept);
                let passes = dealt(&board, &mut before, true, passes);
                Ok((SharedSheet { board }, Past { place: before }, passes))
            }
            Err(words) => Err(ClosedSheet { words, layout }),
        }
    }
}
