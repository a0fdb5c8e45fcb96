//! A sheet is made with a pass for each process, and closed with passes.

ghost use Rattle.std.specs.Prelude.{◌≡◌, ◌+◌, ◌*◌, ◌<◌, ◌≤◌, ◌++◌, ℕ, [], length, map, vec_capacity, Bool, true, false, IfOk, All, Contains, List, Some};
ghost use Rattle.std.specs.List.{range_with_len};
ghost use Rattle.std.specs.Mem.Slots.{slots_items};
ghost use Rattle.ds_state.specs.declared.reports.TheConstants.{SETTLED_MOST};
ghost use Rattle.pm_base.specs.Structures.{In};
ghost use Rattle.pm_board.specs.Rule.{Closes, HasRun};
ghost use Rattle.pm_board.specs.Starts.{start_of};
ghost use Rattle.pm_board.specs.Views.{past_of, whole_view};
ghost use Rattle.ds_shared_runs.specs.Runs.{begun_in};
ghost use Rattle.ds_structure.specs.Sheet.{sheet};
ghost use Rattle.ds_structure_runs.specs.Boards.{IsCoreRun, IsRight};
ghost use Rattle.ds_structure_shared.specs.Boards.{SheetEntry, SheetSeated, new_words, sole};
ghost use Rattle.ds_shared.specs.declared.pass.Pass.{Pass};
ghost use Rattle.ds_shared.specs.Known.{IsMemory, past_in, seen_by};
ghost use Rattle.ds_shared.specs.Answers.{IsFresh, IsOf, IsPastOf, Rests, opened_with, seated_by};

use crate::pass::{Pass, Past};
use crate::sheet::{ClosedSheet, SharedSheet};
use ds_layout::layout::Layout;
use ds_structure_runs::laws::boards_have_the_headline;
use ds_structure_shared::board::{KeptBoard, make};
use ds_structure_shared::calls::SheetSeat;
use std::alloc::{AllocError, Global};

// A pass for each process, in order, off a seat that runs all of them before their first call.
pub(crate) fn dealt(
    board: &KeptBoard,
    rest: &mut SheetSeat,
    stopped: bool,
    mut passes: Vec<Pass, Global>,
) -> Vec<Pass, Global>
    requires room { (passes.items ≡ []) × (board.now.layout.processes ≤ vec_capacity passes) }
    requires rest { (rest.old.table_id ≡ board.now.words.table.shared.table_id) × ((seen : List SheetEntry) × (rest.old.me ≡ (whole_view sheet board.now.words.key stopped (Some seen) (past_in rest.old), []))) }
    ensures rest { IsMemory rest.new × (past_in rest.new ≡ past_in rest.old) × (rest.new.table_id ≡ rest.old.table_id) }
    ensures order { map (λ p. p.process) result.items ≡ range_with_len 0 board.now.layout.processes }
    ensures fit { All (λ p. (p.place.table_id ≡ board.now.words.table.shared.table_id) × (p.process < board.now.layout.processes) × IsFresh stopped p) result.items }
    ensures seen { (seen : List SheetEntry) → rest.old.me ≡ (whole_view sheet board.now.words.key stopped (Some seen) (past_in rest.old), []) → All (λ p. seen_by p.place ≡ seen) result.items }
{
    let processes = board.layout.processes;
    for process in 0..processes {
        let place = board.words.deal(rest, process, stopped);
        passes.push_reserved(Pass {
            place,
            process,
            number: 0,
            stopped,
        });
    }
    passes
}

impl SharedSheet {
    /// A new sheet, in the second layout, with no past, and a pass for each process, in order: between
    /// calls, and answered nothing yet. Its words are all 0 but for the version's, which says the layout on
    /// both sides, for as long as the sheet lasts, through crashes too. An error means that an allocation failed.
    pub fn make(
        alloc: Global,
        layout: Layout,
    ) -> Result<(SharedSheet, Past, Vec<Pass, Global>), AllocError>
        ensures layout { IfOk result (λ r. r.0.board.layout ≡ layout) }
        ensures made { IfOk result (λ r. r.0.board.words.table.shared.key.stopped ≡ false) }
        ensures words { IfOk result (λ r. opened_with r.0 ≡ new_words layout) }
        ensures order { IfOk result (λ r. map (λ p. p.process) r.2.items ≡ range_with_len 0 layout.processes) }
        ensures fit { IfOk result (λ r. All (λ p. IsOf r.0 p × IsFresh false p) r.2.items) }
        ensures past { IfOk result (λ r. IsPastOf r.0 r.1 × (past_in r.1.place ≡ [])) }
        ensures seen { IfOk result (λ r. All (λ p. seen_by p.place ≡ []) r.2.items) }
    {
        let passes: Vec<Pass, Global> = Vec::with_capacity(alloc, layout.processes)?;
        let kept = KeptBoard::room(alloc, layout)?;
        let (words, mut before) = make(alloc, layout)?;
        let board = KeptBoard::of(words, kept);
        let passes = dealt(&board, &mut before, false, passes);
        Ok((SharedSheet { board }, Past { place: before }, passes))
    }

    /// Ends the sheet, with passes between calls or broken off in one. Its words are those of a sound
    /// world, in the second layout, in which each of these passes' processes does what its pass says; from there stops
    /// alone lead to one at rest. All that these passes were answered, and what was answered before the sheet was
    /// opened, is true of it; just that is remembered, with which processes they were of.
    pub fn close(self, past: Past, mut passes: Vec<Pass, Global>) -> ClosedSheet
        requires past { IsPastOf self past }
        requires fit { All (λ p. IsOf self p) passes.items }
        ensures layout { (result.layout ≡ self.board.layout) × (result.words.key ≡ self.board.words.key) }
        ensures got { past_of result.words.before ≡ past_in past.place ++ seated_by passes.items }
        ensures handed { (p : Pass) → Contains passes.items p → In (past_of result.words.before) (sole p.place) }
        ensures before { (e : SheetSeated) → In (past_in past.place) e → In (past_of result.words.before) e }
        ensures stand { Closes sheet self.board.words.key (start_of self.board.words.table.shared.key) (slots_items result.words.table.words) (seated_by passes.items) (past_of result.words.before) }
        ensures rests { Rests result }
        ensures run { (h : HasRun sheet self.board.words.key (slots_items result.words.table.words) (past_of result.words.before)) × (c : IsCoreRun self.board.words.key (slots_items result.words.table.words) (past_of result.words.before) h) × (begun_in c.happened ≤ SETTLED_MOST → IsRight self.board.words.key (slots_items result.words.table.words) (past_of result.words.before) h c) }
    {
        let SharedSheet { board } = self;
        let Past { place: mut seat } = past;
        while let Some(pass) = passes.pop() {
            let Pass {
                place,
                process: _,
                number: _,
                stopped: _,
            } = pass;
            board.words.join(&mut seat, place);
        }
        let layout = board.layout;
        boards_have_the_headline(&board.words.key);
        ClosedSheet {
            words: board.into_words().close(seat),
            layout,
        }
    }
}
