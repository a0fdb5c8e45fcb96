//! The calls of a sheet on a board.

ghost use Rattle.std.specs.Prelude.{◌≡◌, ◌<◌, ℕ, MatchOption};
ghost use Rattle.ds_layout.specs.Places.{cells_of};
ghost use Rattle.ds_recover.specs.RecoverySteps.{fresh};
ghost use Rattle.ds_state.specs.RecoverStages.{IsRecovery};
ghost use Rattle.ds_state.specs.World.{edit_of};
ghost use Rattle.ds_state.specs.declared.situation.Situation.{Situation};
ghost use Rattle.ds_state.specs.declared.situation.Situation.TheVariants.{Idle};
ghost use Rattle.pm_board.specs.Fuses.{Asked};
ghost use Rattle.pm_board.specs.Views.{RunsOne, Sits};
ghost use Rattle.ds_structure.specs.Calls.{second_rest, IsEditOn, MayEdit, MayWork, MayShow, IsShowOn, IsRecoveryOn, WorkGoes, edits, works, shows, recoveries};
ghost use Rattle.ds_structure_shared.specs.Ends.{Ends, Stops};

use ds_state::answer::EditEnd;
use ds_state::edit::EditCall;
use ds_state::recovery::{RecoverCall, RecoveryEnd};
use ds_state::show::{ShowCall, ShowEnd};
use ds_state::situation::Situation;
use ds_state::work::WorkCall;
use ds_structure::response::Response;
use ds_structure::sheet::Sheet;
use ds_structure::work::WorkPause;
use ds_work::laws::works_are_of_a_sheet;
use pm_board::board::{Board, TableSeat};
use pm_board::drive::drive;
use pm_board::fuse::Fuse;

/// A seat at the table of a sheet.
pub type SheetSeat = TableSeat<Situation, Response>;

/// An idle process makes its next edit: how it ended, or None where the fuse broke it off before. Then the process is in
/// it, or, before its first step, as it was. An edit with r references takes at most 3r + 112 steps.
pub fn edit<F: Fuse>(
    board: &Board<Sheet>,
    place: &mut SheetSeat,
    call: &mut EditCall,
    fuse: &mut F,
) -> Option<EditEnd>
    requires table { place.old.table_id ≡ board.now.table.shared.table_id }
    requires sits { Sits place.old.me call.old.process (Idle (second_rest call.old.number)) }
    requires fits { IsEditOn board.now.key.layout call.old }
    requires may { MayEdit board.now.key.layout (Idle (second_rest call.old.number)) call.old }
    ensures table { place.new.table_id ≡ place.old.table_id }
    ensures fits { IsEditOn board.now.key.layout call.new }
    ensures same { edit_of call.new ≡ edit_of call.old }
    ensures ended { MatchOption result ((n : ℕ) × Asked F.said fuse.old fuse.new n 1 × Stops edits call.old place.old.me place.new.me call.new n) (λ end. (n : ℕ) × Asked F.said fuse.old fuse.new n 0 × Ends edits call.old place.old.me place.new.me call.new end n) }
    ensures runs { RunsOne place.new.me call.old.process }
{
    drive::<Sheet, EditCall, F>(board, place, call, fuse)
}

/// A process goes on with a work, from its beginning or from where it paused last: where it pauses next, or how it ended;
/// or None where the fuse broke it off before.
pub fn work<F: Fuse>(
    board: &Board<Sheet>,
    place: &mut SheetSeat,
    call: &mut WorkCall,
    fuse: &mut F,
) -> Option<WorkPause>
    requires table { place.old.table_id ≡ board.now.table.shared.table_id }
    requires cells { cells_of board.now.key.layout ≡ call.old.cells }
    requires processes { board.now.key.layout.processes ≡ call.old.processes }
    requires goes { WorkGoes call.old.stage }
    requires may { (now : Situation) × Sits place.old.me call.old.process now × MayWork board.now.key.layout now call.old }
    ensures table { place.new.table_id ≡ place.old.table_id }
    ensures same { (call.new.process ≡ call.old.process) × (call.new.next ≡ call.old.next) × (call.new.cell ≡ call.old.cell) }
    ensures ended { MatchOption result ((n : ℕ) × Asked F.said fuse.old fuse.new n 1 × Stops works call.old place.old.me place.new.me call.new n) (λ end. (n : ℕ) × Asked F.said fuse.old fuse.new n 0 × Ends works call.old place.old.me place.new.me call.new end n) }
    ensures runs { RunsOne place.new.me call.old.process }
{
    works_are_of_a_sheet(call);
    drive::<Sheet, WorkCall, F>(board, place, call, fuse)
}

/// An idle process shows the sheet: how that ended, or None where the fuse broke it off before. On a sheet of N cells for
/// P processes it takes at most 2P + 4N + 1 steps.
pub fn show<F: Fuse>(
    board: &Board<Sheet>,
    place: &mut SheetSeat,
    call: &mut ShowCall,
    fuse: &mut F,
) -> Option<ShowEnd>
    requires table { place.old.table_id ≡ board.now.table.shared.table_id }
    requires sits { Sits place.old.me call.old.process (Idle (second_rest call.old.next)) }
    requires fits { IsShowOn board.now.key.layout call.old }
    requires may { MayShow board.now.key.layout (Idle (second_rest call.old.next)) call.old }
    ensures table { place.new.table_id ≡ place.old.table_id }
    ensures fits { IsShowOn board.now.key.layout call.new }
    ensures same { (call.new.process ≡ call.old.process) × (call.new.next ≡ call.old.next) }
    ensures ended { MatchOption result ((n : ℕ) × Asked F.said fuse.old fuse.new n 1 × Stops shows call.old place.old.me place.new.me call.new n) (λ end. (n : ℕ) × Asked F.said fuse.old fuse.new n 0 × Ends shows call.old place.old.me place.new.me call.new end n) }
    ensures runs { RunsOne place.new.me call.old.process }
{
    drive::<Sheet, ShowCall, F>(board, place, call, fuse)
}

// It is a recovery of a sheet.
fn is_recovery(call: &RecoverCall)
    ensures { IsRecovery call.now }
{
    // For the proof: reading the field gives its invariant.
    let _stage = call.stage;
}

/// A process recovers, whatever it does: how its last edit that was announced ended, or None where the fuse broke it off
/// before. On a sheet of N cells it takes at most N(3N + 30) + 23 steps.
pub fn recover<F: Fuse>(
    board: &Board<Sheet>,
    place: &mut SheetSeat,
    call: &mut RecoverCall,
    fuse: &mut F,
) -> Option<RecoveryEnd>
    requires table { place.old.table_id ≡ board.now.table.shared.table_id }
    requires runs { RunsOne place.old.me call.old.process }
    requires fresh { call.old ≡ fresh call.old.process (cells_of board.now.key.layout) board.now.key.layout.processes }
    ensures table { place.new.table_id ≡ place.old.table_id }
    ensures fits { IsRecoveryOn board.now.key.layout call.new }
    ensures same { call.new.process ≡ call.old.process }
    ensures ended { MatchOption result ((n : ℕ) × Asked F.said fuse.old fuse.new n 1 × Stops recoveries call.old place.old.me place.new.me call.new n) (λ end. (n : ℕ) × Asked F.said fuse.old fuse.new n 0 × Ends recoveries call.old place.old.me place.new.me call.new end n) }
    ensures runs { RunsOne place.new.me call.old.process }
{
    is_recovery(call);
    drive::<Sheet, RecoverCall, F>(board, place, call, fuse)
}
