//! A mark on a word that threads share.

ghost use Rattle.std.specs.Prelude.{◌≡◌, ◌<◌, ℕ, MatchOption};
ghost use Rattle.pm_board.specs.Fuses.{Asked};
ghost use Rattle.pm_mark.specs.declared.mark.Doing.TheVariants.{Idle};
ghost use Rattle.pm_shared.specs.Raises.{BreaksRaise, IsRaised};
ghost use Rattle.pm_board.specs.Views.{RunsOne, Sits};

use pm_board::board::{Board, TableSeat};
use pm_board::drive::drive;
use pm_board::fuse::Fuse;
use pm_mark::mark::{Doing, Mark, Raise, Stage};

/// A process raises the mark to a value: whether it is up for good, or another process raised it meanwhile, perhaps to a
/// lower value. None where the fuse broke the call off: then nothing of it has happened, or it has begun and was answered
/// nothing. A raise takes at most 4 steps.
pub fn raise<F: Fuse>(
    board: &Board<Mark>,
    place: &mut TableSeat<Doing, u64>,
    process: usize,
    value: u64,
    fuse: &mut F,
) -> Option<bool>
    requires table { place.old.table_id ≡ board.now.table.shared.table_id }
    requires sits { Sits place.old.me process Idle }
    ensures table { place.new.table_id ≡ place.old.table_id }
    ensures runs { RunsOne place.new.me process }
    ensures raised { MatchOption result ((n : ℕ) × Asked F.said fuse.old fuse.new n 1 × BreaksRaise board.now.key place.old.me place.new.me process value n) (λ up. (n : ℕ) × Asked F.said fuse.old fuse.new n 0 × IsRaised place.old.me place.new.me process value up n) }
{
    let mut call = Raise {
        process,
        value,
        stage: Stage::Load,
    };
    drive::<Mark, Raise, F>(board, place, &mut call, fuse)
}
