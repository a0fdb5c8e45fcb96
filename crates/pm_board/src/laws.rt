//! What is so of every board.

ghost use Rattle.pm_board.specs.Rule.{ClosedBoardsHaveRuns, OpenBoardsHaveRuns};

use pm_base::machine::Structured;

/// Between any two steps on a board: one run of the structure leads from a new one, through all closes, crashes and
/// openings, to its words; and what each process did and has seen stands in that run.
pub fn open_boards_have_runs<P: Structured>(key: &P::Key)
    ensures { OpenBoardsHaveRuns P.structure key.now }
{
    P::law(key);
}

/// So it is of a board that is closed or crashed.
pub fn closed_boards_have_runs<P: Structured>(key: &P::Key)
    ensures { ClosedBoardsHaveRuns P.structure key.now }
{
    P::law(key);
}
