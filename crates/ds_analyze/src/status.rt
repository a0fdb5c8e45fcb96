//! Exit statuses of explorations and pictures.

ghost use Rattle.std.specs.Prelude.{◌≡◌};
ghost use Rattle.ds_analyze.specs.Statuses.{explore_status_of, picture_status_of};

use ds_explore::explore::ExploreEnd;
use ds_trace_picture::script::PictureEnd;

/// The status that says how an exploration ended: 0 ended, 1 something is wrong with an outcome or a fault in a line, 3
/// a failed write, a script or that of an outcome over its limit, or more states than may be gone through, 4 out of memory.
pub fn explore_status(end: &ExploreEnd) -> u8
    ensures { result ≡ explore_status_of end.now }
{
    match end {
        ExploreEnd::Ended => 0,
        ExploreEnd::Wrong | ExploreEnd::Fault { line: _, kind: _ } => 1,
        ExploreEnd::TooManyStates
        | ExploreEnd::TooLong
        | ExploreEnd::FoundTooLong
        | ExploreEnd::WriteFailed => 3,
        ExploreEnd::NoMemory => 4,
    }
}

/// The status that says how the drawing of a script ended: 0 drawn, 1 a fault in a line, 3 a failed write, or a script,
/// a run or a picture over its limit, 4 out of memory.
pub fn picture_status(end: &PictureEnd) -> u8
    ensures { result ≡ picture_status_of end.now }
{
    match end {
        PictureEnd::Drawn => 0,
        PictureEnd::Fault { line: _, kind: _ } => 1,
        PictureEnd::ScriptTooLong
        | PictureEnd::TooManyEvents
        | PictureEnd::TooLong
        | PictureEnd::WriteFailed => 3,
        PictureEnd::NoMemory => 4,
    }
}
