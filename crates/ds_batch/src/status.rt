//! Exit statuses of scripts and grids.

ghost use Rattle.std.specs.Prelude.{◌≡◌};
ghost use Rattle.ds_batch.specs.Statuses.{grid_status_of, run_status_of, status_of};

use ds_grid::ending::GridEnd;
use ds_sched::ScriptEnd;

/// The exit status where a line's or a cell's text is refused.
pub const REFUSED: u8 = 1;

/// The exit status where memory is not there.
pub const NO_MEMORY: u8 = 4;

/// The exit status of a failed read or write, and of an address that cannot be listened on.
pub const STREAM_FAILED: u8 = 3;

/// The exit status where nobody reads what is written any more: that of a program which the signal of a closed pipe ends.
pub const CLOSED: u8 = 141;

/// The exit status that says how a script ended: 0 ended, 1 a fault in a line, 3 a failed read or write or a script over
/// its limit, 4 no memory.
pub fn script_status(end: &ScriptEnd) -> u8
    ensures { result ≡ status_of end.now }
{
    match end {
        ScriptEnd::Ended => 0,
        ScriptEnd::Fault { line: _, kind: _ } => 1,
        ScriptEnd::TooLong | ScriptEnd::ReadFailed | ScriptEnd::WriteFailed => 3,
        ScriptEnd::NoMemory => 4,
    }
}

/// The exit status of `dsheet run`: `script_status`, but a strict script that has ended is one with a fault, 1, where one
/// of its answers is a refusal at least.
pub fn run_status(end: &ScriptEnd, strict: bool, refused: u64) -> u8
    ensures { result ≡ run_status_of end.now strict refused }
{
    match end {
        ScriptEnd::Ended if strict && refused > 0 => REFUSED,
        _ => script_status(end),
    }
}

/// The exit status that says how the report of a grid ended: 0 ended, 1 a fault in the grid, 3 a failed read or write or
/// a grid over its limit, 4 no memory.
pub fn grid_status(end: &GridEnd) -> u8
    ensures { result ≡ grid_status_of end.now }
{
    match end {
        GridEnd::Ended => 0,
        GridEnd::Grid(_) | GridEnd::CellFault { cell: _, fault: _ } => 1,
        GridEnd::TooLong | GridEnd::ReadFailed | GridEnd::WriteFailed => 3,
        GridEnd::NoMemory => 4,
    }
}
