//! What a process is doing.

ghost use Rattle.std.specs.Prelude.{◌≡◌, ◌<◌, vec_len, slice_index_or, slice_set};
ghost use Rattle.ds_state.specs.Refusals.{next_edit};

use crate::edit::EditCall;
use crate::migration::MigrateCall;
use crate::recovery::RecoverCall;
use crate::refusal::Refusal;
use crate::show::ShowCall;
use crate::work::WorkCall;
use ds_layout::place::Edition;

/// What a process in no call knows.
#[derive(Clone, Copy, Debug, PartialEq, Eq)]
pub struct Rest {
    /// The number of its next edit.
    pub number: usize,
    /// The layout of the sheet's texts.
    pub edition: Edition,
}

/// What a process is doing.
#[derive(Debug, Drop)]
pub enum Situation {
    /// In no call, with the number of its next edit and the layout that it noted.
    Idle(Rest),
    /// It has stopped, and takes no steps.
    Stopped,
    /// It edits a cell.
    Editing(EditCall),
    /// It works on a cell.
    Working(WorkCall),
    /// It recovers.
    Recovering(RecoverCall),
    /// It shows the sheet.
    Showing(ShowCall),
    /// It migrates the sheet to the second layout.
    Migrating(MigrateCall),
}

/// Puts a process into a situation, and leaves the others in theirs. It answers the one that the process was in.
#[inline(always)]
pub fn exchange(situations: &mut Vec<Situation>, process: usize, situation: Situation) -> Situation
    requires { process < vec_len situations.old }
    ensures items { situations.new.items ≡ slice_set situations.old.items process situation }
    ensures count { vec_len situations.new ≡ vec_len situations.old }
    ensures was { result ≡ slice_index_or situations.old.items process result }
{
    std::mem::replace(&mut situations[process], situation)
}

/// Puts a process into a situation, and leaves the others in theirs.
#[inline(always)]
pub fn put(situations: &mut Vec<Situation>, process: usize, situation: Situation)
    requires { process < vec_len situations.old }
    ensures items { situations.new.items ≡ slice_set situations.old.items process situation }
    ensures count { vec_len situations.new ≡ vec_len situations.old }
{
    situations[process] = situation;
}

/// The number of the next edit of a process in this situation, from 0 to 256, and the layout that it noted, if it may begin an edit, work or a show.
/// Else the refusal: `Busy` where it is in a call, `Stopped` where it is stopped.
#[inline(always)]
pub fn next_edit(situation: &Situation) -> Result<Rest, Refusal>
    ensures { result ≡ next_edit situation.now }
{
    match situation {
        Situation::Idle(next) => Ok(*next),
        Situation::Stopped => Err(Refusal::Stopped),
        Situation::Editing(_) | Situation::Working(_) => Err(Refusal::Busy),
        Situation::Recovering(_) | Situation::Showing(_) | Situation::Migrating(_) => {
            Err(Refusal::Busy)
        }
    }
}
