//! Steps of a process whose call is known.

ghost use Rattle.std.specs.Prelude.{◌≡◌, ◌+◌, ◌↔◌, IsTrue, Some};
ghost use Rattle.ds_state.specs.Value.{world_of};
ghost use Rattle.ds_core.specs.Counts.{done_of, settled_of};
ghost use Rattle.ds_crew.specs.LockedCalls.{call_in, step_reply, IsKindOf};
ghost use Rattle.ds_crew.specs.Kept.{HasMade, HasShow, HasSettled, HasStepped, StepsIn, settled_reply, report_of};

use ds_core::ends::CallEnd;
use ds_core::reply::Reply;
use ds_state::situation::Situation;
use ds_state::turn::Turn;
use ds_state::world::World;
use std::alloc::Global;

/// The calls of a process.
#[derive(Clone, Copy, Debug, PartialEq, Eq)]
pub(crate) enum Call {
    /// An edit.
    Edit,
    /// Work.
    Work,
    /// A show.
    Show,
    /// A recovery.
    Recovery,
}

// The call that a process is in; none where it migrates the sheet, which is no call of the lock's.
fn call_in(situation: &Situation) -> Option<Call>
    ensures { result ≡ call_in situation.now }
{
    match situation {
        Situation::Idle(_) | Situation::Stopped | Situation::Migrating(_) => None,
        Situation::Editing(_) => Some(Call::Edit),
        Situation::Working(_) => Some(Call::Work),
        Situation::Recovering(_) => Some(Call::Recovery),
        Situation::Showing(_) => Some(Call::Show),
    }
}

// Whether a process is in this call.
fn is_in(world: &World, process: usize, call: Call) -> bool
    ensures { IsTrue result ↔ (call_in ((world_of world.now).situation process) ≡ Some call) }
{
    process < world.situations.len() && call_in(&world.situations[process]) == Some(call)
}

// The reply to a step that did this to its call, or could not be made.
pub(crate) fn reply_to<E: CallEnd>(turn: Option<Turn<E>>) -> Reply
    ensures { result ≡ step_reply E.kind turn }
{
    match turn {
        None => Reply::NotEnabled,
        Some(Turn::GoesOn) => Reply::Stepped,
        Some(Turn::Answers(end)) => Reply::Answered(end.answer()),
    }
}

// The next step of a process's call, where that is this one, and what it did to the call; else none, and nothing
// happens. So it is for every call, where the process migrates the sheet.
pub(crate) fn step<E: CallEnd>(
    alloc: Global,
    world: &mut World,
    process: usize,
    call: Call,
) -> Option<Turn<E>>
    requires { IsKindOf call E.kind }
    ensures steps { StepsIn call process world.old (step_reply E.kind result) world.new }
    ensures happened { HasStepped call process (step_reply E.kind result) }
    ensures made { HasMade call process (step_reply E.kind result) }
    ensures settles { step_reply E.kind result ≡ settled_reply → HasSettled process (report_of world.new.reports process) }
    ensures done { world.new.done ≡ world.old.done + done_of (step_reply E.kind result) }
    ensures settled { world.new.settled ≡ world.old.settled + settled_of (step_reply E.kind result) }
    ensures report { step_reply E.kind result ≡ settled_reply → HasShow world.old.sheet.layout process world.new.reports }
{
    world.is_always_good();
    if !is_in(world, process, call) {
        return None;
    }
    let turn = E::step(alloc, world, process);
    world.is_always_good();
    turn
}
