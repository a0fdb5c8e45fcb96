//! What the calls of a locked sheet come to.

ghost use Rattle.std.specs.Prelude.{◌≡◌};
ghost use Rattle.ds_crew.specs.LockedCalls.{came_reply};

use ds_core::ends::CallEnd;
use ds_core::reply::Reply;
use ds_state::refusal::Refusal;

/// What a call comes to whose ends are these.
#[derive(Clone, Copy, Debug, PartialEq, Eq)]
pub(crate) enum Came<E> {
    /// It ended so.
    Ended(E),
    /// It has not begun, for this cause.
    Refused(Refusal),
    /// It has not begun: the sheet has no such process or cell.
    NotEnabled,
}

impl<E: CallEnd> Came<E> {
    // The last reply to the call.
    pub(crate) fn reply(self) -> Reply
        ensures { result ≡ came_reply E.kind self }
    {
        match self {
            Came::Ended(end) => Reply::Answered(end.answer()),
            Came::Refused(why) => Reply::Refused(why),
            Came::NotEnabled => Reply::NotEnabled,
        }
    }
}
