//! What a process did in a history of a sheet.

use ds_core::event::Event;
use ds_core::reply::Reply;
use ds_state::edit::EditCall;
use ds_state::recovery::{RecoverCall, RecoveryEnd};
use ds_state::show::{ShowCall, ShowEnd};
use ds_state::stage::Outcome;
use ds_state::work::{WorkCall, WorkEnd};

/// What a process did in a history: it began a call, or a call of it was answered. No value of it is made.
pub enum CallEvent {
    /// A call began: the event, and its reply.
    Began(Event, Reply),
    /// An edit, with all that it loaded, and how it ended.
    Edited(EditCall, Outcome),
    /// A work.
    Worked(WorkCall, WorkEnd),
    /// A recovery.
    Recovered(RecoverCall, RecoveryEnd),
    /// A show.
    Reported(ShowCall, ShowEnd),
}
