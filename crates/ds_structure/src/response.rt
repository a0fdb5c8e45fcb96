//! What a process of a sheet is answered.

use ds_state::edit::EditCall;
use ds_state::recovery::{RecoverCall, RecoveryEnd};
use ds_state::show::{ShowCall, ShowEnd};
use ds_state::stage::Outcome;
use ds_state::work::{WorkCall, WorkEnd};

/// What a process is answered at the last step of a call. No value of it is made: clauses alone speak of it.
pub enum Response {
    /// An edit ended so.
    Edited(EditCall, Outcome),
    /// A work ended so.
    Worked(WorkCall, WorkEnd),
    /// A show ended so. Where that is settled, its values are those that the call noted.
    Shown(ShowCall, ShowEnd),
    /// A recovery ended so.
    Recovered(RecoverCall, RecoveryEnd),
}
