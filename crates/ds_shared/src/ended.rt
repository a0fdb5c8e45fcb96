//! How a call on the shared sheet ended.

use ds_state::refusal::Refusal;

/// How a call ended, where calls of its kind end so.
#[derive(Clone, Copy, Debug, PartialEq, Eq)]
pub enum Ended<E> {
    /// It was answered so.
    Answered(E),
    /// It has not begun, for this cause.
    Refused(Refusal),
    /// The fuse said no, and the process is stopped.
    Stopped,
}
