//! What a world answers to an event.

use ds_state::answer::Answer;
use ds_state::refusal::Refusal;

/// What a world answers to an event.
#[derive(Clone, Copy, Debug, PartialEq, Eq)]
pub enum Reply {
    /// The call has begun; an edit has this number.
    Begun(usize),
    /// The work, the show or the recovery has begun.
    Entered,
    /// The call has not begun, for this cause. The world is unchanged.
    Refused(Refusal),
    /// The process has made a step.
    Stepped,
    /// The process has made the last step of its call, which ended so.
    Answered(Answer),
    /// The work waits for another task, or there is none that waits. The world is unchanged.
    WrongTask,
    /// The word is evicted.
    Evicted,
    /// The process is stopped.
    Stopped,
    /// All that was not persisted is lost, and each process is stopped.
    Crashed,
    /// The event cannot happen now. The world is unchanged.
    NotEnabled,
}
