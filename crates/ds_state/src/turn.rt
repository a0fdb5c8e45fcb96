//! What a step does to its call.

/// What a step does to its call, which ends as calls of its kind do.
#[derive(Clone, Copy, Debug, PartialEq, Eq)]
pub enum Turn<E> {
    /// The call goes on.
    GoesOn,
    /// The call has ended so: its process answers that, and is in no call any more.
    Answers(E),
}
