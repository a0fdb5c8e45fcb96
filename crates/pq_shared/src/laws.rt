//! What threads are answered of a queue is true.

ghost use Rattle.pq_shared.specs.Truths.{SharedEffectsInCalls, SharedEmptyWasSo, SharedQueuesTellTheTruth};

/// In the run of any board, open, closed or crashed: the words hold a queue, each operation takes effect once, and each
/// answer of a thread is true: the k-th dequeue took the value of the k-th enqueue.
pub fn shared_queues_tell_the_truth(processes: usize)
    ensures { SharedQueuesTellTheTruth processes }
{}

/// Each operation that has a place in the order took effect at a step of its own call, in the one run of its board: its
/// linearization point.
pub fn shared_effects_in_calls(processes: usize)
    ensures { SharedEffectsInCalls processes }
{}

/// A dequeue that was answered that the queue was empty ran at a moment at which it was.
pub fn shared_empty_was_so(processes: usize)
    ensures { SharedEmptyWasSo processes }
{}
