//! What threads are answered of a queue whose seats are taken and come back is true.

ghost use Rattle.pq_seats.specs.Truths.{ClosedQueuesTellTheTruth};

/// Of each queue that was closed with the passes of its processes: in the one run that leads from a new queue to its words
/// each operation took effect once at most, the words hold the queue, and each answer of any process, through all closes,
/// crashes and openings, is true: the k-th dequeue took the value of the k-th enqueue.
pub fn closed_queues_tell_the_truth()
    ensures { ClosedQueuesTellTheTruth }
{}
