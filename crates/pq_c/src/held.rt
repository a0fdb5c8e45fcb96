//! What a holder holds.

use pq_seats::queue::OpenQueue;
use pq_seats::resting::RestingQueue;
use pq_seats::seat::Seat;

/// What a holder holds of a queue that threads share.
#[derive(Drop)]
pub enum Held {
    /// The queue, in the hands of its owner.
    Queue(OpenQueue),
    /// A seat of the queue.
    Seat(Seat),
    /// The queue, closed.
    Closed(RestingQueue),
    /// Nothing any more: no holder that a call leaves holds it.
    Spent,
}
