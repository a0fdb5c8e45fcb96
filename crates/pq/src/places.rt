//! The words of the queue, by their numbers. Node 0 is the sentinel; each operation of each process has a node of its
//! own, so that no word is used again.

ghost use Rattle.std.specs.Prelude.{◌≡◌, ◌<◌, ◌*◌, ◌+◌, ◌^◌};
ghost use Rattle.ds_words.specs.declared.access.Access.TheVariants.{SwapIf};
ghost use Rattle.pq.specs.Places.{operation_of, next_at, taker_at, value_at, linked_at, result_at, announce_at};

use ds_words::access::Access;

/// How many operations a process may make.
pub const OPERATIONS: usize = 1024;

/// The number of nodes that a process can name: no queue has more.
pub const MOST_NODES: u64 = 16777216;

/// The result of a dequeue that found the queue empty: no node has this number.
pub const EMPTY: u64 = 4294967296;

/// The word that names the last node, or one before it, from which a walk finds it.
pub const TAIL: usize = 6;

/// The word that names the node that was taken last, or one before it.
pub const HEAD: usize = 7;

/// The operation of a process with this number, which counts from 0 and is below [`OPERATIONS`].
pub fn operation(process: usize, number: usize) -> u64
    requires process { process < 2 ^ 25 }
    requires number { number < 1024 }
    ensures { result ≡ operation_of process number }
{
    (OPERATIONS * process + number + 1) as u64
}

/// Sets a word to a value where it is the expected one.
pub(crate) fn swap_if(place: usize, expected: u64, value: u64) -> Access<usize>
    ensures { result ≡ SwapIf place expected value }
{
    Access::SwapIf {
        place,
        expected,
        value,
    }
}

/// The word that names the node that follows a node, or is 0.
pub fn next(node: u64) -> usize
    requires { node < 2 ^ 25 }
    ensures { result ≡ next_at node }
{
    8 * node as usize
}

/// The word that names the operation that took a node, or is 0.
pub fn taker(node: u64) -> usize
    requires { node < 2 ^ 25 }
    ensures { result ≡ taker_at node }
{
    8 * node as usize + 1
}

/// The word with the value of a node.
pub fn value(node: u64) -> usize
    requires { node < 2 ^ 25 }
    ensures { result ≡ value_at node }
{
    8 * node as usize + 2
}

/// The word that is 1 once the node stands in the queue for good, and 0 before.
pub fn linked(node: u64) -> usize
    requires { node < 2 ^ 25 }
    ensures { result ≡ linked_at node }
{
    8 * node as usize + 3
}

/// The word with what an operation took: a node, or [`EMPTY`]; 0 before.
pub fn result_of(operation: u64) -> usize
    requires { operation < 2 ^ 25 }
    ensures { result ≡ result_at operation }
{
    8 * operation as usize + 4
}

/// The word with the last operation that a process announced: twice its number, and one more for a dequeue.
pub fn announce(process: usize) -> usize
    requires { process < 2 ^ 25 }
    ensures { result ≡ announce_at process }
{
    8 * process + 5
}
