//! Passes are dealt off a seat that runs all processes, and joined in one at the end.

ghost use Rattle.std.specs.Prelude.{◌≡◌, ◌≤◌, ◌<◌, [], map, vec_capacity, All};
ghost use Rattle.std.specs.List.{range_with_len};
ghost use Rattle.pm_board.specs.Views.{RunsFrom};
ghost use Rattle.pq.specs.Queue.{queue};
ghost use Rattle.pq_seats.specs.Known.{IsFresh, IsOf};
ghost use Rattle.pq_seats.specs.Places.{IsMemory, past_in, sole};

use crate::pass::{Pass, Past};
use pm_board::board::{Board, TableSeat};
use pq::calls::{Doing, Response};
use pq::queue::Queue;

/// A pass for each process, in order, off a seat that runs all of them before their first call.
pub(crate) fn dealt(
    board: &Board<Queue>,
    rest: &mut TableSeat<Doing, Response>,
    stopped: bool,
    mut passes: Vec<Pass>,
) -> Vec<Pass>
    requires room { (passes.items ≡ []) × (board.now.key ≤ vec_capacity passes) }
    requires rest { (rest.old.table_id ≡ board.now.table.shared.table_id) × RunsFrom queue board.now.key stopped 0 rest.old.me }
    ensures rest { IsMemory rest.new × (past_in rest.new ≡ past_in rest.old) × (rest.new.table_id ≡ rest.old.table_id) }
    ensures order { map (λ p. p.process) result.items ≡ range_with_len 0 board.now.key }
    ensures fit { All (λ p. IsOf board.now.table.shared.table_id board.now.key p × IsFresh stopped p) result.items }
{
    for process in 0..board.key {
        let place = board.deal(rest, process, stopped);
        passes.push_reserved(Pass {
            place,
            process,
            next: 0,
            announced: 0,
            stopped,
        });
    }
    passes
}

/// One seat that runs the processes of all passes, in order, and remembers the past.
pub(crate) fn joined(
    board: &Board<Queue>,
    past: Past,
    passes: Vec<Pass>,
) -> TableSeat<Doing, Response>
    requires past { past.place.table_id ≡ board.now.table.shared.table_id }
    requires fit { All (λ p. IsOf board.now.table.shared.table_id board.now.key p) passes.items }
    ensures table { result.table_id ≡ board.now.table.shared.table_id }
    ensures all { result.me ≡ (record { entries = map (λ p. sole p.place) passes.items; past = past_in past.place }, []) }
{
    let Past { place: mut seat } = past;
    for pass in passes {
        let Pass { place, .. } = pass;
        board.join(&mut seat, place);
    }
    seat
}
