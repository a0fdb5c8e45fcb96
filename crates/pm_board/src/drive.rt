//! The loop that drives a call.

ghost use Rattle.std.specs.Prelude.{◌≡◌, ℕ, [], MatchOption};
ghost use Rattle.pm_board.specs.Fuses.{Asked};
ghost use Rattle.pm_board.specs.Machines.{Breaks, CanBegin, IsServed, Settles};

use crate::board::{Board, TableSeat};
use crate::fuse::Fuse;
use crate::steps::{Buffer, access, answer, keep};
use arrayvec::ArrayVec;
use pm_base::machine::{Machine, Structured};
use std::marker::Brand;

/// Takes the call's steps, as long as the fuse says yes: how it ended, or None where the fuse said no before. The process
/// of the seat may begin the call, or may once it has stopped.
pub fn drive<P: Structured, M: Machine<P>, F: Fuse>(
    board: &Board<P>,
    seat: &mut TableSeat<P::Doing, P::Response>,
    call: &mut M,
    fuse: &mut F,
) -> Option<M::End>
    requires table { seat.old.table_id ≡ board.now.table.shared.table_id }
    requires fits { M.calls.fits board.now.key call.old }
    requires goes { M.calls.goes call.old }
    requires serves { IsServed P.structure M.calls board.now.key call.old [] }
    requires begins { CanBegin P.structure M.calls board.now.key seat.old.me call.old }
    ensures seat { (seat.new.table_id ≡ seat.old.table_id) × (seat.new.id ≡ seat.old.id) }
    ensures fits { M.calls.fits board.now.key call.new }
    ensures me { MatchOption result ((n : ℕ) × Asked F.said fuse.old fuse.new n 1 × Breaks P.structure M.calls board.now.key call.old seat.old.me seat.new.me call.new n) (λ end. (n : ℕ) × Asked F.said fuse.old fuse.new n 0 × Settles P.structure M.calls board.now.key call.old seat.old.me seat.new.me call.new end n) }
{
    let key = &board.key;
    P::law(key);
    M::law(key);
    let apart = P::apart(key);
    let mut buffer: Buffer = ArrayVec::new();
    let mut begun = false;
    loop {
        match call.turn(key) {
            Some(end) => return Some(end),
            None => (),
        }
        if !fuse.go() {
            return None;
        }
        let wanted = call.want(key);
        let found = access::<P, Brand, M>(
            &board.table.shared,
            seat,
            key,
            apart,
            call,
            begun,
            &buffer,
            wanted,
        );
        begun = true;
        keep::<P>(&mut buffer, key, wanted, found);
        call.got(key, answer(wanted, found));
    }
}
