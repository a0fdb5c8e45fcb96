//! Registers on words that threads share.

ghost use Rattle.std.specs.Prelude.{◌≡◌, ◌*◌, ◌<◌, ◌^◌, ℕ, [], MatchBool, MatchOption};
ghost use Rattle.pm_board.specs.Fuses.{Asked};
ghost use Rattle.pm_registers.specs.declared.calls.Doing.TheVariants.{Idle};
ghost use Rattle.pm_board.specs.Views.{RunsOne, Sits};
ghost use Rattle.pm_shared.specs.Writes.{BreaksRecovery, BreaksWrite, IsRecovered, IsWritten};

use pm_board::board::{Board, TableSeat};
use pm_board::drive::drive;
use pm_board::fuse::Fuse;
use pm_registers::calls::{Doing, RecoverCall, RecoverStage, Response, WriteCall, WriteStage};
use pm_registers::registers::Registers;

/// A process writes to its register a value above the last one that it announced, `last`: whether it has, or was broken
/// off by the fuse before; then nothing of it has happened, or it has begun and was answered nothing. A write takes at most
/// 7 steps.
pub fn write<F: Fuse>(
    board: &Board<Registers>,
    place: &mut TableSeat<Doing, Response>,
    process: usize,
    last: u64,
    value: u64,
    fuse: &mut F,
) -> bool
    requires table { place.old.table_id ≡ board.now.table.shared.table_id }
    requires sits { Sits place.old.me process (Idle last) }
    requires low { (process < board.now.key) × (board.now.key < 2 ^ 32) }
    requires above { last < value }
    ensures table { place.new.table_id ≡ place.old.table_id }
    ensures runs { RunsOne place.new.me process }
    ensures wrote { MatchBool result ((n : ℕ) × Asked F.said fuse.old fuse.new n 0 × IsWritten place.old.me place.new.me process value n) ((n : ℕ) × Asked F.said fuse.old fuse.new n 1 × BreaksWrite board.now.key place.old.me place.new.me process value n) }
{
    let _last = last;
    let mut call = WriteCall {
        process,
        value,
        stage: WriteStage::StoreAnnounce,
    };
    drive::<Registers, WriteCall, F>(board, place, &mut call, fuse).is_some()
}

/// A process that has stopped, or was broken off, recovers: the last value that it announced, and whether its register had
/// it. None where the fuse broke it off. A recovery takes at most 6 steps.
pub fn recover<F: Fuse>(
    board: &Board<Registers>,
    place: &mut TableSeat<Doing, Response>,
    process: usize,
    fuse: &mut F,
) -> Option<Response>
    requires table { place.old.table_id ≡ board.now.table.shared.table_id }
    requires runs { RunsOne place.old.me process }
    requires low { (process < board.now.key) × (board.now.key < 2 ^ 32) }
    ensures table { place.new.table_id ≡ place.old.table_id }
    ensures runs { RunsOne place.new.me process }
    ensures recovered { MatchOption result ((n : ℕ) × Asked F.said fuse.old fuse.new n 1 × BreaksRecovery board.now.key place.old.me place.new.me process n) (λ t. (n : ℕ) × Asked F.said fuse.old fuse.new n 0 × IsRecovered place.old.me place.new.me process t n) }
{
    let mut call = RecoverCall {
        process,
        stage: RecoverStage::LoadAnnounce,
    };
    drive::<Registers, RecoverCall, F>(board, place, &mut call, fuse)
}
