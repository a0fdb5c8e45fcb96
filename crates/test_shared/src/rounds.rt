//! Four threads, in rounds: they play, the sheet is closed, a crash comes, it is opened again, and it is compared.

ghost use Rattle.ds_shared.specs.Answers.{Rests};
ghost use Rattle.std.specs.Prelude.{◌≡◌, IfOk};

use crate::crowd::{Crowd, Game, Hands, reopened};
use crate::draw::Draw;
use crate::ends::{Shown, Wrong, check, shown_by};
use crate::gate::CrowdGate;
use crate::grid::{Values, all_values};
use ds_shared::sheet::ClosedSheet;
use ds_state::shown::SheetReader;
use std::alloc::Global;
use std::test::Fail;
use std::thread::Threads;

// How many sheets there are.
const SHEETS: u64 = 2;

// How many rounds each sheet has.
const ROUNDS: u64 = 4;

// How many steps each of four threads makes in a round, at least.
const STEPS: u64 = 3_200;

/// A crash in front of which the words with these numbers were evicted; none where they are not all words.
pub fn crash(closed: &mut ClosedSheet, sides: &[bool])
    requires { Rests closed.old }
    ensures { Rests closed.new }
{
    if sides.len() == closed.layout().words() {
        closed.crash_with(sides);
    }
}

// The threads play; then the sheet is closed, a crash comes, and it is opened again.
fn play<R: Threads + Sync>(
    rt: &R,
    alloc: Global,
    crowd: Crowd,
    draw: &mut Draw,
    possible: &[Values],
) -> Result<Crowd, Wrong> {
    let gate = CrowdGate::new();
    let game = Game {
        steps: STEPS,
        gate: &gate,
        possible,
    };
    let crowd = crowd.play(rt, alloc, game);
    let sides = draw
        .sides(alloc, crowd.layout().words())
        .map_err(|_| Wrong::NoMemory)?;
    let (mut closed, hands) = crowd.close(alloc).ok_or(Wrong::NoMemory)?;
    crash(&mut closed, &sides);
    reopened(alloc, closed, hands).ok_or(Wrong::NoMemory)
}

// A closed sheet, opened again, and what it shows.
fn shown(alloc: Global, closed: ClosedSheet, hands: Hands) -> Result<(Crowd, Vec<Shown>), Wrong>
    requires { Rests closed }
{
    let Some(all) = shown_by(alloc, &closed) else {
        closed.free();
        return Err(Wrong::NoMemory);
    };
    let crowd = reopened(alloc, closed, hands).ok_or(Wrong::NoMemory)?;
    Ok((crowd, all))
}

// Each process recovers, the sheet settles, and it is closed, compared and opened again.
fn compare(alloc: Global, crowd: Crowd) -> Result<Crowd, Wrong> {
    let (crowd, reported) = crowd.calm(alloc);
    let (closed, hands) = crowd.close(alloc).ok_or(Wrong::NoMemory)?;
    let (crowd, all) = shown(alloc, closed, hands)?;
    check(alloc, &all, &crowd, reported)?;
    Ok(crowd)
}

// Rounds on one sheet: how many steps they took.
fn rounds<R: Threads + Sync>(
    rt: &R,
    alloc: Global,
    seed: u64,
    possible: &[Values],
) -> Result<u64, Wrong> {
    let mut crowd = Crowd::new(alloc, seed).ok_or(Wrong::NoMemory)?;
    let mut draw = Draw::new(seed, 8);
    for _ in 0..ROUNDS {
        crowd = play(rt, alloc, crowd, &mut draw, possible)?;
        crowd = compare(alloc, crowd)?;
    }
    Ok(crowd.steps())
}

#[test]
fn threads_make_drawn_calls(rt: HostRuntime) -> Result<(), Fail> {
    let possible = all_values(rt.alloc()).ok_or("no memory")?;
    for seed in 0..SHEETS {
        let steps = rounds(&rt, rt.alloc(), seed, &possible);
        let enough = match steps {
            Ok(steps) => steps >= 4 * ROUNDS * STEPS,
            Err(_) => false,
        };
        assert_eq!(rt; steps.err(), None);
        assert_eq!(rt; enough, true);
    }
    Ok(())
}
