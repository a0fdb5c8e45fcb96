//! Passes as they are dealt, gathered, and held against a world.

ghost use Rattle.std.specs.Prelude.{◌≡◌, ◌<◌, ◌≤◌, ◌↔◌, IfOk, IfSome, IsSome, IsTrue, length, map, vec_capacity};
ghost use Rattle.ds_crew.specs.Kept.{report_of};
ghost use Rattle.ds_crew.specs.Passes.{AreFirstPasses, AreLasts, FirstStray, dones_of, settleds_of};

use crate::pass::{Pass, pass_of};
use ds_eval::value::Value;
use ds_state::world::World;
use std::alloc::{AllocError, Global};
use std::sync::ledger::{Ledger, Share};

// The values of a process's last settled show, with room for those of the next one.
fn last_of(alloc: Global, world: &World, process: usize) -> Result<Vec<Value>, AllocError>
    requires { process < length world.now.reports.values }
    ensures { IfOk result (λ v. v.items ≡ report_of world.now.reports process) }
{
    let mut last = Vec::with_capacity(alloc, world.words.layout().cells())?;
    for value in world.reports.of(process) {
        last.push(*value)?;
    }
    Ok(last)
}

// The values of each process's last settled show, each with room for those of the next one. An
// error is that an allocation failed.
pub(crate) fn lasts_of(alloc: Global, world: &World) -> Result<Vec<Vec<Value>>, AllocError>
    ensures { IfOk result (λ v. AreLasts world.now (map (λ last. last.items) v.items)) }
{
    world.is_always_good();
    let processes = world.words.layout().processes;
    let mut lasts = Vec::with_capacity(alloc, processes)?;
    for process in 0..processes {
        lasts.push(last_of(alloc, world, process)?)?;
    }
    Ok(lasts)
}

// A pass for each process, in room that is there: the first one's shares have what the world has
// counted.
pub(crate) fn deal<L: Ledger, M: Ledger>(
    world: &World,
    lasts: Vec<Vec<Value>>,
    dones: Share<L>,
    settleds: Share<M>,
    room: Vec<Pass<L, M>>,
) -> Vec<Pass<L, M>>
    requires lasts { AreLasts world.now (map (λ last. last.items) lasts.items) }
    requires room { (length room.items ≡ 0) × (world.now.sheet.layout.processes ≤ vec_capacity room) }
    requires parts { (dones.parts ≡ world.now.sheet.layout.processes) × (settleds.parts ≡ world.now.sheet.layout.processes) }
    requires amounts { (dones.amount ≡ world.now.done) × (settleds.amount ≡ world.now.settled) }
    ensures each { AreFirstPasses world.now result.items }
    ensures dones { dones_of result.items ≡ world.now.done }
    ensures settleds { settleds_of result.items ≡ world.now.settled }
{
    let (mut dones, mut settleds) = (dones, settleds);
    let (mut done, mut settled) = (world.done, world.settled);
    let mut passes = room;
    for last in lasts {
        let process = passes.len();
        let share = dones.split_off(1, done);
        let other = settleds.split_off(1, settled);
        passes.push_reserved(pass_of(process, last, share, other));
        done = 0;
        settled = 0;
    }
    passes
}

// The shares of all passes together; `None` where there are no passes.
pub(crate) fn gather<L: Ledger, M: Ledger>(passes: Vec<Pass<L, M>>) -> Option<(Share<L>, Share<M>)>
    ensures some { 0 < length passes.items → IsSome result }
    ensures dones { IfSome result (λ r. (r.0.parts ≡ length passes.items) × (r.0.amount ≡ dones_of passes.items)) }
    ensures settleds { IfSome result (λ r. (r.1.parts ≡ length passes.items) × (r.1.amount ≡ settleds_of passes.items)) }
{
    let mut passes = passes;
    let Pass {
        process: _,
        last: _,
        mut dones,
        mut settleds,
        calls: _,
        trail: _,
    } = passes.pop()?;
    while let Some(pass) = passes.pop() {
        let Pass {
            process: _,
            last: _,
            dones: more,
            settleds: others,
            calls: _,
            trail: _,
        } = pass;
        dones.merge(more);
        settleds.merge(others);
    }
    Some((dones, settleds))
}

// Whether two reports have the same values.
fn same(left: &[Value], right: &[Value]) -> bool
    ensures { IsTrue result ↔ (left.now ≡ right.now) }
{
    if left.len() != right.len() {
        return false;
    }
    for place in 0..left.len() {
        if left[place] != right[place] {
            return false;
        }
    }
    true
}

// Whether a process's last settled show has these values. A process that the sheet has not has none.
fn keeps(world: &World, process: usize, last: &[Value]) -> bool
    ensures { IsTrue result ↔ (report_of world.now.reports process ≡ last.now) }
{
    world.is_always_good();
    if process < world.words.layout().processes {
        same(world.reports.of(process), last)
    } else {
        last.is_empty()
    }
}

// The process of the first pass that keeps other values of its last settled show than the world.
pub(crate) fn stray_of<L: Ledger, M: Ledger>(world: &World, passes: &[Pass<L, M>]) -> Option<usize>
    ensures { FirstStray world.now.reports passes.now result }
{
    for pass in passes {
        if !keeps(world, pass.process, &pass.last) {
            return Some(pass.process);
        }
    }
    None
}
