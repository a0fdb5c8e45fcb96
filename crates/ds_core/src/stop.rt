//! Stops and crashes.

ghost use Rattle.std.specs.Prelude.{◌≡◌, ◌<◌, ◌==◌, ℕ, All, length, slice_index_or, vec_capacity, vec_len};
ghost use Rattle.ds_layout.specs.SheetMemory.{memory};
ghost use Rattle.ds_state.specs.Crashes.{is_lost, survivors};
ghost use Rattle.ds_state.specs.Value.{first_rest};
ghost use Rattle.ds_state.specs.declared.situation.Situation as situation;
ghost use Rattle.ds_core.specs.StopEvents.{StopTakes, CrashTakes, HasHeadPlace};

use crate::reply::Reply;
use ds_layout::head::Head;
use ds_layout::place::Place;
use ds_layout::sheet_words::SheetWords;
use ds_state::ledger::Edit;
use ds_state::situation::{Situation, put};
use ds_state::world::World;

// Whether a crash takes the edit: it is the last of its cell, and only the cached side has its head.
fn is_lost(words: &SheetWords, edit: &Edit) -> bool
    requires { HasHeadPlace words.now.layout edit.now }
    ensures { result ≡ is_lost (memory words.now) edit.now }
{
    let head = words.word(Place::Head(edit.cell));
    head.cached != head.persisted && Head::names(head.cached, edit.process, edit.number)
}

// Takes the edits out of the list that a crash takes, and leaves the others in their order.
fn lose(counted: &mut Vec<Edit>, words: &SheetWords)
    requires { All (λ e. HasHeadPlace words.now.layout e) counted.old.items }
    ensures items { counted.new.items ≡ survivors (memory words.now) counted.old.items }
    ensures capacity { vec_capacity counted.new ≡ vec_capacity counted.old }
{
    let mut kept = 0;
    for i in 0..counted.len() {
        let edit = counted[i];
        if !is_lost(words, &edit) {
            counted[kept] = edit;
            kept += 1;
        }
    }
    counted.truncate(kept);
}

// Every process stops.
fn stop_all(situations: &mut Vec<Situation>)
    ensures count { vec_len situations.new ≡ vec_len situations.old }
    ensures stopped { (p : ℕ) → p < vec_len situations.new
        → slice_index_or situations.new.items p (situation.Situation.Idle first_rest) ≡ situation.Situation.Stopped }
{
    for p in 0..situations.len() {
        put(situations, p, Situation::Stopped);
    }
}

/// A process stops: it loses its call and its buffer, and its words stay. Where it has stopped
/// already, or the sheet has no such process, it cannot happen and nothing changes.
pub fn stop(world: &mut World, process: usize) -> Reply
    ensures { StopTakes world.old process result world.new }
{
    if process >= world.situations.len() {
        return Reply::NotEnabled;
    }
    if let Situation::Stopped = world.situations[process] {
        return Reply::NotEnabled;
    }
    world.words.stop(process);
    put(&mut world.situations, process, Situation::Stopped);
    Reply::Stopped
}

/// A crash: each word keeps its persisted side alone, every buffer is emptied, every process stops,
/// and of the linearized edits those are lost whose head only the cached side had.
pub fn crash(world: &mut World) -> Reply
    ensures { CrashTakes world.old result world.new }
{
    lose(&mut world.counted, &world.words);
    world.words.crash();
    stop_all(&mut world.situations);
    Reply::Crashed
}
