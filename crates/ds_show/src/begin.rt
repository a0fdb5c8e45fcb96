//! The beginning of a show.

ghost use Rattle.std.specs.Prelude.{◌≡◌, ◌<◌, ◌≤◌, ◌+◌, ◌↔◌, IsTrue, IfOk, IfErr, OnErr};
ghost use Rattle.ds_layout.specs.Places.{cells_of};
ghost use Rattle.ds_state.specs.Value.{world_of, HasCountsLeft};
ghost use Rattle.ds_state.specs.Underway.{reports_in, shows_under_way};
ghost use Rattle.ds_state.specs.declared.reports.TheConstants.{SETTLED_MOST};
ghost use Rattle.ds_state.specs.declared.situation.Situation.TheVariants.{Idle};
ghost use Rattle.ds_show.specs.ShowSteps.{rest_of, Begins, fresh};
ghost use Rattle.ds_show.specs.ShowBegun.{IsBegun, Refuses};

use ds_layout::layout::Layout;
use ds_state::refusal::Refusal;
use ds_state::reports::SETTLED_MOST;
use ds_state::show::{ShowCall, ShowStage};
use ds_state::situation::{Rest, Situation, next_edit, put};
use ds_state::world::World;
use std::alloc::{AllocError, Global};

// 1 where the process shows the sheet.
fn reports_in(situation: &Situation) -> usize
    ensures { result ≡ reports_in situation.now }
{
    match situation {
        Situation::Showing(_) => 1,
        Situation::Idle(_) | Situation::Stopped | Situation::Editing(_) => 0,
        Situation::Working(_) | Situation::Recovering(_) | Situation::Migrating(_) => 0,
    }
}

// How many shows are under way.
fn under_way(situations: &[Situation]) -> usize
    ensures { result ≡ shows_under_way situations.now }
{
    let mut count = 0;
    for situation in situations {
        count += reports_in(situation);
    }
    count
}

// Whether too many shows are settled and under way, so that no more can be counted.
fn is_spent(settled: u64, situations: &[Situation]) -> bool
    requires { HasCountsLeft situations.now settled }
    ensures { IsTrue result ↔ (settled + shows_under_way situations.now ≡ SETTLED_MOST) }
{
    SETTLED_MOST - settled <= under_way(situations) as u64
}

/// The process's show of the sheet, before its first step, with room for all that it is to note.
pub fn fresh(
    alloc: Global,
    layout: &Layout,
    process: usize,
    next: Rest,
) -> Result<ShowCall, AllocError>
    ensures { IfOk result (λ call. call ≡ fresh process next (cells_of layout.now) layout.now.processes) }
{
    let cells = layout.cells();
    let announcements = Vec::with_capacity(alloc, layout.processes)?;
    let marks = Vec::with_capacity(alloc, cells)?;
    let values = Vec::with_capacity(alloc, cells)?;
    let kinds = Vec::with_capacity(alloc, cells)?;
    Ok(ShowCall {
        process,
        edition: next.edition,
        next: next.number,
        cells,
        processes: layout.processes,
        announcements,
        marks,
        values,
        kinds,
        stage: ShowStage::LoadAnnounce(0),
    })
}

// Begins a show of the sheet.
fn enter(world: &mut World, call: ShowCall)
    requires process { call.process < world.old.sheet.layout.processes }
    requires idle { (world_of world.old).situation call.process ≡ Idle (rest_of call) }
    requires first { call ≡ fresh call.process (rest_of call) (cells_of world.old.sheet.layout) world.old.sheet.layout.processes }
    requires counts { world.old.settled + shows_under_way world.old.situations < SETTLED_MOST }
    ensures begins { Begins call.process (rest_of call) (world_of world.old) (world_of world.new) }
    ensures sheet { world.new.sheet ≡ world.old.sheet }
    ensures done { world.new.done ≡ world.old.done }
    ensures settled { world.new.settled ≡ world.old.settled }
    ensures reports { world.new.reports ≡ world.old.reports }
{
    put(
        &mut world.situations,
        call.process,
        Situation::Showing(call),
    );
}

/// Begins a show by an idle process, with room for all that its steps note: they take no memory.
///
/// The refusals are tried in this order, and each leaves the world as it was: `Busy` where the
/// process is in a call, `Stopped` where it is stopped, `RecordsFull` where the shows that were
/// answered Settled and those under way are together 2^64 - 1, `NoMemory` where an allocation
/// failed.
pub fn begin(alloc: Global, world: &mut World, process: usize) -> Result<(), Refusal>
    requires { process < world.old.sheet.layout.processes }
    ensures begun { IfOk result (λ _. IsBegun (world_of world.old) process (world_of world.new)) }
    ensures refused { IfErr result (λ refusal. Refuses world.old process refusal) }
    ensures unchanged { OnErr result (world.new ≡ world.old) }
    ensures sheet { world.new.sheet ≡ world.old.sheet }
    ensures done { world.new.done ≡ world.old.done }
    ensures settled { world.new.settled ≡ world.old.settled }
    ensures reports { world.new.reports ≡ world.old.reports }
{
    let next = next_edit(&world.situations[process])?;
    if is_spent(world.settled, &world.situations) {
        return Err(Refusal::RecordsFull);
    }
    let layout = world.words.layout();
    let call = fresh(alloc, &layout, process, next)?;
    enter(world, call);
    Ok(())
}
