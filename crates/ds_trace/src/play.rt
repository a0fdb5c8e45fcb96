//! Carries commands out, and keeps their events.

ghost use Rattle.std.specs.Prelude.{ℕ, ◌≡◌, ◌⊎◌, ◌≤◌, List, [], IfErr, IfOk, IfSome, OnOk, length};
ghost use Rattle.ds_recalculation.specs.Plans.{IsPlan};
ghost use Rattle.ds_script.specs.Orders.{CanDo, beginning, command_view};
ghost use Rattle.ds_script.specs.Doing.{Doing, Calls, Once, in_order, to_point, settle};
ghost use Rattle.ds_script.specs.Script.{IsMade};
ghost use Rattle.ds_state.specs.Value.{world_of};
ghost use Rattle.ds_script.specs.ScriptTurns.{IsWithin, Remains, doing_of};
ghost use Rattle.ds_trace.specs.Rows.{IsFull};
ghost use Rattle.ds_trace.specs.Trails.{BreaksOff, Hinders, ObeysBy, TakesTurn, Trail, happened, next_of};
ghost use Rattle.ds_trace.specs.declared.turn.NoTrace.TheVariants as hindered;
ghost use Rattle.ds_trace.specs.declared.turn.TheConstants.{EVENT_LIMIT};

use crate::look::wanted;
use crate::row::{Begin, Happening, TraceRow};
use crate::turn::{NoTrace, begin, crash, evict, note, stop};
use ds_calls::settle;
use ds_core::reply::Reply;
use ds_layout::layout::Layout;
use ds_layout::place::{Edition, Place};
use ds_recalculation::recalculation::planned;
use ds_script::carry::new_world;
use ds_script::drive::Until;
use ds_script::order::{Call, Command};
use ds_script::point::PointName;
use ds_script::turn::{CommandTurn, Left, after_begin, in_order, left_of, to_point};
use ds_state::world::World;
use std::alloc::Global;

// What the next event of a command is, where its process makes a step if it is driven.
fn next_of(world: &World, left: &Left) -> Happening
    requires { IsWithin world.now left.now }
    ensures { result ≡ next_of world.now left.now }
{
    match left {
        Left::Works {
            process,
            rounds: _,
            cell,
        }
        | Left::WorksInOrder {
            process,
            cell,
            rest: _,
        } => Happening::Begins(
            *process,
            Begin::Work(world.words.layout().shape.cell(*cell)),
        ),
        Left::Drives(process, _) | Left::DrivesInOrder { process, rest: _ } => {
            Happening::Steps(*process, wanted(world, *process))
        }
    }
}

// What the event was: an entry was taken where a process that is driven goes on without a step.
fn happened(next: Happening, stepped: bool, reply: Reply) -> Happening
    ensures { result ≡ happened next stepped reply }
{
    match (next, stepped, reply) {
        (Happening::Steps(process, _), false, Reply::Stepped) => Happening::TakesEntry(process),
        _ => next,
    }
}

// The next event of a command.
fn take_turn(
    alloc: Global,
    world: &mut World,
    places: &[Place],
    left: Left,
    rows: &mut Vec<TraceRow>,
) -> Result<Option<Left>, NoTrace>
    requires { IsWithin world.old left }
    ensures turn { IfOk result (λ next. TakesTurn places.now left world.old next world.new rows.old.items rows.new.items) }
    ensures few { OnOk result (length rows.new.items ≤ EVENT_LIMIT) }
    ensures full { IfErr result (IsFull rows.old.items) }
{
    let next = next_of(world, &left);
    let CommandTurn {
        stepped,
        reply,
        left,
    } = ds_script::turn::take_turn(alloc, world, left);
    let what = happened(next, stepped, reply);
    note(alloc, world, places, what, reply, &[], rows)?;
    Ok(left)
}

// A command to its end, of which this is left.
fn play(
    alloc: Global,
    world: &mut World,
    places: &[Place],
    first: Left,
    rows: &mut Vec<TraceRow>,
) -> Result<(), NoTrace>
    requires { IsWithin world.old first }
    ensures trail { OnOk result (Trail places.now (doing_of first) world.old world.new rows.old.items rows.new.items) }
    ensures breaks_off { IfErr result (BreaksOff (doing_of first) world.old rows.old.items) }
{
    let mut left = first;
    'turns: loop {
        match take_turn(alloc, world, places, left, rows)? {
            Some(next) => left = next,
            None => return Ok(()),
        }
    }
}

// What is left of a command, to its end.
fn play_on(
    alloc: Global,
    world: &mut World,
    places: &[Place],
    left: Option<Left>,
    rows: &mut Vec<TraceRow>,
) -> Result<(), NoTrace>
    requires { IfSome left (IsWithin world.old) }
    ensures trail { (doing : Doing) → Remains left doing → OnOk result (Trail places.now doing world.old world.new rows.old.items rows.new.items) }
    ensures breaks_off { (doing : Doing) → Remains left doing → IfErr result (BreaksOff doing world.old rows.old.items) }
{
    match left {
        Some(left) => play(alloc, world, places, left, rows),
        None => Ok(()),
    }
}

// A whole call.
fn whole(
    alloc: Global,
    world: &mut World,
    places: &[Place],
    process: usize,
    call: Call<'_>,
    rows: &mut Vec<TraceRow>,
) -> Result<(), NoTrace>
    ensures trail { OnOk result (Trail places.now (Calls process (beginning process call.entry)) world.old world.new rows.old.items rows.new.items) }
    ensures breaks_off { IfErr result (BreaksOff (Calls process (beginning process call.entry)) world.old rows.old.items) }
{
    let reply = begin(alloc, world, places, process, call, rows)?;
    let left = after_begin(process, Until::ToAnswer, reply);
    play_on(alloc, world, places, left, rows)
}

// `settle P`.
fn settle(
    alloc: Global,
    world: &mut World,
    places: &[Place],
    process: usize,
    rows: &mut Vec<TraceRow>,
) -> Result<(), NoTrace>
    ensures trail { OnOk result (Trail places.now (settle world.old process) world.old world.new rows.old.items rows.new.items) }
    ensures breaks_off { IfErr result (BreaksOff (settle world.old process) world.old rows.old.items) }
{
    let left = left_of(process, settle::first_turn(world));
    play_on(alloc, world, places, left, rows)
}

// `recalc P`.
fn recalculate(
    alloc: Global,
    world: &mut World,
    places: &[Place],
    process: usize,
    rows: &mut Vec<TraceRow>,
) -> Result<(), NoTrace>
    ensures trail { OnOk result ((order : List ℕ) × IsPlan world.old order
        × Trail places.now (in_order world.old process order) world.old world.new rows.old.items rows.new.items) }
    ensures breaks_off { IfErr result (λ why. (why ≡ hindered.NoMemory) ⊎ ((order : List ℕ) × IsPlan world.old order
        × BreaksOff (in_order world.old process order) world.old rows.old.items why)) }
{
    let order = planned(alloc, world)?;
    let left = in_order(world, process, order);
    play_on(alloc, world, places, left, rows)
}

// `run P to POINT`.
fn run_to(
    alloc: Global,
    world: &mut World,
    places: &[Place],
    process: usize,
    name: PointName,
    rows: &mut Vec<TraceRow>,
) -> Result<(), NoTrace>
    ensures trail { OnOk result (Trail places.now (to_point process name ((world_of world.old).situation process)) world.old world.new rows.old.items rows.new.items) }
    ensures breaks_off { IfErr result (BreaksOff (to_point process name ((world_of world.old).situation process)) world.old rows.old.items) }
{
    let left = to_point(world, process, name);
    play_on(alloc, world, places, left, rows)
}

// A call begins, or is refused.
fn begin_only(
    alloc: Global,
    world: &mut World,
    places: &[Place],
    process: usize,
    call: Call<'_>,
    rows: &mut Vec<TraceRow>,
) -> Result<(), NoTrace>
    ensures trail { OnOk result (Trail places.now (Once process (beginning process call.entry)) world.old world.new rows.old.items rows.new.items) }
    ensures breaks_off { IfErr result (BreaksOff (Once process (beginning process call.entry)) world.old rows.old.items) }
{
    let _reply = begin(alloc, world, places, process, call, rows)?;
    Ok(())
}

// A new sheet, without rows.
fn make(
    alloc: Global,
    world: &mut World,
    layout: Layout,
    edition: Edition,
    rows: &mut Vec<TraceRow>,
) -> Result<(), NoTrace>
    ensures made { OnOk result (IsMade layout.shape.columns layout.shape.rows layout.processes edition world.new) }
    ensures no_row { OnOk result (rows.new.items ≡ []) }
    ensures no_memory { IfErr result (λ why. why ≡ hindered.NoMemory) }
{
    *world = new_world(alloc, layout, edition)?;
    rows.clear();
    Ok(())
}

/// Carries a command out, and appends its events to the rows; a new sheet has no rows. An error is a row too many, or a
/// failed allocation.
pub fn carry_out(
    alloc: Global,
    world: &mut World,
    places: &[Place],
    command: Command<'_>,
    rows: &mut Vec<TraceRow>,
) -> Result<(), NoTrace>
    requires { CanDo world.old.sheet.layout command }
    ensures obeys { OnOk result (ObeysBy places.now world.old (command_view command.entry) world.new rows.old.items rows.new.items) }
    ensures hinders { IfErr result (Hinders world.old (command_view command.entry) rows.old.items) }
{
    match command {
        Command::Sheet(layout) => make(alloc, world, layout, Edition::Second, rows),
        Command::Layout(layout, edition) => make(alloc, world, layout, edition, rows),
        Command::Whole(process, call) => whole(alloc, world, places, process, call, rows),
        Command::Begin(process, call) => begin_only(alloc, world, places, process, call, rows),
        Command::Settle(process) => settle(alloc, world, places, process, rows),
        Command::Recalculate(process) => recalculate(alloc, world, places, process, rows),
        Command::Step(process) => {
            play(
                alloc,
                world,
                places,
                Left::Drives(process, Until::OneStep),
                rows,
            )
        }
        Command::RunTo(process, name) => run_to(alloc, world, places, process, name, rows),
        Command::Run(process) => {
            play(
                alloc,
                world,
                places,
                Left::Drives(process, Until::ToAnswer),
                rows,
            )
        }
        Command::Stop(process) => stop(alloc, world, places, process, rows),
        Command::Crash => crash(alloc, world, places, rows),
        Command::Evict(place) => evict(alloc, world, places, place, rows),
        Command::Peek(_) | Command::Word(_) => Ok(()),
    }
}
