//! One event of a run, and its row.

ghost use Rattle.std.specs.Prelude.{◌≡◌, ◌≤◌, IfErr, IfOk, OnOk, length};
ghost use Rattle.ds_core.specs.Takes.{Fits};
ghost use Rattle.ds_core.specs.declared.event.Event.TheVariants as events;
ghost use Rattle.ds_script.specs.Orders.{beginning};
ghost use Rattle.ds_core.specs.declared.reply.Reply.{Reply};
ghost use Rattle.ds_trace.specs.Rows.{Happens, IsFull, OneMore, Tells, answered_by, begin_in, text_in};
ghost use Rattle.ds_trace.specs.declared.turn.NoTrace.TheVariants as hindered;

use crate::look::{behind, words};
use crate::row::{Begin, Happening, TraceRow};
use ds_core::event::Event;
use ds_core::reply::Reply;
use ds_core::take::take;
use ds_layout::place::Place;
use ds_script::carry::begins;
use ds_script::order::Call;
use ds_script::texts::reply_bytes;
use ds_state::world::World;
use std::alloc::{AllocError, AllocFailed, Global};

/// How many events a recording has room for.
pub const EVENT_LIMIT: usize = 1_000;

/// Why there is no recording.
#[derive(Clone, Copy, Debug, PartialEq, Eq, Drop)]
pub enum NoTrace {
    /// The run has an event more than a recording has room for.
    TooManyEvents,
    /// An allocation failed.
    NoMemory,
}

impl From<AllocError> for NoTrace {
    ghost from_gives = { λ _ why. why ≡ hindered.NoMemory };

    fn from(_error: AllocError) -> NoTrace {
        NoTrace::NoMemory
    }
}

impl<T: Drop> From<AllocFailed<T>> for NoTrace {
    ghost from_gives = { λ _ why. why ≡ hindered.NoMemory };

    fn from(_failed: AllocFailed<T>) -> NoTrace {
        NoTrace::NoMemory
    }
}

// The process that is answered; 0 where nobody is.
fn answered_by(what: Happening) -> usize
    ensures { result ≡ answered_by what }
{
    match what {
        Happening::Begins(process, _) | Happening::Steps(process, _) => process,
        Happening::TakesEntry(process) | Happening::Stops(process) => process,
        Happening::Evicts(_) | Happening::Crashes => 0,
    }
}

// The row of an event, in the world after it.
fn row_of(
    alloc: Global,
    world: &World,
    places: &[Place],
    what: Happening,
    reply: Reply,
    text: &[u8],
) -> Result<TraceRow, AllocError>
    ensures { IfOk result (λ row. Tells places.now world.now what reply text.now row) }
{
    let answer = reply_bytes(alloc, world, answered_by(what), reply)?;
    let text = Vec::from_slice(alloc, text)?;
    let words = words(alloc, world, places)?;
    Ok(TraceRow {
        what,
        reply,
        behind: behind(world, answered_by(what)),
        counted: world.counted.len(),
        text,
        answer,
        words,
    })
}

/// Appends the row of an event to the others, in the world after it. An error is a row too many, or a failed
/// allocation; the rows stay as they are then.
pub fn note(
    alloc: Global,
    world: &World,
    places: &[Place],
    what: Happening,
    reply: Reply,
    text: &[u8],
    rows: &mut Vec<TraceRow>,
) -> Result<(), NoTrace>
    ensures row { OnOk result (OneMore (Tells places.now world.now what reply text.now) rows.old.items rows.new.items) }
    ensures few { OnOk result (length rows.new.items ≤ EVENT_LIMIT) }
    ensures full { IfErr result (IsFull rows.old.items) }
{
    if rows.len() >= EVENT_LIMIT {
        return Err(NoTrace::TooManyEvents);
    }
    let row = row_of(alloc, world, places, what, reply, text)?;
    rows.push(row)?;
    Ok(())
}

// What begins.
fn begin_of(call: Call<'_>) -> Begin
    ensures { result ≡ begin_in call.entry }
{
    match call {
        Call::Edit(cell, _) => Begin::Edit(cell),
        Call::Work(cell) => Begin::Work(cell),
        Call::Show => Begin::Show,
        Call::Recovery => Begin::Recovery,
        Call::Migration => Begin::Migration,
    }
}

// The text that an edit is to have which begins.
fn text_of<'a>(call: Call<'a>) -> &'a [u8]
    ensures { result.now ≡ text_in call.entry }
{
    match call {
        Call::Edit(_, text) => text,
        Call::Work(_) | Call::Show | Call::Recovery | Call::Migration => &[],
    }
}

/// A call of a process begins, or is refused: the reply to the event that begins it. An error is a row too many, or a
/// failed allocation.
pub fn begin(
    alloc: Global,
    world: &mut World,
    places: &[Place],
    process: usize,
    call: Call<'_>,
    rows: &mut Vec<TraceRow>,
) -> Result<Reply, NoTrace>
    ensures happens { IfOk result (λ reply. Happens places.now world.old (beginning process call.entry) reply world.new rows.old.items rows.new.items) }
    ensures few { OnOk result (length rows.new.items ≤ EVENT_LIMIT) }
    ensures full { IfErr result (IsFull rows.old.items) }
{
    let what = Happening::Begins(process, begin_of(call));
    let text = text_of(call);
    let reply = begins(alloc, world, process, call);
    note(alloc, world, places, what, reply, text, rows)?;
    Ok(reply)
}

fn happen(alloc: Global, world: &mut World, event: &Event) -> Reply
    ensures { Fits world.old event.now result world.new }
{
    take(alloc, world, event)
}

fn evicted(alloc: Global, world: &mut World, place: Place) -> Reply
    ensures { Fits world.old (events.Evict place) result world.new }
{
    happen(alloc, world, &Event::Evict(place))
}

fn stopped(alloc: Global, world: &mut World, process: usize) -> Reply
    ensures { Fits world.old (events.Stop process) result world.new }
{
    happen(alloc, world, &Event::Stop(process))
}

fn crashed(alloc: Global, world: &mut World) -> Reply
    ensures { Fits world.old events.Crash result world.new }
{
    happen(alloc, world, &Event::Crash)
}

/// A word is evicted. An error is a row too many, or a failed allocation.
pub fn evict(
    alloc: Global,
    world: &mut World,
    places: &[Place],
    place: Place,
    rows: &mut Vec<TraceRow>,
) -> Result<(), NoTrace>
    ensures happens { OnOk result ((reply : Reply) × Happens places.now world.old (events.Evict place) reply world.new rows.old.items rows.new.items) }
    ensures full { IfErr result (IsFull rows.old.items) }
{
    let reply = evicted(alloc, world, place);
    note(
        alloc,
        world,
        places,
        Happening::Evicts(place),
        reply,
        &[],
        rows,
    )
}

/// A process stops, if it can. An error is a row too many, or a failed allocation.
pub fn stop(
    alloc: Global,
    world: &mut World,
    places: &[Place],
    process: usize,
    rows: &mut Vec<TraceRow>,
) -> Result<(), NoTrace>
    ensures happens { OnOk result ((reply : Reply) × Happens places.now world.old (events.Stop process) reply world.new rows.old.items rows.new.items) }
    ensures full { IfErr result (IsFull rows.old.items) }
{
    let reply = stopped(alloc, world, process);
    note(
        alloc,
        world,
        places,
        Happening::Stops(process),
        reply,
        &[],
        rows,
    )
}

/// Each word keeps its persisted side alone, and every process stops. An error is a row too many, or a failed
/// allocation.
pub fn crash(
    alloc: Global,
    world: &mut World,
    places: &[Place],
    rows: &mut Vec<TraceRow>,
) -> Result<(), NoTrace>
    ensures happens { OnOk result ((reply : Reply) × Happens places.now world.old events.Crash reply world.new rows.old.items rows.new.items) }
    ensures full { IfErr result (IsFull rows.old.items) }
{
    let reply = crashed(alloc, world);
    note(alloc, world, places, Happening::Crashes, reply, &[], rows)
}
