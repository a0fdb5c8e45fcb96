//! Whole calls: an edit, work, a show, a recovery, a migration.

ghost use Rattle.std.specs.Prelude.{◌≡◌};
ghost use Rattle.ds_core.specs.declared.event.Event.TheVariants.{BeginEdit, BeginWork, BeginShow, BeginRecover, BeginMigrate};
ghost use Rattle.ds_core.specs.Takes.{IsOfWorld, Fits};
ghost use Rattle.ds_core.specs.WorkEvents.{HasWork};
ghost use Rattle.ds_state.specs.declared.answer.Answer.TheVariants.{Edit, Work, Show, Recovery};
ghost use Rattle.ds_core.specs.Kinds.{IsEditAnswer, IsWorkAnswer, IsShowAnswer, IsRecoveryAnswer, IsMigrationAnswer};
ghost use Rattle.ds_calls.specs.Whole.{HasProcess, IsWhole, IsWholeMigration, request};
ghost use Rattle.ds_calls.specs.Driven.{CanGoOn, BeginsCall, IsDriven};

use crate::finish::finish;
use ds_core::ends::CallEnd;
use ds_core::event::Event;
use ds_core::reply::Reply;
use ds_core::take::take;
use ds_formula::cells::Cell;
use ds_state::answer::EditEnd;
use ds_state::migration::MigrateEnd;
use ds_state::recovery::RecoveryEnd;
use ds_state::refusal::Refusal;
use ds_state::show::ShowEnd;
use ds_state::work::WorkEnd;
use ds_state::world::World;
use std::alloc::Global;

/// An edit of a process of the sheet begins, or is refused: the reply to the event that begins it. The text is not
/// copied into that event.
pub fn begin_edit(
    alloc: Global,
    world: &mut World,
    process: usize,
    cell: Cell,
    text: &[u8],
) -> Reply
    requires { IsOfWorld world.old (request process cell text.now) }
    ensures fits { Fits world.old (BeginEdit (request process cell text.now)) result world.new }
    ensures begins { BeginsCall IsEditAnswer world.old process world.new result }
{
    ds_core::take::begin_edit(alloc, world, process, cell, text)
}

fn begin_work(alloc: Global, world: &mut World, process: usize, cell: Cell) -> Reply
    requires { HasWork world.old process cell }
    ensures fits { Fits world.old (BeginWork process cell) result world.new }
    ensures begins { BeginsCall IsWorkAnswer world.old process world.new result }
{
    let event = Event::BeginWork(process, cell);
    take(alloc, world, &event)
}

fn begin_show(alloc: Global, world: &mut World, process: usize) -> Reply
    requires { HasProcess world.old process }
    ensures fits { Fits world.old (BeginShow process) result world.new }
    ensures begins { BeginsCall IsShowAnswer world.old process world.new result }
{
    let event = Event::BeginShow(process);
    take(alloc, world, &event)
}

fn begin_recovery(alloc: Global, world: &mut World, process: usize) -> Reply
    requires { HasProcess world.old process }
    ensures fits { Fits world.old (BeginRecover process) result world.new }
    ensures begins { BeginsCall IsRecoveryAnswer world.old process world.new result }
{
    let event = Event::BeginRecover(process);
    take(alloc, world, &event)
}

fn begin_migration(alloc: Global, world: &mut World, process: usize) -> Reply
    requires { HasProcess world.old process }
    ensures fits { Fits world.old (BeginMigrate process) result world.new }
    ensures begins { BeginsCall IsMigrationAnswer world.old process world.new result }
{
    let event = Event::BeginMigrate(process);
    take(alloc, world, &event)
}

// What a call comes to whose begin has this reply: it is driven to its end, or it was refused.
fn driven<E: CallEnd>(
    alloc: Global,
    world: &mut World,
    process: usize,
    reply: Reply,
) -> Result<E, Refusal>
    requires { CanGoOn E.kind.is world.old process reply }
    ensures { IsDriven E.kind.answer process reply world.old result world.new }
{
    match reply {
        Reply::Refused(refusal) => Err(refusal),
        _ => Ok(finish(alloc, world, process)),
    }
}

/// A whole edit of the cell to the text by a process of the sheet. Where its begin is refused, the
/// world is as it was.
pub fn whole_edit(
    alloc: Global,
    world: &mut World,
    process: usize,
    cell: Cell,
    text: &[u8],
) -> Result<EditEnd, Refusal>
    requires { IsOfWorld world.old (request process cell text.now) }
    ensures { IsWhole Edit process (BeginEdit (request process cell text.now)) world.old result world.new }
{
    let reply = begin_edit(alloc, world, process, cell, text);
    driven(alloc, world, process, reply)
}

/// Whole work on a cell of the sheet by a process of it, with its evaluation. Where its begin is
/// refused, the world is as it was.
pub fn whole_work(
    alloc: Global,
    world: &mut World,
    process: usize,
    cell: Cell,
) -> Result<WorkEnd, Refusal>
    requires { HasWork world.old process cell }
    ensures { IsWhole Work process (BeginWork process cell) world.old result world.new }
{
    let reply = begin_work(alloc, world, process, cell);
    driven(alloc, world, process, reply)
}

/// A whole show by a process of the sheet. Where it is settled, its values are the process's last
/// ones that the world keeps. Where its begin is refused, the world is as it was.
pub fn whole_show(alloc: Global, world: &mut World, process: usize) -> Result<ShowEnd, Refusal>
    requires { HasProcess world.old process }
    ensures { IsWhole Show process (BeginShow process) world.old result world.new }
{
    let reply = begin_show(alloc, world, process);
    driven(alloc, world, process, reply)
}

/// A whole recovery of a process of the sheet, stopped or idle. Where its begin is refused, the world
/// is as it was.
pub fn whole_recovery(
    alloc: Global,
    world: &mut World,
    process: usize,
) -> Result<RecoveryEnd, Refusal>
    requires { HasProcess world.old process }
    ensures { IsWhole Recovery process (BeginRecover process) world.old result world.new }
{
    let reply = begin_recovery(alloc, world, process);
    driven(alloc, world, process, reply)
}

/// A whole migration of the sheet to the second layout, by a process of it; all are stopped. It is answered `Migrated`,
/// or `Already` where the sheet has come to that layout before; after either the process is stopped, and recovers
/// next. Where its begin is refused, the world is as it was.
pub fn whole_migration(
    alloc: Global,
    world: &mut World,
    process: usize,
) -> Result<MigrateEnd, Refusal>
    requires { HasProcess world.old process }
    ensures { IsWholeMigration process (BeginMigrate process) world.old result world.new }
{
    let reply = begin_migration(alloc, world, process);
    driven(alloc, world, process, reply)
}
