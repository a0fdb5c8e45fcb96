//! What lies under the lock.

ghost use Rattle.std.specs.Prelude.{◌≡◌, ◌+◌, ◌-◌, ◌<◌, ◌≤◌, IfSome, length, vec_capacity};
ghost use Rattle.ds_layout.specs.Places.{cells_of};
ghost use Rattle.ds_calls.specs.Marked.{marked_from};
ghost use Rattle.ds_state.specs.Value.{world_of};
ghost use Rattle.ds_core.specs.Takes.{Fits};
ghost use Rattle.ds_core.specs.Counts.{done_of, settled_of, IsReplyTo};
ghost use Rattle.ds_core.specs.Ends.{edits, reports};
ghost use Rattle.ds_crew.specs.LockedCalls.{CountsNothing, IsKindOf, IsNoStep, step_reply};
ghost use Rattle.ds_crew.specs.Kept.{Happened, HasMade, HasMarked, HasSettled, HasStepped, StepsIn, settled_reply, last_after, report_of};
ghost use Rattle.ds_crew.specs.Trails.{and_event};
ghost use Rattle.ds_core.specs.declared.event.Event.TheVariants.{Step};
ghost use Rattle.ds_crew.specs.declared.steps.Call.TheVariants.{Edit, Show};

use crate::pass::Trail;
use crate::steps::{Call, step};
use ds_calls::marked::{cells, next_marked};
use ds_core::ends::CallEnd;
use ds_core::event::Event;
use ds_core::reply::Reply;
use ds_core::take::take;
use ds_eval::task::Task;
use ds_eval::value::Value;
use ds_state::answer::EditEnd;
use ds_state::show::ShowEnd;
use ds_state::turn::Turn;
use ds_state::world::World;
use ds_work::offer::{TaskFault, task_of};
use std::alloc::Global;
use std::sync::ledger::{Book, Ledger, Share};

/// What lies under the lock: a world, and a book for each of its counts. The world is sound, and what
/// it counts is what the books do, whenever the lock is free. Each event goes on a trail.
#[derive(Drop)]
pub(crate) struct Kept<L: Ledger, M: Ledger> {
    world: World,
    dones: Book<L>,
    settleds: Book<M>,
    ghost done: { world.done ≡ dones.total },
    ghost settled: { world.settled ≡ settleds.total },
}

// A world with its books.
pub(crate) fn kept_of<L: Ledger, M: Ledger>(
    world: World,
    dones: Book<L>,
    settleds: Book<M>,
) -> Kept<L, M>
    requires done { world.done ≡ dones.total }
    requires settled { world.settled ≡ settleds.total }
    ensures { result.world ≡ world }
{
    Kept {
        world,
        dones,
        settleds,
    }
}

// Puts these values in the place of others, in room that is there.
fn replace(values: &mut Vec<Value>, by: &[Value])
    requires { length by.now ≤ vec_capacity values.old }
    ensures { values.new.items ≡ by.now }
{
    values.clear();
    for value in by {
        values.push_reserved(*value);
    }
}

impl<L: Ledger, M: Ledger> Kept<L, M> {
    // One event that is no step: it counts nothing.
    pub(crate) fn happen(&mut self, alloc: Global, event: &Event, trail: &mut Trail) -> Reply
        requires { IsNoStep event.now }
        ensures fits { Fits self.old.world event.now result self.new.world }
        ensures happened { Happened event.now result }
        ensures reply { IsReplyTo event.now result }
        ensures trail { trail.new ≡ and_event trail.old event.now result }
    {
        self.world.is_always_good();
        let reply = take(alloc, &mut self.world, event);
        trail.note(event, &reply);
        reply
    }

    // A step of work or of a recovery, and what it did to the call; none where the process is in no such call. It
    // counts nothing.
    pub(crate) fn step<E: CallEnd>(
        &mut self,
        alloc: Global,
        process: usize,
        call: Call,
        trail: &mut Trail,
    ) -> Option<Turn<E>>
        requires counts { CountsNothing call }
        requires kind { IsKindOf call E.kind }
        ensures steps { StepsIn call process self.old.world (step_reply E.kind result) self.new.world }
        ensures happened { HasStepped call process (step_reply E.kind result) }
        ensures trail { trail.new ≡ and_event trail.old (Step process) (step_reply E.kind result) }
    {
        let turn = step(alloc, &mut self.world, process, call);
        trail.note_step(process, turn);
        turn
    }

    // A step of an edit, and what it did to it; none where the process is in none. A Done is counted in the share.
    pub(crate) fn step_edit(
        &mut self,
        alloc: Global,
        process: usize,
        share: &mut Share<L>,
        trail: &mut Trail,
    ) -> Option<Turn<EditEnd>>
        requires { 0 < share.old.parts }
        ensures steps { StepsIn Edit process self.old.world (step_reply edits result) self.new.world }
        ensures happened { HasStepped Edit process (step_reply edits result) }
        ensures amount { share.new.amount ≡ share.old.amount + done_of (step_reply edits result) }
        ensures parts { share.new.parts ≡ share.old.parts }
        ensures trail { trail.new ≡ and_event trail.old (Step process) (step_reply edits result) }
    {
        let Kept {
            world,
            dones,
            settleds: _,
        } = self;
        let turn = step(alloc, world, process, Call::Edit);
        trail.note_step(process, turn);
        if let Some(Turn::Answers(EditEnd::Done(_))) = turn {
            dones.add(share, 1);
        }
        turn
    }

    // A step of a show, and what it did to it; none where the process is in none. A Settled is counted in the share,
    // and its values are the last ones from then on. None also where the last ones have too little room, or the sheet
    // another number of cells.
    pub(crate) fn step_show(
        &mut self,
        alloc: Global,
        process: usize,
        cells: usize,
        share: &mut Share<M>,
        last: &mut Vec<Value>,
        trail: &mut Trail,
    ) -> Option<Turn<ShowEnd>>
        requires { 0 < share.old.parts }
        ensures steps { cells_of self.old.world.sheet.layout ≡ cells → cells ≤ vec_capacity last.old
            → StepsIn Show process self.old.world (step_reply reports result) self.new.world }
        ensures happened { HasMade Show process (step_reply reports result) }
        ensures settled { step_reply reports result ≡ settled_reply → HasSettled process last.new.items }
        ensures amount { share.new.amount ≡ share.old.amount + settled_of (step_reply reports result) }
        ensures parts { share.new.parts ≡ share.old.parts }
        ensures last { last.new.items ≡ last_after (step_reply reports result) (report_of self.new.world.reports process) last.old.items }
        ensures full { step_reply reports result ≡ settled_reply → length last.new.items ≡ cells }
        ensures trail { trail.new ≡ and_event trail.old (Step process) (step_reply reports result) }
    {
        let Kept {
            world,
            dones: _,
            settleds,
        } = self;
        if world.words.layout().cells() != cells || last.capacity() < cells {
            trail.note(&Event::Step(process), &Reply::NotEnabled);
            return None;
        }
        let turn = step(alloc, world, process, Call::Show);
        trail.note_step(process, turn);
        if let Some(Turn::Answers(ShowEnd::Settled)) = turn {
            settleds.add(share, 1);
            replace(last, world.reports.of(process));
        }
        turn
    }

    // The world.
    pub(crate) fn world(&self) -> &World
        ensures { result.now ≡ self.now.world }
    {
        &self.world
    }

    // The task that a process's work waits for, in memory of its own.
    pub(crate) fn task(&self, alloc: Global, process: usize) -> Result<Task, TaskFault> {
        task_of(alloc, &self.world, process)
    }

    // The first cell that is marked, from this one on, by its number.
    pub(crate) fn next_marked(&self, from: usize) -> Option<usize>
        ensures value { result ≡ marked_from (world_of self.now.world) (cells_of self.now.world.sheet.layout - from) from }
        ensures above { IfSome result (λ cell. from ≤ cell) }
        ensures marked { HasMarked from result }
    {
        self.world.is_always_good();
        if from > cells(&self.world) {
            return None;
        }
        next_marked(&self.world, from)
    }

    // The world, whose counts are those of shares with all parts.
    pub(crate) fn closed(self, dones: Share<L>, settleds: Share<M>) -> World
        requires dones { dones.parts ≡ L.parts }
        requires settleds { settleds.parts ≡ M.parts }
        ensures done { result.done ≡ dones.amount }
        ensures settled { result.settled ≡ settleds.amount }
        ensures world { result ≡ self.world }
    {
        let Kept {
            world,
            dones: mut book,
            settleds: mut reports,
        } = self;
        let (mut dones, mut settleds) = (dones, settleds);
        book.audit(&mut dones);
        reports.audit(&mut settleds);
        world
    }
}
