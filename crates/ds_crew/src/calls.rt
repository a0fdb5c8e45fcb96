//! The calls of a locked sheet: each event under the lock, each evaluation outside of it.

ghost use Rattle.std.specs.Prelude.{◌≡◌, ◌<◌, ◌≤◌, ◌+◌, IfSome, IfNone};
ghost use Rattle.ds_layout.specs.Places.{cells_of};
ghost use Rattle.ds_core.specs.Counts.{IsReplyTo, done_of};
ghost use Rattle.ds_core.specs.declared.event.Event.TheVariants.{BeginRecover, BeginShow, Step};
ghost use Rattle.ds_core.specs.declared.reply.Reply.TheVariants.{Answered};
ghost use Rattle.ds_core.specs.Ends.{edits, reports, recoveries};
ghost use Rattle.ds_crew.specs.LockedCalls.{CountsNothing, HasNotBegun, IsKindOf, IsNoStep, came_reply, step_reply, worked_of};
ghost use Rattle.ds_crew.specs.Ends.{AfterShow, AfterStep, BeginsCall, HasReceipt, HasReceiptOf, IsBegin, IsShowBegin, after_edit, after_recovery, edit_begin, edit_reply, recovery_reply, show_reply};
ghost use Rattle.ds_crew.specs.Passes.{with_trail};
ghost use Rattle.ds_crew.specs.Trails.{EndsBy, Enters, GoesOn, HasCalled, HasCalledWork, WorkEnds, and_event};
ghost use Rattle.ds_crew.specs.Kept.{EndsWork, Happened, HasBegun, HasEnded, HasFound, HasMade, HasStepped, HasWorked, IsEntry};
ghost use Rattle.ds_crew.specs.declared.steps.Call.TheVariants.{Edit, Recovery, Show, Work};

use crate::came::Came;
use crate::ended::{Edited, Receipt, Recovered, Reported, Worked};
use crate::locked::LockedSheet;
use crate::pass::{Pass, Trail};
use crate::steps::Call;
use crate::workers::{Gate, Open};
use ds_core::ends::CallEnd;
use ds_core::event::{EditRequest, Event};
use ds_core::reply::Reply;
use ds_eval::task::{Task, evaluate};
use ds_formula::cells::Cell;
use ds_state::answer::EditEnd;
use ds_state::recovery::RecoveryEnd;
use ds_state::show::ShowEnd;
use ds_state::turn::Turn;
use ds_state::work::WorkEnd;
use ds_work::offer::TaskFault;
use std::alloc::Global;
use std::sync::Wait;
use std::sync::ledger::Ledger;

// Each of these takes the lock for one event, and for nothing else.
impl<L: Ledger, M: Ledger> LockedSheet<L, M> {
    // An event that is no step.
    fn happen<R: Wait>(&self, rt: &R, alloc: Global, event: &Event, trail: &mut Trail) -> Reply
        requires { IsNoStep event.now }
        ensures happened { Happened event.now result }
        ensures begun { IsEntry result → HasBegun event.now }
        ensures reply { IsReplyTo event.now result }
        ensures trail { trail.new ≡ and_event trail.old event.now result }
    {
        self.kept.lock(rt).happen(alloc, event, trail)
    }

    // A call begins, and is under way: none; or what it came to at once.
    fn begin<E: CallEnd, R: Wait>(
        &self,
        rt: &R,
        alloc: Global,
        begin: &Event,
        trail: &mut Trail,
    ) -> Option<Came<E>>
        requires { BeginsCall begin.now }
        ensures begun { IfNone result (HasBegun begin.now) }
        ensures at_once { IfSome result (λ came. Happened begin.now (came_reply E.kind came)) }
        ensures not_begun { IfSome result HasNotBegun }
        ensures enters { IfNone result (Enters begin.now trail.old trail.new) }
        ensures alone { IfSome result (λ came. trail.new ≡ and_event trail.old begin.now (came_reply E.kind came)) }
    {
        match self.happen(rt, alloc, begin, trail) {
            Reply::Refused(why) => Some(Came::Refused(why)),
            Reply::NotEnabled => Some(Came::NotEnabled),
            _ => None,
        }
    }

    // A step of work or of a recovery, and what it did to the call; none where the process is in no such call.
    fn step<E: CallEnd, R: Wait>(
        &self,
        rt: &R,
        alloc: Global,
        process: usize,
        call: Call,
        trail: &mut Trail,
    ) -> Option<Turn<E>>
        requires counts { CountsNothing call }
        requires kind { IsKindOf call E.kind }
        ensures happened { HasStepped call process (step_reply E.kind result) }
        ensures trail { trail.new ≡ and_event trail.old (Step process) (step_reply E.kind result) }
    {
        self.kept.lock(rt).step(alloc, process, call, trail)
    }

    // A step of an edit, and what it did to it; none where the pass's process is in none.
    fn step_edit<R: Wait>(
        &self,
        rt: &R,
        alloc: Global,
        pass: &mut Pass<L, M>,
    ) -> Option<Turn<EditEnd>>
        ensures happened { HasStepped Edit pass.old.process (step_reply edits result) }
        ensures pass { pass.new ≡ record pass.old { dones = pass.old.dones + done_of (step_reply edits result); trail = pass.new.trail } }
        ensures trail { pass.new.trail ≡ and_event pass.old.trail (Step pass.old.process) (step_reply edits result) }
    {
        let Pass {
            process,
            last: _,
            dones,
            settleds: _,
            calls: _,
            trail,
        } = pass;
        self.kept.lock(rt).step_edit(alloc, *process, dones, trail)
    }

    // A step of a show, and what it did to it; none where the pass's process is in none.
    fn step_show<R: Wait>(
        &self,
        rt: &R,
        alloc: Global,
        pass: &mut Pass<L, M>,
    ) -> Option<Turn<ShowEnd>>
        ensures happened { HasMade Show pass.old.process (step_reply reports result) }
        ensures process { pass.new.process ≡ pass.old.process }
        ensures pass { AfterStep (cells_of self.now.layout) pass.old (step_reply reports result) pass.new }
        ensures trail { pass.new.trail ≡ and_event pass.old.trail (Step pass.old.process) (step_reply reports result) }
    {
        let cells = self.layout.cells();
        let Pass {
            process,
            last,
            dones: _,
            settleds,
            calls: _,
            trail,
        } = pass;
        self.kept
            .lock(rt)
            .step_show(alloc, *process, cells, settleds, last, trail)
    }

    /// The first cell that is marked, from this one on, by its number; none where the sheet has none.
    /// No event.
    pub fn next_marked<R: Wait>(&self, rt: &R, from: usize) -> Option<usize>
        ensures cell { IfSome result (λ cell. (from ≤ cell) × (cell < cells_of self.now.layout)) }
        ensures found { HasFound (cells_of self.now.layout) from result }
    {
        let cell = self.kept.lock(rt).next_marked(from)?;
        if cell < self.layout.cells() {
            Some(cell)
        } else {
            None
        }
    }

    // The task that the work of a process waits for: no event.
    fn task<R: Wait>(&self, rt: &R, alloc: Global, process: usize) -> Result<Task, TaskFault> {
        self.kept.lock(rt).task(alloc, process)
    }
}

// How an edit ended, by the event that began it and what it came to: its receipt has what was asked for.
fn edited_by(begin: Event, came: Came<EditEnd>) -> Edited
    requires { IsBegin begin }
    ensures reply { edit_reply result ≡ came_reply edits came }
    ensures receipt { HasReceiptOf begin result }
{
    match (begin, came) {
        (Event::BeginEdit(request), Came::Ended(EditEnd::Done(number))) => Edited::Done(Receipt {
            process: request.process,
            number,
            cell: request.cell,
            text: request.text,
        }),
        (_, Came::Ended(EditEnd::Overtaken(number, by))) => Edited::Overtaken { number, by },
        (_, Came::Refused(why)) => Edited::Refused(why),
        _ => Edited::NotEnabled,
    }
}

// How a show ended, by what it came to.
fn reported_by(came: Came<ShowEnd>) -> Reported
    ensures { show_reply result ≡ came_reply reports came }
{
    match came {
        Came::Ended(ShowEnd::Settled) => Reported::Settled,
        Came::Ended(ShowEnd::Unsettled(place, word)) => Reported::Unsettled(place, word),
        Came::Refused(why) => Reported::Refused(why),
        Came::NotEnabled => Reported::NotEnabled,
    }
}

// How a recovery ended, by what it came to.
fn recovered_by(came: Came<RecoveryEnd>) -> Recovered
    ensures { recovery_reply result ≡ came_reply recoveries came }
{
    match came {
        Came::Ended(RecoveryEnd::Last(told)) => Recovered::Last(told),
        Came::Ended(RecoveryEnd::Nothing) => Recovered::Nothing,
        Came::Refused(why) => Recovered::Refused(why),
        Came::NotEnabled => Recovered::NotEnabled,
    }
}

// How work ended, by what it came to.
fn worked_by(came: Came<WorkEnd>) -> Worked
    ensures { result ≡ worked_of came }
{
    match came {
        Came::Ended(end) => Worked::Ended(end),
        Came::Refused(why) => Worked::Refused(why),
        Came::NotEnabled => Worked::NotEnabled,
    }
}

impl<L: Ledger, M: Ledger> LockedSheet<L, M> {
    // The steps of an edit that has begun, until it is answered.
    fn finish_edit<R: Wait>(&self, rt: &R, alloc: Global, pass: &mut Pass<L, M>) -> EditEnd
        ensures happened { HasStepped Edit pass.old.process (Answered (edits.answer result)) }
        ensures pass { pass.new ≡ record pass.old { dones = pass.old.dones + done_of (Answered (edits.answer result)); trail = pass.new.trail } }
        ensures ends { EndsBy Edit pass.old.process (Step pass.old.process) (Answered (edits.answer result)) pass.old.trail pass.new.trail }
    {
        for _ in rt.forever() {
            match self.step_edit(rt, alloc, pass) {
                Some(Turn::Answers(end)) => return end,
                Some(Turn::GoesOn) => {}
                None => {}
            }
        }
        // The loop has no end but an answer: that this line is never reached is proved.
        unreachable!()
    }

    // An edit, from the event that begins it to what it comes to.
    fn edit_as<R: Wait>(
        &self,
        rt: &R,
        alloc: Global,
        pass: &mut Pass<L, M>,
        begin: &Event,
    ) -> Came<EditEnd>
        requires { IsBegin begin.now }
        ensures ended { HasEnded Edit pass.old.process begin.now (came_reply edits result) }
        ensures pass { pass.new ≡ record pass.old { dones = pass.old.dones + done_of (came_reply edits result); trail = pass.new.trail } }
        ensures called { HasCalled Edit pass.old.process begin.now (came_reply edits result) pass.old.trail pass.new.trail }
    {
        match self.begin(rt, alloc, begin, &mut pass.trail) {
            Some(came) => came,
            None => Came::Ended(self.finish_edit(rt, alloc, pass)),
        }
    }

    /// Gives a cell a text: a whole edit by the pass's process, which the pass remembers, with its end. A
    /// Done is counted in the pass's share, and has a receipt of the process, the cell and the text; any
    /// other end drops the text. Where the process migrates the sheet, it is refused as `Busy`.
    pub fn edit<R: Wait>(
        &self,
        rt: &R,
        alloc: Global,
        pass: &mut Pass<L, M>,
        cell: Cell,
        text: Vec<u8>,
    ) -> Edited
        ensures pass { pass.new ≡ with_trail (after_edit cell text.items pass.old result) pass.new.trail }
        ensures called { HasCalled Edit pass.old.process (edit_begin pass.old cell text.items) (edit_reply result) pass.old.trail pass.new.trail }
        ensures receipt { HasReceipt pass.old.process cell text.items result }
    {
        let begin = Event::BeginEdit(EditRequest {
            process: pass.process,
            cell,
            text,
        });
        let came = self.edit_as(rt, alloc, pass, &begin);
        pass.remember(&begin, &came.reply());
        edited_by(begin, came)
    }

    // The steps of a show that has begun, until it is answered.
    fn finish_show<R: Wait>(&self, rt: &R, alloc: Global, pass: &mut Pass<L, M>) -> ShowEnd
        ensures happened { HasStepped Show pass.old.process (Answered (reports.answer result)) }
        ensures process { pass.new.process ≡ pass.old.process }
        ensures pass { AfterStep (cells_of self.now.layout) pass.old (Answered (reports.answer result)) pass.new }
        ensures ends { EndsBy Show pass.old.process (Step pass.old.process) (Answered (reports.answer result)) pass.old.trail pass.new.trail }
    {
        for _ in rt.forever() {
            match self.step_show(rt, alloc, pass) {
                Some(Turn::Answers(end)) => return end,
                Some(Turn::GoesOn) => {}
                None => {}
            }
        }
        // The loop has no end but an answer: that this line is never reached is proved.
        unreachable!()
    }

    // A show, from the event that begins it to what it comes to.
    fn show_as<R: Wait>(
        &self,
        rt: &R,
        alloc: Global,
        pass: &mut Pass<L, M>,
        begin: &Event,
    ) -> Came<ShowEnd>
        requires { IsShowBegin begin.now }
        ensures ended { HasEnded Show pass.old.process begin.now (came_reply reports result) }
        ensures process { pass.new.process ≡ pass.old.process }
        ensures pass { AfterStep (cells_of self.now.layout) pass.old (came_reply reports result) pass.new }
        ensures called { HasCalled Show pass.old.process begin.now (came_reply reports result) pass.old.trail pass.new.trail }
    {
        match self.begin(rt, alloc, begin, &mut pass.trail) {
            Some(came) => came,
            None => Came::Ended(self.finish_show(rt, alloc, pass)),
        }
    }

    /// Reports the values of all cells: a whole show by the pass's process, which the pass remembers,
    /// with its end. A Settled is counted in the pass's share, and its values are those that the pass then
    /// keeps: `Pass::last`. Any other end leaves both as they were. Where the process migrates the sheet, it is
    /// refused as `Busy`.
    pub fn show<R: Wait>(&self, rt: &R, alloc: Global, pass: &mut Pass<L, M>) -> Reported
        ensures pass { AfterShow (cells_of self.now.layout) pass.old result pass.new }
        ensures called { HasCalled Show pass.old.process (BeginShow pass.old.process) (show_reply result) pass.old.trail pass.new.trail }
    {
        let begin = Event::BeginShow(pass.process);
        let came = self.show_as(rt, alloc, pass, &begin);
        pass.remember(&begin, &came.reply());
        reported_by(came)
    }
}

impl<L: Ledger, M: Ledger> LockedSheet<L, M> {
    // Work that waits: its task is copied under the lock, evaluated outside of it, and offered. An offer of a task
    // that nobody waits for any more changes nothing. How the work ended, where its task could not be copied.
    fn evaluate<G: Gate, R: Wait>(
        &self,
        rt: &R,
        alloc: Global,
        process: usize,
        cell: Cell,
        gate: &G,
        trail: &mut Trail,
    ) -> Option<WorkEnd>
        ensures ended { IfSome result (EndsWork process) }
        ensures goes_on { IfNone result (GoesOn Work process trail.old trail.new) }
        ensures ends { IfSome result (λ end. WorkEnds process end trail.old trail.new) }
    {
        let task = match self.task(rt, alloc, process) {
            Ok(task) => task,
            Err(TaskFault::NoTask) => return None,
            Err(TaskFault::NoMemory) => {
                let _stopped = self.happen(rt, alloc, &Event::Stop(process), trail);
                return Some(WorkEnd::NoMemory);
            }
        };
        gate.before(process, cell);
        let evaluated = evaluate(task);
        gate.after(process, cell);
        let _offered = self.happen(rt, alloc, &Event::Offer(evaluated), trail);
        None
    }

    // A step of work, or the evaluation that it waits for. How the work ended, where it did.
    fn go_on<G: Gate, R: Wait>(
        &self,
        rt: &R,
        alloc: Global,
        process: usize,
        cell: Cell,
        gate: &G,
        trail: &mut Trail,
    ) -> Option<WorkEnd>
        ensures ended { IfSome result (EndsWork process) }
        ensures goes_on { IfNone result (GoesOn Work process trail.old trail.new) }
        ensures ends { IfSome result (λ end. WorkEnds process end trail.old trail.new) }
    {
        match self.step(rt, alloc, process, Call::Work, trail) {
            Some(Turn::GoesOn) => None,
            Some(Turn::Answers(end)) => Some(end),
            None => self.evaluate(rt, alloc, process, cell, gate, trail),
        }
    }

    // The steps of a work that has begun, with the offer that it waits for, until it ends.
    fn finish_work<G: Gate, R: Wait>(
        &self,
        rt: &R,
        alloc: Global,
        process: usize,
        cell: Cell,
        gate: &G,
        trail: &mut Trail,
    ) -> WorkEnd
        ensures ended { EndsWork process result }
        ensures ends { WorkEnds process result trail.old trail.new }
    {
        for _ in rt.forever() {
            if let Some(end) = self.go_on(rt, alloc, process, cell, gate, trail) {
                return end;
            }
        }
        // The loop has no end but an answer: that this line is never reached is proved.
        unreachable!()
    }

    // A whole work by a process, with a gate.
    pub(crate) fn work_as<G: Gate, R: Wait>(
        &self,
        rt: &R,
        alloc: Global,
        process: usize,
        cell: Cell,
        gate: &G,
        trail: &mut Trail,
    ) -> Worked
        ensures worked { HasWorked process cell result }
        ensures called { HasCalledWork process cell result trail.old trail.new }
    {
        match self.begin(rt, alloc, &Event::BeginWork(process, cell), trail) {
            Some(came) => worked_by(came),
            None => Worked::Ended(self.finish_work(rt, alloc, process, cell, gate, trail)),
        }
    }

    /// Recalculates a cell: a whole work by the pass's process. The evaluation is made while the lock
    /// is free, so that works on other cells go on meanwhile. Work counts nothing: the pass stays. Where the
    /// process migrates the sheet, it is refused as `Busy`.
    pub fn work<R: Wait>(&self, rt: &R, alloc: Global, pass: &mut Pass<L, M>, cell: Cell) -> Worked
        ensures pass { pass.new ≡ with_trail pass.old pass.new.trail }
        ensures worked { HasWorked pass.old.process cell result }
        ensures called { HasCalledWork pass.old.process cell result pass.old.trail pass.new.trail }
    {
        self.work_as(rt, alloc, pass.process, cell, &Open, &mut pass.trail)
    }

    // A whole recovery by a process, from the event that begins it to what it comes to.
    pub(crate) fn recover_as<R: Wait>(
        &self,
        rt: &R,
        alloc: Global,
        process: usize,
        begin: &Event,
        trail: &mut Trail,
    ) -> Came<RecoveryEnd>
        requires { begin.now ≡ BeginRecover process }
        ensures ended { HasEnded Recovery process begin.now (came_reply recoveries result) }
        ensures called { HasCalled Recovery process begin.now (came_reply recoveries result) trail.old trail.new }
    {
        match self.begin(rt, alloc, begin, trail) {
            Some(came) => came,
            None => Came::Ended(self.finish_recovery(rt, alloc, process, trail)),
        }
    }

    // The steps of a recovery that has begun, until it is answered.
    fn finish_recovery<R: Wait>(
        &self,
        rt: &R,
        alloc: Global,
        process: usize,
        trail: &mut Trail,
    ) -> RecoveryEnd
        ensures happened { HasStepped Recovery process (Answered (recoveries.answer result)) }
        ensures ends { EndsBy Recovery process (Step process) (Answered (recoveries.answer result)) trail.old trail.new }
    {
        for _ in rt.forever() {
            match self.step(rt, alloc, process, Call::Recovery, trail) {
                Some(Turn::Answers(end)) => return end,
                Some(Turn::GoesOn) => {}
                None => {}
            }
        }
        // The loop has no end but an answer: that this line is never reached is proved.
        unreachable!()
    }

    /// Recovers the pass's process, stopped or idle. The pass remembers the recovery, with its end, and
    /// counts nothing. Where the process itself migrates the sheet, it is refused as `Busy`; where another one
    /// does, and this one is in no call, as `Migrating`, with the process that migrates.
    pub fn recover<R: Wait>(&self, rt: &R, alloc: Global, pass: &mut Pass<L, M>) -> Recovered
        ensures pass { pass.new ≡ with_trail (after_recovery pass.old result) pass.new.trail }
        ensures called { HasCalled Recovery pass.old.process (BeginRecover pass.old.process) (recovery_reply result) pass.old.trail pass.new.trail }
    {
        let begin = Event::BeginRecover(pass.process);
        let came = self.recover_as(rt, alloc, pass.process, &begin, &mut pass.trail);
        pass.remember(&begin, &came.reply());
        recovered_by(came)
    }
}
