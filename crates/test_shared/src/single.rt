//! Calls on a world, step by step: each stops where a call on a shared sheet does, before a step that touches a word.

use crate::draw::{DrawnCall, Limit};
use crate::grid::cell_of;
use ds_core::event::{EditRequest, Event};
use ds_core::reply::Reply;
use ds_core::take::take;
use ds_eval::task::evaluate;
use ds_eval::value::Value;
use ds_formula::cells::Shape;
use ds_layout::layout::Layout;
use ds_layout::place::Place;
use ds_shared::ended::Ended;
use ds_state::answer::Answer;
use ds_state::recovery::RecoverStage;
use ds_state::show::ShowStage;
use ds_state::situation::Situation;
use ds_state::stage::Stage;
use ds_state::work::WorkStage;
use ds_state::world::World;
use ds_words::words::Word;
use ds_work::offer::task_of;
use std::alloc::Global;

// What a process does next.
#[derive(Clone, Copy)]
enum Due {
    /// A step that touches a word.
    Word,
    /// A step that touches none: a work reads its content, or an answer is given.
    Thought,
    /// It waits for its entry.
    Entry,
}

/// A world that takes whole calls, each up to its end or up to its limit.
#[derive(Drop)]
pub struct Single {
    world: World,
}

// What a call does next that answers, or does not.
fn due_if(answers: bool) -> Due {
    if answers { Due::Thought } else { Due::Word }
}

fn due_in_work(stage: WorkStage) -> Due {
    match stage {
        WorkStage::Read | WorkStage::Answer(_) => Due::Thought,
        WorkStage::Wait => Due::Entry,
        _ => Due::Word,
    }
}

// What the process does next.
fn next_of(world: &World, process: usize) -> Due {
    match world.situations.get(process) {
        Some(Situation::Editing(call)) => due_if(matches!(call.stage, Stage::Answer(_))),
        Some(Situation::Working(call)) => due_in_work(call.stage),
        Some(Situation::Recovering(call)) => due_if(matches!(call.stage, RecoverStage::Answer(_))),
        Some(Situation::Showing(call)) => due_if(matches!(call.stage, ShowStage::Answer(_))),
        _ => Due::Thought,
    }
}

// More steps than a call of the sheet has.
const STEPS: usize = 500;

impl Single {
    /// A new sheet of two columns and two rows, for four processes. `None` where an allocation fails.
    pub fn new(alloc: Global) -> Option<Single> {
        let world = World::new(alloc, Shape::new(2, 2)?, 4).ok()?;
        Some(Single { world })
    }

    /// Whether the process is stopped.
    pub fn is_stopped(&self, process: usize) -> bool {
        match self.world.situations.get(process) {
            Some(Situation::Stopped) => true,
            _ => false,
        }
    }

    /// Whether these are the values of the process's last settled report.
    pub fn reported(&self, process: usize, values: &[Value]) -> bool {
        process < self.world.words.layout().processes && self.world.reports.of(process) == values
    }

    // The event that begins the call.
    fn begin(&self, alloc: Global, process: usize, call: DrawnCall) -> Option<Event> {
        let shape = self.world.words.layout().shape;
        match call {
            DrawnCall::Edit { cell, text } => Some(Event::BeginEdit(EditRequest {
                process,
                cell: cell_of(shape, cell)?,
                text: Vec::from_slice(alloc, text.as_bytes()).ok()?,
            })),
            DrawnCall::Work(cell) => Some(Event::BeginWork(process, cell_of(shape, cell)?)),
            DrawnCall::Recover => Some(Event::BeginRecover(process)),
            DrawnCall::Show => Some(Event::BeginShow(process)),
        }
    }

    // The next event of a call that is under way, and the call's end, where that is the last one.
    fn go_on(
        &mut self,
        alloc: Global,
        process: usize,
        limit: &mut Limit,
    ) -> Result<Option<Ended<Answer>>, ()> {
        let event = match next_of(&self.world, process) {
            Due::Word if limit.is_over() => Event::Stop(process),
            Due::Word | Due::Thought => Event::Step(process),
            Due::Entry => match task_of(alloc, &self.world, process) {
                Ok(task) => Event::Offer(evaluate(task)),
                Err(_) => return Err(()),
            },
        };
        match take(alloc, &mut self.world, &event) {
            Reply::Stepped => Ok(None),
            Reply::Answered(answer) => Ok(Some(Ended::Answered(answer))),
            Reply::Stopped => Ok(Some(Ended::Stopped)),
            _ => Err(()),
        }
    }

    // A call that has begun, to its end.
    fn drive(&mut self, alloc: Global, process: usize, mut limit: Limit) -> Option<Ended<Answer>> {
        for _ in 0..STEPS {
            match self.go_on(alloc, process, &mut limit) {
                Ok(None) => {}
                Ok(ended) => return ended,
                Err(()) => return None,
            }
        }
        None
    }

    /// A call of a process under a limit: how it ended. `None` where there is no such call, or where an allocation
    /// fails.
    pub fn call(
        &mut self,
        alloc: Global,
        process: usize,
        call: DrawnCall,
        limit: Limit,
    ) -> Option<Ended<Answer>> {
        let event = self.begin(alloc, process, call)?;
        match take(alloc, &mut self.world, &event) {
            Reply::Begun(_) | Reply::Entered => self.drive(alloc, process, limit),
            Reply::Refused(refusal) => Some(Ended::Refused(refusal)),
            _ => None,
        }
    }

    /// Each process stops.
    pub fn stop(&mut self, alloc: Global) {
        for process in 0..4 {
            let _reply = take(alloc, &mut self.world, &Event::Stop(process));
        }
    }

    // A word is evicted, where its sides differ.
    fn evict(&mut self, alloc: Global, place: Place) {
        if let Some(word) = self.word(place) {
            if word.cached != word.persisted {
                let _reply = take(alloc, &mut self.world, &Event::Evict(place));
            }
        }
    }

    /// A crash, before which the words with these numbers were evicted.
    pub fn crash(&mut self, alloc: Global, sides: &[bool]) {
        let layout = self.world.words.layout();
        for (number, is_evicted) in sides.iter().enumerate() {
            if *is_evicted && number < layout.words() {
                self.evict(alloc, layout.place(number));
            }
        }
        let _reply = take(alloc, &mut self.world, &Event::Crash);
    }

    /// The two sides of the word at a place; `None` where there is none.
    pub fn word(&self, place: Place) -> Option<Word> {
        if self.world.words.layout().contains(place) {
            Some(self.world.words.word(place))
        } else {
            None
        }
    }

    /// What fixes its words.
    pub fn layout(&self) -> Layout {
        self.world.words.layout()
    }
}
