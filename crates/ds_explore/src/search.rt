//! Goes through all orders.

ghost use Rattle.std.specs.Prelude.{◌≡◌, ◌-◌, ◌^◌, true, IfErr, IfOk, IfSome, IsTrue, length};
ghost use Rattle.ds_script_stops.specs.Reaching.{MeetsFault};
ghost use Rattle.ds_explore.specs.Judging.{IsJudgeOf, texts_of};
ghost use Rattle.ds_explore_state.specs.Closed.{keys_of};
ghost use Rattle.ds_explore_state.specs.States.{all_places, groups_of};
ghost use Rattle.ds_explore_state.specs.Following.{HasAllDirt, IsKept, KnowsBuffers};
ghost use Rattle.ds_explore_state.specs.Orders.{seats_of};
ghost use Rattle.ds_explore_state.specs.Buffers.{HasEmptyBuffers};
ghost use Rattle.ds_explore.specs.Starts.{IsStart};
ghost use Rattle.ds_explore.specs.Whole.{HasGraph};

use crate::among::Outcomes;
use crate::graph::{Circle, Lead, Node};
use crate::judge::Judge;
use crate::options::{Options, Watcher};
use crate::outcomes::{Finding, Findings};
use ds_explore_state::choices::{Choice, moves_of};
use ds_explore_state::closure::{Found, draw_graph};
use ds_explore_state::orders::{Allowed, is_busy, is_dirty};
use ds_explore_state::position::{Move, Position, is_in_call, start};
use ds_explore_state::states::States;
use ds_explore_state::touched::Touched;
use ds_formula::cells::Shape;
use ds_paths::graph::Edge;
use ds_script_stops::reach::Short;
use ds_state::world::World;
use std::alloc::{AllocError, Global};
use std::collections::HashMap;

/// Where orders begin.
#[derive(Drop)]
pub(crate) struct Start {
    /// What the orders are asked to have.
    pub(crate) options: Options,
    /// The first state.
    pub(crate) first: Position,
    /// The words that orders may touch.
    pub(crate) touched: Touched,
    pub(crate) judge: Judge,
    /// What may happen, by its number.
    pub(crate) moves: Vec<Move>,
}

// A state that is being gone through.
#[derive(Drop)]
struct Frame {
    state: u32,
    // What has not yet happened in it, last first.
    ahead: Vec<u32>,
    edges: Vec<Lead>,
    end: Option<usize>,
    crash: Option<usize>,
    // What a crash leaves, where it has not come yet.
    crashes: Option<Vec<u32>>,
    // The state itself, as long as something has not happened in it.
    position: Option<Position>,
}

impl Frame {
    // The frame with the state itself.
    fn with(self, position: Position) -> Frame {
        Frame {
            position: Some(position),
            ..self
        }
    }

    // What has happened in it last, and has led to another state.
    fn latest(&self) -> u32 {
        match self.edges.last() {
            Some(lead) => lead.by,
            None => u32::MAX,
        }
    }

    // What is kept of it after all that may happen in it.
    fn node(self) -> Node {
        Node {
            state: self.state,
            edges: self.edges,
            end: self.end,
            crash: self.crash,
        }
    }

    // The state, for what happens next in it: a copy as long as more has not happened.
    fn position(&mut self, alloc: Global) -> Result<Option<Position>, AllocError> {
        if self.ahead.is_empty() && self.crashes.is_none() {
            return Ok(self.position.take());
        }
        match &self.position {
            Some(position) => Ok(Some(position.copy(alloc)?)),
            None => Ok(None),
        }
    }
}

/// The orders as far as they were gone through.
#[derive(Drop)]
pub(crate) struct Search {
    /// The states that were found.
    pub(crate) found: States,
    left: Vec<bool>,
    crashes: HashMap<Vec<u32>, usize>,
    frames: Vec<Frame>,
    /// The outcomes.
    pub(crate) outcomes: Findings,
    /// The states, each after those that it leads to.
    pub(crate) nodes: Vec<Node>,
    /// Whether there are more states than there may be.
    pub(crate) is_cut: bool,
    /// What has happened where that was seen, from the first state on.
    pub(crate) way: Vec<u32>,
    /// The first order that was seen to come to a state again.
    pub(crate) again: Option<Circle>,
}

// What is done next.
enum Next {
    // This happens in the last state.
    Happens(u32),
    // A crash comes, which leaves this.
    Crashes(Vec<u32>),
    // All that may happen in the last state has happened.
    Leaves,
    // No state is left.
    Ends,
}

// The words that orders may touch, what may happen in them, and who judges them.
fn prepared(alloc: Global, world: &World) -> Result<(Touched, Vec<Move>, Judge), AllocError>
    ensures evicts { IfOk result (λ made. made.0.places.items ≡ all_places (groups_of made.0)) }
    ensures dirt { IfOk result (λ made. HasAllDirt world.now made.0.places.items) }
    ensures judges { IfOk result (λ made. IsJudgeOf world.now made.2) }
{
    let judge = Judge::new(alloc, world)?;
    let touched = Touched::of(alloc, world)?;
    let moves = moves_of(alloc, world.words.layout().processes, &touched.places)?;
    Ok((touched, moves, judge))
}

impl Start {
    // The orders that begin in this state. An error means that an allocation failed.
    fn of(alloc: Global, first: Position, options: Options) -> Result<Start, AllocError>
        ensures options { IfOk result (λ start. start.options ≡ options) }
        ensures first { IfOk result (λ start. start.first ≡ first) }
        ensures judges { IfOk result (λ start. IsJudgeOf first.world start.judge) }
        ensures evicts { IfOk result (λ start. start.touched.places.items ≡ all_places (groups_of start.touched)) }
        ensures dirt { IfOk result (λ start. HasAllDirt first.world start.touched.places.items) }
    {
        let (touched, moves, judge) = prepared(alloc, &first.world)?;
        Ok(Start {
            options,
            first,
            touched,
            judge,
            moves,
        })
    }

    // The orders of the calls that are under way in this world.
    fn within(alloc: Global, world: World, options: Options) -> Result<Start, AllocError>
        ensures options { IfOk result (λ start. start.options ≡ options) }
        ensures first { IfOk result (λ start. start.first.world ≡ world) }
        ensures known { IfOk result (λ start. HasEmptyBuffers world → KnowsBuffers start.first) }
        ensures judges { IfOk result (λ start. IsJudgeOf start.first.world start.judge) }
        ensures evicts { IfOk result (λ start. start.touched.places.items ≡ all_places (groups_of start.touched)) }
        ensures dirt { IfOk result (λ start. HasAllDirt start.first.world start.touched.places.items) }
    {
        let first = Position::new(alloc, world)?;
        Start::of(alloc, first, options)
    }

    /// The orders of the calls that are under way where the script ends. An error is why it does not end.
    pub(crate) fn new(alloc: Global, script: &[u8], options: Options) -> Result<Start, Short>
        ensures short { IfErr result (MeetsFault true script.now (2 ^ 64 - 1)) }
        ensures begins { IfOk result (IsStart script.now options) }
    {
        let world = start(alloc, script)?;
        match Start::within(alloc, world, options) {
            Ok(start) => Ok(start),
            Err(_) => Err(Short::NoMemory),
        }
    }

    /// The shape of the sheet.
    pub(crate) fn shape(&self) -> Shape
        ensures { result ≡ self.now.first.world.sheet.layout.shape }
    {
        self.first.world.words.layout().shape
    }

    /// The first state.
    pub(crate) fn position(&self, alloc: Global) -> Result<Position, AllocError>
        ensures world { IfOk result (λ copy. copy.world ≡ self.now.first.world) }
        ensures seats { IfOk result (λ copy. seats_of copy ≡ seats_of self.now.first) }
    {
        self.first.copy(alloc)
    }

    // What has this number happens.
    fn happen(&self, alloc: Global, position: &mut Position, by: u32) -> Result<(), AllocError> {
        if let Some(next) = self.moves.get(by as usize) {
            let _written = position.apply(alloc, *next)?;
        }
        Ok(())
    }

    // Whether this may happen where a call is under way.
    fn may_happen(&self, position: &Position, next: Move) -> bool {
        match next {
            Move::Step(process) => is_busy(position, process),
            Move::Stop(process) => self.options.stops && is_busy(position, process),
            Move::Evict(place) => self.options.evictions && is_dirty(&position.world, place),
        }
    }

    // What may happen in a state, last first.
    fn ahead(&self, alloc: Global, position: &Position) -> Result<Vec<u32>, AllocError> {
        let mut ahead = Vec::new(alloc);
        if !position.is_under_way() {
            return Ok(ahead);
        }
        let mut by = 0u32;
        for next in &self.moves {
            if self.may_happen(position, *next) {
                ahead.push(by)?;
            }
            by = by.saturating_add(1);
        }
        ahead.reverse();
        Ok(ahead)
    }

    // The call of a process is carried out to its end; what happens is added to the path.
    fn finish(
        &self,
        alloc: Global,
        position: &mut Position,
        process: usize,
        path: &mut Vec<u32>,
    ) -> Result<(), AllocError> {
        let Ok(by) = u32::try_from(process) else {
            return Err(AllocError);
        };
        for _ in 0..u64::MAX {
            if !is_in_call(&position.world, process) {
                break;
            }
            self.happen(alloc, position, by)?;
            path.push(by)?;
        }
        Ok(())
    }

    // The calls are carried out one after another, in the order of their processes: what happens on the way.
    fn carry(&self, alloc: Global, position: &mut Position) -> Result<Vec<u32>, AllocError> {
        let mut path = Vec::new(alloc);
        for process in 0..position.seats.len() {
            self.finish(alloc, position, process, &mut path)?;
        }
        Ok(path)
    }

    /// The calls are carried out one after another, in the order of their processes: what that comes to, and what
    /// happens on the way.
    pub(crate) fn straight(&self, alloc: Global) -> Result<(Finding, Vec<u32>), AllocError> {
        let mut position = self.position(alloc)?;
        let path = self.carry(alloc, &mut position)?;
        let outcome = self.judge.comes_to(alloc, &position, false)?;
        Ok((outcome, path))
    }
}

impl Search {
    // No state was found yet, and this outcome.
    fn new(alloc: Global, outcomes: Findings) -> Search {
        Search {
            found: States::new(alloc),
            left: Vec::new(alloc),
            crashes: HashMap::new(alloc),
            frames: Vec::new(alloc),
            outcomes,
            nodes: Vec::new(alloc),
            is_cut: false,
            way: Vec::new(alloc),
            again: None,
        }
    }

    // The event with this number has led from the last state to that one.
    fn lead(&mut self, by: u32, to: u32) -> Result<(), AllocError> {
        if let Some(frame) = self.frames.last_mut() {
            frame.edges.push(Lead { by, to })?;
        }
        Ok(())
    }

    // The order that leads on to the last state, and by this event to that one, through which it has come.
    fn circle(&self, alloc: Global, by: u32, to: u32) -> Result<Circle, AllocError> {
        let mut circle = Circle {
            before: Vec::new(alloc),
            around: Vec::new(alloc),
        };
        let mut is_there = false;
        for (index, frame) in self.frames.iter().enumerate() {
            is_there = is_there || frame.state == to;
            let is_last = index.saturating_add(1) == self.frames.len();
            let next = if is_last { by } else { frame.latest() };
            if is_there {
                circle.around.push(next)?;
            } else {
                circle.before.push(next)?;
            }
        }
        Ok(circle)
    }

    // A state that was found before.
    fn meet(&mut self, alloc: Global, by: u32, to: u32) -> Result<(), AllocError> {
        if self.left.get(to as usize) == Some(&true) {
            return self.lead(by, to);
        }
        if self.again.is_none() {
            self.again = Some(self.circle(alloc, by, to)?);
        }
        Ok(())
    }

    // What a crash leaves of a state: the outcome where it came before, else what is to be looked at.
    fn crash_of(
        &mut self,
        alloc: Global,
        start: &Start,
        position: &Position,
    ) -> Result<(Option<usize>, Option<Vec<u32>>), AllocError> {
        if !start.options.crashes {
            return Ok((None, None));
        }
        let key = self.found.crashed_key(alloc, position, &start.touched)?;
        match self.crashes.get(key.as_slice()) {
            Some(outcome) => Ok((Some(*outcome), None)),
            None => Ok((None, Some(key))),
        }
    }

    // The outcome of the orders that end in this state; none where a call is under way.
    fn end_of(
        &mut self,
        alloc: Global,
        start: &Start,
        position: &Position,
    ) -> Result<Option<usize>, AllocError> {
        if position.is_under_way() {
            return Ok(None);
        }
        let outcome = start.judge.comes_to(alloc, position, false)?;
        Ok(Some(self.outcomes.number(alloc, outcome)?))
    }

    // What there is to a state that was not found before, but for the state itself.
    fn frame(
        &mut self,
        alloc: Global,
        start: &Start,
        state: u32,
        position: &Position,
    ) -> Result<Frame, AllocError> {
        let end = self.end_of(alloc, start, position)?;
        let (crash, crashes) = self.crash_of(alloc, start, position)?;
        let ahead = start.ahead(alloc, position)?;
        Ok(Frame {
            state,
            ahead,
            edges: Vec::new(alloc),
            end,
            crash,
            crashes,
            position: None,
        })
    }

    // A state that was not found before is gone through from now on.
    fn open(
        &mut self,
        alloc: Global,
        start: &Start,
        state: u32,
        position: Position,
    ) -> Result<(), AllocError> {
        let frame = self.frame(alloc, start, state, &position)?;
        self.frames.push(frame.with(position))?;
        Ok(())
    }

    // The number of a state that is found now; none where there are as many states as there may be.
    fn next_number(&self, start: &Start) -> Option<u32> {
        let count = self.left.len();
        match u32::try_from(count) {
            Ok(state) if count < start.options.most => Some(state),
            _ => None,
        }
    }

    // There are more states than there may be, which is seen in the last state.
    fn cut(&mut self) -> Result<(), AllocError> {
        self.is_cut = true;
        let before = self.frames.len().saturating_sub(1);
        for frame in self.frames.iter().take(before) {
            self.way.push(frame.latest())?;
        }
        Ok(())
    }

    // The state with this key was found.
    fn keep(&mut self, alloc: Global, key: Vec<u32>) -> Result<(), AllocError> {
        self.found.add(alloc, key)?;
        self.left.push(false)?;
        Ok(())
    }

    // The number of the state that an event has led to, if it was not found before.
    fn number_of(
        &mut self,
        alloc: Global,
        start: &Start,
        by: u32,
        position: &Position,
    ) -> Result<Option<u32>, AllocError> {
        let key = self.found.key(alloc, position, &start.touched)?;
        if let Some(state) = self.found.find(&key) {
            self.meet(alloc, by, state)?;
            return Ok(None);
        }
        let Some(state) = self.next_number(start) else {
            self.cut()?;
            return Ok(None);
        };
        self.keep(alloc, key)?;
        self.lead(by, state)?;
        Ok(Some(state))
    }

    // The state that an event has led to.
    fn visit(
        &mut self,
        alloc: Global,
        start: &Start,
        by: u32,
        position: Position,
    ) -> Result<(), AllocError> {
        match self.number_of(alloc, start, by, &position)? {
            Some(state) => self.open(alloc, start, state, position),
            None => Ok(()),
        }
    }

    // What is done next.
    fn next(&mut self) -> Next {
        let is_cut = self.is_cut;
        let Some(frame) = self.frames.last_mut() else {
            return Next::Ends;
        };
        if is_cut {
            return Next::Leaves;
        }
        match frame.ahead.pop() {
            Some(by) => Next::Happens(by),
            None => match frame.crashes.take() {
                Some(key) => Next::Crashes(key),
                None => Next::Leaves,
            },
        }
    }

    // All that may happen in the last state has happened.
    fn leave(&mut self) -> Result<(), AllocError> {
        let Some(frame) = self.frames.pop() else {
            return Ok(());
        };
        let node = frame.node();
        if let Some(left) = self.left.get_mut(node.state as usize) {
            *left = true;
        }
        self.nodes.push(node)?;
        Ok(())
    }

    // What an order comes to that ends with a crash in the last state.
    fn crashed(&mut self, alloc: Global, start: &Start) -> Result<Finding, AllocError> {
        let position = self.position(alloc)?;
        start.judge.comes_to(alloc, &position, true)
    }

    // The outcome of a crash in the last state, by what it leaves.
    fn crash_number(
        &mut self,
        alloc: Global,
        start: &Start,
        key: Vec<u32>,
    ) -> Result<usize, AllocError> {
        if let Some(number) = self.crashes.get(key.as_slice()) {
            return Ok(*number);
        }
        let outcome = self.crashed(alloc, start)?;
        let number = self.outcomes.number(alloc, outcome)?;
        self.crashes.insert(key, number)?;
        Ok(number)
    }

    // A crash comes in the last state, and leaves this.
    fn crash(&mut self, alloc: Global, start: &Start, key: Vec<u32>) -> Result<(), AllocError> {
        let number = self.crash_number(alloc, start, key)?;
        if let Some(frame) = self.frames.last_mut() {
            frame.crash = Some(number);
        }
        Ok(())
    }

    // The last state, for what happens next in it. It is there until all has happened.
    fn position(&mut self, alloc: Global) -> Result<Position, AllocError> {
        let Some(frame) = self.frames.last_mut() else {
            return Err(AllocError);
        };
        match frame.position(alloc)? {
            Some(position) => Ok(position),
            None => Err(AllocError),
        }
    }

    // What has this number happens in the last state.
    fn go(&mut self, alloc: Global, start: &Start, by: u32) -> Result<(), AllocError> {
        let mut position = self.position(alloc)?;
        start.happen(alloc, &mut position, by)?;
        self.visit(alloc, start, by, position)
    }

    // The first state.
    fn begin(&mut self, alloc: Global, start: &Start) -> Result<(), AllocError> {
        let position = start.position(alloc)?;
        let key = self.found.key(alloc, &position, &start.touched)?;
        self.keep(alloc, key)?;
        self.open(alloc, start, 0, position)
    }

    /// How many states were found.
    pub(crate) fn states(&self) -> usize
        ensures { result ≡ length (keys_of self.now.found) }
    {
        self.found.len()
    }

    /// The graph of the states that were found, where these are all, and the outcomes with these keys, too: where nothing that
    /// may happen leads out of the states, and what orders come to that end in them is among the outcomes. Else none. An error
    /// means that an allocation failed.
    pub(crate) fn graph(
        &self,
        alloc: Global,
        start: &Start,
        keys: &[Vec<u8>],
    ) -> Result<Option<Vec<Edge<Choice>>>, AllocError>
        ensures kept { IfOk result (λ some. IfSome some (λ edges. IsKept (groups_of start.now.touched) start.now.first start.now.first)) }
        ensures graph { IfOk result (λ some. IfSome some (λ edges. HasGraph start.now (texts_of keys.now) self.now.found edges.items)) }
    {
        let found = Found {
            states: &self.found,
            touched: &start.touched,
            allowed: start.options.allowed(),
            first: &start.first,
        };
        let outcomes = Outcomes {
            judge: &start.judge,
            keys,
        };
        draw_graph(alloc, found, &outcomes)
    }
}

/// Goes through all orders from this start on; the first of the outcomes is at hand.
pub(crate) fn go_through<W: Watcher>(
    alloc: Global,
    start: &Start,
    first: Finding,
    watcher: &mut W,
) -> Result<Search, AllocError> {
    let mut search = Search::new(alloc, Findings::new(alloc, first)?);
    search.begin(alloc, start)?;
    for _ in 0..u64::MAX {
        match search.next() {
            Next::Happens(by) => {
                search.go(alloc, start, by)?;
                watcher.found(search.states());
            }
            Next::Crashes(key) => search.crash(alloc, start, key)?,
            Next::Leaves => search.leave()?,
            Next::Ends => return Ok(search),
        }
    }
    Ok(search)
}
