//! A world with calls under way, and what they were answered.

ghost use Rattle.std.specs.Prelude.{◌≡◌, ◌↔◌, ◌<◌, ◌-◌, ◌^◌, [], true, ℕ, All, None, Some, IfErr, IfOk, IsFalse, IsTrue, OnOk, length, slice_get};
ghost use Rattle.ds_state.specs.Value.{WorldValue, world_of};
ghost use Rattle.ds_state.specs.declared.situation.Situation.{Situation};
ghost use Rattle.ds_work.specs.Reading.{unseen};
ghost use Rattle.ds_core.specs.Takes.{Fits};
ghost use Rattle.ds_core.specs.declared.event.Event.TheVariants as events;
ghost use Rattle.ds_explore_state.specs.Buffers.{HasEmptyBuffer, HasEmptyBuffers};
ghost use Rattle.ds_explore_state.specs.Following.{KnowsBuffers};
ghost use Rattle.ds_explore_state.specs.Orders.{HappensAt, IsBusy, IsReadAnew, IsReady, IsUnderWay, ReadsWhereItShould, access_in, buffer_after, seat_after, seat_stopped, seats_of, written_by};
ghost use Rattle.ds_explore_state.specs.declared.position.Move.TheVariants as moves;
ghost use Rattle.ds_script_stops.specs.Reaching.{EndsHere, MeetsFault};
ghost use Rattle.ds_explore_state.specs.States.{lost_seat, seat_of, word_in};

use crate::buffers::has_empty_buffer;
use crate::describe::word_at;
use ds_calls::finish::step_once;
use ds_core::event::Event;
use ds_core::reply::Reply;
use ds_core::take::take;
use ds_eval::inputs::Input;
use ds_eval::value::Value;
use ds_formula::cells::Shape;
use ds_layout::layout::Layout;
use ds_layout::place::{Edition, Place};
use ds_script::carry::new_world;
use ds_script::texts::reply_bytes;
use ds_script_io::line::INPUT_LIMIT;
use ds_script_stops::reach::{Short, reach};
use ds_state::answer::Answer;
use ds_state::situation::Situation;
use ds_state::work::WorkStage;
use ds_state::world::World;
use ds_words::access::{Access, BufferEntry};
use ds_work::offer::offer_own;
use std::alloc::{AllocError, Global};

/// What may happen next, beside the end.
#[derive(Clone, Copy, Debug, PartialEq, Eq)]
pub enum Move {
    /// The process makes a step.
    Step(usize),
    /// The process stops.
    Stop(usize),
    /// The word is evicted.
    Evict(Place),
}

/// A process, as an order has left it.
#[derive(Drop)]
pub struct ProcessState {
    /// What its buffer holds, oldest first.
    pub buffer: Vec<BufferEntry<Place>>,
    /// What its call was answered, if it was.
    pub answer: Option<Answer>,
    /// The text of that, or of its stop.
    pub text: Vec<u8>,
}

/// A world with calls under way, and what they were answered.
#[derive(Drop)]
pub struct Position {
    /// The world.
    pub world: World,
    /// The processes.
    pub seats: Vec<ProcessState>,
}

/// The world that a script leads to. An error is why it does not end.
pub fn start(alloc: Global, script: &[u8]) -> Result<World, Short>
    ensures ends { IfOk result (EndsHere true script.now (2 ^ 64 - 1)) }
    ensures faults { IfErr result (MeetsFault true script.now (2 ^ 64 - 1)) }
{
    if script.len() > INPUT_LIMIT {
        return Err(Short::NoMemory);
    }
    let shape = Shape {
        columns: 2,
        rows: 2,
    };
    let layout = Layout {
        shape,
        processes: 2,
    };
    let Ok(mut world) = new_world(alloc, layout, Edition::Second) else {
        return Err(Short::NoMemory);
    };
    match reach(alloc, script, true, u64::MAX, &mut world) {
        Err(Short::Ended) => Ok(world),
        Err(short) => Err(short),
        Ok(()) => Err(Short::NoMemory),
    }
}

/// Whether a process is in a call.
pub fn is_in_call(world: &World, process: usize) -> bool
    ensures { IsTrue result ↔ IsUnderWay (slice_get world.now.situations process) }
{
    match world.situations.get(process) {
        None | Some(Situation::Idle(_)) | Some(Situation::Stopped) => false,
        Some(_) => true,
    }
}

// What the next step of a process does to the words.
fn wanted(world: &World, process: usize) -> Access<Place>
    ensures { result ≡ access_in world.now.sheet.layout.shape (slice_get world.now.situations process) }
{
    match world.situations.get(process) {
        Some(Situation::Editing(call)) => ds_edit::machine::want(call),
        Some(Situation::Working(call)) => {
            ds_work::machine::want(call, world.words.layout().shape)
        }
        Some(Situation::Showing(call)) => ds_show::machine::want(call),
        Some(Situation::Recovering(call)) => ds_recover::machine::want(call),
        Some(Situation::Migrating(call)) => ds_recover::migrate::want(call),
        None | Some(Situation::Idle(_)) | Some(Situation::Stopped) => Access::Nothing,
    }
}

// The work of a process that waits for an entry is given it.
fn make_ready(world: &mut World, process: usize)
    ensures { IsReady world.old process world.new }
{
    let _offered = offer_own(world, process);
}

// Whether a work of the process is to read its text.
fn is_to_read(world: &World, process: usize) -> bool
    ensures { IsFalse result → (s : Situation) → ReadsWhereItShould ((world_of world.now).situation process) s }
{
    match world.situations.get(process) {
        Some(Situation::Working(call)) => matches!(call.stage, WorkStage::Read),
        _ => false,
    }
}

// Whether the reference was not looked at yet.
fn is_unseen(input: Input) -> bool
    ensures { IsTrue result → input ≡ unseen input.cell }
{
    match input.entry.value {
        Value::Blank => input.entry.height == 0,
        _ => false,
    }
}

// Whether no reference was looked at yet.
fn are_unseen(inputs: &[Input]) -> bool
    ensures { IsTrue result → All (λ input. input ≡ unseen input.cell) inputs.now }
{
    for number in 0..inputs.len() {
        if !is_unseen(inputs[number]) {
            return false;
        }
    }
    true
}

// Whether a work of the process has read its text: it did not lack the memory, and has looked at no reference yet.
fn has_read(world: &World, process: usize) -> bool
    ensures { IsTrue result → IsReadAnew ((world_of world.now).situation process) }
{
    match world.situations.get(process) {
        Some(Situation::Working(call)) => {
            !matches!(call.stage, WorkStage::Give) && are_unseen(call.inputs.as_slice())
        }
        _ => false,
    }
}

// Whether a work of the process has read its text, if it was to.
fn reads_well(world: &World, process: usize, was_to_read: bool) -> bool
    ensures { IsTrue result → (before : Situation) → (IsFalse was_to_read → (s : Situation) → ReadsWhereItShould before s) → ReadsWhereItShould before ((world_of world.now).situation process) }
{
    !was_to_read || has_read(world, process)
}

/// One step of a process, as the command `step` makes it: what it does to the words, and its reply. An error means that
/// an allocation failed.
pub fn step(
    alloc: Global,
    world: &mut World,
    process: usize,
) -> Result<(Access<Place>, Reply), AllocError>
    ensures { IfOk result (λ made. (mid : WorldValue) × IsReady world.old process mid × (made.0 ≡ access_in mid.sheet.layout.shape (slice_get mid.situations process)) × Fits mid (events.Step process) made.1 world.new
        × ReadsWhereItShould ((world_of mid).situation process) ((world_of world.new).situation process)) }
{
    make_ready(world, process);
    let access = wanted(world, process);
    let is_to_read = is_to_read(world, process);
    let reply = step_once(alloc, world, process);
    if !reads_well(world, process, is_to_read) {
        return Err(AllocError);
    }
    Ok((access, reply))
}

// How many entries of a buffer are there in a world: those that the call writes back beyond those that it flushes.
fn entries_at(alloc: Global, world: &World, process: usize) -> Result<usize, AllocError> {
    let mut world = world.copy(alloc)?;
    let mut flushed = 0usize;
    let mut written = 0usize;
    for _ in 0..u64::MAX {
        let (access, reply) = step(alloc, &mut world, process)?;
        match access {
            Access::Flush(_) => flushed = flushed.saturating_add(1),
            Access::Back => written = written.saturating_add(1),
            _ => {}
        }
        if reply != Reply::Stepped {
            break;
        }
    }
    Ok(written.saturating_sub(flushed))
}

// How many entries of a buffer are there in a world.
fn entries_of(alloc: Global, world: &World, process: usize) -> Result<usize, AllocError>
    ensures { IfOk result (λ entries. HasEmptyBuffer ((world_of world.now).situation process) → entries ≡ 0) }
{
    if has_empty_buffer(world, process) {
        return Ok(0);
    }
    entries_at(alloc, world, process)
}

// A buffer of that number of entries that are not known, but are the same in each order.
fn unknown(alloc: Global, count: usize) -> Result<Vec<BufferEntry<Place>>, AllocError>
    ensures { IfOk result (λ buffer. count ≡ 0 → buffer.items ≡ []) }
{
    if count == 0 {
        return Ok(Vec::new(alloc));
    }
    let mut buffer = Vec::new(alloc);
    for number in 0..count {
        buffer.push(BufferEntry {
            place: Place::Version,
            class: Place::Version.class(),
            value: number as u64,
        })?;
    }
    Ok(buffer)
}

// A buffer after an access, in the world after it.
fn buffered(
    alloc: Global,
    world: &World,
    access: Access<Place>,
    buffer: &[BufferEntry<Place>],
) -> Result<Vec<BufferEntry<Place>>, AllocError>
    ensures { IfOk result (λ after. after.items ≡ buffer_after access world.now buffer.now) }
{
    let mut after = Vec::from_slice(alloc, buffer)?;
    match access {
        Access::Flush(place) => after.push(BufferEntry {
            place,
            class: place.class(),
            value: word_at(world, place).cached,
        })?,
        Access::Back => {
            if !after.is_empty() {
                let _oldest = after.remove(0);
            }
        }
        _ => {}
    }
    Ok(after)
}

// The place of the word that an access may write, by a process with this buffer.
fn written_by(access: Access<Place>, buffer: &[BufferEntry<Place>]) -> Option<Place>
    ensures { result ≡ written_by access buffer.now }
{
    match access {
        Access::Store(place, _) | Access::Or(place, _) => Some(place),
        Access::SwapIf {
            place,
            expected: _,
            value: _,
        } => Some(place),
        Access::Back => match buffer.first() {
            Some(entry) => Some(entry.place),
            None => None,
        },
        Access::Nothing | Access::Load(_) | Access::Flush(_) => None,
    }
}

impl ProcessState {
    // A process with that number of entries in its buffer.
    fn new(alloc: Global, entries: usize) -> Result<ProcessState, AllocError>
        ensures { IfOk result (λ seat. entries ≡ 0 → seat.buffer.items ≡ []) }
    {
        Ok(ProcessState {
            buffer: unknown(alloc, entries)?,
            answer: None,
            text: Vec::new(alloc),
        })
    }

    // What it has after a step with this access and this reply, in the world after it.
    fn stepped(
        &self,
        alloc: Global,
        world: &World,
        process: usize,
        access: Access<Place>,
        reply: Reply,
    ) -> Result<ProcessState, AllocError>
        ensures { IfOk result (λ seat. seat_of seat ≡ seat_after process access reply world.now (seat_of self.now)) }
    {
        let buffer = buffered(alloc, world, access, &self.buffer)?;
        match reply {
            Reply::Answered(answer) => Ok(ProcessState {
                buffer,
                answer: Some(answer),
                text: reply_bytes(alloc, world, process, reply)?,
            }),
            _ => Ok(ProcessState {
                buffer,
                answer: self.answer,
                text: Vec::from_slice(alloc, &self.text)?,
            }),
        }
    }

    // What it has after its stop with this reply, in the world after it.
    fn stopped(
        &self,
        alloc: Global,
        world: &World,
        process: usize,
        reply: Reply,
    ) -> Result<ProcessState, AllocError>
        ensures { IfOk result (λ seat. seat_of seat ≡ seat_stopped process reply world.now (seat_of self.now)) }
    {
        Ok(ProcessState {
            buffer: Vec::new(alloc),
            answer: self.answer,
            text: reply_bytes(alloc, world, process, reply)?,
        })
    }

    /// The same, in memory of its own. An error means that an allocation failed.
    pub(crate) fn copy(&self, alloc: Global) -> Result<ProcessState, AllocError>
        ensures { IfOk result (λ seat. seat_of seat ≡ seat_of self.now) }
    {
        Ok(ProcessState {
            buffer: Vec::from_slice(alloc, &self.buffer)?,
            answer: self.answer,
            text: Vec::from_slice(alloc, &self.text)?,
        })
    }

    /// What a crash leaves of it: the answer. An error means that an allocation failed.
    pub(crate) fn lost(&self, alloc: Global) -> Result<ProcessState, AllocError>
        ensures { IfOk result (λ seat. seat_of seat ≡ lost_seat self.now) }
    {
        Ok(ProcessState {
            buffer: Vec::new(alloc),
            answer: self.answer,
            text: Vec::from_slice(alloc, &self.text)?,
        })
    }
}

impl Position {
    /// A world that a script leads to, before its calls go on.
    pub fn new(alloc: Global, world: World) -> Result<Position, AllocError>
        ensures world { IfOk result (λ position. position.world ≡ world) }
        ensures known { IfOk result (λ position. HasEmptyBuffers world → KnowsBuffers position) }
    {
        let mut seats = Vec::new(alloc);
        for process in 0..world.words.layout().processes {
            let entries = entries_of(alloc, &world, process)?;
            let seat = ProcessState::new(alloc, entries)?;
            seats.push(seat)?;
        }
        Ok(Position { world, seats })
    }

    /// An equal position, in memory of its own. An error means that an allocation failed.
    pub fn copy(&self, alloc: Global) -> Result<Position, AllocError>
        ensures world { IfOk result (λ copy. copy.world ≡ self.now.world) }
        ensures seats { IfOk result (λ copy. seats_of copy ≡ seats_of self.now) }
    {
        let mut seats = Vec::new(alloc);
        for process in 0..self.seats.len() {
            seats.push(self.seats[process].copy(alloc)?)?;
        }
        Ok(Position {
            world: self.world.copy(alloc)?,
            seats,
        })
    }

    // A step of a process, and what it was answered. The word at this place may be written.
    fn step(&mut self, alloc: Global, process: usize) -> Result<Option<Place>, AllocError>
        ensures { IfOk result (λ written. HappensAt self.old (moves.Step process) written self.new) }
    {
        let (access, reply) = step(alloc, &mut self.world, process)?;
        if process >= self.seats.len() {
            return Ok(written_by(access, &[]));
        }
        let written = written_by(access, &self.seats[process].buffer);
        let seat = self.seats[process].stepped(alloc, &self.world, process, access, reply)?;
        self.seats[process] = seat;
        Ok(written)
    }

    // A stop of a process.
    fn stop(&mut self, alloc: Global, process: usize) -> Result<(), AllocError>
        ensures { OnOk result (HappensAt self.old (moves.Stop process) None self.new) }
    {
        let reply = take(alloc, &mut self.world, &Event::Stop(process));
        if process < self.seats.len() {
            let seat = self.seats[process].stopped(alloc, &self.world, process, reply)?;
            self.seats[process] = seat;
        }
        Ok(())
    }

    // An eviction of a word.
    fn evict(&mut self, alloc: Global, place: Place)
        ensures { HappensAt self.old (moves.Evict place) (Some place) self.new }
    {
        let _evicted = take(alloc, &mut self.world, &Event::Evict(place));
    }

    /// What may happen happens. At most the word at the place that is returned is written. After an error, that an
    /// allocation failed, nothing is known of the position.
    pub fn apply(&mut self, alloc: Global, next: Move) -> Result<Option<Place>, AllocError>
        ensures { IfOk result (λ written. HappensAt self.old next written self.new) }
    {
        match next {
            Move::Step(process) => self.step(alloc, process),
            Move::Stop(process) => {
                self.stop(alloc, process)?;
                Ok(None)
            }
            Move::Evict(place) => {
                self.evict(alloc, place);
                Ok(Some(place))
            }
        }
    }

    /// What the call of each process was answered, or that it was stopped.
    pub fn answers(&self, alloc: Global) -> Result<Vec<Vec<u8>>, AllocError> {
        let mut answers = Vec::new(alloc);
        for seat in &self.seats {
            answers.push(seat.text.clone()?)?;
        }
        Ok(answers)
    }

    /// Whether a call is under way.
    pub fn is_under_way(&self) -> bool
        ensures none { IsFalse result → (p : ℕ) → IsBusy self.now p → ⊥ }
        ensures one { IsTrue result → (p : ℕ) × IsBusy self.now p }
    {
        for process in 0..self.seats.len() {
            if is_in_call(&self.world, process) {
                return true;
            }
        }
        false
    }
}
