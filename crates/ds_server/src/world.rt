//! A world as a desk, and the law that sessions over a world are runs of it.

ghost use Rattle.std.specs.Prelude.{◌≡◌, ◌<◌, ◌↔◌, ◌++◌, ◌∷◌, [], ℕ, List, map, take, drop, option_map, slice_index_or, IsTrue, OnOk, IfOk, MatchOption, Ok};
ghost use Rattle.ds_formula.specs.Cells.{IsInside};
ghost use Rattle.ds_eval.specs.declared.value.Value.TheVariants.{Blank};
ghost use Rattle.ds_state.specs.Value.{WorldValue, world_of, IsGood};
ghost use Rattle.ds_state.specs.World.{of_cell};
ghost use Rattle.ds_state.specs.Fresh.{IsNew};
ghost use Rattle.ds_recover.specs.RecoverBegun.{MayRecover};
ghost use Rattle.ds_core.specs.Takes.{IsOfWorld};
ghost use Rattle.ds_core.specs.Headline.{HasHeadline};
ghost use Rattle.ds_calls.specs.Traces.{Trace, both, Leads};
ghost use Rattle.ds_calls.specs.Whole.{HasProcess, KeepsFree, request};
ghost use Rattle.ds_server.specs.declared.session.SessionEnd.{SessionEnd};
ghost use Rattle.ds_server.specs.DeskCalls.{Join, JoinAny, Set, Undo, Report, View, Get, Listing, Last, Leave};
ghost use Rattle.ds_server.specs.Replies.{Left, entry_view, joined_view, joined_any_view, set_view, report_view, got_view, history_view, last_view};
ghost use Rattle.ds_server.specs.Desks.{Seated, SitsAfterAny};
ghost use Rattle.ds_server.specs.Session.{Outcome};
ghost use Rattle.ds_server.specs.SessionTraces.{outcome_trace};
ghost use Rattle.ds_server.specs.WorldDesks.{refused_by, values_of, entry_of, edits_of, IsLastOf, IsTextBefore, Copies, TakesSnapshot, Finds, Lists, Does, IsSeated, NoneIsFree, IsLastFree, world_rules, HasRecovered, HasEdited, HasReported};

use crate::desk::{CallRefusal, Desk, Got, History, ListedEdit, Reported};
use ds_calls::call::{whole_edit, whole_recovery, whole_show};
use ds_calls::settle::{SettleEnd, settle};
use ds_eval::value::Value;
use ds_formula::cells::{Cell, Shape};
use ds_script_io::answer::cell_at;
use ds_state::answer::EditEnd;
use ds_state::ledger::Edit;
use ds_state::recovery::{LastEdit, RecoveryEnd};
use ds_state::refusal::Refusal;
use ds_state::show::ShowEnd;
use ds_state::situation::Situation;
use ds_state::text::Text;
use ds_state::world::World;
use std::alloc::{AllocError, Global};

impl From<Refusal> for CallRefusal {
    ghost from_gives = { λ why r. r ≡ refused_by why };

    fn from(refusal: Refusal) -> CallRefusal {
        match refusal {
            Refusal::Text(fault) => CallRefusal::Text(fault),
            Refusal::Busy => CallRefusal::ProcessTaken,
            Refusal::Stopped => CallRefusal::Stopped,
            Refusal::RecordsFull => CallRefusal::RecordsFull,
            Refusal::NoMemory => CallRefusal::NoMemory,
            Refusal::Migrating(_) | Refusal::NotStopped(_) => CallRefusal::ProcessTaken,
        }
    }
}

// A whole recovery, and what it reports.
fn recovered(
    alloc: Global,
    world: &mut World,
    process: usize,
) -> Result<Option<LastEdit>, CallRefusal>
    requires { HasProcess world.old process }
    ensures recovered { HasRecovered process world.old result world.new }
    ensures seated { OnOk result (IsSeated world.new process) }
    ensures free { KeepsFree process world.old world.new }
{
    match whole_recovery(alloc, world, process) {
        Ok(RecoveryEnd::Last(last)) => Ok(Some(last)),
        Ok(RecoveryEnd::Nothing) => Ok(None),
        Err(refusal) => Err(CallRefusal::from(refusal)),
    }
}

// A whole edit, and how it ended.
fn edited(
    alloc: Global,
    world: &mut World,
    process: usize,
    cell: Cell,
    text: &[u8],
) -> Result<EditEnd, CallRefusal>
    requires { IsOfWorld world.old (request process cell text.now) }
    ensures edited { HasEdited process cell text.now world.old result world.new }
    ensures free { KeepsFree process world.old world.new }
{
    match whole_edit(alloc, world, process, cell, text) {
        Ok(end) => Ok(end),
        Err(refusal) => Err(CallRefusal::from(refusal)),
    }
}

// The values of the process's last settled report.
fn copied(alloc: Global, world: &World, process: usize) -> Result<Reported, CallRefusal>
    requires { HasProcess world.now process }
    ensures { Copies (values_of world.now process) result }
{
    world.is_always_good();
    match Vec::from_slice(alloc, world.reports.of(process)) {
        Ok(values) => Ok(Reported::Settled(values)),
        Err(_) => Err(CallRefusal::NoMemory),
    }
}

// A whole report, and how it ended.
fn reported(alloc: Global, world: &mut World, process: usize) -> Result<Reported, CallRefusal>
    requires { HasProcess world.old process }
    ensures reported { HasReported process world.old result world.new }
    ensures free { KeepsFree process world.old world.new }
{
    match whole_show(alloc, world, process) {
        Ok(ShowEnd::Settled) => copied(alloc, world, process),
        Ok(ShowEnd::Unsettled(place, word)) => Ok(Reported::Unsettled(place, word)),
        Err(refusal) => Err(CallRefusal::from(refusal)),
    }
}

// A settle, and then a whole report.
fn settled(alloc: Global, world: &mut World, process: usize) -> Result<Reported, CallRefusal>
    requires { HasProcess world.old process }
    ensures takes { TakesSnapshot process world.old result world.new }
    ensures free { KeepsFree process world.old world.new }
{
    match settle(alloc, world, process) {
        SettleEnd::Left(_) => reported(alloc, world, process),
        SettleEnd::Refused(refusal) => Err(CallRefusal::from(refusal)),
        SettleEnd::NoMemory => Err(CallRefusal::NoMemory),
    }
}

// Whether a process in this situation is in no call.
fn may_recover(situation: &Situation) -> bool
    ensures { IsTrue result ↔ MayRecover situation.now }
{
    matches!(situation, Situation::Idle(_) | Situation::Stopped)
}

// The last process that is in no call, and so any session's to take.
fn last_free(world: &World) -> Option<usize>
    ensures { MatchOption result (NoneIsFree world.now) (IsLastFree world.now) }
{
    world.is_always_good();
    let mut process = world.situations.len();
    'processes: while process > 0 {
        process -= 1;
        if may_recover(&world.situations[process]) {
            return Some(process);
        }
    }
    None
}

// A join of the last process that is in no call.
fn joined_any(alloc: Global, world: &mut World) -> Result<(usize, Option<LastEdit>), CallRefusal>
    ensures does { Does world.old JoinAny (joined_any_view result) world.new }
    ensures sits { SitsAfterAny world_rules result world.new }
{
    let Some(process) = last_free(world) else {
        return Err(CallRefusal::ProcessTaken);
    };
    match recovered(alloc, world, process) {
        Ok(last) => Ok((process, last)),
        Err(refusal) => Err(refusal),
    }
}

// A settle and a whole report by the process that the session has joined, else by any that nobody has.
fn viewed(alloc: Global, world: &mut World, joined: Option<usize>) -> Result<Reported, CallRefusal>
    requires { Seated world_rules joined world.old }
    ensures does { Does world.old (View joined) (report_view result) world.new }
    ensures seated { Seated world_rules joined world.new }
{
    match joined {
        Some(process) => settled(alloc, world, process),
        None => match joined_any(alloc, world) {
            Ok((process, _last)) => settled(alloc, world, process),
            Err(refusal) => Err(refusal),
        },
    }
}

// Whether it is an edit of the cell with this number.
fn is_of(edit: &Edit, cell: usize) -> bool
    ensures { IsTrue result ↔ (edit.now.cell ≡ cell) }
{
    edit.cell == cell
}

// The text that it gave its cell.
fn text_of(edit: &Edit) -> Text
    ensures { result ≡ edit.now.text }
{
    edit.text
}

// The last of the edits that is one of the cell, and the edits before it.
fn last_edit(edits: &[Edit], cell: usize) -> Option<(&Edit, &[Edit])>
    ensures { MatchOption result (of_cell cell edits.now ≡ []) (λ found. of_cell cell edits.now ≡ of_cell cell found.1.now ++ found.0.now ∷ []) }
{
    let mut rest = edits;
    'edits: while let Some((edit, before)) = rest.split_last() {
        if is_of(edit, cell) {
            return Some((edit, before));
        }
        rest = before;
    }
    None
}

// The text of the cell with this number before the last of the edits that is one of it.
fn text_before(edits: &[Edit], cell: usize) -> Option<Text>
    ensures { MatchOption result (of_cell cell edits.now ≡ []) (IsTextBefore (of_cell cell edits.now)) }
{
    let (_, before) = last_edit(edits, cell)?;
    match last_edit(before, cell) {
        Some((edit, _)) => Some(text_of(edit)),
        None => Some(Text::empty()),
    }
}

// The edits that count.
fn counted(world: &World) -> &[Edit]
    ensures { result.now ≡ world.now.counted }
{
    &world.counted
}

// The text that the cell had before its last edit.
fn undo_text(world: &World, cell: Cell) -> Option<Text>
    requires { IsInside world.now.sheet.layout.shape cell }
    ensures { MatchOption result (edits_of world.now cell ≡ []) (IsTextBefore (edits_of world.now cell)) }
{
    let shape = world.shape();
    let index = shape.index(cell);
    text_before(counted(world), index)
}

// A whole edit of the cell to the text that it had before its last edit.
fn undone(
    alloc: Global,
    world: &mut World,
    process: usize,
    cell: Cell,
) -> Result<EditEnd, CallRefusal>
    requires sits { IsSeated world.old process }
    requires inside { IsInside world.old.sheet.layout.shape cell }
    ensures does { Does world.old (Undo process cell) (set_view result) world.new }
    ensures free { KeepsFree process world.old world.new }
{
    match undo_text(world, cell) {
        Some(text) => edited(alloc, world, process, cell, text.as_slice()),
        None => Err(CallRefusal::NoEdit),
    }
}

// An edit of the sheet, in a list.
fn listed(alloc: Global, shape: Shape, edit: &Edit) -> Result<ListedEdit, AllocError>
    ensures { IfOk result (λ e. entry_view e ≡ entry_of shape edit.now) }
{
    Ok(ListedEdit {
        process: edit.process,
        number: edit.number,
        cell: cell_at(shape, edit.cell),
        text: Vec::from_slice(alloc, edit.text.as_slice())?,
    })
}

// The edits of the sheet, in a list.
fn listed_all(alloc: Global, shape: Shape, edits: &[Edit]) -> Result<Vec<ListedEdit>, AllocError>
    ensures { IfOk result (λ list. map entry_view list.items ≡ map (entry_of shape) edits.now) }
{
    let mut list = Vec::with_capacity(alloc, edits.len())?;
    for edit in edits {
        list.push(listed(alloc, shape, edit)?)?;
    }
    Ok(list)
}

// The edits from this place on, at most this number of them.
fn part(edits: &[Edit], from: usize, most: usize) -> &[Edit]
    ensures { result.now ≡ take most (drop from edits.now) }
{
    let (_, rest) = edits.split_at(from.min(edits.len()));
    let (part, _) = rest.split_at(most.min(rest.len()));
    part
}

// The edits that count, from this place on, at most this number of them.
fn listing(alloc: Global, world: &World, from: usize, most: usize) -> Result<History, CallRefusal>
    ensures { Lists world.now from most result }
{
    let shape = world.shape();
    let counted = counted(world);
    match listed_all(alloc, shape, part(counted, from, most)) {
        Ok(edits) => Ok(History {
            edits,
            of: counted.len(),
        }),
        Err(_) => Err(CallRefusal::NoMemory),
    }
}

// The last of the edits that is one of the cell with this number, in a list, if any.
fn last_listed(
    alloc: Global,
    shape: Shape,
    edits: &[Edit],
    cell: usize,
) -> Result<Option<ListedEdit>, AllocError>
    ensures { IfOk result (λ last. IsLastOf shape (of_cell cell edits.now) (option_map entry_view last)) }
{
    match last_edit(edits, cell) {
        Some((edit, _)) => Ok(Some(listed(alloc, shape, edit)?)),
        None => Ok(None),
    }
}

// The value of the cell with this number.
fn value_at(values: &[Value], cell: usize) -> Value
    ensures { result ≡ slice_index_or values.now cell Blank }
{
    match values.get(cell) {
        Some(value) => *value,
        None => Value::Blank,
    }
}

// What a cell is, where the values of all cells are these.
fn found(alloc: Global, world: &World, cell: Cell, values: &[Value]) -> Result<Got, AllocError>
    requires { IsInside world.now.sheet.layout.shape cell }
    ensures { IfOk result (λ got. Finds world.now cell values.now (Ok got)) }
{
    let shape = world.shape();
    let index = shape.index(cell);
    let edit = last_listed(alloc, shape, counted(world), index)?;
    let value = value_at(values, index);
    Ok(Got::Settled { value, edit })
}

// What a cell is, by a settle and a whole report.
fn got(
    alloc: Global,
    world: &mut World,
    joined: Option<usize>,
    cell: Cell,
) -> Result<Got, CallRefusal>
    requires seated { Seated world_rules joined world.old }
    requires inside { IsInside world.old.sheet.layout.shape cell }
    ensures does { Does world.old (Get joined cell) (got_view cell result) world.new }
    ensures seated { Seated world_rules joined world.new }
{
    match viewed(alloc, world, joined) {
        Ok(Reported::Settled(values)) => match found(alloc, world, cell, &values) {
            Ok(got) => Ok(got),
            Err(_) => Err(CallRefusal::NoMemory),
        },
        Ok(Reported::Unsettled(place, word)) => Ok(Got::Unsettled(place, word)),
        Err(refusal) => Err(refusal),
    }
}

/// A session acts on a world by whole calls, with no other event between theirs. A process that is in
/// a call cannot be joined.
impl Desk for World {
    ghost use Rattle.ds_server.specs.WorldDesks.{world_rules};

    ghost rules = { world_rules };

    fn shape(&self) -> Shape {
        self.words.layout().shape
    }

    fn processes(&self) -> usize {
        self.words.layout().processes
    }

    fn token(&self) -> Option<&[u8]> {
        None
    }

    fn join(&mut self, alloc: Global, process: usize) -> Result<Option<LastEdit>, CallRefusal> {
        recovered(alloc, self, process)
    }

    fn join_any(&mut self, alloc: Global) -> Result<(usize, Option<LastEdit>), CallRefusal> {
        joined_any(alloc, self)
    }

    fn set(
        &mut self,
        alloc: Global,
        process: usize,
        cell: Cell,
        text: &[u8],
    ) -> Result<EditEnd, CallRefusal> {
        edited(alloc, self, process, cell, text)
    }

    fn set_once(
        &mut self,
        _alloc: Global,
        _process: usize,
        _cell: Cell,
        _text: &[u8],
        _key: &[u8],
    ) -> Result<EditEnd, CallRefusal> {
        Err(CallRefusal::NoHistory)
    }

    fn undo(&mut self, alloc: Global, process: usize, cell: Cell) -> Result<EditEnd, CallRefusal> {
        undone(alloc, self, process, cell)
    }

    fn report(&mut self, alloc: Global, process: usize) -> Result<Reported, CallRefusal> {
        settled(alloc, self, process)
    }

    fn view(&mut self, alloc: Global, joined: Option<usize>) -> Result<Reported, CallRefusal> {
        viewed(alloc, self, joined)
    }

    fn get(
        &mut self,
        alloc: Global,
        joined: Option<usize>,
        cell: Cell,
    ) -> Result<Got, CallRefusal> {
        got(alloc, self, joined, cell)
    }

    fn history(&mut self, alloc: Global, from: usize, most: usize) -> Result<History, CallRefusal> {
        listing(alloc, self, from, most)
    }

    fn resolve(&mut self, _alloc: Global, _key: &[u8]) -> Result<Option<ListedEdit>, CallRefusal> {
        Err(CallRefusal::NoHistory)
    }

    fn last(&mut self, alloc: Global, process: usize) -> Result<Option<LastEdit>, CallRefusal> {
        recovered(alloc, self, process)
    }

    fn leave(&mut self, process: usize) {
        // The body does not use it: the signature or a clause names it.
        let _process = process;
    }
}

/// What a session does to its world is a run of `ds_core::take`, whatever its lines are: of just the events that its
/// calls consist of, with the replies that its answers report (`outcome_trace`). So what is proved of runs is true of
/// sessions, one after another on one world, and first of all the headline.
#[tactic(auto, using(crate::proofs::Runs::outcome_leads, crate::proofs::Runs::outcome_headline))]
pub fn sessions_are_runs()
    ensures runs { (most limit : ℕ) (first last : WorldValue) (bytes out : List ℕ) (end : SessionEnd)
        (h : Outcome world_rules most limit first bytes out last end) → Leads first (outcome_trace most limit first last bytes out end h) last }
    ensures headline { (most limit : ℕ) (start first last : WorldValue) (before : Trace) (bytes out : List ℕ) (end : SessionEnd)
        → IsNew (world_of start) → IsGood start → Leads start before first → (h : Outcome world_rules most limit first bytes out last end)
        → (run : Leads start (both before (outcome_trace most limit first last bytes out end h)) last)
        × HasHeadline start (both before (outcome_trace most limit first last bytes out end h)).events
        (both before (outcome_trace most limit first last bytes out end h)).replies last run }
{}
