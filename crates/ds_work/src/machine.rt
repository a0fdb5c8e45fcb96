//! The machine of work: the access of each stage, and the stage that follows it.

ghost use Rattle.std.specs.Prelude.{◌≡◌, ℕ, false, ◌+◌, ◌-◌, ◌*◌, ◌/◌, ◌%◌, ◌<◌, ◌≤◌, ◌++◌, length, take, IsTrue, ◌↔◌};
ghost use Rattle.ds_layout.specs.Bits.{parts_for};
ghost use Rattle.ds_layout.specs.Head.{head_of};
ghost use Rattle.ds_layout.specs.Header.{header_of};
ghost use Rattle.ds_state.specs.Shown.{header_in};
ghost use Rattle.ds_layout.specs.Mark.{mark_of, state_of, holder_code, dirty_bit, mark_word, generation_of, freed_after, held_after, dirtied};
ghost use Rattle.ds_state.specs.Standing.{stored_for, shown_entry};
ghost use Rattle.ds_formula.specs.Limits.{TEXT_MOST};
ghost use Rattle.ds_state.specs.Works.{PlainWorkCall, StageFits, SEEN_MOST};
ghost use Rattle.ds_words.specs.declared.access.Access.TheVariants.{SwapIf};
ghost use Rattle.ds_layout.specs.declared.place.Place.TheVariants as places;
ghost use Rattle.ds_state.specs.declared.work.WorkStage.TheVariants.{LoadMark, Claim, Clear, Give, Telling};
ghost use Rattle.ds_state.specs.declared.spread.Spread.TheVariants.{LoadRow};
ghost use Rattle.ds_work.specs.WorkSteps.{record_header, record_text, input_place, access_at, next_at, claims_from, head_from, header_from, text_from, input_from, told, tell_from, row_from};
ghost use Rattle.ds_work.specs.declared.machine.Noting.TheVariants as noted;
ghost use Rattle.ds_work.specs.Noted.{mark_at, head_at, length_at, text_after, inputs_after, value_after, kind_after, row_after, stage_at, notes_at, turn_at, FitsInputs, FitsRow};

use ds_eval::inputs::{Entry, Inputs};
use ds_eval::value::Value;
use ds_formula::cells::Shape;
use ds_layout::bits;
use ds_layout::head::Head;
use ds_layout::header::Header;
use ds_layout::mark::{DIRTY, Mark, State};
use ds_layout::place::Place;
use ds_layout::stored::{Kind, Stored};
use ds_layout::text::{part_bytes, text_parts};
use ds_state::row::IndexRow;
use ds_state::shown::header_in;
use ds_state::spread::{Spread, told_from};
use ds_state::text::Text;
use ds_state::work::{WorkCall, WorkEnd, WorkStage};
use ds_words::access::Access;

/// The greatest generation of a mark that work claims: a mark of a greater one is worn.
pub const LAST_GENERATION: u64 = 1 << 58;

/// What the process of a work does by its turn.
#[derive(Clone, Copy, Debug, PartialEq, Eq)]
pub enum Doing {
    /// It performs its access, and goes on with the word that this answers.
    Steps,
    /// It reads the content of the text that it has gathered: this alone takes memory.
    Reads,
    /// It takes no step: it waits for the entry of its task.
    Waits,
    /// It answers, and is in no call any more.
    Answers(WorkEnd),
}

/// What the work's process does by its turn: this decides how to go on with it.
#[inline(always)]
pub fn turn(call: &WorkCall) -> Doing
    ensures { result ≡ turn_at call.now.stage }
{
    match call.stage {
        WorkStage::Read => Doing::Reads,
        WorkStage::Wait => Doing::Waits,
        WorkStage::Answer(end) => Doing::Answers(end),
        _ => Doing::Steps,
    }
}

// What a work notes of the word that its access found, beside the stage that comes next.
#[derive(Clone, Copy, Debug, PartialEq, Eq)]
enum Noting {
    Nothing,
    Mark,
    Text,
    Input,
    Own,
    Row,
}

// The mark that follows one: of the next generation, with this holder.
fn following(mark: u64, holder: Option<usize>, dirty: bool) -> u64
    requires young { generation_of mark ≤ SEEN_MOST + 1 }
    requires holder { holder_code holder < 16 }
    ensures { result ≡ mark_word (record { generation = generation_of mark + 1; holder = holder; dirty = dirty }) }
{
    let generation = Mark::read(mark, 0).generation + 1;
    let next = Mark {
        generation,
        holder,
        dirty,
    };
    next.word()
}

// The mark of the claim of the mark that was seen.
fn claim(call: &WorkCall) -> u64
    ensures { result ≡ held_after call.now.process call.now.mark }
{
    following(call.mark, Some(call.process), false)
}

// The mark that lets the cell go, dirty or not.
fn release(call: &WorkCall, dirty: bool) -> u64
    ensures { result ≡ freed_after call.now.mark + dirty_bit dirty }
{
    following(call.mark, None, dirty)
}

// The mark of its claim, as another process has marked it.
fn outrun(call: &WorkCall) -> u64
    ensures { result ≡ dirtied call.now.mark }
{
    call.mark + DIRTY
}

// The number of the cell of an input.
fn input(call: &WorkCall, shape: Shape, i: usize) -> usize
    requires { i < length call.now.inputs }
    ensures { result ≡ input_place shape call.now i }
{
    let cell = call.inputs.as_slice()[i].cell;
    cell.row * shape.columns + cell.column
}

// A part of the text of the record that the noted head names.
fn record_text(call: &WorkCall, part: usize) -> Place
    ensures { result ≡ record_text call.now.edition call.now.head part }
{
    let head = Head::parts(call.head);
    Place::Text {
        edition: call.edition,
        process: head.process,
        number: head.number,
        part,
    }
}

// The header's word of the record whose head the work has noted.
fn record_header(call: &WorkCall) -> Place
    ensures { result ≡ record_header call.now.head }
{
    let head = Head::parts(call.head);
    Place::Header {
        process: head.process,
        number: head.number,
    }
}

// What the two words of a cell are to show.
pub(crate) fn stored(entry: Entry) -> Stored
    ensures { result ≡ stored_for entry }
{
    let height = entry.height;
    let (kind, value) = match entry.value {
        Value::Blank => (Kind::Blank, 0),
        Value::Number(number) => (Kind::Number, number),
        Value::DivZero => (Kind::DivZero, 0),
        Value::Num => (Kind::Num, 0),
        Value::Circular => (Kind::Circular, 0),
    };
    Stored {
        kind,
        height,
        value,
    }
}

// What the two words of a cell show.
fn shown(value: u64, kind: u64, cells: usize) -> Entry
    ensures { result ≡ shown_entry cells value kind }
{
    let stored = Stored::read(value, kind, cells);
    let value = ds_state::shown::shown(stored);
    Entry {
        value,
        height: stored.height,
    }
}

// The swap of the cell's mark that expects this word, for that one.
#[inline(always)]
fn swap_mark(call: &WorkCall, expected: u64, value: u64) -> Access<Place>
    ensures { result ≡ SwapIf (places.Mark call.now.cell) expected value }
{
    Access::SwapIf {
        place: Place::Mark(call.cell),
        expected,
        value,
    }
}

/// What the work does next, on a sheet of this shape.
#[inline(always)]
pub fn want(call: &WorkCall, shape: Shape) -> Access<Place>
    ensures { result ≡ access_at shape call.now call.now.stage }
{
    let mark = Place::Mark(call.cell);
    let value = Place::Value(call.cell);
    let kind = Place::Kind(call.cell);
    match call.stage {
        WorkStage::LoadMark => Access::Load(mark),
        WorkStage::Claim => swap_mark(call, call.mark, claim(call)),
        WorkStage::FlushClaim | WorkStage::FlushCleared(_) => Access::Flush(mark),
        WorkStage::LoadHead => Access::Load(Place::Head(call.cell)),
        WorkStage::LoadHeader => Access::Load(record_header(call)),
        WorkStage::LoadText(part) => Access::Load(record_text(call, part)),
        WorkStage::LoadValue(i) => Access::Load(Place::Value(input(call, shape, i))),
        WorkStage::LoadKind { input: i, value: _ } => Access::Load(Place::Kind(input(
            call, shape, i,
        ))),
        WorkStage::LoadOwnValue => Access::Load(value),
        WorkStage::LoadOwnKind => Access::Load(kind),
        WorkStage::StoreValue => Access::Store(value, stored(call.entry).value_word()),
        WorkStage::StoreKind => Access::Store(kind, stored(call.entry).kind_word()),
        WorkStage::FlushValue => Access::Flush(value),
        WorkStage::FlushKind => Access::Flush(kind),
        WorkStage::Telling(spread) => spread.access(call.cell),
        WorkStage::Clear(_) => swap_mark(call, call.mark, release(call, false)),
        WorkStage::Give => swap_mark(call, call.mark, release(call, true)),
        WorkStage::ClearDirty | WorkStage::GiveDirty => {
            swap_mark(call, outrun(call), release(call, true))
        }
        WorkStage::BackClaim | WorkStage::BackCleared(_) => Access::Back,
        WorkStage::BackValue | WorkStage::BackKind => Access::Back,
        WorkStage::Read | WorkStage::Wait | WorkStage::Answer(_) => Access::Nothing,
    }
}

// The stage after its mark is seen.
fn claims_from(call: &WorkCall, word: u64) -> WorkStage
    ensures { result ≡ (claims_from call.now word (state_of (mark_of call.now.processes word))).stage }
{
    let mark = Mark::read(word, call.processes);
    match mark.state() {
        State::Clean => WorkStage::Answer(WorkEnd::NotDirty),
        State::Held(_) => WorkStage::Answer(WorkEnd::Missed),
        State::Marked => if mark.generation > LAST_GENERATION {
            WorkStage::Answer(WorkEnd::Worn)
        } else {
            WorkStage::Claim
        },
    }
}

// The parts of the text one by one, then the content.
fn text_from(length: usize, part: usize) -> WorkStage
    requires { length ≤ TEXT_MOST }
    ensures { (e : PlainWorkCall) → e.length ≡ length → result ≡ (text_from e part).stage }
{
    if part < text_parts(length) {
        WorkStage::LoadText(part)
    } else {
        WorkStage::Read
    }
}

fn header_from(call: &WorkCall, word: u64) -> WorkStage
    ensures { result ≡ (header_from call.now (header_in call.now.edition (header_of call.now.cells word))).stage }
{
    match header_in(call.edition, Header::read(word, call.cells)) {
        Some(header) => text_from(header.length, 0),
        None => WorkStage::Read,
    }
}

// The inputs one by one, then the cell's own words.
pub(crate) fn input_from(count: usize, i: usize) -> WorkStage
    ensures { (e : PlainWorkCall) → length e.inputs ≡ count → result ≡ (input_from e i).stage }
{
    if i < count {
        WorkStage::LoadValue(i)
    } else {
        WorkStage::LoadOwnValue
    }
}

// The next cell that is marked; where all are marked, the cell is let go.
fn tell_from(row: &[u64], cells: usize, from: usize) -> WorkStage
    requires { from ≤ cells }
    ensures { (e : PlainWorkCall) → e.row ≡ row.now → e.cells ≡ cells → result ≡ (tell_from e from).stage }
{
    match told_from(row, cells, from) {
        Some(cell) => WorkStage::Telling(Spread::OrTold(cell)),
        None => WorkStage::Clear(true),
    }
}

// The part of the row after this one, which is noted; after the last one, the cells that the row names.
#[inline(always)]
fn row_from(row: &[u64], cells: usize, part: usize) -> WorkStage
    requires { part < parts_for cells }
    ensures { (e : PlainWorkCall) → e.row ≡ row.now → e.cells ≡ cells → result ≡ (row_from e (part + 1)).stage }
{
    let last = bits::part(cells - 1);
    if part < last {
        return WorkStage::Telling(Spread::LoadRow(part + 1));
    }
    tell_from(row, cells, 0)
}

// The stage after one that notes a part of the row, or that there is none yet, once this is the row.
#[inline(always)]
fn row_next(row: &[u64], cells: usize, stage: WorkStage) -> WorkStage
    requires notes { notes_at stage ≡ noted.Row }
    requires part { (part : ℕ) → stage ≡ Telling (LoadRow part) → part < parts_for cells }
    ensures { (e : PlainWorkCall) (word : ℕ) → row.now ≡ row_after e.row stage word → e.cells ≡ cells → result ≡ stage_at e stage word }
{
    match stage {
        WorkStage::Telling(Spread::LoadRow(part)) => row_from(row, cells, part),
        _ => WorkStage::Telling(Spread::LoadRow(0)),
    }
}

// The stage after a claim: where another mark stood there, the cell was missed.
fn claimed(call: &WorkCall, word: u64) -> WorkStage
    ensures { result ≡ (next_at call.now Claim word).stage }
{
    if word == call.mark {
        WorkStage::FlushClaim
    } else {
        WorkStage::Answer(WorkEnd::Missed)
    }
}

fn cleared(call: &WorkCall, changed: bool, word: u64) -> WorkStage
    ensures { result ≡ (next_at call.now (Clear changed) word).stage }
{
    if word == call.mark {
        WorkStage::FlushCleared(WorkEnd::Published(changed))
    } else {
        WorkStage::ClearDirty
    }
}

fn given(call: &WorkCall, word: u64) -> WorkStage
    ensures { result ≡ (next_at call.now Give word).stage }
{
    if word == call.mark {
        WorkStage::FlushCleared(WorkEnd::NoMemory)
    } else {
        WorkStage::GiveDirty
    }
}

fn headed(call: &WorkCall, word: u64) -> WorkStage
    ensures { result ≡ (head_from call.now word (head_of call.now.processes word)).stage }
{
    match Head::read(word, call.processes) {
        Some(_) => WorkStage::LoadHeader,
        None => WorkStage::Read,
    }
}

// The stage that follows, after the access answered the word; `row_next` says it of stages that note the row.
#[inline(always)]
fn next(call: &WorkCall, word: u64) -> WorkStage
    requires { notes_at call.now.stage ≡ noted.Row → ⊥ }
    ensures { result ≡ stage_at call.now call.now.stage word }
{
    match call.stage {
        WorkStage::LoadMark => claims_from(call, word),
        WorkStage::Claim => claimed(call, word),
        WorkStage::FlushClaim => WorkStage::BackClaim,
        WorkStage::BackClaim => WorkStage::LoadHead,
        WorkStage::LoadHead => headed(call, word),
        WorkStage::LoadHeader => header_from(call, word),
        WorkStage::LoadText(part) => text_from(call.length, part + 1),
        WorkStage::Read => WorkStage::Read,
        WorkStage::LoadValue(i) => WorkStage::LoadKind {
            input: i,
            value: word,
        },
        WorkStage::LoadKind { input: i, value: _ } => input_from(call.inputs.len(), i + 1),
        WorkStage::LoadOwnValue => WorkStage::LoadOwnKind,
        WorkStage::LoadOwnKind => WorkStage::Wait,
        WorkStage::Wait => WorkStage::Wait,
        WorkStage::StoreValue => WorkStage::StoreKind,
        WorkStage::StoreKind => WorkStage::FlushValue,
        WorkStage::FlushValue => WorkStage::FlushKind,
        WorkStage::FlushKind => WorkStage::BackValue,
        WorkStage::BackValue => WorkStage::BackKind,
        WorkStage::BackKind | WorkStage::Telling(Spread::LoadRow(_)) => {
            row_next(call.row.as_slice(), call.cells, call.stage)
        }
        WorkStage::Telling(Spread::OrTold(cell)) => WorkStage::Telling(Spread::FlushTold(cell)),
        WorkStage::Telling(Spread::FlushTold(cell)) => WorkStage::Telling(Spread::BackTold(cell)),
        WorkStage::Telling(Spread::BackTold(cell)) => {
            tell_from(call.row.as_slice(), call.cells, cell + 1)
        }
        WorkStage::Clear(changed) => cleared(call, changed, word),
        WorkStage::ClearDirty => WorkStage::FlushCleared(WorkEnd::Again),
        WorkStage::Give => given(call, word),
        WorkStage::GiveDirty => WorkStage::FlushCleared(WorkEnd::NoMemory),
        WorkStage::FlushCleared(end) => WorkStage::BackCleared(end),
        WorkStage::BackCleared(end) => WorkStage::Answer(end),
        WorkStage::Answer(end) => WorkStage::Answer(end),
    }
}

// The mark that it notes, or that of its claim.
#[inline(always)]
fn noted_mark(call: &WorkCall, word: u64) -> u64
    ensures { result ≡ mark_at call.now call.now.stage word }
{
    match call.stage {
        WorkStage::LoadMark => match claims_from(call, word) {
            WorkStage::Claim => word,
            _ => call.mark,
        },
        WorkStage::Claim => if word == call.mark {
            claim(call)
        } else {
            call.mark
        },
        _ => call.mark,
    }
}

#[inline(always)]
fn noted_head(call: &WorkCall, word: u64) -> u64
    ensures { result ≡ head_at call.now call.now.stage word }
{
    match call.stage {
        WorkStage::LoadHead => word,
        _ => call.head,
    }
}

// The length of the text that its record has.
#[inline(always)]
fn noted_length(call: &WorkCall, word: u64) -> usize
    ensures { result ≡ length_at call.now call.now.stage word }
{
    match call.stage {
        WorkStage::LoadHead => 0,
        WorkStage::LoadHeader => match header_in(call.edition, Header::read(word, call.cells)) {
            Some(header) => header.length,
            None => 0,
        },
        _ => call.length,
    }
}

// Eight more bytes of a text, as far as it goes.
#[inline(always)]
fn append(text: &mut Text, bytes: [u8; 8], most: usize)
    requires within { length text.old ≤ most }
    requires short { most ≤ TEXT_MOST }
    ensures { text.new ≡ take most (text.old ++ bytes) }
{
    for i in 0..8 {
        if text.len() < most {
            text.push(bytes[i]);
        }
    }
}

// The text goes on with a part, or begins again.
#[inline(always)]
fn note_text(text: &mut Text, stage: WorkStage, most: usize, word: u64)
    requires within { length text.old ≤ most }
    requires short { most ≤ TEXT_MOST }
    ensures { text.new ≡ text_after text.old most stage word }
{
    match stage {
        WorkStage::LoadHead | WorkStage::LoadHeader => *text = Text::empty(),
        WorkStage::LoadText(_) => append(text, part_bytes(word), most),
        _ => {}
    }
}

// What a reference shows is noted, once both its words are loaded.
#[inline(always)]
fn note_input(inputs: &mut Inputs, stage: WorkStage, cells: usize, word: u64)
    requires { FitsInputs inputs.old.items stage }
    ensures items { inputs.new.items ≡ inputs_after inputs.old.items cells stage word }
    ensures room { inputs.new.room ≡ inputs.old.room }
{
    if let WorkStage::LoadKind { input: i, value } = stage {
        let _ = inputs.set(i, shown(value, word, cells));
    }
}

// A part of the row is noted.
#[inline(always)]
fn note_row(row: &mut IndexRow, stage: WorkStage, word: u64)
    requires { FitsRow row.old stage }
    ensures { row.new ≡ row_after row.old stage word }
{
    match stage {
        WorkStage::BackKind => row.clear(),
        WorkStage::Telling(Spread::LoadRow(_)) => row.push(word),
        _ => {}
    }
}

// The cell's own value, and its own kind.
#[inline(always)]
fn noted_value(value: u64, stage: WorkStage, word: u64) -> u64
    ensures { result ≡ value_after value stage word }
{
    match stage {
        WorkStage::LoadOwnValue => word,
        _ => value,
    }
}

#[inline(always)]
fn noted_kind(kind: u64, stage: WorkStage, word: u64) -> u64
    ensures { result ≡ kind_after kind stage word }
{
    match stage {
        WorkStage::LoadOwnKind => word,
        _ => kind,
    }
}

// What is noted at a stage.
#[inline(always)]
fn notes_at(stage: WorkStage) -> Noting
    ensures { result ≡ notes_at stage }
{
    match stage {
        WorkStage::LoadMark | WorkStage::Claim => Noting::Mark,
        WorkStage::LoadHead | WorkStage::LoadHeader | WorkStage::LoadText(_) => Noting::Text,
        WorkStage::LoadKind { input: _, value: _ } => Noting::Input,
        WorkStage::LoadOwnValue | WorkStage::LoadOwnKind => Noting::Own,
        WorkStage::BackKind | WorkStage::Telling(Spread::LoadRow(_)) => Noting::Row,
        _ => Noting::Nothing,
    }
}

// The work goes on, and keeps what it has noted.
#[inline(always)]
fn go_on(call: &mut WorkCall, word: u64)
    requires { notes_at call.old.stage ≡ noted.Nothing }
    ensures { call.new ≡ next_at call.old call.old.stage word }
{
    call.stage = next(call, word);
}

// It goes on with the mark that it saw, or that it made.
#[inline(always)]
fn take_mark(call: &mut WorkCall, word: u64)
    requires { notes_at call.old.stage ≡ noted.Mark }
    ensures { call.new ≡ next_at call.old call.old.stage word }
{
    let next = next(call, word);
    let mark = noted_mark(call, word);
    call.mark = mark;
    call.stage = next;
}

// It goes on with the head of its cell, the length of the text, or a part of it.
#[inline(always)]
fn take_text(call: &mut WorkCall, word: u64)
    requires { notes_at call.old.stage ≡ noted.Text }
    ensures { call.new ≡ next_at call.old call.old.stage word }
{
    let stage = call.stage;
    let next = next(call, word);
    let head = noted_head(call, word);
    let count = noted_length(call, word);
    note_text(&mut call.text, stage, call.length, word);
    call.head = head;
    call.length = count;
    call.stage = next;
}

// It goes on with what a reference shows.
#[inline(always)]
fn take_input(call: &mut WorkCall, word: u64)
    requires { notes_at call.old.stage ≡ noted.Input }
    ensures { call.new ≡ next_at call.old call.old.stage word }
{
    let stage = call.stage;
    let next = next(call, word);
    note_input(&mut call.inputs, stage, call.cells, word);
    call.stage = next;
}

// It goes on with its own cell's value or kind.
#[inline(always)]
fn take_own(call: &mut WorkCall, word: u64)
    requires { notes_at call.old.stage ≡ noted.Own }
    ensures { call.new ≡ next_at call.old call.old.stage word }
{
    let stage = call.stage;
    let next = next(call, word);
    call.value = noted_value(call.value, stage, word);
    call.kind = noted_kind(call.kind, stage, word);
    call.stage = next;
}

// It goes on with one more part of the index row, or with none yet.
#[inline(always)]
fn take_row(call: &mut WorkCall, word: u64)
    requires { notes_at call.old.stage ≡ noted.Row }
    ensures { call.new ≡ next_at call.old call.old.stage word }
{
    let stage = call.stage;
    note_row(&mut call.row, stage, word);
    call.stage = row_next(call.row.as_slice(), call.cells, stage);
}

/// The work goes on with the word that its access answered, whatever that is. Where it reads, waits
/// or answers, it stays as it is.
#[inline(always)]
pub fn got(call: &mut WorkCall, word: u64)
    ensures { call.new ≡ next_at call.old call.old.stage word }
{
    match notes_at(call.stage) {
        Noting::Nothing => go_on(call, word),
        Noting::Mark => take_mark(call, word),
        Noting::Text => take_text(call, word),
        Noting::Input => take_input(call, word),
        Noting::Own => take_own(call, word),
        Noting::Row => take_row(call, word),
    }
}
