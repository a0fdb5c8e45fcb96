//! Answers as values of JSON.

ghost use Rattle.std.specs.Prelude.{◌≡◌, IfOk, string_bytes};
ghost use Rattle.serde_json.specs.View.{view};
ghost use Rattle.ds_formula.specs.Cells.{IsInside};
ghost use Rattle.ds_layout.specs.Places.{IsPlace};
ghost use Rattle.ds_layout.specs.SheetMemory.{memory};
ghost use Rattle.ds_state.specs.Value.{world_of};
ghost use Rattle.ds_state.specs.Shown.{text_in};
ghost use Rattle.ds_script.specs.ScriptTexts.{state_text, values_of};
ghost use Rattle.ds_server.specs.SessionTexts.{edit_data as last_edit_data, other_data, outcome_text, place_text, row_data, rows_data, settled_data, unsettled_data};
ghost use Rattle.ds_script_json.specs.CommandEnds.{CanShow};
ghost use Rattle.ds_script_json.specs.JsonAnswers.{answer_data, at_data, data_of, edit_data, error_data, left_data, migration_data, numbered_data, overtaken_data, peek_data, process_data, published_data, recovered_data, recovery_data, refused_data, reply_data, report_data, settle_data, sides_data, text_fault_data, word_data, work_data};

use crate::carry::CommandEnd;
use ds_calls::settle::SettleEnd;
use ds_core::reply::Reply;
use ds_eval::value::Value;
use ds_formula::cells::{Cell, Shape};
use ds_formula::fault::TextFault;
use ds_layout::mark::State;
use ds_layout::place::Place;
use ds_script::point::PointName;
use ds_script_io::answer::cell_at;
use ds_state::answer::{Answer, EditEnd, Other};
use ds_state::migration::MigrateEnd;
use ds_state::recovery::{LastEdit, RecoveryEnd};
use ds_state::refusal::Refusal;
use ds_state::show::ShowEnd;
use ds_state::work::WorkEnd;
use ds_state::world::World;
use serde_json::{Value as Json, json};
use std::alloc::{AllocError, Global};

fn word_value(alloc: Global, word: &str) -> Result<Json, AllocError>
    ensures { IfOk result (λ v. view v ≡ word_data word.now) }
{
    json!(in alloc; {"ok": word})
}

fn process_value(alloc: Global, process: usize, word: &str) -> Result<Json, AllocError>
    ensures { IfOk result (λ v. view v ≡ process_data process word.now) }
{
    json!(in alloc; {"ok": word, "process": (process as u64)})
}

fn numbered_value(
    alloc: Global,
    process: usize,
    number: usize,
    word: &str,
) -> Result<Json, AllocError>
    ensures { IfOk result (λ v. view v ≡ numbered_data process number word.now) }
{
    json!(in alloc; {"number": (number as u64), "ok": word, "process": (process as u64)})
}

fn other_value(alloc: Global, other: Other) -> Result<Json, AllocError>
    ensures { IfOk result (λ v. view v ≡ other_data other) }
{
    json!(in alloc; {"number": (other.number as u64), "process": (other.process as u64)})
}

fn overtaken_value(
    alloc: Global,
    process: usize,
    number: usize,
    by: Other,
) -> Result<Json, AllocError>
    ensures { IfOk result (λ v. view v ≡ overtaken_data process number by) }
{
    let by = other_value(alloc, by)?;
    json!(in alloc; {"by": by, "number": (number as u64), "ok": "overtaken", "process": (process as u64)})
}

fn edit_value(alloc: Global, process: usize, end: EditEnd) -> Result<Json, AllocError>
    ensures { IfOk result (λ v. view v ≡ edit_data process end) }
{
    match end {
        EditEnd::Done(number) => numbered_value(alloc, process, number, "done"),
        EditEnd::Overtaken(number, by) => overtaken_value(alloc, process, number, by),
    }
}

fn published_value(alloc: Global, process: usize, changed: bool) -> Result<Json, AllocError>
    ensures { IfOk result (λ v. view v ≡ published_data process changed) }
{
    json!(in alloc; {"changed": changed, "ok": "published", "process": (process as u64)})
}

fn work_value(alloc: Global, process: usize, end: WorkEnd) -> Result<Json, AllocError>
    ensures { IfOk result (λ v. view v ≡ work_data process end) }
{
    match end {
        WorkEnd::NotDirty => process_value(alloc, process, "notdirty"),
        WorkEnd::Missed => process_value(alloc, process, "missed"),
        WorkEnd::Worn => process_value(alloc, process, "worn"),
        WorkEnd::Published(changed) => published_value(alloc, process, changed),
        WorkEnd::Again => process_value(alloc, process, "again"),
        WorkEnd::NoMemory => process_value(alloc, process, "nomemory"),
    }
}

fn row_value(alloc: Global, values: &[Value]) -> Result<Json, AllocError>
    ensures { IfOk result (λ v. view v ≡ row_data values.now) }
{
    let mut items = Vec::with_capacity(alloc, values.len())?;
    for value in values {
        items.push(Json::String(value.to_string(alloc)?))?;
    }
    Ok(Json::Array(items))
}

fn rows_value(alloc: Global, shape: &Shape, values: &[Value]) -> Result<Json, AllocError>
    ensures { IfOk result (λ v. view v ≡ rows_data shape.now values.now) }
{
    let mut rows = Vec::with_capacity(alloc, shape.rows)?;
    let mut rest = values;
    for row in 0..shape.rows {
        // The body does not use it: the proof names it.
        let _row = row;
        let (first, behind) = rest.split_at(shape.columns.min(rest.len()));
        rows.push(row_value(alloc, first)?)?;
        rest = behind;
    }
    Ok(Json::Array(rows))
}

fn settled_value(alloc: Global, shape: &Shape, values: &[Value]) -> Result<Json, AllocError>
    ensures { IfOk result (λ v. view v ≡ settled_data shape.now values.now) }
{
    let rows = rows_value(alloc, shape, values)?;
    json!(in alloc; {"ok": "settled", "rows": rows})
}

// The place of a word that was not at rest: `mark A1`, `announce 0`.
fn place_name(alloc: Global, shape: &Shape, place: Place) -> Result<String, AllocError>
    ensures { IfOk result (λ text. string_bytes text ≡ place_text shape.now place) }
{
    match place {
        Place::Mark(cell) => {
            let cell = cell_at(*shape, cell);
            format!(in alloc; "mark {cell}")
        }
        Place::Announce(process) => format!(in alloc; "announce {process}"),
        _ => Ok(String::new(alloc)),
    }
}

fn unsettled_value(
    alloc: Global,
    shape: &Shape,
    place: Place,
    word: u64,
) -> Result<Json, AllocError>
    ensures { IfOk result (λ v. view v ≡ unsettled_data shape.now place word) }
{
    let place = Json::String(place_name(alloc, shape, place)?);
    json!(in alloc; {"ok": "unsettled", "place": place, "word": word})
}

// The values of a process's last settled report.
fn values(world: &World, process: usize) -> &[Value]
    ensures { result.now ≡ values_of world.now process }
{
    if process < world.situations.len() {
        world.reports.of(process)
    } else {
        &[]
    }
}

fn report_value(
    alloc: Global,
    shape: &Shape,
    values: &[Value],
    end: ShowEnd,
) -> Result<Json, AllocError>
    ensures { IfOk result (λ v. view v ≡ report_data shape.now values.now end) }
{
    match end {
        ShowEnd::Settled => settled_value(alloc, shape, values),
        ShowEnd::Unsettled(place, word) => unsettled_value(alloc, shape, place, word),
    }
}

fn outcome(is_done: bool) -> &'static str
    ensures { result.now ≡ outcome_text is_done }
{
    if is_done { "done" } else { "not-done" }
}

fn last_value(alloc: Global, shape: &Shape, last: LastEdit) -> Result<Json, AllocError>
    ensures { IfOk result (λ v. view v ≡ last_edit_data shape.now last) }
{
    let cell = Json::String(cell_at(*shape, last.cell).to_string(alloc)?);
    json!(in alloc; {"cell": cell, "number": (last.number as u64), "outcome": (outcome(last.counts))})
}

fn recovered_value(alloc: Global, process: usize, last: Json) -> Result<Json, AllocError>
    ensures { IfOk result (λ v. view v ≡ recovered_data process (view last)) }
{
    json!(in alloc; {"last": last, "ok": "last", "process": (process as u64)})
}

fn recovery_value(
    alloc: Global,
    shape: &Shape,
    process: usize,
    end: RecoveryEnd,
) -> Result<Json, AllocError>
    ensures { IfOk result (λ v. view v ≡ recovery_data shape.now process end) }
{
    match end {
        RecoveryEnd::Last(last) => {
            recovered_value(alloc, process, last_value(alloc, shape, last)?)
        }
        RecoveryEnd::Nothing => recovered_value(alloc, process, Json::Null),
    }
}

fn migration_value(alloc: Global, process: usize, end: MigrateEnd) -> Result<Json, AllocError>
    ensures { IfOk result (λ v. view v ≡ migration_data process end) }
{
    match end {
        MigrateEnd::Migrated => process_value(alloc, process, "migrated"),
        MigrateEnd::Already => process_value(alloc, process, "already"),
    }
}

fn answer_value(
    alloc: Global,
    world: &World,
    process: usize,
    answer: Answer,
) -> Result<Json, AllocError>
    ensures { IfOk result (λ v. view v ≡ answer_data world.now process answer) }
{
    let shape = world.words.layout().shape;
    match answer {
        Answer::Edit(end) => edit_value(alloc, process, end),
        Answer::Work(end) => work_value(alloc, process, end),
        Answer::Show(end) => report_value(alloc, &shape, values(world, process), end),
        Answer::Recovery(end) => recovery_value(alloc, &shape, process, end),
        Answer::Migration(end) => migration_value(alloc, process, end),
    }
}

fn error_value(alloc: Global, process: usize, code: u64, name: &str) -> Result<Json, AllocError>
    ensures { IfOk result (λ v. view v ≡ error_data process code name.now) }
{
    json!(in alloc; {"code": code, "error": name, "process": (process as u64)})
}

fn text_fault_value(alloc: Global, process: usize, at: TextFault) -> Result<Json, AllocError>
    ensures { IfOk result (λ v. view v ≡ text_fault_data process at) }
{
    json!(in alloc; {"code": 1, "error": "Text", "fault": (at.kind.name()), "offset": (at.offset as u64), "process": (process as u64)})
}

fn refused_value(alloc: Global, process: usize, refusal: Refusal) -> Result<Json, AllocError>
    ensures { IfOk result (λ v. view v ≡ refused_data process refusal) }
{
    match refusal {
        Refusal::Text(at) => text_fault_value(alloc, process, at),
        Refusal::Busy => error_value(alloc, process, 2, "Busy"),
        Refusal::Stopped => error_value(alloc, process, 3, "Stopped"),
        Refusal::RecordsFull => error_value(alloc, process, 4, "RecordsFull"),
        Refusal::NoMemory => error_value(alloc, process, 5, "NoMemory"),
        Refusal::Migrating(_) => error_value(alloc, process, 6, "Migrating"),
        Refusal::NotStopped(_) => error_value(alloc, process, 7, "NotStopped"),
    }
}

fn reply_value(
    alloc: Global,
    world: &World,
    process: usize,
    reply: Reply,
) -> Result<Json, AllocError>
    ensures { IfOk result (λ v. view v ≡ reply_data world.now process reply) }
{
    match reply {
        Reply::Begun(number) => numbered_value(alloc, process, number, "begun"),
        Reply::Entered => process_value(alloc, process, "begun"),
        Reply::Refused(refusal) => refused_value(alloc, process, refusal),
        Reply::Stepped => process_value(alloc, process, "stepped"),
        Reply::Answered(answer) => answer_value(alloc, world, process, answer),
        Reply::WrongTask => process_value(alloc, process, "wrong-task"),
        Reply::Stopped => process_value(alloc, process, "stopped"),
        Reply::Crashed => word_value(alloc, "crashed"),
        Reply::Evicted => word_value(alloc, "evicted"),
        Reply::NotEnabled => process_value(alloc, process, "not-enabled"),
    }
}

fn at_value(alloc: Global, process: usize, name: PointName) -> Result<Json, AllocError>
    ensures { IfOk result (λ v. view v ≡ at_data process name) }
{
    json!(in alloc; {"ok": "at", "point": (name.name()), "process": (process as u64)})
}

fn left_value(alloc: Global, left: usize) -> Result<Json, AllocError>
    ensures { IfOk result (λ v. view v ≡ left_data left) }
{
    if left == 0 {
        word_value(alloc, "clean")
    } else {
        json!(in alloc; {"left": (left as u64), "ok": "left"})
    }
}

fn settle_value(alloc: Global, process: usize, end: SettleEnd) -> Result<Json, AllocError>
    ensures { IfOk result (λ v. view v ≡ settle_data process end) }
{
    match end {
        SettleEnd::Left(left) => left_value(alloc, left),
        SettleEnd::Refused(refusal) => refused_value(alloc, process, refusal),
        SettleEnd::NoMemory => process_value(alloc, process, "nomemory"),
    }
}

fn state_name(alloc: Global, state: State) -> Result<String, AllocError>
    ensures { IfOk result (λ text. string_bytes text ≡ state_text state) }
{
    match state {
        State::Clean => format!(in alloc; "clean"),
        State::Marked => format!(in alloc; "dirty"),
        State::Held(process) => format!(in alloc; "held {process}"),
    }
}

// The text of a cell. Each text that a cell holds is ASCII: there is no answer where one is not UTF-8.
fn cell_text(alloc: Global, world: &World, cell: Cell) -> Result<String, AllocError>
    requires { IsInside world.now.sheet.layout.shape cell }
    ensures { IfOk result (λ text. string_bytes text ≡ text_in (world_of world.now) cell) }
{
    match String::from_utf8(world.text_of(alloc, cell)?) {
        Ok(text) => Ok(text),
        Err(_) => Err(AllocError),
    }
}

fn peek_value(alloc: Global, world: &World, cell: Cell) -> Result<Json, AllocError>
    requires { IsInside world.now.sheet.layout.shape cell }
    ensures { IfOk result (λ v. view v ≡ peek_data (world_of world.now) cell) }
{
    let text = Json::String(cell_text(alloc, world, cell)?);
    let state = Json::String(state_name(alloc, world.mark_of(cell).state())?);
    let value = Json::String(world.value_of(cell).to_string(alloc)?);
    let name = Json::String(cell.to_string(alloc)?);
    json!(in alloc; {"cell": name, "ok": "peek", "state": state, "text": text, "value": value})
}

fn sides_value(alloc: Global, world: &World, place: Place) -> Result<Json, AllocError>
    requires { IsPlace world.now.sheet.layout place }
    ensures { IfOk result (λ v. view v ≡ sides_data (memory world.now.sheet) place) }
{
    let word = world.words.word(place);
    json!(in alloc; {"cached": (word.cached), "ok": "word", "persisted": (word.persisted)})
}

/// What a command is answered that has ended so, in the world after it; null, where it made a new sheet. An error means that
/// an allocation failed.
pub fn end_value(alloc: Global, world: &World, end: CommandEnd) -> Result<Json, AllocError>
    requires { CanShow world.now end }
    ensures { IfOk result (λ v. view v ≡ data_of world.now end) }
{
    match end {
        CommandEnd::Made => Ok(Json::Null),
        CommandEnd::Replied(process, reply) => reply_value(alloc, world, process, reply),
        CommandEnd::At(process, name) => at_value(alloc, process, name),
        CommandEnd::Settled(process, end) => settle_value(alloc, process, end),
        CommandEnd::Peeked(cell) => peek_value(alloc, world, cell),
        CommandEnd::Read(place) => sides_value(alloc, world, place),
    }
}
