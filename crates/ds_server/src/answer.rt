//! The line of each answer.

ghost use Rattle.std.specs.Prelude.{◌≡◌, IfOk, map, option_map, string_bytes};
ghost use Rattle.serde_json.specs.View.{view};
ghost use Rattle.serde_json.specs.Written.{compact_text};
ghost use Rattle.ds_formula.specs.Cells.{cell_at};
ghost use Rattle.ds_formula.specs.Names.{cell_text};
ghost use Rattle.ds_server.specs.SessionTexts.{code_of_fault, name_of_fault, outcome_text, edit_data, last_data, other_data, row_data, rows_data, place_text, joined_data, joined_lost_data, done_data, overtaken_data, settled_data, unsettled_data, tells_data, edit_name_data, edit_of_data, text_by, got_data, entry_data, entries_data, listed_data, resolved_data, error_data, text_fault_data, refusal_data, said_data, said_text};
ghost use Rattle.ds_server.specs.Replies.{entry_view};
ghost use Rattle.ds_server.specs.LineAnswers.{response_view};

use crate::desk::{CallRefusal, History, ListedEdit};
use crate::request::LineFault;
use ds_eval::value::Value;
use ds_formula::cells::{Cell, Shape};
use ds_formula::fault::TextFault;
use ds_layout::place::Place;
use ds_script_io::answer::cell_at;
use ds_state::answer::Other;
use ds_state::recovery::LastEdit;
use serde_json::{Value as Json, json};
use std::alloc::{AllocError, Global};

/// What a line is answered.
#[derive(Debug, Drop)]
pub enum Response {
    /// The process is the session's; its last edit that was announced, if any.
    Joined(usize, Option<LastEdit>),
    /// The same; but the client was answered that a later edit of the process is done, which the desk has not: it has lost it.
    JoinedLost(usize, Option<LastEdit>),
    /// The edit of this number is linearized.
    Done(usize),
    /// The edit of this number is not linearized: the other edit stood in its place.
    Overtaken(usize, Other),
    /// The values of the cells, row by row from the left.
    Settled(Vec<Value>),
    /// This mark or announcement, whose word the report saw, was not at rest.
    Unsettled(Place, u64),
    /// The last edit of the process that was announced, if any.
    Tells(Option<LastEdit>),
    /// The value of the cell, and its last edit that counts, if any.
    GotCell(Cell, Value, Option<ListedEdit>),
    /// The edits that count, from this place on.
    Listed(usize, History),
    /// The edit with a key; none where no edit has it, for good.
    Resolved(Option<ListedEdit>),
    /// The desk refuses the call.
    Refused(CallRefusal),
    /// The line is no call.
    Faulted(LineFault),
}

impl LineFault {
    fn code(self) -> u64
        ensures { result ≡ code_of_fault self }
    {
        match self {
            LineFault::NotJson => 1,
            LineFault::UnknownOp => 2,
            LineFault::BadField => 3,
            LineFault::LineTooLong => 5,
            LineFault::NotJoined => 6,
            LineFault::AlreadyJoined => 7,
            LineFault::NoMemory => 15,
            LineFault::Denied => 20,
        }
    }

    fn name(self) -> &'static str
        ensures { result.now ≡ name_of_fault self }
    {
        match self {
            LineFault::NotJson => "not-json",
            LineFault::UnknownOp => "unknown-op",
            LineFault::BadField => "bad-field",
            LineFault::LineTooLong => "line-too-long",
            LineFault::NotJoined => "not-joined",
            LineFault::AlreadyJoined => "already-joined",
            LineFault::NoMemory => "no-memory",
            LineFault::Denied => "denied",
        }
    }
}

fn cell_name(alloc: Global, shape: &Shape, index: usize) -> Result<String, AllocError>
    ensures { IfOk result (λ text. string_bytes text ≡ cell_text (cell_at shape.now index)) }
{
    cell_at(*shape, index).to_string(alloc)
}

fn outcome(counts: bool) -> &'static str
    ensures { result.now ≡ outcome_text counts }
{
    if counts { "done" } else { "not-done" }
}

fn edit_value(alloc: Global, shape: &Shape, last: LastEdit) -> Result<Json, AllocError>
    ensures { IfOk result (λ v. view v ≡ edit_data shape.now last) }
{
    let cell = Json::String(cell_name(alloc, shape, last.cell)?);
    json!(in alloc; {"cell": cell, "number": (last.number as u64), "outcome": (outcome(last.counts))})
}

fn last_value(alloc: Global, shape: &Shape, last: Option<LastEdit>) -> Result<Json, AllocError>
    ensures { IfOk result (λ v. view v ≡ last_data shape.now last) }
{
    match last {
        None => Ok(Json::Null),
        Some(last) => edit_value(alloc, shape, last),
    }
}

fn other_value(alloc: Global, other: Other) -> Result<Json, AllocError>
    ensures { IfOk result (λ v. view v ≡ other_data other) }
{
    json!(in alloc; {"number": (other.number as u64), "process": (other.process as u64)})
}

fn row_value(alloc: Global, values: &[Value]) -> Result<Json, AllocError>
    ensures { IfOk result (λ v. view v ≡ row_data values.now) }
{
    let mut items = Vec::with_capacity(alloc, values.len())?;
    for value in values {
        items.push(Json::String(value.to_string(alloc)?))?;
    }
    Ok(Json::Array(items))
}

fn rows_value(alloc: Global, shape: &Shape, values: &[Value]) -> Result<Json, AllocError>
    ensures { IfOk result (λ v. view v ≡ rows_data shape.now values.now) }
{
    let mut rows = Vec::with_capacity(alloc, shape.rows)?;
    let mut rest = values;
    for row in 0..shape.rows {
        // The body does not use it: the signature or a clause names it.
        let _row = row;
        let (first, behind) = rest.split_at(shape.columns.min(rest.len()));
        rows.push(row_value(alloc, first)?)?;
        rest = behind;
    }
    Ok(Json::Array(rows))
}

// The place of a word that was not at rest: `mark A1`, `announce 0`.
fn place_name(alloc: Global, shape: &Shape, place: Place) -> Result<String, AllocError>
    ensures { IfOk result (λ text. string_bytes text ≡ place_text shape.now place) }
{
    match place {
        Place::Mark(cell) => {
            let cell = cell_at(*shape, cell);
            format!(in alloc; "mark {cell}")
        }
        Place::Announce(process) => format!(in alloc; "announce {process}"),
        _ => Ok(String::new(alloc)),
    }
}

fn joined_value(
    alloc: Global,
    shape: &Shape,
    process: usize,
    last: Option<LastEdit>,
) -> Result<Json, AllocError>
    ensures { IfOk result (λ v. view v ≡ joined_data shape.now process last) }
{
    let last = last_value(alloc, shape, last)?;
    json!(in alloc; {"last": last, "ok": "join", "process": (process as u64)})
}

fn joined_lost_value(
    alloc: Global,
    shape: &Shape,
    process: usize,
    last: Option<LastEdit>,
) -> Result<Json, AllocError>
    ensures { IfOk result (λ v. view v ≡ joined_lost_data shape.now process last) }
{
    let last = last_value(alloc, shape, last)?;
    json!(in alloc; {"last": last, "lost": true, "ok": "join", "process": (process as u64)})
}

fn done_value(alloc: Global, number: usize) -> Result<Json, AllocError>
    ensures { IfOk result (λ v. view v ≡ done_data number) }
{
    json!(in alloc; {"number": (number as u64), "ok": "done"})
}

fn overtaken_value(alloc: Global, number: usize, by: Other) -> Result<Json, AllocError>
    ensures { IfOk result (λ v. view v ≡ overtaken_data number by) }
{
    let by = other_value(alloc, by)?;
    json!(in alloc; {"by": by, "number": (number as u64), "ok": "overtaken"})
}

fn settled_value(alloc: Global, shape: &Shape, values: &[Value]) -> Result<Json, AllocError>
    ensures { IfOk result (λ v. view v ≡ settled_data shape.now values.now) }
{
    let rows = rows_value(alloc, shape, values)?;
    json!(in alloc; {"ok": "settled", "rows": rows})
}

fn unsettled_value(
    alloc: Global,
    shape: &Shape,
    place: Place,
    word: u64,
) -> Result<Json, AllocError>
    ensures { IfOk result (λ v. view v ≡ unsettled_data shape.now place word) }
{
    let place = Json::String(place_name(alloc, shape, place)?);
    json!(in alloc; {"ok": "unsettled", "place": place, "word": word})
}

fn tells_value(alloc: Global, shape: &Shape, last: Option<LastEdit>) -> Result<Json, AllocError>
    ensures { IfOk result (λ v. view v ≡ tells_data shape.now last) }
{
    let last = last_value(alloc, shape, last)?;
    json!(in alloc; {"last": last, "ok": "last"})
}

// A text as a string. Each text that a cell holds is ASCII: there is no answer where one is not UTF-8.
fn text_string(alloc: Global, text: &[u8]) -> Result<String, AllocError>
    ensures { IfOk result (λ s. string_bytes s ≡ text.now) }
{
    match str::from_utf8(text) {
        Ok(text) => String::from_str(alloc, text),
        Err(_) => Err(AllocError),
    }
}

// Which edit it is.
fn edit_name_value(alloc: Global, edit: &ListedEdit) -> Result<Json, AllocError>
    ensures { IfOk result (λ v. view v ≡ edit_name_data (entry_view edit.now)) }
{
    json!(in alloc; {"number": (edit.number as u64), "process": (edit.process as u64)})
}

// Which edit a cell is of.
fn edit_of_value(alloc: Global, edit: &Option<ListedEdit>) -> Result<Json, AllocError>
    ensures { IfOk result (λ v. view v ≡ edit_of_data (option_map entry_view edit.now)) }
{
    match edit {
        Some(edit) => edit_name_value(alloc, edit),
        None => Ok(Json::Null),
    }
}

// The text that an edit gave its cell.
fn text_by(alloc: Global, edit: &Option<ListedEdit>) -> Result<String, AllocError>
    ensures { IfOk result (λ s. string_bytes s ≡ text_by (option_map entry_view edit.now)) }
{
    match edit {
        Some(edit) => text_string(alloc, &edit.text),
        None => Ok(String::new(alloc)),
    }
}

fn got_value(
    alloc: Global,
    cell: Cell,
    value: Value,
    edit: &Option<ListedEdit>,
) -> Result<Json, AllocError>
    ensures { IfOk result (λ v. view v ≡ got_data cell value (option_map entry_view edit.now)) }
{
    let name = Json::String(cell.to_string(alloc)?);
    let text = Json::String(text_by(alloc, edit)?);
    let value = Json::String(value.to_string(alloc)?);
    let edit = edit_of_value(alloc, edit)?;
    json!(in alloc; {"cell": name, "edit": edit, "ok": "got", "text": text, "value": value})
}

fn entry_value(alloc: Global, edit: &ListedEdit) -> Result<Json, AllocError>
    ensures { IfOk result (λ v. view v ≡ entry_data (entry_view edit.now)) }
{
    let name = Json::String(edit.cell.to_string(alloc)?);
    let text = Json::String(text_string(alloc, &edit.text)?);
    json!(in alloc; {"cell": name, "number": (edit.number as u64), "process": (edit.process as u64), "text": text})
}

fn entries_value(alloc: Global, edits: &[ListedEdit]) -> Result<Json, AllocError>
    ensures { IfOk result (λ v. view v ≡ entries_data (map entry_view edits.now)) }
{
    let mut items = Vec::with_capacity(alloc, edits.len())?;
    for edit in edits {
        items.push(entry_value(alloc, edit)?)?;
    }
    Ok(Json::Array(items))
}

fn listed_value(alloc: Global, from: usize, history: &History) -> Result<Json, AllocError>
    ensures { IfOk result (λ v. view v ≡ listed_data from (map entry_view history.now.edits.items) history.now.of) }
{
    let edits = entries_value(alloc, &history.edits)?;
    json!(in alloc; {"edits": edits, "from": (from as u64), "of": (history.of as u64), "ok": "history"})
}

fn resolved_value(alloc: Global, edit: &Option<ListedEdit>) -> Result<Json, AllocError>
    ensures { IfOk result (λ v. view v ≡ resolved_data (option_map entry_view edit.now)) }
{
    match edit {
        Some(edit) => {
            let edit = entry_value(alloc, edit)?;
            json!(in alloc; {"edit": edit, "ok": "outcome", "outcome": "done"})
        }
        None => json!(in alloc; {"edit": null, "ok": "outcome", "outcome": "never"}),
    }
}

fn error_value(alloc: Global, code: u64, name: &str) -> Result<Json, AllocError>
    ensures { IfOk result (λ v. view v ≡ error_data code name.now) }
{
    json!(in alloc; {"code": code, "error": name})
}

fn text_fault_value(alloc: Global, at: TextFault) -> Result<Json, AllocError>
    ensures { IfOk result (λ v. view v ≡ text_fault_data at) }
{
    json!(in alloc; {"code": 11, "error": "text", "fault": (at.kind.name()), "offset": (at.offset as u64)})
}

fn refusal_value(alloc: Global, refusal: CallRefusal) -> Result<Json, AllocError>
    ensures { IfOk result (λ v. view v ≡ refusal_data refusal) }
{
    match refusal {
        CallRefusal::ProcessTaken => error_value(alloc, 4, "process-taken"),
        CallRefusal::Text(at) => text_fault_value(alloc, at),
        CallRefusal::Stopped => error_value(alloc, 13, "stopped"),
        CallRefusal::RecordsFull => error_value(alloc, 14, "records-full"),
        CallRefusal::NoMemory => error_value(alloc, 15, "no-memory"),
        CallRefusal::KeyReused => error_value(alloc, 21, "key-reused"),
        CallRefusal::NoEdit => error_value(alloc, 22, "no-edit"),
        CallRefusal::NoHistory => error_value(alloc, 23, "no-history"),
    }
}

fn response_value(alloc: Global, shape: &Shape, response: &Response) -> Result<Json, AllocError>
    ensures { IfOk result (λ v. view v ≡ said_data shape.now (response_view response.now)) }
{
    match response {
        Response::Joined(process, last) => joined_value(alloc, shape, *process, *last),
        Response::JoinedLost(process, last) => joined_lost_value(alloc, shape, *process, *last),
        Response::Done(number) => done_value(alloc, *number),
        Response::Overtaken(number, by) => overtaken_value(alloc, *number, *by),
        Response::Settled(values) => settled_value(alloc, shape, values),
        Response::Unsettled(place, word) => unsettled_value(alloc, shape, *place, *word),
        Response::Tells(last) => tells_value(alloc, shape, *last),
        Response::GotCell(cell, value, edit) => got_value(alloc, *cell, *value, edit),
        Response::Listed(from, history) => listed_value(alloc, *from, history),
        Response::Resolved(edit) => resolved_value(alloc, edit),
        Response::Refused(refusal) => refusal_value(alloc, *refusal),
        Response::Faulted(fault) => error_value(alloc, fault.code(), fault.name()),
    }
}

// The text of a response, without its line feed.
#[tactic(auto, using(crate::proofs::Floats::said_no_float))]
fn response_text(alloc: Global, shape: &Shape, response: &Response) -> Result<String, AllocError>
    ensures { IfOk result (λ t. string_bytes t ≡ compact_text (said_data shape.now (response_view response.now))) }
{
    let value = response_value(alloc, shape, response)?;
    value.to_string(alloc)
}

/// The line that a response is written as. An error means that an allocation failed.
pub fn response_line(
    alloc: Global,
    shape: &Shape,
    response: &Response,
) -> Result<Vec<u8>, AllocError>
    ensures { IfOk result (λ v. v.items ≡ said_text shape.now (response_view response.now)) }
{
    let mut line = response_text(alloc, shape, response)?.into_bytes();
    line.push(b'\n')?;
    Ok(line)
}
