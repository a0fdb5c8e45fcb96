//! Reads what a line asks for.

ghost use Rattle.std.specs.Prelude.{◌≡◌, option_map, IfOk, IfSome, codes, true};
ghost use Rattle.ds_formula.specs.Cells.{IsInside};
ghost use Rattle.ds_key.specs.Keys.{is_key};
ghost use Rattle.std.specs.Str.{bytes_eq};
ghost use Rattle.serde_json.specs.Find.{get};
ghost use Rattle.serde_json.specs.View.{view};
ghost use Rattle.ds_server.specs.LineRequests.{verb_named, text_field, number_field, is_number, is_any, admits, join_named, join_in, join_with, may_read, read_with, key_in, key_named, set_with, set_in, undo_in, get_in, history_in, resolve_in, call_of, IsCallOf};
ghost use Rattle.ds_server.specs.Asked.{ReadsJson, request_view, option_view, result_view};
ghost use Rattle.std.specs.Prelude.{None, Some};

use ds_formula::cells::{Cell, Shape};
use ds_key::key::is_key;
use serde_json::Value;
use std::alloc::Global;

/// Why a line is no call of a desk. After a fault the desk is as it was.
#[derive(Clone, Copy, Debug, PartialEq, Eq)]
pub enum LineFault {
    /// The line is no JSON. Code 1.
    NotJson,
    /// The field `op` names no call. Code 2.
    UnknownOp,
    /// The line is no object, or a field is missing, of a wrong kind or out of the sheet. Code 3.
    BadField,
    /// The line has more than 4,096 bytes. Code 5.
    LineTooLong,
    /// The session has not joined a process. Code 6.
    NotJoined,
    /// The session has joined a process. Code 7.
    AlreadyJoined,
    /// An allocation failed while the line was read. Code 15.
    NoMemory,
    /// A join without the desk's token, or a question so by a session that has not joined. Code 20.
    Denied,
}

/// What the field `op` names.
#[derive(Clone, Copy, Debug, PartialEq, Eq)]
pub enum Operation {
    /// To take a process.
    Join,
    /// To edit a cell.
    Set,
    /// To take back the last edit of a cell.
    Undo,
    /// To settle and report.
    Report,
    /// The same, without a process.
    View,
    /// What a cell is.
    Get,
    /// The edits that count.
    History,
    /// What became of the edit with a key.
    Outcome,
    /// To report the last edit.
    Last,
}

/// What a line asks for.
#[derive(Clone, Copy, Debug)]
pub enum Request<'a> {
    /// To take this process.
    Join(usize),
    /// To take any process that nobody has.
    JoinAny,
    /// An edit by the process of the cell to the text.
    Set(usize, Cell, &'a [u8]),
    /// An edit by the process of the cell to the text, with this key.
    SetOnce(usize, Cell, &'a [u8], &'a [u8]),
    /// An edit by the process of the cell to the text that it had before its last edit.
    Undo(usize, Cell),
    /// A settle and a report by the process.
    Report(usize),
    /// A settle and a report by the process, or by any without one.
    View(Option<usize>),
    /// What the cell is, by the process, or by any without one.
    Get(Option<usize>, Cell),
    /// The edits that count, from this place on.
    History(usize),
    /// What became of the edit with this key.
    Resolve(&'a [u8]),
    /// A recovery of the process.
    Last(usize),
}

/// Reads a line as JSON. A fault is `NotJson` where it is none, and `NoMemory` where an allocation fails.
pub fn read_json(alloc: Global, line: &[u8]) -> Result<Value, LineFault>
    ensures { ReadsJson line.now result }
{
    match Value::from_slice(alloc, line) {
        Ok(value) => Ok(value),
        Err(error) if error.is_memory() => Err(LineFault::NoMemory),
        Err(_) => Err(LineFault::NotJson),
    }
}

fn verb_named(word: &str) -> Option<Operation>
    ensures { result ≡ verb_named word.now }
{
    match word {
        "join" => Some(Operation::Join),
        "set" => Some(Operation::Set),
        "undo" => Some(Operation::Undo),
        "report" => Some(Operation::Report),
        "view" => Some(Operation::View),
        "get" => Some(Operation::Get),
        "history" => Some(Operation::History),
        "outcome" => Some(Operation::Outcome),
        "last" => Some(Operation::Last),
        _ => None,
    }
}

fn text_of<'a>(value: &'a Value, key: &str) -> Option<&'a str>
    ensures { option_map (λ s. s.now) result ≡ text_field key.now (view value.now) }
{
    value.get(key).and_then(Value::as_str)
}

fn number_of(value: &Value, key: &str) -> Option<u64>
    ensures { result ≡ number_field key.now (view value.now) }
{
    value.get(key).and_then(Value::as_u64)
}

// Whether a word is the token. All of it is looked at, so that the time does not tell how much of it is right.
fn is_token(word: &[u8], token: &[u8]) -> bool
    ensures { result ≡ bytes_eq word.now token.now }
{
    if word.len() != token.len() {
        return false;
    }
    let mut same = true;
    for at in 0..token.len() {
        same &= word[at] == token[at];
    }
    same
}

// Whether a join has the token that it has to have, if any.
fn admits(token: Option<&[u8]>, value: &Value) -> bool
    ensures { result ≡ admits (option_map (λ t. t.now) token.entry) (view value.now) }
{
    let Some(token) = token else {
        return true;
    };
    match text_of(value, "token") {
        Some(word) => is_token(word.as_bytes(), token),
        None => false,
    }
}

// Whether the field with this key, which may be left out, is a number where it is there.
fn is_number(value: &Value, key: &str) -> bool
    ensures { result ≡ is_number (get key.now (view value.now)) }
{
    match value.get(key) {
        Some(field) => field.as_u64().is_some(),
        None => true,
    }
}

/// The number of the last edit of which the client of a join was answered that it is done, if the value says so.
pub fn done_of(value: &Value) -> Option<u64>
    ensures { result ≡ number_field (codes "told") (view value.now) }
{
    number_of(value, "told")
}

// Whether the field `process` stands for any process.
fn is_any(value: &Value) -> bool
    ensures { result ≡ is_any (text_field (codes "process") (view value.now)) }
{
    matches!(text_of(value, "process"), Some("any"))
}

// The join of any process, or of the one that the field names, where the desk has it.
fn join_named<'a>(value: &Value, shape: &Shape, processes: usize) -> Option<Request<'a>>
    ensures value { option_view result ≡ join_named processes (view value.now) }
    ensures fits { IfSome result (λ r. IsCallOf shape.now processes None (request_view r)) }
{
    if is_any(value) {
        return Some(Request::JoinAny);
    }
    let process = number_of(value, "process")?;
    if process < processes as u64 {
        Some(Request::Join(process as usize))
    } else {
        None
    }
}

// The join that the value asks for, where the desk has it.
fn join_request<'a>(value: &Value, shape: &Shape, processes: usize) -> Option<Request<'a>>
    ensures value { option_view result ≡ join_in processes (view value.now) }
    ensures fits { IfSome result (λ r. IsCallOf shape.now processes None (request_view r)) }
{
    if is_number(value, "told") {
        join_named(value, shape, processes)
    } else {
        None
    }
}

// The key that a field has, if it is one.
fn key_of(field: &Value) -> Option<&[u8]>
    ensures key { option_map (λ k. k.now) result ≡ key_in (view field.now) }
    ensures is { IfSome result (λ k. is_key k.now ≡ true) }
{
    let text = field.as_str()?.as_bytes();
    if is_key(text) { Some(text) } else { None }
}

// The edit by a process, with the key that its field has, where it has that field.
fn set_with<'a>(
    shape: &Shape,
    processes: usize,
    process: usize,
    cell: Cell,
    text: &'a [u8],
    field: Option<&'a Value>,
) -> Option<Request<'a>>
    requires { IsInside shape.now cell }
    ensures value { option_view result ≡ set_with process cell text.now (option_map (λ f. view f.now) field.entry) }
    ensures fits { IfSome result (λ r. IsCallOf shape.now processes (Some process) (request_view r)) }
{
    // The body does not use them: a clause names them.
    let (_shape, _processes) = (*shape, processes);
    match field {
        Some(field) => Some(Request::SetOnce(process, cell, text, key_of(field)?)),
        None => Some(Request::Set(process, cell, text)),
    }
}

// The edit by a process of a cell of the sheet.
fn set_request<'a>(
    value: &'a Value,
    shape: &Shape,
    processes: usize,
    process: usize,
) -> Option<Request<'a>>
    ensures value { option_view result ≡ set_in shape.now process (view value.now) }
    ensures fits { IfSome result (λ r. IsCallOf shape.now processes (Some process) (request_view r)) }
{
    let cell = shape.named(text_of(value, "cell")?.as_bytes())?;
    let text = text_of(value, "text")?.as_bytes();
    set_with(shape, processes, process, cell, text, value.get("key"))
}

// The undo by a process of a cell of the sheet.
fn undo_request<'a>(
    value: &Value,
    shape: &Shape,
    processes: usize,
    process: usize,
) -> Option<Request<'a>>
    ensures value { option_view result ≡ undo_in shape.now process (view value.now) }
    ensures fits { IfSome result (λ r. IsCallOf shape.now processes (Some process) (request_view r)) }
{
    let cell = shape.named(text_of(value, "cell")?.as_bytes())?;
    Some(Request::Undo(process, cell))
}

// The question for a cell of the sheet.
fn get_request<'a>(
    value: &Value,
    shape: &Shape,
    processes: usize,
    joined: Option<usize>,
) -> Option<Request<'a>>
    ensures value { option_view result ≡ get_in shape.now joined (view value.now) }
    ensures fits { IfSome result (λ r. IsCallOf shape.now processes joined (request_view r)) }
{
    let cell = shape.named(text_of(value, "cell")?.as_bytes())?;
    Some(Request::Get(joined, cell))
}

// The question for the edits from a place on.
fn history_request<'a>(
    value: &Value,
    shape: &Shape,
    processes: usize,
    joined: Option<usize>,
) -> Option<Request<'a>>
    ensures value { option_view result ≡ history_in (view value.now) }
    ensures fits { IfSome result (λ r. IsCallOf shape.now processes joined (request_view r)) }
{
    // The body does not use them: a clause names them.
    let (_shape, _processes, _joined) = (*shape, processes, joined);
    let from = number_of(value, "from")?;
    Some(Request::History(from as usize))
}

// The question what became of the edit with a key.
fn resolve_request<'a>(
    value: &'a Value,
    shape: &Shape,
    processes: usize,
    joined: Option<usize>,
) -> Option<Request<'a>>
    ensures value { option_view result ≡ resolve_in (view value.now) }
    ensures fits { IfSome result (λ r. IsCallOf shape.now processes joined (request_view r)) }
{
    // The body does not use them: a clause names them.
    let (_shape, _processes, _joined) = (*shape, processes, joined);
    let key = key_of(value.get("key")?)?;
    Some(Request::Resolve(key))
}

// A join: the process, where the value has the token that it has to have, if any.
fn join_with<'a>(
    value: &Value,
    shape: &Shape,
    processes: usize,
    token: Option<&[u8]>,
) -> Result<Request<'a>, LineFault>
    ensures value { result_view result ≡ join_with processes (option_map (λ t. t.now) token.entry) (view value.now) }
    ensures fits { IfOk result (λ r. IsCallOf shape.now processes None (request_view r)) }
{
    if admits(token, value) {
        join_request(value, shape, processes).ok_or(LineFault::BadField)
    } else {
        Err(LineFault::Denied)
    }
}

// Whether a session may read: one that has joined a process, or has the token that a join has to have, if any.
fn may_read(token: Option<&[u8]>, joined: Option<usize>, value: &Value) -> bool
    ensures { result ≡ may_read (option_map (λ t. t.now) token.entry) joined (view value.now) }
{
    match joined {
        Some(_) => true,
        None => admits(token, value),
    }
}

// The call that only reads, if there is one, where the session may read.
fn read_with<'a>(
    value: &Value,
    shape: &Shape,
    processes: usize,
    token: Option<&[u8]>,
    joined: Option<usize>,
    request: Option<Request<'a>>,
) -> Result<Request<'a>, LineFault>
    requires { IfSome request (λ r. IsCallOf shape.now processes joined (request_view r)) }
    ensures value { result_view result ≡ read_with (option_map (λ t. t.now) token.entry) joined (view value.now) (option_view request.entry) }
    ensures fits { IfOk result (λ r. IsCallOf shape.now processes joined (request_view r)) }
{
    // The body does not use them: a clause names them.
    let (_shape, _processes) = (*shape, processes);
    if may_read(token, joined, value) {
        request.ok_or(LineFault::BadField)
    } else {
        Err(LineFault::Denied)
    }
}

/// What the value asks for, by the process that the session has joined, if any; or its first fault. A join has to have
/// this token, if there is one, and so does a question of a session that has joined no process.
pub fn read_request<'a>(
    value: &'a Value,
    shape: &Shape,
    processes: usize,
    token: Option<&[u8]>,
    joined: Option<usize>,
) -> Result<Request<'a>, LineFault>
    ensures value { result_view result ≡ call_of shape.now processes (option_map (λ t. t.now) token.entry) joined (view value.now) }
    ensures fits { IfOk result (λ r. IsCallOf shape.now processes joined (request_view r)) }
{
    let Some(op) = text_of(value, "op") else {
        return Err(LineFault::BadField);
    };
    match (verb_named(op), joined) {
        (None, _) => Err(LineFault::UnknownOp),
        (Some(Operation::View), _) => {
            let view = Some(Request::View(joined));
            read_with(value, shape, processes, token, joined, view)
        }
        (Some(Operation::Get), _) => {
            let get = get_request(value, shape, processes, joined);
            read_with(value, shape, processes, token, joined, get)
        }
        (Some(Operation::History), _) => {
            let history = history_request(value, shape, processes, joined);
            read_with(value, shape, processes, token, joined, history)
        }
        (Some(Operation::Outcome), _) => {
            let resolve = resolve_request(value, shape, processes, joined);
            read_with(value, shape, processes, token, joined, resolve)
        }
        (Some(Operation::Join), None) => join_with(value, shape, processes, token),
        (Some(Operation::Join), Some(_)) => Err(LineFault::AlreadyJoined),
        (Some(_), None) => Err(LineFault::NotJoined),
        (Some(Operation::Set), Some(process)) => {
            set_request(value, shape, processes, process).ok_or(LineFault::BadField)
        }
        (Some(Operation::Undo), Some(process)) => {
            undo_request(value, shape, processes, process).ok_or(LineFault::BadField)
        }
        (Some(Operation::Report), Some(process)) => Ok(Request::Report(process)),
        (Some(Operation::Last), Some(process)) => Ok(Request::Last(process)),
    }
}
