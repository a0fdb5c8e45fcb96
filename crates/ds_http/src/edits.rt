//! A single edit.

ghost use Rattle.std.specs.Prelude.{◌≡◌, IfSome, option_copied, option_map, true};
ghost use Rattle.serde_json.specs.View.{view};
ghost use Rattle.ds_formula.specs.Cells.{IsInside};
ghost use Rattle.ds_key.specs.Keys.{is_key};
ghost use Rattle.ds_server.specs.LineRequests.{text_field, key_named, key_in};
ghost use Rattle.ds_server.specs.LineAnswers.{response_view};
ghost use Rattle.ds_http.specs.Taking.{Visits, Sets, edit_call};
ghost use Rattle.ds_http.specs.Edits.{edit_in, key_by, PostsValue, Posts, same_key};
ghost use Rattle.ds_server.specs.Replies.{set_view};

use crate::taking::take_process;
use ds_formula::cells::{Cell, Shape};
use ds_key::key::is_key;
use ds_server::answer::Response;
use ds_server::desk::{CallRefusal, Desk};
use ds_server::request::{LineFault, read_json};
use ds_state::answer::EditEnd;
use http::HeaderValue;
use serde_json::Value;
use std::alloc::Global;

// An edit that a request asks for, with its key, if it is to have one.
#[derive(Clone, Copy)]
struct Wanted<'a> {
    cell: Cell,
    text: &'a [u8],
    key: Option<&'a [u8]>,
}

fn text_of<'a>(value: &'a Value, key: &str) -> Option<&'a str>
    ensures { option_map (λ s. s.now) result ≡ text_field key.now (view value.now) }
{
    value.get(key).and_then(Value::as_str)
}

// The key that a text is, if it is one.
fn key_named(text: &[u8]) -> Option<&[u8]>
    ensures key { option_map (λ k. k.now) result ≡ key_named text.now }
    ensures is { IfSome result (λ k. is_key k.now ≡ true) }
{
    if is_key(text) { Some(text) } else { None }
}

// The key that a field of a body has, if it is one.
fn key_in(field: &Value) -> Option<&[u8]>
    ensures key { option_map (λ k. k.now) result ≡ key_in (view field.now) }
    ensures is { IfSome result (λ k. is_key k.now ≡ true) }
{
    key_named(field.as_str()?.as_bytes())
}

// A key that is said twice. None where the two differ.
fn same_key<'a>(key: &'a [u8], other: &[u8]) -> Option<Option<&'a [u8]>>
    requires { is_key key.now ≡ true }
    ensures key { option_map (λ some. option_map (λ k. k.now) some) result ≡ same_key key.now other.now }
    ensures is { IfSome result (λ some. IfSome some (λ k. is_key k.now ≡ true)) }
{
    if key == other { Some(Some(key)) } else { None }
}

// The key that an edit is to have, if any, by the value of the head's field and by the body's. None where one is no key, or
// the two differ.
fn key_by<'a>(head: Option<&'a HeaderValue>, field: Option<&'a Value>) -> Option<Option<&'a [u8]>>
    ensures key { option_map (λ some. option_map (λ k. k.now) some) result ≡ key_by (option_copied head.entry) (option_map (λ f. view f.now) field.entry) }
    ensures is { IfSome result (λ some. IfSome some (λ k. is_key k.now ≡ true)) }
{
    match (head, field) {
        (None, None) => Some(None),
        (None, Some(field)) => Some(Some(key_in(field)?)),
        (Some(value), None) => Some(Some(key_named(value.as_bytes())?)),
        (Some(value), Some(field)) => same_key(key_named(value.as_bytes())?, key_in(field)?),
    }
}

// The edit that the fields and the head's value ask for: a cell of the sheet, a text, and a key, if it is to have one.
fn edit_in<'a>(value: &'a Value, head: Option<&'a HeaderValue>, shape: &Shape) -> Option<Wanted<'a>>
    ensures edit { option_map (λ wanted. (wanted.cell, wanted.text.now, option_map (λ k. k.now) wanted.key)) result ≡ edit_in shape.now (option_copied head.entry) (view value.now) }
    ensures key { IfSome result (λ wanted. IfSome wanted.key (λ k. is_key k.now ≡ true)) }
{
    let cell = shape.named(text_of(value, "cell")?.as_bytes())?;
    let text = text_of(value, "text")?.as_bytes();
    let key = key_by(head, value.get("key"))?;
    Some(Wanted { cell, text, key })
}

// What is answered to an edit that has ended so.
fn edit_answer(end: Result<EditEnd, CallRefusal>) -> Response
    ensures { response_view result ≡ set_view end }
{
    match end {
        Ok(EditEnd::Done(number)) => Response::Done(number),
        Ok(EditEnd::Overtaken(number, by)) => Response::Overtaken(number, by),
        Err(why) => Response::Refused(why),
    }
}

// A whole edit, by its key, if it has one.
fn set<B: Desk>(alloc: Global, desk: &mut B, process: usize, wanted: Wanted<'_>) -> Response
    requires sits { B.rules.sits desk.old process }
    requires inside { IsInside (B.rules.shape desk.old) wanted.cell }
    requires key { IfSome wanted.key (λ k. is_key k.now ≡ true) }
    ensures does { B.rules.does desk.old (edit_call wanted.entry.cell wanted.entry.text.now (option_map (λ k. k.now) wanted.entry.key) process) (response_view result) desk.new }
    ensures sits { B.rules.sits desk.new process }
{
    match wanted.key {
        Some(key) => edit_answer(desk.set_once(alloc, process, wanted.cell, wanted.text, key)),
        None => edit_answer(desk.set(alloc, process, wanted.cell, wanted.text)),
    }
}

// A whole edit of a cell that the sheet has; else nothing.
fn set_within<B: Desk>(alloc: Global, desk: &mut B, process: usize, wanted: Wanted<'_>) -> Response
    requires sits { B.rules.sits desk.old process }
    requires key { IfSome wanted.key (λ k. is_key k.now ≡ true) }
    ensures sets { Sets B.rules wanted.entry.cell wanted.entry.text.now (option_map (λ k. k.now) wanted.entry.key) process desk.old (response_view result) desk.new }
    ensures sits { B.rules.sits desk.new process }
{
    if desk.shape().contains(wanted.cell) {
        set(alloc, desk, process, wanted)
    } else {
        Response::Refused(CallRefusal::ProcessTaken)
    }
}

// An edit by a process that nobody has, which is taken for as long as the edit lasts.
fn edit<B: Desk>(alloc: Global, desk: &mut B, wanted: Wanted<'_>) -> Response
    requires { IfSome wanted.key (λ k. is_key k.now ≡ true) }
    ensures { Visits B.rules desk.old (Sets B.rules wanted.entry.cell wanted.entry.text.now (option_map (λ k. k.now) wanted.entry.key)) (response_view result) desk.new }
{
    match take_process(alloc, desk) {
        Ok(process) => {
            let answer = set_within(alloc, desk, process, wanted);
            desk.leave(process);
            answer
        }
        Err(why) => Response::Refused(why),
    }
}

// The edit that a value and the head's field ask for.
fn edit_by_value<B: Desk>(
    alloc: Global,
    desk: &mut B,
    head: Option<&HeaderValue>,
    value: &Value,
) -> Response
    ensures { PostsValue B.rules desk.old (option_copied head.entry) (view value.now) (response_view result) desk.new }
{
    let shape = desk.shape();
    match edit_in(value, head, &shape) {
        Some(wanted) => edit(alloc, desk, wanted),
        None => Response::Faulted(LineFault::BadField),
    }
}

/// The edit that a body asks for, as `{"cell":"A1","text":"=1+2"}`, by a process that nobody has. Its key, if it is to have
/// one, is the value of the head's field or the body's field `key`; where both are there, they have to be the same.
pub(crate) fn post_edit<B: Desk>(
    alloc: Global,
    desk: &mut B,
    head: Option<&HeaderValue>,
    body: &[u8],
) -> Response
    ensures { Posts B.rules desk.old (option_copied head.entry) body.now (response_view result) desk.new }
{
    match read_json(alloc, body) {
        Ok(value) => edit_by_value(alloc, desk, head, &value),
        Err(fault) => Response::Faulted(fault),
    }
}
