//! Requests of a client.

ghost use Rattle.std.specs.Prelude.{◌≡◌, IfOk, Some, codes, option_map, string_bytes};
ghost use Rattle.serde_json.specs.Data.{member, no_members, object};
ghost use Rattle.serde_json.specs.View.{view};
ghost use Rattle.serde_json.specs.Written.{compact_text};
ghost use Rattle.ds_client.specs.Asks.{Join, JoinAny, History, Outcome, Set, View, wish_view};
ghost use Rattle.ds_server.specs.SessionTexts.{text_data};
ghost use Rattle.ds_client.specs.Requests.{of_cell_data, wish_data, wish_text};

use crate::ask::Ask;
use serde_json::{Value as Json, json};
use std::alloc::{AllocError, Global};

// A join that has both: the number of the last edit that was answered done, and a token.
fn whole_join_value(
    alloc: Global,
    process: usize,
    done: u64,
    token: &str,
) -> Result<Json, AllocError>
    ensures { IfOk result (λ v. view v ≡ wish_data (Join process (Some done) (Some token.now))) }
{
    json!(in alloc; {"op": "join", "process": (process as u64), "token": token, "told": done})
}

fn join_value(
    alloc: Global,
    process: usize,
    done: Option<u64>,
    token: Option<&str>,
) -> Result<Json, AllocError>
    ensures { IfOk result (λ v. view v ≡ wish_data (Join process done (option_map (λ t. t.now) token.entry))) }
{
    match (done, token) {
        (None, None) => json!(in alloc; {"op": "join", "process": (process as u64)}),
        (None, Some(token)) => {
            json!(in alloc; {"op": "join", "process": (process as u64), "token": token})
        }
        (Some(done), None) => {
            json!(in alloc; {"op": "join", "process": (process as u64), "told": done})
        }
        (Some(done), Some(token)) => whole_join_value(alloc, process, done, token),
    }
}

fn join_any_value(alloc: Global, token: Option<&str>) -> Result<Json, AllocError>
    ensures { IfOk result (λ v. view v ≡ wish_data (JoinAny (option_map (λ t. t.now) token.entry))) }
{
    match token {
        None => json!(in alloc; {"op": "join", "process": "any"}),
        Some(token) => json!(in alloc; {"op": "join", "process": "any", "token": token}),
    }
}

fn set_value(alloc: Global, cell: &str, text: &str, key: Option<&str>) -> Result<Json, AllocError>
    ensures { IfOk result (λ v. view v ≡ wish_data (Set cell.now text.now (option_map (λ k. k.now) key.entry))) }
{
    match key {
        None => json!(in alloc; {"cell": cell, "op": "set", "text": text}),
        Some(key) => json!(in alloc; {"cell": cell, "key": key, "op": "set", "text": text}),
    }
}

// A request that has this name, of the cell of that one.
fn of_cell_value(
    alloc: Global,
    name: &str,
    cell: &str,
    token: Option<&str>,
) -> Result<Json, AllocError>
    ensures { IfOk result (λ v. view v ≡ of_cell_data name.now cell.now (option_map (λ t. t.now) token.entry)) }
{
    match token {
        None => json!(in alloc; {"cell": cell, "op": name}),
        Some(token) => json!(in alloc; {"cell": cell, "op": name, "token": token}),
    }
}

fn history_value(alloc: Global, from: usize, token: Option<&str>) -> Result<Json, AllocError>
    ensures { IfOk result (λ v. view v ≡ wish_data (History from (option_map (λ t. t.now) token.entry))) }
{
    match token {
        None => json!(in alloc; {"from": (from as u64), "op": "history"}),
        Some(token) => json!(in alloc; {"from": (from as u64), "op": "history", "token": token}),
    }
}

fn outcome_value(alloc: Global, key: &str, token: Option<&str>) -> Result<Json, AllocError>
    ensures { IfOk result (λ v. view v ≡ wish_data (Outcome key.now (option_map (λ t. t.now) token.entry))) }
{
    match token {
        None => json!(in alloc; {"key": key, "op": "outcome"}),
        Some(token) => json!(in alloc; {"key": key, "op": "outcome", "token": token}),
    }
}

fn view_value(alloc: Global, token: Option<&str>) -> Result<Json, AllocError>
    ensures { IfOk result (λ v. view v ≡ wish_data (View (option_map (λ t. t.now) token.entry))) }
{
    match token {
        None => json!(in alloc; {"op": "view"}),
        Some(token) => json!(in alloc; {"op": "view", "token": token}),
    }
}

// A request that is its name alone.
fn named_value(alloc: Global, name: &str) -> Result<Json, AllocError>
    ensures { IfOk result (λ v. view v ≡ object (member (codes "op") (text_data name.now) no_members)) }
{
    json!(in alloc; {"op": name})
}

fn request_value(alloc: Global, ask: Ask<'_>) -> Result<Json, AllocError>
    ensures { IfOk result (λ v. view v ≡ wish_data (wish_view ask.entry)) }
{
    match ask {
        Ask::Join(process, done, token) => join_value(alloc, process, done, token),
        Ask::Set { cell, text, key } => set_value(alloc, cell, text, key),
        Ask::JoinAny(token) => join_any_value(alloc, token),
        Ask::Undo(cell) => of_cell_value(alloc, "undo", cell, None),
        Ask::Get(cell, token) => of_cell_value(alloc, "get", cell, token),
        Ask::History(from, token) => history_value(alloc, from, token),
        Ask::Outcome(key, token) => outcome_value(alloc, key, token),
        Ask::View(token) => view_value(alloc, token),
        Ask::Report => named_value(alloc, "report"),
        Ask::Last => named_value(alloc, "last"),
    }
}

// The text of a request, without its line feed.
#[tactic(auto, using(crate::proofs::Floats::wish_no_float))]
fn request_text(alloc: Global, ask: Ask<'_>) -> Result<String, AllocError>
    ensures { IfOk result (λ t. string_bytes t ≡ compact_text (wish_data (wish_view ask.entry))) }
{
    let value = request_value(alloc, ask)?;
    value.to_string(alloc)
}

/// The line that asks a server for this. An error means that an allocation failed.
pub fn request_line(alloc: Global, ask: Ask<'_>) -> Result<Vec<u8>, AllocError>
    ensures { IfOk result (λ v. v.items ≡ wish_text (wish_view ask.entry)) }
{
    let mut line = request_text(alloc, ask)?.into_bytes();
    line.push(b'\n')?;
    Ok(line)
}
