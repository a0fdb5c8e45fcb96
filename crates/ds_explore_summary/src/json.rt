//! An exploration as lines of JSON.

ghost use Rattle.std.specs.Prelude.{◌≡◌, IfOk, OnOk, length, map, string_bytes};
ghost use Rattle.serde_json.specs.Data.{array, put as with_member, string};
ghost use Rattle.serde_json.specs.View.{items_of, members_view, view};
ghost use Rattle.serde_json.specs.Written.{compact_text};
ghost use Rattle.ds_explore_summary.specs.Lines.{data_line, figures_data, flaw_data, found_data, kind_data, line_at, lines_text, orders_data, outcome_data, texts_data};
ghost use Rattle.ds_explore_summary.specs.Summaries.{texts_below};

use ds_explore::exploration::{Exploration, Outcome};
use ds_explore::flaw::Flaw;
use serde_json::{Map, Value, json, put};
use std::alloc::{AllocError, AllocFailed, Global};
use std::str;

/// Why an exploration is not written as JSON.
#[derive(Clone, Copy, Debug, PartialEq, Eq)]
pub enum LinesFault {
    /// The script is not UTF-8.
    NotUtf8,
    /// An allocation failed.
    NoMemory,
}

impl From<AllocError> for LinesFault {
    fn from(_error: AllocError) -> LinesFault {
        LinesFault::NoMemory
    }
}

impl<T: Drop> From<AllocFailed<T>> for LinesFault {
    fn from(_failed: AllocFailed<T>) -> LinesFault {
        LinesFault::NoMemory
    }
}

// Bytes as a text.
fn text_value(alloc: Global, bytes: &[u8]) -> Result<Value, LinesFault>
    ensures { IfOk result (λ v. view v ≡ string bytes.now) }
{
    match str::from_utf8(bytes) {
        Ok(text) => Ok(Value::String(String::from_str(alloc, text)?)),
        Err(_) => Err(LinesFault::NotUtf8),
    }
}

// One member more: bytes as a text.
fn put_text(
    alloc: Global,
    map: &mut Map<String, Value>,
    key: &str,
    bytes: &[u8],
) -> Result<(), LinesFault>
    ensures { OnOk result (members_view map.new.entries ≡ with_member key.now (string bytes.now) (members_view map.old.entries)) }
{
    let value = text_value(alloc, bytes)?;
    put(map, alloc, key, value)?;
    Ok(())
}

// How many orders there are.
fn orders_value(alloc: Global, orders: u128) -> Result<Value, LinesFault>
    ensures { IfOk result (λ v. view v ≡ orders_data orders) }
{
    Ok(Value::String(orders.to_string(alloc)?))
}

// What is wrong.
fn flaws_value(alloc: Global, flaws: &[Flaw]) -> Result<Value, LinesFault>
    ensures { IfOk result (λ v. view v ≡ array (items_of (map flaw_data flaws.now))) }
{
    let mut items = Vec::with_capacity(alloc, flaws.len())?;
    for flaw in flaws {
        items.push(Value::String(flaw.to_string(alloc)?))?;
    }
    Ok(Value::Array(items))
}

// The outcome with this number, but for its texts.
fn kind_value(alloc: Global, number: u64, outcome: &Outcome) -> Result<Value, LinesFault>
    ensures { IfOk result (λ v. view v ≡ kind_data number outcome.now) }
{
    let orders = outcome.orders.to_string(alloc)?;
    let wrong = flaws_value(alloc, &outcome.flaws)?;
    Ok(
        json!(in alloc; {"crashed": (outcome.crashed), "number": number, "orders": (orders.as_str()), "wrong": wrong})?,
    )
}

// The texts of an outcome.
fn texts_of(alloc: Global, outcome: &Outcome) -> Result<Map<String, Value>, LinesFault>
    ensures { IfOk result (λ map. members_view map.entries ≡ texts_data outcome.now) }
{
    let mut map = Map::new(alloc);
    put_text(alloc, &mut map, "answers", &outcome.answers)?;
    put_text(alloc, &mut map, "report", &outcome.tail)?;
    put_text(alloc, &mut map, "script", &outcome.script)?;
    Ok(map)
}

// The outcome with this number.
fn outcome_value(alloc: Global, number: u64, outcome: &Outcome) -> Result<Value, LinesFault>
    ensures { IfOk result (λ v. view v ≡ outcome_data number outcome.now) }
{
    let kind = kind_value(alloc, number, outcome)?;
    let mut map = texts_of(alloc, outcome)?;
    put(&mut map, alloc, "outcome", kind)?;
    Ok(Value::Object(map))
}

// How much was found.
fn found_value(alloc: Global, exploration: &Exploration) -> Result<Value, LinesFault>
    ensures { IfOk result (λ v. view v ≡ found_data exploration.now) }
{
    let orders = orders_value(alloc, exploration.orders())?;
    let outcomes = exploration.outcomes.len() as u64;
    Ok(
        json!(in alloc; {"orders": orders, "outcomes": outcomes, "states": (exploration.states as u64)})?,
    )
}

// The figures.
fn figures_value(alloc: Global, exploration: &Exploration) -> Result<Value, LinesFault>
    ensures { IfOk result (λ v. view v ≡ figures_data exploration.now) }
{
    let found = found_value(alloc, exploration)?;
    let wrong = exploration.is_wrong();
    Ok(
        json!(in alloc; {"cut": (exploration.is_cut), "endless": (exploration.is_endless), "found": found, "wrong": wrong})?,
    )
}

// The text of the figures, without a line feed.
#[tactic(auto, using(crate::proofs::Floats::figures_no_float))]
fn figures_text(alloc: Global, exploration: &Exploration) -> Result<String, LinesFault>
    ensures { IfOk result (λ t. string_bytes t ≡ compact_text (figures_data exploration.now)) }
{
    let value = figures_value(alloc, exploration)?;
    Ok(value.to_string(alloc)?)
}

// The text of an outcome, without a line feed.
fn outcome_text(alloc: Global, number: u64, outcome: &Outcome) -> Result<String, LinesFault>
    ensures { IfOk result (λ t. string_bytes t ≡ compact_text (outcome_data number outcome.now)) }
{
    let value = outcome_value(alloc, number, outcome)?;
    Ok(value.to_string(alloc)?)
}

// The line of an outcome.
fn outcome_line(alloc: Global, number: u64, outcome: &Outcome) -> Result<Vec<u8>, LinesFault>
    ensures { IfOk result (λ line. line.items ≡ data_line (outcome_data number outcome.now)) }
{
    let mut line = outcome_text(alloc, number, outcome)?.into_bytes();
    line.push(b'\n')?;
    Ok(line)
}

// The lines of outcomes.
fn outcome_lines(alloc: Global, outcomes: &[Outcome]) -> Result<Vec<u8>, LinesFault>
    ensures { IfOk result (λ text. text.items ≡ texts_below (line_at outcomes.now) (length outcomes.now)) }
{
    let mut text = Vec::new(alloc);
    for at in 0..outcomes.len() {
        let line = outcome_line(alloc, at as u64 + 1, &outcomes[at])?;
        text.extend_from_slice(&line)?;
    }
    Ok(text)
}

/// An exploration as lines of JSON: one of its figures, and one of each outcome, with its script, what that is answered, and
/// what of it is reported after the order. The fault is that the script is not UTF-8, or that an allocation failed.
pub fn lines(alloc: Global, exploration: &Exploration) -> Result<Vec<u8>, LinesFault>
    ensures { IfOk result (λ text. text.items ≡ lines_text exploration.now) }
{
    let outcomes = outcome_lines(alloc, &exploration.outcomes)?;
    let mut text = figures_text(alloc, exploration)?.into_bytes();
    text.push(b'\n')?;
    text.extend_from_slice(&outcomes)?;
    Ok(text)
}
