//! Records a script, with the words that its events name.

ghost use Rattle.std.specs.Prelude.{◌≡◌, ◌<◌, ◌^◌, ◌↔◌, ◌++◌, ◌∷◌, [], All, Contains, IfErr, IfOk, IsTrue, List, OnOk, length};
ghost use Rattle.ds_layout.specs.declared.place.Place.{Place};
ghost use Rattle.ds_trace.specs.Traces.{AreFirsts, IsTraceOf, IsUntraced, NamesWithin, names_of, place_in, place_named};

use crate::record::{Untraced, record};
use crate::row::{Happening, Trace, TraceRow};
use ds_layout::place::Place;
use ds_words::access::Access;
use std::alloc::{AllocError, Global};

// The place that an access names, if it names one.
fn place_in(access: Access<Place>) -> Option<Place>
    ensures { result ≡ place_in access }
{
    match access {
        Access::Nothing | Access::Back => None,
        Access::Load(place) | Access::Store(place, _) => Some(place),
        Access::Or(place, _) | Access::Flush(place) => Some(place),
        Access::SwapIf {
            place,
            expected: _,
            value: _,
        } => Some(place),
    }
}

/// The place that an event names, if it names one: that of its step's access, or of its eviction.
pub fn place_named(what: Happening) -> Option<Place>
    ensures { result ≡ place_named what }
{
    match what {
        Happening::Steps(_, access) => place_in(access),
        Happening::Evicts(place) => Some(place),
        Happening::Begins(_, _) | Happening::TakesEntry(_) => None,
        Happening::Stops(_) | Happening::Crashes => None,
    }
}

// Whether the place is one of the others.
fn is_one_of(places: &[Place], place: Place) -> bool
    ensures { IsTrue result ↔ Contains places.now place }
{
    places.contains(&place)
}

// Appends the place to the others, where it is none of them.
fn add(places: &mut Vec<Place>, place: Place) -> Result<(), AllocError>
    ensures { OnOk result ((names : List Place) → AreFirsts names places.old.items → AreFirsts (names ++ place ∷ []) places.new.items) }
{
    if is_one_of(places, place) {
        return Ok(());
    }
    places.push(place)?;
    Ok(())
}

// The places that events name, each once, in the order in which they do first.
fn places_of(alloc: Global, rows: &[TraceRow]) -> Result<Vec<Place>, AllocError>
    ensures { IfOk result (λ places. AreFirsts (names_of rows.now) places.items) }
{
    let mut places = Vec::new(alloc);
    for row in rows {
        if let Some(place) = place_named(row.what) {
            add(&mut places, place)?;
        }
    }
    Ok(places)
}

fn are_same(places: &[Place], others: &[Place]) -> bool
    ensures { IsTrue result → places.now ≡ others.now }
{
    places == others
}

// Whether these are the places that events name.
fn are_named(alloc: Global, places: &[Place], rows: &[TraceRow]) -> Result<bool, AllocError>
    ensures { IfOk result (λ named. IsTrue named → AreFirsts (names_of rows.now) places.now) }
{
    let named = places_of(alloc, rows)?;
    Ok(are_same(&named, places))
}

// Whether the event names one of the places, or none at all.
fn is_within(places: &[Place], what: Happening) -> bool
    ensures { IsTrue result → NamesWithin places.now what }
{
    match place_named(what) {
        Some(place) => places.contains(&place),
        None => true,
    }
}

// Whether each event names one of the places, or none at all.
fn are_within(places: &[Place], rows: &[TraceRow]) -> bool
    ensures { IsTrue result → All (λ row. NamesWithin places.now row.what) rows.now }
{
    for row in rows {
        if !is_within(places, row.what) {
            return false;
        }
    }
    true
}

/// The recording of a script, from a new sheet of two columns, two rows and two processes on, or from the one that it
/// begins with: a row for each event, with both sides of each word that an event names. Where it is not `whole`, what
/// comes after its last line feed is left out. The script is run twice: once for the words that it names.
pub fn trace(alloc: Global, script: &[u8], whole: bool) -> Result<Trace, Untraced>
    requires { length script.now < 2 ^ 62 }
    ensures trace { IfOk result (λ trace. IsTraceOf whole script.now trace) }
    ensures named { IfOk result (λ trace. All (λ row. NamesWithin trace.places.items row.what) trace.rows.items) }
    ensures places { IfOk result (λ trace. AreFirsts (names_of trace.rows.items) trace.places.items) }
    ensures untraced { IfErr result (λ why. IsUntraced whole script.now why) }
{
    let first = record(alloc, script, whole, Vec::new(alloc))?;
    let Ok(places) = places_of(alloc, &first.rows) else {
        return Err(Untraced::NoMemory);
    };
    let second = record(alloc, script, whole, places)?;
    if !are_within(&second.places, &second.rows) {
        return Err(Untraced::NoMemory);
    }
    if !are_named(alloc, &second.places, &second.rows)? {
        return Err(Untraced::NoMemory);
    }
    Ok(second)
}
