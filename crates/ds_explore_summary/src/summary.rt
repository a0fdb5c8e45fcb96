//! An exploration at a glance.

ghost use Rattle.std.specs.Prelude.{◌+◌, ◌≡◌, ◌≤◌, IfOk, if◌then◌else◌, length, slice_get};
ghost use Rattle.ds_explore.specs.Judging.{any_below};
ghost use Rattle.ds_explore_summary.specs.Summaries.{block_text, blocks_text, circle_text, count_below, crashed_by, crashes_so, crashes_text, ends_as, faults_text, figures_text, first_text, heading_text, is_first, number_text, numbers_text, orders_by, orders_so, runs_so, summary_text, tail_at, wrong_by, wrong_text};

use ds_explore::exploration::{Exploration, Outcome};
use std::alloc::{AllocError, Global};

// What is reported after the orders of the outcome at this place.
fn tail_at(outcomes: &[Outcome], at: usize) -> &[u8]
    ensures { result.now ≡ tail_at outcomes.now at }
{
    match outcomes.get(at) {
        Some(outcome) => &outcome.tail,
        None => &[],
    }
}

// How many orders lead to the outcome at this place.
fn orders_at(outcomes: &[Outcome], at: usize) -> u128
    ensures { result ≡ orders_by (slice_get outcomes.now at) }
{
    match outcomes.get(at) {
        Some(outcome) => outcome.orders,
        None => 0,
    }
}

// Whether the orders of the outcome at this place end with a crash.
fn crashed_at(outcomes: &[Outcome], at: usize) -> bool
    ensures { result ≡ crashed_by (slice_get outcomes.now at) }
{
    match outcomes.get(at) {
        Some(outcome) => outcome.crashed,
        None => false,
    }
}

// Whether something is wrong with the outcome at this place.
fn wrong_at(outcomes: &[Outcome], at: usize) -> bool
    ensures { result ≡ wrong_by (slice_get outcomes.now at) }
{
    match outcomes.get(at) {
        Some(outcome) => outcome.is_wrong(),
        None => false,
    }
}

// Whether two outcomes have one ending.
fn ends_as(outcomes: &[Outcome], at: usize, other: usize) -> bool
    ensures { result ≡ ends_as outcomes.now at other }
{
    tail_at(outcomes, other) == tail_at(outcomes, at)
}

// Whether no outcome before has the ending of this one.
fn is_first(outcomes: &[Outcome], at: usize) -> bool
    ensures { result ≡ is_first outcomes.now at }
{
    let mut before = false;
    for other in 0..at {
        before |= ends_as(outcomes, at, other);
    }
    !before
}

// How many orders an outcome adds to those that have the ending of this one.
fn orders_with(outcomes: &[Outcome], at: usize, other: usize) -> u128
    ensures { result ≡ if ends_as outcomes.now at other then orders_by (slice_get outcomes.now other) else 0 }
{
    if ends_as(outcomes, at, other) {
        orders_at(outcomes, other)
    } else {
        0
    }
}

// How many orders have the ending of this outcome, at most 2^128 - 1.
fn orders_so(outcomes: &[Outcome], at: usize) -> u128
    ensures { result ≡ orders_so outcomes.now at }
{
    let mut orders = 0u128;
    for other in 0..outcomes.len() {
        orders = orders.saturating_add(orders_with(outcomes, at, other));
    }
    orders
}

// Whether one with the ending of this outcome ends with a crash.
fn crashes_so(outcomes: &[Outcome], at: usize) -> bool
    ensures { result ≡ crashes_so outcomes.now at }
{
    let mut any = false;
    for other in 0..outcomes.len() {
        any |= ends_as(outcomes, at, other) && crashed_at(outcomes, other);
    }
    any
}

// Whether one with the ending of this outcome ends without a crash.
fn runs_so(outcomes: &[Outcome], at: usize) -> bool
    ensures { result ≡ runs_so outcomes.now at }
{
    let mut any = false;
    for other in 0..outcomes.len() {
        any |= ends_as(outcomes, at, other) && !crashed_at(outcomes, other);
    }
    any
}

// What is said of crashes.
fn crashes_text(crashes: bool, runs: bool) -> &'static str
    ensures { result.now ≡ crashes_text crashes runs }
{
    match (crashes, runs) {
        (true, true) => ", with a crash or without one\n",
        (true, false) => ", with a crash alone\n",
        (false, _) => ", without a crash\n",
    }
}

// The number of an outcome, where it is listed.
fn number_text(alloc: Global, listed: bool, at: usize) -> Result<Vec<u8>, AllocError>
    ensures { IfOk result (λ text. text.items ≡ number_text listed at) }
{
    if !listed {
        return Ok(Vec::new(alloc));
    }
    let number = at as u128 + 1;
    Ok(format!(in alloc; " {number}")?.into_bytes())
}

// The line with the numbers of the outcomes that have the ending of this one.
fn numbers_text(alloc: Global, outcomes: &[Outcome], at: usize) -> Result<Vec<u8>, AllocError>
    ensures { IfOk result (λ text. text.items ≡ numbers_text outcomes.now at) }
{
    let mut text = Vec::from_slice(alloc, b"outcomes")?;
    for other in 0..outcomes.len() {
        let number = number_text(alloc, ends_as(outcomes, at, other), other)?;
        text.extend_from_slice(&number)?;
    }
    text.push(b'\n')?;
    Ok(text)
}

// Whether something is wrong with one of the outcomes.
fn is_any_wrong(outcomes: &[Outcome]) -> bool
    ensures { result ≡ any_below (λ at. wrong_by (slice_get outcomes.now at)) (length outcomes.now) }
{
    let mut any = false;
    for at in 0..outcomes.len() {
        any |= wrong_at(outcomes, at);
    }
    any
}

// The line with the numbers of the outcomes with which something is wrong, if there are any.
fn wrong_text(alloc: Global, outcomes: &[Outcome]) -> Result<Vec<u8>, AllocError>
    ensures { IfOk result (λ text. text.items ≡ wrong_text outcomes.now) }
{
    if !is_any_wrong(outcomes) {
        return Ok(Vec::new(alloc));
    }
    let mut text = Vec::from_slice(alloc, b"wrong outcomes")?;
    for at in 0..outcomes.len() {
        let number = number_text(alloc, wrong_at(outcomes, at), at)?;
        text.extend_from_slice(&number)?;
    }
    text.push(b'\n')?;
    Ok(text)
}

// The line at the head of an ending, after an empty one.
fn heading(alloc: Global, number: u128, orders: u128) -> Result<Vec<u8>, AllocError>
    ensures { IfOk result (λ text. text.items ≡ heading_text number orders) }
{
    Ok(format!(in alloc; "\nending {number}: orders {orders}")?.into_bytes())
}

// The block of the ending with this number, which the outcome at this place has.
fn block_text(
    alloc: Global,
    outcomes: &[Outcome],
    number: u128,
    at: usize,
) -> Result<Vec<u8>, AllocError>
    ensures { IfOk result (λ text. text.items ≡ block_text outcomes.now number at) }
{
    let mut text = heading(alloc, number, orders_so(outcomes, at))?;
    let crashes = crashes_text(crashes_so(outcomes, at), runs_so(outcomes, at));
    let numbers = numbers_text(alloc, outcomes, at)?;
    text.extend_from_slice(crashes.as_bytes())?;
    text.extend_from_slice(&numbers)?;
    text.extend_from_slice(tail_at(outcomes, at))?;
    Ok(text)
}

// How many of the first outcomes have an ending that none before has.
fn endings(outcomes: &[Outcome], most: usize) -> u128
    ensures count { result ≡ count_below (is_first outcomes.now) most }
    ensures low { result ≤ most }
{
    let mut count = 0u128;
    for at in 0..most {
        if is_first(outcomes, at) {
            count += 1;
        }
    }
    count
}

// The number of the ending that the outcome at this place is the first to have.
fn number_of(outcomes: &[Outcome], at: usize) -> u128
    ensures { result ≡ count_below (is_first outcomes.now) at + 1 }
{
    endings(outcomes, at).saturating_add(1)
}

// The block of the ending that the outcome at this place is the first to have; nothing, where it is not.
fn first_block(alloc: Global, outcomes: &[Outcome], at: usize) -> Result<Vec<u8>, AllocError>
    ensures { IfOk result (λ text. text.items ≡ first_text outcomes.now at) }
{
    if is_first(outcomes, at) {
        block_text(alloc, outcomes, number_of(outcomes, at), at)
    } else {
        Ok(Vec::new(alloc))
    }
}

// The blocks of all endings.
fn blocks_text(alloc: Global, outcomes: &[Outcome]) -> Result<Vec<u8>, AllocError>
    ensures { IfOk result (λ text. text.items ≡ blocks_text outcomes.now) }
{
    let mut text = Vec::new(alloc);
    for at in 0..outcomes.len() {
        let block = first_block(alloc, outcomes, at)?;
        text.extend_from_slice(&block)?;
    }
    Ok(text)
}

// What is said of an order that comes to a state again.
fn circle_text(endless: bool) -> &'static str
    ensures { result.now ≡ circle_text endless }
{
    if endless {
        "wrong: an order comes to a state again\n"
    } else {
        ""
    }
}

// What is said of faults.
fn faults_text(alloc: Global, exploration: &Exploration) -> Result<Vec<u8>, AllocError>
    ensures { IfOk result (λ text. text.items ≡ faults_text exploration.now) }
{
    if !exploration.is_wrong() {
        return Vec::from_slice(alloc, b"nothing is wrong\n");
    }
    let wrong = wrong_text(alloc, &exploration.outcomes)?;
    let mut text = Vec::from_slice(alloc, circle_text(exploration.is_endless).as_bytes())?;
    text.extend_from_slice(&wrong)?;
    Ok(text)
}

// The lines of figures at the head.
fn figures(alloc: Global, exploration: &Exploration) -> Result<Vec<u8>, AllocError>
    ensures { IfOk result (λ text. text.items ≡ figures_text exploration.now) }
{
    let states = exploration.states;
    let orders = exploration.orders();
    let outcomes = exploration.outcomes.len();
    let endings = endings(&exploration.outcomes, outcomes);
    Ok(format!(in alloc;
        "states {states}\norders {orders}\noutcomes {outcomes}\nendings {endings}\n"
    )?.into_bytes())
}

/// An exploration at a glance: how many states, orders, outcomes and endings there are, with which outcomes something is
/// wrong, and each ending: how many orders have it, whether with a crash, the numbers of its outcomes, and what is
/// reported. Orders that end alike are reported the same after them. An error means that an allocation failed.
pub fn summary(alloc: Global, exploration: &Exploration) -> Result<Vec<u8>, AllocError>
    ensures { IfOk result (λ text. text.items ≡ summary_text exploration.now) }
{
    let faults = faults_text(alloc, exploration)?;
    let blocks = blocks_text(alloc, &exploration.outcomes)?;
    let mut text = figures(alloc, exploration)?;
    text.extend_from_slice(&faults)?;
    text.extend_from_slice(&blocks)?;
    Ok(text)
}
