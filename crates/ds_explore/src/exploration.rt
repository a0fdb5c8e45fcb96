//! What orders come to, as a whole.

ghost use Rattle.std.specs.Prelude.{◌≡◌, ◌<◌, ◌≤◌, ◌+◌, All, true, false, IfErr, IfOk, IsTrue, OnOk, ℕ, length, slice_index_or};
ghost use Rattle.ds_explore.specs.Explored.{AreFlaws, AreOutcomes, IsOutcome};
ghost use Rattle.ds_explore.specs.Judging.{texts_of};
ghost use Rattle.ds_explore.specs.Starts.{ComesAgain, IsStart};
ghost use Rattle.ds_paths.specs.Paths.{AreApart};
ghost use Rattle.ds_explore.specs.Whole.{AreOrders, GoesThrough, IsCut, IsExploration, LacksExploration, lacks_by};
ghost use Rattle.ds_explore.specs.declared.exploration.Outcome.{Outcome};

use crate::answers::{answers_to, continued};
use crate::flaw::Flaw;
use crate::graph::{Node, Way, path};
use crate::met::Meeting;
use crate::options::{Options, Watcher};
use crate::orders::{Orders, count_orders};
use crate::outcomes::Finding;
use crate::script::lines_of;
use crate::search::{Search, Start, go_through};
use ds_explore_state::choices::Choice;
use ds_paths::count::are_counts;
use ds_paths::graph::Edge;
use ds_script_io::ending::ScriptFault;
use ds_script_io::line::INPUT_LIMIT;
use ds_script_stops::reach::Short;
use std::alloc::{AllocError, AllocFailed, Global};

/// What orders come to, each of them to the same.
#[derive(Debug, Drop)]
pub struct Outcome {
    /// How many orders lead to it, at most 2^128 - 1.
    pub orders: u128,
    /// Whether they end with a crash.
    pub crashed: bool,
    /// What is wrong with it.
    pub flaws: Vec<Flaw>,
    /// The script that was given, and after it a shortest of these orders.
    pub script: Vec<u8>,
    /// What `run_script` writes for that.
    pub answers: Vec<u8>,
    /// Of that what comes after the order: each process recovers, process 0 settles, and reports.
    pub tail: Vec<u8>,
}

/// What the orders of a script's calls come to.
#[derive(Debug, Drop)]
pub struct Exploration {
    /// How many states were found.
    pub states: usize,
    /// Whether an order comes to a state again, which is wrong.
    pub is_endless: bool,
    /// Whether there are more states than may be gone through.
    pub is_cut: bool,
    /// The outcomes, no two the same, at least one: the first is that of the calls one after another.
    pub outcomes: Vec<Outcome>,
}

/// Why there is no exploration.
#[derive(Clone, Copy, Debug, PartialEq, Eq)]
pub enum Unexplored {
    /// This line of the script, counted from 1, has a fault.
    Fault { line: usize, kind: ScriptFault },
    /// The script is longer than 1,048,576 bytes.
    TooLong,
    /// The script of an outcome would be longer than that.
    FoundTooLong,
    /// An allocation failed, two outcomes are the same, or the states, the outcomes or the orders that were found are not all.
    NoMemory,
}

// Why what was found is not put together.
enum Lack {
    // The script of an outcome would be too long.
    TooLong,
    // An allocation failed, two outcomes are the same, or the states, the outcomes or the orders that were found are not all.
    NoMemory,
}

impl From<AllocError> for Lack {
    fn from(_error: AllocError) -> Lack {
        Lack::NoMemory
    }
}

impl<T: Drop> From<AllocFailed<T>> for Lack {
    fn from(_failed: AllocFailed<T>) -> Lack {
        Lack::NoMemory
    }
}

// All that was found, before it is written.
#[derive(Drop)]
struct Found {
    search: Search,
    // What happens where the calls are carried out one after another, which leads to the first outcome.
    straight: Vec<u32>,
    orders: Vec<Orders>,
    ways: Vec<Way>,
}

// An outcome, and what distinguishes it from the others.
#[derive(Drop)]
struct Keyed {
    key: Vec<u8>,
    outcome: Outcome,
}

// Outcomes, and their keys.
#[derive(Drop)]
struct AllKeyed {
    keys: Vec<Vec<u8>>,
    outcomes: Vec<Outcome>,
}

impl Found {
    // The orders of the outcome with this number, from 0.
    fn orders_of(&self, number: usize) -> Orders {
        match self.orders.get(number) {
            Some(orders) => *orders,
            None => Orders::NONE,
        }
    }

    // What happens in a shortest order that leads to the outcome with this number, from 0. To the first one an order is
    // known from the start on.
    fn path(&self, alloc: Global, number: usize) -> Result<Vec<u32>, AllocError> {
        let orders = self.orders_of(number);
        if number == 0 && self.straight.len() as u64 <= orders.length {
            return self.straight.clone();
        }
        path(alloc, &self.ways, orders.state)
    }
}

// Goes through all orders from this start on, and counts them.
fn find<T: Watcher>(alloc: Global, start: &Start, watcher: &mut T) -> Result<Found, AllocError> {
    let (first, straight) = start.straight(alloc)?;
    let search = go_through(alloc, start, first, watcher)?;
    let (orders, ways) = count_orders(
        alloc,
        search.states(),
        search.outcomes.len(),
        &search.nodes,
    )?;
    Ok(Found {
        search,
        straight,
        orders,
        ways,
    })
}

// What is wrong with an outcome whose script has these answers.
fn all_flaws(outcome: &Finding, answers: &[u8]) -> Result<Vec<Flaw>, AllocError>
    ensures { IfOk result (λ flaws. AreFlaws outcome.now answers.now flaws.items) }
{
    let mut flaws = outcome.flaws.clone()?;
    if outcome.is_in(answers) {
        return Ok(flaws);
    }
    flaws.push(Flaw::AnsweredOtherwise)?;
    Ok(flaws)
}

// What a shortest order to the outcome with this number, from 0, comes to, which is carried out again.
fn outcome_at(
    alloc: Global,
    script: &[u8],
    start: &Start,
    found: &Found,
    crashed: bool,
    at: usize,
) -> Result<Keyed, Lack>
    ensures { IfOk result (λ made. IsOutcome script.now start.now made.key.items made.outcome) }
{
    let orders = found.orders_of(at).count;
    let path = found.path(alloc, at)?;
    let lines = lines_of(alloc, start, &path, crashed)?;
    let longer = continued(alloc, script, start.shape(), &lines)?;
    if longer.len() > INPUT_LIMIT {
        return Err(Lack::TooLong);
    }
    let again = start.again(alloc, &path, crashed)?;
    let found_so = again.found;
    let key = found_so.key(alloc)?;
    let answers = answers_to(alloc, &longer)?;
    let flaws = all_flaws(&found_so, &answers)?;
    let outcome = Outcome {
        orders,
        crashed,
        flaws,
        script: longer,
        answers,
        tail: found_so.tail,
    };
    Ok(Keyed { key, outcome })
}

// Whether an outcome is none of those before, by what distinguishes them.
fn is_new(keys: &[Vec<u8>], key: &[u8]) -> bool
    ensures { IsTrue result → All (λ other. other ≡ key.now → ⊥) (texts_of keys.now) }
{
    for other in keys {
        if other.as_slice() == key {
            return false;
        }
    }
    true
}

// All outcomes.
fn all_outcomes(
    alloc: Global,
    script: &[u8],
    start: &Start,
    found: &Found,
) -> Result<AllKeyed, Lack>
    ensures { IfOk result (λ made. AreOutcomes script.now start.now (texts_of made.keys.items) made.outcomes.items) }
{
    let found_so = &found.search.outcomes;
    let first = outcome_at(alloc, script, start, found, found_so.first.crashed, 0)?;
    let mut keys = vec![in alloc; first.key]?;
    let mut outcomes = vec![in alloc; first.outcome]?;
    for i in 0..found_so.rest.len() {
        let made = outcome_at(alloc, script, start, found, found_so.rest[i].crashed, i + 1)?;
        if !is_new(&keys, &made.key) {
            return Err(Lack::NoMemory);
        }
        keys.push(made.key)?;
        outcomes.push(made.outcome)?;
    }
    Ok(AllKeyed { keys, outcomes })
}

// How many orders come to each state, by the ways to it.
fn state_counts(alloc: Global, ways: &[Way]) -> Result<Vec<u128>, AllocError>
    ensures { IfOk result (λ counts. length counts.items ≡ length ways.now) }
{
    let mut counts = Vec::new(alloc);
    for number in 0..ways.len() {
        counts.push(ways[number].orders)?;
    }
    Ok(counts)
}

// How many orders come to each outcome is added.
fn add_outcomes(counts: &mut Vec<u128>, outcomes: &[Outcome]) -> Result<(), AllocError>
    ensures long { OnOk result (length counts.new.items ≡ length counts.old.items + length outcomes.now) }
    ensures orders { OnOk result ((n : ℕ) (d : Outcome) → n < length outcomes.now → slice_index_or counts.new.items (length counts.old.items + n) 0 ≡ (slice_index_or outcomes.now n d).orders) }
{
    for number in 0..outcomes.len() {
        counts.push(outcomes[number].orders)?;
    }
    Ok(())
}

// A state that is left later has a lower rank, and an outcome one above all states. These are a guess: what is counted by
// them is compared.
fn ranks(
    alloc: Global,
    states: usize,
    outcomes: usize,
    nodes: &[Node],
) -> Result<Vec<u32>, AllocError> {
    let mut ranks = vec![in alloc; u32::MAX; states.saturating_add(outcomes)]?;
    let mut rank = 0u32;
    for node in nodes.iter().rev() {
        if let Some(at) = ranks.get_mut(node.state as usize) {
            *at = rank;
        }
        rank = rank.saturating_add(1);
    }
    Ok(ranks)
}

// Whether the orders of each outcome are the paths to its vertex.
fn are_orders(
    alloc: Global,
    edges: &[Edge<Choice>],
    found: &Found,
    states: usize,
    outcomes: &[Outcome],
) -> Result<bool, AllocError>
    requires { AreApart edges.now }
    ensures { IfOk result (λ b. IsTrue b → AreOrders edges.now states outcomes.now) }
{
    if found.ways.len() != states {
        return Ok(false);
    }
    let ranks = ranks(alloc, states, outcomes.len(), &found.search.nodes)?;
    let mut counts = state_counts(alloc, &found.ways)?;
    add_outcomes(&mut counts, outcomes)?;
    are_counts(alloc, edges, &ranks, &counts)
}

// Whether an order was seen to come to a state again. An error means that an allocation failed, or that it does not when it is
// carried out again.
fn endless(alloc: Global, start: &Start, search: &Search) -> Result<bool, AllocError>
    ensures { IfOk result (λ endless. IsTrue endless → ComesAgain start.now) }
{
    let Some(circle) = &search.again else {
        return Ok(false);
    };
    if start.comes_again(alloc, &search.found, circle)? {
        Ok(true)
    } else {
        Err(AllocError)
    }
}

// What was found, where the search was cut, of outcomes with these keys. An error means that an allocation failed, that it was cut
// before as many states were found as may be gone through, that an outcome of them is not there, or that more states were not
// gone through than those on the way on which it was cut.
fn cut(
    alloc: Global,
    start: &Start,
    found: &Found,
    keys: &[Vec<u8>],
    is_endless: bool,
    outcomes: Vec<Outcome>,
) -> Result<Exploration, AllocError>
    ensures cut { IfOk result (λ exploration. (exploration.is_cut ≡ true) × (start.now.options.most ≤ exploration.states)) }
    ensures found { IfOk result (IsCut start.now (texts_of keys.now)) }
    ensures endless { IfOk result (λ exploration. exploration.is_endless ≡ is_endless) }
    ensures outcomes { IfOk result (λ exploration. exploration.outcomes ≡ outcomes) }
{
    let states = found.search.states();
    if states < start.options.most {
        return Err(AllocError);
    }
    let meeting = Meeting {
        start,
        states: &found.search.found,
        nodes: &found.search.nodes,
        keys,
    };
    let met = meeting.are_met(alloc)?;
    let gone = meeting.are_gone_through(alloc, &found.search.way)?;
    if !met || !gone {
        return Err(AllocError);
    }
    Ok(Exploration {
        states,
        is_endless,
        is_cut: true,
        outcomes,
    })
}

// What was found, where the search was not cut, of outcomes with these keys. An error means that an allocation failed, or that
// the states that were found are not all, or the outcomes or the orders are not.
fn gone_through(
    alloc: Global,
    start: &Start,
    found: &Found,
    keys: &[Vec<u8>],
    is_endless: bool,
    outcomes: Vec<Outcome>,
) -> Result<Exploration, AllocError>
    ensures through { IfOk result (λ exploration. (exploration.is_cut ≡ false) × GoesThrough start.now (texts_of keys.now) exploration) }
    ensures endless { IfOk result (λ exploration. exploration.is_endless ≡ is_endless) }
    ensures outcomes { IfOk result (λ exploration. exploration.outcomes ≡ outcomes) }
{
    let Some(edges) = found.search.graph(alloc, start, keys)? else {
        return Err(AllocError);
    };
    let states = found.search.states();
    let counted = are_orders(alloc, &edges, found, states, &outcomes)?;
    if !is_endless && !counted {
        return Err(AllocError);
    }
    Ok(Exploration {
        states,
        is_endless,
        is_cut: false,
        outcomes,
    })
}

// What was found, as a whole.
fn whole(alloc: Global, script: &[u8], start: &Start, found: &Found) -> Result<Exploration, Lack>
    ensures { (options : Options) → IsStart script.now options start.now → IfOk result (IsExploration script.now options) }
{
    let all = all_outcomes(alloc, script, start, found)?;
    let AllKeyed { keys, outcomes } = all;
    let is_endless = endless(alloc, start, &found.search)?;
    if found.search.is_cut {
        return Ok(cut(alloc, start, found, &keys, is_endless, outcomes)?);
    }
    Ok(gone_through(alloc, start, found, &keys, is_endless, outcomes)?)
}

// Why there is no exploration of a script that does not end.
fn lacking(short: Short) -> Unexplored
    ensures { result ≡ lacks_by short }
{
    match short {
        Short::Fault { line, kind } => Unexplored::Fault { line, kind },
        Short::Ended | Short::NoMemory => Unexplored::NoMemory,
    }
}

// All orders from this start on.
fn explored_from<T: Watcher>(
    alloc: Global,
    script: &[u8],
    start: &Start,
    watcher: &mut T,
) -> Result<Exploration, Lack>
    ensures { (options : Options) → IsStart script.now options start.now → IfOk result (IsExploration script.now options) }
{
    let found = find(alloc, start, watcher)?;
    whole(alloc, script, start, &found)
}

/// Runs a script, and from where it ends on carries out the steps of the calls under way in all orders, with what the
/// options ask for between them. An order ends where no call is under way, or with a crash. After each end every
/// process recovers, in their order, process 0 settles, and reports.
///
/// States that were met before are not gone through again: a state is its words, the situations and buffers of its
/// processes, and what their calls were answered. The watcher is shown how many states there are, at each event that is
/// tried. Where the exploration is not cut, it was checked that nothing that may happen leads out of the states that were
/// found, that what each order comes to is among the outcomes, and, where no order comes to a state again, that each
/// outcome has as many orders as come to it; where it is cut, the outcomes that were found until then are there, with as
/// many orders as were found: the first one also where that is none. Then each state was gone through, but for those on the
/// way on which it was cut. An order that comes to a state again was carried out
/// again.
pub fn explored<T: Watcher>(
    alloc: Global,
    script: &[u8],
    options: Options,
    watcher: &mut T,
) -> Result<Exploration, Unexplored>
    ensures explored { IfOk result (IsExploration script.now options) }
    ensures lacks { IfErr result (LacksExploration script.now) }
{
    if script.len() > INPUT_LIMIT {
        return Err(Unexplored::TooLong);
    }
    let start = match Start::new(alloc, script, options) {
        Ok(start) => start,
        Err(short) => return Err(lacking(short)),
    };
    match explored_from(alloc, script, &start, watcher) {
        Ok(exploration) => Ok(exploration),
        Err(Lack::TooLong) => Err(Unexplored::FoundTooLong),
        Err(Lack::NoMemory) => Err(Unexplored::NoMemory),
    }
}
