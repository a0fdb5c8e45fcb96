//! The text of an exploration.

ghost use Rattle.std.specs.Prelude.{◌≡◌, ◌++◌, IfOk};
ghost use Rattle.ds_explore.specs.Explored.{any_wrong, at_most_orders, endless_text, exploration_text, figures_text, heading_text, is_wrong, orders_to, outcome_text, outcomes_text, wrong_in};

use crate::exploration::{Exploration, Outcome};
use crate::flaw::wrong_lines;
use std::alloc::{AllocError, Global};

// The line at the head of an outcome.
fn heading(alloc: Global, number: u128, orders: u128) -> Result<Vec<u8>, AllocError>
    ensures { IfOk result (λ text. text.items ≡ heading_text number orders) }
{
    Ok(format!(in alloc; "outcome {number}: orders {orders}\n")?.into_bytes())
}

// The lines at the head.
fn figures(alloc: Global, states: usize, orders: u128, endless: bool) -> Result<Vec<u8>, AllocError>
    ensures { IfOk result (λ text. text.items ≡ figures_text states orders ++ endless_text endless) }
{
    let mut text = format!(in alloc; "states {states}\norders {orders}\n")?.into_bytes();
    text.extend_from_slice(endless_line(endless).as_bytes())?;
    Ok(text)
}

// What is said of all orders.
fn endless_line(endless: bool) -> &'static str
    ensures { result.now ≡ endless_text endless }
{
    if endless {
        "wrong: an order comes to a state again\n\n"
    } else {
        "\n"
    }
}

impl Outcome {
    /// Its text, where it has this number: how many orders lead to it, what is wrong with it where something is, and the
    /// script with its answers. An error means that an allocation failed.
    pub fn text(&self, alloc: Global, number: u128) -> Result<Vec<u8>, AllocError>
        ensures { IfOk result (λ text. text.items ≡ outcome_text number self.now) }
    {
        let wrong = wrong_lines(alloc, &self.flaws)?;
        let mut text = heading(alloc, number, self.orders)?;
        text.extend_from_slice(&wrong)?;
        text.extend_from_slice(&self.script)?;
        text.extend_from_slice(b"answers\n")?;
        text.extend_from_slice(&self.answers)?;
        text.push(b'\n')?;
        Ok(text)
    }
}

// The texts of outcomes, whose numbers begin with 1.
fn outcomes(alloc: Global, outcomes: &[Outcome]) -> Result<Vec<u8>, AllocError>
    ensures { IfOk result (λ text. text.items ≡ outcomes_text 0 outcomes.now) }
{
    let mut text = Vec::new(alloc);
    for at in 0..outcomes.len() {
        let more = outcomes[at].text(alloc, at as u128 + 1)?;
        text.extend_from_slice(&more)?;
    }
    Ok(text)
}

// How many orders lead to these outcomes, at most 2^128 - 1.
pub(crate) fn orders_of(outcomes: &[Outcome]) -> u128
    ensures { result ≡ at_most_orders (orders_to outcomes.now) }
{
    let mut orders = 0u128;
    for at in 0..outcomes.len() {
        orders = orders.saturating_add(outcomes[at].orders);
    }
    orders
}

// Whether something is wrong with one of these outcomes.
fn is_any_wrong(outcomes: &[Outcome]) -> bool
    ensures { result ≡ any_wrong outcomes.now }
{
    let mut wrong = false;
    for at in 0..outcomes.len() {
        wrong |= outcomes[at].is_wrong();
    }
    wrong
}

impl Outcome {
    /// Whether something is wrong with it.
    pub fn is_wrong(&self) -> bool
        ensures { result ≡ is_wrong self.now.flaws.items }
    {
        !self.flaws.is_empty()
    }
}

impl Exploration {
    /// How many orders there are, at most 2^128 - 1.
    pub fn orders(&self) -> u128
        ensures { result ≡ at_most_orders (orders_to self.now.outcomes.items) }
    {
        orders_of(&self.outcomes)
    }

    /// Whether something is wrong: an order comes to a state again, or something is wrong with an outcome.
    pub fn is_wrong(&self) -> bool
        ensures { result ≡ wrong_in self.now }
    {
        self.is_endless | is_any_wrong(&self.outcomes)
    }

    /// Its text: how many states and orders there are, and then each outcome. An error means that an allocation failed.
    pub fn text(&self, alloc: Global) -> Result<Vec<u8>, AllocError>
        ensures { IfOk result (λ text. text.items ≡ exploration_text self.now) }
    {
        let mut text = figures(alloc, self.states, self.orders(), self.is_endless)?;
        let outcomes = outcomes(alloc, &self.outcomes)?;
        text.extend_from_slice(&outcomes)?;
        Ok(text)
    }
}
