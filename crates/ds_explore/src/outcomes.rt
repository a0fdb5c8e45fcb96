//! What orders come to.

ghost use Rattle.std.specs.Prelude.{◌≡◌, ◌++◌, ◌↔◌, All, IfOk, IsTrue};
ghost use Rattle.ds_explore.specs.Explored.{crash_text, joined, key_text};
ghost use Rattle.ds_explore.specs.Judging.{Answers, IsPart, texts_of};

use crate::flaw::{Flaw, wrong_lines};
use std::alloc::{AllocError, Global};
use std::collections::HashMap;

/// What an order of steps came to.
#[derive(Drop)]
pub(crate) struct Finding {
    /// What each call was answered.
    pub(crate) answers: Vec<Vec<u8>>,
    /// What is reported after the order.
    pub(crate) tail: Vec<u8>,
    /// What is wrong with it.
    pub(crate) flaws: Vec<Flaw>,
    /// Whether the order ends with a crash.
    pub(crate) crashed: bool,
}

// Whether the text has this part.
fn contains(text: &[u8], part: &[u8]) -> bool
    ensures { IsTrue result ↔ IsPart text.now part.now }
{
    for at in 0..text.len() {
        if text[at..].starts_with(part) {
            return true;
        }
    }
    text.starts_with(part)
}

// Whether the text has each of these parts.
fn contains_all(text: &[u8], parts: &[Vec<u8>]) -> bool
    ensures { IsTrue result ↔ All (IsPart text.now) (texts_of parts.now) }
{
    match parts {
        [] => true,
        [first, rest @ ..] => contains(text, first) && contains_all(text, rest),
    }
}

// Texts, one after the other.
fn joined(alloc: Global, texts: &[Vec<u8>]) -> Result<Vec<u8>, AllocError>
    ensures { IfOk result (λ text. text.items ≡ joined (texts_of texts.now)) }
{
    let mut text = Vec::new(alloc);
    for more in texts {
        text.extend_from_slice(more)?;
    }
    Ok(text)
}

// What is said of a crash.
fn crash_text(crashed: bool) -> &'static str
    ensures { result.now ≡ crash_text crashed }
{
    if crashed { "crashed\n" } else { "" }
}

impl Finding {
    /// Whether a script that has these answers came to this: its calls are answered so, and after the order this is
    /// reported, and nothing else.
    pub(crate) fn is_in(&self, answers: &[u8]) -> bool
        ensures { IsTrue result ↔ Answers answers.now (texts_of self.now.answers.items) self.now.tail.items }
    {
        contains_all(answers, &self.answers) && answers.ends_with(&self.tail)
    }

    /// What distinguishes it from all others. An error means that an allocation failed.
    pub(crate) fn key(&self, alloc: Global) -> Result<Vec<u8>, AllocError>
        ensures { IfOk result (λ key. key.items ≡ key_text self.now) }
    {
        let wrong = wrong_lines(alloc, &self.flaws)?;
        let mut key = joined(alloc, &self.answers)?;
        key.extend_from_slice(crash_text(self.crashed).as_bytes())?;
        key.extend_from_slice(&self.tail)?;
        key.extend_from_slice(&wrong)?;
        Ok(key)
    }
}

/// What orders came to, each once; there is at least one.
#[derive(Drop)]
pub(crate) struct Findings {
    /// The first one.
    pub(crate) first: Finding,
    /// The others, in the order in which they were found.
    pub(crate) rest: Vec<Finding>,
    numbers: HashMap<Vec<u8>, usize>,
}

impl Findings {
    /// This one was found.
    pub(crate) fn new(alloc: Global, first: Finding) -> Result<Findings, AllocError> {
        let mut numbers = HashMap::new(alloc);
        numbers.insert(first.key(alloc)?, 0)?;
        Ok(Findings {
            first,
            rest: Vec::new(alloc),
            numbers,
        })
    }

    /// How many there are.
    pub(crate) fn len(&self) -> usize {
        self.rest.len().saturating_add(1)
    }

    /// The number of an outcome, from 0. It is kept, where it was not found before.
    pub(crate) fn number(&mut self, alloc: Global, outcome: Finding) -> Result<usize, AllocError> {
        let key = outcome.key(alloc)?;
        if let Some(number) = self.numbers.get(key.as_slice()) {
            return Ok(*number);
        }
        let number = self.len();
        self.rest.push(outcome)?;
        self.numbers.insert(key, number)?;
        Ok(number)
    }
}
