//! What distinguishes states: their words, situations, buffers and answers, in full.

ghost use Rattle.std.specs.Prelude.{◌≡◌, ◌<◌, Some, IfOk, IfSome, OnOk, length, map, slice_get};
ghost use Rattle.ds_explore_state.specs.States.{IsKey, KeepsNumbers, crashed_state_of, groups_of, lost_in, lost_process_in, parts_below, plain_part, plain_parts, process_in, state_of, word_in, words_by};

use crate::part::Part;
use crate::position::{Position, ProcessState};
use crate::touched::Touched;
use ds_layout::place::Place;
use ds_state::situation::Situation;
use ds_state::world::World;
use ds_words::words::Word;
use std::alloc::{AllocError, Global};
use std::collections::HashMap;
use std::marker::Model;

/// Numbers for parts of states: two parts have one number only where they are the same in all.
#[derive(Drop)]
pub struct Numbers {
    // The parts, by their numbers.
    parts: Vec<Part>,
    // Numbers by the texts of parts.
    numbers: HashMap<Vec<u8>, u32>,
}

impl Model for Numbers {
    ghost use Rattle.std.specs.Prelude.{List};
    ghost use Rattle.std.specs.Coded.{codes};
    ghost use Rattle.ds_eval.specs.Code.{plain_code};
    ghost use Rattle.ds_explore_state.specs.States.{PlainPart, plain_parts};

    ghost Value = { List PlainPart };

    ghost coded = { Prim.hlevel (codes, plain_code) };

    ghost view = { λ n. plain_parts n.parts.items };
}

/// Both sides of a word of the sheet; zeros where it has none of this place.
pub fn word_at(world: &World, place: Place) -> Word
    ensures { result ≡ word_in world.now place }
{
    if world.words.layout().contains(place) {
        world.words.word(place)
    } else {
        Word {
            cached: 0,
            persisted: 0,
        }
    }
}

// What a crash leaves of a word of the sheet.
fn lost_at(world: &World, place: Place) -> Word
    ensures { result ≡ lost_in world.now place }
{
    let persisted = word_at(world, place).persisted;
    Word {
        cached: persisted,
        persisted,
    }
}

// The words at these places.
fn words_at(alloc: Global, world: &World, places: &[Place]) -> Result<Vec<Word>, AllocError>
    ensures { IfOk result (λ words. words.items ≡ map (word_in world.now) places.now) }
{
    let mut words = Vec::with_capacity(alloc, places.len())?;
    for place in places {
        words.push(word_at(world, *place))?;
    }
    Ok(words)
}

// What a crash leaves of the words at these places.
fn lost_words(alloc: Global, world: &World, places: &[Place]) -> Result<Vec<Word>, AllocError>
    ensures { IfOk result (λ words. words.items ≡ map (lost_in world.now) places.now) }
{
    let mut words = Vec::with_capacity(alloc, places.len())?;
    for place in places {
        words.push(lost_at(world, *place))?;
    }
    Ok(words)
}

// The words of each group.
fn words_of(alloc: Global, world: &World, touched: &Touched) -> Result<Vec<Part>, AllocError>
    ensures { IfOk result (λ parts. plain_parts parts.items ≡ words_by (word_in world.now) (groups_of touched.now)) }
{
    let mut parts = Vec::new(alloc);
    for group in &touched.groups {
        parts.push(Part::Words(words_at(alloc, world, group)?))?;
    }
    Ok(parts)
}

// What a crash leaves of the words of each group.
fn lost_words_of(alloc: Global, world: &World, touched: &Touched) -> Result<Vec<Part>, AllocError>
    ensures { IfOk result (λ parts. plain_parts parts.items ≡ words_by (lost_in world.now) (groups_of touched.now)) }
{
    let mut parts = Vec::new(alloc);
    for group in &touched.groups {
        parts.push(Part::Words(lost_words(alloc, world, group)?))?;
    }
    Ok(parts)
}

// What a process does.
fn situation_at(
    alloc: Global,
    world: &World,
    process: usize,
) -> Result<Option<Situation>, AllocError>
    ensures { IfOk result (λ situation. situation ≡ slice_get world.now.situations process) }
{
    match world.situations.get(process) {
        Some(situation) => Ok(Some(situation.copy(alloc)?)),
        None => Ok(None),
    }
}

// A process of a position.
fn process_at(alloc: Global, position: &Position, process: usize) -> Result<Part, AllocError>
    requires { process < length position.now.seats.items }
    ensures { IfOk result (λ part. plain_part part ≡ process_in position.now process) }
{
    let seat = position.seats[process].copy(alloc)?;
    let situation = situation_at(alloc, &position.world, process)?;
    Ok(Part::Process { situation, seat })
}

// What a crash leaves of a process of a position.
fn lost_process_at(alloc: Global, position: &Position, process: usize) -> Result<Part, AllocError>
    requires { process < length position.now.seats.items }
    ensures { IfOk result (λ part. plain_part part ≡ lost_process_in position.now process) }
{
    let seat = position.seats[process].lost(alloc)?;
    let situation = Some(Situation::Stopped);
    Ok(Part::Process { situation, seat })
}

// The state of a position.
fn parts_of(alloc: Global, position: &Position, touched: &Touched) -> Result<Vec<Part>, AllocError>
    ensures { IfOk result (λ parts. plain_parts parts.items ≡ state_of (groups_of touched.now) position.now) }
{
    let mut parts = words_of(alloc, &position.world, touched)?;
    for process in 0..position.seats.len() {
        parts.push(process_at(alloc, position, process)?)?;
    }
    Ok(parts)
}

// The state that a crash leaves of a position.
fn lost_parts_of(
    alloc: Global,
    position: &Position,
    touched: &Touched,
) -> Result<Vec<Part>, AllocError>
    ensures { IfOk result (λ parts. plain_parts parts.items ≡ crashed_state_of (groups_of touched.now) position.now) }
{
    let mut parts = lost_words_of(alloc, &position.world, touched)?;
    for process in 0..position.seats.len() {
        parts.push(lost_process_at(alloc, position, process)?)?;
    }
    Ok(parts)
}

impl Numbers {
    /// No part has a number yet.
    pub fn new(alloc: Global) -> Numbers {
        Numbers {
            parts: Vec::new(alloc),
            numbers: HashMap::new(alloc),
        }
    }

    // The number of a part with this text, where it is known to have one.
    fn known(&self, text: &[u8], part: &Part) -> Option<u32>
        ensures { IfSome result (λ number. slice_get self.now number ≡ Some (plain_part part.now)) }
    {
        let number = match self.numbers.get(text) {
            Some(number) => *number,
            None => return None,
        };
        match self.parts.get(number as usize) {
            Some(found) if found.is_same(part) => Some(number),
            _ => None,
        }
    }

    // The number of a part.
    fn number(&mut self, alloc: Global, part: &Part) -> Result<u32, AllocError>
        ensures there { IfOk result (λ number. slice_get self.new number ≡ Some (plain_part part.now)) }
        ensures keeps { OnOk result (KeepsNumbers self.old self.new) }
    {
        let text = part.text(alloc)?;
        if let Some(number) = self.known(&text, part) {
            return Ok(number);
        }
        let Ok(number) = u32::try_from(self.parts.len()) else {
            return Err(AllocError);
        };
        self.parts.push(part.copy(alloc)?)?;
        self.numbers.insert(text, number)?;
        Ok(number)
    }

    // The key of a state of these parts.
    fn key(&mut self, alloc: Global, parts: &[Part]) -> Result<Vec<u32>, AllocError>
        ensures key { IfOk result (λ key. IsKey self.new key.items (plain_parts parts.now)) }
        ensures keeps { OnOk result (KeepsNumbers self.old self.new) }
    {
        let mut key = Vec::with_capacity(alloc, parts.len())?;
        for i in 0..parts.len() {
            key.push(self.number(alloc, &parts[i])?)?;
        }
        Ok(key)
    }

    // The key of a state of these parts, where each has a number.
    fn known_key(&self, alloc: Global, parts: &[Part]) -> Result<Option<Vec<u32>>, AllocError>
        ensures { IfOk result (λ some. IfSome some (λ key. IsKey self.now key.items (plain_parts parts.now))) }
    {
        let mut key = Vec::with_capacity(alloc, parts.len())?;
        for i in 0..parts.len() {
            let text = parts[i].text(alloc)?;
            match self.known(&text, &parts[i]) {
                Some(number) => key.push(number)?,
                None => return Ok(None),
            }
        }
        Ok(Some(key))
    }

    /// The key of the state of a position, where each part has a number. An error means that an allocation failed.
    pub fn find(
        &self,
        alloc: Global,
        position: &Position,
        touched: &Touched,
    ) -> Result<Option<Vec<u32>>, AllocError>
        ensures { IfOk result (λ some. IfSome some (λ key. IsKey self.now key.items (state_of (groups_of touched.now) position.now))) }
    {
        let parts = parts_of(alloc, position, touched)?;
        self.known_key(alloc, &parts)
    }

    /// The key of the state that a crash leaves of a position, where each part has a number. An error means that an
    /// allocation failed.
    pub fn find_crashed(
        &self,
        alloc: Global,
        position: &Position,
        touched: &Touched,
    ) -> Result<Option<Vec<u32>>, AllocError>
        ensures { IfOk result (λ some. IfSome some (λ key. IsKey self.now key.items (crashed_state_of (groups_of touched.now) position.now))) }
    {
        let parts = lost_parts_of(alloc, position, touched)?;
        self.known_key(alloc, &parts)
    }

    /// The key of the state of a position: the words of these groups, and its processes. An error means that an allocation
    /// failed, or that there are more than 2^32 - 1 parts.
    pub fn state(
        &mut self,
        alloc: Global,
        position: &Position,
        touched: &Touched,
    ) -> Result<Vec<u32>, AllocError>
        ensures key { IfOk result (λ key. IsKey self.new key.items (state_of (groups_of touched.now) position.now)) }
        ensures keeps { OnOk result (KeepsNumbers self.old self.new) }
    {
        let parts = parts_of(alloc, position, touched)?;
        self.key(alloc, &parts)
    }

    /// The key of the state that a crash leaves of a position. Errors are those of `state`.
    pub fn crashed(
        &mut self,
        alloc: Global,
        position: &Position,
        touched: &Touched,
    ) -> Result<Vec<u32>, AllocError>
        ensures key { IfOk result (λ key. IsKey self.new key.items (crashed_state_of (groups_of touched.now) position.now)) }
        ensures keeps { OnOk result (KeepsNumbers self.old self.new) }
    {
        let parts = lost_parts_of(alloc, position, touched)?;
        self.key(alloc, &parts)
    }
}
