//! The words that calls under way may touch.

ghost use Rattle.std.specs.Prelude.{◌≡◌, ◌≢◌, IfOk, IsTrue, Some, map, slice_get, ℕ};
ghost use Rattle.std.specs.List.{AllByRecursion};
ghost use Rattle.ds_explore_state.specs.Following.{HasAllDirt, IsOff, IsWithin};
ghost use Rattle.ds_explore_state.specs.States.{all_places, groups_of};

use crate::orders::is_dirty;
use ds_layout::layout::Layout;
use ds_layout::place::{DONE_PARTS, Edition, Place, RECORDS};
use ds_state::situation::Situation;
use ds_state::world::World;
use std::alloc::{AllocError, Global};

/// The words of a sheet that are touched, or may be by the calls under way: the version, those of each cell, and then of
/// each process.
#[derive(Drop)]
pub struct Touched {
    /// The version, the words of each cell, then of each process with its records, and then all others whose sides differ.
    pub groups: Vec<Vec<Place>>,
    /// All of them.
    pub places: Vec<Place>,
}

// The words of a cell.
fn of_cell(alloc: Global, layout: &Layout, cell: usize) -> Result<Vec<Place>, AllocError> {
    let mut places = vec![in alloc;
        Place::Head(cell),
        Place::Mark(cell),
        Place::Value(cell),
        Place::Kind(cell),
    ]?;
    for part in 0..layout.row_parts() {
        places.push(Place::Index { row: cell, part })?;
    }
    Ok(places)
}

// Whether the calls under way, or those after a crash, may have to do with the texts of this layout: without a
// migration only with those of the layout that the sheet has.
fn has_texts(world: &World, edition: Edition) -> bool {
    let word = world.words.word(Place::Version);
    let moving = world
        .situations
        .iter()
        .any(|situation| matches!(situation, Situation::Migrating(_)));
    moving || Edition::read(word.cached) == edition || Edition::read(word.persisted) == edition
}

// The layouts whose texts matter.
fn editions_of(alloc: Global, world: &World) -> Result<Vec<Edition>, AllocError> {
    let mut editions = Vec::new(alloc);
    for edition in [Edition::First, Edition::Second] {
        if has_texts(world, edition) {
            editions.push(edition)?;
        }
    }
    Ok(editions)
}

// The words of a record's text in a layout.
fn of_text(
    places: &mut Vec<Place>,
    edition: Edition,
    process: usize,
    number: usize,
) -> Result<(), AllocError> {
    for part in 0..edition.parts() {
        places.push(Place::Text {
            edition,
            process,
            number,
            part,
        })?;
    }
    Ok(())
}

// The words of a record.
fn of_record(
    places: &mut Vec<Place>,
    editions: &[Edition],
    process: usize,
    number: usize,
) -> Result<(), AllocError> {
    places.push(Place::Header { process, number })?;
    for edition in editions {
        of_text(places, *edition, process, number)?;
    }
    Ok(())
}

// Whether a word of the sheet is not zero on both sides.
fn is_written(world: &World, place: Place) -> bool {
    if !world.words.layout().contains(place) {
        return false;
    }
    let word = world.words.word(place);
    word.cached != 0 || word.persisted != 0
}

// Whether a record has a word that is not zero.
fn has_record(
    alloc: Global,
    world: &World,
    editions: &[Edition],
    process: usize,
    number: usize,
) -> Result<bool, AllocError> {
    let mut places = Vec::new(alloc);
    of_record(&mut places, editions, process, number)?;
    Ok(places.iter().any(|place| is_written(world, *place)))
}

// How many records of a process there are that are written, or may be by its edit under way.
fn records(
    alloc: Global,
    world: &World,
    editions: &[Edition],
    process: usize,
) -> Result<usize, AllocError> {
    let mut count = match world.situations.get(process) {
        Some(Situation::Editing(call)) => call.number.saturating_add(1),
        _ => 0,
    };
    for number in 0..RECORDS {
        if number >= count && has_record(alloc, world, editions, process, number)? {
            count = number.saturating_add(1);
        }
    }
    Ok(count)
}

// The words of a process.
fn of_process(
    alloc: Global,
    world: &World,
    editions: &[Edition],
    process: usize,
) -> Result<Vec<Place>, AllocError> {
    let mut places = vec![in alloc; Place::Announce(process)]?;
    for part in 0..DONE_PARTS {
        places.push(Place::Done { process, part })?;
    }
    for number in 0..records(alloc, world, editions, process)? {
        of_record(&mut places, editions, process, number)?;
    }
    Ok(places)
}

// The words of each cell are added.
fn add_cells(
    alloc: Global,
    layout: &Layout,
    groups: &mut Vec<Vec<Place>>,
) -> Result<(), AllocError> {
    for cell in 0..layout.cells() {
        groups.push(of_cell(alloc, layout, cell)?)?;
    }
    Ok(())
}

// The words of each process are added.
fn add_processes(
    alloc: Global,
    world: &World,
    groups: &mut Vec<Vec<Place>>,
) -> Result<(), AllocError> {
    let editions = editions_of(alloc, world)?;
    for process in 0..world.words.layout().processes {
        groups.push(of_process(alloc, world, &editions, process)?)?;
    }
    Ok(())
}

// Whether the place is one of these.
fn is_one(places: &[Place], place: Place) -> bool
    ensures { IsTrue result → (i : ℕ) × (slice_get places.now i ≡ Some place) }
{
    for number in 0..places.len() {
        if places[number] == place {
            return true;
        }
    }
    false
}

// The words whose sides differ that are in none of the groups: an edit that was stopped may have left them.
fn rest(alloc: Global, world: &World, groups: &[Vec<Place>]) -> Result<Vec<Place>, AllocError> {
    let layout = world.words.layout();
    let mut rest = Vec::new(alloc);
    for number in 0..layout.words() {
        let place = layout.place(number);
        if is_dirty(world, place) && !groups.iter().any(|group| is_one(group, place)) {
            rest.push(place)?;
        }
    }
    Ok(rest)
}

// Whether each word whose sides differ is at one of these places.
fn has_all_dirt(world: &World, places: &[Place]) -> bool
    ensures { IsTrue result → HasAllDirt world.now places.now }
{
    let layout = world.words.layout();
    for number in 0..layout.words() {
        let place = layout.place(number);
        if is_dirty(world, place) && !is_one(places, place) {
            return false;
        }
    }
    true
}

impl Touched {
    /// The words of this world: each whose sides differ is one of them. An error means that an allocation failed.
    pub fn of(alloc: Global, world: &World) -> Result<Touched, AllocError>
        ensures places { IfOk result (λ touched. touched.places.items ≡ all_places (groups_of touched)) }
        ensures dirt { IfOk result (λ touched. HasAllDirt world.now touched.places.items) }
    {
        let mut groups = vec![in alloc; vec![in alloc; Place::Version]?]?;
        add_cells(alloc, &world.words.layout(), &mut groups)?;
        add_processes(alloc, world, &mut groups)?;
        let rest = rest(alloc, world, &groups)?;
        groups.push(rest)?;
        let places = all(alloc, &groups)?;
        if !has_all_dirt(world, &places) {
            return Err(AllocError);
        }
        Ok(Touched { groups, places })
    }

    // Whether the place is in one of the groups.
    fn has(&self, place: Place) -> bool
        ensures { IsTrue result → IsOff (groups_of self.now) place → ⊥ }
    {
        for number in 0..self.groups.len() {
            if is_in(&self.groups[number], place) {
                return true;
            }
        }
        false
    }

    /// Whether the place, if it is one, is in one of the groups.
    pub fn has_written(&self, written: Option<Place>) -> bool
        ensures { IsTrue result → IsWithin (groups_of self.now) written }
    {
        match written {
            Some(place) => self.has(place),
            None => true,
        }
    }
}

// Whether the place is in the group.
fn is_in(group: &[Place], place: Place) -> bool
    ensures { IsTrue result → AllByRecursion (λ other. place ≢ other) group.now → ⊥ }
{
    for number in 0..group.len() {
        if group[number] == place {
            return true;
        }
    }
    false
}

// The places of all groups.
fn all(alloc: Global, groups: &[Vec<Place>]) -> Result<Vec<Place>, AllocError>
    ensures { IfOk result (λ places. places.items ≡ all_places (map (λ group. group.items) groups.now)) }
{
    let mut places = Vec::new(alloc);
    for number in 0..groups.len() {
        places.extend_from_slice(&groups[number])?;
    }
    Ok(places)
}
