//! What a world shows before an event, and after it.

ghost use Rattle.std.specs.Prelude.{◌≡◌, IfOk, map};
ghost use Rattle.ds_state.specs.Value.{world_of};
ghost use Rattle.ds_trace.specs.Rows.{access_of, passed_by, sides_of};

use ds_layout::place::Place;
use ds_script::drive::last_point;
use ds_script::point::PointName;
use ds_state::situation::Situation;
use ds_state::world::World;
use ds_words::access::Access;
use ds_words::words::Word;
use std::alloc::{AllocError, Global};

/// The access that the next step of a process makes: none where it is in no call.
pub fn wanted(world: &World, process: usize) -> Access<Place>
    ensures { result ≡ access_of world.now process }
{
    if process >= world.situations.len() {
        return Access::Nothing;
    }
    match &world.situations[process] {
        Situation::Editing(call) => ds_edit::machine::want(call),
        Situation::Working(call) => ds_work::machine::want(call, world.words.layout().shape),
        Situation::Recovering(call) => ds_recover::machine::want(call),
        Situation::Showing(call) => ds_show::machine::want(call),
        Situation::Migrating(call) => ds_recover::migrate::want(call),
        Situation::Idle(_) | Situation::Stopped => Access::Nothing,
    }
}

/// Both sides of the word at a place: 0 where the sheet has no such word.
pub fn sides(world: &World, place: Place) -> Word
    ensures { result ≡ sides_of world.now place }
{
    if world.words.layout().contains(place) {
        world.words.word(place)
    } else {
        Word {
            cached: 0,
            persisted: 0,
        }
    }
}

/// Both sides of the words at these places, in their order. An error means that an allocation failed.
pub fn words(alloc: Global, world: &World, places: &[Place]) -> Result<Vec<Word>, AllocError>
    ensures { IfOk result (λ words. words.items ≡ map (sides_of world.now) places.now) }
{
    let mut words = Vec::with_capacity(alloc, places.len())?;
    for place in places {
        words.push(sides(world, *place))?;
    }
    Ok(words)
}

/// The last point that the call of a process has passed, if it has one.
pub fn behind(world: &World, process: usize) -> Option<PointName>
    ensures { result ≡ passed_by ((world_of world.now).situation process) }
{
    last_point(world, process)
}
