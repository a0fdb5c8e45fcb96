//! The machine of a migration: the access of each stage, and what follows it.

ghost use Rattle.std.specs.Prelude.{◌≡◌, ◌<◌, ◌+◌};
ghost use Rattle.ds_formula.specs.Limits.{PROCESSES_MOST};
ghost use Rattle.ds_state.specs.Works.{IsMigration, PlainMigrateCall, new_text, old_words};
ghost use Rattle.ds_state.specs.declared.migration.MigrateStage.TheVariants.{BackNew, LoadOld, LoadVersion};
ghost use Rattle.ds_recover.specs.MigrationSteps.{access_at, at, copy_from, fresh, next_at};
ghost use Rattle.ds_recover.specs.MigrationTakes.{effect_at, got_at};

use ds_layout::layout::{Layout, first_text};
use ds_layout::place::{Edition, FIRST_PARTS, Place, RECORDS};
use ds_state::migration::{MigrateCall, MigrateEnd, MigrateStage};
use ds_state::turn::Turn;
use ds_words::access::Access;

/// The process's migration of the sheet, before its first step.
pub fn fresh(layout: &Layout, process: usize) -> MigrateCall
    requires { process < layout.now.processes }
    ensures { result ≡ fresh process layout.now.processes }
{
    MigrateCall {
        process,
        processes: layout.processes,
        word: 0,
        stage: MigrateStage::LoadVersion,
    }
}

// The word of the second layout's texts that this one of the first layout is copied to.
fn new_text(at: usize) -> Place
    ensures { result ≡ new_text at }
{
    let record = at / FIRST_PARTS;
    Place::Text {
        edition: Edition::Second,
        process: record / RECORDS,
        number: record % RECORDS,
        part: at % FIRST_PARTS,
    }
}

/// What the migration does next.
pub fn want(call: &MigrateCall) -> Access<Place>
    ensures { result ≡ access_at call.now call.now.stage }
{
    match call.stage {
        MigrateStage::LoadVersion => Access::Load(Place::Version),
        MigrateStage::LoadOld(at) => Access::Load(first_text(at)),
        MigrateStage::StoreNew(at) => Access::Store(new_text(at), call.word),
        MigrateStage::FlushNew(at) => Access::Flush(new_text(at)),
        MigrateStage::Swap => Access::SwapIf {
            place: Place::Version,
            expected: Edition::First.word(),
            value: Edition::Second.word(),
        },
        MigrateStage::FlushVersion(_) => Access::Flush(Place::Version),
        MigrateStage::BackNew(_) | MigrateStage::BackVersion(_) => Access::Back,
        MigrateStage::Answer(_) => Access::Nothing,
    }
}

/// What the next step does to the migration.
pub fn effect_of(call: &MigrateCall) -> Turn<MigrateEnd>
    ensures { result ≡ effect_at call.now.stage }
{
    match call.stage {
        MigrateStage::Answer(how) => Turn::Answers(how),
        _ => Turn::GoesOn,
    }
}

fn copy_from(words: usize, at: usize) -> MigrateStage
    ensures { result ≡ copy_from words at }
{
    if at < words {
        MigrateStage::LoadOld(at)
    } else {
        MigrateStage::Swap
    }
}

// How many words the texts of the first layout have.
fn old_words(call: &MigrateCall) -> usize
    ensures { result ≡ old_words call.now.processes }
{
    // For the proof: reading the field gives its invariant.
    let _stage = call.stage;
    call.processes * RECORDS * FIRST_PARTS
}

// It has seen which layout the sheet has: it copies, or the sheet has come to the second one already.
fn see_version(call: &mut MigrateCall, word: u64)
    requires { call.old.stage ≡ LoadVersion }
    ensures { call.new ≡ next_at call.old LoadVersion word }
{
    call.stage = if word == 0 {
        copy_from(old_words(call), 0)
    } else {
        MigrateStage::FlushVersion(MigrateEnd::Already)
    };
}

// A word of the first layout is noted.
fn note_old(call: &mut MigrateCall, at: usize, word: u64)
    requires { call.old.stage ≡ LoadOld at }
    ensures { call.new ≡ next_at call.old (LoadOld at) word }
{
    call.word = word;
    call.stage = MigrateStage::StoreNew(at);
}

// A word is copied: the next one, or the swap.
fn copy_next(call: &mut MigrateCall, at: usize, word: u64)
    requires { call.old.stage ≡ BackNew at }
    ensures { call.new ≡ next_at call.old (BackNew at) word }
{
    call.stage = copy_from(old_words(call), at + 1);
}

/// The migration goes on with the word that its access answered, whatever that is. It takes no memory. At its answer
/// it stays.
pub fn got(call: &mut MigrateCall, word: u64)
    ensures { call.new ≡ got_at call.old word }
{
    match call.stage {
        MigrateStage::LoadVersion => see_version(call, word),
        MigrateStage::LoadOld(at) => note_old(call, at, word),
        MigrateStage::StoreNew(at) => call.stage = MigrateStage::FlushNew(at),
        MigrateStage::FlushNew(at) => call.stage = MigrateStage::BackNew(at),
        MigrateStage::BackNew(at) => copy_next(call, at, word),
        MigrateStage::Swap => call.stage = MigrateStage::FlushVersion(MigrateEnd::Migrated),
        MigrateStage::FlushVersion(how) => call.stage = MigrateStage::BackVersion(how),
        MigrateStage::BackVersion(how) => call.stage = MigrateStage::Answer(how),
        MigrateStage::Answer(_) => {}
    }
}
