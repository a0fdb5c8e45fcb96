//! New sheets.

ghost use Rattle.std.specs.Prelude.{◌≡◌, ◌≤◌, IfOk, replicate};
ghost use Rattle.ds_words.specs.Memory.{IsFresh};
ghost use Rattle.ds_layout.specs.declared.place.Edition.TheVariants as editions;
ghost use Rattle.ds_layout.specs.Places.{cells_of};
ghost use Rattle.ds_layout.specs.SheetMemory.{memory};
ghost use Rattle.ds_state.specs.Editions.{Agrees};
ghost use Rattle.ds_state.specs.Fresh.{AreNew, IsNew};
ghost use Rattle.ds_state.specs.Reports.{no_reports};
ghost use Rattle.ds_state.specs.Value.{rest_in, world_of};
ghost use Rattle.ds_formula.specs.Cells.{count_of};

use crate::reports::Reports;
use crate::situation::{Rest, Situation};
use crate::world::World;
use ds_formula::cells::Shape;
use ds_layout::layout::{Layout, PROCESS_LIMIT};
use ds_layout::place::{Edition, Place, RECORDS};
use ds_layout::sheet_words::SheetWords;
use ds_words::access::Access;
use std::alloc::{AllocError, Global};

// As many idle processes, each before its edit 0.
#[tactic(auto, using(crate::proofs::Made::one_more))]
fn idle(alloc: Global, processes: usize, edition: Edition) -> Result<Vec<Situation>, AllocError>
    ensures { IfOk result (λ v. v.items ≡ replicate processes (Situation.Idle (rest_in edition))) }
{
    let mut situations = Vec::with_capacity(alloc, processes)?;
    for _ in 0..processes {
        situations.push(Situation::Idle(Rest { number: 0, edition }))?;
    }
    Ok(situations)
}

// The version's word of a new sheet comes to say the second layout, on both sides.
fn say_second(words: &mut SheetWords)
    requires some { 1 ≤ words.old.layout.processes }
    requires fresh { IsFresh (memory words.old) }
    ensures new { AreNew (memory words.new) editions.Second }
    ensures layout { words.new.layout ≡ words.old.layout }
{
    words.perform(0, Access::Store(Place::Version, 1));
    words.evict(Place::Version);
}

// A new sheet of these words, in the layout that their version says.
fn made(alloc: Global, words: SheetWords, edition: Edition) -> Result<World, AllocError>
    requires { AreNew (memory words) edition }
    ensures new { IfOk result (λ w. IsNew (world_of w)) }
    ensures sheet { IfOk result (λ w. w.sheet ≡ words) }
    ensures done { IfOk result (λ w. w.done ≡ 0) }
    ensures settled { IfOk result (λ w. w.settled ≡ 0) }
    ensures reports { IfOk result (λ w. w.reports ≡ no_reports words.layout.processes (cells_of words.layout)) }
{
    let layout = words.layout();
    let situations = idle(alloc, layout.processes, edition)?;
    let counted = Vec::with_capacity(alloc, layout.processes * RECORDS)?;
    let open_edits = vec![in alloc; None; layout.processes]?;
    let reports = Reports::new(alloc, layout.processes, layout.cells())?;
    Ok(World {
        words,
        situations,
        counted,
        open_edits,
        done: 0,
        settled: 0,
        reports,
        spare: None,
    })
}

impl World {
    /// A new sheet of this shape, for 1 to 8 processes, in the second layout: texts of up to 240 bytes. An error means
    /// that an allocation failed.
    pub fn new(alloc: Global, shape: Shape, processes: usize) -> Result<World, AllocError>
        requires some { 1 ≤ processes }
        requires limited { processes ≤ PROCESS_LIMIT }
        ensures new { IfOk result (λ w. IsNew (world_of w)) }
        ensures edition { IfOk result (λ w. Agrees (world_of w).memory editions.Second) }
        ensures shape { IfOk result (λ w. w.sheet.layout.shape ≡ shape) }
        ensures processes { IfOk result (λ w. w.sheet.layout.processes ≡ processes) }
        ensures done { IfOk result (λ w. w.done ≡ 0) }
        ensures settled { IfOk result (λ w. w.settled ≡ 0) }
        ensures reports { IfOk result (λ w. w.reports ≡ no_reports processes (count_of shape)) }
    {
        let mut words = SheetWords::new(alloc, Layout { shape, processes })?;
        say_second(&mut words);
        made(alloc, words, Edition::Second)
    }

    /// A new sheet of this shape, for 1 to 8 processes, in the first layout: texts of up to 120 bytes, with the room
    /// that a migration to the second layout needs. An error means that an allocation failed.
    pub fn first(alloc: Global, shape: Shape, processes: usize) -> Result<World, AllocError>
        requires some { 1 ≤ processes }
        requires limited { processes ≤ PROCESS_LIMIT }
        ensures new { IfOk result (λ w. IsNew (world_of w)) }
        ensures edition { IfOk result (λ w. Agrees (world_of w).memory editions.First) }
        ensures shape { IfOk result (λ w. w.sheet.layout.shape ≡ shape) }
        ensures processes { IfOk result (λ w. w.sheet.layout.processes ≡ processes) }
        ensures done { IfOk result (λ w. w.done ≡ 0) }
        ensures settled { IfOk result (λ w. w.settled ≡ 0) }
        ensures reports { IfOk result (λ w. w.reports ≡ no_reports processes (count_of shape)) }
    {
        let words = SheetWords::new(alloc, Layout { shape, processes })?;
        made(alloc, words, Edition::First)
    }
}
