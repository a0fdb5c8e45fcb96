//! The beginning of an edit.

ghost use Rattle.std.specs.Prelude.{◌≡◌, ◌≢◌, ◌<◌, ◌≤◌, IfOk, IfErr, OnOk, OnErr, vec_len, slice_set, List, length};
ghost use Rattle.ds_formula.specs.Cells.{IsInside, index_of};
ghost use Rattle.ds_formula.specs.declared.cells.Cell.{Cell};
ghost use Rattle.ds_formula.specs.Plain.{plain};
ghost use Rattle.ds_formula.specs.Refs.{Refers};
ghost use Rattle.ds_formula.specs.Grammar.{Reads};
ghost use Rattle.ds_layout.specs.declared.place.TheConstants.{RECORDS};
ghost use Rattle.ds_state.specs.Value.{world_of};
ghost use Rattle.ds_state.specs.CallsFit.{IsSheetOf, HasRefs};
ghost use Rattle.ds_state.specs.Edits.{IsEdit};
ghost use Rattle.ds_state.specs.declared.stage.Stage.TheVariants.{StoreHeader};
ghost use Rattle.ds_edit.specs.EditTakes.{Begins, rest_before};
ghost use Rattle.ds_state.specs.Editions.{most_in};
ghost use Rattle.ds_edit.specs.Begun.{AreNumbers, RefersTo, IsAskedFor, IsBegun, IsIdle, RefusesIdle, Refuses};

use ds_formula::cells::{Cell, Shape};
use ds_formula::content::Content;
use ds_formula::fault::{FaultKind, TextFault};
use ds_formula::reading::read_content;
use ds_layout::layout::Layout;
use ds_layout::place::RECORDS;
use ds_state::edit::EditCall;
use ds_state::ledger::{Edit, Issue};
use ds_state::refusal::Refusal;
use ds_state::situation::{Rest, Situation, next_edit, put};
use ds_state::stage::Stage;
use ds_state::text::Text;
use ds_state::world::World;
use std::alloc::{AllocError, Global};

// The numbers of the cells written in a content.
#[inline(always)]
fn numbers(alloc: Global, shape: &Shape, content: &Content) -> Result<Vec<usize>, AllocError>
    requires { (cell : Cell) → Refers (plain content.now) cell → IsInside shape.now cell }
    ensures { IfOk result (λ v. AreNumbers shape.now (plain content.now) v.items) }
{
    let cells = content.refs(alloc)?;
    let mut numbers = Vec::new(alloc);
    for cell in &cells {
        numbers.push(shape.index(*cell))?;
    }
    Ok(numbers)
}

// The content of the text of an idle process's next edit, and the cells written in it.
#[inline(always)]
fn references(
    alloc: Global,
    shape: &Shape,
    next: Rest,
    text: &[u8],
) -> Result<(Content, Vec<usize>), Refusal>
    ensures fits { IfOk result (λ r. length text.now ≤ most_in next.edition) }
    ensures reads { IfOk result (λ r. Reads shape.now text.now (plain r.0)) }
    ensures text { IfOk result (λ r. RefersTo shape.now text.now r.1.items) }
    ensures number { OnOk result (next.number ≢ RECORDS) }
    ensures refused { IfErr result (λ refusal. RefusesIdle shape.now next text.now refusal) }
{
    let most = 8 * next.edition.parts();
    if text.len() > most {
        return Err(Refusal::Text(TextFault {
            kind: FaultKind::TooLong,
            offset: most,
        }));
    }
    let content = read_content(alloc, shape, text)?;
    if next.number == RECORDS {
        return Err(Refusal::RecordsFull);
    }
    let refs = numbers(alloc, shape, &content)?;
    Ok((content, refs))
}

/// The process's next edit, of the cell to the text, before its first step, and the
/// content of the text.
pub fn prepared(
    alloc: Global,
    layout: &Layout,
    process: usize,
    next: Rest,
    cell: Cell,
    text: &[u8],
) -> Result<(EditCall, Content), Refusal>
    requires process { process < layout.now.processes }
    requires number { next.number ≤ RECORDS }
    requires cell { IsInside layout.now.shape cell }
    ensures asked { IfOk result (λ r. IsAskedFor layout.now process (index_of layout.now.shape cell) text.now next.number r.0) }
    ensures edition { IfOk result (λ r. r.0.edition ≡ next.edition) }
    ensures first { IfOk result (λ r. r.0.stage ≡ StoreHeader) }
    ensures reads { IfOk result (λ r. Reads layout.now.shape text.now (plain r.1)) }
    ensures refused { IfErr result (λ refusal. RefusesIdle layout.now.shape next text.now refusal) }
{
    let (content, refs) = references(alloc, &layout.shape, next, text)?;
    let text = Text::new(text).unwrap();
    text.is_always_a_text();
    let call = EditCall {
        process,
        number: next.number,
        edition: next.edition,
        cell: layout.shape.index(cell),
        text,
        refs,
        cells: layout.cells(),
        processes: layout.processes,
        stage: Stage::StoreHeader,
    };
    Ok((call, content))
}

// Begins an edit of the sheet.
#[inline(always)]
fn issue(world: &mut World, call: EditCall)
    requires idle { IsIdle (world_of world.old) call.process (rest_before call) }
    requires sheet { IsSheetOf world.old.sheet.layout call }
    requires refs { HasRefs world.old.sheet.layout.shape call.text call.refs }
    requires first { call.stage ≡ StoreHeader }
    ensures begins { Begins call (world_of world.old) (world_of world.new) }
    ensures sheet { world.new.sheet ≡ world.old.sheet }
    ensures done { world.new.done ≡ world.old.done }
    ensures settled { world.new.settled ≡ world.old.settled }
    ensures reports { world.new.reports ≡ world.old.reports }
{
    let process = call.process;
    let edit = Edit::of(&call);
    let since = world.counted.len();
    world.open_edits[process] = Some(Issue { edit, since });
    put(&mut world.situations, process, Situation::Editing(call));
}

/// Begins an edit of a cell by an idle process, and answers its number, from 0 to 255. Nothing is
/// stored yet: the edit's steps do that.
///
/// The refusals are tried in this order, and each leaves the world as it was: `Busy` where the
/// process is in a call, `Stopped` where it is stopped, `Text` with the first fault of the text,
/// `RecordsFull` where the process has begun 256 edits, `NoMemory` where an allocation failed, also
/// while the text is read.
#[inline(always)]
pub fn begin(
    alloc: Global,
    world: &mut World,
    process: usize,
    cell: Cell,
    text: &[u8],
) -> Result<usize, Refusal>
    requires process { process < world.old.sheet.layout.processes }
    requires cell { IsInside world.old.sheet.layout.shape cell }
    ensures begun { IfOk result (λ number. IsBegun (world_of world.old) process (index_of world.old.sheet.layout.shape cell) text.now number (world_of world.new)) }
    ensures refused { IfErr result (λ refusal. Refuses (world_of world.old) process text.now refusal) }
    ensures unchanged { OnErr result (world.new ≡ world.old) }
    ensures sheet { world.new.sheet ≡ world.old.sheet }
    ensures done { world.new.done ≡ world.old.done }
    ensures settled { world.new.settled ≡ world.old.settled }
    ensures reports { world.new.reports ≡ world.old.reports }
{
    let next = next_edit(&world.situations[process])?;
    let layout = world.words.layout();
    let (call, _content) = prepared(alloc, &layout, process, next, cell, text)?;
    issue(world, call);
    Ok(next.number)
}
