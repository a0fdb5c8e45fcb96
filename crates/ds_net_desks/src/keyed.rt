//! Edits with keys, over a shared sheet whose edits are kept in a store.

ghost use Rattle.std.specs.Prelude.{◌≡◌, ◌++◌, ◌⊎◌, Option, IfOk, IfSome, None, Some};
ghost use Rattle.ds_server.specs.Replies.{resolved_view, set_view};
ghost use Rattle.ds_store_journal.specs.Journals.{KeptEdit};
ghost use Rattle.ds_store_keys.specs.Keys.{edit_of};
ghost use Rattle.ds_store_keys.specs.Tables.{found};
ghost use Rattle.ds_net_floor.specs.Entries.{entries};
ghost use Rattle.ds_net_desks.specs.DeskSeats.{Uses};
ghost use Rattle.ds_net_desks.specs.Hearing.{HearsNoted, HearsNotedKeys};
ghost use Rattle.ds_net_desks.specs.Keyings.{AreCopies, SaysKnowing, SaysUse, once_view};
ghost use Rattle.ds_net_desks.specs.StoredDesks.{EditsWithKey, HasResolved, HasSetOnce, Resolves, StoredSet, keyed_of, notes_in};

use crate::numbered_seat::NumberedSeat;
use crate::seat_pool::SeatPool;
use crate::stored_desk::edited_as;
use ds_formula::cells::Cell;
use ds_net_floor::edit_list::EditList;
use ds_net_floor::keeping::Backlog;
use ds_net_floor::notebook::Notebook;
use ds_server::desk::{CallRefusal, ListedEdit};
use ds_state::answer::EditEnd;
use ds_store_journal::edit::AnsweredEdit;
use ds_store_keys::note::{KeyNote, KeyUse};
use std::alloc::{AllocError, Global};
use std::sync::Wait;

/// What has come of an edit with a key.
#[derive(Debug, Drop)]
pub enum Once {
    /// Its key was not known: it was made, as by a set, and has ended so.
    Made(Result<EditEnd, CallRefusal>),
    /// Its key is that of the same edit, which has this number, and counts.
    Known(usize),
    /// Its key is that of another edit, or of none, for good.
    Reused,
}

impl Once {
    /// How the edit has ended, as its client is answered.
    pub fn end(self) -> Result<EditEnd, CallRefusal>
        ensures { set_view result ≡ once_view self }
    {
        match self {
            Once::Made(end) => end,
            Once::Known(number) => Ok(EditEnd::Done(number)),
            Once::Reused => Err(CallRefusal::KeyReused),
        }
    }
}

// What is known of a key, for an edit of a cell to a text.
#[derive(Clone, Copy, Debug)]
enum Knowing {
    // Nothing.
    New,
    // That it is of the same edit, which has this number.
    Same(usize),
    // That it is of another edit, or of none.
    Other,
}

// A key and a text, of which the keeper is to hear where the edit is done.
#[derive(Drop)]
struct KeyCopy {
    key: Vec<u8>,
    text: Vec<u8>,
}

impl KeyCopy {
    // Copies of these.
    fn of(alloc: Global, key: &[u8], text: &[u8]) -> Result<KeyCopy, AllocError>
        ensures { IfOk result (λ copy. (copy.key.items ≡ key.now) × (copy.text.items ≡ text.now)) }
    {
        Ok(KeyCopy {
            key: Vec::from_slice(alloc, key)?,
            text: Vec::from_slice(alloc, text)?,
        })
    }

    // The note that the key is of this edit.
    fn note(self, process: usize, number: usize, cell: Cell) -> KeyNote
        ensures { result ≡ record { key = self.key.items; edit = Some (record { process = process; number = number; cell = cell; text = self.text.items }) } }
    {
        let KeyCopy { key, text } = self;
        KeyNote {
            key,
            of: KeyUse::Edit(AnsweredEdit {
                process,
                number,
                cell,
                text,
            }),
        }
    }
}

// Two such copies: that which is kept, and that which is known.
fn copies(alloc: Global, key: &[u8], text: &[u8]) -> Result<(KeyCopy, KeyCopy), AllocError>
    ensures { IfOk result (λ both. AreCopies both key.now text.now) }
{
    let kept = KeyCopy::of(alloc, key, text)?;
    let known = KeyCopy::of(alloc, key, text)?;
    Ok((kept, known))
}

// What is known of a key that is of this, for an edit of the cell to the text.
fn known_as(of: &KeyUse, cell: Cell, text: &[u8]) -> Knowing
    ensures { SaysKnowing cell text.now (Some (edit_of of.now)) result }
{
    match of {
        KeyUse::Edit(edit) if edit.cell == cell && edit.text.as_slice() == text => {
            Knowing::Same(edit.number)
        }
        KeyUse::Edit(_) | KeyUse::Nothing => Knowing::Other,
    }
}

// What is known of the key in the list, for an edit of the cell to the text.
fn known_in(list: &EditList, cell: Cell, text: &[u8], key: &[u8]) -> Knowing
    ensures { SaysKnowing cell text.now (found list.now.keys key.now) result }
{
    match list.use_of(key) {
        Some(of) => known_as(of, cell, text),
        None => Knowing::New,
    }
}

// An edit by the seat with a key that is not known, which nobody else's overlaps. The keeper hears of the key, too, if it is done.
fn edited_keyed(
    alloc: Global,
    backlog: &mut Backlog,
    notebook: &mut Notebook<'_>,
    numbered: &mut NumberedSeat,
    cell: Cell,
    text: &[u8],
    key: &[u8],
) -> Result<EditEnd, CallRefusal>
    ensures uses { Uses (StoredSet notebook.old.heard.items cell text.now notebook.new.heard.items (set_view result)) numbered.old (set_view result) numbered.new }
    ensures keyed { notebook.new.keyed.items ≡ notebook.old.keyed.items ++ keyed_of numbered.old.seat.pass.process cell text.now key.now (set_view result) }
    ensures seen { notebook.new.seen ≡ notebook.old.seen }
    ensures process { numbered.new.seat.pass.process ≡ numbered.old.seat.pass.process }
    ensures hears { HearsNoted backlog.old notebook.old.heard.items backlog.new notebook.new.heard.items }
    ensures hears_keys { HearsNotedKeys backlog.old notebook.old.keyed.items backlog.new notebook.new.keyed.items }
{
    let Ok((kept, known)) = copies(alloc, key, text) else {
        return Err(CallRefusal::NoMemory);
    };
    let process = numbered.process();
    let end = edited_as(alloc, backlog, notebook, numbered, cell, text);
    if let Ok(EditEnd::Done(number)) = end {
        let note = kept.note(process, number, cell);
        let copy = known.note(process, number, cell);
        backlog.hear_key(notebook, note, copy);
    }
    end
}

// An edit with a key, by what is known of it.
fn edited_once<R: Wait>(
    rt: &R,
    alloc: Global,
    pool: &SeatPool,
    backlog: &mut Backlog,
    notebook: &mut Notebook<'_>,
    numbered: &mut NumberedSeat,
    cell: Cell,
    text: &[u8],
    key: &[u8],
) -> Result<EditEnd, CallRefusal>
    ensures edits { EditsWithKey cell text.now key.now numbered.old (notes_in notebook.old) (set_view result) numbered.new (notes_in notebook.new) }
    ensures seen { notebook.new.seen ≡ notebook.old.seen }
    ensures process { numbered.new.seat.pass.process ≡ numbered.old.seat.pass.process }
    ensures hears { HearsNoted backlog.old notebook.old.heard.items backlog.new notebook.new.heard.items }
    ensures hears_keys { HearsNotedKeys backlog.old notebook.old.keyed.items backlog.new notebook.new.keyed.items }
{
    pool.catch_up(rt, numbered);
    edited_keyed(alloc, backlog, notebook, numbered, cell, text, key)
}

/// A whole edit by the seat, in the newest sheet, which nobody else's overlaps, with this key: where the key is known, nothing is
/// edited. The keeper of the store hears of the edit and its key before the next one begins, if it is done. Where memory is short
/// for that, nothing is done.
pub fn seat_edit_once<R: Wait>(
    rt: &R,
    alloc: Global,
    pool: &SeatPool,
    notebook: &mut Notebook<'_>,
    numbered: &mut NumberedSeat,
    cell: Cell,
    text: &[u8],
    key: &[u8],
) -> Once
    ensures once { HasSetOnce cell text.now key.now numbered.old (notes_in notebook.old) (once_view result) numbered.new (notes_in notebook.new) }
    ensures process { numbered.new.seat.pass.process ≡ numbered.old.seat.pass.process }
{
    let mut backlog = notebook.take_turn(rt);
    match known_in(backlog.show(notebook), cell, text, key) {
        Knowing::Same(number) => Once::Known(number),
        Knowing::Other => Once::Reused,
        Knowing::New => {
            let end = edited_once(
                rt,
                alloc,
                pool,
                &mut backlog,
                notebook,
                numbered,
                cell,
                text,
                key,
            );
            notebook.wake();
            Once::Made(end)
        }
    }
}

// The edit of a list that a key is of.
fn listed(alloc: Global, edit: &AnsweredEdit) -> Result<ListedEdit, AllocError>
    ensures { IfOk result (λ e. SaysUse (Some edit.now) (Some e)) }
{
    Ok(ListedEdit {
        process: edit.process,
        number: edit.number,
        cell: edit.cell,
        text: Vec::from_slice(alloc, &edit.text)?,
    })
}

// The edit of a list that a key of this use is of, if it is of one.
fn edit_listed(alloc: Global, of: &KeyUse) -> Result<Option<ListedEdit>, AllocError>
    ensures { IfOk result (SaysUse (edit_of of.now)) }
{
    match of {
        KeyUse::Edit(edit) => Ok(Some(listed(alloc, edit)?)),
        KeyUse::Nothing => Ok(None),
    }
}

// Two notes that a key is of no edit: that which is kept, and that which is known.
fn spent(alloc: Global, key: &[u8]) -> Result<(KeyNote, KeyNote), AllocError>
    ensures { IfOk result (λ both. (both.0 ≡ record { key = key.now; edit = None }) × (both.1 ≡ record { key = key.now; edit = None })) }
{
    let kept = Vec::from_slice(alloc, key)?;
    let known = Vec::from_slice(alloc, key)?;
    let note = KeyNote {
        key: kept,
        of: KeyUse::Nothing,
    };
    let copy = KeyNote {
        key: known,
        of: KeyUse::Nothing,
    };
    Ok((note, copy))
}

// A key that is not known is of no edit from now on, and the keeper hears of that. Where memory is short for it, nothing is done.
#[tactic(auto, using(crate::proofs::Hears::hears_no_key, crate::proofs::Hears::hears_key))]
fn spend(
    alloc: Global,
    backlog: &mut Backlog,
    notebook: &mut Notebook<'_>,
    key: &[u8],
) -> Result<Option<ListedEdit>, CallRefusal>
    ensures resolves { Resolves key.now None notebook.old.keyed.items (resolved_view result) notebook.new.keyed.items ⊎ ((result ≡ Err CallRefusal.NoMemory) × (notebook.new.keyed.items ≡ notebook.old.keyed.items)) }
    ensures notes { (notebook.new.heard ≡ notebook.old.heard) × (notebook.new.seen ≡ notebook.old.seen) }
    ensures hears_keys { HearsNotedKeys backlog.old notebook.old.keyed.items backlog.new notebook.new.keyed.items }
    ensures edits { (backlog.new.edits.items ≡ backlog.old.edits.items) × (entries backlog.new.list ≡ entries backlog.old.list) × (backlog.new.list.nobody ≡ backlog.old.list.nobody) }
{
    let Ok((note, copy)) = spent(alloc, key) else {
        return Err(CallRefusal::NoMemory);
    };
    if backlog.make_room().is_err() {
        return Err(CallRefusal::NoMemory);
    }
    backlog.hear_key(notebook, note, copy);
    Ok(None)
}

// The use of a key in the list, with the edit that it is of. None of a key that is not known.
fn use_in(
    alloc: Global,
    list: &EditList,
    key: &[u8],
) -> Result<Option<Option<ListedEdit>>, AllocError>
    ensures none { IfOk result (λ of. of ≡ None → found list.now.keys key.now ≡ None) }
    ensures some { IfOk result (λ of. IfSome of (λ edit. (kept : Option KeptEdit) × (found list.now.keys key.now ≡ Some kept) × SaysUse kept edit)) }
{
    match list.use_of(key) {
        Some(of) => Ok(Some(edit_listed(alloc, of)?)),
        None => Ok(None),
    }
}

/// The edit with this key. None where no edit has it, and then none ever will: the keeper of the store hears that it is of none,
/// where it was not known. An error is that memory is short for that: then nothing is done.
pub fn resolved<R: Wait>(
    rt: &R,
    alloc: Global,
    notebook: &mut Notebook<'_>,
    key: &[u8],
) -> Result<Option<ListedEdit>, CallRefusal>
    ensures resolved { HasResolved key.now (notes_in notebook.old) (resolved_view result) (notes_in notebook.new) }
    ensures heard { notebook.new.heard ≡ notebook.old.heard }
{
    let mut backlog = notebook.take_turn(rt);
    match use_in(alloc, backlog.show(notebook), key) {
        Ok(Some(edit)) => Ok(edit),
        Ok(None) => {
            let end = spend(alloc, &mut backlog, notebook, key);
            notebook.wake();
            end
        }
        Err(_) => Err(CallRefusal::NoMemory),
    }
}
