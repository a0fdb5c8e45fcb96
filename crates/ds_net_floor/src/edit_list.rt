//! The edits that count, as clients know them.

ghost use Rattle.std.specs.Prelude.{◌≡◌, ◌≤◌, ◌++◌, ◌∷◌, [], List, ℕ, IfOk, IfSome, None, OnErr, OnOk, Some, drop, if◌then◌else◌, length, map, option_map, true};
ghost use Rattle.std.specs.Str.{bytes_eq};
ghost use Rattle.ds_store_keys.specs.Keys.{edit_of};
ghost use Rattle.ds_store_keys.specs.Tables.{found};
ghost use Rattle.ds_server.specs.Replies.{entry_view};
ghost use Rattle.ds_net_floor.specs.EditLists.{HadBefore, HasNoEdit, HasText, IsLastOf, NoneOf, TellsLast, part_of, told_as};

use ds_formula::cells::Cell;
use ds_server::desk::{History, ListedEdit};
use ds_store_journal::edit::AnsweredEdit;
use ds_store_journal::fault::JournalFault;
use ds_store_keys::note::{KeyNote, KeyUse};
use ds_store_keys::table::KeyTable;
use http_server::Log;
use std::alloc::{AllocError, Global};

/// The edits of the newest sheet of a server that count, in the order in which they count, as clients know them: those that
/// the lines of its store list when the sheet is opened, and then each one of which the keeper of the store has heard since; and
/// what the keys that clients gave their edits are of. It is made from the lines of a store alone: whoever has no store cannot put
/// another one in its place.
#[derive(Drop)]
pub struct EditList {
    edits: Vec<ListedEdit>,
    // As of which process the texts are listed that the sheet began with: as of none that there is.
    nobody: usize,
    // How many edits were listed when the sheet was opened.
    begun: usize,
    // What each key is of, by the numbers that clients know.
    keys: KeyTable,
    // For proofs alone: the edits that were heard of since, each with the number by which clients know it.
    since: Log<usize, AnsweredEdit>,
    ghost few: { begun ≤ length edits.items },
    ghost grows: { map entry_view (drop begun edits.items) ≡ map told_as since.items },
}

// A copy of the text of an edit.
fn text_of(alloc: Global, edit: &ListedEdit) -> Result<Vec<u8>, AllocError>
    ensures { IfOk result (λ text. text.items ≡ edit.now.text.items) }
{
    Vec::from_slice(alloc, edit.text.as_slice())
}

// A copy of an edit.
fn copied(alloc: Global, edit: &ListedEdit) -> Result<ListedEdit, AllocError>
    ensures { IfOk result (λ copy. entry_view copy ≡ entry_view edit.now) }
{
    Ok(ListedEdit {
        process: edit.process,
        number: edit.number,
        cell: edit.cell,
        text: text_of(alloc, edit)?,
    })
}

// Copies of edits.
fn all_copied(alloc: Global, edits: &[ListedEdit]) -> Result<Vec<ListedEdit>, AllocError>
    ensures { IfOk result (λ copies. map entry_view copies.items ≡ map entry_view edits.now) }
{
    let mut copies = Vec::with_capacity(alloc, edits.len())?;
    for edit in edits {
        copies.push(copied(alloc, edit)?)?;
    }
    Ok(copies)
}

// The last of these edits that is of the cell, and those before it.
fn last_of(edits: &[ListedEdit], cell: Cell) -> Option<(&ListedEdit, &[ListedEdit])>
    ensures some { IfSome result (λ found. IsLastOf cell (map entry_view edits.now) (map entry_view found.1.now) (entry_view found.0.now)) }
    ensures none { result ≡ None → NoneOf cell (map entry_view edits.now) }
{
    let mut rest = edits;
    while let Some((edit, before)) = rest.split_last() {
        if edit.cell == cell {
            return Some((edit, before));
        }
        rest = before;
    }
    None
}

// The text that the cell has after these edits, where it had none before them.
fn text_after(alloc: Global, edits: &[ListedEdit], cell: Cell) -> Result<Vec<u8>, AllocError>
    ensures { IfOk result (λ text. HasText cell (map entry_view edits.now) text.items) }
{
    match last_of(edits, cell) {
        Some((edit, _)) => text_of(alloc, edit),
        None => Ok(Vec::new(alloc)),
    }
}

// The text that the cell had before the last of these edits that is of it. None where there is none, or it is of no process
// below this one.
fn text_before(
    alloc: Global,
    edits: &[ListedEdit],
    nobody: usize,
    cell: Cell,
) -> Result<Option<Vec<u8>>, AllocError>
    ensures some { IfOk result (λ before. IfSome before (λ text. HadBefore nobody cell (map entry_view edits.now) text.items)) }
    ensures none { IfOk result (λ before. before ≡ None → HasNoEdit nobody cell (map entry_view edits.now)) }
{
    let Some((edit, before)) = last_of(edits, cell) else {
        return Ok(None);
    };
    if edit.process >= nobody {
        return Ok(None);
    }
    let text = text_after(alloc, before, cell)?;
    Ok(Some(text))
}

// The edits from this place on, where the first has place 0; at most this number of them.
fn part_of(edits: &[ListedEdit], from: usize, most: usize) -> &[ListedEdit]
    ensures { map entry_view result.now ≡ part_of from most (map entry_view edits.now) }
{
    if from >= edits.len() {
        return &[];
    }
    let (_, rest) = edits.split_at(from);
    if most >= rest.len() {
        return rest;
    }
    let (part, _) = rest.split_at(most);
    part
}

/// Whether both are the same edit, or there is none.
pub fn is_same(one: &Option<ListedEdit>, other: &Option<ListedEdit>) -> bool
    ensures { result ≡ true → option_map entry_view one.now ≡ option_map entry_view other.now }
{
    match (one, other) {
        (Some(one), Some(other)) => {
            one.process == other.process
                && one.number == other.number
                && one.cell == other.cell
                && one.text.as_slice() == other.text.as_slice()
        }
        (None, None) => true,
        (Some(_), None) | (None, Some(_)) => false,
    }
}

impl EditList {
    // Of a sheet that is opened, with these edits and these keys. Texts that it began with are as of this process, which is none
    // of it.
    pub(crate) fn of(edits: Vec<ListedEdit>, nobody: usize, keys: KeyTable) -> EditList
        ensures { (result.edits ≡ edits) × (result.nobody ≡ nobody) × (result.keys ≡ keys) × (result.begun ≡ length edits.items) × (result.since.items ≡ []) }
    {
        let begun = edits.len();
        EditList {
            edits,
            nobody,
            begun,
            keys,
            since: Log::new(),
        }
    }

    // Room for one edit more.
    pub(crate) fn reserve(&mut self) -> Result<(), AllocError>
        ensures edits { self.new.edits.items ≡ self.old.edits.items }
        ensures rest { (self.new.nobody ≡ self.old.nobody) × (self.new.begun ≡ self.old.begun) × (self.new.keys ≡ self.old.keys) × (self.new.since ≡ self.old.since) }
    {
        self.edits.reserve(1)
    }

    // The keeper hears of an edit, which clients know by this number, with a copy of its text. An error is that there is no
    // room for it.
    pub(crate) fn hear(
        &mut self,
        number: usize,
        edit: &AnsweredEdit,
        text: Vec<u8>,
    ) -> Result<(), AllocError>
        requires { text.items ≡ edit.now.text }
        ensures listed { OnOk result (map entry_view self.new.edits.items ≡ map entry_view self.old.edits.items ++ told_as (number, edit.now) ∷ []) }
        ensures since { OnOk result (self.new.since.items ≡ self.old.since.items ++ (number, edit.now) ∷ []) }
        ensures rest { (self.new.nobody ≡ self.old.nobody) × (self.new.begun ≡ self.old.begun) × (self.new.keys ≡ self.old.keys) }
    {
        let listed = ListedEdit {
            process: edit.process,
            number,
            cell: edit.cell,
            text,
        };
        self.edits.push(listed)?;
        self.since = self.since.and(&number, edit);
        Ok(())
    }

    // A key is of this from now on. The fault is `KeyAgain` where it is known, and `NoMemory`: then each key is of what it was of.
    pub(crate) fn note(&mut self, note: KeyNote) -> Result<(), JournalFault>
        ensures added { OnOk result ((key : List ℕ) → found self.new.keys key ≡ (if bytes_eq key note.key then Some note.edit else found self.old.keys key)) }
        ensures unchanged { OnErr result ((key : List ℕ) → found self.new.keys key ≡ found self.old.keys key) }
        ensures edits { self.new.edits ≡ self.old.edits }
        ensures rest { (self.new.nobody ≡ self.old.nobody) × (self.new.begun ≡ self.old.begun) × (self.new.since ≡ self.old.since) }
    {
        self.keys.add(note)
    }

    /// What a key is of; none where no edit has it, and it is not known to be of none.
    pub fn use_of(&self, key: &[u8]) -> Option<&KeyUse>
        ensures { option_map (λ of. edit_of of.now) result ≡ found self.now.keys key.now }
    {
        self.keys.find(key)
    }

    /// The part of the list from this place on, where the first edit has place 0, of at most this number of edits.
    pub fn part(&self, alloc: Global, from: usize, most: usize) -> Result<History, AllocError>
        ensures part { IfOk result (λ h. map entry_view h.edits.items ≡ part_of from most (map entry_view self.now.edits.items)) }
        ensures of { IfOk result (λ h. h.of ≡ length (map entry_view self.now.edits.items)) }
    {
        let edits = all_copied(alloc, part_of(&self.edits, from, most))?;
        Ok(History {
            edits,
            of: self.edits.len(),
        })
    }

    /// The last edit of the cell, if one is listed.
    pub fn last(&self, alloc: Global, cell: Cell) -> Result<Option<ListedEdit>, AllocError>
        ensures { IfOk result (λ edit. TellsLast cell (map entry_view self.now.edits.items) (option_map entry_view edit)) }
    {
        match last_of(&self.edits, cell) {
            Some((edit, _)) => Ok(Some(copied(alloc, edit)?)),
            None => Ok(None),
        }
    }

    /// The text that the cell had before its last edit: the empty one where that is its first. None where no edit of it is
    /// listed, or where the sheet began with its text.
    pub fn text_before(&self, alloc: Global, cell: Cell) -> Result<Option<Vec<u8>>, AllocError>
        ensures some { IfOk result (λ before. IfSome before (λ text. HadBefore self.now.nobody cell (map entry_view self.now.edits.items) text.items)) }
        ensures none { IfOk result (λ before. before ≡ None → HasNoEdit self.now.nobody cell (map entry_view self.now.edits.items)) }
    {
        text_before(alloc, &self.edits, self.nobody, cell)
    }
}
