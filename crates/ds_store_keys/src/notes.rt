//! Lists of keys.

ghost use Rattle.std.specs.Prelude.{◌≡◌, ◌++◌, ◌∷◌, [], List, ℕ, IfOk, OnOk, map, true, false};
ghost use Rattle.std.specs.String.{string_bytes};
ghost use Rattle.ds_store_keys.specs.Keys.{KEYS_MOST, carried, keys_of};
ghost use Rattle.ds_store_keys.specs.declared.notes.TheConstants as constants;

use crate::line::read_key;
use crate::note::{KeyNote, KeyUse};
use ds_layout::layout::Layout;
use ds_store_journal::edit::AnsweredEdit;
use std::alloc::{AllocError, Global};

/// How many keys a store takes along to a new sheet: the last ones.
pub const KEYS_LIMIT: usize = 65536;

// Adds the key that the next line has, if it has one.
fn add_key(
    alloc: Global,
    layout: &Layout,
    notes: &mut Vec<KeyNote>,
    line: &[u8],
) -> Result<(), AllocError>
    ensures { OnOk result ((lines : List (List ℕ)) → notes.old.items ≡ keys_of layout.now lines → notes.new.items ≡ keys_of layout.now (lines ++ line.now ∷ [])) }
{
    if let Some(read) = read_key(layout, line) {
        notes.push(read.note(alloc)?)?;
    }
    Ok(())
}

/// The keys that lines of a sheet of this layout have, in their order. An error is that an allocation failed.
pub fn notes_of(
    alloc: Global,
    layout: &Layout,
    lines: &[String],
) -> Result<Vec<KeyNote>, AllocError>
    ensures { IfOk result (λ notes. notes.items ≡ keys_of layout.now (map string_bytes lines.now)) }
{
    let mut notes = Vec::new(alloc);
    for line in lines {
        add_key(alloc, layout, &mut notes, line.as_bytes())?;
    }
    Ok(notes)
}

// Whether two edits are the same.
fn is_same_edit(edit: &AnsweredEdit, other: &AnsweredEdit) -> bool
    ensures same { result ≡ true → edit.now ≡ other.now }
    ensures other { result ≡ false → edit.now ≡ other.now → ⊥ }
{
    edit.process == other.process
        && edit.number == other.number
        && edit.cell == other.cell
        && edit.text.as_slice() == other.text.as_slice()
}

// Whether two keys are the same, and of the same.
fn is_same(note: &KeyNote, other: &KeyNote) -> bool
    ensures same { result ≡ true → note.now ≡ other.now }
    ensures other { result ≡ false → note.now ≡ other.now → ⊥ }
{
    let of_same = match (&note.of, &other.of) {
        (KeyUse::Edit(edit), KeyUse::Edit(other)) => is_same_edit(edit, other),
        (KeyUse::Nothing, KeyUse::Nothing) => true,
        (KeyUse::Edit(_), KeyUse::Nothing) | (KeyUse::Nothing, KeyUse::Edit(_)) => false,
    };
    of_same && note.key.as_slice() == other.key.as_slice()
}

// Whether both lists have the same keys, in the same order.
fn are_same(notes: &[KeyNote], others: &[KeyNote]) -> bool
    ensures same { result ≡ true → notes.now ≡ others.now }
    ensures other { result ≡ false → notes.now ≡ others.now → ⊥ }
{
    if notes.len() != others.len() {
        return false;
    }
    for number in 0..notes.len() {
        if !is_same(&notes[number], &others[number]) {
            return false;
        }
    }
    true
}

/// Those of these keys that a store takes along to a new sheet: the last 65536.
pub fn carried(notes: &[KeyNote]) -> &[KeyNote]
    ensures { result.now ≡ carried notes.now }
{
    &notes[notes.len().saturating_sub(KEYS_LIMIT)..]
}

/// Whether the keys after a change to a new sheet are those that were to be taken along.
pub fn are_carried(before: &[KeyNote], after: &[KeyNote]) -> bool
    ensures same { result ≡ true → after.now ≡ carried before.now }
    ensures other { result ≡ false → after.now ≡ carried before.now → ⊥ }
{
    are_same(after, carried(before))
}

/// The constants of this crate are the limits of the definitions.
pub fn constants_are_limits()
    ensures { constants.KEYS_LIMIT ≡ KEYS_MOST }
{}
