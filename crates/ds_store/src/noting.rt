//! The lines of keys that are to be kept.

ghost use Rattle.std.specs.Prelude.{◌≡◌, ◌++◌, ◌∷◌, [], ℕ, IfErr, List, OnOk, map};
ghost use Rattle.std.specs.String.{string_bytes};
ghost use Rattle.ds_store_journal.specs.Journals.{KeptEdit};
ghost use Rattle.ds_store_keys.specs.Keys.{KeptKey, keys_of};
ghost use Rattle.ds_store_keys.specs.Tables.{AreKeys};
ghost use Rattle.ds_store.specs.Keeping.{KeysHaveNoLines};
ghost use Rattle.ds_store.specs.Stores.{GoesOn};
ghost use Rattle.ds_store.specs.Summing.{HaveNoSums};

use ds_layout::layout::Layout;
use ds_store_journal::fault::JournalFault;
use ds_store_keys::line::key_line;
use ds_store_keys::note::KeyNote;
use ds_store_keys::table::KeyTable;
use std::alloc::Global;

// Adds a line to the others. The fault is that an allocation failed.
fn put_text(texts: &mut Vec<String>, line: String) -> Result<(), JournalFault>
    ensures put { OnOk result (texts.new.items ≡ texts.old.items ++ line ∷ []) }
    ensures fault { IfErr result (λ why. why ≡ JournalFault.NoMemory) }
{
    match texts.push(line) {
        Ok(()) => Ok(()),
        Err(_) => Err(JournalFault::NoMemory),
    }
}

// Adds the line of a key, which is in the table then. The fault is that the table has it already, or that it has no line.
fn put_note(
    alloc: Global,
    layout: &Layout,
    table: &mut KeyTable,
    note: &KeyNote,
    texts: &mut Vec<String>,
) -> Result<(), JournalFault>
    ensures journal { OnOk result ((counts : List ℕ) (held : List (List ℕ)) (edits : List KeptEdit) → GoesOn layout.now counts (held ++ map string_bytes texts.old.items) edits
        → GoesOn layout.now counts (held ++ map string_bytes texts.new.items) edits) }
    ensures keys { OnOk result (keys_of layout.now (map string_bytes texts.new.items) ≡ keys_of layout.now (map string_bytes texts.old.items) ++ note.now ∷ []) }
    ensures table { OnOk result ((before : List KeptKey) → AreKeys table.old before → AreKeys table.new (before ++ note.now ∷ [])) }
    ensures plain { OnOk result (HaveNoSums (map string_bytes texts.old.items) → HaveNoSums (map string_bytes texts.new.items)) }
    ensures unkept { (known : List KeptKey) → AreKeys table.old known → IfErr result (KeysHaveNoLines layout.now known (note.now ∷ [])) }
{
    let line = key_line(alloc, layout, note)?;
    table.add(note.copied(alloc)?)?;
    put_text(texts, line)
}

/// Adds the lines of keys, in their order; the table has them then. The fault is that of the first key that the table has
/// already, or that has no line.
pub(crate) fn put_notes(
    alloc: Global,
    layout: &Layout,
    table: &mut KeyTable,
    notes: &[KeyNote],
    texts: &mut Vec<String>,
) -> Result<(), JournalFault>
    ensures journal { OnOk result ((counts : List ℕ) (held : List (List ℕ)) (edits : List KeptEdit) → GoesOn layout.now counts (held ++ map string_bytes texts.old.items) edits
        → GoesOn layout.now counts (held ++ map string_bytes texts.new.items) edits) }
    ensures keys { OnOk result (keys_of layout.now (map string_bytes texts.new.items) ≡ keys_of layout.now (map string_bytes texts.old.items) ++ notes.now) }
    ensures table { OnOk result ((before : List KeptKey) → AreKeys table.old before → AreKeys table.new (before ++ notes.now)) }
    ensures plain { OnOk result (HaveNoSums (map string_bytes texts.old.items) → HaveNoSums (map string_bytes texts.new.items)) }
    ensures unkept { (known : List KeptKey) → AreKeys table.old known → IfErr result (KeysHaveNoLines layout.now known notes.now) }
{
    for note in notes {
        put_note(alloc, layout, table, note, texts)?;
    }
    Ok(())
}
