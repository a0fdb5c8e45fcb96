//! A store that has gone over to a new sheet goes on where it was, and each key stands once.

ghost use Rattle.std.specs.Prelude.{◌≡◌, ◌≢◌, ◌<◌, ◌++◌, ◌∷◌, ◌≤◌, ℕ, List, Option, None, Some, length};
ghost use Rattle.ds_formula.specs.Cells.{count_of as cells_in};
ghost use Rattle.ds_store_journal.specs.Joining.{joins_of};
ghost use Rattle.ds_store_journal.specs.Journals.{KeptEdit};
ghost use Rattle.ds_store_journal.specs.Standings.{standing_from, standing_of};
ghost use Rattle.ds_store_keys.specs.Keys.{IsSaid, KEYS_MOST, KeptKey, StandOnce, carried, key_in, keys_of, use_of};
ghost use Rattle.ds_store_keys.specs.Tables.{AreKeys, found};
ghost use Rattle.ds_store_keys.specs.declared.table.KeyTable.{KeyTable};
ghost use Rattle.ds_layout.specs.declared.layout.Layout.{Layout};
ghost use Rattle.ds_store.specs.GoingOver.{GoesOver};
ghost use Rattle.ds_store.specs.Texts.{text_after, text_at};

/// After a store has gone over to a new sheet, whatever lines follow: each process that may be joined stands as if these
/// had followed the old lines; and each cell has the text that it would have if these edits had followed the old ones.
pub fn stores_go_on()
    ensures numbers { (old new more : List (List ℕ)) (over : GoesOver old new) (process : ℕ) → process < joins_of over.layout old
        → standing_of over.again process (new ++ more) ≡ standing_from over.again process (standing_of over.layout process old) more }
    ensures texts { (old new : List (List ℕ)) (over : GoesOver old new) (more : List KeptEdit) (cell : ℕ) → cell < cells_in over.layout.shape
        → text_at over.again.shape cell (over.texts.again ++ more) ≡ text_after over.again.shape cell (text_at over.layout.shape cell over.texts.edits) more }
{}

/// After a store has gone over to a new sheet, whatever lines follow: each key that it has taken along is of what it was of,
/// and the new lines have no other key; each of them stands once. Of 65536 keys or fewer it takes all along.
pub fn keys_go_on()
    ensures carried { (old new more : List (List ℕ)) (over : GoesOver old new) (key : List ℕ) (edit : Option KeptEdit) → StandOnce (keys_of over.layout old)
        → use_of key (carried (keys_of over.layout old)) ≡ Some edit → (use_of key (keys_of over.layout old) ≡ Some edit) × (use_of key (keys_of over.again (new ++ more)) ≡ Some edit) }
    ensures others { (old new : List (List ℕ)) (over : GoesOver old new) (key : List ℕ) → use_of key (carried (keys_of over.layout old)) ≡ None → use_of key (keys_of over.again new) ≡ None }
    ensures all { (keys : List KeptKey) → length keys ≤ KEYS_MOST → carried keys ≡ keys }
    ensures once { (old new : List (List ℕ)) (over : GoesOver old new) → StandOnce (keys_of over.layout old) → StandOnce (keys_of over.again new) }
{}

/// In the lines that a store holds each key stands once, and what a key is of is what its line says: no two lines have one
/// key; what a line says of its key is found; and what is found, a line says.
pub fn keys_stand_once()
    ensures once { (table : KeyTable) (layout : Layout) (before between after : List (List ℕ)) (line again : List ℕ) (k j : KeptKey) → AreKeys table (keys_of layout (before ++ line ∷ (between ++ again ∷ after)))
        → key_in layout line ≡ Some k → key_in layout again ≡ Some j → k.key ≢ j.key }
    ensures said { (table : KeyTable) (layout : Layout) (before after : List (List ℕ)) (line : List ℕ) (k : KeptKey) → AreKeys table (keys_of layout (before ++ line ∷ after))
        → key_in layout line ≡ Some k → found table k.key ≡ Some k.edit }
    ensures says { (table : KeyTable) (layout : Layout) (lines : List (List ℕ)) (key : List ℕ) (edit : Option KeptEdit) → AreKeys table (keys_of layout lines)
        → found table key ≡ Some edit → IsSaid layout lines (record { key = key; edit = edit }) }
{}
