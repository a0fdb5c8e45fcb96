//! What a copy of a store is made of.

ghost use Rattle.std.specs.Prelude.{◌≡◌, ◌⊎◌, List, ℕ, IfErr, IfOk, map};
ghost use Rattle.std.specs.String.{string_bytes};
ghost use Rattle.sqlite.specs.Held.{state};
ghost use Rattle.sqlite.specs.State.{HasCleanDisk};
ghost use Rattle.ds_layout.specs.declared.layout.Layout.{Layout};
ghost use Rattle.ds_store_keys.specs.Keys.{StandOnce, keys_of};
ghost use Rattle.ds_store_table.specs.Tables.{Holds};
ghost use Rattle.ds_store.specs.Keeping.{FailsToGive};
ghost use Rattle.ds_store.specs.Opened.{Leads};
ghost use Rattle.ds_store.specs.Unsound.{AreUnsound};
ghost use Rattle.ds_store.specs.declared.seated.SeatedSheet.{SeatedSheet};

use crate::fault::StoreFault;
use crate::replay::replayed;
use crate::summing::summed;
use ds_store_keys::table::KeyTable;
use ds_store_table::lines;
use sqlite::{Alter, Connection};
use std::alloc::Global;

/// The lines of the store in a database, all of them: they were followed, each in its turn, and have their sums; each key
/// stands once. An error says which line is missing, cannot be followed, or has another sum than that of the lines before it.
pub fn lines_of<S: Alter>(
    alloc: Global,
    conn: &mut Connection<S>,
) -> Result<Vec<String>, StoreFault>
    ensures leads { IfOk result (λ lines. (layout : Layout) × (counts : List ℕ) × (sheet : SeatedSheet) × Leads layout counts sheet (map string_bytes lines.items) × StandOnce (keys_of layout (map string_bytes lines.items))) }
    ensures held { HasCleanDisk (state S.Store conn.new) → (held : List (List ℕ)) → Holds held (state S.Store conn.old).now → IfOk result (λ lines. map string_bytes lines.items ≡ held) }
    ensures err { HasCleanDisk (state S.Store conn.new) → (held : List (List ℕ)) → Holds held (state S.Store conn.old).now
        → IfErr result (λ fault. FailsToGive held (state S.Store conn.old) (state S.Store conn.new) fault ⊎ AreUnsound held fault) }
{
    let lines = lines::read(alloc, conn)?;
    let leads = replayed(alloc, &lines)?;
    KeyTable::of_lines(alloc, &leads.layout, &lines)?;
    summed(alloc, &lines)?;
    Ok(lines)
}
