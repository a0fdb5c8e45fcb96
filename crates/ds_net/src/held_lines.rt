//! The lines of a store that goes over to a new sheet.

ghost use Rattle.std.specs.Prelude.{◌≡◌, ℕ, List, IfOk, map};
ghost use Rattle.std.specs.String.{string_bytes};
ghost use Rattle.sqlite.specs.Held.{state};
ghost use Rattle.sqlite.specs.State.{HasCleanDisk};
ghost use Rattle.ds_store.specs.GoingOver.{GoesOver};
ghost use Rattle.ds_store.specs.Opened.{Leads};
ghost use Rattle.ds_store_sums.specs.Taken.{IsAt};
ghost use Rattle.ds_store_table.specs.Tables.{Holds};

use ds_store::fault::StoreFault;
use ds_store::store::{NextSheet, Store};
use sqlite::Alter;
use std::alloc::Global;

/// The lines that a store holds, all of them: they are read from it, and nothing changes them.
#[derive(Drop)]
pub(crate) struct HeldLines {
    lines: Vec<String>,
}

impl HeldLines {
    /// Those of the store.
    pub(crate) fn of<S: Alter + Drop>(
        alloc: Global,
        store: &mut Store<S>,
    ) -> Result<HeldLines, StoreFault>
        ensures all { HasCleanDisk (state S.Store store.new.conn) → (held : List (List ℕ)) → Holds held (state S.Store store.old.conn).now
            → IfOk result (λ it. (map string_bytes it.lines.items ≡ held) × Holds held (state S.Store store.new.conn).now) }
        ensures clean { HasCleanDisk (state S.Store store.new.conn) → HasCleanDisk (state S.Store store.old.conn) }
    {
        let lines = store.lines(alloc)?;
        Ok(HeldLines { lines })
    }

    /// The store goes over to a new sheet, with the texts of the one that the lines have made.
    pub(crate) fn go_over<S: Alter + Drop>(
        self,
        alloc: Global,
        store: &mut Store<S>,
    ) -> Result<NextSheet, StoreFault>
        ensures over { IfOk result (λ next. GoesOver (map string_bytes self.lines.items) (map string_bytes next.lines.items)) }
        ensures leads { IfOk result (λ next. Leads store.new.layout store.new.counts.counts.items next.sheet (map string_bytes next.lines.items)) }
        ensures summed { IfOk result (λ next. IsAt store.new.sums (map string_bytes next.lines.items)) }
        ensures holds { IfOk result (λ next. HasCleanDisk (state S.Store store.new.conn) → Holds (map string_bytes self.lines.items) (state S.Store store.old.conn).now
            → Holds (map string_bytes next.lines.items) (state S.Store store.new.conn).now × Holds (map string_bytes next.lines.items) (state S.Store store.new.conn).committed) }
        ensures clean { HasCleanDisk (state S.Store store.new.conn) → HasCleanDisk (state S.Store store.old.conn) }
    {
        store.go_over(alloc, &self.lines)
    }
}
