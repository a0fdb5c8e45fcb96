//! A new store of what an old one has come to.

ghost use Rattle.std.specs.Prelude.{◌≡◌, IfOk, length, map};
ghost use Rattle.std.specs.String.{string_bytes};
ghost use Rattle.sqlite.specs.Held.{state};
ghost use Rattle.sqlite.specs.State.{HasCleanDisk};
ghost use Rattle.ds_store_keys.specs.Keys.{keys_of};
ghost use Rattle.ds_store_keys.specs.Tables.{AreKeys};
ghost use Rattle.ds_store_table.specs.Tables.{Holds, IsBare};
ghost use Rattle.ds_store.specs.Opened.{Leads};
ghost use Rattle.ds_store.specs.GoingOver.{GoesOver};

use crate::fault::StoreFault;
use crate::going_over::next_lines;
use crate::store::{Opened, Store};
use sqlite::{Alter, Connection};
use std::alloc::Global;

/// Makes a store, in a database that has nothing, which goes on where these lines of a journal have ended: one edit for each
/// cell that has a text, by the processes in turn, how each process stood, and the last 65536 keys. A comment says of what
/// it has the texts.
pub fn compact<S: Alter + Drop>(
    alloc: Global,
    lines: &[String],
    conn: Connection<S>,
    origin: &str,
) -> Result<Opened<S>, StoreFault>
    ensures over { IfOk result (λ opened. GoesOver (map string_bytes lines.now) (map string_bytes opened.lines.items)) }
    ensures leads { IfOk result (λ opened. Leads opened.store.layout opened.store.counts.counts.items opened.sheet (map string_bytes opened.lines.items)) }
    ensures counts { IfOk result (λ opened. length opened.store.counts.counts.items ≡ opened.store.layout.processes) }
    ensures keys { IfOk result (λ opened. AreKeys opened.store.keys (keys_of opened.store.layout (map string_bytes opened.lines.items))) }
    ensures holds { IfOk result (λ opened. HasCleanDisk (state S.Store opened.store.conn) → IsBare (state S.Store conn).now → Holds (map string_bytes opened.lines.items) (state S.Store opened.store.conn).committed) }
{
    let next = next_lines(alloc, lines, origin)?;
    Store::of_lines(alloc, conn, next)
}
