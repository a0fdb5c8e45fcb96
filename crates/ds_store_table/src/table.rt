//! The statements on the table of lines.

ghost use Rattle.std.specs.Prelude.{◌≡◌, ◌++◌, ◌∷◌, [], ℕ, List, IfErr, IfOk, IsTrue, OnOk};
ghost use Rattle.sqlite.specs.Held.{state};
ghost use Rattle.sqlite.specs.State.{FailsToQuery, HasCleanDisk, IsUnchanged, Survives};
ghost use Rattle.ds_store_table.specs.Statements.{Ran, creation, insertion, removal, select_text};
ghost use Rattle.ds_store_table.specs.Tables.{AreListed, HoldsInside, HoldsSome, IsBare, Numbered};

use sqlite::{Alter, Connection, Error, Row, Transaction, params};

/// Makes the table, which has no lines yet, in a database that has nothing.
pub(crate) fn create<S: Alter>(tx: &mut Transaction<'_, S>) -> Result<usize, Error>
    ensures same_reference { tx.new.conn.ghost_name ≡ tx.old.conn.ghost_name }
    ensures holds { HasCleanDisk (state S.Store tx.new.conn.now) → IsTrue (state S.Store tx.old.conn.now).in_transaction → IsBare (state S.Store tx.old.conn.now).now
        → OnOk result (HoldsInside [] (state S.Store tx.new.conn.now)) }
    ensures survives { Survives (state S.Store tx.old.conn.now) (state S.Store tx.new.conn.now) (λ _. ⊥) }
    ensures runs { HasCleanDisk (state S.Store tx.new.conn.now) → IsTrue (state S.Store tx.old.conn.now).in_transaction → Ran S.Store creation tx.old.conn.now tx.new.conn.now result }
{
    tx.execute(
        "CREATE TABLE journal (number INTEGER PRIMARY KEY, line TEXT NOT NULL) STRICT",
        &[],
    )
}

/// Takes the table away, with all its lines: the database has nothing then.
pub(crate) fn remove<S: Alter>(tx: &mut Transaction<'_, S>) -> Result<usize, Error>
    ensures same_reference { tx.new.conn.ghost_name ≡ tx.old.conn.ghost_name }
    ensures bare { HasCleanDisk (state S.Store tx.new.conn.now) → (lines : List (List ℕ)) → HoldsInside lines (state S.Store tx.old.conn.now)
        → OnOk result (IsTrue (state S.Store tx.new.conn.now).in_transaction × IsBare (state S.Store tx.new.conn.now).now) }
    ensures survives { Survives (state S.Store tx.old.conn.now) (state S.Store tx.new.conn.now) (λ _. ⊥) }
    ensures runs { HasCleanDisk (state S.Store tx.new.conn.now) → IsTrue (state S.Store tx.old.conn.now).in_transaction → Ran S.Store removal tx.old.conn.now tx.new.conn.now result }
{
    tx.execute("DROP TABLE journal", &[])
}

/// Appends a line to the others.
pub(crate) fn add<S: Alter>(tx: &mut Transaction<'_, S>, line: &str) -> Result<usize, Error>
    ensures same_reference { tx.new.conn.ghost_name ≡ tx.old.conn.ghost_name }
    ensures holds { HasCleanDisk (state S.Store tx.new.conn.now) → (lines : List (List ℕ)) → HoldsInside lines (state S.Store tx.old.conn.now)
        → OnOk result (HoldsInside (lines ++ line.now ∷ []) (state S.Store tx.new.conn.now)) }
    ensures survives { Survives (state S.Store tx.old.conn.now) (state S.Store tx.new.conn.now) (λ _. ⊥) }
    ensures runs { HasCleanDisk (state S.Store tx.new.conn.now) → IsTrue (state S.Store tx.old.conn.now).in_transaction → Ran S.Store (insertion line.now) tx.old.conn.now tx.new.conn.now result }
{
    tx.execute("INSERT INTO journal (line) VALUES (?1)", params![line])
}

/// All lines, by their numbers: of each its number and its text.
pub(crate) fn rows<S: Alter>(conn: &mut Connection<S>) -> Result<Vec<Row>, Error>
    ensures shows { HasCleanDisk (state S.Store conn.new) → (all : List Numbered) → HoldsSome all (state S.Store conn.old).now
        → IfOk result (λ rows. AreListed all rows.items × IsUnchanged (state S.Store conn.old) (state S.Store conn.new)) }
    ensures err { HasCleanDisk (state S.Store conn.new) → IfErr result (FailsToQuery select_text [] (state S.Store conn.old) (state S.Store conn.new)) }
    ensures survives { (all : List Numbered) → HoldsSome all (state S.Store conn.old).now → Survives (state S.Store conn.old) (state S.Store conn.new) (λ _. ⊥) }
    ensures clean { HasCleanDisk (state S.Store conn.new) → HasCleanDisk (state S.Store conn.old) }
{
    conn.query_all("SELECT number, line FROM journal ORDER BY number", &[])
}
