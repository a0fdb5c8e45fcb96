//! The lines of a journal in a database: made, added to, and read.

ghost use Rattle.std.specs.Prelude.{◌≡◌, ◌≢◌, ◌⊎◌, ◌++◌, ◌∷◌, [], ℕ, List, IfErr, IfOk, IsTrue, MatchOption, OnErr, OnOk, map};
ghost use Rattle.std.specs.String.{string_bytes};
ghost use Rattle.sqlite.specs.Held.{state};
ghost use Rattle.sqlite.specs.State.{HasCleanDisk, IsUnchanged, Survives};
ghost use Rattle.ds_store_table.specs.declared.lines.LinesFault.TheVariants.{NoMemory};
ghost use Rattle.ds_store_table.specs.Reading.{FailsToRead, FailsToTell, IsNoText, TellsMissing, fault_of};
ghost use Rattle.ds_store_table.specs.Statements.{FailsToKeep, RanInTurn, creation, insertion, removal};
ghost use Rattle.ds_store_table.specs.Tables.{AreBefore, AreFirst, AreListed, Holds, HoldsInside, HoldsSome, IsBare, MayHold, Numbered, RiseFrom, numbered, shown};

use crate::table;
use sqlite::{Alter, Connection, Error, ErrorCode, Row, Transaction};
use std::alloc::{AllocError, Global};

/// Why lines cannot be read.
#[derive(Clone, Copy, Debug, PartialEq, Eq)]
pub enum LinesFault {
    /// The database gives this error; it has no such table, for one.
    Database(Error),
    /// The line of this number, from 1, is missing.
    Missing(usize),
    /// An allocation failed.
    NoMemory,
}

impl From<Error> for LinesFault {
    ghost from_gives = { λ error fault. fault ≡ fault_of error };

    fn from(error: Error) -> LinesFault {
        match error {
            Error::SqliteFailure(ErrorCode::OutOfMemory) => LinesFault::NoMemory,
            other => LinesFault::Database(other),
        }
    }
}

impl From<AllocError> for LinesFault {
    ghost from_gives = { λ _ fault. fault ≡ NoMemory };

    fn from(_error: AllocError) -> LinesFault {
        LinesFault::NoMemory
    }
}

const IN_TRANSACTION: Error = Error::SqliteFailure(ErrorCode::TransactionState);

// Appends lines to the others, in their order.
fn fill<S: Alter>(tx: &mut Transaction<'_, S>, lines: &[String]) -> Result<(), Error>
    ensures same_reference { tx.new.conn.ghost_name ≡ tx.old.conn.ghost_name }
    ensures holds { HasCleanDisk (state S.Store tx.new.conn.now) → (before : List (List ℕ)) → HoldsInside before (state S.Store tx.old.conn.now)
        → OnOk result (HoldsInside (before ++ map string_bytes lines.now) (state S.Store tx.new.conn.now)) }
    ensures survives { Survives (state S.Store tx.old.conn.now) (state S.Store tx.new.conn.now) (λ _. ⊥) }
    ensures runs { HasCleanDisk (state S.Store tx.new.conn.now) → IsTrue (state S.Store tx.old.conn.now).in_transaction → RanInTurn S.Store (map insertion (map string_bytes lines.now)) tx.old.conn.now tx.new.conn.now result }
{
    for line in lines {
        table::add(tx, line.as_str())?;
    }
    Ok(())
}

// Makes the table, with these lines.
fn fill_new<S: Alter>(tx: &mut Transaction<'_, S>, lines: &[String]) -> Result<(), Error>
    ensures same_reference { tx.new.conn.ghost_name ≡ tx.old.conn.ghost_name }
    ensures holds { HasCleanDisk (state S.Store tx.new.conn.now) → IsTrue (state S.Store tx.old.conn.now).in_transaction → IsBare (state S.Store tx.old.conn.now).now
        → OnOk result (HoldsInside (map string_bytes lines.now) (state S.Store tx.new.conn.now)) }
    ensures survives { Survives (state S.Store tx.old.conn.now) (state S.Store tx.new.conn.now) (λ _. ⊥) }
    ensures runs { HasCleanDisk (state S.Store tx.new.conn.now) → IsTrue (state S.Store tx.old.conn.now).in_transaction → RanInTurn S.Store (creation ∷ map insertion (map string_bytes lines.now)) tx.old.conn.now tx.new.conn.now result }
{
    table::create(tx)?;
    fill(tx, lines)
}

/// Makes the table in a database that has nothing, with these lines: all of it is committed, or nothing is. It is refused
/// where a transaction is under way.
pub fn make<S: Alter>(conn: &mut Connection<S>, lines: &[String]) -> Result<(), Error>
    ensures made { HasCleanDisk (state S.Store conn.new) → IsBare (state S.Store conn.old).now
        → OnOk result (Holds (map string_bytes lines.now) (state S.Store conn.new).now × Holds (map string_bytes lines.now) (state S.Store conn.new).committed) }
    ensures crash { IsBare (state S.Store conn.old).now → Survives (state S.Store conn.old) (state S.Store conn.new) (MayHold (map string_bytes lines.now)) }
    ensures clean { HasCleanDisk (state S.Store conn.new) → HasCleanDisk (state S.Store conn.old) }
    ensures err { HasCleanDisk (state S.Store conn.new) → IfErr result (FailsToKeep S.Store (creation ∷ map insertion (map string_bytes lines.now)) conn.old conn.new) }
    ensures undone { HasCleanDisk (state S.Store conn.new) → OnErr result (IsTrue (state S.Store conn.new).is_open → (state S.Store conn.new).now ≡ (state S.Store conn.old).now) }
{
    if !conn.is_autocommit() {
        return Err(IN_TRANSACTION);
    }
    let mut tx = conn.transaction();
    fill_new(&mut tx, lines)?;
    tx.commit()
}

/// Appends lines to those that are there: all are committed, or none is. It is refused where a transaction is under
/// way.
pub fn append<S: Alter>(conn: &mut Connection<S>, lines: &[String]) -> Result<(), Error>
    ensures added { HasCleanDisk (state S.Store conn.new) → (before : List (List ℕ)) → Holds before (state S.Store conn.old).now
        → OnOk result (Holds (before ++ map string_bytes lines.now) (state S.Store conn.new).now × Holds (before ++ map string_bytes lines.now) (state S.Store conn.new).committed) }
    ensures crash { (before : List (List ℕ)) → Holds before (state S.Store conn.old).now
        → Survives (state S.Store conn.old) (state S.Store conn.new) (MayHold (before ++ map string_bytes lines.now)) }
    ensures clean { HasCleanDisk (state S.Store conn.new) → HasCleanDisk (state S.Store conn.old) }
    ensures err { HasCleanDisk (state S.Store conn.new) → IfErr result (FailsToKeep S.Store (map insertion (map string_bytes lines.now)) conn.old conn.new) }
    ensures undone { HasCleanDisk (state S.Store conn.new) → OnErr result (IsTrue (state S.Store conn.new).is_open → (state S.Store conn.new).now ≡ (state S.Store conn.old).now) }
{
    if !conn.is_autocommit() {
        return Err(IN_TRANSACTION);
    }
    let mut tx = conn.transaction();
    fill(&mut tx, lines)?;
    tx.commit()
}

// Makes the table anew, with these lines alone.
fn fill_anew<S: Alter>(tx: &mut Transaction<'_, S>, lines: &[String]) -> Result<(), Error>
    ensures same_reference { tx.new.conn.ghost_name ≡ tx.old.conn.ghost_name }
    ensures holds { HasCleanDisk (state S.Store tx.new.conn.now) → (before : List (List ℕ)) → HoldsInside before (state S.Store tx.old.conn.now)
        → OnOk result (HoldsInside (map string_bytes lines.now) (state S.Store tx.new.conn.now)) }
    ensures survives { Survives (state S.Store tx.old.conn.now) (state S.Store tx.new.conn.now) (λ _. ⊥) }
    ensures runs { HasCleanDisk (state S.Store tx.new.conn.now) → IsTrue (state S.Store tx.old.conn.now).in_transaction → RanInTurn S.Store (removal ∷ creation ∷ map insertion (map string_bytes lines.now)) tx.old.conn.now tx.new.conn.now result }
{
    table::remove(tx)?;
    fill_new(tx, lines)
}

/// Puts these lines, numbered from 1, in place of those that are there: all of it is committed, or nothing is. It is
/// refused where a transaction is under way.
pub fn replace<S: Alter>(conn: &mut Connection<S>, lines: &[String]) -> Result<(), Error>
    ensures replaced { HasCleanDisk (state S.Store conn.new) → (before : List (List ℕ)) → Holds before (state S.Store conn.old).now
        → OnOk result (Holds (map string_bytes lines.now) (state S.Store conn.new).now × Holds (map string_bytes lines.now) (state S.Store conn.new).committed) }
    ensures crash { (before : List (List ℕ)) → Holds before (state S.Store conn.old).now
        → Survives (state S.Store conn.old) (state S.Store conn.new) (MayHold (map string_bytes lines.now)) }
    ensures clean { HasCleanDisk (state S.Store conn.new) → HasCleanDisk (state S.Store conn.old) }
    ensures err { HasCleanDisk (state S.Store conn.new) → IfErr result (FailsToKeep S.Store (removal ∷ creation ∷ map insertion (map string_bytes lines.now)) conn.old conn.new) }
    ensures undone { HasCleanDisk (state S.Store conn.new) → OnErr result (IsTrue (state S.Store conn.new).is_open → (state S.Store conn.new).now ≡ (state S.Store conn.old).now) }
{
    if !conn.is_autocommit() {
        return Err(IN_TRANSACTION);
    }
    let mut tx = conn.transaction();
    fill_anew(&mut tx, lines)?;
    tx.commit()
}

/// The first lines of a table.
#[derive(Drop)]
pub struct FirstLines {
    /// The lines, from number 1 on, in their order.
    pub lines: Vec<String>,
    /// The number after theirs, where it is missing, though the table has higher ones.
    pub missing: Option<usize>,
}

// The text of a row, where it has this number.
fn text_at(row: &Row, number: usize) -> Result<Option<String>, LinesFault>
    ensures is { (it : Numbered) → row.now ≡ shown it → IfOk result (λ text. MatchOption text (it.number ≢ number) (λ t. (it.number ≡ number) × (it.line ≡ string_bytes t))) }
    ensures err { (it : Numbered) → row.now ≡ shown it → IfErr result (λ fault. (fault ≡ NoMemory) ⊎ IsNoText fault it) }
{
    let shown: i64 = row.get(0)?;
    if usize::try_from(shown) != Ok(number) {
        return Ok(None);
    }
    let text: String = row.get(1)?;
    Ok(Some(text))
}

/// The lines that are there, in their order. They are those of the table, all of them; where one of the numbers from 1 on
/// is missing, it is named.
pub fn read<S: Alter>(alloc: Global, conn: &mut Connection<S>) -> Result<Vec<String>, LinesFault>
    ensures all { HasCleanDisk (state S.Store conn.new) → (lines : List (List ℕ)) → Holds lines (state S.Store conn.old).now
        → IfOk result (λ texts. (map string_bytes texts.items ≡ lines) × Holds lines (state S.Store conn.new).now) }
    ensures err { HasCleanDisk (state S.Store conn.new) → (lines : List (List ℕ)) → Holds lines (state S.Store conn.old).now
        → IfErr result (FailsToRead (numbered 1 lines) (state S.Store conn.old) (state S.Store conn.new)) }
    ensures some { HasCleanDisk (state S.Store conn.new) → (all : List Numbered) → HoldsSome all (state S.Store conn.old).now
        → IfOk result (λ texts. (all ≡ numbered 1 (map string_bytes texts.items)) × IsUnchanged (state S.Store conn.old) (state S.Store conn.new)) }
    ensures missing { HasCleanDisk (state S.Store conn.new) → (all : List Numbered) → HoldsSome all (state S.Store conn.old).now
        → IfErr result (λ fault. FailsToRead all (state S.Store conn.old) (state S.Store conn.new) fault ⊎ (IsUnchanged (state S.Store conn.old) (state S.Store conn.new) × TellsMissing all fault)) }
    ensures survives { (all : List Numbered) → HoldsSome all (state S.Store conn.old).now → Survives (state S.Store conn.old) (state S.Store conn.new) (λ _. ⊥) }
    ensures clean { HasCleanDisk (state S.Store conn.new) → HasCleanDisk (state S.Store conn.old) }
{
    let FirstLines { lines, missing } = read_first(alloc, conn)?;
    match missing {
        None => Ok(lines),
        Some(number) => Err(LinesFault::Missing(number)),
    }
}

/// The lines that are there, in their order, as far as no number is missing.
pub fn read_first<S: Alter>(
    alloc: Global,
    conn: &mut Connection<S>,
) -> Result<FirstLines, LinesFault>
    ensures first { HasCleanDisk (state S.Store conn.new) → (lines : List (List ℕ)) → Holds lines (state S.Store conn.old).now
        → IfOk result (λ first. AreFirst lines first × Holds lines (state S.Store conn.new).now) }
    ensures before { HasCleanDisk (state S.Store conn.new) → (all : List Numbered) → HoldsSome all (state S.Store conn.old).now
        → IfOk result (λ first. AreBefore all first × IsUnchanged (state S.Store conn.old) (state S.Store conn.new)) }
    ensures err { HasCleanDisk (state S.Store conn.new) → (all : List Numbered) → HoldsSome all (state S.Store conn.old).now
        → IfErr result (FailsToRead all (state S.Store conn.old) (state S.Store conn.new)) }
    ensures survives { (all : List Numbered) → HoldsSome all (state S.Store conn.old).now → Survives (state S.Store conn.old) (state S.Store conn.new) (λ _. ⊥) }
    ensures clean { HasCleanDisk (state S.Store conn.new) → HasCleanDisk (state S.Store conn.old) }
{
    let rows = table::rows(conn)?;
    first_of(alloc, &rows)
}

// The texts of rows, as far as they are numbered from 1 on.
fn first_of(alloc: Global, rows: &[Row]) -> Result<FirstLines, LinesFault>
    ensures before { (all : List Numbered) → RiseFrom 1 all → AreListed all rows.now → IfOk result (AreBefore all) }
    ensures err { (all : List Numbered) → RiseFrom 1 all → AreListed all rows.now → IfErr result (FailsToTell all) }
{
    let mut lines = Vec::with_capacity(alloc, rows.len())?;
    for row in rows {
        let number = lines.len() + 1;
        match text_at(row, number)? {
            Some(line) => lines.push_reserved(line),
            None => {
                return Ok(FirstLines {
                    lines,
                    missing: Some(number),
                });
            }
        }
    }
    Ok(FirstLines {
        lines,
        missing: None,
    })
}
