//! A store: a journal in a database.

ghost use Rattle.std.specs.List.{list_any};
ghost use Rattle.std.specs.Prelude.{◌≡◌, ◌⊎◌, ◌++◌, ◌∷◌, [], ℕ, List, false, nat_le, true, length, IfErr, IfOk, IsErr, IsTrue, None, OnErr, OnOk, map, option_map};
ghost use Rattle.std.specs.String.{string_bytes};
ghost use Rattle.sqlite.specs.Held.{state};
ghost use Rattle.sqlite.specs.State.{HasCleanDisk, Survives};
ghost use Rattle.ds_store_journal.specs.Joining.{joins_of};
ghost use Rattle.ds_store_journal.specs.Journals.{KeptEdit, edits_by, size_of};
ghost use Rattle.ds_store_keys.specs.Keys.{KeptKey, StandOnce, edit_of, key_in, keys_of};
ghost use Rattle.ds_store_keys.specs.Tables.{AreKeys, found};
ghost use Rattle.ds_store_journal.specs.Faults.{IsUnwritten};
ghost use Rattle.ds_store_sums.specs.Sums.{is_sum};
ghost use Rattle.ds_store_sums.specs.Taken.{IsAt};
ghost use Rattle.ds_store_table.specs.Tables.{Holds, IsBare};
ghost use Rattle.ds_store.specs.Opened.{Leads};
ghost use Rattle.ds_store.specs.GoingOver.{GoesOver, MayGoOver};
ghost use Rattle.ds_store.specs.Keeping.{FailsToGive, FailsToGoOver, FailsToKeepAll, HaveNoLines, MayBeNext, MayFollow};
ghost use Rattle.ds_store.specs.Stores.{GoesOn, MayKeep, size_seen};
ghost use Rattle.ds_store.specs.Summing.{HaveNoSums};
ghost use Rattle.ds_store.specs.Told.{told_of};
ghost use Rattle.ds_store.specs.Unsound.{AreUnsound};
ghost use Rattle.sqlite.specs.declared.error.Error.{Error};

use crate::committed::Committed;
use crate::fault::StoreFault;
use crate::going_over::next_lines;
use crate::noting::put_notes;
use crate::replay::{Replay, replayed};
use crate::seated::SeatedSheet;
use crate::summing::{sum_up, summed};
use ds_formula::cells::Shape;
use ds_layout::layout::Layout;
use ds_store_journal::counts::EditCounts;
use ds_store_journal::edit::AnsweredEdit;
use ds_store_journal::fault::JournalFault;
use ds_store_journal::joining::joins_of;
use ds_store_journal::journal::{edit_line, sheet_line};
use ds_store_keys::note::{KeyNote, KeyUse};
use ds_store_keys::table::KeyTable;
use ds_store_sums::sums::LineSums;
use ds_store_table::lines;
use sqlite::{Alter, Connection};
use std::alloc::Global;

/// A journal in a database. It goes on from the edits that its lines keep: of each process it knows how many they are. It
/// knows the keys that its lines have, and what each is of.
///
/// After an error nothing more is to be kept in it; what was committed stands.
#[derive(Drop)]
pub struct Store<S: Alter + Drop> {
    conn: Connection<S>,
    layout: Layout,
    joins: usize,
    counts: EditCounts,
    sums: LineSums,
    keys: KeyTable,
}

/// A store that is open, and the sheet that its edits have made.
#[derive(Drop)]
pub struct Opened<S: Alter + Drop> {
    /// The store.
    pub store: Store<S>,
    /// A new sheet, on which the edits that the store keeps were made again, one after another.
    pub sheet: SeatedSheet,
    /// The lines of the store's journal, all of them.
    pub lines: Vec<String>,
}

/// A sheet to which a store has gone over.
#[derive(Drop)]
pub struct NextSheet {
    /// A new sheet, on which the edits were made that give it its texts.
    pub sheet: SeatedSheet,
    /// The lines of the store's journal, all of them.
    pub lines: Vec<String>,
}

/// After how many edits of one of its processes a store is short: its sheet has room for 256.
pub const SHORT: usize = 240;

// The line of an edit that is to have the next number of its process.
fn kept(
    alloc: Global,
    layout: &Layout,
    counts: &mut EditCounts,
    edit: &AnsweredEdit,
) -> Result<String, JournalFault>
    ensures journal { IfOk result (λ line. (lines : List (List ℕ)) (edits : List KeptEdit) → GoesOn layout.now counts.old.counts.items lines edits
        → GoesOn layout.now counts.new.counts.items (lines ++ string_bytes line ∷ []) (edits ++ edit.now ∷ [])) }
    ensures keyless { IfOk result (λ line. key_in layout.now (string_bytes line) ≡ None) }
    ensures plain { IfOk result (λ line. is_sum (string_bytes line) ≡ false) }
    ensures each { length counts.new.counts.items ≡ length counts.old.counts.items }
    ensures unkept { (lines : List (List ℕ)) (edits : List KeptEdit) → GoesOn layout.now counts.old.counts.items lines edits → length counts.old.counts.items ≡ layout.now.processes
        → IfErr result (IsUnwritten (MayBeNext layout.now edits edit.now)) }
{
    if counts.count(edit.process) == Some(edit.number) {
        edit_line(alloc, layout, edit)
    } else {
        Err(JournalFault::Other)
    }
}

// The lines of edits, in their order. An error is that of the first edit that cannot be kept.
fn kept_all(
    alloc: Global,
    layout: &Layout,
    counts: &mut EditCounts,
    edits: &[AnsweredEdit],
) -> Result<Vec<String>, JournalFault>
    ensures journal { IfOk result (λ texts. (lines : List (List ℕ)) (before : List KeptEdit) → GoesOn layout.now counts.old.counts.items lines before
        → GoesOn layout.now counts.new.counts.items (lines ++ map string_bytes texts.items) (before ++ edits.now)) }
    ensures keyless { IfOk result (λ texts. keys_of layout.now (map string_bytes texts.items) ≡ []) }
    ensures plain { IfOk result (λ texts. HaveNoSums (map string_bytes texts.items)) }
    ensures each { length counts.new.counts.items ≡ length counts.old.counts.items }
    ensures unkept { (lines : List (List ℕ)) (before : List KeptEdit) → GoesOn layout.now counts.old.counts.items lines before → length counts.old.counts.items ≡ layout.now.processes
        → IfErr result (IsUnwritten (MayFollow layout.now before edits.now)) }
{
    let mut texts = Vec::with_capacity(alloc, edits.len())?;
    for edit in edits {
        let text = kept(alloc, layout, counts, edit)?;
        texts.push_reserved(text);
    }
    Ok(texts)
}

// The lines of edits, in their order, and after them those of keys. An error is that of the first one that cannot be kept.
fn lines_to_keep(
    alloc: Global,
    layout: &Layout,
    counts: &mut EditCounts,
    table: &mut KeyTable,
    edits: &[AnsweredEdit],
    keys: &[KeyNote],
) -> Result<Vec<String>, JournalFault>
    ensures journal { IfOk result (λ texts. (lines : List (List ℕ)) (before : List KeptEdit) → GoesOn layout.now counts.old.counts.items lines before
        → GoesOn layout.now counts.new.counts.items (lines ++ map string_bytes texts.items) (before ++ edits.now)) }
    ensures keys { IfOk result (λ texts. keys_of layout.now (map string_bytes texts.items) ≡ keys.now) }
    ensures table { OnOk result ((before : List KeptKey) → AreKeys table.old before → AreKeys table.new (before ++ keys.now)) }
    ensures plain { IfOk result (λ texts. HaveNoSums (map string_bytes texts.items)) }
    ensures each { length counts.new.counts.items ≡ length counts.old.counts.items }
    ensures unkept { (lines : List (List ℕ)) (before : List KeptEdit) (known : List KeptKey) → GoesOn layout.now counts.old.counts.items lines before → length counts.old.counts.items ≡ layout.now.processes
        → AreKeys table.old known → IfErr result (HaveNoLines layout.now before edits.now known keys.now) }
{
    let mut texts = kept_all(alloc, layout, counts, edits)?;
    put_notes(alloc, layout, table, keys, &mut texts)?;
    Ok(texts)
}

// Commits lines in a database that has nothing.
fn with_lines<S: Alter + Drop>(
    conn: Connection<S>,
    lines: &[String],
) -> Result<Connection<S>, StoreFault>
    ensures holds { IfOk result (λ made. HasCleanDisk (state S.Store made) → IsBare (state S.Store conn).now
        → Holds (map string_bytes lines.now) (state S.Store made).now × Holds (map string_bytes lines.now) (state S.Store made).committed) }
    ensures err { IfErr result (λ fault. (e : Error) × (fault ≡ told_of e)) }
{
    let mut conn = conn;
    lines::make(&mut conn, lines)?;
    Ok(conn)
}

impl<S: Alter + Drop> Store<S> {
    /// Makes the store of these lines, in a database that has nothing: they are followed first, each in its turn. An
    /// error says which line cannot be followed, or has another sum than that of the lines before it.
    pub fn of_lines(
        alloc: Global,
        conn: Connection<S>,
        lines: Vec<String>,
    ) -> Result<Opened<S>, StoreFault>
        ensures lines { IfOk result (λ opened. opened.lines ≡ lines) }
        ensures err { IfErr result (λ fault. AreUnsound (map string_bytes lines.items) fault ⊎ ((e : Error) × (fault ≡ told_of e))) }
        ensures leads { IfOk result (λ opened. Leads opened.store.layout opened.store.counts.counts.items opened.sheet (map string_bytes opened.lines.items)) }
        ensures counts { IfOk result (λ opened. length opened.store.counts.counts.items ≡ opened.store.layout.processes) }
        ensures summed { IfOk result (λ opened. IsAt opened.store.sums (map string_bytes opened.lines.items)) }
        ensures joins { IfOk result (λ opened. opened.store.joins ≡ joins_of opened.store.layout (map string_bytes opened.lines.items)) }
        ensures keys { IfOk result (λ opened. AreKeys opened.store.keys (keys_of opened.store.layout (map string_bytes opened.lines.items))) }
        ensures holds { IfOk result (λ opened. HasCleanDisk (state S.Store opened.store.conn) → IsBare (state S.Store conn).now
            → Holds (map string_bytes opened.lines.items) (state S.Store opened.store.conn).now × Holds (map string_bytes opened.lines.items) (state S.Store opened.store.conn).committed) }
    {
        let Replay {
            layout,
            counts,
            sheet,
        } = replayed(alloc, &lines)?;
        let sums = summed(alloc, &lines)?;
        let keys = KeyTable::of_lines(alloc, &layout, &lines)?;
        let joins = joins_of(&layout, &lines);
        let conn = with_lines(conn, &lines)?;
        Ok(Opened {
            store: Store {
                conn,
                layout,
                joins,
                counts,
                sums,
                keys,
            },
            sheet,
            lines,
        })
    }

    /// Makes the store of a new sheet of this layout, in a database that has nothing: its first line is committed. Where
    /// the database has something it is an error.
    pub fn make(alloc: Global, conn: Connection<S>, layout: Layout) -> Result<Opened<S>, StoreFault>
        ensures leads { IfOk result (λ opened. Leads opened.store.layout opened.store.counts.counts.items opened.sheet (map string_bytes opened.lines.items)) }
        ensures counts { IfOk result (λ opened. length opened.store.counts.counts.items ≡ opened.store.layout.processes) }
        ensures asked { IfOk result (λ opened. size_seen opened.store.layout opened.store.joins ≡ size_of layout) }
        ensures one { IfOk result (λ opened. length opened.lines.items ≡ 1) }
        ensures joins { IfOk result (λ opened. opened.store.joins ≡ joins_of opened.store.layout (map string_bytes opened.lines.items)) }
        ensures keys { IfOk result (λ opened. AreKeys opened.store.keys (keys_of opened.store.layout (map string_bytes opened.lines.items))) }
        ensures holds { IfOk result (λ opened. HasCleanDisk (state S.Store opened.store.conn) → IsBare (state S.Store conn).now
            → Holds (map string_bytes opened.lines.items) (state S.Store opened.store.conn).now × Holds (map string_bytes opened.lines.items) (state S.Store opened.store.conn).committed) }
    {
        let line = match sheet_line(alloc, &layout) {
            Ok(line) => line,
            Err(fault) => return Err(StoreFault::at_line(1, fault)),
        };
        let mut lines = Vec::with_capacity(alloc, 1)?;
        lines.push_reserved(line);
        let opened = Store::of_lines(alloc, conn, lines)?;
        asked(&opened.store, &layout)?;
        Ok(opened)
    }

    /// Opens the store in a database: all its lines are read, and followed, each in its turn. An error says which line
    /// is missing, cannot be followed, or has another sum than that of the lines before it.
    pub fn open(alloc: Global, conn: Connection<S>) -> Result<Opened<S>, StoreFault>
        ensures leads { IfOk result (λ opened. Leads opened.store.layout opened.store.counts.counts.items opened.sheet (map string_bytes opened.lines.items)) }
        ensures counts { IfOk result (λ opened. length opened.store.counts.counts.items ≡ opened.store.layout.processes) }
        ensures summed { IfOk result (λ opened. IsAt opened.store.sums (map string_bytes opened.lines.items)) }
        ensures joins { IfOk result (λ opened. opened.store.joins ≡ joins_of opened.store.layout (map string_bytes opened.lines.items)) }
        ensures keys { IfOk result (λ opened. AreKeys opened.store.keys (keys_of opened.store.layout (map string_bytes opened.lines.items))) }
        ensures holds { IfOk result (λ opened. HasCleanDisk (state S.Store opened.store.conn) → (held : List (List ℕ)) → Holds held (state S.Store conn).now
            → (map string_bytes opened.lines.items ≡ held) × Holds held (state S.Store opened.store.conn).now) }
    {
        let mut conn = conn;
        let lines = lines::read(alloc, &mut conn)?;
        let Replay {
            layout,
            counts,
            sheet,
        } = replayed(alloc, &lines)?;
        let sums = summed(alloc, &lines)?;
        let keys = KeyTable::of_lines(alloc, &layout, &lines)?;
        let joins = joins_of(&layout, &lines);
        Ok(Opened {
            store: Store {
                conn,
                layout,
                joins,
                counts,
                sums,
                keys,
            },
            sheet,
            lines,
        })
    }

    /// Keeps edits and keys, in their order: the lines of the edits, those of the keys, and one with the sum of all lines
    /// until then are committed together, all or none, when it returns. Each edit has the next number of its process, and
    /// each line was read again. A key that the store has is the fault `Edit(KeyAgain)`. After an error nothing was committed:
    /// the database holds what it held, where the connection is still open.
    pub fn keep_all(
        &mut self,
        alloc: Global,
        edits: Vec<AnsweredEdit>,
        keys: Vec<KeyNote>,
    ) -> Result<Committed, StoreFault>
        ensures committed { IfOk result (λ c. (c.edits ≡ edits) × (c.keys ≡ keys)) }
        ensures again { (before : List KeptKey) → AreKeys self.old.keys before → (StandOnce (before ++ keys.items) → ⊥) → IsErr result × (self.new.conn ≡ self.old.conn) }
        ensures layout { (self.new.layout ≡ self.old.layout) × (self.new.joins ≡ self.old.joins) }
        ensures kept { IfOk result (λ c. (lines : List (List ℕ))
            × ((held : List (List ℕ)) (before : List KeptEdit) → GoesOn self.old.layout self.old.counts.counts.items held before → IsAt self.old.sums held
            → GoesOn self.new.layout self.new.counts.counts.items (held ++ lines) (before ++ edits.items) × IsAt self.new.sums (held ++ lines))
            × ((held : List (List ℕ)) → IsAt self.old.sums held → AreKeys self.old.keys (keys_of self.old.layout held)
            → AreKeys self.new.keys (keys_of self.new.layout (held ++ lines)) × (keys_of self.new.layout (held ++ lines) ≡ keys_of self.old.layout held ++ keys.items))
            × (HasCleanDisk (state S.Store self.new.conn) → (held : List (List ℕ)) → Holds held (state S.Store self.old.conn).now
            → Holds (held ++ lines) (state S.Store self.new.conn).now × Holds (held ++ lines) (state S.Store self.new.conn).committed)) }
        ensures crash { (held : List (List ℕ)) (before : List KeptEdit) → GoesOn self.old.layout self.old.counts.counts.items held before → IsAt self.old.sums held → Holds held (state S.Store self.old.conn).now
            → Survives (state S.Store self.old.conn) (state S.Store self.new.conn) (MayKeep self.old.layout held before edits.items keys.items) }
        ensures clean { HasCleanDisk (state S.Store self.new.conn) → HasCleanDisk (state S.Store self.old.conn) }
        ensures each { length self.new.counts.counts.items ≡ length self.old.counts.counts.items }
        ensures err { HasCleanDisk (state S.Store self.new.conn) → (held : List (List ℕ)) (before : List KeptEdit) → GoesOn self.old.layout self.old.counts.counts.items held before
            → length self.old.counts.counts.items ≡ self.old.layout.processes → IsAt self.old.sums held → AreKeys self.old.keys (keys_of self.old.layout held)
            → IfErr result (FailsToKeepAll S.Store self.old.layout held before edits.items keys.items self.old.conn self.new.conn) }
        ensures undone { HasCleanDisk (state S.Store self.new.conn) → OnErr result (IsTrue (state S.Store self.new.conn).is_open → (state S.Store self.new.conn).now ≡ (state S.Store self.old.conn).now) }
    {
        let texts = lines_to_keep(
            alloc,
            &self.layout,
            &mut self.counts,
            &mut self.keys,
            &edits,
            &keys,
        )?;
        let texts = sum_up(alloc, &mut self.sums, texts)?;
        lines::append(&mut self.conn, &texts)?;
        Ok(Committed::of(edits, keys))
    }

    /// The lines that it holds, all of them.
    pub fn lines(&mut self, alloc: Global) -> Result<Vec<String>, StoreFault>
        ensures lines { HasCleanDisk (state S.Store self.new.conn) → (held : List (List ℕ)) → Holds held (state S.Store self.old.conn).now
            → IfOk result (λ lines. (map string_bytes lines.items ≡ held) × Holds held (state S.Store self.new.conn).now) }
        ensures rest { (self.new.layout ≡ self.old.layout) × (self.new.joins ≡ self.old.joins) × (self.new.counts ≡ self.old.counts) × (self.new.sums ≡ self.old.sums) × (self.new.keys ≡ self.old.keys) }
        ensures err { HasCleanDisk (state S.Store self.new.conn) → (held : List (List ℕ)) → Holds held (state S.Store self.old.conn).now
            → IfErr result (FailsToGive held (state S.Store self.old.conn) (state S.Store self.new.conn)) }
        ensures clean { HasCleanDisk (state S.Store self.new.conn) → HasCleanDisk (state S.Store self.old.conn) }
    {
        let lines = lines::read(alloc, &mut self.conn)?;
        Ok(lines)
    }

    /// Whether one of its processes has made 240 edits or more, of 256: it is time to go over to a new sheet.
    pub fn is_short(&self) -> bool
        ensures { result ≡ list_any (nat_le 240) self.now.counts.counts.items }
    {
        self.counts.has_at_least(SHORT)
    }

    /// Goes over to a new sheet with the texts of the one that these lines have made, which are those that it holds: they
    /// are replaced, all or none, when it returns. Each process that may be joined stands as it stood, and the last 65536
    /// keys are of what they were. After an error the database holds what it held, where the connection is still open.
    pub fn go_over(&mut self, alloc: Global, held: &[String]) -> Result<NextSheet, StoreFault>
        ensures leads { IfOk result (λ next. Leads self.new.layout self.new.counts.counts.items next.sheet (map string_bytes next.lines.items)) }
        ensures counts { OnOk result (length self.new.counts.counts.items ≡ self.new.layout.processes) }
        ensures summed { IfOk result (λ next. IsAt self.new.sums (map string_bytes next.lines.items)) }
        ensures joins { IfOk result (λ next. self.new.joins ≡ joins_of self.new.layout (map string_bytes next.lines.items)) }
        ensures keys { IfOk result (λ next. AreKeys self.new.keys (keys_of self.new.layout (map string_bytes next.lines.items))) }
        ensures over { IfOk result (λ next. GoesOver (map string_bytes held.now) (map string_bytes next.lines.items)) }
        ensures holds { IfOk result (λ next. HasCleanDisk (state S.Store self.new.conn) → Holds (map string_bytes held.now) (state S.Store self.old.conn).now
            → Holds (map string_bytes next.lines.items) (state S.Store self.new.conn).now × Holds (map string_bytes next.lines.items) (state S.Store self.new.conn).committed) }
        ensures crash { Holds (map string_bytes held.now) (state S.Store self.old.conn).now → Survives (state S.Store self.old.conn) (state S.Store self.new.conn) (MayGoOver (map string_bytes held.now)) }
        ensures clean { HasCleanDisk (state S.Store self.new.conn) → HasCleanDisk (state S.Store self.old.conn) }
        ensures err { HasCleanDisk (state S.Store self.new.conn) → IfErr result (FailsToGoOver S.Store (map string_bytes held.now) self.old.conn self.new.conn) }
        ensures undone { HasCleanDisk (state S.Store self.new.conn) → OnErr result (IsTrue (state S.Store self.new.conn).is_open → (state S.Store self.new.conn).now ≡ (state S.Store self.old.conn).now) }
    {
        let lines = next_lines(alloc, held, "the sheet before")?;
        let Replay {
            layout,
            counts,
            sheet,
        } = replayed(alloc, &lines)?;
        let sums = summed(alloc, &lines)?;
        let keys = KeyTable::of_lines(alloc, &layout, &lines)?;
        lines::replace(&mut self.conn, &lines)?;
        self.joins = joins_of(&layout, &lines);
        self.layout = layout;
        self.counts = counts;
        self.sums = sums;
        self.keys = keys;
        Ok(NextSheet { sheet, lines })
    }

    /// How many of its processes may be joined: the first ones.
    pub fn joins(&self) -> usize
        ensures { result ≡ self.now.joins }
    {
        self.joins
    }

    /// The shape of the sheet, and how many processes it has.
    pub fn layout(&self) -> Layout
        ensures { result ≡ self.now.layout }
    {
        self.layout
    }

    /// How many edits of the process it keeps. 0 of a process that the sheet has not.
    pub fn edits_of(&self, process: usize) -> usize
        ensures { (lines : List (List ℕ)) (edits : List KeptEdit) → GoesOn self.now.layout self.now.counts.counts.items lines edits → result ≡ edits_by process edits }
    {
        self.counts.of(process)
    }

    /// What a key is of; none where no line that it holds has it.
    pub fn find_key(&self, key: &[u8]) -> Option<&KeyUse>
        ensures { option_map (λ of. edit_of of.now) result ≡ found self.now.keys key.now }
    {
        self.keys.find(key)
    }

    /// The database.
    pub fn into_database(self) -> Connection<S>
        ensures { result ≡ self.conn }
    {
        self.conn
    }
}

/// Whether a database has nothing.
pub fn is_bare<S: Alter>(conn: &Connection<S>) -> bool
    ensures bare { result ≡ true → IsBare (state S.Store conn.now).now }
    ensures other { IsBare (state S.Store conn.now).now → result ≡ true }
{
    let schema = conn.schema();
    schema.tables.is_empty() && schema.indexes.is_empty() && schema.views.is_empty()
}

// That the sheet of a store has this layout: as many columns and rows, and as many processes that may be joined.
fn asked<S: Alter + Drop>(store: &Store<S>, layout: &Layout) -> Result<(), StoreFault>
    ensures { OnOk result (size_seen store.now.layout store.now.joins ≡ size_of layout.now) }
{
    let Shape { columns, rows, .. } = store.layout.shape;
    let processes = store.joins;
    if columns == layout.shape.columns
        && rows == layout.shape.rows
        && processes == layout.processes
    {
        Ok(())
    } else {
        Err(StoreFault::OtherSheet {
            columns,
            rows,
            processes,
        })
    }
}

/// The store in a database: made, for a new sheet of this layout, where the database has nothing; else opened, and its
/// sheet has to have that layout.
pub fn open_or_make<S: Alter + Drop>(
    alloc: Global,
    conn: Connection<S>,
    layout: Layout,
) -> Result<Opened<S>, StoreFault>
    ensures asked { IfOk result (λ opened. size_seen opened.store.layout opened.store.joins ≡ size_of layout) }
    ensures leads { IfOk result (λ opened. Leads opened.store.layout opened.store.counts.counts.items opened.sheet (map string_bytes opened.lines.items)) }
    ensures counts { IfOk result (λ opened. length opened.store.counts.counts.items ≡ opened.store.layout.processes) }
    ensures joins { IfOk result (λ opened. opened.store.joins ≡ joins_of opened.store.layout (map string_bytes opened.lines.items)) }
    ensures keys { IfOk result (λ opened. AreKeys opened.store.keys (keys_of opened.store.layout (map string_bytes opened.lines.items))) }
    ensures opens { IfOk result (λ opened. HasCleanDisk (state S.Store opened.store.conn) → (held : List (List ℕ)) → Holds held (state S.Store conn).now
        → (map string_bytes opened.lines.items ≡ held) × Holds held (state S.Store opened.store.conn).now) }
    ensures makes { IfOk result (λ opened. HasCleanDisk (state S.Store opened.store.conn) → IsBare (state S.Store conn).now
        → (length opened.lines.items ≡ 1) × Holds (map string_bytes opened.lines.items) (state S.Store opened.store.conn).now × Holds (map string_bytes opened.lines.items) (state S.Store opened.store.conn).committed) }
{
    if is_bare(&conn) {
        return Store::make(alloc, conn, layout);
    }
    let opened = Store::open(alloc, conn)?;
    asked(&opened.store, &layout)?;
    Ok(opened)
}
