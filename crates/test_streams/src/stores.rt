// Stores keep keys with their edits, and go on with them.

use ds_formula::cells::{Cell, Shape};
use ds_layout::layout::Layout;
use ds_store::compact::compact;
use ds_store::fault::StoreFault;
use ds_store::store::{Opened, Store};
use ds_store_journal::edit::AnsweredEdit;
use ds_store_journal::fault::JournalFault;
use ds_store_keys::note::{KeyNote, KeyUse};
use sqlite::{Connection, MemStore};
use std::test::Fail;

const LAYOUT: Layout = Layout {
    shape: Shape {
        columns: 2,
        rows: 3,
    },
    processes: 2,
};

const A1: Cell = Cell { column: 0, row: 0 };

// An edit of process 1 with this number.
fn edit(rt: &HostRuntime, number: usize, text: &[u8]) -> Result<AnsweredEdit, Fail> {
    Ok(AnsweredEdit {
        process: 1,
        number,
        cell: A1,
        text: Vec::from_slice(rt.alloc(), text)?,
    })
}

// A key of this edit, or of none.
fn key(rt: &HostRuntime, key: &[u8], of: KeyUse) -> Result<KeyNote, Fail> {
    Ok(KeyNote {
        key: Vec::from_slice(rt.alloc(), key)?,
        of,
    })
}

// A new store in memory.
fn made(rt: &HostRuntime) -> Result<Option<Store<MemStore>>, Fail> {
    let conn = Connection::open_in_memory(rt.alloc())?;
    match Store::make(rt.alloc(), conn, LAYOUT) {
        Ok(opened) => Ok(Some(opened.store)),
        Err(_) => Ok(None),
    }
}

// Keeps an edit with this number and this key.
fn keep(
    rt: &HostRuntime,
    store: &mut Store<MemStore>,
    number: usize,
    named: &[u8],
) -> Result<Result<usize, StoreFault>, Fail> {
    let mut edits = Vec::new(rt.alloc());
    edits.push(edit(rt, number, b"7")?)?;
    let mut keys = Vec::new(rt.alloc());
    keys.push(key(rt, named, KeyUse::Edit(edit(rt, number, b"7")?))?)?;
    Ok(match store.keep_all(rt.alloc(), edits, keys) {
        Ok(committed) => Ok(committed.count()),
        Err(fault) => Err(fault),
    })
}

// Whether a store has this key of the edit of process 1 with this number.
fn has(store: &Store<MemStore>, named: &[u8], number: usize) -> bool {
    match store.find_key(named) {
        Some(KeyUse::Edit(edit)) => edit.process == 1 && edit.number == number && edit.cell == A1,
        Some(KeyUse::Nothing) | None => false,
    }
}

// The store of the same database, opened again.
fn again(rt: &HostRuntime, store: Store<MemStore>) -> Result<Opened<MemStore>, StoreFault> {
    Store::open(rt.alloc(), store.into_database())
}

// Whether lines have one with this text.
fn have(lines: &[String], text: &str) -> bool {
    lines.iter().any(|line| line.as_str() == text)
}

// An edit and its key are kept together, and found again.
#[test]
fn keys_are_kept(rt: HostRuntime) -> Result<(), Fail> {
    let Some(mut store) = made(&rt)? else {
        panic!(&rt; "no store")
    };
    assert!(&rt; store.find_key(b"a").is_none());
    assert!(&rt; keep(&rt, &mut store, 0, b"a")? == Ok(2));
    assert!(&rt; keep(&rt, &mut store, 1, b"b")? == Ok(2));
    let Ok(opened) = again(&rt, store) else {
        panic!(&rt; "not opened")
    };
    assert!(&rt; has(&opened.store, b"a", 0) && has(&opened.store, b"b", 1));
    assert!(&rt; opened.store.find_key(b"c").is_none());
    assert!(&rt; have(&opened.lines, "set 1 A1 7"));
    assert!(&rt;
        have(&opened.lines, "# key a 1 0 A1 7") && have(&opened.lines, "# key b 1 1 A1 7")
    );
    assert!(&rt; opened.lines.len() == 7);
    Ok(())
}

// A key that the store has is a fault, and nothing is committed.
#[test]
fn keys_are_kept_once(rt: HostRuntime) -> Result<(), Fail> {
    let Some(mut store) = made(&rt)? else {
        panic!(&rt; "no store")
    };
    assert!(&rt; keep(&rt, &mut store, 0, b"a")? == Ok(2));
    let refused = keep(&rt, &mut store, 1, b"a")?;
    assert!(&rt; refused == Err(StoreFault::Edit(JournalFault::KeyAgain)));
    let Ok(opened) = again(&rt, store) else {
        panic!(&rt; "not opened")
    };
    assert!(&rt; opened.store.edits_of(1) == 1 && opened.lines.len() == 4);
    Ok(())
}

// A key of no edit is kept without an edit.
#[test]
fn keys_of_no_edit_are_kept(rt: HostRuntime) -> Result<(), Fail> {
    let Some(mut store) = made(&rt)? else {
        panic!(&rt; "no store")
    };
    let mut keys = Vec::new(rt.alloc());
    keys.push(key(&rt, b"a", KeyUse::Nothing)?)?;
    let Ok(committed) = store.keep_all(rt.alloc(), Vec::new(rt.alloc()), keys) else {
        panic!(&rt; "not kept")
    };
    assert!(&rt; committed.count() == 1);
    let Ok(opened) = again(&rt, store) else {
        panic!(&rt; "not opened")
    };
    assert!(&rt; matches!(opened.store.find_key(b"a"), Some(KeyUse::Nothing)));
    assert!(&rt; have(&opened.lines, "# key a"));
    Ok(())
}

// After a store has gone over, and in a new store of its lines, each key is of what it was of.
#[test]
fn keys_go_on(rt: HostRuntime) -> Result<(), Fail> {
    let Some(mut store) = made(&rt)? else {
        panic!(&rt; "no store")
    };
    assert!(&rt; keep(&rt, &mut store, 0, b"a")? == Ok(2));
    assert!(&rt; keep(&rt, &mut store, 1, b"b")? == Ok(2));
    let Ok(mut opened) = again(&rt, store) else {
        panic!(&rt; "not opened")
    };
    let Ok(next) = opened.store.go_over(rt.alloc(), &opened.lines) else {
        panic!(&rt; "not gone over")
    };
    assert!(&rt; has(&opened.store, b"a", 0) && has(&opened.store, b"b", 1));
    assert!(&rt; have(&next.lines, "# before 1 2 A1") && have(&next.lines, "# key b 1 1 A1 7"));
    let Ok(opened) = again(&rt, opened.store) else {
        panic!(&rt; "not opened")
    };
    assert!(&rt; has(&opened.store, b"a", 0) && has(&opened.store, b"b", 1));
    let conn = Connection::open_in_memory(rt.alloc())?;
    let Ok(copy) = compact(rt.alloc(), &opened.lines, conn, "it") else {
        panic!(&rt; "no new store")
    };
    assert!(&rt; has(&copy.store, b"a", 0) && has(&copy.store, b"b", 1));
    Ok(())
}

// A store of lines with a key that stands twice is refused.
#[test]
fn keys_stand_once_in_a_store(rt: HostRuntime) -> Result<(), Fail> {
    let mut lines = Vec::new(rt.alloc());
    for text in ["sheet 2 3 2", "# key a", "# key b", "# key a 1 0 A1 7"] {
        lines.push(String::from_str(rt.alloc(), text)?)?;
    }
    let conn = Connection::open_in_memory(rt.alloc())?;
    let Err(fault) = Store::of_lines(rt.alloc(), conn, lines) else {
        panic!(&rt; "no fault")
    };
    assert!(&rt;
        fault
            == StoreFault::Line {
                number: 4,
                fault: JournalFault::KeyAgain,
            }
    );
    Ok(())
}
