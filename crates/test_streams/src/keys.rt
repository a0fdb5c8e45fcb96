// The lines that have keys, and what each key is of.

use ds_formula::cells::{Cell, Shape};
use ds_layout::layout::Layout;
use ds_store_journal::edit::AnsweredEdit;
use ds_store_journal::fault::JournalFault;
use ds_store_keys::line::{key_line, read_key};
use ds_store_keys::note::{KeyNote, KeyUse};
use ds_store_keys::notes::{are_carried, carried, notes_of};
use ds_store_keys::table::KeyTable;
use std::test::Fail;

const LAYOUT: Layout = Layout {
    shape: Shape {
        columns: 2,
        rows: 3,
    },
    processes: 2,
};

const B3: Cell = Cell { column: 1, row: 2 };

// A key of an edit of process 1.
fn of_edit(rt: &HostRuntime, key: &[u8], cell: Cell, text: &[u8]) -> Result<KeyNote, Fail> {
    Ok(KeyNote {
        key: Vec::from_slice(rt.alloc(), key)?,
        of: KeyUse::Edit(AnsweredEdit {
            process: 1,
            number: 9_007_199_254_740_991,
            cell,
            text: Vec::from_slice(rt.alloc(), text)?,
        }),
    })
}

// A key of no edit.
fn of_nothing(rt: &HostRuntime, key: &[u8]) -> Result<KeyNote, Fail> {
    Ok(KeyNote {
        key: Vec::from_slice(rt.alloc(), key)?,
        of: KeyUse::Nothing,
    })
}

// Whether this is the line of a key.
fn line_is(rt: &HostRuntime, note: &KeyNote, line: &str) -> bool {
    match key_line(rt.alloc(), &LAYOUT, note) {
        Ok(got) => got.as_str() == line,
        Err(_) => false,
    }
}

// Whether a key has no line.
fn has_no_line(rt: &HostRuntime, note: &KeyNote) -> bool {
    matches!(
        key_line(rt.alloc(), &LAYOUT, note),
        Err(JournalFault::Other)
    )
}

// The line of a key has that key, and what it is of.
#[test]
fn keys_are_written(rt: HostRuntime) -> Result<(), Fail> {
    assert!(&rt;
        line_is(
            &rt,
            &of_edit(&rt, b"order-17", B3, b"=1+2")?,
            "# key order-17 1 9007199254740991 B3 =1+2"
        )
    );
    assert!(&rt;
        line_is(
            &rt,
            &of_edit(&rt, b"a", B3, b"")?,
            "# key a 1 9007199254740991 B3 "
        )
    );
    assert!(&rt; line_is(&rt, &of_nothing(&rt, b"~!#")?, "# key ~!#"));
    Ok(())
}

// What is no key has no line, nor a key of an edit that the sheet cannot have.
#[test]
fn no_keys_are_not_written(rt: HostRuntime) -> Result<(), Fail> {
    assert!(&rt; has_no_line(&rt, &of_nothing(&rt, b"")?));
    assert!(&rt; has_no_line(&rt, &of_nothing(&rt, b"a b")?));
    assert!(&rt; has_no_line(&rt, &of_nothing(&rt, &[b'k'; 65])?));
    assert!(&rt;
        line_is(
            &rt,
            &of_nothing(&rt, &[b'k'; 64])?,
            "# key kkkkkkkkkkkkkkkkkkkkkkkkkkkkkkkkkkkkkkkkkkkkkkkkkkkkkkkkkkkkkkkk"
        )
    );
    assert!(&rt; has_no_line(&rt, &of_edit(&rt, b"a", Cell { column: 2, row: 0 }, b"7")?));
    assert!(&rt; has_no_line(&rt, &of_edit(&rt, b"a", B3, b"\xff")?));
    Ok(())
}

// Whether a line has no key.
fn has_no_key(line: &[u8]) -> bool {
    read_key(&LAYOUT, line).is_none()
}

// Lines that have no key.
#[test]
fn other_lines_have_no_key(rt: HostRuntime) -> Result<(), Fail> {
    assert!(&rt; has_no_key(b"sheet 2 3 2"));
    assert!(&rt; has_no_key(b"set 1 B3 7"));
    assert!(&rt; has_no_key(b"# before 1 3 B3"));
    assert!(&rt; has_no_key(b"# key"));
    assert!(&rt; has_no_key(b"# key "));
    assert!(&rt; has_no_key(b"# key a 1"));
    assert!(&rt; has_no_key(b"# key a 2 0 B3 7"));
    assert!(&rt; has_no_key(b"# key a 1 9007199254740992 B3 7"));
    assert!(&rt; has_no_key(b"# key a 1 0 C1 7"));
    assert!(&rt; !has_no_key(b"# key a"));
    assert!(&rt; !has_no_key(b"# key a 1 0 B3"));
    Ok(())
}

// A list of lines.
fn lines(rt: &HostRuntime, texts: &[&str]) -> Result<Vec<String>, Fail> {
    let mut lines = Vec::new(rt.alloc());
    for text in texts {
        lines.push(String::from_str(rt.alloc(), text)?)?;
    }
    Ok(lines)
}

// A table knows each key of the lines, and no other.
#[test]
fn keys_are_found(rt: HostRuntime) -> Result<(), Fail> {
    let lines = lines(
        &rt,
        &["sheet 2 3 2", "set 1 B3 7", "# key a 1 0 B3 7", "# key b"],
    )?;
    let Ok(mut table) = KeyTable::of_lines(rt.alloc(), &LAYOUT, &lines) else {
        panic!(&rt; "no table")
    };
    let Some(KeyUse::Edit(edit)) = table.find(b"a") else {
        panic!(&rt; "no edit")
    };
    assert!(&rt; edit.process == 1 && edit.number == 0 && edit.cell == B3);
    assert!(&rt; edit.text.as_slice() == b"7".as_slice());
    assert!(&rt; matches!(table.find(b"b"), Some(KeyUse::Nothing)));
    assert!(&rt; table.find(b"c").is_none());
    assert!(&rt; table.add(of_nothing(&rt, b"a")?) == Err(JournalFault::KeyAgain));
    assert!(&rt; matches!(table.find(b"a"), Some(KeyUse::Edit(_))));
    assert!(&rt; table.add(of_nothing(&rt, b"c")?) == Ok(()));
    assert!(&rt; matches!(table.find(b"c"), Some(KeyUse::Nothing)));
    Ok(())
}

// A key that stands twice is a fault of the second line.
#[test]
fn keys_stand_once(rt: HostRuntime) -> Result<(), Fail> {
    let lines = lines(&rt, &["sheet 2 3 2", "# key a", "", "# key a 0 0 A1 7"])?;
    let Err(fault) = KeyTable::of_lines(rt.alloc(), &LAYOUT, &lines) else {
        panic!(&rt; "no fault")
    };
    assert!(&rt; fault.number == 4 && fault.fault == JournalFault::KeyAgain);
    Ok(())
}

// All of few keys are taken along.
#[test]
fn keys_are_carried(rt: HostRuntime) -> Result<(), Fail> {
    let old = lines(&rt, &["# key a", "set 1 B3 7", "# key b 1 0 B3 7"])?;
    let new = lines(&rt, &["# key a", "# key b 1 0 B3 7"])?;
    let other = lines(&rt, &["# key a", "# key b 1 0 B3 8"])?;
    let old = notes_of(rt.alloc(), &LAYOUT, &old)?;
    assert!(&rt; carried(&old).len() == 2);
    assert!(&rt; are_carried(&old, &notes_of(rt.alloc(), &LAYOUT, &new)?));
    assert!(&rt; !are_carried(&old, &notes_of(rt.alloc(), &LAYOUT, &other)?));
    assert!(&rt; !are_carried(&old, &old[..old.len().min(1)]));
    Ok(())
}
