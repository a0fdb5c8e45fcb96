// The lines of journals, and the edits that they keep.

use ds_formula::cells::{Cell, Shape};
use ds_layout::layout::Layout;
use ds_store_journal::counts::EditCounts;
use ds_store_journal::edit::AnsweredEdit;
use ds_store_journal::fault::JournalFault;
use ds_store_journal::journal::{edit_line, read_edit, read_sheet, sheet_line};
use std::test::Fail;

const LAYOUT: Layout = Layout {
    shape: Shape {
        columns: 2,
        rows: 3,
    },
    processes: 2,
};

const B3: Cell = Cell { column: 1, row: 2 };

// The line that makes a sheet is read as that sheet, and as no edit.
#[test]
fn sheets_are_read_again(rt: HostRuntime) -> Result<(), Fail> {
    let Ok(line) = sheet_line(rt.alloc(), &LAYOUT) else {
        panic!(&rt; "no line")
    };
    assert!(&rt; line.as_str() == "sheet 2 3 2");
    assert!(&rt; read_sheet(line.as_bytes()) == Ok(LAYOUT));
    assert!(&rt; read_edit(&LAYOUT, line.as_bytes()).err() == Some(JournalFault::NoEdit));
    Ok(())
}

// Edits are numbered by their process.
#[test]
fn edits_are_counted_by_process(rt: HostRuntime) -> Result<(), Fail> {
    let mut counts = EditCounts::new(rt.alloc(), 2)?;
    assert!(&rt; counts.count(1) == Some(0));
    assert!(&rt; counts.count(1) == Some(1));
    assert!(&rt; counts.count(0) == Some(0));
    assert!(&rt; counts.count(2).is_none());
    assert!(&rt; counts.of(0) == 1 && counts.of(1) == 2 && counts.of(2) == 0);
    Ok(())
}

// The line of an edit, or why there is none.
fn line_is(
    rt: &HostRuntime,
    cell: Cell,
    text: &[u8],
    line: Result<&str, JournalFault>,
) -> Result<bool, Fail> {
    let edit = AnsweredEdit {
        process: 1,
        number: 0,
        cell,
        text: Vec::from_slice(rt.alloc(), text)?,
    };
    Ok(match (edit_line(rt.alloc(), &LAYOUT, &edit), line) {
        (Ok(got), Ok(line)) => got.as_str() == line,
        (Err(got), Err(fault)) => got == fault,
        _ => false,
    })
}

// The line of an edit asks for that edit; where it would not, there is none.
#[test]
fn edits_are_read_again(rt: HostRuntime) -> Result<(), Fail> {
    assert!(&rt; line_is(&rt, B3, b"=1+2", Ok("set 1 B3 =1+2"))?);
    assert!(&rt; line_is(&rt, B3, b"", Ok("set 1 B3 "))?);
    assert!(&rt;
        line_is(
            &rt,
            Cell { column: 2, row: 0 },
            b"7",
            Err(JournalFault::Other)
        )?
    );
    assert!(&rt; line_is(&rt, B3, b"\xff", Err(JournalFault::Other))?);
    Ok(())
}
