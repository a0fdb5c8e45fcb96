// What sweeps cost, and that they end clean, by a model of one worker who is alone: what no clause says.

use crate::components::Found;
use crate::model::Model;
use crate::sheets::{Sheet, drawn};
use ds_formula::cells::Shape;
use ds_order::course::Course;
use ds_order::sweep::{Outcome, Sweep};
use std::alloc::Global;
use std::test::Fail;

// A sheet of rows of 16 cells, each cell of which is marked.
fn marked(alloc: Global, sheet: Sheet, rows: usize) -> Result<Model, Fail> {
    let shape = Shape::new(16, rows).ok_or("no shape")?;
    let mut model = Model::new(alloc, shape)?;
    let cells = shape.count();
    for place in 0..cells {
        let text = sheet.text(alloc, place, shape)?;
        model.set(alloc, sheet.cell(place, cells), text.as_str());
    }
    Ok(model)
}

// A sheet after a first sweep, at the end of which all is clean.
fn swept(alloc: Global, sheet: Sheet, rows: usize) -> Result<Model, Fail> {
    let mut model = marked(alloc, sheet, rows)?;
    let mut course = Course::new(alloc);
    course.renew(alloc, &model.known);
    if !model.sweep(&course, 0) {
        return Err(Fail::from("a sweep that does not end"));
    }
    if model.wrong() > 0 {
        return Err(Fail::from("a cell is not right after a sweep"));
    }
    Ok(model)
}

#[test]
fn chains(rt: HostRuntime) -> Result<(), Fail> {
    for sheet in [Sheet::Chain, Sheet::ChainAgainst, Sheet::ChainShuffled] {
        let model = swept(rt.alloc(), sheet, 64)?;
        assert_eq!(rt; model.works, 1024, "one work a cell");
    }
    Ok(())
}

#[test]
fn without_circles(rt: HostRuntime) -> Result<(), Fail> {
    for sheet in [
        Sheet::SumsAbove,
        Sheet::SumsBelow,
        Sheet::AllAfter,
        Sheet::Drawn,
    ] {
        let model = swept(rt.alloc(), sheet, 16)?;
        assert!(rt; model.references() > 700, "its texts are noted");
        assert_eq!(rt; model.works, 256, "one work a cell");
    }
    Ok(())
}

#[test]
fn with_circles(rt: HostRuntime) -> Result<(), Fail> {
    for (sheet, rows) in [
        (Sheet::Circles(1024), 64),
        (Sheet::Circles(16), 16),
        (Sheet::Circles(2), 16),
        (Sheet::Circles(1), 8),
        (Sheet::CirclesInARow(16), 32),
        (Sheet::DrawnWithCircles, 32),
        (Sheet::All, 8),
    ] {
        let model = swept(rt.alloc(), sheet, rows)?;
        let found = Found::new(rt.alloc(), &model.known)?;
        assert!(rt;
            model.works <= found.most(),
            "one work a cell, in a circle two, and N for each component with a circle"
        );
    }
    Ok(())
}

// How many cells of a sheet without marks a sweep from this place looks at, and how often in all.
fn looked(alloc: Global, sheet: Sheet, from: usize) -> Result<(usize, usize), Fail> {
    let model = marked(alloc, sheet, 4)?;
    let mut course = Course::new(alloc);
    course.renew(alloc, &model.known);
    let mut seen = Vec::new(alloc);
    seen.resize(64, false)?;
    let mut sweep = Sweep::new(&course, 64, from);
    let mut looks = 0usize;
    for _ in 0..1000 {
        let Some(cell) = sweep.cell() else {
            break;
        };
        if let Some(seen) = seen.get_mut(cell) {
            *seen = true;
        }
        looks = looks.wrapping_add(1);
        sweep.note(Outcome::Clean);
    }
    Ok((seen.iter().filter(|seen| **seen).count(), looks))
}

#[test]
fn each_cell(rt: HostRuntime) -> Result<(), Fail> {
    for from in [0, 1, 17, 63] {
        assert_eq!(rt; looked(rt.alloc(), Sheet::Chain, from)?, (64, 64), "once");
        assert_eq!(rt;
            looked(rt.alloc(), Sheet::ChainShuffled, from)?,
            (64, 64),
            "once"
        );
        assert_eq!(rt;
            looked(rt.alloc(), Sheet::Circles(16), from)?,
            (64, 128),
            "once on a closed way, and once more"
        );
        assert_eq!(rt;
            looked(rt.alloc(), Sheet::CirclesInARow(16), from)?,
            (64, 80),
            "the same of the first circle"
        );
    }
    Ok(())
}

// A short sweep names the cells that a whole one does, up to four for each.
#[test]
fn short_ones(rt: HostRuntime) -> Result<(), Fail> {
    let model = marked(rt.alloc(), Sheet::Circles(16), 4)?;
    let mut course = Course::new(rt.alloc());
    course.renew(rt.alloc(), &model.known);
    let mut whole = Sweep::new(&course, 64, 17);
    let mut short = Sweep::short(&course, 64, 17);
    for _ in 0..256 {
        assert!(rt; short.cell().is_some(), "four for each cell");
        assert_eq!(rt; short.cell(), whole.cell(), "the same cell");
        short.note(Outcome::Changed);
        whole.note(Outcome::Changed);
    }
    assert_eq!(rt; short.cell(), None, "no more");
    assert!(rt; whole.cell().is_some(), "a whole sweep goes on");
    Ok(())
}

// The works after an edit of a cell of a sheet that was clean, in a sweep at the end of which it is clean again.
fn after_edit(
    alloc: Global,
    sheet: Sheet,
    rows: usize,
    cell: usize,
    text: &str,
) -> Result<usize, Fail> {
    let mut model = swept(alloc, sheet, rows)?;
    model.set(alloc, cell, text);
    let mut course = Course::new(alloc);
    course.renew(alloc, &model.known);
    model.works = 0;
    if !model.settle(&course) || model.wrong() > 0 {
        return Err(Fail::from("a cell is not right after an edit and a settle"));
    }
    Ok(model.works)
}

#[test]
fn one_edit(rt: HostRuntime) -> Result<(), Fail> {
    for (sheet, rows, cell, text, most) in [
        (Sheet::Chain, 64, 0, "2", 1024),
        (Sheet::ChainAgainst, 64, 1023, "2", 1024),
        (Sheet::Drawn, 16, 128, "=[.A17]", 2),
        // These close circles.
        (Sheet::Chain, 64, 0, "=[.P64]", 2048),
        (Sheet::Chain, 64, 0, "=[.P32]", 2048),
        (Sheet::Chain, 64, 0, "=[.C1]", 2048),
        (Sheet::SumsBelow, 16, 255, "=[.A1]", 512),
        (Sheet::AllAfter, 16, 128, "=[.D3]", 512),
        (Sheet::Drawn, 64, 1023, "=[.H31]", 2048),
        // This breaks one.
        (Sheet::Circles(256), 16, 7, "1", 257),
    ] {
        let works = after_edit(rt.alloc(), sheet, rows, cell, text)?;
        assert!(rt;
            works <= most,
            "one work a cell, N in a new circle, and another work a cell"
        );
    }
    Ok(())
}

// The works after as many drawn edits of a sheet that was clean.
fn after_edits(
    alloc: Global,
    sheet: Sheet,
    rows: usize,
    edits: usize,
    draw: usize,
) -> Result<usize, Fail> {
    let mut model = swept(alloc, sheet, rows)?;
    let shape = Shape::new(16, rows).ok_or("no shape")?;
    let cells = shape.count();
    for edit in 0..edits {
        let cell = drawn(edit, draw, cells);
        let text = Sheet::DrawnWithCircles.text(
            alloc,
            drawn(edit, draw.wrapping_add(1), cells),
            shape,
        )?;
        model.set(alloc, cell, text.as_str());
    }
    let mut course = Course::new(alloc);
    course.renew(alloc, &model.known);
    model.works = 0;
    if !model.settle(&course) || model.wrong() > 0 {
        return Err(Fail::from("a cell is not right after edits and a settle"));
    }
    Ok(model.works)
}

#[test]
fn many_edits(rt: HostRuntime) -> Result<(), Fail> {
    for (sheet, rows) in [
        (Sheet::ChainShuffled, 16),
        (Sheet::SumsBelow, 16),
        (Sheet::Drawn, 16),
    ] {
        for draw in [20, 21] {
            for edits in [3, 10, 100] {
                let works = after_edits(rt.alloc(), sheet, rows, edits, draw)?;
                assert!(rt; works <= 3 * 256, "three works a cell");
            }
        }
    }
    Ok(())
}
