// Which orders go along the references of their sheets: those of components do, whatever circles there are. Their clause would
// let a recalculation end without an order.

use crate::sheets::Sheet as Kind;
use ds_eval::sheet::Sheet;
use ds_formula::cells::Shape;
use ds_formula::content::Content;
use ds_formula::reading::read_content;
use ds_order::along::goes_along;
use ds_order::known::KnownReferences;
use ds_order::order::order;
use std::alloc::Global;
use std::test::Fail;

// What the cells of a sheet of this kind hold.
fn contents(alloc: Global, kind: Kind, shape: Shape) -> Result<Sheet, Fail> {
    let cells = shape.count();
    let mut contents = Vec::new(alloc);
    for _ in 0..cells {
        contents.push(Content::Blank)?;
    }
    for place in 0..cells {
        let text = kind.text(alloc, place, shape)?;
        let Ok(content) = read_content(alloc, &shape, text.as_bytes()) else {
            return Err(Fail::from("a text that has no content"));
        };
        if let Some(at) = contents.get_mut(kind.cell(place, cells)) {
            *at = content;
        }
    }
    if contents.len() != cells {
        return Err(Fail::from("not a content for each cell"));
    }
    Ok(Sheet::new(shape, contents))
}

// What is known of the references of a sheet of this kind.
fn known(alloc: Global, kind: Kind, shape: Shape) -> Result<KnownReferences, Fail> {
    let known = KnownReferences::new(alloc, shape)?;
    let cells = shape.count();
    for place in 0..cells {
        let text = kind.text(alloc, place, shape)?;
        let cell = kind.cell(place, cells);
        if cell < cells {
            known.note(alloc, shape.cell(cell), text.as_bytes());
        }
    }
    Ok(known)
}

// Whether the order of what is known goes along the references of a sheet of this kind.
fn goes(alloc: Global, kind: Kind, shape: Shape, known: &KnownReferences) -> Result<bool, Fail> {
    let sheet = contents(alloc, kind, shape)?;
    let order = order(alloc, known, sheet.shape.count())?;
    Ok(goes_along(alloc, &sheet, order.as_slice())?)
}

#[test]
fn components_go_along(rt: HostRuntime) -> Result<(), Fail> {
    let shape = Shape::new(16, 16).ok_or("no shape")?;
    for kind in [
        Kind::Chain,
        Kind::ChainAgainst,
        Kind::ChainShuffled,
        Kind::SumsAbove,
        Kind::SumsBelow,
        Kind::AllAfter,
        Kind::Drawn,
        Kind::Circles(256),
        Kind::Circles(2),
        Kind::Circles(1),
        Kind::CirclesInARow(16),
        Kind::DrawnWithCircles,
        Kind::All,
    ] {
        let known = known(rt.alloc(), kind, shape)?;
        assert!(rt;
            goes(rt.alloc(), kind, shape, &known)?,
            "components, inputs first"
        );
    }
    Ok(())
}

#[test]
fn other_orders_do_not(rt: HostRuntime) -> Result<(), Fail> {
    let shape = Shape::new(16, 16).ok_or("no shape")?;
    let nothing = KnownReferences::new(rt.alloc(), shape)?;
    for kind in [Kind::ChainAgainst, Kind::SumsBelow, Kind::AllAfter] {
        assert!(rt;
            !goes(rt.alloc(), kind, shape, &nothing)?,
            "cells before their inputs"
        );
    }
    Ok(())
}
