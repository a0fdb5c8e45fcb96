//! Sheets that are held are made, their seats are taken, and they are closed and opened again.

ghost use Rattle.std.specs.Prelude.{◌≡◌, IfOk, IfErr, OnOk};
ghost use Rattle.ds_c.specs.Making.{CanNotMake};
ghost use Rattle.ds_c.specs.Sheets.{IsNewSheet, IsTaken, IsNotTaken, Closes, ClosesNot, Opens, OpensNot};

use crate::failure::Failure;
use crate::held::Held;
use ds_formula::cells::Shape;
use ds_layout::layout::Layout;
use ds_shared_seats::sheet::OpenSheet;
use std::alloc::Global;
use std::mem::replace;

/// A new sheet of this shape, in a box.
pub fn made(
    alloc: Global,
    columns: usize,
    rows: usize,
    processes: usize,
) -> Result<Box<Held>, Failure>
    ensures ok { IfOk result (λ held. IsNewSheet columns rows processes held.value) }
    ensures err { IfErr result (CanNotMake columns rows processes) }
{
    let Some(shape) = Shape::new(columns, rows) else {
        return Err(Failure::BadShape);
    };
    let Some(layout) = Layout::new(shape, processes) else {
        return Err(Failure::BadShape);
    };
    let Ok(sheet) = OpenSheet::make(alloc, layout) else {
        return Err(Failure::NoMemory);
    };
    match Box::new(alloc, Held::Sheet(sheet)) {
        Ok(held) => Ok(held),
        Err(_) => Err(Failure::NoMemory),
    }
}

// The seat of a process, taken from the sheet that is held, in a box that is there.
fn take_into(alloc: Global, held: &mut Held, process: usize, seat: &mut Held) -> Result<(), Failure>
    ensures ok { OnOk result (IsTaken process held.old held.new seat.new) }
    ensures err { IfErr result (λ why. IsNotTaken process held.old why held.new) }
{
    let Held::Sheet(sheet) = held else {
        return Err(Failure::WrongHolder);
    };
    match sheet.take(alloc, process) {
        Ok(taken) => {
            *seat = Held::Seat(taken);
            Ok(())
        }
        Err(fault) => Err(Failure::of(fault)),
    }
}

/// The seat of a process, taken from the sheet that is held, in a box.
pub fn take(alloc: Global, held: &mut Held, process: usize) -> Result<Box<Held>, Failure>
    ensures ok { IfOk result (λ seat. IsTaken process held.old held.new seat.value) }
    ensures err { IfErr result (λ why. IsNotTaken process held.old why held.new) }
{
    let Ok(mut seat) = Box::new(alloc, Held::Spent) else {
        return Err(Failure::NoMemory);
    };
    take_into(alloc, held, process, &mut seat)?;
    Ok(seat)
}

/// The sheet that is held is closed.
pub fn close(alloc: Global, held: &mut Held) -> Result<(), Failure>
    ensures ok { OnOk result (Closes held.old held.new) }
    ensures err { IfErr result (λ why. ClosesNot held.old why held.new) }
{
    match replace(held, Held::Spent) {
        Held::Sheet(sheet) => match sheet.close(alloc) {
            Ok(closed) => {
                *held = Held::Closed(closed);
                Ok(())
            }
            Err((sheet, fault)) => {
                *held = Held::Sheet(sheet);
                Err(Failure::of(fault))
            }
        },
        other => {
            *held = other;
            Err(Failure::WrongHolder)
        }
    }
}

/// The closed sheet that is held is opened again.
pub fn reopen(alloc: Global, held: &mut Held) -> Result<(), Failure>
    ensures ok { OnOk result (Opens held.old held.new) }
    ensures err { IfErr result (λ why. OpensNot held.old why held.new) }
{
    match replace(held, Held::Spent) {
        Held::Closed(closed) => match closed.reopen(alloc) {
            Ok(sheet) => {
                *held = Held::Sheet(sheet);
                Ok(())
            }
            Err(closed) => {
                *held = Held::Closed(closed);
                Err(Failure::NoMemory)
            }
        },
        other => {
            *held = other;
            Err(Failure::WrongHolder)
        }
    }
}
