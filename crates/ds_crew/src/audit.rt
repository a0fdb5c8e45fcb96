//! Receipts against the edits that count.

ghost use Rattle.std.specs.Prelude.{◌≡◌, ◌↔◌, IsTrue, Contains, IfErr, OnOk};
ghost use Rattle.ds_formula.specs.Cells.{IsInside};
ghost use Rattle.ds_crew.specs.Audits.{AreRight, Audits, IsWrong, Stands, edit_of};

use crate::ended::Receipt;
use ds_formula::cells::Shape;
use ds_state::ledger::Edit;
use ds_state::world::World;

/// Why receipts do not fit a world. Places in the list of receipts are from 0.
#[derive(Clone, Copy, Debug, PartialEq, Eq)]
pub enum AuditFault {
    /// The edit of the receipt at this place does not count.
    Missing(usize),
    /// The receipt at this place stands in the list before.
    Twice(usize),
    /// There are other than as many receipts as edits were answered Done.
    Count {
        /// How many receipts there are.
        receipts: usize,
        /// How many edits were answered Done.
        acknowledged: u64,
    },
}

// Whether a receipt is of this edit, on a sheet of this shape.
fn is_of(receipt: &Receipt, shape: Shape, edit: &Edit) -> bool
    requires { IsInside shape receipt.now.cell }
    ensures { IsTrue result ↔ (edit.now ≡ edit_of shape receipt.now) }
{
    edit.process == receipt.process
        && edit.number == receipt.number
        && edit.cell == shape.index(receipt.cell)
        && edit.text.as_slice() == receipt.text.as_slice()
}

// Whether the edit of a receipt counts.
fn stands(shape: Shape, counted: &[Edit], receipt: &Receipt) -> bool
    ensures { IsTrue result ↔ Stands shape counted.now receipt.now }
{
    shape.contains(receipt.cell) && counted.iter().any(|edit| is_of(receipt, shape, edit))
}

// Whether two receipts are the same.
fn same(a: &Receipt, b: &Receipt) -> bool
    ensures { IsTrue result ↔ (a.now ≡ b.now) }
{
    a.process == b.process
        && a.number == b.number
        && a.cell == b.cell
        && a.text.as_slice() == b.text.as_slice()
}

// Whether a receipt is one of these.
fn is_among(receipts: &[Receipt], receipt: &Receipt) -> bool
    ensures { IsTrue result ↔ Contains receipts.now receipt.now }
{
    receipts.iter().any(|other| same(other, receipt))
}

// Whether the receipts are right: each stands, and none is there twice. Else the first that is not.
fn check(shape: Shape, counted: &[Edit], receipts: &[Receipt]) -> Result<(), AuditFault>
    ensures right { OnOk result (AreRight shape counted.now receipts.now) }
    ensures wrong { IfErr result (IsWrong shape counted.now receipts.now) }
{
    for place in 0..receipts.len() {
        let receipt = &receipts[place];
        if !stands(shape, counted, receipt) {
            return Err(AuditFault::Missing(place));
        }
        if is_among(&receipts[..place], receipt) {
            return Err(AuditFault::Twice(place));
        }
    }
    Ok(())
}

/// Holds receipts against a world: at `Ok` they are right (each one's edit counts, with its cell and
/// its text, and none is there twice), they are as many as edits were answered Done, and it is that
/// number. At each receipt `Missing` goes before `Twice`; `Count` comes last. No memory is taken.
pub fn audit(world: &World, receipts: &[Receipt]) -> Result<u64, AuditFault>
    ensures { Audits world.now.sheet.layout.shape world.now.counted world.now.done receipts.now result }
{
    let shape = world.words.layout().shape;
    check(shape, &world.counted, receipts)?;
    if receipts.len() as u64 == world.done {
        Ok(world.done)
    } else {
        Err(AuditFault::Count {
            receipts: receipts.len(),
            acknowledged: world.done,
        })
    }
}
