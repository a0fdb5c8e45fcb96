//! How the edits of a process are numbered for its clients.

ghost use Rattle.std.specs.Prelude.{◌≡◌, List, IfOk, Some, map};
ghost use Rattle.std.specs.String.{string_bytes};
ghost use Rattle.ds_store_journal.specs.Journals.{KeptEdit};
ghost use Rattle.ds_store.specs.Stores.{GoesOn};
ghost use Rattle.ds_net_desks.specs.Counting.{last_by, number_by};
ghost use Rattle.ds_net_desks.specs.Numberings.{AreNumberings, Numbers};

use ds_formula::cells::Shape;
use ds_state::recovery::LastEdit;
use ds_store::fault::StoreFault;
use ds_store::store::Store;
use ds_store_journal::standing::Standing;
use ds_store_journal::standings::standings_of;
use sqlite::Alter;
use std::alloc::Global;

/// How the edits of a process are numbered for its clients: those of the sheets that the server has gone over from come
/// first.
#[derive(Clone, Copy, Debug, PartialEq, Eq)]
pub struct Numbering {
    /// How many edits its clients had made when the sheet was put up.
    pub edits: usize,
    /// The last one of these, if there is one.
    pub last: Option<LastEdit>,
    /// How many edits the process had made of the sheet by then.
    pub made: usize,
}

impl Numbering {
    /// Of a process that stood so, and has made that number of edits of a sheet of this shape.
    pub fn of(shape: Shape, standing: &Standing, made: usize) -> Numbering
        ensures { Numbers shape standing.now made result }
    {
        let last = match standing.last {
            Some(cell) if shape.contains(cell) => Some(LastEdit {
                number: standing.edits.saturating_sub(1),
                cell: shape.index(cell),
                counts: true,
            }),
            Some(_) | None => None,
        };
        Numbering {
            edits: standing.edits,
            last,
            made,
        }
    }

    /// The number by which clients know the edit of this number of the sheet.
    pub fn number(&self, number: usize) -> usize
        ensures { result ≡ number_by (Some self.now) number }
    {
        self.edits.saturating_add(number.saturating_sub(self.made))
    }

    /// The last edit as clients know it, where this is the last one that the sheet reports.
    pub fn last(&self, last: Option<LastEdit>) -> Option<LastEdit>
        ensures { result ≡ last_by (Some self.now) last }
    {
        match last {
            Some(edit) if edit.number >= self.made => Some(LastEdit {
                number: self.number(edit.number),
                ..edit
            }),
            Some(_) | None => self.last,
        }
    }
}

/// How each process is numbered for its clients, of a store of which these are the lines.
pub fn numberings<S: Alter + Drop>(
    alloc: Global,
    store: &Store<S>,
    lines: &[String],
) -> Result<Vec<Numbering>, StoreFault>
    ensures { IfOk result (λ numberings. (edits : List KeptEdit) → GoesOn store.now.layout store.now.counts.counts.items (map string_bytes lines.now) edits
        → AreNumberings store.now.layout (map string_bytes lines.now) edits numberings.items) }
{
    let layout = store.layout();
    let standings = standings_of(alloc, &layout, lines)?;
    let mut numberings = Vec::with_capacity(alloc, layout.processes)?;
    for process in 0..layout.processes {
        let made = store.edits_of(process);
        numberings.push_reserved(Numbering::of(layout.shape, &standings[process], made));
    }
    Ok(numberings)
}
