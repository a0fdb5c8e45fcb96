//! The edits that a store lists when a sheet is opened, as clients know them.

ghost use Rattle.std.specs.Prelude.{◌≡◌, IfOk, map};
ghost use Rattle.std.specs.String.{string_bytes};
ghost use Rattle.ds_server.specs.Replies.{entry_view};
ghost use Rattle.ds_store_edits.specs.JournalEdits as edits;
ghost use Rattle.ds_net_floor.specs.Listings.{IsListOf, listed_as, listed_from, listed_in};

use crate::edit_list::EditList;
use ds_layout::layout::Layout;
use ds_server::desk::ListedEdit;
use ds_store::fault::StoreFault;
use ds_store::store::Store;
use ds_store_edits::edits::{Entry, Maker, entries};
use ds_store_keys::table::KeyTable;
use sqlite::Alter;
use std::alloc::{AllocError, Global};

// An edit of a journal, with its place in the list.
fn listed(
    alloc: Global,
    nobody: usize,
    place: usize,
    entry: &Entry<'_>,
) -> Result<ListedEdit, AllocError>
    ensures { IfOk result (λ edit. entry_view edit ≡ listed_as nobody place (edits.entry_view entry.now)) }
{
    let Maker { process, number } = entry.maker.unwrap_or(Maker {
        process: nobody,
        number: place,
    });
    Ok(ListedEdit {
        process,
        number,
        cell: entry.cell,
        text: Vec::from_slice(alloc, entry.text)?,
    })
}

// These edits of a journal.
fn listed_all(
    alloc: Global,
    nobody: usize,
    entries: &[Entry<'_>],
) -> Result<Vec<ListedEdit>, AllocError>
    ensures { IfOk result (λ list. map entry_view list.items ≡ listed_from nobody 0 (map edits.entry_view entries.now)) }
{
    let mut list = Vec::with_capacity(alloc, entries.len())?;
    for entry in entries {
        let place = list.as_slice().len();
        let edit = listed(alloc, nobody, place, entry)?;
        list.push(edit)?;
    }
    Ok(list)
}

// The edits that these lines of a journal keep, oldest first. Texts that the sheet began with are as of the process `nobody`,
// which is none of it. An error is that of a line that is none of a journal, or of an allocation.
fn listed_in(
    alloc: Global,
    layout: &Layout,
    nobody: usize,
    lines: &[String],
) -> Result<Vec<ListedEdit>, StoreFault>
    ensures { IfOk result (λ list. map entry_view list.items ≡ listed_in layout.now nobody (map string_bytes lines.now)) }
{
    let (first, rest) = lines.split_at(lines.len().min(1));
    let entries = entries(alloc, layout, first, rest)?;
    let list = listed_all(alloc, nobody, &entries)?;
    Ok(list)
}

/// The list of a sheet that is opened: the edits that these lines of the store's journal keep, and their keys. An error is that of
/// a line that is none of a journal, or of an allocation.
pub fn list_of<S: Alter + Drop>(
    alloc: Global,
    store: &Store<S>,
    lines: &[String],
) -> Result<EditList, StoreFault>
    ensures { IfOk result (IsListOf store.now.layout store.now.joins (map string_bytes lines.now)) }
{
    let layout = store.layout();
    let nobody = store.joins();
    let edits = listed_in(alloc, &layout, nobody, lines)?;
    let keys = KeyTable::of_lines(alloc, &layout, lines)?;
    Ok(EditList::of(edits, nobody, keys))
}
