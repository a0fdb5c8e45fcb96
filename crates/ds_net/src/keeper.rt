//! The keeper of a store: it keeps the edits that the sessions of a server have made.

use crate::going_over::ServedSheet;
use ds_net_floor::door::Door;
use ds_net_floor::keeping::{Batch, Drained, Keeping, News};
use ds_store::committed::Committed;
use ds_store::fault::StoreFault;
use ds_store::store::Store;
use sqlite::Alter;
use std::alloc::Global;
use std::sync::Wait;
use std::time::{Clock, Instant};

/// What the thread that keeps does beside: between two commits, and four times a second at least. It may not wait.
pub trait Attendant {
    /// Looks after it.
    fn attend(&mut self);
}

// Commits what was heard, and counts how long that took.
fn commit<S: Alter + Drop, R: Clock>(
    rt: &R,
    alloc: Global,
    door: &Door,
    store: &mut Store<S>,
    batch: Batch,
) -> Result<Committed, StoreFault> {
    let Batch { edits, keys } = batch;
    let begun = Instant::now(rt).ok();
    let committed = store.keep_all(alloc, edits, keys)?;
    if let Some(begun) = begun
        && let Ok(took) = begun.elapsed(rt)
    {
        door.count_commit(took);
    }
    Ok(committed)
}

// Keeps the edits and the keys that it hears of, as many at once as have come, until no more come and all are kept. Where a process has
// few left, it goes over to a new sheet.
fn keep_on<S: Alter + Drop, R: Wait + Clock, T: Attendant>(
    rt: &R,
    alloc: Global,
    keeping: &Keeping,
    door: &Door,
    store: &mut Store<S>,
    served_sheet: &mut ServedSheet<'_>,
    attendant: &mut T,
) -> Result<Drained, StoreFault> {
    for _ in rt.forever() {
        attendant.attend();
        match keeping.take(rt, alloc) {
            News::Some(batch) => {
                let committed = commit(rt, alloc, door, store, batch)?;
                keeping.count(rt, committed);
                if store.is_short() {
                    served_sheet.go_over(rt, alloc, keeping, store)?;
                }
            }
            News::Nothing => {}
            News::Over => break,
        }
    }
    // Where all is kept as it ought to be, this is so; else the keeper could not hear of an edit.
    keeping.drained(rt).ok_or(StoreFault::NoMemory)
}

/// Keeps the edits that the sessions of a server make in its store, as many at once as have come, until the server has
/// ended and all are kept. Where some cannot be kept, nothing is kept any more: whoever waits for it hears so, and the
/// door asks the server to stop. Where a process has few edits left, it goes over to a new sheet. The attendant has its turn
/// between two commits.
pub(crate) fn keep<S: Alter + Drop, R: Wait + Clock, T: Attendant>(
    rt: &R,
    alloc: Global,
    keeping: &Keeping,
    door: &Door,
    store: &mut Store<S>,
    served_sheet: &mut ServedSheet<'_>,
    attendant: &mut T,
) -> Result<Drained, StoreFault> {
    let kept = keep_on(rt, alloc, keeping, door, store, served_sheet, attendant);
    if kept.is_err() {
        keeping.fail(rt);
        door.tell();
    }
    kept
}
