//! A server goes over to a new sheet.

ghost use Rattle.std.specs.Prelude.{ℕ, ◌++◌, List, IfOk, OnOk, map};
ghost use Rattle.std.specs.Arc.{arc_value};
ghost use Rattle.std.specs.String.{string_bytes};
ghost use Rattle.sqlite.specs.Held.{state};
ghost use Rattle.sqlite.specs.State.{HasCleanDisk};
ghost use Rattle.ds_store.specs.GoingOver.{GoesOver};
ghost use Rattle.ds_store_table.specs.Tables.{Holds};
ghost use Rattle.ds_net_floor.specs.declared.edit_list.EditList.{EditList};
ghost use Rattle.ds_net_desks.specs.SeatsOfStores.{AreSeatsOf};
ghost use Rattle.ds_net_desks.specs.declared.numbered_seat.NumberedSeat.{NumberedSeat};

use crate::held_lines::HeldLines;
use ds_net_desks::numbered_seat::{NumberedSeat, seats_of};
use ds_net_desks::seat_pool::SeatPool;
use ds_net_floor::edit_list::EditList;
use ds_net_floor::keeping::{Backlog, Batch, Keeping};
use ds_net_floor::listing::list_of;
use ds_shared_seats::sheet::OpenSheet;
use ds_store::fault::StoreFault;
use ds_store::store::Store;
use sqlite::Alter;
use std::alloc::Global;
use std::sync::Wait;

/// The sheet that is served now, the pool of its seats, and which of the server's sheets it is, from 0.
#[derive(Drop)]
pub(crate) struct ServedSheet<'a> {
    sheet: OpenSheet,
    pool: &'a SeatPool,
    epoch: u64,
}

// A sheet to which a store has gone over: the seats of its processes that may be joined, the list of its edits that count, and the
// lines of the store.
#[derive(Drop)]
struct NextSheet {
    sheet: OpenSheet,
    seats: Vec<NumberedSeat>,
    list: EditList,
    lines: Vec<String>,
}

// Keeps what the keeper has heard of and not taken yet, if there is anything.
fn keep_rest<S: Alter + Drop>(
    alloc: Global,
    keeping: &Keeping,
    backlog: &mut Backlog,
    store: &mut Store<S>,
) -> Result<(), StoreFault>
    ensures kept { OnOk result ((kept : List (List ℕ)) × (HasCleanDisk (state S.Store store.new.conn) → (held : List (List ℕ)) → Holds held (state S.Store store.old.conn).now
        → Holds (held ++ kept) (state S.Store store.new.conn).now)) }
    ensures clean { HasCleanDisk (state S.Store store.new.conn) → HasCleanDisk (state S.Store store.old.conn) }
{
    let batch = keeping.take_rest(alloc, backlog);
    if batch.is_empty() {
        return Ok(());
    }
    let Batch { edits, keys } = batch;
    let committed = store.keep_all(alloc, edits, keys)?;
    backlog.keep(committed);
    Ok(())
}

// The store goes over to a new sheet, the one of this epoch. Nobody edits meanwhile.
fn next_sheet<S: Alter + Drop>(
    alloc: Global,
    store: &mut Store<S>,
    epoch: u64,
) -> Result<NextSheet, StoreFault>
    ensures over { IfOk result (λ next. (held : List (List ℕ)) × GoesOver held (map string_bytes next.lines.items)) }
    ensures goes_over { IfOk result (λ next. HasCleanDisk (state S.Store store.new.conn) → (held : List (List ℕ)) → Holds held (state S.Store store.old.conn).now
        → GoesOver held (map string_bytes next.lines.items) × Holds (map string_bytes next.lines.items) (state S.Store store.new.conn).now × Holds (map string_bytes next.lines.items) (state S.Store store.new.conn).committed) }
    ensures clean { HasCleanDisk (state S.Store store.new.conn) → HasCleanDisk (state S.Store store.old.conn) }
    ensures seats { IfOk result (λ next. AreSeatsOf store.new.layout store.new.joins store.new.counts.counts.items store.new.sums (map string_bytes next.lines.items) epoch (arc_value next.sheet.sheet) next.seats.items next.list) }
{
    let held = HeldLines::of(alloc, store)?;
    let next = held.go_over(alloc, store)?;
    let (sheet, seats) = next.sheet.into_parts();
    let seats = seats_of(alloc, store, &next.lines, seats, epoch)?;
    let list = list_of(alloc, store, &next.lines)?;
    Ok(NextSheet {
        sheet,
        seats,
        list,
        lines: next.lines,
    })
}

impl<'a> ServedSheet<'a> {
    /// The first sheet of a server.
    pub(crate) fn new(sheet: OpenSheet, pool: &'a SeatPool) -> ServedSheet<'a> {
        ServedSheet {
            sheet,
            pool,
            epoch: 0,
        }
    }

    /// The server goes over to a new sheet with the same texts, in its store and for its sessions, while nobody edits: all
    /// that was done before is kept first. What is served then is the sheet of the store's new lines. An error is of the store,
    /// which has failed then.
    pub(crate) fn go_over<S: Alter + Drop, R: Wait>(
        &mut self,
        rt: &R,
        alloc: Global,
        keeping: &Keeping,
        store: &mut Store<S>,
    ) -> Result<(), StoreFault>
        ensures { OnOk result ((next : List (List ℕ))
            × ((seats : List NumberedSeat) × ((list : EditList) × AreSeatsOf store.new.layout store.new.joins store.new.counts.counts.items store.new.sums next self.new.epoch (arc_value self.new.sheet.sheet) seats list))
            × (HasCleanDisk (state S.Store store.new.conn) → (held : List (List ℕ)) → Holds held (state S.Store store.old.conn).now
            → ((kept : List (List ℕ)) × GoesOver (held ++ kept) next × Holds next (state S.Store store.new.conn).now × Holds next (state S.Store store.new.conn).committed))) }
    {
        let mut backlog = keeping.take_turn(rt);
        self.go_over_in_turn(rt, alloc, keeping, &mut backlog, store)?;
        keeping.wake_all();
        Ok(())
    }

    // The same in the turn to edit. The list is then that of the new lines, too.
    fn go_over_in_turn<S: Alter + Drop, R: Wait>(
        &mut self,
        rt: &R,
        alloc: Global,
        keeping: &Keeping,
        backlog: &mut Backlog,
        store: &mut Store<S>,
    ) -> Result<(), StoreFault>
        ensures { OnOk result ((next : List (List ℕ))
            × ((seats : List NumberedSeat) × AreSeatsOf store.new.layout store.new.joins store.new.counts.counts.items store.new.sums next self.new.epoch (arc_value self.new.sheet.sheet) seats backlog.new.list)
            × (HasCleanDisk (state S.Store store.new.conn) → (held : List (List ℕ)) → Holds held (state S.Store store.old.conn).now
            → ((kept : List (List ℕ)) × GoesOver (held ++ kept) next × Holds next (state S.Store store.new.conn).now × Holds next (state S.Store store.new.conn).committed))) }
    {
        keep_rest(alloc, keeping, backlog, store)?;
        let epoch = self.epoch.saturating_add(1);
        let next = next_sheet(alloc, store, epoch)?;
        let list = next.list;
        self.pool.go_over(rt, next.seats, epoch);
        backlog.go_over(list);
        self.sheet = next.sheet;
        self.epoch = epoch;
        Ok(())
    }

    /// The newest sheet.
    pub(crate) fn into_sheet(self) -> OpenSheet {
        let ServedSheet { sheet, .. } = self;
        sheet
    }
}
