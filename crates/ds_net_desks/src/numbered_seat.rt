//! The seat of a process of a sheet that is served, with the numbers that its clients know.

ghost use Rattle.std.specs.Prelude.{◌≡◌, ◌<◌, All, IfOk, List, map};
ghost use Rattle.std.specs.String.{string_bytes};
ghost use Rattle.ds_server.specs.Replies.{set_view};
ghost use Rattle.ds_net_desks.specs.Counting.{last_seen, number_seen, other_seen};
ghost use Rattle.ds_net_desks.specs.NumberedSeats.{seen_at};
ghost use Rattle.ds_net_desks.specs.SeatsOfStores.{AreNumberedBy, seats_below, seats_in};
ghost use Rattle.ds_store.specs.Stores.{GoesOn};
ghost use Rattle.ds_store_journal.specs.Journals.{KeptEdit};

use crate::numbering::{Numbering, numberings};
use ds_server::desk::CallRefusal;
use ds_shared_seats::seat::Seat;
use ds_state::answer::{EditEnd, Other};
use ds_state::recovery::LastEdit;
use ds_store::fault::StoreFault;
use ds_store::store::Store;
use sqlite::Alter;
use std::alloc::{AllocError, Global};

/// The seat of a process, by which numbers clients know the edits of each process, and of which of the server's sheets it
/// is, from 0.
#[derive(Drop)]
pub struct NumberedSeat {
    pub seat: Seat,
    pub numberings: Vec<Numbering>,
    pub epoch: u64,
}

// The number by which clients know this edit of the process.
pub(crate) fn number_seen(numberings: &[Numbering], process: usize, number: usize) -> usize
    ensures { result ≡ number_seen numberings.now process number }
{
    match numberings.get(process) {
        Some(numbering) => numbering.number(number),
        None => number,
    }
}

// An edit of another process, as clients know it.
fn other_seen(numberings: &[Numbering], by: Other) -> Other
    ensures { result ≡ other_seen numberings.now by }
{
    Other {
        process: by.process,
        number: number_seen(numberings, by.process, by.number),
    }
}

impl NumberedSeat {
    /// The seat with these numberings, of the server's sheet of this epoch, from 0.
    pub fn new(seat: Seat, numberings: Vec<Numbering>, epoch: u64) -> NumberedSeat
        ensures { (result.seat ≡ seat) × (result.numberings ≡ numberings) × (result.epoch ≡ epoch) }
    {
        NumberedSeat {
            seat,
            numberings,
            epoch,
        }
    }

    /// Its process.
    pub fn process(&self) -> usize
        ensures { result ≡ self.now.seat.pass.process }
    {
        self.seat.process()
    }

    /// How an edit has ended, as clients know it.
    pub fn set_seen(&self, end: Result<EditEnd, CallRefusal>) -> Result<EditEnd, CallRefusal>
        ensures { set_view result ≡ seen_at self.now (set_view end) }
    {
        let process = self.process();
        match end {
            Ok(EditEnd::Done(number)) => {
                Ok(EditEnd::Done(number_seen(&self.numberings, process, number)))
            }
            Ok(EditEnd::Overtaken(number, by)) => Ok(EditEnd::Overtaken(
                number_seen(&self.numberings, process, number),
                other_seen(&self.numberings, by),
            )),
            Err(why) => Err(why),
        }
    }

    /// The last edit of its process, as clients know it, where its sheet reports this one.
    pub fn last_seen(&self, last: Option<LastEdit>) -> Option<LastEdit>
        ensures { result ≡ last_seen self.now.numberings.items self.now.seat.pass.process last }
    {
        match self.numberings.get(self.process()) {
            Some(numbering) => numbering.last(last),
            None => last,
        }
    }

    /// Its seat goes back to the sheet.
    pub fn give_back(self) {
        let NumberedSeat { seat, .. } = self;
        seat.give_back();
    }
}

// The seats of the first processes, this number of them, with these numberings, of the server's sheet of this epoch. The other
// seats go back to the sheet.
fn numbered_seats(
    alloc: Global,
    seats: Vec<Seat>,
    joins: usize,
    numberings: &[Numbering],
    epoch: u64,
) -> Result<Vec<NumberedSeat>, AllocError>
    ensures numbered { IfOk result (λ all. All (λ n. (n.numberings.items ≡ numberings.now) × (n.epoch ≡ epoch) × (n.seat.pass.process < joins)) all.items) }
    ensures joined { IfOk result (λ all. seats_in all.items ≡ seats_below joins seats.items) }
{
    let mut all = Vec::with_capacity(alloc, joins)?;
    for seat in seats {
        if seat.process() >= joins {
            seat.give_back();
            continue;
        }
        let copy = Vec::from_slice(alloc, numberings)?;
        all.push(NumberedSeat::new(seat, copy, epoch))?;
    }
    Ok(all)
}

/// The seats of all processes of a store's sheet that may be joined, numbered as its lines say, of the server's sheet of this
/// epoch. The other seats go back to the sheet. An error is that of a line that is none of a journal, or of an allocation.
pub fn seats_of<S: Alter + Drop>(
    alloc: Global,
    store: &Store<S>,
    lines: &[String],
    seats: Vec<Seat>,
    epoch: u64,
) -> Result<Vec<NumberedSeat>, StoreFault>
    ensures joined { IfOk result (λ all. seats_in all.items ≡ seats_below store.now.joins seats.items) }
    ensures numbered { IfOk result (λ all. (edits : List KeptEdit) → GoesOn store.now.layout store.now.counts.counts.items (map string_bytes lines.now) edits
        → AreNumberedBy store.now.layout store.now.joins (map string_bytes lines.now) edits epoch all.items) }
{
    let numberings = numberings(alloc, store, lines)?;
    let all = numbered_seats(alloc, seats, store.joins(), &numberings, epoch)?;
    Ok(all)
}
