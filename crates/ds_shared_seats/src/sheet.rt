//! A sheet that threads share, with the seats that nobody has taken.

ghost use Rattle.std.specs.Prelude.{◌≡◌, map, All};
ghost use Rattle.std.specs.Arc.{arc_value};
ghost use Rattle.std.specs.List.{range_with_len};
ghost use Rattle.rtrb.specs.Ring.{received};
ghost use Rattle.ds_shared.specs.Answers.{IsOf, IsPastOf};
ghost use Rattle.ds_eval.specs.Code.{plain_code};
ghost use Rattle.std.specs.Coded.{codes};

use crate::fault::Fault;
use crate::housing::{gathered, housed, look, rings};
use crate::resting::RestingSheet;
use crate::ring::{Home, Ring};
use crate::seat::Seat;
use ds_layout::layout::Layout;
use ds_shared::pass::{Pass, Past};
use ds_shared::sheet::SharedSheet;
use std::alloc::{AllocError, Global};
use std::sync::Arc;

/// A sheet that threads share, in the hands of its owner: the seats that nobody has taken, and what was answered before it
/// was opened. It may go from thread to thread.
#[derive(Drop)]
pub struct OpenSheet {
    pub(crate) sheet: Arc<SharedSheet, Global>,
    pub(crate) layout: Layout,
    pub(crate) past: Past,
    pub(crate) homes: Vec<Home>,
    pub ghost fits: { layout ≡ (arc_value sheet).board.layout },
    pub ghost of: { IsPastOf (arc_value sheet) past } by { Prim.hlevel (codes, plain_code) },
    pub ghost own: { All (λ h. All (λ p. IsOf (arc_value sheet) p) (received h.end)) homes.items } by { Prim.hlevel (codes, plain_code) },
    pub ghost order: { map (λ h. h.process) homes.items ≡ range_with_len 0 layout.processes },
}

/// Room for the homes of the passes of a sheet.
#[derive(Drop)]
pub(crate) struct Room {
    rings: Vec<Ring>,
    homes: Vec<Home>,
}

impl Room {
    ghost use Rattle.std.specs.Prelude.{[], IfOk, length, vec_capacity};

    /// Room for that number of homes. An error is that an allocation failed.
    pub(crate) fn make(alloc: Global, processes: usize) -> Result<Room, AllocError>
        ensures { IfOk result (λ r. (length r.rings.items ≡ processes) × (r.homes.items ≡ []) × (vec_capacity r.homes ≡ processes)) }
    {
        Ok(Room {
            rings: rings(alloc, processes)?,
            homes: Vec::with_capacity(alloc, processes)?,
        })
    }
}

impl OpenSheet {
    ghost use Rattle.std.specs.Prelude.{◌<◌, [], Bool, IfOk, IfErr, length, true, false, vec_capacity};
    ghost use Rattle.ds_structure_shared.specs.Boards.{new_words};
    ghost use Rattle.ds_shared.specs.Answers.{IsFresh, opened_with};
    ghost use Rattle.ds_shared.specs.Known.{past_in};
    ghost use Rattle.ds_shared_seats.specs.Sheets.{AllFresh, IsStill, IsClosed, Takes, CanNotTake, CanNotClose};
    ghost use Rattle.ds_shared.specs.declared.pass.Pass.{Pass};

    /// Its layout.
    pub fn layout(&self) -> Layout
        ensures { result ≡ (arc_value self.now.sheet).board.layout }
    {
        self.layout
    }

    // The sheet with each pass in a home of its own. Where an allocation fails, all comes back.
    pub(crate) fn of(
        alloc: Global,
        layout: Layout,
        sheet: SharedSheet,
        past: Past,
        passes: Vec<Pass>,
        room: Room,
    ) -> Result<OpenSheet, (SharedSheet, Past, Vec<Pass>)>
        requires layout { layout ≡ sheet.board.layout }
        requires past { IsPastOf sheet past }
        requires passes { (map (λ p. p.process) passes.items ≡ range_with_len 0 layout.processes) × All (λ p. IsOf sheet p) passes.items }
        requires room { (length room.rings.items ≡ layout.processes) × (room.homes.items ≡ []) × (vec_capacity room.homes ≡ layout.processes) }
        ensures made { IfOk result (λ r. (arc_value r.sheet ≡ sheet) × (r.past ≡ past)) }
        ensures fresh { (stopped : Bool) → All (λ p. IsFresh stopped p) passes.items → IfOk result (λ r. AllFresh stopped r) }
        ensures back { IfErr result (λ r. (r.0 ≡ sheet) × (r.1 ≡ past) × (r.2 ≡ passes)) }
    {
        let Room { rings, homes } = room;
        match Arc::new(alloc, sheet) {
            Ok(sheet) => Ok(OpenSheet {
                sheet,
                layout,
                past,
                homes: housed(passes, rings, homes),
            }),
            Err(failed) => Err((failed.value, past, passes)),
        }
    }

    /// A new sheet, in the second layout, with no past: its words are all 0 but for the version's. Each process is
    /// between calls, and was answered nothing yet. An error is that an allocation failed.
    pub fn make(alloc: Global, layout: Layout) -> Result<OpenSheet, AllocError>
        ensures layout { IfOk result (λ r. (arc_value r.sheet).board.layout ≡ layout) }
        ensures words { IfOk result (λ r. opened_with (arc_value r.sheet) ≡ new_words layout) }
        ensures fresh { IfOk result (λ r. AllFresh false r × (past_in r.past.place ≡ [])) }
    {
        let room = Room::make(alloc, layout.processes)?;
        let (sheet, past, passes) = SharedSheet::make(alloc, layout)?;
        match OpenSheet::of(alloc, layout, sheet, past, passes, room) {
            Ok(open) => Ok(open),
            Err(_) => Err(AllocError),
        }
    }

    /// Takes the seat of a process. A thread may take it along; `Seat::give_back` lets it be taken again. Errors:
    /// NoProcess, SeatTaken, NoMemory.
    pub fn take(&mut self, alloc: Global, process: usize) -> Result<Seat, Fault>
        ensures ok { IfOk result (λ seat. Takes process self.old self.new seat) }
        ensures err { IfErr result (λ why. CanNotTake process self.old why × IsStill self.old self.new) }
    {
        if process >= self.homes.len() {
            return Err(Fault::NoProcess);
        }
        let Ok(ring) = Ring::make(alloc) else {
            return Err(Fault::NoMemory);
        };
        let Ok(sheet) = Arc::try_clone(&self.sheet) else {
            return Err(Fault::NoMemory);
        };
        let Some((back, pass)) = self.homes[process].lend(ring) else {
            return Err(Fault::SeatTaken);
        };
        Ok(Seat {
            sheet,
            layout: self.layout,
            pass,
            back,
            last: Vec::new(alloc),
        })
    }

    /// Closes the sheet, whose seats have all come back. Errors, with which the sheet comes back: SeatTaken, NoMemory.
    pub fn close(mut self, alloc: Global) -> Result<RestingSheet, (OpenSheet, Fault)>
        ensures ok { IfOk result (λ r. IsClosed self r.sheet) }
        ensures err { IfErr result (λ r. IsStill self r.0 × CanNotClose r.1) }
    {
        if !look(&mut self.homes) {
            return Err((self, Fault::SeatTaken));
        }
        let Ok(passes) = Vec::with_capacity(alloc, self.homes.len()) else {
            return Err((self, Fault::NoMemory));
        };
        let OpenSheet {
            sheet,
            layout,
            past,
            homes,
        } = self;
        match Arc::try_unwrap(sheet) {
            Ok(sheet) => {
                let passes = gathered(&sheet, homes, passes);
                Ok(RestingSheet::of(sheet.close(past, passes)))
            }
            Err(sheet) => Err((
                OpenSheet {
                    sheet,
                    layout,
                    past,
                    homes,
                },
                Fault::SeatTaken,
            )),
        }
    }
}
