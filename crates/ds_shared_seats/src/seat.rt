//! A seat: a sheet, and the right to act for one of its processes.

ghost use Rattle.std.specs.Prelude.{◌≡◌, ◌<◌};
ghost use Rattle.std.specs.Arc.{arc_value};
ghost use Rattle.rtrb.specs.Ring.{sent, known_free};
ghost use Rattle.ds_shared.specs.Answers.{IsOf};
ghost use Rattle.ds_shared_seats.specs.Turns.{IsSameAll};
ghost use Rattle.ds_eval.specs.Code.{plain_code};
ghost use Rattle.std.specs.Coded.{codes};

use crate::fault::Fault;
use crate::ring::Back;
use crate::steps::Steps;
use ds_eval::value::Value;
use ds_formula::cells::Cell;
use ds_layout::layout::Layout;
use ds_shared::ended::Ended;
use ds_shared::pass::{Note, Pass};
use ds_shared::sheet::SharedSheet;
use ds_state::answer::EditEnd;
use ds_state::recovery::RecoveryEnd;
use ds_state::show::ShowEnd;
use ds_state::work::WorkEnd;
use std::alloc::Global;
use std::sync::Arc;

/// A sheet that threads share, with the right to act for one of its processes. It may go from thread to thread.
#[derive(Drop)]
pub struct Seat {
    pub(crate) sheet: Arc<SharedSheet, Global>,
    pub(crate) layout: Layout,
    pub(crate) pass: Pass,
    pub(crate) back: Back,
    pub(crate) last: Vec<Value>,
    pub ghost fits: { layout ≡ (arc_value sheet).board.layout },
    pub ghost of: { IsOf (arc_value sheet) pass } by { Prim.hlevel (codes, plain_code) },
    pub ghost same: { IsSameAll (sent back) pass } by { Prim.hlevel (codes, plain_code) },
    pub ghost room: { 0 < known_free back },
}

impl Seat {
    ghost use Rattle.std.specs.Prelude.{[], IfOk, IfErr, Option, Vec};
    ghost use Rattle.std.specs.Global.{Global};
    ghost use Rattle.ds_eval.specs.declared.value.Value.{Value};
    ghost use Rattle.ds_formula.specs.Cells.{IsInside};
    ghost use Rattle.ds_shared_seats.specs.declared.fault.Fault.TheVariants.{NoCell};
    ghost use Rattle.ds_shared_seats.specs.Calls.{Edits, Works, Recovers, Reports, last_of};
    ghost use Rattle.pm_board.specs.Looks.{Extends};
    ghost use Rattle.ds_shared.specs.Answers.{HasLooked, IsNoteOf};
    ghost use Rattle.ds_shared.specs.Known.{noted_by, seen_by};
    ghost use Rattle.ds_shared_seats.specs.Sheets.{IsSeatOf, LacksCell};

    /// The layout of its sheet.
    pub fn layout(&self) -> Layout
        ensures { result ≡ (arc_value self.now.sheet).board.layout }
    {
        self.layout
    }

    /// The process that it acts for.
    pub fn process(&self) -> usize
        ensures { result ≡ self.now.pass.process }
    {
        self.pass.process()
    }

    /// Sets the text of a cell. Refused where its process is stopped or the text is none, where no record is left, or
    /// where an allocation fails: nothing changes then. Where the fuse of `steps` steps stops it, its process is stopped.
    /// An error is that the sheet has no such cell.
    pub fn edit(
        &mut self,
        alloc: Global,
        cell: Cell,
        text: &[u8],
        steps: u64,
    ) -> Result<Ended<EditEnd>, Fault>
        ensures made { IfOk result (λ how. IsInside (arc_value self.old.sheet).board.layout.shape cell × Edits (arc_value self.old.sheet) cell text.now steps self.old.pass self.new.pass how) }
        ensures err { IfErr result (λ why. LacksCell (arc_value self.old.sheet) cell why × (self.new ≡ self.old)) }
        ensures seat { IsSeatOf (arc_value self.old.sheet) self.new × (self.new.last ≡ self.old.last) }
    {
        if !self.layout.shape.contains(cell) {
            return Err(Fault::NoCell);
        }
        let mut fuse = Steps::of(steps);
        Ok(
            self.sheet
                .edit(alloc, &mut self.pass, cell, text, &mut fuse),
        )
    }

    /// Works on a cell: where its mark is dirty, it is claimed, evaluated and published. An error is that the sheet has
    /// no such cell.
    pub fn work(&mut self, alloc: Global, cell: Cell, steps: u64) -> Result<Ended<WorkEnd>, Fault>
        ensures made { IfOk result (λ how. IsInside (arc_value self.old.sheet).board.layout.shape cell × Works (arc_value self.old.sheet) cell steps self.old.pass self.new.pass how) }
        ensures err { IfErr result (λ why. LacksCell (arc_value self.old.sheet) cell why × (self.new ≡ self.old)) }
        ensures seat { IsSeatOf (arc_value self.old.sheet) self.new × (self.new.last ≡ self.old.last) }
    {
        if !self.layout.shape.contains(cell) {
            return Err(Fault::NoCell);
        }
        let mut fuse = Steps::of(steps);
        Ok(self.sheet.work(alloc, &mut self.pass, cell, &mut fuse))
    }

    /// Recovers its process, also one that is stopped: the answer reports what became of its last edit that was announced.
    pub fn recover(&mut self, alloc: Global, steps: u64) -> Ended<RecoveryEnd>
        ensures made { Recovers (arc_value self.old.sheet) steps self.old.pass self.new.pass result }
        ensures seat { IsSeatOf (arc_value self.old.sheet) self.new × (self.new.last ≡ self.old.last) }
    {
        let mut fuse = Steps::of(steps);
        self.sheet.recover(alloc, &mut self.pass, &mut fuse)
    }

    /// A show of the whole sheet. Where it is settled, the seat keeps its values, in place of those of its last one.
    pub fn show(&mut self, alloc: Global, steps: u64) -> Ended<ShowEnd>
        ensures made { (values : Option (Vec Value Global)) × Reports (arc_value self.old.sheet) steps self.old.pass self.new.pass result values × (self.new.last ≡ last_of self.old.last values) }
        ensures seat { IsSeatOf (arc_value self.old.sheet) self.new }
    {
        let mut fuse = Steps::of(steps);
        let (ended, values) = self.sheet.show(alloc, &mut self.pass, &mut fuse);
        if let Some(values) = values {
            self.last = values;
        }
        ended
    }

    /// What it has seen of its sheet's history until now, to be given to another seat of the sheet. It costs a load of
    /// one word.
    pub fn note(&mut self) -> Note
        ensures note { IsNoteOf (arc_value self.old.sheet) result × (noted_by result.place ≡ seen_by self.old.pass.place) }
        ensures seat { IsSeatOf (arc_value self.old.sheet) self.new × HasLooked self.old.pass self.new.pass × (self.new.last ≡ self.old.last) }
    {
        self.sheet.note(&mut self.pass)
    }

    /// The seat learns what another one of its sheet had seen, and looks at the sheet, by two loads: what it has
    /// then seen begins with that, and with what it had seen itself. So each call of it that begins later stands
    /// after all of both.
    pub fn learn(&mut self, note: Note)
        requires { IsNoteOf (arc_value self.old.sheet) note }
        ensures note { Extends (seen_by self.new.pass.place) (noted_by note.place) }
        ensures seat { IsSeatOf (arc_value self.old.sheet) self.new × HasLooked self.old.pass self.new.pass × (self.new.last ≡ self.old.last) }
    {
        self.sheet.learn(&mut self.pass, note);
    }

    /// The values of its last report that was settled, row by row from the left. None where it has had none.
    pub fn values(&self) -> &[Value]
        ensures { result.now ≡ self.now.last.items }
    {
        self.last.as_slice()
    }

    /// The same, which it keeps no longer.
    pub fn take_values(&mut self, alloc: Global) -> Vec<Value>
        ensures values { result.items ≡ self.old.last.items }
        ensures seat { IsSeatOf (arc_value self.old.sheet) self.new × (self.new.pass ≡ self.old.pass) × (self.new.last.items ≡ []) }
    {
        std::mem::replace(&mut self.last, Vec::new(alloc))
    }

    /// The seat goes back to its sheet: its pass can be taken again, and closed with.
    pub fn give_back(self) {
        let Seat {
            sheet: _,
            layout: _,
            pass,
            mut back,
            last: _,
        } = self;
        back.push_reserved(pass);
    }
}
