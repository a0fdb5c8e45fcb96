//! What happens to a world.

use ds_eval::task::Evaluated;
use ds_formula::cells::Cell;
use ds_layout::place::Place;
use std::marker::Model;

/// An edit that is asked for.
#[derive(Debug, Drop)]
pub struct EditRequest {
    /// The process that is to run it.
    pub process: usize,
    /// The cell.
    pub cell: Cell,
    /// What the cell is to hold.
    pub text: Vec<u8>,
}

impl Model for EditRequest {
    ghost use Rattle.ds_core.specs.Requests.{PlainRequest};

    ghost Value = { PlainRequest };

    ghost view = { λ r. record { process = r.process; cell = r.cell; text = r.text.items } };
}

/// What happens to a world.
#[derive(Debug, Drop)]
pub enum Event {
    /// A process begins an edit.
    BeginEdit(EditRequest),
    /// A process begins to work on a cell.
    BeginWork(usize, Cell),
    /// A process begins a show.
    BeginShow(usize),
    /// A process begins to recover.
    BeginRecover(usize),
    /// A process begins to migrate the sheet to the second layout.
    BeginMigrate(usize),
    /// A process makes the next step of its call.
    Step(usize),
    /// An evaluated task is offered to the work that waits for it.
    Offer(Evaluated),
    /// A word is evicted: its cached side is persisted.
    Evict(Place),
    /// A process stops: it loses its call and its buffer.
    Stop(usize),
    /// All that is not persisted is lost, and each process stops.
    Crash,
}
