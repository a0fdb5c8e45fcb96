//! The edits of a sheet, those that are linearized and those that are not answered.

ghost use Rattle.std.specs.Prelude.{◌≡◌};

use crate::edit::EditCall;
use crate::text::Text;
use std::marker::Model;

/// What an edit is to whoever asked for it.
#[derive(Clone, Copy, Debug)]
pub struct Edit {
    /// The process that runs it.
    pub process: usize,
    /// Which edit of the process it is, from 0.
    pub number: usize,
    /// The cell, by its number.
    pub cell: usize,
    /// What the cell is to hold.
    pub text: Text,
}

impl Model for Edit {
    ghost use Rattle.ds_state.specs.World.{PlainEdit};

    ghost Value = { PlainEdit };

    ghost view = { λ e. record { process = e.process; number = e.number; cell = e.cell; text = e.text } };

    ghost inverse = { λ e. record { process = e.process; number = e.number; cell = e.cell; text = e.text } };
}

impl Edit {
    ghost use Rattle.ds_state.specs.World.{edit_of};
    ghost use Rattle.ds_state.specs.Text.{IsText};

    /// What the edit under way is to whoever asked for it.
    pub fn of(call: &EditCall) -> Edit
        ensures value { result ≡ edit_of call.now }
        ensures text { IsText result.text }
    {
        call.text.is_always_a_text();
        Edit {
            process: call.process,
            number: call.number,
            cell: call.cell,
            text: call.text,
        }
    }
}

/// An edit that is not answered.
#[derive(Clone, Copy, Debug)]
pub struct Issue {
    /// The edit.
    pub edit: Edit,
    /// How many edits were linearized when it was issued.
    pub since: usize,
}

impl Model for Issue {
    ghost use Rattle.ds_state.specs.World.{PlainIssue};

    ghost Value = { PlainIssue };

    ghost view = { λ i. record { edit = i.edit; since = i.since } };

    ghost inverse = { λ i. record { edit = i.edit; since = i.since } };
}
