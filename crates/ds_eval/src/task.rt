//! What is to be evaluated, apart from the sheet that it came from.

ghost use Rattle.std.specs.Prelude.{◌≡◌, ◌↔◌, IsTrue};
ghost use Rattle.ds_formula.specs.Plain.{plain};
ghost use Rattle.ds_eval.specs.Tasks.{PlainTask, local_of};

use crate::inputs::{Entry, Inputs};
use crate::local::local;
use crate::same::{same_content, same_inputs};
use ds_formula::cells::{Cell, Shape};
use ds_formula::content::Content;
use std::marker::Model;

/// One cell's evaluation: it owns all that it needs, so that it can be carried out anywhere.
/// Clauses see its plain view.
#[derive(Debug, Drop)]
pub struct Task {
    /// The process whose work waits for the value.
    pub process: usize,
    /// The cell.
    pub cell: Cell,
    /// The generation of the mark under which the work holds the cell.
    pub generation: u64,
    /// The shape of the sheet.
    pub shape: Shape,
    /// What the cell holds.
    pub content: Content,
    /// The cells written in the content, with what they showed.
    pub inputs: Inputs,
}

impl Model for Task {
    ghost use Rattle.ds_eval.specs.Tasks.{PlainTask};
    ghost use Rattle.ds_eval.specs.Code.{plain_code};
    ghost use Rattle.ds_formula.specs.Plain.{plain};
    ghost use Rattle.std.specs.Coded.{codes};

    ghost Value = { PlainTask };

    ghost coded = { Prim.hlevel (codes, plain_code) };

    ghost view = { λ a. record {
      process = a.process;
      cell = a.cell;
      generation = a.generation;
      shape = a.shape;
      content = plain a.content;
      inputs = a.inputs.items;
    } };
}

impl Task {
    /// Whether this is just the task of these parts.
    pub fn is(
        &self,
        process: usize,
        cell: Cell,
        generation: u64,
        shape: Shape,
        content: &Content,
        inputs: &Inputs,
    ) -> bool
        ensures yes { IsTrue result → self.now ≡ record { process = process; cell = cell; generation = generation; shape = shape; content = plain content.now; inputs = inputs.now.items } }
        ensures no { self.now ≡ record { process = process; cell = cell; generation = generation; shape = shape; content = plain content.now; inputs = inputs.now.items } → IsTrue result }
    {
        if self.process != process || self.generation != generation {
            return false;
        }
        if self.cell != cell || self.shape != shape {
            return false;
        }
        same_content(&self.content, content)
            && same_inputs(self.inputs.as_slice(), inputs.as_slice())
    }
}

/// A task with the entry that its inputs give: it cannot be made otherwise than by evaluating the task.
#[derive(Debug, Drop)]
pub struct Evaluated {
    task: Task,
    entry: Entry,
}

impl Model for Evaluated {
    ghost use Rattle.std.specs.Prelude.{◌≡◌};
    ghost use Rattle.ds_eval.specs.Tasks.{PlainEvaluated, local_of};
    ghost use Rattle.ds_eval.specs.Code.{plain_code};
    ghost use Rattle.std.specs.Coded.{codes};

    ghost Value = { PlainEvaluated };

    ghost coded = { Prim.hlevel (codes, plain_code) };

    ghost view = { λ a. record { task = a.task; entry = a.entry } };

    ghost invariant = { λ a. a.entry ≡ local_of a.task };
}

/// Evaluates a task. It takes no memory.
pub fn evaluate(task: Task) -> Evaluated
    ensures { result ≡ record { task = task; entry = local_of task } }
{
    let entry = local(&task.content, task.shape, &task.inputs);
    Evaluated { task, entry }
}

impl Evaluated {
    /// The task that was evaluated.
    pub fn task(&self) -> &Task
        ensures { result.now ≡ self.now.task }
    {
        &self.task
    }

    /// The entry that the task's inputs give.
    pub fn entry(&self) -> Entry
        ensures value { result ≡ self.now.entry }
        ensures local { result ≡ local_of self.now.task }
    {
        self.entry
    }
}
