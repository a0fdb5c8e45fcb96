//! What is wrong with an outcome.

ghost use Rattle.std.specs.Prelude.{◌≡◌, ◌++◌, IfOk, OnOk};
ghost use Rattle.ds_explore.specs.Explored.{wrong_text, wrong_texts};
ghost use Rattle.ds_explore.specs.Judging.{listed};

use std::alloc::{AllocError, Global};
use std::fmt;

/// What is wrong with an outcome: what no sheet answers that does what `HOW-IT-WORKS` says.
#[derive(Clone, Copy, Debug, PartialEq, Eq)]
pub enum Flaw {
    /// The process's edit was answered Done, and its recovery says that it is not done; or the other way round.
    ToldOtherwise(usize),
    /// What the recovery of the process reported is not what its next one says.
    ToldTwice(usize),
    /// The process's edit is overtaken by an edit that is not done.
    OvertakenByNone(usize),
    /// The cell with this number holds a text of no edit that is done and could be its last one.
    TextOfNone(usize),
    /// The value of the cell with this number is not that of the texts.
    ValueOfNone(usize),
    /// The settle does not end clean.
    NotClean,
    /// The report is not settled.
    NotSettled,
    /// A recovery is refused.
    Refused(usize),
    /// The script is answered otherwise than the order was.
    AnsweredOtherwise,
}

impl fmt::Display for Flaw {
    ghost use Rattle.std.specs.Prelude.{Some};
    ghost use Rattle.ds_explore.specs.Explored.{flaw_text};

    ghost output = { λ flaw. Some (flaw_text flaw) };

    fn fmt<W: fmt::Write>(&self, f: &mut fmt::Formatter<W>) -> fmt::Result {
        match self {
            Flaw::ToldOtherwise(process) => write!(
                f,
                "the edit of {process} is told otherwise than it was answered"
            ),
            Flaw::ToldTwice(process) => write!(
                f,
                "the recovery of {process} tells otherwise than the one before"
            ),
            Flaw::OvertakenByNone(process) => write!(
                f,
                "the edit of {process} is overtaken by an edit that is not done"
            ),
            Flaw::TextOfNone(cell) => write!(
                f,
                "cell {cell} has a text of no edit that is done and could be its last one"
            ),
            Flaw::ValueOfNone(cell) => write!(
                f,
                "cell {cell} has a value that is not that of the texts"
            ),
            Flaw::NotClean => f.write_str("the settle does not end clean"),
            Flaw::NotSettled => f.write_str("the report is not settled"),
            Flaw::Refused(process) => write!(f, "the recovery of {process} is refused"),
            Flaw::AnsweredOtherwise => f.write_str(
                "the script is answered otherwise than the order was",
            ),
        }
    }
}

// Appends a flaw to the others, if there is one.
pub(crate) fn add(flaws: &mut Vec<Flaw>, flaw: Option<Flaw>) -> Result<(), AllocError>
    ensures { OnOk result (flaws.new.items ≡ flaws.old.items ++ listed flaw) }
{
    match flaw {
        Some(flaw) => {
            flaws.push(flaw)?;
            Ok(())
        }
        None => Ok(()),
    }
}

// The line for what is wrong.
fn wrong_line(alloc: Global, flaw: Flaw) -> Result<Vec<u8>, AllocError>
    ensures { IfOk result (λ line. line.items ≡ wrong_text flaw) }
{
    Ok(format!(in alloc; "wrong: {flaw}\n")?.into_bytes())
}

/// The lines for what is wrong. An error means that an allocation failed.
pub(crate) fn wrong_lines(alloc: Global, flaws: &[Flaw]) -> Result<Vec<u8>, AllocError>
    ensures { IfOk result (λ text. text.items ≡ wrong_texts flaws.now) }
{
    let mut text = Vec::new(alloc);
    for flaw in flaws {
        let line = wrong_line(alloc, *flaw)?;
        text.extend_from_slice(&line)?;
    }
    Ok(text)
}
