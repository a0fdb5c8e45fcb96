//! What the sheet owes, as a structure.

ghost use Rattle.pm_base.specs.Structures.{IsStructure, AreCalls};
ghost use Rattle.ds_structure.specs.Calls.{edits, works, shows, recoveries};
ghost use Rattle.ds_structure.specs.Runs.{RunsTellTheTruth};
ghost use Rattle.ds_structure.specs.Sheet.{sheet};

use crate::sheet::SheetKey;

/// A sheet owes what a structure owes: a new one is sound, and each event leads from a sound world to a sound one, keeps
/// what was answered true, and answers what is true.
pub fn sheets_are_a_structure(key: &SheetKey)
    ensures { IsStructure sheet key.now }
{}

/// An edit begins with nothing under way, and each step of it finds its word and room in the buffer.
pub fn edits_are_calls(key: &SheetKey)
    ensures { AreCalls sheet key.now edits }
{}

/// So it is with a work, which also goes on so after it has read its content, and after it has taken its entry.
pub fn works_are_calls(key: &SheetKey)
    ensures { AreCalls sheet key.now works }
{}

/// So it is with a show.
pub fn shows_are_calls(key: &SheetKey)
    ensures { AreCalls sheet key.now shows }
{}

/// So it is with a recovery.
pub fn recoveries_are_calls(key: &SheetKey)
    ensures { AreCalls sheet key.now recoveries }
{}

/// Whatever happens to a new sheet, evictions, stops and crashes between any two steps too: it is sound, and what processes
/// were answered is true. An edit that is done is linearized, and one that is overtaken is not and never will be; a
/// recovery's edit is linearized just where it says so; and a settled show has the values from scratch of the first edits
/// that were linearized, up to some moment.
pub fn runs_tell_the_truth(key: &SheetKey)
    ensures { RunsTellTheTruth key.now }
{
    sheets_are_a_structure(key);
}
