//! How the processes of a store stand, from its lines.

ghost use Rattle.std.specs.Prelude.{◌≡◌, ◌++◌, ◌∷◌, ◌+◌, ◌<◌, ◌≤◌, [], List, ℕ, None, IfOk, IfErr, IfSome, OnOk, length, map, slice_index_or};
ghost use Rattle.std.specs.String.{string_bytes};
ghost use Rattle.ds_store_journal.specs.declared.standing.Standing.{Standing};
ghost use Rattle.ds_store_journal.specs.Faults.{IsUncounted};
ghost use Rattle.ds_store_journal.specs.Standings.{AreStandings, EDITS_LIMIT as EDITS_MOST, noted, one_more, standing_after};
ghost use Rattle.ds_store_journal.specs.Standings.{none_made as nothing_made};

use crate::fault::JournalFault;
use crate::journal::edit;
use crate::standing::{EDITS_LIMIT, Mention, Standing, read_before};
use ds_formula::cells::Cell;
use ds_layout::layout::Layout;
use ds_script_io::fields::is_skipped;
use std::alloc::{AllocError, Global};

// No edit of any process.
fn none_made(alloc: Global, layout: &Layout) -> Result<Vec<Standing>, AllocError>
    ensures count { IfOk result (λ s. length s.items ≡ layout.now.processes) }
    ensures standings { IfOk result (λ s. AreStandings layout.now s.items []) }
{
    let mut standings = Vec::with_capacity(alloc, layout.processes)?;
    for _process in 0..layout.processes {
        standings.push_reserved(Standing {
            edits: 0,
            last: None,
        });
    }
    Ok(standings)
}

// How a process stands after one edit more. None where no more are counted.
fn with_edit(standing: &Standing, cell: Cell) -> Option<Standing>
    ensures more { IfSome result (λ s. s ≡ one_more cell standing.now) }
    ensures full { result ≡ None → EDITS_MOST ≤ standing.now.edits + 1 }
{
    let edits = standing.edits.checked_add(1)?;
    if edits >= EDITS_LIMIT {
        return None;
    }
    Some(Standing {
        edits,
        last: Some(cell),
    })
}

// The process of which a line tells, and how it stands after the line. The fault is that no more edits are counted.
fn mentioned(
    layout: &Layout,
    standings: &[Standing],
    line: &[u8],
) -> Result<Option<Mention>, JournalFault>
    requires { length standings.now ≡ layout.now.processes }
    ensures after { IfOk result (λ mention. (process : ℕ) (d : Standing) → process < layout.now.processes
        → standing_after layout.now process (slice_index_or standings.now process d) line.now ≡ noted process (slice_index_or standings.now process d) mention) }
    ensures inside { IfOk result (λ mention. IfSome mention (λ m. m.process < layout.now.processes)) }
    ensures full { IfErr result (λ fault. (fault ≡ JournalFault.Other) × ((process : ℕ) × (process < layout.now.processes)
        × (EDITS_MOST ≤ (standing_after layout.now process (slice_index_or standings.now process nothing_made) line.now).edits))) }
{
    if is_skipped(line) {
        return Ok(read_before(layout, line));
    }
    let Some(asked) = edit(layout, line) else {
        return Ok(None);
    };
    let process = asked.process;
    match with_edit(&standings[process], asked.cell) {
        Some(standing) => Ok(Some(Mention { process, standing })),
        None => Err(JournalFault::Other),
    }
}

// Reads the next line.
fn follow(layout: &Layout, standings: &mut Vec<Standing>, line: &[u8]) -> Result<(), JournalFault>
    requires { length standings.old.items ≡ layout.now.processes }
    ensures count { length standings.new.items ≡ layout.now.processes }
    ensures standings { OnOk result ((lines : List (List ℕ)) → AreStandings layout.now standings.old.items lines → AreStandings layout.now standings.new.items (lines ++ line.now ∷ [])) }
    ensures full { IfErr result (λ fault. (lines : List (List ℕ)) → AreStandings layout.now standings.old.items lines → IsUncounted layout.now (lines ++ line.now ∷ []) fault) }
{
    if let Some(Mention { process, standing }) = mentioned(layout, standings, line)? {
        standings[process] = standing;
    }
    Ok(())
}

/// How each process of a sheet of this layout stands after the lines of its journal. The fault is that more edits would be
/// counted than there may be, or that an allocation failed.
pub fn standings_of(
    alloc: Global,
    layout: &Layout,
    lines: &[String],
) -> Result<Vec<Standing>, JournalFault>
    ensures count { IfOk result (λ s. length s.items ≡ layout.now.processes) }
    ensures standings { IfOk result (λ s. AreStandings layout.now s.items (map string_bytes lines.now)) }
    ensures full { IfErr result (IsUncounted layout.now (map string_bytes lines.now)) }
{
    let mut standings = none_made(alloc, layout)?;
    for line in lines {
        follow(layout, &mut standings, line.as_bytes())?;
    }
    Ok(standings)
}
