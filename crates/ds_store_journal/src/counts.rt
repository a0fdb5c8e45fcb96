//! How many edits of each process a journal has.

ghost use Rattle.std.specs.List.{list_any};
ghost use Rattle.std.specs.Prelude.{◌≡◌, ◌≤◌, ◌⊎◌, nat_le, ◌++◌, ◌∷◌, [], List, IfOk, IfSome, None, length, slice_index_or};
ghost use Rattle.ds_store_journal.specs.Journals.{AreCounts, KeptEdit, edits_by};

use std::alloc::{AllocError, Global};

/// How many edits of each process a journal has. The number of the next one of a process is how many are before it.
#[derive(Drop)]
pub struct EditCounts {
    counts: Vec<usize>,
}

impl EditCounts {
    /// Of a journal that has no edits, of a sheet with that number of processes.
    pub fn new(alloc: Global, processes: usize) -> Result<EditCounts, AllocError>
        ensures none { IfOk result (λ c. AreCounts c.counts.items []) }
        ensures each { IfOk result (λ c. length c.counts.items ≡ processes) }
    {
        let mut counts = Vec::with_capacity(alloc, processes)?;
        for _process in 0..processes {
            counts.push_reserved(0);
        }
        Ok(EditCounts { counts })
    }

    /// How many edits of the process there are. 0 of a process that the sheet has not.
    pub fn of(&self, process: usize) -> usize
        ensures { (edits : List KeptEdit) → AreCounts self.now.counts.items edits → result ≡ edits_by process edits }
    {
        match self.counts.get(process) {
            Some(count) => *count,
            None => 0,
        }
    }

    /// Counts one edit more of the process, and gives its number. None where the sheet has no such process: then
    /// nothing is counted.
    pub fn count(&mut self, process: usize) -> Option<usize>
        ensures counted { IfSome result (λ number. (edits : List KeptEdit) (edit : KeptEdit) → AreCounts self.old.counts.items edits → edit.process ≡ process
            → (number ≡ edits_by process edits) × AreCounts self.new.counts.items (edits ++ edit ∷ [])) }
        ensures number { IfSome result (λ number. number ≡ slice_index_or self.old.counts.items process 0) }
        ensures none { result ≡ None → self.new ≡ self.old }
        ensures refused { result ≡ None → (length self.old.counts.items ≤ process) ⊎ (slice_index_or self.old.counts.items process 0 ≡ usize.MAX) }
        ensures each { length self.new.counts.items ≡ length self.old.counts.items }
    {
        let number = *self.counts.get(process)?;
        let more = number.checked_add(1)?;
        self.counts[process] = more;
        Some(number)
    }

    /// Whether a process has this number of edits, or more.
    pub fn has_at_least(&self, number: usize) -> bool
        ensures { result ≡ list_any (nat_le number) self.now.counts.items }
    {
        self.counts.iter().any(|count| *count >= number)
    }
}
