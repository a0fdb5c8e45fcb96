//! Copies of worlds.

ghost use Rattle.std.specs.Prelude.{◌≡◌, ◌≤◌, IfOk, vec_capacity};

use crate::edit::EditCall;
use crate::migration::MigrateCall;
use crate::recovery::RecoverCall;
use crate::show::ShowCall;
use crate::situation::Situation;
use crate::work::WorkCall;
use crate::world::World;
use std::alloc::{AllocError, Global};

// Equal items, in memory of their own, with room for at least that number.
pub(crate) fn with_room<T: Copy>(
    alloc: Global,
    items: &[T],
    room: usize,
) -> Result<Vec<T>, AllocError>
    ensures items { IfOk result (λ v. v.items ≡ items.now) }
    ensures room { IfOk result (λ v. room ≤ vec_capacity v) }
{
    let mut copies = Vec::with_capacity(alloc, room)?;
    copies.extend_from_slice(items)?;
    Ok(copies)
}

impl EditCall {
    /// An equal call, in memory of its own. An error means that an allocation failed.
    pub fn copy(&self, alloc: Global) -> Result<EditCall, AllocError>
        ensures { IfOk result (λ call. call ≡ self.now) }
    {
        Ok(EditCall {
            process: self.process,
            edition: self.edition,
            number: self.number,
            cell: self.cell,
            text: self.text,
            refs: Vec::from_slice(alloc, &self.refs)?,
            cells: self.cells,
            processes: self.processes,
            stage: self.stage,
        })
    }
}

impl WorkCall {
    /// An equal call, in memory of its own. An error means that an allocation failed.
    pub fn copy(&self, alloc: Global) -> Result<WorkCall, AllocError>
        ensures { IfOk result (λ call. call ≡ self.now) }
    {
        let content = self.content.copy(alloc)?;
        let inputs = self.inputs.copy_with_room(alloc)?;
        Ok(WorkCall {
            process: self.process,
            edition: self.edition,
            next: self.next,
            cell: self.cell,
            cells: self.cells,
            processes: self.processes,
            mark: self.mark,
            head: self.head,
            length: self.length,
            text: self.text,
            content,
            inputs,
            value: self.value,
            kind: self.kind,
            entry: self.entry,
            row: self.row.copy(),
            stage: self.stage,
        })
    }
}

impl RecoverCall {
    /// An equal call.
    pub fn copy(&self) -> RecoverCall
        ensures { result ≡ self.now }
    {
        RecoverCall {
            process: self.process,
            edition: self.edition,
            cells: self.cells,
            processes: self.processes,
            mark: self.mark,
            row: self.row.copy(),
            announcement: self.announcement,
            cell: self.cell,
            stage: self.stage,
        }
    }
}

impl MigrateCall {
    /// An equal call.
    pub fn copy(&self) -> MigrateCall
        ensures { result ≡ self.now }
    {
        MigrateCall {
            process: self.process,
            processes: self.processes,
            word: self.word,
            stage: self.stage,
        }
    }
}

impl ShowCall {
    /// An equal call, in memory of its own. An error means that an allocation failed.
    pub fn copy(&self, alloc: Global) -> Result<ShowCall, AllocError>
        ensures { IfOk result (λ call. call ≡ self.now) }
    {
        let announcements = with_room(alloc, &self.announcements, self.processes)?;
        let marks = with_room(alloc, &self.marks, self.cells)?;
        let values = with_room(alloc, &self.values, self.cells)?;
        let kinds = with_room(alloc, &self.kinds, self.cells)?;
        Ok(ShowCall {
            process: self.process,
            edition: self.edition,
            next: self.next,
            cells: self.cells,
            processes: self.processes,
            announcements,
            marks,
            values,
            kinds,
            stage: self.stage,
        })
    }
}

impl Situation {
    /// An equal situation, in memory of its own. An error means that an allocation failed.
    pub fn copy(&self, alloc: Global) -> Result<Situation, AllocError>
        ensures { IfOk result (λ situation. situation ≡ self.now) }
    {
        match self {
            Situation::Idle(rest) => Ok(Situation::Idle(*rest)),
            Situation::Stopped => Ok(Situation::Stopped),
            Situation::Editing(call) => Ok(Situation::Editing(call.copy(alloc)?)),
            Situation::Working(call) => Ok(Situation::Working(call.copy(alloc)?)),
            Situation::Recovering(call) => Ok(Situation::Recovering(call.copy())),
            Situation::Showing(call) => Ok(Situation::Showing(call.copy(alloc)?)),
            Situation::Migrating(call) => Ok(Situation::Migrating(call.copy())),
        }
    }
}

// Equal situations, in memory of their own.
fn all_copied(alloc: Global, situations: &Vec<Situation>) -> Result<Vec<Situation>, AllocError>
    ensures { IfOk result (λ v. v.items ≡ situations.now.items) }
{
    let mut copies = Vec::with_capacity(alloc, situations.len())?;
    for situation in situations {
        copies.push(situation.copy(alloc)?)?;
    }
    Ok(copies)
}

impl World {
    /// An equal world, in memory of its own, with the room that the edits to come need. What happens to the one
    /// leaves the other as it is. An error means that an allocation failed.
    pub fn copy(&self, alloc: Global) -> Result<World, AllocError>
        ensures { IfOk result (λ world. world ≡ self.now) }
    {
        let words = self.words.copy(alloc)?;
        let situations = all_copied(alloc, &self.situations)?;
        let counted = with_room(alloc, &self.counted, self.counted.capacity())?;
        let open_edits = Vec::from_slice(alloc, &self.open_edits)?;
        let reports = self.reports.copy(alloc)?;
        Ok(World {
            words,
            situations,
            counted,
            open_edits,
            done: self.done,
            settled: self.settled,
            reports,
            spare: None,
        })
    }
}
