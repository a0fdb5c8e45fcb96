//! The first lines of a journal, as far as they are sound.

ghost use Rattle.std.specs.Prelude.{◌≡◌, ◌≤◌, ◌⊎◌, [], List, ℕ, None, length, IfOk, IfSome, map, min, take};
ghost use Rattle.std.specs.String.{string_bytes};
ghost use Rattle.sqlite.specs.Held.{state};
ghost use Rattle.sqlite.specs.State.{HasCleanDisk};
ghost use Rattle.ds_layout.specs.declared.layout.Layout.{Layout};
ghost use Rattle.ds_store_keys.specs.Keys.{StandOnce, keys_of};
ghost use Rattle.ds_store_sums.specs.Sums.{AreSummed};
ghost use Rattle.ds_store_sums.specs.declared.sums.Tail.{Tail};
ghost use Rattle.ds_store_table.specs.Tables.{Holds};
ghost use Rattle.ds_store.specs.Opened.{Leads};
ghost use Rattle.ds_store.specs.Sound.{AreFirst};
ghost use Rattle.ds_store.specs.Summing.{AreNotAdded};
ghost use Rattle.ds_store.specs.Unsound.{AreUnsound, HaveKeyAgain, before_of, sound_before};
ghost use Rattle.ds_store.specs.declared.seated.SeatedSheet.{SeatedSheet};

use crate::fault::StoreFault;
use crate::replay::replayed;
use crate::summing::{add_all, summed};
use ds_store_journal::journal::read_sheet;
use ds_store_keys::table::KeyTable;
use ds_store_sums::sums::LineSums;
use ds_store_table::lines::{self, FirstLines};
use sqlite::{Alter, Connection};
use std::alloc::Global;

/// The first lines of a journal, as far as they are sound.
#[derive(Drop)]
pub struct SoundLines {
    /// The lines, in their order.
    pub lines: Vec<String>,
    /// How many lines the journal has, before the first number that is missing.
    pub count: usize,
    /// What is wrong with the first line of the journal that is not sound; none where all are.
    pub fault: Option<StoreFault>,
}

// That the key of a line stands in one before it, where one does.
fn key_fault(alloc: Global, lines: &[String]) -> Option<StoreFault>
    ensures { IfSome result (λ fault. (fault ≡ StoreFault.NoMemory) ⊎ HaveKeyAgain (map string_bytes lines.now) fault) }
{
    let Ok(layout) = read_sheet(lines.first()?.as_bytes()) else {
        return None;
    };
    match KeyTable::of_lines(alloc, &layout, lines) {
        Ok(_) => None,
        Err(fault) => Some(StoreFault::from(fault)),
    }
}

// What is wrong with the first line that is not sound, where this is wrong with that of its number: a sum before it may
// be wrong, or a key may stand again.
fn earlier(alloc: Global, lines: &[String], fault: StoreFault) -> StoreFault
    ensures { (result ≡ fault) ⊎ (HaveKeyAgain (map string_bytes lines.now) result ⊎ AreNotAdded [] (map string_bytes lines.now) result) }
{
    let before = fault.before().min(lines.len());
    let fault = match add_all(alloc, &mut LineSums::new(), &lines[..before]) {
        Ok(_) => fault,
        Err(earlier) => earlier,
    };
    let before = fault.before().min(lines.len());
    match key_fault(alloc, &lines[..before]) {
        Some(earlier) => earlier,
        None => fault,
    }
}

// What is wrong with the first line that is not sound, where any is: of these, or that of the number that is missing after
// them.
fn first_fault(alloc: Global, lines: &[String], missing: Option<usize>) -> Option<StoreFault>
    ensures none { result ≡ None → missing ≡ None }
    ensures cause { missing ≡ None → IfSome result (AreUnsound (map string_bytes lines.now)) }
{
    if let Err(fault) = replayed(alloc, lines) {
        return Some(earlier(alloc, lines, fault));
    }
    if let Some(number) = missing {
        return Some(earlier(alloc, lines, StoreFault::Missing(number)));
    }
    if let Some(fault) = key_fault(alloc, lines) {
        return Some(earlier(alloc, lines, fault));
    }
    summed(alloc, lines).err()
}

// How many lines are sound, of as many as these. An error is that none is.
fn before_fault(fault: &Option<StoreFault>, all: usize) -> Result<usize, StoreFault>
    ensures { IfOk result (λ sound. sound ≡ sound_before fault.now all) }
{
    match fault {
        Some(fault) if fault.before() == 0 => Err(*fault),
        Some(fault) => Ok(fault.before()),
        None => Ok(all),
    }
}

/// The first lines of the journal in a database that are sound, as many at most as are asked for: each can be followed, and
/// where it has a sum, it is that of the lines before it; each key stands once. An error is that the first line is not sound, or that the
/// database gives none, or that an allocation failed.
pub fn first_sound<S: Alter>(
    alloc: Global,
    conn: &mut Connection<S>,
    most: usize,
) -> Result<SoundLines, StoreFault>
    ensures most { IfOk result (λ s. length s.lines.items ≤ most) }
    ensures leads { IfOk result (λ s. (layout : Layout) × (counts : List ℕ) × (sheet : SeatedSheet) × Leads layout counts sheet (map string_bytes s.lines.items) × StandOnce (keys_of layout (map string_bytes s.lines.items))) }
    ensures summed { IfOk result (λ s. (tail : Tail) × AreSummed (map string_bytes s.lines.items) tail) }
    ensures first { HasCleanDisk (state S.Store conn.new) → (held : List (List ℕ)) → Holds held (state S.Store conn.old).now → IfOk result (AreFirst most held) }
    ensures cause { HasCleanDisk (state S.Store conn.new) → (held : List (List ℕ)) → Holds held (state S.Store conn.old).now → IfOk result (λ s. IfSome s.fault (AreUnsound held)) }
    ensures sound { HasCleanDisk (state S.Store conn.new) → (held : List (List ℕ)) → Holds held (state S.Store conn.old).now
        → IfOk result (λ s. IfSome s.fault (λ fault. map string_bytes s.lines.items ≡ take (min (before_of fault) most) held)) }
{
    let FirstLines { mut lines, missing } = lines::read_first(alloc, conn)?;
    let all = lines.len();
    let fault = first_fault(alloc, &lines, missing);
    let sound = before_fault(&fault, all)?;
    lines.truncate(sound.min(most));
    let leads = replayed(alloc, &lines)?;
    KeyTable::of_lines(alloc, &leads.layout, &lines)?;
    add_all(alloc, &mut LineSums::new(), &lines)?;
    Ok(SoundLines {
        lines,
        count: all,
        fault,
    })
}
