//! What the sessions of a server tell the keeper of its store, and wait for.

ghost use Rattle.std.specs.Prelude.{◌≡◌, ◌≢◌, ◌+◌, ◌++◌, ◌∷◌, ◌≤◌, ◌⊎◌, ◌↔◌, [], List, ℕ, Some, if◌then◌else◌, length, IfSome, IsTrue};
ghost use Rattle.std.specs.Str.{bytes_eq};
ghost use Rattle.std.specs.Sync.Mutex.{mutex_guard_value};
ghost use Rattle.ds_store_keys.specs.Tables.{found};
ghost use Rattle.ds_net_floor.specs.EditLists.{told_as};
ghost use Rattle.ds_net_floor.specs.Entries.{entries};

use crate::edit_list::EditList;
use crate::notebook::Notebook;
use ds_store::committed::Committed;
use ds_store_journal::edit::AnsweredEdit;
use ds_store_keys::note::KeyNote;
use std::alloc::{AllocError, Global};
use std::mem;
use std::sync::{Condvar, Mutex, MutexGuard, Wait};
use std::time::{Clock, Duration};

/// How far a keeper has come.
#[derive(Clone, Copy, Debug, PartialEq, Eq)]
enum Phase {
    // It keeps what it hears of.
    Keeps,
    // It hears of no more, and ends when all that it has heard of is kept.
    Ends,
    // It could not keep something, and keeps nothing more.
    Failed,
}

// For how long the keeper waits for edits before it does something else, in milliseconds.
const TICK: u64 = 250;

/// What is to be kept in one commit.
#[derive(Drop)]
pub struct Batch {
    /// Edits, in the order in which they were made.
    pub edits: Vec<AnsweredEdit>,
    /// Keys, in the order in which they were heard of: each comes with the edit that it is of.
    pub keys: Vec<KeyNote>,
}

impl Batch {
    /// Whether there is nothing to keep.
    pub fn is_empty(&self) -> bool
        ensures { IsTrue result ↔ ((self.now.edits.items ≡ []) × (self.now.keys.items ≡ [])) }
    {
        self.edits.is_empty() && self.keys.is_empty()
    }
}

/// What a keeper has heard.
#[derive(Drop)]
pub enum News {
    /// What is to be kept: one edit or key at least.
    Some(Batch),
    /// Nothing for a tick.
    Nothing,
    /// Nothing any more: no more edits are made, or the keeper could not hear of one.
    Over,
}

// How many edits and keys are kept. It grows by commits alone, by as many as each has kept.
#[derive(Drop)]
struct KeptCount {
    count: u64,
}

/// That all edits and keys are kept of which the keeper had heard at some moment: what a session has to say after that moment may
/// leave. Only `Keeping` makes one, where as many are kept.
#[derive(Drop)]
pub struct AllKept {
    heard: u64,
    kept: u64,
    pub ghost all: { heard ≤ kept },
}

/// That all edits and keys are kept of which the keeper has heard, and that no more come.
#[derive(Drop)]
pub struct Drained {
    heard: u64,
    kept: u64,
    pub ghost all: { heard ≡ kept },
}

impl KeptCount {
    // Counts what a commit has kept. None where 2^64 - 1 would be passed: then nothing is counted.
    fn add(&mut self, committed: Committed) -> Option<()>
        ensures some { IfSome result (λ _. self.new.count ≡ self.old.count + (length committed.edits.items + length committed.keys.items)) }
        ensures none { result ≡ None → self.new ≡ self.old }
    {
        self.count = self.count.checked_add(committed.count() as u64)?;
        Some(())
    }

    // The permit for what is said after this number of edits and keys was heard of, if they are kept.
    fn permit(&self, heard: u64) -> Option<AllKept>
        ensures { IfSome result (λ permit. (permit.heard ≡ heard) × (permit.kept ≡ self.now.count)) }
    {
        if heard > self.count {
            return None;
        }
        Some(AllKept {
            heard,
            kept: self.count,
        })
    }
}

/// What the keeper has heard of, what of it is kept, and the edits that count in the newest sheet, with their keys. A session makes
/// room, tells the keeper, and looks at the list. The rest needs what no session has: the keeping, a new list or a commit.
#[derive(Drop)]
pub struct Backlog {
    // The edits that count.
    list: EditList,
    // The edits and the keys that the keeper has not taken yet, in the order in which they were made.
    edits: Vec<AnsweredEdit>,
    keys: Vec<KeyNote>,
    // How many edits and keys the keeper has taken, and has not kept yet.
    taken: u64,
    // How many edits and keys the keeper has heard of, and how many of them are kept.
    heard: u64,
    kept: KeptCount,
    phase: Phase,
    ghost counted: { heard ≡ kept.count + taken + (length edits.items + length keys.items) },
}

impl Backlog {
    // Of a server that has not begun, with this list.
    fn new(alloc: Global, list: EditList) -> Backlog {
        Backlog {
            list,
            edits: Vec::new(alloc),
            keys: Vec::new(alloc),
            taken: 0,
            heard: 0,
            kept: KeptCount { count: 0 },
            phase: Phase::Keeps,
        }
    }

    /// Room for one edit more, and a key, before it is made. An error is that an allocation failed, or that no more can be
    /// counted.
    pub fn make_room(&mut self) -> Result<(), AllocError>
        ensures edits { (self.new.edits.items ≡ self.old.edits.items) × (self.new.keys.items ≡ self.old.keys.items) }
        ensures list { (entries self.new.list ≡ entries self.old.list) × (self.new.list.keys ≡ self.old.list.keys) × (self.new.list.nobody ≡ self.old.list.nobody) }
    {
        if self.heard >= u64::MAX - 1 {
            return Err(AllocError);
        }
        self.list.reserve()?;
        self.keys.reserve(1)?;
        self.edits.reserve(1)
    }

    /// The list of the edits that count, for a session, which notes that it was shown it.
    pub fn show(&self, notebook: &mut Notebook<'_>) -> &EditList
        ensures list { result.now ≡ self.now.list }
        ensures seen { notebook.new.seen.items ≡ notebook.old.seen.items ++ (0, result.now) ∷ [] }
        ensures notes { (notebook.new.heard ≡ notebook.old.heard) × (notebook.new.keyed ≡ notebook.old.keyed) }
    {
        notebook.note_list(&self.list);
        &self.list
    }

    /// The keeper hears of an edit that was answered Done, which the session notes then, and which stands in the list, by the
    /// number by which clients know it; with a copy of its text. Where there is no room for it nothing is kept any more.
    pub fn hear(
        &mut self,
        notebook: &mut Notebook<'_>,
        edit: AnsweredEdit,
        number: usize,
        text: Vec<u8>,
    )
        requires { text.items ≡ edit.text }
        ensures noted { notebook.new.heard.items ≡ notebook.old.heard.items ++ (number, edit) ∷ [] }
        ensures notes { (notebook.new.seen ≡ notebook.old.seen) × (notebook.new.keyed ≡ notebook.old.keyed) }
        ensures heard { (self.new.edits.items ≡ self.old.edits.items ++ edit ∷ []) ⊎ (self.new.phase ≡ Phase.Failed) }
        ensures listed { (entries self.new.list ≡ entries self.old.list ++ told_as (number, edit) ∷ []) ⊎ (self.new.phase ≡ Phase.Failed) }
        ensures rest { (self.new.keys ≡ self.old.keys) × (self.new.list.keys ≡ self.old.list.keys) × (self.new.list.nobody ≡ self.old.list.nobody) }
    {
        notebook.note_edit(number, &edit);
        let Some(count) = self.heard.checked_add(1) else {
            self.phase = Phase::Failed;
            return;
        };
        if self.list.hear(number, &edit, text).is_err() {
            self.phase = Phase::Failed;
            return;
        }
        match self.edits.push(edit) {
            Ok(()) => self.heard = count,
            Err(_) => self.phase = Phase::Failed,
        }
    }

    /// The keeper hears of a key, which the session notes then, and which is known from then on, by a copy of it. Where there is
    /// no room for it, or it is known already, nothing is kept any more.
    pub fn hear_key(&mut self, notebook: &mut Notebook<'_>, note: KeyNote, copy: KeyNote)
        requires { copy ≡ note }
        ensures noted { notebook.new.keyed.items ≡ notebook.old.keyed.items ++ (0, note) ∷ [] }
        ensures notes { (notebook.new.heard ≡ notebook.old.heard) × (notebook.new.seen ≡ notebook.old.seen) }
        ensures heard { (self.new.keys.items ≡ self.old.keys.items ++ note ∷ []) ⊎ (self.new.phase ≡ Phase.Failed) }
        ensures known { ((key : List ℕ) → found self.new.list.keys key ≡ (if bytes_eq key note.key then Some note.edit else found self.old.list.keys key)) ⊎ (self.new.phase ≡ Phase.Failed) }
        ensures rest { (self.new.edits ≡ self.old.edits) × (entries self.new.list ≡ entries self.old.list) × (self.new.list.nobody ≡ self.old.list.nobody) }
        ensures failed { self.old.phase ≡ Phase.Failed → self.new.phase ≡ Phase.Failed }
    {
        notebook.note_key(&note);
        let Some(more) = self.heard.checked_add(1) else {
            self.phase = Phase::Failed;
            return;
        };
        if self.list.note(copy).is_err() {
            self.phase = Phase::Failed;
            return;
        }
        match self.keys.push(note) {
            Ok(()) => self.heard = more,
            Err(_) => self.phase = Phase::Failed,
        }
    }

    /// The server goes over to a new sheet, of which this is the list.
    pub fn go_over(&mut self, list: EditList)
        ensures list { self.new.list ≡ list }
        ensures rest { (self.new.edits ≡ self.old.edits) × (self.new.keys ≡ self.old.keys) × (self.new.heard ≡ self.old.heard) × (self.new.kept ≡ self.old.kept) }
    {
        self.list = list;
    }

    // All edits and keys that have come, which the keeper has in hand then.
    fn take(&mut self, alloc: Global) -> Batch
        ensures edits { (result.edits.items ≡ self.old.edits.items) × (result.keys.items ≡ self.old.keys.items) }
        ensures taken { self.new.taken ≡ self.old.taken + (length self.old.edits.items + length self.old.keys.items) }
        ensures heard { (self.new.heard ≡ self.old.heard) × (self.new.kept ≡ self.old.kept) }
    {
        let edits = mem::replace(&mut self.edits, Vec::new(alloc));
        let keys = mem::replace(&mut self.keys, Vec::new(alloc));
        self.taken += edits.len() as u64 + keys.len() as u64;
        Batch { edits, keys }
    }

    // Whether nothing waits for the keeper.
    fn is_empty(&self) -> bool {
        self.edits.is_empty() && self.keys.is_empty()
    }

    /// What a commit has kept is kept. Where it is more than the keeper has in hand, nothing is kept any more. A commit is
    /// taken, and cannot be copied: so it counts once.
    pub fn keep(&mut self, committed: Committed)
        ensures kept { (self.new.kept.count ≡ self.old.kept.count + (length committed.edits.items + length committed.keys.items)) ⊎ (self.new.phase ≡ Phase.Failed) }
        ensures at_most { self.new.kept.count ≤ self.old.kept.count + (length committed.edits.items + length committed.keys.items) }
        ensures heard { (self.new.heard ≡ self.old.heard) × (self.new.edits ≡ self.old.edits) × (self.new.keys ≡ self.old.keys) }
    {
        let Some(left) = self.taken.checked_sub(committed.count() as u64) else {
            self.phase = Phase::Failed;
            return;
        };
        match self.kept.add(committed) {
            Some(()) => self.taken = left,
            None => self.phase = Phase::Failed,
        }
    }

    // The permit for what is said after this number of edits and keys was heard of, if they are kept, and the keeper keeps still.
    fn permit(&self, heard: u64) -> Option<AllKept>
        ensures permit { IfSome result (λ permit. (permit.heard ≡ heard) × (permit.kept ≡ self.now.kept.count)) }
        ensures keeps { IfSome result (λ _. self.now.phase ≢ Phase.Failed) }
    {
        if self.phase == Phase::Failed {
            return None;
        }
        self.kept.permit(heard)
    }

    // That all is kept, if it is, and no more comes.
    fn drained(&self) -> Option<Drained>
        ensures all { IfSome result (λ d. (d.heard ≡ self.now.heard) × (d.kept ≡ self.now.kept.count)) }
        ensures ends { IfSome result (λ _. self.now.phase ≡ Phase.Ends) }
    {
        if self.phase != Phase::Ends || self.heard != self.kept.count {
            return None;
        }
        Some(Drained {
            heard: self.heard,
            kept: self.kept.count,
        })
    }
}

/// What the sessions of a server share with the keeper of its store. Whoever edits holds its lock from before the edit
/// until the keeper has heard of it: so the store and the list have the edits in the order in which they count, and what a
/// session is to say waits until all edits are kept that any session could have seen. Many wait for one commit.
#[derive(Drop)]
pub struct Keeping {
    backlog: Mutex<Backlog>,
    news: Condvar,
    done: Condvar,
}

impl Keeping {
    /// Of a server that has not begun, of whose sheet this is the list. Only lines of a store make a list: so a session, which has
    /// no store, cannot tell a keeper of its own.
    pub fn new(alloc: Global, list: EditList) -> Keeping {
        Keeping {
            backlog: Mutex::new(Backlog::new(alloc, list)),
            news: Condvar::new(),
            done: Condvar::new(),
        }
    }

    /// Waits for the turn to edit, which is the caller's until what is given back is dropped.
    pub fn take_turn<R: Wait>(&self, rt: &R) -> MutexGuard<'_, Backlog> {
        self.backlog.lock(rt)
    }

    /// Wakes the keeper, which has heard of something.
    pub fn wake(&self) {
        self.news.notify_one();
    }

    /// Wakes all that wait for edits to be kept.
    pub fn wake_all(&self) {
        self.done.notify_all();
    }

    /// Waits until all edits and keys are kept that the keeper has heard of, also those that are being made. None where they
    /// cannot be.
    pub fn wait_for_all<R: Wait>(&self, rt: &R) -> Option<AllKept> {
        let backlog = self.backlog.lock(rt);
        self.wait_from(rt, backlog)
    }

    // Waits until all is kept of which the keeper had heard when this turn began.
    fn wait_from<'a, R: Wait>(&'a self, rt: &R, backlog: MutexGuard<'a, Backlog>) -> Option<AllKept>
        ensures { IfSome result (λ permit. permit.heard ≡ (mutex_guard_value backlog.entry).heard) }
    {
        let heard = backlog.heard;
        let backlog = self.done.wait_while(rt, backlog, |backlog| {
            backlog.kept.count < heard && backlog.phase != Phase::Failed
        });
        backlog.permit(heard)
    }

    /// No more edits come.
    pub fn end<R: Wait>(&self, rt: &R) {
        let mut backlog = self.backlog.lock(rt);
        if backlog.phase == Phase::Keeps {
            backlog.phase = Phase::Ends;
        }
        self.news.notify_one();
    }

    /// Waits for edits and keys, for a tick at most, and takes those that have come.
    pub fn take<R: Wait + Clock>(&self, rt: &R, alloc: Global) -> News {
        let backlog = self.backlog.lock(rt);
        let tick = Duration::from_millis(TICK);
        let (mut backlog, _) = self.news.wait_timeout_while(rt, backlog, tick, |backlog| {
            backlog.is_empty() && backlog.phase == Phase::Keeps
        });
        if backlog.phase == Phase::Failed {
            return News::Over;
        }
        if !backlog.is_empty() {
            return News::Some(backlog.take(alloc));
        }
        match backlog.phase {
            Phase::Keeps => News::Nothing,
            Phase::Ends | Phase::Failed => News::Over,
        }
    }

    /// Takes all edits and keys that have come, for a keeper that has the turn to edit. No session can: it has no keeping.
    pub fn take_rest(&self, alloc: Global, backlog: &mut Backlog) -> Batch
        ensures edits { (result.edits.items ≡ backlog.old.edits.items) × (result.keys.items ≡ backlog.old.keys.items) }
        ensures taken { backlog.new.taken ≡ backlog.old.taken + (length backlog.old.edits.items + length backlog.old.keys.items) }
        ensures heard { (backlog.new.heard ≡ backlog.old.heard) × (backlog.new.kept ≡ backlog.old.kept) }
    {
        backlog.take(alloc)
    }

    /// What a commit has kept is kept: whoever waits for it may go on. A commit is taken, and cannot be copied: so it counts
    /// once.
    pub fn count<R: Wait>(&self, rt: &R, committed: Committed) {
        self.backlog.lock(rt).keep(committed);
        self.done.notify_all();
    }

    /// That all is kept, if it is, and no more comes.
    pub fn drained<R: Wait>(&self, rt: &R) -> Option<Drained> {
        self.backlog.lock(rt).drained()
    }

    /// Nothing is kept any more.
    pub fn fail<R: Wait>(&self, rt: &R) {
        self.backlog.lock(rt).phase = Phase::Failed;
        self.done.notify_all();
    }
}
