//! What a session notes of what it has to do with the keeper of a store.

ghost use Rattle.std.specs.Prelude.{◌≡◌, ◌++◌, ◌∷◌, []};

use crate::edit_list::EditList;
use crate::keeping::{Backlog, Keeping};
use ds_store_journal::edit::AnsweredEdit;
use ds_store_keys::note::KeyNote;
use http_server::Log;
use std::sync::{MutexGuard, Wait};

/// What a session has of the keeper of a store, and, for proofs alone, what it has to do with it: each edit and each key of which
/// the keeper has heard from it, and each list of edits that it was shown. The keeper hears of nothing that is not noted here, and
/// nothing else is noted: only `Backlog` notes, which a session has by its turn alone. A session has one notebook, and nothing by
/// which to make another.
#[derive(Drop)]
pub struct Notebook<'a> {
    keeping: &'a Keeping,
    // Each edit with the number by which clients know it.
    heard: Log<usize, AnsweredEdit>,
    seen: Log<usize, EditList>,
    keyed: Log<usize, KeyNote>,
}

impl<'a> Notebook<'a> {
    /// Of a session that has begun.
    pub fn new(keeping: &'a Keeping) -> Notebook<'a>
        ensures { (result.heard.items ≡ []) × (result.seen.items ≡ []) × (result.keyed.items ≡ []) }
    {
        Notebook {
            keeping,
            heard: Log::new(),
            seen: Log::new(),
            keyed: Log::new(),
        }
    }

    /// Waits for the turn to edit, which is the caller's until what is given back is dropped.
    pub fn take_turn<R: Wait>(&self, rt: &R) -> MutexGuard<'a, Backlog> {
        self.keeping.take_turn(rt)
    }

    /// Wakes the keeper, which has heard of something.
    pub fn wake(&self) {
        self.keeping.wake();
    }

    // The keeper hears of this edit, which clients know by this number.
    pub(crate) fn note_edit(&mut self, number: usize, edit: &AnsweredEdit)
        ensures heard { self.new.heard.items ≡ self.old.heard.items ++ (number, edit.now) ∷ [] }
        ensures rest { (self.new.seen ≡ self.old.seen) × (self.new.keyed ≡ self.old.keyed) }
    {
        self.heard = self.heard.and(&number, edit);
    }

    // The keeper hears of this key.
    pub(crate) fn note_key(&mut self, note: &KeyNote)
        ensures keyed { self.new.keyed.items ≡ self.old.keyed.items ++ (0, note.now) ∷ [] }
        ensures rest { (self.new.heard ≡ self.old.heard) × (self.new.seen ≡ self.old.seen) }
    {
        self.keyed = self.keyed.and(&0, note);
    }

    // The session is shown this list.
    pub(crate) fn note_list(&mut self, list: &EditList)
        ensures seen { self.new.seen.items ≡ self.old.seen.items ++ (0, list.now) ∷ [] }
        ensures rest { (self.new.heard ≡ self.old.heard) × (self.new.keyed ≡ self.old.keyed) }
    {
        self.seen = self.seen.and(&0, list);
    }
}
