//! What a commit has kept.

ghost use Rattle.std.specs.Prelude.{◌≡◌, ◌+◌, length};

use ds_store_journal::edit::AnsweredEdit;
use ds_store_keys::note::KeyNote;

/// Edits and keys that a commit has kept. Nothing else makes one but the store that committed their lines.
#[derive(Drop)]
pub struct Committed {
    edits: Vec<AnsweredEdit>,
    keys: Vec<KeyNote>,
}

impl Committed {
    // Of edits and keys whose lines were committed.
    pub(crate) fn of(edits: Vec<AnsweredEdit>, keys: Vec<KeyNote>) -> Committed
        ensures { (result.edits ≡ edits) × (result.keys ≡ keys) }
    {
        Committed { edits, keys }
    }

    /// How many edits and keys they are, together.
    pub fn count(&self) -> usize
        ensures { result ≡ length self.now.edits.items + length self.now.keys.items }
    {
        self.edits.len() + self.keys.len()
    }
}
