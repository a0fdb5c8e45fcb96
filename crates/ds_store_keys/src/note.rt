//! A key, and the edit that it is of.

ghost use Rattle.std.specs.Prelude.{◌≡◌, IfOk};
ghost use Rattle.ds_store_keys.specs.Keys.{edit_of};

use ds_store_journal::edit::AnsweredEdit;
use std::alloc::{AllocError, Global};
use std::marker::Model;

/// What a key is of.
#[derive(Debug, Drop)]
pub enum KeyUse {
    /// Of this edit, which counts. Its number is the one by which clients know it.
    Edit(AnsweredEdit),
    /// Of no edit, for good: a client was answered that no edit had the key.
    Nothing,
}

/// A key that a client chose, and what it is of: one fact, from the call to the file.
#[derive(Debug, Drop)]
pub struct KeyNote {
    /// The key: 1 to 64 visible characters of ASCII.
    pub key: Vec<u8>,
    /// What it is of.
    pub of: KeyUse,
}

impl Model for KeyNote {
    ghost use Rattle.ds_store_keys.specs.Keys.{KeptKey, edit_of};

    ghost Value = { KeptKey };

    ghost view = { λ n. record { key = n.key.items; edit = edit_of n.of } };
}

impl KeyUse {
    // The same with bytes of its own.
    fn copied(&self, alloc: Global) -> Result<KeyUse, AllocError>
        ensures { IfOk result (λ of. edit_of of ≡ edit_of self.now) }
    {
        let KeyUse::Edit(edit) = self else {
            return Ok(KeyUse::Nothing);
        };
        Ok(KeyUse::Edit(AnsweredEdit {
            process: edit.process,
            number: edit.number,
            cell: edit.cell,
            text: Vec::from_slice(alloc, &edit.text)?,
        }))
    }
}

impl KeyNote {
    /// The same with bytes of its own. An error is that an allocation failed.
    pub fn copied(&self, alloc: Global) -> Result<KeyNote, AllocError>
        ensures { IfOk result (λ note. note ≡ self.now) }
    {
        Ok(KeyNote {
            key: Vec::from_slice(alloc, &self.key)?,
            of: self.of.copied(alloc)?,
        })
    }
}
