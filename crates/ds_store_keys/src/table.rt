//! What each key is of.

ghost use Rattle.std.specs.Prelude.{◌≡◌, ◌⊎◌, ◌++◌, ◌∷◌, ◌-◌, ◌↔◌, [], List, ℕ, None, Some, Err, IfErr, IfOk, IsSome, OnErr, OnOk, if◌then◌else◌, map, option_map, take};
ghost use Rattle.std.specs.Str.{bytes_eq};
ghost use Rattle.std.specs.String.{string_bytes};
ghost use Rattle.ds_store_keys.specs.Keys.{StandOnce, edit_of, keys_of};
ghost use Rattle.ds_store_keys.specs.Tables.{AreKeys, found};

use crate::fault::KeyLineFault;
use crate::line::read_key;
use crate::note::{KeyNote, KeyUse};
use ds_layout::layout::Layout;
use ds_store_journal::fault::JournalFault;
use std::alloc::Global;
use std::collections::HashMap;

/// What each key is of.
#[derive(Drop)]
pub struct KeyTable {
    uses: HashMap<Vec<u8>, KeyUse>,
}

impl KeyTable {
    /// A table that has no keys.
    pub fn new(alloc: Global) -> KeyTable
        ensures none { (key : List ℕ) → found result key ≡ None }
        ensures keys { AreKeys result [] }
    {
        KeyTable {
            uses: HashMap::new(alloc),
        }
    }

    /// What a key is of; none where the table has it not.
    pub fn find(&self, key: &[u8]) -> Option<&KeyUse>
        ensures { option_map (λ of. edit_of of.now) result ≡ found self.now key.now }
    {
        self.uses.get(key)
    }

    /// Adds a key. The fault is `KeyAgain` where the table has it, and `NoMemory` where an allocation failed: then each key
    /// is of what it was of.
    pub fn add(&mut self, note: KeyNote) -> Result<(), JournalFault>
        ensures new { OnOk result (found self.old note.key ≡ None) }
        ensures added { OnOk result ((key : List ℕ) → found self.new key ≡ (if bytes_eq key note.key then Some note.edit else found self.old key)) }
        ensures again { (result ≡ Err JournalFault.KeyAgain) ↔ IsSome (found self.old note.key) }
        ensures fault { IfErr result (λ fault. (fault ≡ JournalFault.KeyAgain) ⊎ (fault ≡ JournalFault.NoMemory)) }
        ensures unchanged { OnErr result ((key : List ℕ) → found self.new key ≡ found self.old key) }
    {
        let KeyNote { key, of } = note;
        if self.uses.contains_key(key.as_slice()) {
            return Err(JournalFault::KeyAgain);
        }
        match self.uses.insert(key, of) {
            Ok(_) => Ok(()),
            Err(_) => Err(JournalFault::NoMemory),
        }
    }

    // Adds the key that the next line has, if it has one.
    fn follow(&mut self, alloc: Global, layout: &Layout, line: &[u8]) -> Result<(), JournalFault>
        ensures added { OnOk result ((lines : List (List ℕ)) → AreKeys self.old (keys_of layout.now lines) → AreKeys self.new (keys_of layout.now (lines ++ line.now ∷ []))) }
        ensures fault { IfErr result (λ fault. (fault ≡ JournalFault.KeyAgain) ⊎ (fault ≡ JournalFault.NoMemory)) }
        ensures again { result ≡ Err JournalFault.KeyAgain → (lines : List (List ℕ)) → AreKeys self.old (keys_of layout.now lines) → StandOnce (keys_of layout.now (lines ++ line.now ∷ [])) → ⊥ }
    {
        let Some(read) = read_key(layout, line) else {
            return Ok(());
        };
        let Ok(note) = read.note(alloc) else {
            return Err(JournalFault::NoMemory);
        };
        self.add(note)
    }

    /// The table of the keys that lines of a sheet of this layout have. The fault says of which line the key stands in one
    /// before it.
    pub fn of_lines(
        alloc: Global,
        layout: &Layout,
        lines: &[String],
    ) -> Result<KeyTable, KeyLineFault>
        ensures keys { IfOk result (λ table. AreKeys table (keys_of layout.now (map string_bytes lines.now))) }
        ensures fault { IfErr result (λ fault. (fault.fault ≡ JournalFault.KeyAgain) ⊎ (fault.fault ≡ JournalFault.NoMemory)) }
        ensures again { IfErr result (λ fault. fault.fault ≡ JournalFault.KeyAgain → StandOnce (keys_of layout.now (map string_bytes (take (fault.number - 1) lines.now)))
            × (StandOnce (keys_of layout.now (map string_bytes (take fault.number lines.now))) → ⊥)) }
    {
        let mut table = KeyTable::new(alloc);
        let mut number = 0usize;
        for line in lines {
            number = number.saturating_add(1);
            if let Err(fault) = table.follow(alloc, layout, line.as_bytes()) {
                return Err(KeyLineFault { number, fault });
            }
        }
        Ok(table)
    }
}
