//! Lines that have a key say nothing else.

ghost use Rattle.std.specs.Prelude.{◌≡◌, ℕ, List, None, Some, true};
ghost use Rattle.ds_layout.specs.declared.layout.Layout.{Layout};
ghost use Rattle.ds_script_io.specs.Fields.{is_skipped};
ghost use Rattle.ds_store_journal.specs.Joining.{joins_in};
ghost use Rattle.ds_store_journal.specs.Standings.{standing_after};
ghost use Rattle.ds_store_journal.specs.declared.standing.Standing.{Standing};
ghost use Rattle.ds_store_keys.specs.Keys.{KeptKey, key_in};

/// A line that has a key says nothing else: it is passed over, each process stands after it as before it, and it does not say
/// how many may be joined.
pub fn key_lines_say_no_more()
    ensures skipped { (layout : Layout) (line : List ℕ) (k : KeptKey) → key_in layout line ≡ Some k → is_skipped line ≡ true }
    ensures standing { (layout : Layout) (line : List ℕ) (k : KeptKey) (process : ℕ) (s : Standing) → key_in layout line ≡ Some k → standing_after layout process s line ≡ s }
    ensures joins { (layout : Layout) (line : List ℕ) (k : KeptKey) → key_in layout line ≡ Some k → joins_in layout line ≡ None }
{}
