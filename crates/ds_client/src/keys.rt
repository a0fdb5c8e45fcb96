//! Keys of edits.

ghost use Rattle.std.specs.Prelude.{◌≡◌, IfOk, string_bytes};
ghost use Rattle.ds_client.specs.DrawnKeys.{drawn_key};

use std::alloc::{AllocError, Global};

/// The key of the edit of this number, from 0: the prefix, `-`, and the number. It is a key where the prefix is 1 to 43 visible
/// characters of ASCII. An error means that an allocation failed.
pub fn drawn_key(alloc: Global, prefix: &str, number: u64) -> Result<String, AllocError>
    ensures { IfOk result (λ key. string_bytes key ≡ drawn_key prefix.now number) }
{
    format!(in alloc; "{prefix}-{number}")
}
