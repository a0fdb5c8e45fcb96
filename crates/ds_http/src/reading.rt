//! What the target of a request asks to read.

ghost use Rattle.std.specs.Prelude.{◌≡◌, IfSome, option_map, true};
ghost use Rattle.std.specs.List.{list_all};
ghost use Rattle.ds_formula.specs.Cells.{IsInside};
ghost use Rattle.ds_http.specs.Reading.{cell_in, from_in, is_plain, key_in, number_in};
ghost use Rattle.ds_key.specs.Keys.{is_key};

use ds_formula::cells::{Cell, Shape};
use ds_formula::decimal::digits;
use ds_key::key::is_key;

/// The cell that a path names, as `/cells/A1`, where the sheet has it.
pub(crate) fn cell_in(path: &str, shape: &Shape) -> Option<Cell>
    ensures value { result ≡ cell_in shape.now path.now }
    ensures inside { IfSome result (IsInside shape.now) }
{
    shape.named(path.as_bytes().strip_prefix(b"/cells/".as_slice())?)
}

// Whether a byte stands for itself at the end of a path.
fn is_plain(byte: u8) -> bool
    ensures { result ≡ is_plain byte }
{
    !matches!(byte, b'/' | b'?' | b'#' | b'%')
}

// Whether all bytes do.
fn are_plain(word: &[u8]) -> bool
    ensures { result ≡ list_all is_plain word.now }
{
    match word {
        [] => true,
        [first, rest @ ..] => is_plain(*first) && are_plain(rest),
    }
}

/// The key that a path names as it stands, as `/edits/a-1`: one without `/`, `?`, `#` and `%`.
pub(crate) fn key_in(path: &str) -> Option<&[u8]>
    ensures value { option_map (λ k. k.now) result ≡ key_in path.now }
    ensures is { IfSome result (λ k. is_key k.now ≡ true) }
{
    let key = path.as_bytes().strip_prefix(b"/edits/".as_slice())?;
    if is_key(key) && are_plain(key) {
        Some(key)
    } else {
        None
    }
}

/// A number in digits alone, of at most 64 bits.
pub(crate) fn number_in(word: &[u8]) -> Option<usize>
    ensures { result ≡ number_in word.now }
{
    let (value, rest) = digits(word);
    if word.is_empty() || !rest.is_empty() || value == u64::MAX {
        None
    } else {
        Some(value as usize)
    }
}

/// The place from which a query asks for the list of edits, as `from=100`; 0 where there is no query.
pub(crate) fn from_in(query: Option<&str>) -> Option<usize>
    ensures { result ≡ from_in (option_map (λ q. q.now) query.entry) }
{
    let Some(query) = query else {
        return Some(0);
    };
    number_in(query.as_bytes().strip_prefix(b"from=".as_slice())?)
}
