//! Which texts are keys.

ghost use Rattle.std.specs.Prelude.{◌≡◌};
ghost use Rattle.std.specs.List.{list_all};
ghost use Rattle.std.specs.Char.{is_ascii_graphic};
ghost use Rattle.ds_key.specs.Keys.{KEY_MOST, is_key};
ghost use Rattle.ds_key.specs.declared.key.TheConstants as constants;

/// The most bytes of a key.
pub const KEY_LIMIT: usize = 64;

// Whether all characters are visible ones of ASCII.
fn is_visible(text: &[u8]) -> bool
    ensures { result ≡ list_all is_ascii_graphic text.now }
{
    match text {
        [] => true,
        [first, rest @ ..] => first.is_ascii_graphic() && is_visible(rest),
    }
}

/// Whether a text is a key that a client may give an edit: 1 to 64 visible characters of ASCII, so no blank.
pub fn is_key(text: &[u8]) -> bool
    ensures { result ≡ is_key text.now }
{
    !text.is_empty() && text.len() <= KEY_LIMIT && is_visible(text)
}

/// The constants of this crate are the limits of the definitions.
pub fn constants_are_limits()
    ensures { constants.KEY_LIMIT ≡ KEY_MOST }
{}
