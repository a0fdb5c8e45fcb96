//! Texts inside a page.

ghost use Rattle.std.specs.Prelude.{◌≡◌, ◌++◌, IfOk, OnOk, string_bytes};
ghost use Rattle.ds_svg.specs.Markup.{escaped, is_plain, piece_of};

use std::alloc::{AllocError, Global};

// Whether a byte stands for itself: it is printable, and no part of markup.
fn is_plain(byte: u8) -> bool
    ensures { result ≡ is_plain byte }
{
    32 <= byte && byte <= 126 && byte != b'<' && byte != b'>' && byte != b'&' && byte != b'"'
}

// Appends what stands for a byte to the text.
fn put(text: &mut Vec<u8>, byte: u8) -> Result<(), AllocError>
    ensures { OnOk result (text.new.items ≡ text.old.items ++ piece_of byte) }
{
    if is_plain(byte) {
        return Ok(text.push(byte)?);
    }
    match byte {
        b'<' => text.extend_from_slice(b"&lt;"),
        b'>' => text.extend_from_slice(b"&gt;"),
        b'&' => text.extend_from_slice(b"&amp;"),
        b'"' => text.extend_from_slice(b"&quot;"),
        _ => text.extend_from_slice(b"."),
    }
}

/// Appends these bytes to the text, so that no markup is among them: entities stand for `<`, `>`, `&` and `"`, a dot
/// for each byte that is no printable one of ASCII. An error means that an allocation failed; some of the bytes may
/// stand there then.
pub fn put_escaped(text: &mut Vec<u8>, bytes: &[u8]) -> Result<(), AllocError>
    ensures { OnOk result (text.new.items ≡ text.old.items ++ escaped bytes.now) }
{
    for byte in bytes {
        put(text, *byte)?;
    }
    Ok(())
}
