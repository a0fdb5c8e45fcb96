//! The words of a text, eight bytes each.

ghost use Rattle.std.specs.Prelude.{◌≡◌, ◌<◌, slice_index};
ghost use Rattle.ds_layout.specs.TextWords.{parts_for, length_in, part_of, part_word, bytes_of};

use crate::place::SECOND_PARTS;

/// How many words a text of n bytes takes.
pub fn text_parts(bytes: usize) -> usize
    ensures { result ≡ parts_for bytes }
{
    bytes.div_ceil(8)
}

/// How many bytes of a text of n bytes the part has: eight, or what is left in the last one.
pub fn part_length(bytes: usize, part: usize) -> usize
    requires { part < parts_for bytes }
    ensures { result ≡ length_in bytes part }
{
    (bytes - 8 * part).min(8)
}

// The byte there, or 0 past the end.
fn byte_or_zero(text: &[u8], at: usize) -> u8
    ensures { result ≡ slice_index text.now at }
{
    if at < text.len() { text[at] } else { 0 }
}

/// The word of a part of a text: bytes `8 * part` to `8 * part + 7`, the first in the lowest eight
/// bits, and 0 past the end of the text (our own rule).
pub fn part_word(text: &[u8], part: usize) -> u64
    requires { part < SECOND_PARTS }
    ensures value { result ≡ part_word text.now part }
    ensures reads_back { bytes_of result ≡ part_of text.now part }
{
    let mut bytes = [0u8; 8];
    for i in 0..8 {
        bytes[i] = byte_or_zero(text, 8 * part + i);
    }
    u64::from_le_bytes(bytes)
}

/// The eight bytes of a text's word.
pub fn part_bytes(word: u64) -> [u8; 8]
    ensures { result ≡ bytes_of word }
{
    word.to_le_bytes()
}
