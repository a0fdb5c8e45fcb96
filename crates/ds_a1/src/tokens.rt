//! The words of a text, and which of them are references.

ghost use Rattle.std.specs.Prelude.{◌≡◌, ◌≤◌, length};
ghost use Rattle.ds_formula.specs.Bytes.{begins};
ghost use Rattle.ds_formula.specs.References.{without_dollar};
ghost use Rattle.ds_a1.specs.Tokens.{are_digits, begins_reference, after_letters, goes_on, is_cell, is_column_and_row, is_row, is_word_byte, tokens};
ghost use Rattle.ds_a1.specs.Words.{word_length};

fn is_word_byte(byte: u8) -> bool
    ensures { result ≡ is_word_byte byte }
{
    byte.is_ascii_alphabetic()
        || byte.is_ascii_digit()
        || byte == b'.'
        || byte == b'_'
        || byte == b'$'
}

/// How many bytes of a word are at the front.
pub(crate) fn word_length(text: &[u8]) -> usize
    ensures value { result ≡ word_length text.now }
    ensures at_most { result ≤ length text.now }
{
    let mut rest = text;
    let mut count = 0;
    while let [byte, after @ ..] = rest
        && is_word_byte(*byte)
    {
        rest = after;
        count += 1;
    }
    count
}

fn without_dollar(text: &[u8]) -> &[u8]
    ensures { result.now ≡ without_dollar text.now }
{
    match text {
        [b'$', rest @ ..] => rest,
        _ => text,
    }
}

// What is after the letters at the front.
fn after_letters(text: &[u8]) -> &[u8]
    ensures { result.now ≡ after_letters text.now }
{
    let mut rest = text;
    while let [byte, after @ ..] = rest
        && byte.is_ascii_alphabetic()
    {
        rest = after;
    }
    rest
}

fn are_digits(text: &[u8]) -> bool
    ensures { result ≡ are_digits text.now }
{
    let mut rest = text;
    while let [byte, after @ ..] = rest {
        if !byte.is_ascii_digit() {
            return false;
        }
        rest = after;
    }
    true
}

fn is_row(text: &[u8]) -> bool
    ensures { result ≡ is_row text.now }
{
    match text {
        [first, digits @ ..] => b'1' <= *first && *first <= b'9' && are_digits(digits),
        [] => false,
    }
}

fn is_column_and_row(text: &[u8]) -> bool
    ensures { result ≡ is_column_and_row text.now }
{
    match text {
        [first, rest @ ..] => {
            first.is_ascii_alphabetic() && is_row(without_dollar(after_letters(rest)))
        }
        [] => false,
    }
}

/// Whether a word is the name of a cell, as `A1` or `$A$1`: of one that a sheet may have, or of one beyond.
#[tactic(auto, unfolding(crate::specs::Tokens::is_cell))]
pub(crate) fn is_cell(word: &[u8]) -> bool
    ensures { result ≡ is_cell word.now }
{
    is_column_and_row(without_dollar(word))
}

fn begins_mark(byte: u8, text: &[u8]) -> bool
    ensures { result ≡ begins byte text.now }
{
    match text {
        [first, ..] => *first == byte,
        [] => false,
    }
}

/// Whether a reference in A1 notation is at the front of a text: the name of a cell, and no `(` after it.
pub fn begins_reference(text: &[u8]) -> bool
    ensures { result ≡ begins_reference (tokens text.now) }
{
    let (word, left) = text.split_at(word_length(text));
    is_cell(word) && !begins_mark(b'(', left)
}

/// Whether a reference goes on as a range: a colon is at the front, and another reference after it.
pub(crate) fn goes_on(text: &[u8]) -> bool
    ensures { result ≡ goes_on (tokens text.now) }
{
    if !begins_mark(b':', text) {
        return false;
    }
    let (_, left) = text.split_at(1);
    begins_reference(left)
}
