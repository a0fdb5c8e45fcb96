//! Lines that edit a cell, and their texts.

ghost use Rattle.std.specs.Prelude.{◌≡◌, option_map};
ghost use Rattle.ds_a1_script.specs.EditLines.{begins_word, after_word, client_text, line_text, script_text};

use ds_script_io::line::word;

/// Whose commands lines are.
#[derive(Clone, Copy, Debug, PartialEq, Eq)]
pub enum Commands {
    /// A script's: `set P C TEXT` and `begin P set C TEXT` edit.
    OfScript,
    /// A client's: `set C TEXT` edits.
    OfClient,
}

// What is after the first word.
fn after_word(words: Option<&[u8]>) -> Option<&[u8]>
    ensures { option_map (λ w. w.now) result ≡ after_word (option_map (λ w. w.now) words.entry) }
{
    let (_, left) = word(words?);
    left
}

// Whether the first word is this one.
fn begins_word(name: &[u8], words: Option<&[u8]>) -> bool
    ensures { result ≡ begins_word name.now (option_map (λ w. w.now) words.entry) }
{
    match words {
        Some(words) => word(words).0 == name,
        None => false,
    }
}

fn script_text(line: &[u8]) -> Option<&[u8]>
    ensures { option_map (λ t. t.now) result ≡ script_text line.now }
{
    let second = after_word(Some(line));
    let third = after_word(second);
    if begins_word(b"set", Some(line)) {
        after_word(third)
    } else if begins_word(b"begin", Some(line)) && begins_word(b"set", third) {
        after_word(after_word(third))
    } else {
        None
    }
}

fn client_text(line: &[u8]) -> Option<&[u8]>
    ensures { option_map (λ t. t.now) result ≡ client_text line.now }
{
    if begins_word(b"set", Some(line)) {
        after_word(after_word(Some(line)))
    } else {
        None
    }
}

/// The text in a line that edits a cell: what is after the space after its cell. None where the line does not edit, or
/// ends before that space.
pub fn line_text(commands: Commands, line: &[u8]) -> Option<&[u8]>
    ensures { option_map (λ t. t.now) result ≡ line_text commands line.now }
{
    match commands {
        Commands::OfScript => script_text(line),
        Commands::OfClient => client_text(line),
    }
}
