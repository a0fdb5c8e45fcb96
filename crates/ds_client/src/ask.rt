//! Lines of a client.

ghost use Rattle.std.specs.Prelude.{◌≡◌, ◌^◌, Some, None, IfOk, IfErr, IsUtf8, option_map};
ghost use Rattle.ds_script_io.specs.Fields.{number_below};
ghost use Rattle.ds_client.specs.Asks.{AsksNothing, Undo, bearing, get_of, history_of, keyed, one_word, outcome_of, place_of, set_of, wish_of, wish_view};
ghost use Rattle.ds_client.specs.declared.ask.AskFault.TheVariants.{NoText};

use ds_formula::decimal::digits;
use ds_script_io::line::word;
use std::{fmt, str};

/// What a client asks a server for.
#[derive(Clone, Copy, Debug)]
pub enum Ask<'a> {
    /// To take this process, and to report its last edit; with the number of the client's last edit that was answered done,
    /// if any, and the server's token, if any.
    Join(usize, Option<u64>, Option<&'a str>),
    /// To take any process that nobody has, with the server's token, if any.
    JoinAny(Option<&'a str>),
    /// To edit a cell.
    Set {
        /// The cell's name, which the server reads.
        cell: &'a str,
        /// The text that the cell gets.
        text: &'a str,
        /// The key by which the edit counts once at most, if it is to have one.
        key: Option<&'a str>,
    },
    /// To edit the cell of this name to the text that it had before its last edit.
    Undo(&'a str),
    /// To report all values.
    Report,
    /// The same, also without a process; with the server's token, if any.
    View(Option<&'a str>),
    /// What the cell of this name is; the same.
    Get(&'a str, Option<&'a str>),
    /// The edits that count, from this place on, where the first has place 0; the same.
    History(usize, Option<&'a str>),
    /// What became of the edit with this key; the same.
    Outcome(&'a str, Option<&'a str>),
    /// To report the process's last edit.
    Last,
}

/// Why a line asks for nothing. Nothing is sent then.
#[derive(Clone, Copy, Debug, PartialEq, Eq)]
pub enum AskFault {
    /// It is none of the lines of a client.
    NoLine,
    /// A word of it is no UTF-8, so that JSON cannot have it.
    NoText,
}

impl fmt::Display for AskFault {
    fn fmt<W: fmt::Write>(&self, f: &mut fmt::Formatter<W>) -> fmt::Result {
        f.write_str(match self {
            AskFault::NoLine => {
                "expected: set CELL TEXT, undo CELL, report, view, get CELL, history [FROM], outcome KEY or last"
            }
            AskFault::NoText => "the line is not UTF-8",
        })
    }
}

impl<'a> Ask<'a> {
    /// The same with this token, if any, where it may be asked without a process.
    pub fn bearing(self, token: Option<&'a str>) -> Ask<'a>
        ensures { wish_view result ≡ bearing (option_map (λ t. t.now) token.entry) (wish_view self.entry) }
    {
        match self {
            Ask::View(_) => Ask::View(token),
            Ask::Get(cell, _) => Ask::Get(cell, token),
            Ask::History(from, _) => Ask::History(from, token),
            Ask::Outcome(key, _) => Ask::Outcome(key, token),
            other => other,
        }
    }

    /// The same with this key, if any, where it is an edit to a text.
    pub fn keyed(self, key: Option<&'a str>) -> Ask<'a>
        ensures { wish_view result ≡ keyed (option_map (λ k. k.now) key.entry) (wish_view self.entry) }
    {
        match self {
            Ask::Set { cell, text, key: _ } => Ask::Set { cell, text, key },
            other => other,
        }
    }
}

fn text_of(bytes: &[u8]) -> Result<&str, AskFault>
    ensures text { IfOk result (λ s. s.now ≡ bytes.now) }
    ensures fault { IfErr result (λ fault. (fault ≡ NoText) × (IsUtf8 bytes.now → ⊥)) }
{
    match str::from_utf8(bytes) {
        Ok(text) => Ok(text),
        Err(_) => Err(AskFault::NoText),
    }
}

// The edit that the words after `set` ask for.
fn read_set(words: Option<&[u8]>) -> Result<Ask<'_>, AskFault>
    ensures ask { IfOk result (λ ask. set_of (option_map (λ w. w.now) words.entry) ≡ Some (wish_view ask)) }
    ensures fault { IfErr result (AsksNothing (set_of (option_map (λ w. w.now) words.entry))) }
{
    let Some(words) = words else {
        return Err(AskFault::NoLine);
    };
    let (cell, text) = word(words);
    Ok(Ask::Set {
        cell: text_of(cell)?,
        text: text_of(text.unwrap_or(&[]))?,
        key: None,
    })
}

// The one word that is there.
fn one_word(words: Option<&[u8]>) -> Option<&[u8]>
    ensures { option_map (λ w. w.now) result ≡ one_word (option_map (λ w. w.now) words.entry) }
{
    match word(words?) {
        (word, None) => Some(word),
        (_, Some(_)) => None,
    }
}

// The undo that the words after `undo` ask for.
fn read_undo(words: Option<&[u8]>) -> Result<Ask<'_>, AskFault>
    ensures ask { IfOk result (λ ask. option_map Undo (one_word (option_map (λ w. w.now) words.entry)) ≡ Some (wish_view ask)) }
    ensures fault { IfErr result (AsksNothing (option_map Undo (one_word (option_map (λ w. w.now) words.entry)))) }
{
    match one_word(words) {
        Some(cell) => Ok(Ask::Undo(text_of(cell)?)),
        None => Err(AskFault::NoLine),
    }
}

// The question that the words after `get` ask.
fn read_get(words: Option<&[u8]>) -> Result<Ask<'_>, AskFault>
    ensures ask { IfOk result (λ ask. option_map get_of (one_word (option_map (λ w. w.now) words.entry)) ≡ Some (wish_view ask)) }
    ensures fault { IfErr result (AsksNothing (option_map get_of (one_word (option_map (λ w. w.now) words.entry)))) }
{
    match one_word(words) {
        Some(cell) => Ok(Ask::Get(text_of(cell)?, None)),
        None => Err(AskFault::NoLine),
    }
}

// The question that the words after `outcome` ask.
fn read_outcome(words: Option<&[u8]>) -> Result<Ask<'_>, AskFault>
    ensures ask { IfOk result (λ ask. option_map outcome_of (one_word (option_map (λ w. w.now) words.entry)) ≡ Some (wish_view ask)) }
    ensures fault { IfErr result (AsksNothing (option_map outcome_of (one_word (option_map (λ w. w.now) words.entry)))) }
{
    match one_word(words) {
        Some(key) => Ok(Ask::Outcome(text_of(key)?, None)),
        None => Err(AskFault::NoLine),
    }
}

// The most that a place may be, and one.
const PLACES: u64 = 1 << 32;

// A number in digits alone, below 2^32.
fn number(word: &[u8]) -> Option<usize>
    ensures { result ≡ number_below (2 ^ 32) word.now }
{
    let (value, rest) = digits(word);
    if word.is_empty() || !rest.is_empty() || value >= PLACES {
        None
    } else {
        Some(value as usize)
    }
}

// The place that the words after `history` name.
fn place(words: Option<&[u8]>) -> Option<usize>
    ensures { result ≡ place_of (option_map (λ w. w.now) words.entry) }
{
    match words {
        Some(word) => number(word),
        None => Some(0),
    }
}

// The question that the words after `history` ask.
fn read_history(words: Option<&[u8]>) -> Result<Ask<'_>, AskFault>
    ensures ask { IfOk result (λ ask. option_map history_of (place_of (option_map (λ w. w.now) words.entry)) ≡ Some (wish_view ask)) }
    ensures fault { IfErr result (AsksNothing (option_map history_of (place_of (option_map (λ w. w.now) words.entry)))) }
{
    match place(words) {
        Some(from) => Ok(Ask::History(from, None)),
        None => Err(AskFault::NoLine),
    }
}

/// What a line of a client, without its end, asks for. An error says why it asks for nothing.
pub fn read_ask(line: &[u8]) -> Result<Ask<'_>, AskFault>
    ensures ask { IfOk result (λ ask. wish_of line.now ≡ Some (wish_view ask)) }
    ensures fault { IfErr result (AsksNothing (wish_of line.now)) }
{
    let (name, words) = word(line);
    if name == b"set".as_slice() {
        read_set(words)
    } else if name == b"undo".as_slice() {
        read_undo(words)
    } else if name == b"get".as_slice() {
        read_get(words)
    } else if name == b"history".as_slice() {
        read_history(words)
    } else if name == b"outcome".as_slice() {
        read_outcome(words)
    } else if name == b"view".as_slice() && words.is_none() {
        Ok(Ask::View(None))
    } else if name == b"report".as_slice() && words.is_none() {
        Ok(Ask::Report)
    } else if name == b"last".as_slice() && words.is_none() {
        Ok(Ask::Last)
    } else {
        Err(AskFault::NoLine)
    }
}
