//! The forms of commands: what their words are, in their order.

use crate::wanted::Wanted;
use ds_script_io::line::word;

/// A form that ends with no word, or with a text.
pub(crate) type Form = &'static [Wanted];

const SHEET: Form = &[
    Wanted::Columns,
    Wanted::Rows,
    Wanted::Processes,
    Wanted::Nothing,
];

const LAYOUT: Form = &[Wanted::Layout, Wanted::Nothing];

const SET: Form = &[Wanted::Process, Wanted::Cell, Wanted::Text];

const WORK: Form = &[Wanted::Process, Wanted::Cell, Wanted::Nothing];

const PROCESS: Form = &[Wanted::Process, Wanted::Nothing];

const RUN_TO: Form = &[Wanted::Process, Wanted::To, Wanted::Point, Wanted::Nothing];

const BEGIN: Form = &[Wanted::Process, Wanted::Call, Wanted::Nothing];

const BEGIN_SET: Form = &[Wanted::Process, Wanted::Call, Wanted::Cell, Wanted::Text];

const BEGIN_WORK: Form = &[Wanted::Process, Wanted::Call, Wanted::Cell, Wanted::Nothing];

const CRASH: Form = &[Wanted::Nothing];

const PEEK: Form = &[Wanted::Cell, Wanted::Nothing];

const OF_CELL: Form = &[Wanted::Place, Wanted::Cell, Wanted::Nothing];

const OF_ROW: Form = &[
    Wanted::Place,
    Wanted::Cell,
    Wanted::RowPart,
    Wanted::Nothing,
];

const OF_PROCESS: Form = &[Wanted::Place, Wanted::Process, Wanted::Nothing];

const OF_HEADER: Form = &[
    Wanted::Place,
    Wanted::Process,
    Wanted::Number,
    Wanted::Nothing,
];

const OF_TEXT: Form = &[
    Wanted::Place,
    Wanted::Process,
    Wanted::Number,
    Wanted::TextPart,
    Wanted::Nothing,
];

const OF_NEW_TEXT: Form = &[
    Wanted::Place,
    Wanted::Process,
    Wanted::Number,
    Wanted::NewTextPart,
    Wanted::Nothing,
];

const OF_VERSION: Form = &[Wanted::Place, Wanted::Nothing];

const OF_DONE: Form = &[
    Wanted::Place,
    Wanted::Process,
    Wanted::DonePart,
    Wanted::Nothing,
];

// The first words of commands, each with its form. `begin`, `run`, `evict` and `word` have several.
const COMMANDS: [(&str, Form); 14] = [
    ("sheet", SHEET),
    ("layout", LAYOUT),
    ("set", SET),
    ("work", WORK),
    ("recover", PROCESS),
    ("migrate", PROCESS),
    ("report", PROCESS),
    ("settle", PROCESS),
    ("recalc", PROCESS),
    ("step", PROCESS),
    ("run", PROCESS),
    ("stop", PROCESS),
    ("crash", CRASH),
    ("peek", PEEK),
];

// The words of the sheet, each kind with the form of its place.
const PLACES: [(&str, Form); 7] = [
    ("version", OF_VERSION),
    ("index", OF_ROW),
    ("announce", OF_PROCESS),
    ("header", OF_HEADER),
    ("text", OF_TEXT),
    ("newtext", OF_NEW_TEXT),
    ("done", OF_DONE),
];

fn found(forms: &[(&str, Form)], name: &[u8]) -> Option<Form> {
    for (known, form) in forms {
        if known.as_bytes() == name {
            return Some(*form);
        }
    }
    None
}

// The word after the first one; empty where there is none.
fn second(words: Option<&[u8]>) -> &[u8] {
    let (_, behind) = word(words.unwrap_or(&[]));
    word(behind.unwrap_or(&[])).0
}

/// The form of the command with this first word, by the words after it; none where there is no such command.
pub(crate) fn form_of(name: &[u8], words: Option<&[u8]>) -> Option<Form> {
    if name == b"begin".as_slice() {
        let call = second(words);
        if call == b"set".as_slice() {
            Some(BEGIN_SET)
        } else if call == b"work".as_slice() {
            Some(BEGIN_WORK)
        } else {
            Some(BEGIN)
        }
    } else if name == b"evict".as_slice() || name == b"word".as_slice() {
        let (place, _) = word(words.unwrap_or(&[]));
        Some(found(&PLACES, place).unwrap_or(OF_CELL))
    } else if name == b"run".as_slice() && !second(words).is_empty() {
        Some(RUN_TO)
    } else {
        found(&COMMANDS, name)
    }
}
