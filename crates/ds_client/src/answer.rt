//! Answers of a server, as a client shows them.

ghost use Rattle.std.specs.Prelude.{◌≡◌, ◌++◌, map, None, Some, IfOk, OnOk, option_map, string_bytes, codes};
ghost use Rattle.csv.specs.Records.{fields_of};
ghost use Rattle.csv.specs.Writing.{default_writer, row_text};
ghost use Rattle.serde_json.specs.View.{items_view, view};
ghost use Rattle.ds_script_io.specs.Csv.{IsReady, text_of};
ghost use Rattle.ds_client.specs.AnswerLines.{byte_in_line, done_shown, edit_shown, ending, entries_in, entry_front, entry_line, entry_shown, error_shown, got_front, got_line, got_shown, heading, last_shown, line_shown, listed_shown, or_blank, number_at, ok_shown, outcome_by, outcome_line, outcome_shown, overtaken_shown, place_shown, refused_shown, says_lost, row_in, rows_in, settled_shown, shown, text_at, text_fault_shown, texts_in, told_shown, unsettled_shown};

use csv::{ByteRecord, Writer, WriterBuilder};
use ds_script_io::answer::refused_line;
use ds_state::refusal::Refusal;
use serde_json::Value as Json;
use std::alloc::{AllocError, Global};

fn text_at<'a>(value: &'a Json, key: &str) -> Option<&'a str>
    ensures { option_map (λ s. s.now) result ≡ text_at key.now (view value.now) }
{
    value.get(key).and_then(Json::as_str)
}

fn number_at(value: &Json, key: &str) -> Option<u64>
    ensures { result ≡ number_at key.now (view value.now) }
{
    value.get(key).and_then(Json::as_u64)
}

// `P NUMBER done`.
fn done(alloc: Global, process: usize, value: &Json) -> Result<Option<String>, AllocError>
    ensures { IfOk result (λ lines. option_map string_bytes lines ≡ done_shown process (view value.now)) }
{
    let Some(number) = number_at(value, "number") else {
        return Ok(None);
    };
    Ok(Some(format!(in alloc; "{process} {number} done\n")?))
}

// `P NUMBER overtaken by Q M`.
fn overtaken(alloc: Global, process: usize, value: &Json) -> Result<Option<String>, AllocError>
    ensures { IfOk result (λ lines. option_map string_bytes lines ≡ overtaken_shown process (view value.now)) }
{
    let (Some(number), Some(by)) = (number_at(value, "number"), value.get("by")) else {
        return Ok(None);
    };
    let (Some(other), Some(its)) = (number_at(by, "process"), number_at(by, "number")) else {
        return Ok(None);
    };
    Ok(Some(format!(in alloc; "{process} {number} overtaken by {other} {its}\n")?))
}

// `P last NUMBER C OUTCOME`, or `P nothing`.
fn told(alloc: Global, process: usize, told: &Json) -> Result<Option<String>, AllocError>
    ensures { IfOk result (λ lines. option_map string_bytes lines ≡ told_shown process (view told.now)) }
{
    if let Json::Null = told {
        return Ok(Some(format!(in alloc; "{process} nothing\n")?));
    }
    let Some(number) = number_at(told, "number") else {
        return Ok(None);
    };
    let (Some(cell), Some(outcome)) = (text_at(told, "cell"), text_at(told, "outcome")) else {
        return Ok(None);
    };
    Ok(Some(format!(in alloc; "{process} last {number} {cell} {outcome}\n")?))
}

fn last(alloc: Global, process: usize, value: &Json) -> Result<Option<String>, AllocError>
    ensures { IfOk result (λ lines. option_map string_bytes lines ≡ last_shown process (view value.now)) }
{
    match value.get("last") {
        Some(last) => told(alloc, process, last),
        None => Ok(None),
    }
}

// `unsettled mark C WORD`, `unsettled announce P WORD`.
fn unsettled(alloc: Global, value: &Json) -> Result<Option<String>, AllocError>
    ensures { IfOk result (λ lines. option_map string_bytes lines ≡ unsettled_shown (view value.now)) }
{
    let (Some(place), Some(word)) = (text_at(value, "place"), number_at(value, "word")) else {
        return Ok(None);
    };
    if place.is_empty() {
        return Ok(Some(format!(in alloc; "unsettled {word}\n")?));
    }
    Ok(Some(format!(in alloc; "unsettled {place} {word}\n")?))
}

// The texts of a row, as a record of CSV. None where one is no text.
fn record_of(alloc: Global, row: &[Json]) -> Result<Option<ByteRecord>, AllocError>
    ensures { IfOk result (λ some. option_map fields_of some ≡ texts_in (items_view row.now)) }
{
    let mut texts = ByteRecord::new(alloc);
    for i in 0..row.len() {
        match row[i].as_str() {
            Some(text) => texts.push_field(text.as_bytes())?,
            None => return Ok(None),
        }
    }
    Ok(Some(texts))
}

// Writes one record.
fn add_record(writer: &mut Writer<Vec<u8>>, texts: &ByteRecord) -> Result<(), AllocError>
    requires { IsReady writer.old }
    ensures { OnOk result (text_of writer.new ≡ text_of writer.old ++ row_text default_writer (fields_of texts.now)) }
{
    match writer.write_byte_record(texts) {
        Ok(()) => Ok(()),
        Err(_) => Err(AllocError),
    }
}

// Lines, and a record after them. Each has a writer of its own, since rows need not be of one length.
fn with_record(lines: Vec<u8>, texts: &ByteRecord) -> Result<Vec<u8>, AllocError>
    ensures { IfOk result (λ more. more.items ≡ lines.items ++ row_text default_writer (fields_of texts.now)) }
{
    let mut writer = WriterBuilder::new().from_writer(lines);
    add_record(&mut writer, texts)?;
    match writer.into_inner() {
        Ok(lines) => Ok(lines),
        Err(_) => Err(AllocError),
    }
}

// Lines, and a row after them, as CSV. None where it is no row of texts.
fn with_row(alloc: Global, lines: Vec<u8>, row: &Json) -> Result<Option<Vec<u8>>, AllocError>
    ensures { IfOk result (λ more. option_map (λ lines. lines.items) more ≡ option_map (λ texts. lines.items ++ row_text default_writer texts) (row_in (view row.now))) }
{
    let Some(fields) = row.as_array() else {
        return Ok(None);
    };
    match record_of(alloc, fields)? {
        Some(texts) => Ok(Some(with_record(lines, &texts)?)),
        None => Ok(None),
    }
}

// Lines, and these rows after them, as CSV. None where one is no row of texts.
fn with_rows(alloc: Global, lines: Vec<u8>, rows: &[Json]) -> Result<Option<Vec<u8>>, AllocError>
    ensures { IfOk result (λ more. option_map (λ lines. lines.items) more ≡ option_map (λ text. lines.items ++ text) (rows_in (items_view rows.now))) }
{
    let mut all = lines;
    for i in 0..rows.len() {
        match with_row(alloc, all, &rows[i])? {
            Some(more) => all = more,
            None => return Ok(None),
        }
    }
    Ok(Some(all))
}

// `settled`, and the values as CSV, a record a row.
fn settled(alloc: Global, value: &Json) -> Result<Option<Vec<u8>>, AllocError>
    ensures { IfOk result (λ lines. option_map (λ l. l.items) lines ≡ settled_shown (view value.now)) }
{
    let Some(rows) = value.get("rows").and_then(Json::as_array) else {
        return Ok(None);
    };
    let heading = Vec::from_slice(alloc, b"settled\n")?;
    with_rows(alloc, heading, rows)
}

// A value in a line.
fn or_blank(value: &str) -> &str
    ensures { result.now ≡ or_blank value.now }
{
    if value.is_empty() { "blank" } else { value }
}

// The process and the number of an edit, `- -` of none.
fn edit_words(alloc: Global, edit: &Json) -> Result<Option<String>, AllocError>
    ensures { IfOk result (λ words. option_map string_bytes words ≡ edit_shown (view edit.now)) }
{
    if let Json::Null = edit {
        return Ok(Some(format!(in alloc; "- -")?));
    }
    let (Some(process), Some(number)) = (number_at(edit, "process"), number_at(edit, "number"))
    else {
        return Ok(None);
    };
    Ok(Some(format!(in alloc; "{process} {number}")?))
}

// A byte of a text in a line: white space is a space.
fn byte_in_line(byte: u8) -> u8
    ensures { result ≡ byte_in_line byte }
{
    match byte {
        b'\t' | b'\n' | b'\r' => b' ',
        other => other,
    }
}

// A text in a line.
fn in_line(alloc: Global, text: &[u8]) -> Result<Vec<u8>, AllocError>
    ensures { IfOk result (λ shown. shown.items ≡ map byte_in_line text.now) }
{
    let mut shown = Vec::with_capacity(alloc, text.len())?;
    for byte in text {
        shown.push(byte_in_line(*byte))?;
    }
    Ok(shown)
}

// The front of a line, and a text as its end.
fn with_ending(alloc: Global, front: Vec<u8>, text: &str) -> Result<Vec<u8>, AllocError>
    ensures { IfOk result (λ line. line.items ≡ front.items ++ ending text.now) }
{
    let mut line = front;
    if !text.is_empty() {
        line.push(b' ')?;
        line.extend_from_slice(&in_line(alloc, text.as_bytes())?)?;
    }
    line.push(b'\n')?;
    Ok(line)
}

// `got C VALUE P NUMBER`.
fn got_front(alloc: Global, cell: &str, value: &str, edit: &str) -> Result<Vec<u8>, AllocError>
    ensures { IfOk result (λ front. front.items ≡ got_front cell.now value.now edit.now) }
{
    let value = or_blank(value);
    let front = format!(in alloc; "got {cell} {value} {edit}")?;
    Ok(front.into_bytes())
}

// `got C VALUE P NUMBER TEXT`.
fn got_line(
    alloc: Global,
    cell: &str,
    value: &str,
    edit: &str,
    text: &str,
) -> Result<Vec<u8>, AllocError>
    ensures { IfOk result (λ line. line.items ≡ got_line cell.now value.now edit.now text.now) }
{
    with_ending(alloc, got_front(alloc, cell, value, edit)?, text)
}

// The same, of an answer.
fn got(alloc: Global, value: &Json) -> Result<Option<Vec<u8>>, AllocError>
    ensures { IfOk result (λ lines. option_map (λ l. l.items) lines ≡ got_shown (view value.now)) }
{
    let (Some(cell), Some(text)) = (text_at(value, "cell"), text_at(value, "text")) else {
        return Ok(None);
    };
    let (Some(shown), Some(edit)) = (text_at(value, "value"), value.get("edit")) else {
        return Ok(None);
    };
    match edit_words(alloc, edit)? {
        Some(edit) => Ok(Some(got_line(alloc, cell, shown, edit.as_str(), text)?)),
        None => Ok(None),
    }
}

// `P NUMBER C`.
fn entry_front(alloc: Global, process: u64, number: u64, cell: &str) -> Result<Vec<u8>, AllocError>
    ensures { IfOk result (λ front. front.items ≡ entry_front process number cell.now) }
{
    let front = format!(in alloc; "{process} {number} {cell}")?;
    Ok(front.into_bytes())
}

// `P NUMBER C TEXT`.
fn entry_line(
    alloc: Global,
    process: u64,
    number: u64,
    cell: &str,
    text: &str,
) -> Result<Vec<u8>, AllocError>
    ensures { IfOk result (λ line. line.items ≡ entry_line process number cell.now text.now) }
{
    with_ending(alloc, entry_front(alloc, process, number, cell)?, text)
}

// The same, of an edit of a list.
fn entry(alloc: Global, edit: &Json) -> Result<Option<Vec<u8>>, AllocError>
    ensures { IfOk result (λ line. option_map (λ l. l.items) line ≡ entry_shown (view edit.now)) }
{
    let (Some(process), Some(number)) = (number_at(edit, "process"), number_at(edit, "number"))
    else {
        return Ok(None);
    };
    let (Some(cell), Some(text)) = (text_at(edit, "cell"), text_at(edit, "text")) else {
        return Ok(None);
    };
    Ok(Some(entry_line(alloc, process, number, cell, text)?))
}

// Lines, and the line of an edit after them. None where it is no edit.
fn with_entry(alloc: Global, lines: Vec<u8>, edit: &Json) -> Result<Option<Vec<u8>>, AllocError>
    ensures { IfOk result (λ more. option_map (λ lines. lines.items) more ≡ option_map (λ line. lines.items ++ line) (entry_shown (view edit.now))) }
{
    let mut all = lines;
    match entry(alloc, edit)? {
        Some(line) => {
            all.extend_from_slice(&line)?;
            Ok(Some(all))
        }
        None => Ok(None),
    }
}

// Lines, and those of these edits after them. None where one is no edit.
fn with_entries(
    alloc: Global,
    lines: Vec<u8>,
    edits: &[Json],
) -> Result<Option<Vec<u8>>, AllocError>
    ensures { IfOk result (λ more. option_map (λ lines. lines.items) more ≡ option_map (λ text. lines.items ++ text) (entries_in (items_view edits.now))) }
{
    let mut all = lines;
    for i in 0..edits.len() {
        match with_entry(alloc, all, &edits[i])? {
            Some(more) => all = more,
            None => return Ok(None),
        }
    }
    Ok(Some(all))
}

// `edits FROM of OF`.
fn heading(alloc: Global, from: u64, of: u64) -> Result<Vec<u8>, AllocError>
    ensures { IfOk result (λ line. line.items ≡ heading from of) }
{
    let line = format!(in alloc; "edits {from} of {of}\n")?;
    Ok(line.into_bytes())
}

// The edits from a place on, a line an edit.
fn listed(alloc: Global, value: &Json) -> Result<Option<Vec<u8>>, AllocError>
    ensures { IfOk result (λ lines. option_map (λ l. l.items) lines ≡ listed_shown (view value.now)) }
{
    let (Some(from), Some(of)) = (number_at(value, "from"), number_at(value, "of")) else {
        return Ok(None);
    };
    let Some(edits) = value.get("edits").and_then(Json::as_array) else {
        return Ok(None);
    };
    with_entries(alloc, heading(alloc, from, of)?, edits)
}

// `outcome KEY never`.
fn never(alloc: Global, key: &str) -> Result<Vec<u8>, AllocError>
    ensures { IfOk result (λ line. line.items ≡ outcome_line key.now None) }
{
    let line = format!(in alloc; "outcome {key} never\n")?;
    Ok(line.into_bytes())
}

// `outcome KEY done P NUMBER C TEXT`: the line of the edit is there already.
fn done_by(alloc: Global, key: &str, edit: &[u8]) -> Result<Vec<u8>, AllocError>
    ensures { IfOk result (λ line. line.items ≡ outcome_line key.now (Some edit.now)) }
{
    let mut line = format!(in alloc; "outcome {key} done ")?.into_bytes();
    line.extend_from_slice(edit)?;
    Ok(line)
}

// The same, of this edit, if there is one, where this is the outcome.
fn outcome_by(
    alloc: Global,
    key: &str,
    outcome: &str,
    edit: &Json,
) -> Result<Option<Vec<u8>>, AllocError>
    ensures { IfOk result (λ lines. option_map (λ l. l.items) lines ≡ outcome_by key.now outcome.now (view edit.now)) }
{
    if let Json::Null = edit {
        return match outcome == "never" {
            true => Ok(Some(never(alloc, key)?)),
            false => Ok(None),
        };
    }
    if outcome != "done" {
        return Ok(None);
    }
    match entry(alloc, edit)? {
        Some(line) => Ok(Some(done_by(alloc, key, &line)?)),
        None => Ok(None),
    }
}

// What became of the edit with this key.
fn outcome(alloc: Global, key: &str, value: &Json) -> Result<Option<Vec<u8>>, AllocError>
    ensures { IfOk result (λ lines. option_map (λ l. l.items) lines ≡ outcome_shown key.now (view value.now)) }
{
    let (Some(outcome), Some(edit)) = (text_at(value, "outcome"), value.get("edit")) else {
        return Ok(None);
    };
    outcome_by(alloc, key, outcome, edit)
}

// `P refused 1 FAULT OFFSET`.
fn text_fault(alloc: Global, process: usize, value: &Json) -> Result<Option<String>, AllocError>
    ensures { IfOk result (λ lines. option_map string_bytes lines ≡ text_fault_shown process (view value.now)) }
{
    let (Some(fault), Some(offset)) = (text_at(value, "fault"), number_at(value, "offset")) else {
        return Ok(None);
    };
    Ok(Some(format!(in alloc; "{process} refused 1 {fault} {offset}\n")?))
}

// An error by its name.
fn error(
    alloc: Global,
    process: usize,
    value: &Json,
    name: &str,
) -> Result<Option<String>, AllocError>
    ensures { IfOk result (λ lines. option_map string_bytes lines ≡ error_shown process (view value.now) name.now) }
{
    let refusal = match name {
        "text" => return text_fault(alloc, process, value),
        "process-taken" => Refusal::Busy,
        "stopped" => Refusal::Stopped,
        "records-full" => Refusal::RecordsFull,
        "no-memory" => Refusal::NoMemory,
        other => return Ok(Some(format!(in alloc; "{process} refused {other}\n")?)),
    };
    Ok(Some(refused_line(alloc, process, refusal)?))
}

// An answer of one line by its name.
fn named(
    alloc: Global,
    process: usize,
    value: &Json,
    name: &str,
) -> Result<Option<String>, AllocError>
    ensures { IfOk result (λ lines. option_map string_bytes lines ≡ line_shown process (view value.now) name.now) }
{
    match name {
        "done" => done(alloc, process, value),
        "overtaken" => overtaken(alloc, process, value),
        "unsettled" => unsettled(alloc, value),
        "join" | "last" => last(alloc, process, value),
        _ => Ok(None),
    }
}

// The bytes of lines, where there are some.
fn bytes_of(lines: Option<String>) -> Option<Vec<u8>>
    ensures { option_map (λ l. l.items) result ≡ option_map string_bytes lines }
{
    match lines {
        Some(lines) => Some(lines.into_bytes()),
        None => None,
    }
}

// An answer that is no error, by its name.
fn answered(
    alloc: Global,
    process: usize,
    key: &str,
    value: &Json,
    name: &str,
) -> Result<Option<Vec<u8>>, AllocError>
    ensures { IfOk result (λ lines. option_map (λ l. l.items) lines ≡ ok_shown process key.now (view value.now) name.now) }
{
    if name == "settled" {
        return settled(alloc, value);
    }
    if name == "history" {
        return listed(alloc, value);
    }
    if name == "got" {
        return got(alloc, value);
    }
    if name == "outcome" {
        return outcome(alloc, key, value);
    }
    Ok(bytes_of(named(alloc, process, value, name)?))
}

// What is shown of an error, if it is one.
fn refused(alloc: Global, process: usize, value: &Json) -> Result<Option<Vec<u8>>, AllocError>
    ensures { IfOk result (λ lines. option_map (λ l. l.items) lines ≡ refused_shown process (view value.now)) }
{
    match text_at(value, "error") {
        Some(name) => Ok(bytes_of(error(alloc, process, value, name)?)),
        None => Ok(None),
    }
}

/// Whether the answer to a join says that the server has lost edits that it had answered done.
pub fn is_lost(answer: &Json) -> bool
    ensures { result ≡ says_lost (view answer.now) }
{
    match answer.get("lost") {
        Some(field) => field.as_bool() == Some(true),
        None => false,
    }
}

/// What a client of a process shows of an answer: lines as a script's answers are, those of a settled report with its
/// values as CSV, those of a list of edits with a line for each. The key is the one of whose edit was asked; it stands in the
/// line of its outcome alone. None where it is no answer of a server. An error means that an allocation failed.
pub fn answer_lines(
    alloc: Global,
    process: usize,
    key: &str,
    answer: &Json,
) -> Result<Option<Vec<u8>>, AllocError>
    ensures { IfOk result (λ lines. option_map (λ l. l.items) lines ≡ shown process key.now (view answer.now)) }
{
    match text_at(answer, "ok") {
        Some(name) => answered(alloc, process, key, answer, name),
        None => refused(alloc, process, answer),
    }
}
