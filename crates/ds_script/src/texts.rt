//! The text of each answer.

ghost use Rattle.std.specs.Prelude.{◌≡◌, ◌≢◌, IfOk, string_bytes};
ghost use Rattle.ds_formula.specs.Cells.{IsInside};
ghost use Rattle.ds_layout.specs.Places.{IsPlace};
ghost use Rattle.ds_layout.specs.SheetMemory.{memory};
ghost use Rattle.ds_state.specs.Value.{world_of};
ghost use Rattle.ds_script_io.specs.AnswerTexts.{settled_text};
ghost use Rattle.ds_script.specs.ScriptTexts.{counts_text, changed_text, last_text, unsettled_text, values_of, edit_text, work_text, report_text, recovery_text, migration_text, answer_text, reply_text, at_text, left_text, shown_text, state_text, peek_head, peek_text, word_line, word_text};
ghost use Rattle.ds_script.specs.Doing.{end_text};
ghost use Rattle.ds_script.specs.Plays.{halt_text};

use crate::drive::Halt;
use crate::point::PointName;
use ds_calls::settle::SettleEnd;
use ds_core::reply::Reply;
use ds_eval::value::Value;
use ds_formula::cells::{Cell, Shape};
use ds_layout::mark::State;
use ds_layout::place::Place;
use ds_script_io::answer::{SHORT_LINE, cell_at, done_line, refused_line, settled_lines};
use ds_state::answer::{Answer, EditEnd};
use ds_state::migration::MigrateEnd;
use ds_state::recovery::{LastEdit, RecoveryEnd};
use ds_state::show::ShowEnd;
use ds_state::work::WorkEnd;
use ds_state::world::World;
use std::alloc::{AllocError, Global};

fn counts(counts: bool) -> &'static str
    ensures { result.now ≡ counts_text counts }
{
    if counts { "done" } else { "not-done" }
}

fn changed(changed: bool) -> &'static str
    ensures { result.now ≡ changed_text changed }
{
    if changed {
        "published changed"
    } else {
        "published same"
    }
}

// `P last NUMBER C done`, `P last NUMBER C not-done`.
fn last_line(
    alloc: Global,
    shape: Shape,
    process: usize,
    told: LastEdit,
) -> Result<String, AllocError>
    ensures { IfOk result (λ line. string_bytes line ≡ last_text shape process told) }
{
    let cell = cell_at(shape, told.cell);
    let counts = counts(told.counts);
    format!(in alloc; "{process} last {} {cell} {counts}\n", told.number)
}

// `unsettled mark C WORD`, `unsettled announce P WORD`.
fn unsettled_line(
    alloc: Global,
    shape: Shape,
    place: Place,
    word: u64,
) -> Result<String, AllocError>
    ensures { IfOk result (λ line. string_bytes line ≡ unsettled_text shape place word) }
{
    match place {
        Place::Mark(cell) => {
            let cell = cell_at(shape, cell);
            format!(in alloc; "unsettled mark {cell} {word}\n")
        }
        Place::Announce(process) => format!(in alloc; "unsettled announce {process} {word}\n"),
        _ => format!(in alloc; "unsettled {word}\n"),
    }
}

// The values of a process's last settled report.
fn values(world: &World, process: usize) -> &[Value]
    ensures { result.now ≡ values_of world.now process }
{
    if process < world.situations.len() {
        world.reports.of(process)
    } else {
        &[]
    }
}

// `settled` and the values as CSV, one for each cell; no settled report has another number of them.
fn report_lines(alloc: Global, shape: Shape, values: &[Value]) -> Result<Vec<u8>, AllocError>
    ensures { IfOk result (λ text. text.items ≡ settled_text shape values.now) }
{
    if values.len() != shape.count() {
        return Err(AllocError);
    }
    settled_lines(alloc, &shape, values)
}

// `P published changed`, `P published same`.
fn published_line(alloc: Global, process: usize, how: bool) -> Result<String, AllocError>
    ensures { IfOk result (λ line. string_bytes line ≡ word_line process (changed_text how)) }
{
    let how = changed(how);
    let mut line = String::with_capacity(alloc, SHORT_LINE)?;
    write!(line, "{process} {how}\n")?;
    Ok(line)
}

// The line of an edit.
fn edit_line(alloc: Global, process: usize, end: EditEnd) -> Result<String, AllocError>
    ensures { IfOk result (λ line. string_bytes line ≡ edit_text process end) }
{
    match end {
        EditEnd::Done(number) => done_line(alloc, process, number),
        EditEnd::Overtaken(number, by) => format!(in alloc;
            "{process} {number} overtaken by {} {}\n",
            by.process, by.number
        ),
    }
}

// The line of a work.
fn work_line(alloc: Global, process: usize, end: WorkEnd) -> Result<String, AllocError>
    ensures { IfOk result (λ line. string_bytes line ≡ work_text process end) }
{
    match end {
        WorkEnd::NotDirty => format!(in alloc; "{process} notdirty\n"),
        WorkEnd::Missed => format!(in alloc; "{process} missed\n"),
        WorkEnd::Worn => format!(in alloc; "{process} worn\n"),
        WorkEnd::Published(how) => published_line(alloc, process, how),
        WorkEnd::Again => format!(in alloc; "{process} again\n"),
        WorkEnd::NoMemory => format!(in alloc; "{process} nomemory\n"),
    }
}

// The text of a report, where these are its values once it is settled.
fn report_bytes(
    alloc: Global,
    shape: Shape,
    values: &[Value],
    end: ShowEnd,
) -> Result<Vec<u8>, AllocError>
    ensures { IfOk result (λ text. text.items ≡ report_text shape values.now end) }
{
    match end {
        ShowEnd::Settled => report_lines(alloc, shape, values),
        ShowEnd::Unsettled(place, word) => {
            Ok(unsettled_line(alloc, shape, place, word)?.into_bytes())
        }
    }
}

// The line of a recovery.
fn recovery_line(
    alloc: Global,
    shape: Shape,
    process: usize,
    end: RecoveryEnd,
) -> Result<String, AllocError>
    ensures { IfOk result (λ line. string_bytes line ≡ recovery_text shape process end) }
{
    match end {
        RecoveryEnd::Last(told) => last_line(alloc, shape, process, told),
        RecoveryEnd::Nothing => format!(in alloc; "{process} nothing\n"),
    }
}

// The line of a migration.
fn migration_line(alloc: Global, process: usize, end: MigrateEnd) -> Result<String, AllocError>
    ensures { IfOk result (λ line. string_bytes line ≡ migration_text process end) }
{
    match end {
        MigrateEnd::Migrated => format!(in alloc; "{process} migrated\n"),
        MigrateEnd::Already => format!(in alloc; "{process} already\n"),
    }
}

// The text of an answer to a process.
fn answer_bytes(
    alloc: Global,
    world: &World,
    process: usize,
    answer: Answer,
) -> Result<Vec<u8>, AllocError>
    ensures { IfOk result (λ text. text.items ≡ answer_text world.now process answer) }
{
    let shape = world.words.layout().shape;
    match answer {
        Answer::Edit(end) => Ok(edit_line(alloc, process, end)?.into_bytes()),
        Answer::Work(end) => Ok(work_line(alloc, process, end)?.into_bytes()),
        Answer::Show(end) => report_bytes(alloc, shape, values(world, process), end),
        Answer::Recovery(end) => Ok(recovery_line(alloc, shape, process, end)?.into_bytes()),
        Answer::Migration(end) => Ok(migration_line(alloc, process, end)?.into_bytes()),
    }
}

/// `P at POINT`. An error means that an allocation failed.
pub fn at_line(alloc: Global, process: usize, name: PointName) -> Result<String, AllocError>
    ensures { IfOk result (λ line. string_bytes line ≡ at_text process name) }
{
    let name = name.name();
    format!(in alloc; "{process} at {name}\n")
}

/// The text of a reply to a process, in the world after it: a line, but of a settled report also
/// its values. An error means that an allocation failed.
pub fn reply_bytes(
    alloc: Global,
    world: &World,
    process: usize,
    reply: Reply,
) -> Result<Vec<u8>, AllocError>
    ensures { IfOk result (λ line. line.items ≡ reply_text world.now process reply) }
{
    let line = match reply {
        Reply::Begun(number) => format!(in alloc; "{process} begun {number}\n")?,
        Reply::Entered => format!(in alloc; "{process} begun\n")?,
        Reply::Refused(refusal) => refused_line(alloc, process, refusal)?,
        Reply::Stepped => format!(in alloc; "{process} stepped\n")?,
        Reply::Answered(answer) => return answer_bytes(alloc, world, process, answer),
        Reply::WrongTask => format!(in alloc; "{process} wrong-task\n")?,
        Reply::Stopped => format!(in alloc; "{process} stopped\n")?,
        Reply::Crashed => format!(in alloc; "crashed\n")?,
        Reply::Evicted => format!(in alloc; "evicted\n")?,
        Reply::NotEnabled => format!(in alloc; "{process} not-enabled\n")?,
    };
    Ok(line.into_bytes())
}

/// The text of where a process was driven to. An error means that an allocation failed.
pub fn halt_bytes(
    alloc: Global,
    world: &World,
    process: usize,
    halt: Halt,
) -> Result<Vec<u8>, AllocError>
    ensures { IfOk result (λ line. line.items ≡ halt_text world.now process halt) }
{
    match halt {
        Halt::At(name) => Ok(at_line(alloc, process, name)?.into_bytes()),
        Halt::Replied(reply) => reply_bytes(alloc, world, process, reply),
    }
}

// `clean`, or `left K` where K cells are left.
fn left_line(alloc: Global, left: usize) -> Result<String, AllocError>
    ensures { IfOk result (λ line. string_bytes line ≡ left_text left) }
{
    if left == 0 {
        format!(in alloc; "clean\n")
    } else {
        format!(in alloc; "left {left}\n")
    }
}

/// The text of how a settle of a process ended, in the world after it: `clean`, or `left K` where K
/// cells are left; or of the reply that ended it. An error means that an allocation failed.
pub fn end_bytes(
    alloc: Global,
    world: &World,
    process: usize,
    end: SettleEnd,
) -> Result<Vec<u8>, AllocError>
    ensures { IfOk result (λ text. text.items ≡ end_text world.now process end) }
{
    match end {
        SettleEnd::Left(left) => Ok(left_line(alloc, left)?.into_bytes()),
        SettleEnd::Refused(refusal) => {
            reply_bytes(alloc, world, process, Reply::Refused(refusal))
        }
        SettleEnd::NoMemory => {
            reply_bytes(
                alloc,
                world,
                process,
                Reply::Answered(Answer::Work(WorkEnd::NoMemory)),
            )
        }
    }
}

fn shown(alloc: Global, value: Value) -> Result<String, AllocError>
    ensures { IfOk result (λ text. string_bytes text ≡ shown_text value) }
{
    match value {
        Value::Blank => format!(in alloc; "blank"),
        value => value.to_string(alloc),
    }
}

fn state(alloc: Global, state: State) -> Result<String, AllocError>
    ensures { IfOk result (λ text. string_bytes text ≡ state_text state) }
{
    match state {
        State::Clean => format!(in alloc; "clean"),
        State::Marked => format!(in alloc; "dirty"),
        State::Held(process) => format!(in alloc; "held {process}"),
    }
}

// `C STATE VALUE`.
fn head(alloc: Global, cell: Cell, mark: State, value: Value) -> Result<String, AllocError>
    ensures { IfOk result (λ text. string_bytes text ≡ peek_head cell mark value) }
{
    let mark = state(alloc, mark)?;
    let value = shown(alloc, value)?;
    format!(in alloc; "{cell} {mark} {value}")
}

/// `C STATE VALUE TEXT`; without a text the line ends after the value. An error means that an allocation failed.
pub fn peek_line(alloc: Global, world: &World, cell: Cell) -> Result<Vec<u8>, AllocError>
    requires { IsInside world.now.sheet.layout.shape cell }
    ensures { IfOk result (λ line. line.items ≡ peek_text (world_of world.now) cell) }
{
    let text = world.text_of(alloc, cell)?;
    let head = head(
        alloc,
        cell,
        world.mark_of(cell).state(),
        world.value_of(cell),
    )?;
    let mut line = head.into_bytes();
    if !text.is_empty() {
        line.push(b' ')?;
        line.extend_from_slice(&text)?;
    }
    line.push(b'\n')?;
    Ok(line)
}

/// Both sides of a word. An error means that an allocation failed.
pub fn word_line(alloc: Global, world: &World, place: Place) -> Result<String, AllocError>
    requires { IsPlace world.now.sheet.layout place }
    ensures { IfOk result (λ line. string_bytes line ≡ word_text (memory world.now.sheet) place) }
{
    let word = world.words.word(place);
    format!(in alloc; "{} {}\n", word.cached, word.persisted)
}
