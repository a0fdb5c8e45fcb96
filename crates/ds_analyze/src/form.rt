//! What of an exploration is written.

ghost use Rattle.std.specs.Prelude.{◌≡◌, ◌≢◌, ◌-◌, IfErr, IfOk, List, None, Ok, Some, true, ℕ, length, slice_get};
ghost use Rattle.std.specs.Io.KnownBytes.{Appends};
ghost use Rattle.ds_script_io.specs.Streams.{is_flushed, writer_of};
ghost use Rattle.ds_trace_picture.specs.Drawing.{Draws, PICTURE_MOST};
ghost use Rattle.ds_trace_picture.specs.declared.script.PictureEnd.TheVariants as drawn;
ghost use Rattle.ds_analyze.specs.Forms.{AsksFor, IsForm, IsOutcomePicture, IsOutcomeText, IsUnwritten, LacksPicture, WritesForm, numbered};
ghost use Rattle.ds_analyze.specs.declared.form.Unwritten.TheVariants as unwritten;
ghost use Rattle.ds_cli.specs.declared.exploring.ExploreForm.{ExploreForm};
ghost use Rattle.ds_cli.specs.declared.exploring.ExploreForm.TheVariants as forms;

use ds_cli::exploring::ExploreForm;
use ds_explore::exploration::{Exploration, Outcome};
use ds_explore::explore::ExploreEnd;
use ds_explore_summary::json::{LinesFault, lines};
use ds_explore_summary::summary::summary;
use ds_script_io::streams::Writing;
use ds_trace_picture::script::{Detail, PictureEnd, draw_script};
use std::alloc::{AllocError, Global};
use std::io::Write;

/// Why a form of an exploration is not written.
#[derive(Clone, Copy, Debug, PartialEq, Eq)]
pub enum Unwritten {
    /// No outcome has this number; this is how many there are.
    NoOutcome { number: usize, count: usize },
    /// The script is not UTF-8, and JSON is.
    NotUtf8,
    /// There is no picture of the outcome's script: this is why.
    NoPicture(PictureEnd),
    /// An allocation failed.
    NoMemory,
}

// The outcome with this number, from 1.
fn outcome(exploration: &Exploration, number: usize) -> Result<&Outcome, Unwritten>
    ensures is { IfOk result (λ outcome. numbered exploration.now number ≡ Some outcome.now) }
    ensures none { (form : ExploreForm) → AsksFor form number → IfErr result (IsUnwritten exploration.now form) }
{
    match exploration.outcomes.get(number.saturating_sub(1)) {
        Some(outcome) => Ok(outcome),
        None => Err(Unwritten::NoOutcome {
            number,
            count: exploration.outcomes.len(),
        }),
    }
}

// The text of the outcome with this number.
fn outcome_text(
    alloc: Global,
    exploration: &Exploration,
    number: usize,
) -> Result<Vec<u8>, Unwritten>
    ensures is { IfOk result (λ text. IsOutcomeText exploration.now number text.items) }
    ensures none { IfErr result (IsUnwritten exploration.now (forms.Outcome number)) }
{
    let outcome = outcome(exploration, number)?;
    match outcome.text(alloc, number as u128) {
        Ok(text) => Ok(text),
        Err(_) => Err(Unwritten::NoMemory),
    }
}

// A picture of a script.
fn picture(alloc: Global, script: &[u8]) -> Result<Vec<u8>, PictureEnd>
    ensures drawn { IfOk result (λ text. Draws PICTURE_MOST script.now drawn.Drawn text.items) }
    ensures lacks { IfErr result (LacksPicture script.now) }
{
    let mut writer = Writing::new(Vec::new(alloc));
    match draw_script(alloc, script, Detail::Steps, &mut writer) {
        PictureEnd::Drawn => Ok(writer.into_inner()),
        end => Err(end),
    }
}

// A picture of the script of the outcome with this number.
fn outcome_picture(
    alloc: Global,
    exploration: &Exploration,
    number: usize,
) -> Result<Vec<u8>, Unwritten>
    ensures is { IfOk result (λ text. IsOutcomePicture exploration.now number text.items) }
    ensures none { IfErr result (IsUnwritten exploration.now (forms.Picture number)) }
{
    let outcome = outcome(exploration, number)?;
    match picture(alloc, &outcome.script) {
        Ok(text) => Ok(text),
        Err(end) => Err(Unwritten::NoPicture(end)),
    }
}

// A text for which memory may have lacked.
fn or_no_memory(text: Result<Vec<u8>, AllocError>) -> Result<Vec<u8>, Unwritten>
    ensures text { IfOk result (λ t. text ≡ Ok t) }
    ensures memory { IfErr result (λ why. why ≡ unwritten.NoMemory) }
{
    match text {
        Ok(text) => Ok(text),
        Err(_) => Err(Unwritten::NoMemory),
    }
}

// Its lines of JSON.
fn json_text(alloc: Global, exploration: &Exploration) -> Result<Vec<u8>, Unwritten>
    ensures is { IfOk result (λ text. IsForm exploration.now forms.Json text.items) }
    ensures none { IfErr result (IsUnwritten exploration.now forms.Json) }
{
    match lines(alloc, exploration) {
        Ok(text) => Ok(text),
        Err(LinesFault::NotUtf8) => Err(Unwritten::NotUtf8),
        Err(LinesFault::NoMemory) => Err(Unwritten::NoMemory),
    }
}

// What of an exploration is written, in the form that is asked for.
fn form_text(
    alloc: Global,
    exploration: &Exploration,
    form: ExploreForm,
) -> Result<Vec<u8>, Unwritten>
    ensures is { IfOk result (λ text. IsForm exploration.now form text.items) }
    ensures none { IfErr result (IsUnwritten exploration.now form) }
{
    match form {
        ExploreForm::All => or_no_memory(exploration.text(alloc)),
        ExploreForm::Summary => or_no_memory(summary(alloc, exploration)),
        ExploreForm::Json => json_text(alloc, exploration),
        ExploreForm::Outcome(number) => outcome_text(alloc, exploration, number),
        ExploreForm::Picture(number) => outcome_picture(alloc, exploration, number),
    }
}

// Writes a text, and passes on what the writer holds back: whether both went well.
fn write_whole<W: Write>(writer: &mut Writing<W>, text: &[u8]) -> bool
    ensures { result ≡ true → Appends (W.contents (writer_of writer.old)) (W.contents (writer_of writer.new)) text.now × (is_flushed writer.new ≡ true) }
{
    writer.write_all(text).is_ok() && writer.flush().is_ok()
}

/// Writes what of an exploration is asked for, and passes on what the writer holds back: how the exploration ends, or that
/// the writer failed, after which nothing is said of how much went out. An error says why there is no such text; nothing is
/// written then.
pub fn write_form<W: Write>(
    alloc: Global,
    exploration: &Exploration,
    form: ExploreForm,
    writer: &mut Writing<W>,
) -> Result<ExploreEnd, Unwritten>
    ensures writes { IfOk result (WritesForm exploration.now form (W.contents (writer_of writer.old)) (W.contents (writer_of writer.new)) (is_flushed writer.new)) }
    ensures none { IfErr result (λ why. (writer.new ≡ writer.old) × IsUnwritten exploration.now form why) }
{
    let text = form_text(alloc, exploration, form)?;
    if write_whole(writer, &text) {
        Ok(exploration.end())
    } else {
        Ok(ExploreEnd::WriteFailed)
    }
}
