//! Draws the run of a script.

ghost use Rattle.std.specs.Prelude.{◌≡◌, ◌≢◌, ◌<◌, ◌≤◌, ◌^◌, true, List, ℕ, IfOk, IfErr, length};
ghost use Rattle.std.specs.Io.KnownBytes.{Appends};
ghost use Rattle.ds_script_io.specs.Streams.{writer_of, is_flushed, write_failed};
ghost use Rattle.ds_svg.specs.Pages.{IsDocument};
ghost use Rattle.ds_trace_picture.specs.Drawing.{Draws, IsUndrawn, PICTURE_MOST, end_of};

use crate::brief::draw_brief;
use crate::svg::draw;
use ds_script_io::ending::ScriptFault;
use ds_script_io::line::INPUT_LIMIT;
use ds_script_io::streams::Writing;
use ds_svg::page::NoPage;
use ds_trace::record::Untraced;
use ds_trace::row::Trace;
use ds_trace::trace::trace;
use std::alloc::Global;
use std::fmt;
use std::io::Write;

/// How many bytes a picture has at most.
pub const PICTURE_LIMIT: usize = 1_048_576;

/// How much of a run a picture shows.
#[derive(Clone, Copy, Debug, PartialEq, Eq)]
pub enum Detail {
    /// Each event, and each word that changes.
    Steps,
    /// The events and the words that decide, in at most 850 pixels.
    Brief,
}

/// How the drawing of a script ended.
#[derive(Clone, Copy, Debug, PartialEq, Eq, Drop)]
pub enum PictureEnd {
    /// The picture is written.
    Drawn,
    /// This line, counted from 1, has a fault; nothing is written.
    Fault {
        /// The line.
        line: usize,
        /// The fault of the line.
        kind: ScriptFault,
    },
    /// The script has more than 1,048,576 bytes; nothing is written.
    ScriptTooLong,
    /// The run has more than 1,000 events; nothing is written.
    TooManyEvents,
    /// The picture would have more than 1,048,576 bytes; nothing is written.
    TooLong,
    /// The writer failed.
    WriteFailed,
    /// An allocation failed, outside a command that has a refusal for it; nothing is written.
    NoMemory,
}

impl fmt::Display for PictureEnd {
    ghost use Rattle.std.specs.Prelude.{Some};
    ghost use Rattle.ds_trace_picture.specs.Drawing.{end_text};

    ghost output = { λ end. Some (end_text end) };

    fn fmt<W: fmt::Write>(&self, f: &mut fmt::Formatter<W>) -> fmt::Result {
        match self {
            PictureEnd::Drawn => f.write_str("drawn"),
            PictureEnd::Fault { line, kind } => write!(f, "line {line}: {kind}"),
            PictureEnd::ScriptTooLong => f.write_str("script too long: more than 1048576 bytes"),
            PictureEnd::TooManyEvents => f.write_str("run too long: more than 1000 events"),
            PictureEnd::TooLong => f.write_str("picture too long: more than 1048576 bytes"),
            PictureEnd::WriteFailed => f.write_str("the picture could not be written"),
            PictureEnd::NoMemory => f.write_str("out of memory"),
        }
    }
}

// How the drawing of a script ends that has no recording.
fn end_of(why: Untraced) -> PictureEnd
    ensures { result ≡ end_of why }
{
    match why {
        Untraced::Fault { line, kind } => PictureEnd::Fault { line, kind },
        Untraced::TooManyEvents => PictureEnd::TooManyEvents,
        Untraced::NoMemory => PictureEnd::NoMemory,
    }
}

// The picture of a recording.
fn drawn(alloc: Global, recording: &Trace, detail: Detail, limit: usize) -> Result<Vec<u8>, NoPage>
    ensures document { IfOk result (λ svg. IsDocument svg.items) }
    ensures within { IfOk result (λ svg. length svg.items ≤ limit) }
{
    match detail {
        Detail::Steps => draw(alloc, recording, limit),
        Detail::Brief => draw_brief(alloc, recording, limit),
    }
}

// The picture of a script, of at most n bytes.
fn picture(
    alloc: Global,
    script: &[u8],
    detail: Detail,
    limit: usize,
) -> Result<Vec<u8>, PictureEnd>
    requires { length script.now < 2 ^ 62 }
    ensures document { IfOk result (λ svg. IsDocument svg.items) }
    ensures within { IfOk result (λ svg. length svg.items ≤ limit) }
    ensures undrawn { IfErr result (λ end. IsUndrawn script.now end) }
{
    let recording = match trace(alloc, script, true) {
        Ok(recording) => recording,
        Err(why) => return Err(end_of(why)),
    };
    match drawn(alloc, &recording, detail, limit) {
        Ok(svg) => Ok(svg),
        Err(NoPage::TooLong) => Err(PictureEnd::TooLong),
        Err(NoPage::NoMemory) => Err(PictureEnd::NoMemory),
    }
}

// Writes the picture of a script, of at most n bytes.
fn write_picture<W: Write>(
    alloc: Global,
    script: &[u8],
    detail: Detail,
    limit: usize,
    writer: &mut Writing<W>,
) -> PictureEnd
    requires { length script.now < 2 ^ 62 }
    ensures no_failure { result ≢ PictureEnd.WriteFailed → write_failed writer.new ≡ write_failed writer.old }
    ensures write_failed { result ≡ PictureEnd.WriteFailed → write_failed writer.new ≡ true }
    ensures writes { result ≢ PictureEnd.WriteFailed → (out : List ℕ) × Appends (W.contents (writer_of writer.old)) (W.contents (writer_of writer.new)) out
        × Draws limit script.now result out }
{
    let svg = match picture(alloc, script, detail, limit) {
        Ok(svg) => svg,
        Err(end) => return end,
    };
    match writer.write_all(&svg) {
        Ok(()) => PictureEnd::Drawn,
        Err(_) => PictureEnd::WriteFailed,
    }
}

// Writes the picture, and passes on what the writer holds back.
fn draw_within<W: Write>(
    alloc: Global,
    script: &[u8],
    detail: Detail,
    limit: usize,
    writer: &mut Writing<W>,
) -> PictureEnd
    requires { length script.now < 2 ^ 62 }
    ensures no_failure { result ≢ PictureEnd.WriteFailed → write_failed writer.new ≡ write_failed writer.old }
    ensures write_failed { result ≡ PictureEnd.WriteFailed → write_failed writer.new ≡ true }
    ensures flushed { is_flushed writer.old ≡ true → result ≢ PictureEnd.WriteFailed → is_flushed writer.new ≡ true }
    ensures writes { result ≢ PictureEnd.WriteFailed → (out : List ℕ) × Appends (W.contents (writer_of writer.old)) (W.contents (writer_of writer.new)) out
        × Draws limit script.now result out }
{
    let end = write_picture(alloc, script, detail, limit, writer);
    match writer.flush() {
        Ok(()) => end,
        Err(_) => PictureEnd::WriteFailed,
    }
}

/// Writes the run of a script as one self-contained SVG: time runs down, with a lane for each process and a column for each
/// word that changes, both its sides; or, in brief, the events and words that decide.
///
/// After `Drawn` the writer has the picture, of at most 1,048,576 bytes. A script of more than 1,048,576 bytes is
/// `ScriptTooLong`, a line that cannot be carried out a `Fault`, a run of more than 1,000 events `TooManyEvents`, a
/// picture of more than 1,048,576 bytes `TooLong`; `NoMemory` where an allocation failed outside a command that has a
/// refusal for it. Nothing is written then. After `WriteFailed` nothing is said of how much went out.
pub fn draw_script<W: Write>(
    alloc: Global,
    script: &[u8],
    detail: Detail,
    writer: &mut Writing<W>,
) -> PictureEnd
    ensures no_failure { result ≢ PictureEnd.WriteFailed → write_failed writer.new ≡ write_failed writer.old }
    ensures write_failed { result ≡ PictureEnd.WriteFailed → write_failed writer.new ≡ true }
    ensures flushed { is_flushed writer.old ≡ true → result ≢ PictureEnd.WriteFailed → is_flushed writer.new ≡ true }
    ensures writes { result ≢ PictureEnd.WriteFailed → (out : List ℕ) × Appends (W.contents (writer_of writer.old)) (W.contents (writer_of writer.new)) out
        × Draws PICTURE_MOST script.now result out }
{
    if script.len() > INPUT_LIMIT {
        return PictureEnd::ScriptTooLong;
    }
    draw_within(alloc, script, detail, PICTURE_LIMIT, writer)
}
