//! `dsheet run` and `dsheet run --stops`.

ghost use Rattle.std.specs.Prelude.{◌≡◌, ◌≢◌, ◌⊎◌, IfErr, IfOk, List, None, Some, ℕ};
ghost use Rattle.std.specs.Io.KnownBytes.{Appends, Consumes};
ghost use Rattle.ds_formula.specs.Limits.{INPUT_MOST};
ghost use Rattle.ds_script_io.specs.Streams.{has_ended, read_failed, reader_of, writer_of};
ghost use Rattle.ds_script.specs.Script.{Concludes};
ghost use Rattle.ds_script_stops.specs.StopBlocks.{StopsInRange};
ghost use Rattle.ds_batch.specs.Answers.{IsAnswered, IsInForm};
ghost use Rattle.ds_batch.specs.Scripts.{IsReadOf, WereRead, lines_done, notation_by, refused_at, status_by, text_of, unread_of};

use crate::closing::Closing;
use crate::copying::Copying;
use crate::faults::{show_answered, show_line, show_refusals, show_refused};
use crate::progress::Progress;
use crate::refusals::{AnswerForm, Refusals, Watching};
use crate::source::{Source, open};
use crate::status::{CLOSED, NO_MEMORY, REFUSED, run_status, script_status};
use ds_a1::notation::Notation;
use ds_a1_script::lines::Commands;
use ds_a1_script::script::{OpenScript, RefusedLine, open_script};
use ds_sched::{Reading, ScriptEnd, StopRange, Writing, run_script, stop_in_range};
use ds_script_hints::hint::line_at;
use ds_script_io::input::{InputEnd, read_input};
use ds_script_io::line::INPUT_LIMIT;
use ds_script_json::script::run_script_in_json;
use std::alloc::Global;
use std::fs::{File, Files};
use std::io::{self, BufWriter, Read, Write};

/// How a script is run.
#[derive(Clone, Copy, Debug, PartialEq, Eq)]
pub struct RunForm {
    /// How formulas are written.
    pub notation: Notation,
    /// Whether an answer that is a refusal counts as a fault, once the script has ended.
    pub strict: bool,
    /// How its answers are written; those of `run_stops` are always words.
    pub answers: AnswerForm,
}

// Reports on standard error how a script ended, where that is not as it should; of a fault with its line.
fn print_end(rt: &impl Eprint, end: &ScriptEnd, script: &[u8]) {
    match end {
        ScriptEnd::Ended => {}
        ScriptEnd::Fault { line, kind } => {
            let _reported = eprintln!(rt; "{end}");
            show_line(rt, script, *line, *kind);
        }
        _ => {
            let _reported = eprintln!(rt; "dsheet: {end}");
        }
    }
}

/// Reports on standard error that memory is out, and gives the status of that, 4.
pub fn no_memory(rt: &impl Eprint) -> u8
    ensures { result ≡ 4 }
{
    let _reported = eprintln!(rt; "dsheet: out of memory");
    NO_MEMORY
}

// Why an input that has ended so is no script in this notation, where it is none.
fn unread(end: InputEnd, notation: Notation) -> Option<ScriptEnd>
    ensures { result ≡ unread_of end notation }
{
    match (end, notation) {
        (InputEnd::Failed, _) => Some(ScriptEnd::ReadFailed),
        (InputEnd::TooLong, Notation::A1) => Some(ScriptEnd::TooLong),
        _ => None,
    }
}

// A script from a reader. An error is the status.
pub(crate) fn read_script<R: AllocGlobal + Eprint, I: Read + Drop>(
    rt: &R,
    input: I,
    notation: Notation,
) -> Result<ReadScript, u8>
    ensures read { IfOk result (λ read. (bytes : List ℕ) × WereRead notation (I.remaining input) bytes × IsReadOf notation bytes read) }
    ensures status { IfErr result (λ status. (status ≡ 3) ⊎ (status ≡ 4)) }
{
    let mut reader = Reading::new(input);
    let Ok(input) = read_input(rt.alloc(), &mut reader, INPUT_LIMIT) else {
        return Err(no_memory(rt));
    };
    if let Some(fault) = unread(input.end, notation) {
        print_end(rt, &fault, &input.bytes);
        return Err(script_status(&fault));
    }
    opened(rt, notation, input.bytes)
}

// A script that was read, in OpenFormula. An error is the status.
fn opened<R: AllocGlobal + Eprint>(
    rt: &R,
    notation: Notation,
    script: Vec<u8>,
) -> Result<ReadScript, u8>
    ensures read { IfOk result (IsReadOf notation script.items) }
    ensures status { IfErr result (λ status. status ≡ 4) }
{
    let opened = match notation {
        Notation::OpenFormula => None,
        Notation::A1 => match open_script(rt.alloc(), &script) {
            Ok(script) => Some(script),
            Err(_) => return Err(no_memory(rt)),
        },
    };
    Ok(ReadScript { script, opened })
}

// A script that was read, and what it is in OpenFormula where it was in A1 notation.
#[derive(Drop)]
pub(crate) struct ReadScript {
    pub(crate) script: Vec<u8>,
    opened: Option<OpenScript>,
}

impl ReadScript {
    // The script in OpenFormula, up to the first line whose text is refused as one in A1 notation.
    pub(crate) fn text(&self) -> &[u8]
        ensures { result.now ≡ text_of self.now }
    {
        match &self.opened {
            Some(open) => &open.text,
            None => &self.script,
        }
    }

    // The notation that it was in.
    pub(crate) fn notation(&self) -> Notation
        ensures { result ≡ notation_by self.now.opened }
    {
        match &self.opened {
            Some(_) => Notation::A1,
            None => Notation::OpenFormula,
        }
    }

    // The line whose text was refused as one in A1 notation, where the script ended well before it.
    pub(crate) fn refused(&self, end: &ScriptEnd) -> Option<RefusedLine>
        ensures { result ≡ refused_at end.now self.now.opened }
    {
        match (end, &self.opened) {
            (ScriptEnd::Ended, Some(open)) => open.refused,
            _ => None,
        }
    }

    // The lines that were carried out.
    pub(crate) fn lines(&self, end: &ScriptEnd) -> usize
        ensures { result ≡ lines_done end.now self.now.opened }
    {
        match end {
            ScriptEnd::Ended => match self.refused(end) {
                Some(refused) => refused.line.saturating_sub(1),
                None => usize::MAX,
            },
            ScriptEnd::Fault { line, kind: _ } => line.saturating_sub(1),
            _ => 0,
        }
    }

    // The status of a run of the script, by how many of its answers are refusals.
    pub(crate) fn status(&self, end: &ScriptEnd, strict: bool, refused: u64) -> u8
        ensures { result ≡ status_by (refused_at end.now self.now.opened) end.now strict refused }
    {
        match self.refused(end) {
            Some(_) => REFUSED,
            None => run_status(end, strict, refused),
        }
    }

    // Reports how a run of the script ended.
    pub(crate) fn conclude<R: AllocGlobal + Eprint>(&self, rt: &R, end: &ScriptEnd) {
        let Some(refused) = self.refused(end) else {
            print_end(rt, end, &self.script);
            return;
        };
        let line = line_at(&self.script, refused.line).unwrap_or(&[]);
        show_refused(
            rt,
            Commands::OfScript,
            refused.line as u64,
            line,
            refused.fault,
        );
    }
}

// Reports on standard error how many answers of a script are refusals, where they count and there are any.
pub(crate) fn print_refusals(rt: &impl Eprint, strict: bool, refused: u64) {
    if strict && refused > 0 {
        let _reported = eprintln!(rt; "refusals: {refused}");
    }
}

// Runs a script with its answers in this form.
fn run_answered<R: Read, W: Write>(
    alloc: Global,
    answers: AnswerForm,
    reader: &mut Reading<R>,
    writer: &mut Writing<W>,
) -> ScriptEnd
    ensures { result ≢ ScriptEnd.WriteFailed → (bytes out text : List ℕ) × Consumes (R.remaining (reader_of reader.old)) (R.remaining (reader_of reader.new)) bytes
        × Appends (W.contents (writer_of writer.old)) (W.contents (writer_of writer.new)) text
        × Concludes INPUT_MOST (R.remaining (reader_of reader.new)) (has_ended reader.new) (read_failed reader.new) bytes out result
        × IsInForm answers bytes out text }
{
    match answers {
        AnswerForm::Words => run_script(alloc, reader, writer),
        AnswerForm::Json => run_script_in_json(alloc, reader, writer),
    }
}

// Runs a script that was read, with its answers in this form.
fn run_read<W: Write>(
    alloc: Global,
    answers: AnswerForm,
    script: &ReadScript,
    writer: &mut Writing<W>,
) -> ScriptEnd
    ensures { result ≢ ScriptEnd.WriteFailed → (out text : List ℕ) × Appends (W.contents (writer_of writer.old)) (W.contents (writer_of writer.new)) text
        × IsAnswered answers (text_of script.now) out text result }
{
    let mut reader = Reading::new(script.text());
    run_answered(alloc, answers, &mut reader, writer)
}

// Writes what is reported of a crash after each step of a script that was read which is in the range.
pub(crate) fn stop_read<W: Write>(
    alloc: Global,
    script: &ReadScript,
    range: StopRange,
    writer: &mut Writing<W>,
) -> ScriptEnd
    ensures { result ≢ ScriptEnd.WriteFailed → (out : List ℕ) × Appends (W.contents (writer_of writer.old)) (W.contents (writer_of writer.new)) out
        × StopsInRange range INPUT_MOST (text_of script.now) out result }
{
    stop_in_range(alloc, script.text(), range, writer)
}

// A script in A1 notation from a reader, as `run`.
fn run_a1<R: AllocGlobal + Print + Eprint, I: Read + Drop>(rt: &R, input: I, form: RunForm) -> u8 {
    let mut closed = false;
    let output = Closing::new(io::writer(rt), &mut closed);
    let Ok(buffered) = BufWriter::new(rt.alloc(), output) else {
        return no_memory(rt);
    };
    let script = match read_script(rt, input, Notation::A1) {
        Ok(script) => script,
        Err(status) => return status,
    };
    let Ok(mut refusals) = Refusals::new(rt.alloc(), form.answers) else {
        return no_memory(rt);
    };
    let end = {
        let mut writer = Writing::new(Watching::new(buffered, &mut refusals));
        run_read(rt.alloc(), form.answers, &script, &mut writer)
    };
    if closed {
        return CLOSED;
    }
    script.conclude(rt, &end);
    show_answered(rt, Notation::A1, &script.script, refusals.texts());
    print_refusals(rt, form.strict, refusals.count());
    script.status(&end, form.strict, refusals.count())
}

// A script in OpenFormula from a reader, as `run`.
fn run_open<R: AllocGlobal + Print + Eprint, I: Read + Drop>(
    rt: &R,
    input: I,
    form: RunForm,
) -> u8 {
    let mut closed = false;
    let output = Closing::new(io::writer(rt), &mut closed);
    let Ok(buffered) = BufWriter::new(rt.alloc(), output) else {
        return no_memory(rt);
    };
    let mut script = Vec::new(rt.alloc());
    let Ok(mut refusals) = Refusals::new(rt.alloc(), form.answers) else {
        return no_memory(rt);
    };
    let end = {
        let mut reader = Reading::new(Copying::new(input, &mut script));
        let mut writer = Writing::new(Watching::new(buffered, &mut refusals));
        run_answered(rt.alloc(), form.answers, &mut reader, &mut writer)
    };
    if closed {
        return CLOSED;
    }
    print_end(rt, &end, &script);
    show_answered(rt, Notation::OpenFormula, &script, refusals.texts());
    print_refusals(rt, form.strict, refusals.count());
    run_status(&end, form.strict, refusals.count())
}

// A script from a reader, as `run`.
fn run_from<R: AllocGlobal + Print + Eprint, I: Read + Drop>(
    rt: &R,
    input: I,
    form: RunForm,
) -> u8 {
    match form.notation {
        Notation::OpenFormula => run_open(rt, input, form),
        Notation::A1 => run_a1(rt, input, form),
    }
}

/// `dsheet run`: a script in this form, of at most 1,048,576 bytes, its answers to standard output. A line with a fault
/// ends it and is reported on standard error, and so does one whose text is none in A1 notation; the answers of the lines
/// before it are written. Gives the exit status, `run_status` of how the script ended, or 3 where the file cannot be opened, or
/// 141, with no word of it, where nobody reads the answers any more.
pub fn run<R: AllocGlobal + Input + Print + Eprint + Files<File = File>>(
    rt: &R,
    source: Source<'_>,
    form: RunForm,
) -> u8 {
    match source {
        Source::StandardInput => run_from(rt, rt.reader(), form),
        Source::File(path) => match open(rt, path) {
            Ok(file) => run_from(rt, file, form),
            Err(status) => status,
        },
    }
}

/// The stops from the one after `from` steps to the one after `to` steps; with 0 for `to`, to the end of the script.
pub fn stops_between(from: u64, to: u64) -> StopRange
    ensures first { result.first ≡ from }
    ensures open { to ≡ 0 → result.last ≡ None }
    ensures last { to ≢ 0 → result.last ≡ Some to }
{
    StopRange {
        first: from,
        last: if to == 0 { None } else { Some(to) },
    }
}

// The crashes of a script from a reader, as `run_stops`.
fn stops_from<R: AllocGlobal + Print + Eprint, I: Read + Drop>(
    rt: &R,
    input: I,
    range: StopRange,
    form: RunForm,
    shows: bool,
) -> u8 {
    let mut closed = false;
    let output = Closing::new(io::writer(rt), &mut closed);
    let Ok(buffered) = BufWriter::new(rt.alloc(), output) else {
        return no_memory(rt);
    };
    let script = match read_script(rt, input, form.notation) {
        Ok(script) => script,
        Err(status) => return status,
    };
    let end = {
        let mut writer = Writing::new(Progress::new(buffered, rt, shows));
        stop_read(rt.alloc(), &script, range, &mut writer)
    };
    if closed {
        return CLOSED;
    }
    script.conclude(rt, &end);
    let refused = show_refusals(rt, script.notation(), &script.script, script.lines(&end));
    print_refusals(rt, form.strict, refused);
    script.status(&end, form.strict, refused)
}

/// `dsheet run --stops`: a script in this form, of at most 1,048,576 bytes, and to standard output what is reported of a
/// crash after each of its steps that is in the range. A line with a fault ends it and is reported on standard error, as by
/// `run`. Where `shows` is true, it shows there how far it is. Gives the exit status, `run_status` of how the script ended,
/// by the texts that are refused, or 3 where the file cannot be opened, or 141 as `run`.
pub fn run_stops<R: AllocGlobal + Input + Print + Eprint + Files<File = File>>(
    rt: &R,
    source: Source<'_>,
    range: StopRange,
    form: RunForm,
    shows: bool,
) -> u8 {
    match source {
        Source::StandardInput => stops_from(rt, rt.reader(), range, form, shows),
        Source::File(path) => match open(rt, path) {
            Ok(file) => stops_from(rt, file, range, form, shows),
            Err(status) => status,
        },
    }
}
