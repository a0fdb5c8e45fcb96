//! Which answers of a script are refusals, and which texts they refuse.

ghost use Rattle.std.specs.Prelude.{◌≡◌, option_map};
ghost use Rattle.ds_batch.specs.Refusals.{is_refusal, is_refusal_in, is_refusal_in_json, says_refused};

use ds_formula::fault::TextFault;
use ds_script_hints::notes::kind_named;
use ds_script_io::line::word;
use serde_json::Value as Json;
use std::alloc::{AllocError, Global};
use std::io::{self, Write};
use std::str;

/// How the answers of a script are written.
#[derive(Clone, Copy, Debug, PartialEq, Eq)]
pub enum AnswerForm {
    /// As lines of words.
    Words,
    /// As lines of JSON.
    Json,
}

/// A text that an answer refuses.
#[derive(Clone, Copy, Debug)]
pub struct RefusedText {
    /// The process that it was of.
    pub process: usize,
    /// What is wrong with it.
    pub fault: TextFault,
}

// How many bytes of a line are kept: no refusal has more.
const LINE_MOST: usize = 128;

// What a refusal begins with in JSON, and no other answer.
const JSON_REFUSAL: &[u8] = b"{\"code\":";

/// The answers of a script that are refusals.
#[derive(Debug, Drop)]
pub struct Refusals {
    alloc: Global,
    form: AnswerForm,
    // What has come of a line that has not ended, up to the most that is kept.
    line: Vec<u8>,
    count: u64,
    texts: Vec<RefusedText>,
}

// Whether the rest of a line begins with the word `refused`.
fn says_refused(rest: Option<&[u8]>) -> bool
    ensures { result ≡ says_refused (option_map (λ r. r.now) rest.entry) }
{
    match rest {
        Some(rest) => word(rest).0 == b"refused".as_slice(),
        None => false,
    }
}

// Whether a line of answers is a refusal: `P refused CODE NAME`.
fn is_refusal(line: &[u8]) -> bool
    ensures { result ≡ is_refusal line.now }
{
    says_refused(word(line).1)
}

// Whether a line of answers in JSON is a refusal.
fn is_refusal_in_json(line: &[u8]) -> bool
    ensures { result ≡ is_refusal_in_json line.now }
{
    line.starts_with(JSON_REFUSAL)
}

// Whether a line of answers in this form is a refusal.
fn is_refusal_in(form: AnswerForm, line: &[u8]) -> bool
    ensures { result ≡ is_refusal_in form line.now }
{
    match form {
        AnswerForm::Words => is_refusal(line),
        AnswerForm::Json => is_refusal_in_json(line),
    }
}

// The text that this line of answers in JSON refuses: {"code":1,"error":"Text","fault":KIND,"offset":OFFSET,"process":P}.
fn refused_text_in_json(alloc: Global, line: &[u8]) -> Option<RefusedText> {
    let answer = Json::from_slice(alloc, line).ok()?;
    let fault = TextFault {
        kind: kind_named(answer.get("fault")?.as_str()?)?,
        offset: usize::try_from(answer.get("offset")?.as_u64()?).ok()?,
    };
    Some(RefusedText {
        process: usize::try_from(answer.get("process")?.as_u64()?).ok()?,
        fault,
    })
}

// The text that this line of answers refuses: `P refused 1 KIND OFFSET`.
fn refused_text(line: &[u8]) -> Option<RefusedText> {
    let mut words = str::from_utf8(line).ok()?.split_ascii_whitespace();
    let process = words.next()?.parse().ok()?;
    if words.next()? != "refused" || words.next()? != "1" {
        return None;
    }
    let fault = TextFault {
        kind: kind_named(words.next()?)?,
        offset: words.next()?.parse().ok()?,
    };
    Some(RefusedText { process, fault })
}

impl Refusals {
    /// None, of answers in this form. An error means that an allocation failed.
    pub fn new(alloc: Global, form: AnswerForm) -> Result<Refusals, AllocError> {
        Ok(Refusals {
            alloc,
            form,
            line: Vec::with_capacity(alloc, LINE_MOST)?,
            count: 0,
            texts: Vec::new(alloc),
        })
    }

    /// How many answers are refusals.
    pub fn count(&self) -> u64 {
        self.count
    }

    /// The texts, in the order of the answers, as far as memory was there for them.
    pub fn texts(&self) -> &[RefusedText] {
        &self.texts
    }

    // Takes note of a line that has ended.
    fn end_line(&mut self) {
        if is_refusal_in(self.form, &self.line) {
            self.count = self.count.saturating_add(1);
            let text = match self.form {
                AnswerForm::Words => refused_text(&self.line),
                AnswerForm::Json => refused_text_in_json(self.alloc, &self.line),
            };
            if let Some(text) = text {
                let _kept = self.texts.push(text);
            }
        }
        self.line.clear();
    }

    // Takes note of answers.
    fn take(&mut self, answers: &[u8]) {
        for byte in answers {
            if *byte == b'\n' {
                self.end_line();
            } else if self.line.len() < LINE_MOST {
                let _kept = self.line.push(*byte);
            }
        }
    }
}

/// A writer of answers that takes note of those that are refusals. It writes what it is given.
#[derive(Drop)]
pub struct Watching<'a, W> {
    writer: W,
    refusals: &'a mut Refusals,
}

impl<'a, W> Watching<'a, W> {
    /// Before the first answer, after those that are noted already.
    pub fn new(writer: W, refusals: &'a mut Refusals) -> Watching<'a, W>
        ensures { result.writer ≡ writer }
    {
        Watching { writer, refusals }
    }
}

impl<'a, W: Write> Write for Watching<'a, W> {
    ghost contents = { λ w. W.contents w.writer };

    fn write(&mut self, buf: &[u8]) -> io::Result<usize> {
        let count = self.writer.write(buf)?;
        self.refusals.take(buf.get(..count).unwrap_or(buf));
        Ok(count)
    }

    fn flush(&mut self) -> io::Result<()> {
        self.writer.flush()
    }
}
