//! Cuts a script into lines, and a line into words.

ghost use Rattle.std.specs.Prelude.{◌≡◌, ◌==◌, ◌<◌, position, length};
ghost use Rattle.ds_script_io.specs.ScriptLines.{next_of, next_view, word_of, word_view, dropped_return, checked, last_of};
ghost use Rattle.ds_formula.specs.Limits.{LINE_MOST, INPUT_MOST};
ghost use Rattle.ds_script_io.specs.declared.line.TheConstants as constants;

/// The most bytes of a line, without its end.
pub const LINE_LIMIT: usize = 512;

/// How many bytes a script or a grid may have.
pub const INPUT_LIMIT: usize = 1_048_576;

/// What stands at the front of a script.
#[derive(Clone, Copy, Debug)]
pub enum NextLine<'a> {
    /// No line is left.
    Nothing,
    /// A line without its end, and what is after it.
    Line(&'a [u8], &'a [u8]),
    /// A line of more than 512 bytes.
    TooLong,
}

fn line_feed(bytes: &[u8]) -> Option<usize>
    ensures { result ≡ position (λ b. b == 10) bytes.now }
{
    bytes.iter().position(|b| *b == b'\n')
}

fn space(bytes: &[u8]) -> Option<usize>
    ensures { result ≡ position (λ b. b == 32) bytes.now }
{
    bytes.iter().position(|b| *b == b' ')
}

// The line without the carriage return before its line feed.
fn without_return(line: &[u8]) -> &[u8]
    ensures { result.now ≡ dropped_return line.now }
{
    match line {
        [front @ .., b'\r'] => front,
        _ => line,
    }
}

fn checked<'a>(line: &'a [u8], rest: &'a [u8]) -> NextLine<'a>
    ensures { next_view result ≡ checked line.now rest.now }
{
    if line.len() > LINE_LIMIT {
        NextLine::TooLong
    } else {
        NextLine::Line(line, rest)
    }
}

// Bytes without a line feed.
fn last_line(bytes: &[u8], whole: bool) -> NextLine<'_>
    ensures { next_view result ≡ last_of whole bytes.now }
{
    match bytes {
        [] => NextLine::Nothing,
        [_, ..] if whole => checked(bytes, &[]),
        [_, ..] if without_return(bytes).len() > LINE_LIMIT => NextLine::TooLong,
        [_, ..] => NextLine::Nothing,
    }
}

/// The first line of what is left of a script. Where the script is not `whole`, a last piece without a line feed is
/// no line; it is too long if it is however it goes on.
pub fn next_line(bytes: &[u8], whole: bool) -> NextLine<'_>
    ensures { next_view result ≡ next_of whole bytes.now }
{
    match line_feed(bytes) {
        Some(at) => checked(without_return(&bytes[..at]), &bytes[at + 1..]),
        None => last_line(bytes, whole),
    }
}

/// The bytes before the first space, and those after it if there is one.
pub fn word(bytes: &[u8]) -> (&[u8], Option<&[u8]>)
    ensures { word_view result ≡ word_of bytes.now }
{
    match space(bytes) {
        Some(at) => (&bytes[..at], Some(&bytes[at + 1..])),
        None => (bytes, None),
    }
}

/// The constants of this crate are the limits of the definitions.
pub fn constants_are_limits()
    ensures line { constants.LINE_LIMIT ≡ LINE_MOST }
    ensures input { constants.INPUT_LIMIT ≡ INPUT_MOST }
{}
