//! The words of a call.

use ds_a1::notation::Notation;

/// The options of `run` and `report`: each as in the whole program, but a value is a word of its own.
#[derive(Clone, Copy, Debug)]
pub struct Options<'a> {
    /// The file that is named, and not `-`.
    pub file: Option<&'a str>,
    // Whether a file is named.
    named: bool,
    /// How formulas are written.
    pub notation: Notation,
    /// `--labels`.
    pub labels: bool,
    /// `--json`.
    pub json: bool,
    /// `--strict`.
    pub strict: bool,
    /// `--stops`.
    pub stops: bool,
    /// The step that `--from` names, if it is there.
    pub from: Option<u16>,
    /// The step that `--to` names, if it is there.
    pub to: Option<u16>,
}

impl<'a> Options<'a> {
    // Those of a call with no options.
    fn none() -> Options<'a> {
        Options {
            file: None,
            named: false,
            notation: Notation::OpenFormula,
            labels: false,
            json: false,
            strict: false,
            stops: false,
            from: None,
            to: None,
        }
    }

    // The file that a word names beside these, none in it for `-`; none where the word names none.
    fn first_file(self, name: &'a str) -> Option<Option<&'a str>> {
        match name {
            _ if self.named => None,
            "-" => Some(None),
            _ if name.is_empty() || name.starts_with('-') => None,
            _ => Some(Some(name)),
        }
    }

    // These and the one at the front of the words, and what is after it; none where it is no option.
    fn with(self, words: &'a [String]) -> Option<(Options<'a>, &'a [String])> {
        let (name, after) = words.split_first()?;
        let mut options = self;
        match name.as_str() {
            "--a1" => options.notation = Notation::A1,
            "--labels" => options.labels = true,
            "--json" => options.json = true,
            "--strict" => options.strict = true,
            "--stops" => options.stops = true,
            "--from" => {
                options.from = Some(after.first()?.parse().ok()?);
                return Some((options, after.get(1..)?));
            }
            "--to" => {
                options.to = Some(after.first()?.parse().ok()?);
                return Some((options, after.get(1..)?));
            }
            _ => {
                options.file = self.first_file(name)?;
                options.named = true;
            }
        }
        Some((options, after))
    }
}

/// The options that the words name; none where a word is no option.
pub fn options_of(words: &[String]) -> Option<Options<'_>> {
    let mut options = Options::none();
    let mut rest = words;
    for _ in 0..words.len() {
        if rest.is_empty() {
            break;
        }
        (options, rest) = options.with(rest)?;
    }
    Some(options)
}
