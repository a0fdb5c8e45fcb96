//! What is reported of a line with a fault.

use crate::refusals::RefusedText;
use ds_a1::notation::Notation;
use ds_a1_script::lines::Commands;
use ds_formula::fault::TextFault;
use ds_sched::ScriptFault;
use ds_script_hints::excerpt::excerpt_of;
use ds_script_hints::hint::layout_of;
use ds_script_hints::texts::{refused_excerpt, refused_text, refused_with};
use ds_script_io::line::{NextLine, next_line, word};
use std::str;

/// Shows on standard error the line of a script that has ended it, with what was expected in it.
pub fn show_line(rt: &impl Eprint, script: &[u8], line: usize, fault: ScriptFault) {
    if let Some(excerpt) = excerpt_of(script, line, fault) {
        let _reported = eprintln!(rt; "{excerpt}");
    }
}

/// Reports on standard error a line of these commands in A1 notation, of this number, whose text is refused, with what is
/// wrong in it.
pub fn show_refused<R: AllocGlobal + Eprint>(
    rt: &R,
    commands: Commands,
    number: u64,
    line: &[u8],
    fault: TextFault,
) {
    let excerpt = refused_excerpt(rt.alloc(), Notation::A1, commands, line, fault);
    let _reported = match excerpt {
        Some(excerpt) => eprintln!(rt; "line {number}: {fault}\n{excerpt}"),
        None => eprintln!(rt; "line {number}: {fault}"),
    };
}

// The process that a line names by its second word.
fn process_of(line: &[u8]) -> Option<usize> {
    let (_, words) = word(line);
    str::from_utf8(word(words?).0).ok()?.parse().ok()
}

/// Reports on standard error the lines of a script in this notation whose texts its answers refuse, in their order, with
/// what is wrong in each.
pub fn show_answered<R: AllocGlobal + Eprint>(
    rt: &R,
    notation: Notation,
    script: &[u8],
    texts: &[RefusedText],
) {
    let shape = layout_of(script).shape;
    let (mut rest, mut left) = (script, texts);
    for number in 1..=script.len() {
        let (NextLine::Line(line, behind), [text, others @ ..]) = (next_line(rest, true), left)
        else {
            return;
        };
        if process_of(line) == Some(text.process) {
            let RefusedText { process: _, fault } = *text;
            if let Some(excerpt) = refused_with(rt.alloc(), notation, &shape, line, fault) {
                let _reported = eprintln!(rt; "line {number}: {fault}\n{excerpt}");
                left = others;
            }
        }
        rest = behind;
    }
}

/// Reports on standard error each of the first lines of a script in this notation, of as many as this, whose text is
/// refused on the sheet that it makes, with what is wrong in it, and gives how many there are.
pub fn show_refusals<R: AllocGlobal + Eprint>(
    rt: &R,
    notation: Notation,
    script: &[u8],
    lines: usize,
) -> u64 {
    let shape = layout_of(script).shape;
    let mut rest = script;
    let mut count = 0u64;
    for number in 1..=script.len().min(lines) {
        let NextLine::Line(line, left) = next_line(rest, true) else {
            break;
        };
        if let Some((fault, excerpt)) = refused_text(rt.alloc(), notation, &shape, line) {
            let _reported = eprintln!(rt; "line {number}: {fault}\n{excerpt}");
            count = count.saturating_add(1);
        }
        rest = left;
    }
    count
}
