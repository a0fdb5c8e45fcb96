//! Lines with formulas in a notation, as commands on stores and servers read them.

ghost use Rattle.std.specs.Prelude.{◌≡◌, ◌⊎◌, ◌++◌, ◌∷◌, [], IfErr, IfOk, IsUtf8, Ok, OnOk, map, string_bytes};
ghost use Rattle.ds_a1.specs.declared.notation.Notation.TheVariants.{A1};
ghost use Rattle.ds_a1_script.specs.EditLines.{line_opens};
ghost use Rattle.ds_a1_script.specs.declared.lines.Commands.TheVariants.{OfScript};
ghost use Rattle.ds_batch.specs.Openings.{HasNoText, HaveRefused, IsRefused, LineOpens, LinesOpen};

use crate::faults::show_refused;
use crate::run::no_memory;
use crate::status::REFUSED;
use ds_a1::notation::Notation;
use ds_a1_script::lines::Commands;
use ds_a1_script::opening::open_line;
use ds_formula::fault::FaultKind;
use ds_script_hints::hint::layout_of;
use ds_script_hints::texts::refused_text;

// A line as it stands. An error is the status.
fn same_line<R: AllocGlobal + Eprint>(rt: &R, line: &str) -> Result<String, u8>
    ensures opened { IfOk result (λ same. string_bytes same ≡ line.now) }
    ensures status { IfErr result (λ status. status ≡ 4) }
{
    match String::from_str(rt.alloc(), line) {
        Ok(same) => Ok(same),
        Err(_) => Err(no_memory(rt)),
    }
}

// The text with these bytes. An error is the status, 1, where they are none.
fn text_with(bytes: Vec<u8>) -> Result<String, u8>
    ensures opened { IfOk result (λ text. string_bytes text ≡ bytes.items) }
    ensures status { IfErr result (λ status. (status ≡ 1) × (IsUtf8 bytes.items → ⊥)) }
{
    match String::from_utf8(bytes) {
        Ok(text) => Ok(text),
        Err(_) => Err(REFUSED),
    }
}

// A line whose text is in A1 notation, as `opened_line`.
fn line_from_a1<R: AllocGlobal + Eprint>(
    rt: &R,
    commands: Commands,
    number: u64,
    line: &str,
) -> Result<String, u8>
    ensures opened { IfOk result (λ opened. line_opens commands line.now ≡ Ok (string_bytes opened)) }
    ensures status { IfErr result (λ status. (status ≡ 4) ⊎ ((status ≡ 1) × HasNoText commands line.now)) }
{
    match open_line(rt.alloc(), commands, line.as_bytes()) {
        Ok(open) => text_with(open),
        Err(fault) if fault.kind == FaultKind::NoMemory => Err(no_memory(rt)),
        Err(fault) => {
            show_refused(rt, commands, number, line.as_bytes(), fault);
            Err(REFUSED)
        }
    }
}

/// A line of these commands, of this number, whose text is in this notation, with its text in OpenFormula. An error is the
/// status, 1 where the text is refused, and then standard error has the reason.
pub fn opened_line<R: AllocGlobal + Eprint>(
    rt: &R,
    notation: Notation,
    commands: Commands,
    number: u64,
    line: &str,
) -> Result<String, u8>
    ensures opened { IfOk result (λ opened. LineOpens notation commands line.now (string_bytes opened)) }
    ensures status { IfErr result (λ status. (status ≡ 4) ⊎ ((status ≡ 1) × IsRefused notation commands line.now)) }
{
    match notation {
        Notation::OpenFormula => same_line(rt, line),
        Notation::A1 => line_from_a1(rt, commands, number, line),
    }
}

// Adds a line to others. An error is the status.
fn add_line<R: Eprint>(rt: &R, lines: &mut Vec<String>, line: String) -> Result<(), u8>
    ensures added { OnOk result (lines.new.items ≡ lines.old.items ++ line ∷ []) }
    ensures status { IfErr result (λ status. status ≡ 4) }
{
    match lines.push(line) {
        Ok(()) => Ok(()),
        Err(_) => Err(no_memory(rt)),
    }
}

// The lines of a script whose texts are in A1 notation, as `opened_lines`.
fn lines_from_a1<R: AllocGlobal + Eprint>(rt: &R, lines: &[String]) -> Result<Vec<String>, u8>
    ensures opened { IfOk result (λ opened. map (line_opens OfScript) (map string_bytes lines.now) ≡ map Ok (map string_bytes opened.items)) }
    ensures status { IfErr result (λ status. (status ≡ 4) ⊎ ((status ≡ 1) × HaveRefused A1 (map string_bytes lines.now))) }
{
    let mut opened = Vec::new(rt.alloc());
    let mut number = 0u64;
    for line in lines {
        number = number.saturating_add(1);
        let open = line_from_a1(rt, Commands::OfScript, number, line)?;
        add_line(rt, &mut opened, open)?;
    }
    Ok(opened)
}

/// The lines of a script whose texts are in this notation, with their texts in OpenFormula. An error is the status, as of
/// `opened_line`: 1 where the text of a line is refused.
pub fn opened_lines<R: AllocGlobal + Eprint>(
    rt: &R,
    notation: Notation,
    lines: Vec<String>,
) -> Result<Vec<String>, u8>
    ensures opened { IfOk result (λ opened. LinesOpen notation (map string_bytes lines.items) (map string_bytes opened.items)) }
    ensures status { IfErr result (λ status. (status ≡ 4) ⊎ ((status ≡ 1) × HaveRefused notation (map string_bytes lines.items))) }
{
    match notation {
        Notation::OpenFormula => Ok(lines),
        Notation::A1 => lines_from_a1(rt, &lines),
    }
}

/// Shows on standard error the first of these lines in OpenFormula, of which the first makes the sheet, whose text is
/// refused, with what is wrong in it.
pub fn show_bare<R: AllocGlobal + Eprint>(rt: &R, lines: &[String]) {
    let Some(first) = lines.first() else {
        return;
    };
    let shape = layout_of(first.as_bytes()).shape;
    for line in lines {
        if let Some((_, excerpt)) = refused_text(
            rt.alloc(),
            Notation::OpenFormula,
            &shape,
            line.as_bytes(),
        ) {
            let _reported = eprintln!(rt; "{excerpt}");
            return;
        }
    }
}
