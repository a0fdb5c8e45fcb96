//! `dsheet export`.

ghost use Rattle.std.specs.Prelude.{◌≡◌, OnOk, map};
ghost use Rattle.std.specs.Io.KnownBytes.{Appends};
ghost use Rattle.std.specs.String.{string_bytes};
ghost use Rattle.ds_store_commands.specs.Exports.{script_line, script_of, shown_byte, shown_line};

use crate::reading::read_sound;
use crate::status::store_status;
use crate::stores::{tell_fault, written};
use crate::tables::{Cells, table_of};
use ds_batch::json::{TableFault, table_line};
use ds_batch::status::REFUSED;
use ds_cli::exporting::{ExportForm, Exporting};
use ds_store::fault::StoreFault;
use ds_store::sound::SoundLines;
use ds_store_sums::sums::is_sum;
use std::fs::Files;
use std::io::{self, BufWriter, Write};

// What is written of a byte within a line: a space for a line feed or a carriage return, which is white space of a formula.
fn shown_byte(byte: u8) -> u8
    ensures { result ≡ shown_byte byte }
{
    if byte == b'\n' || byte == b'\r' {
        b' '
    } else {
        byte
    }
}

// Writes a line as `write_line` does, but for a sum, which is of the file alone.
fn write_script_line<W: Write>(out: &mut W, line: &str) -> io::Result<()>
    ensures { OnOk result (Appends (W.contents out.old) (W.contents out.new) (script_line line.now)) }
{
    if is_sum(line) {
        return Ok(());
    }
    write_line(out, line.as_bytes())
}

// Writes the lines of a store as a script.
fn write_lines<W: Write>(out: &mut W, lines: &[String]) -> io::Result<()>
    ensures { OnOk result (Appends (W.contents out.old) (W.contents out.new) (script_of (map string_bytes lines.now))) }
{
    for line in lines {
        write_script_line(out, line)?;
    }
    out.flush()
}

// Writes what is shown of the bytes of a line.
fn write_bytes<W: Write>(out: &mut W, line: &[u8]) -> io::Result<()>
    ensures { OnOk result (Appends (W.contents out.old) (W.contents out.new) (map shown_byte line.now)) }
{
    for byte in line {
        out.write_all(&[shown_byte(*byte)])?;
    }
    Ok(())
}

/// Writes a line, and ends it; a line feed or a carriage return within it is written as a space.
pub(crate) fn write_line<W: Write>(out: &mut W, line: &[u8]) -> io::Result<()>
    ensures { OnOk result (Appends (W.contents out.old) (W.contents out.new) (shown_line line.now)) }
{
    write_bytes(out, line)?;
    out.write_all(b"\n")
}

/// Writes a table to standard output, and gives the status.
pub(crate) fn write_table<R: Print + Eprint>(rt: &R, table: &[u8]) -> u8 {
    let mut out = io::writer(rt);
    written(rt, out.write_all(table).and_then(|_| out.flush()))
}

// Writes a table of the store at this path to standard output as JSON, and gives the status.
fn write_json<R: AllocGlobal + Print + Eprint>(rt: &R, path: &str, table: &[u8]) -> u8 {
    match table_line(rt.alloc(), table) {
        Ok(line) => write_table(rt, &line),
        Err(TableFault::NoMemory) => tell_fault(rt, path, &StoreFault::NoMemory),
        Err(TableFault::NotUtf8) => {
            let _reported = eprintln!(rt;
                "dsheet: {path}: a text is not UTF-8, as a text of JSON has to be"
            );
            REFUSED
        }
    }
}

// Writes what is asked for of a store with these lines, and gives the status.
fn write_form<R: AllocGlobal + Print + Eprint>(
    rt: &R,
    exporting: Exporting<'_>,
    lines: &[String],
) -> u8 {
    let path = exporting.path;
    let cells = match exporting.form {
        ExportForm::Lines => {
            let Ok(mut out) = BufWriter::new(rt.alloc(), io::writer(rt)) else {
                return tell_fault(rt, path, &StoreFault::NoMemory);
            };
            return written(rt, write_lines(&mut out, lines));
        }
        ExportForm::Texts => Cells::Texts,
        ExportForm::Values => Cells::Values,
    };
    match table_of(rt.alloc(), cells, lines) {
        Ok(table) if exporting.json => write_json(rt, path, &table),
        Ok(table) => write_table(rt, &table),
        Err(fault) => tell_fault(rt, path, &fault),
    }
}

// Reports on standard error which lines were left out, and what is wrong, if anything is; and gives the status.
fn tell_left_out<R: Eprint>(rt: &R, path: &str, sound: &SoundLines) -> u8 {
    let given = sound.lines.len();
    let next = given.saturating_add(1);
    if let Some(fault) = sound.fault {
        let _reported = eprintln!(rt; "dsheet: {path}: {fault}; lines from {next} on are left out");
        return store_status(&fault);
    }
    if given < sound.count {
        let _reported = eprintln!(rt; "dsheet: {path}: lines from {next} on are left out");
    }
    0
}

// Writes what is asked for of sound lines, and reports on standard error which were left out. Gives the status.
fn write_sound<R: AllocGlobal + Print + Eprint>(
    rt: &R,
    exporting: Exporting<'_>,
    sound: &SoundLines,
) -> u8 {
    match write_form(rt, exporting, &sound.lines) {
        0 => tell_left_out(rt, exporting.path, sound),
        status => status,
    }
}

/// `dsheet export`: to standard output the lines of a store, which are a script, or its texts or values, as CSV or as one line of
/// JSON. With `until` it may be damaged: it is that of the lines before the first one that is not sound, `until` at most;
/// standard error says which are left out, and the status is that of the store, as of `check`.
pub fn export<R: AllocGlobal + Print + Eprint + Files>(rt: &R, exporting: Exporting<'_>) -> u8 {
    match read_sound(rt, exporting.path, exporting.until) {
        Ok(sound) => write_sound(rt, exporting, &sound),
        Err(status) => status,
    }
}
