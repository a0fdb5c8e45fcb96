//! `dsheet import`.

ghost use Rattle.std.specs.Prelude.{◌≡◌, IfOk, map};
ghost use Rattle.std.specs.Str.Lines.{lines as text_lines};
ghost use Rattle.std.specs.String.{string_bytes};
ghost use Rattle.csv.specs.Records.{fields_of};
ghost use Rattle.ds_store.specs.Summing.{summed_anew};
ghost use Rattle.ds_store_commands.specs.Imports.{AreFollowed, AreOfGrid};

use crate::making::make_store;
use crate::stores::{compacted, tell_fault};
use crate::tables::{grid_lines, opened_rows};
use ds_a1::notation::Notation;
use ds_batch::lines::{opened_lines, show_bare};
use ds_batch::report::{ReadGrid, read_grid};
use ds_batch::status::STREAM_FAILED;
use ds_cli::importing::Importing;
use ds_script_io::input::{InputEnd, read_input};
use ds_script_io::line::INPUT_LIMIT;
use ds_script_io::streams::Reading;
use ds_store::fault::StoreFault;
use ds_store::open::Databases;
use ds_store::store::Store;
use ds_store::summing::with_sum;
use sqlite::Connection;
use std::alloc::{AllocError, Global};
use std::fs::{File, Files};
use std::str;

// The lines of a text, each of its own.
fn lines_of(alloc: Global, text: &str) -> Result<Vec<String>, AllocError>
    ensures { IfOk result (λ all. map string_bytes all.items ≡ text_lines text.now) }
{
    let mut lines = Vec::new(alloc);
    for line in text.lines() {
        lines.push(String::from_str(alloc, line)?)?;
    }
    Ok(lines)
}

// Reads the lines of standard input. An error is the status, when standard error has the reason.
fn read_lines<R: AllocGlobal + Input + Eprint>(rt: &R) -> Result<Vec<String>, u8> {
    let mut reader = Reading::new(rt.reader());
    let Ok(input) = read_input(rt.alloc(), &mut reader, INPUT_LIMIT) else {
        return Err(tell_fault(rt, "standard input", &StoreFault::NoMemory));
    };
    let what = match (input.end, str::from_utf8(&input.bytes)) {
        (InputEnd::Ended, Ok(text)) => {
            return match lines_of(rt.alloc(), text) {
                Ok(lines) => Ok(lines),
                Err(_) => Err(tell_fault(rt, "standard input", &StoreFault::NoMemory)),
            };
        }
        (InputEnd::Ended, Err(_)) => "it is not UTF-8",
        (InputEnd::TooLong, _) => "over 1048576 bytes",
        (InputEnd::Failed, _) => "a read failed",
    };
    let _reported = eprintln!(rt; "dsheet: standard input: {what}");
    Err(STREAM_FAILED)
}

// Copies of lines.
fn copied(alloc: Global, lines: &[String]) -> Result<Vec<String>, AllocError>
    ensures { IfOk result (λ copies. map string_bytes copies.items ≡ map string_bytes lines.now) }
{
    let mut copies = Vec::new(alloc);
    for line in lines {
        copies.push(String::from_str(alloc, line)?)?;
    }
    Ok(copies)
}

// The lines of a store that keeps these, with their sum. They were followed, each in its turn, before there is a file.
fn followed(alloc: Global, lines: &[String]) -> Result<Vec<String>, StoreFault>
    ensures same { IfOk result (λ all. map string_bytes all.items ≡ summed_anew (map string_bytes lines.now)) }
    ensures followed { IfOk result (λ all. AreFollowed (map string_bytes all.items)) }
{
    let copies = copied(alloc, lines)?;
    let summed = with_sum(alloc, copies)?;
    let conn = Connection::open_in_memory(alloc)?;
    let opened = Store::of_lines(alloc, conn, summed)?;
    Ok(opened.lines)
}

// The lines of standard input, with formulas in this notation in OpenFormula. An error is as before.
fn read_opened<R: AllocGlobal + Input + Eprint>(
    rt: &R,
    notation: Notation,
) -> Result<Vec<String>, u8> {
    let lines = read_lines(rt)?;
    opened_lines(rt, notation, lines)
}

// Reports why a store of these lines cannot be made, and gives the status.
fn refused<R: AllocGlobal + Eprint>(
    rt: &R,
    path: &str,
    lines: &[String],
    fault: &StoreFault,
) -> u8 {
    let status = tell_fault(rt, path, fault);
    show_bare(rt, lines);
    status
}

// Makes a store at this path of lines from standard input, with formulas in this notation, and gives the status.
fn import_lines<R: AllocGlobal + Input + Eprint + Files<File = File> + Databases>(
    rt: &R,
    path: &str,
    notation: Notation,
) -> u8 {
    let lines = match read_opened(rt, notation) {
        Ok(lines) => lines,
        Err(status) => return status,
    };
    match followed(rt.alloc(), &lines) {
        Ok(followed) => make_store(rt, path, followed),
        Err(fault) => refused(rt, path, &lines, &fault),
    }
}

// The lines of a journal that lead to the texts of a grid in this notation.
fn lines_of_grid(
    alloc: Global,
    notation: Notation,
    grid: ReadGrid,
) -> Result<Vec<String>, StoreFault>
    ensures { IfOk result (λ lines. AreOfGrid notation (map fields_of grid.rows.items) (map string_bytes lines.items)) }
{
    let rows = opened_rows(alloc, notation, grid.rows)?;
    let lines = grid_lines(alloc, &grid.shape, &rows)?;
    compacted(alloc, &lines, "a grid")
}

// Makes a store at this path that begins with the texts of a grid from standard input, with formulas in this notation, and
// gives the status.
fn import_grid<R: AllocGlobal + Input + Eprint + Files<File = File> + Databases>(
    rt: &R,
    path: &str,
    notation: Notation,
) -> u8 {
    let grid = match read_grid(rt, rt.reader(), notation) {
        Ok(grid) => grid,
        Err(status) => return status,
    };
    match lines_of_grid(rt.alloc(), notation, grid) {
        Ok(lines) => make_store(rt, path, lines),
        Err(fault) => tell_fault(rt, path, &fault),
    }
}

/// `dsheet import`: makes a store of lines from standard input, as `export` writes them, or of a grid of texts as CSV, as
/// `report` reads it.
pub fn import<R: AllocGlobal + Input + Eprint + Files<File = File> + Databases>(
    rt: &R,
    importing: Importing<'_>,
) -> u8 {
    if importing.csv {
        import_grid(rt, importing.path, importing.notation)
    } else {
        import_lines(rt, importing.path, importing.notation)
    }
}
