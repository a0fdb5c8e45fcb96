//! `dsheet trace`.

ghost use Rattle.std.specs.Prelude.{◌≡◌};
ghost use Rattle.ds_analyze.specs.Details.{detail_of};

use crate::input::read_script;
use crate::status::picture_status;
use ds_batch::closing::Closing;
use ds_batch::faults::show_line;
use ds_batch::run::no_memory;
use ds_batch::source::Source;
use ds_batch::status::CLOSED;
use ds_cli::tracing::Tracing;
use ds_script_io::streams::Writing;
use ds_trace_picture::script::{Detail, PictureEnd, draw_script};
use std::fs::{File, Files};
use std::io::{self, BufWriter};

// How much of the run is shown.
fn detail_of(tracing: Tracing<'_>) -> Detail
    ensures { result ≡ detail_of tracing.entry }
{
    if tracing.brief {
        Detail::Brief
    } else {
        Detail::Steps
    }
}

// Draws the run of a script to standard output; gives the status, 141 where nobody reads it any more.
fn trace_script<R: AllocGlobal + Print + Eprint>(rt: &R, script: &[u8], detail: Detail) -> u8 {
    let mut closed = false;
    let output = Closing::new(io::writer(rt), &mut closed);
    let Ok(buffered) = BufWriter::new(rt.alloc(), output) else {
        return no_memory(rt);
    };
    let end = {
        let mut writer = Writing::new(buffered);
        draw_script(rt.alloc(), script, detail, &mut writer)
    };
    if closed {
        return CLOSED;
    }
    match &end {
        PictureEnd::Drawn => {}
        PictureEnd::Fault { line, kind } => {
            let _reported = eprintln!(rt; "{end}");
            show_line(rt, script, *line, *kind);
        }
        _ => {
            let _reported = eprintln!(rt; "dsheet: {end}");
        }
    }
    picture_status(&end)
}

/// `dsheet trace`: a script from its file or from standard input, a picture of its run to standard output, and why there is
/// none to standard error; gives the status, 3 where the file cannot be opened.
pub fn trace<R: AllocGlobal + Input + Print + Eprint + Files<File = File>>(
    rt: &R,
    tracing: Tracing<'_>,
) -> u8 {
    match read_script(rt, Source::of(tracing.file)) {
        Ok(script) => trace_script(rt, &script, detail_of(tracing)),
        Err(status) => status,
    }
}
