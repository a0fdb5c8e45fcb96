//! What a client says of a text that a server refuses.

use ds_a1::notation::Notation;
use ds_a1_script::lines::Commands;
use ds_formula::fault::TextFault;
use ds_script_hints::notes::kind_named;
use ds_script_hints::texts::refused_excerpt;
use serde_json::Value as Json;

// The fault of a text that an answer refuses.
fn fault_of(said: &Json) -> Option<TextFault> {
    let kind = kind_named(said.get("fault")?.as_str()?)?;
    let offset = usize::try_from(said.get("offset")?.as_u64()?).ok()?;
    Some(TextFault { kind, offset })
}

/// Shows on standard error a line of a client in this notation whose text this answer refuses, with what is wrong in it.
pub fn show_note<R: AllocGlobal + Eprint>(rt: &R, notation: Notation, line: &str, said: &Json) {
    let Some(fault) = fault_of(said) else {
        return;
    };
    let line = line.as_bytes();
    let excerpt = refused_excerpt(rt.alloc(), notation, Commands::OfClient, line, fault);
    if let Some(excerpt) = excerpt {
        let _reported = eprintln!(rt; "{excerpt}");
    }
}
