//! What a script is answered.

ghost use Rattle.std.specs.Prelude.{true, IfOk};
ghost use Rattle.ds_script.specs.Script.{Finishes};
ghost use Rattle.ds_explore.specs.Lines.{GoesOn};

use crate::lines::{FoundLine, lines_text};
use ds_formula::cells::Shape;
use ds_script::script::run_script;
use ds_script_io::ending::ScriptEnd;
use ds_script_io::line::INPUT_LIMIT;
use ds_script_io::streams::{Reading, Writing};
use std::alloc::{AllocError, Global};

/// What a script is answered that ends. An error means that an allocation failed, or that the script does not end.
pub(crate) fn answers_to(alloc: Global, script: &[u8]) -> Result<Vec<u8>, AllocError>
    ensures { IfOk result (λ answers. Finishes true script.now answers.items) }
{
    if script.len() > INPUT_LIMIT {
        return Err(AllocError);
    }
    let mut reader = Reading::new(script);
    let mut writer = Writing::new(Vec::new(alloc));
    match run_script(alloc, &mut reader, &mut writer) {
        ScriptEnd::Ended => Ok(writer.into_inner()),
        _ => Err(AllocError),
    }
}

/// The script, with an end of its last line where that lacks it, and these lines after it.
pub(crate) fn continued(
    alloc: Global,
    script: &[u8],
    shape: Shape,
    lines: &[FoundLine],
) -> Result<Vec<u8>, AllocError>
    ensures { IfOk result (λ text. GoesOn shape script.now text.items) }
{
    let more = lines_text(alloc, shape, lines)?;
    let mut text = Vec::from_slice(alloc, script)?;
    if !script.is_empty() && !script.ends_with(b"\n") {
        text.push(b'\n')?;
    }
    text.extend_from_slice(&more)?;
    Ok(text)
}
