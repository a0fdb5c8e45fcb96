//! The line of JSON of each answer.

ghost use Rattle.std.specs.Prelude.{◌≡◌, IfOk, string_bytes};
ghost use Rattle.serde_json.specs.Written.{compact_text};
ghost use Rattle.ds_script_json.specs.CommandEnds.{CanShow};
ghost use Rattle.ds_script_json.specs.JsonAnswers.{data_of, line_of};

use crate::carry::CommandEnd;
use crate::values::end_value;
use ds_state::world::World;
use std::alloc::{AllocError, Global};

// The JSON of an answer, without its line feed.
#[tactic(auto, using(crate::proofs::Floats::no_float))]
fn end_text(alloc: Global, world: &World, end: CommandEnd) -> Result<String, AllocError>
    requires { CanShow world.now end }
    ensures { IfOk result (λ t. string_bytes t ≡ compact_text (data_of world.now end)) }
{
    let value = end_value(alloc, world, end)?;
    value.to_string(alloc)
}

/// The line of JSON that a command is answered that has ended so, in the world after it; none where it made a new sheet. An
/// error means that an allocation failed.
pub fn end_line(alloc: Global, world: &World, end: CommandEnd) -> Result<Vec<u8>, AllocError>
    requires { CanShow world.now end }
    ensures { IfOk result (λ line. line.items ≡ line_of world.now end) }
{
    if let CommandEnd::Made = end {
        return Ok(Vec::new(alloc));
    }
    let mut line = end_text(alloc, world, end)?.into_bytes();
    line.push(b'\n')?;
    Ok(line)
}
