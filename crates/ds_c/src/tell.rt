//! Buffers of the caller.

ghost use Rattle.std.specs.Prelude.{◌≡◌, length, map};
ghost use Rattle.ds_c.specs.Calls.{Fills};
ghost use Rattle.ds_c.specs.Rows.{value_row};

use crate::failure::Failure;
use crate::rows::ValueRow;
use c_handles::tell::Numbered;
use ds_eval::value::Value;

/// Bytes at the start of a buffer, if it has room for them.
pub fn fill(bytes: &[u8], buffer: &mut [u8]) -> u32
    ensures { Fills bytes.now buffer.old buffer.new result }
{
    if buffer.len() < bytes.len() {
        return Failure::TooSmall.number();
    }
    let (room, _rest) = buffer.split_at_mut(bytes.len());
    room.copy_from_slice(bytes);
    0
}

// The rows of as many values as there is room for.
fn write_values(values: &[Value], room: &mut [ValueRow])
    requires { length values.now ≡ length room.old }
    ensures { room.new ≡ map value_row values.now }
{
    for i in 0..values.len() {
        room[i] = ValueRow::of(values[i]);
    }
}

/// The rows of values at the start of a buffer, if it has room for them.
pub fn fill_values(values: &[Value], buffer: &mut [ValueRow]) -> u32
    ensures { Fills (map value_row values.now) buffer.old buffer.new result }
{
    if buffer.len() < values.len() {
        return Failure::TooSmall.number();
    }
    let (room, _rest) = buffer.split_at_mut(values.len());
    write_values(values, room);
    0
}
