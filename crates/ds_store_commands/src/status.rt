//! Exit statuses of commands on a store.

ghost use Rattle.std.specs.Prelude.{◌≡◌};
ghost use Rattle.ds_store_commands.specs.Statuses.{store_status_of};

use ds_batch::status::{NO_MEMORY, STREAM_FAILED};
use ds_store::fault::StoreFault;

/// The status of a store that has no journal of the sheet that was asked for.
pub const BAD_STORE: u8 = 1;

/// The status that says why a store cannot be opened, or has failed: 1 what it has is no journal of the sheet that was
/// asked for, 3 the file cannot be opened, read or written, 4 out of memory.
pub fn store_status(fault: &StoreFault) -> u8
    ensures { result ≡ store_status_of fault.now }
{
    match fault {
        StoreFault::Database(_) | StoreFault::Busy => STREAM_FAILED,
        StoreFault::NoMemory => NO_MEMORY,
        StoreFault::Foreign
        | StoreFault::Missing(_)
        | StoreFault::Line { .. }
        | StoreFault::Sum(_)
        | StoreFault::NoSum(_)
        | StoreFault::Edit(_)
        | StoreFault::OtherSheet { .. } => BAD_STORE,
    }
}
