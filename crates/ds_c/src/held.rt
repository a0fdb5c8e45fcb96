//! What a holder holds.

use ds_shared_seats::resting::RestingSheet;
use ds_shared_seats::seat::Seat;
use ds_shared_seats::sheet::OpenSheet;

/// What a holder holds of a sheet that threads share.
#[derive(Drop)]
pub enum Held {
    /// The sheet, in the hands of its owner.
    Sheet(OpenSheet),
    /// A seat of the sheet.
    Seat(Seat),
    /// The sheet, closed.
    Closed(RestingSheet),
    /// Nothing any more: no holder that a call leaves holds it.
    Spent,
}
