//! What a row of a sector log is told.

use mx_book::Reply;
use mx_intake::IntakeFault;

/// What a row of a sector log is told.
#[derive(Clone, Copy, Debug, PartialEq, Eq)]
pub enum RowReply {
    /// It states a sector, which was handed in: the reply to it.
    Entered(Reply),
    /// It states none, for this reason; nothing of it was entered.
    Bad(IntakeFault),
}
