//! What stops a move.
ghost use Rattle.std.specs.Prelude.{◌≡◌};
ghost use Rattle.mx_faults.specs.Moving.{fault_from};

use mx_layout::{Table, TableFault};

/// Why a move did not go on.
#[derive(Clone, Copy, Debug, PartialEq, Eq)]
pub enum MoveFault {
    /// Memory ran out. Nothing changed.
    Memory,
    /// A call of `sqlite` answered an error that is no want of memory, or any error from the first statement that
    /// writes on. The commit may have been kept or not: the file has to be opened again.
    Store,
    /// The file is not one of an office.
    NotOurs,
    /// The file has this layout, which is newer than the program.
    NewerLayout(u8),
    /// The table has a row that can't be read, or one that can't be there at this point. Nothing changed.
    Damaged(Table),
}

/// The fault of a move that a fault of the tables is.
pub fn fault_of(fault: TableFault) -> MoveFault
    ensures { result ≡ fault_from fault }
{
    match fault {
        TableFault::Memory => MoveFault::Memory,
        TableFault::NotOurs => MoveFault::NotOurs,
        TableFault::Damaged(table) => MoveFault::Damaged(table),
        TableFault::Store | TableFault::Exists => MoveFault::Store,
    }
}
