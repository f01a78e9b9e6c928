//! What is answered, of whether rows are those of a book.
ghost use Rattle.std.specs.Prelude.{◌≡◌};
ghost use Rattle.mx_verify.specs.Verifies.{fault_by, told_file, told_rows};

use crate::verified::Unverified;
use mx_book_tables::reading::table_of;
use mx_layout::TableFault;

// Why it was not found out, as the fault of a table.
fn fault_by(why: Unverified) -> TableFault
    ensures { result ≡ fault_by why }
{
    match why {
        Unverified::Memory => TableFault::Memory,
        Unverified::Damaged(kind) => TableFault::Damaged(table_of(kind)),
    }
}

/// Whether the row of `office` is that of the point, and the rows of the other tables are those of a book.
pub(crate) fn told_rows(at_point: bool, found: Result<bool, Unverified>) -> Result<bool, TableFault>
    ensures { result ≡ told_rows at_point found }
{
    match found {
        Ok(same) => Ok(at_point && same),
        Err(why) => Err(fault_by(why)),
    }
}

/// Whether the tables are those of the layout alone, and have the rows of a book.
pub(crate) fn told_file(alone: bool, found: Result<bool, TableFault>) -> Result<bool, TableFault>
    ensures { result ≡ told_file alone found }
{
    match found {
        Ok(same) => Ok(alone && same),
        Err(fault) => Err(fault),
    }
}
