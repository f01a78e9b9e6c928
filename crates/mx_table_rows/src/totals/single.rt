//! The one row that was read, and the one or none.
ghost use Rattle.std.specs.Prelude.{◌≡◌};
ghost use Rattle.mx_table_rows.specs.totals.Single.{only_of, one_or_none_of};

use mx_layout::{Table, TableFault};

// The one row that was read. `Damaged` with the table where it is none, or more than one; the fault, where nothing was
// read.
pub(crate) fn only<R: Copy>(table: Table, read: Result<Vec<R>, TableFault>) -> Result<R, TableFault>
    ensures { result ≡ only_of table read }
{
    match read {
        Ok(rows) => match rows.as_slice() {
            [row] => Ok(*row),
            _ => Err(TableFault::Damaged(table)),
        },
        Err(fault) => Err(fault),
    }
}

// The one row that was read, or `None` where there is none. `Damaged` with the table where there is more than one; the
// fault, where nothing was read.
pub(crate) fn one_or_none<R: Copy>(
    table: Table,
    read: Result<Vec<R>, TableFault>,
) -> Result<Option<R>, TableFault>
    ensures { result ≡ one_or_none_of table read }
{
    match read {
        Ok(rows) => match rows.as_slice() {
            [] => Ok(None),
            [row] => Ok(Some(*row)),
            _ => Err(TableFault::Damaged(table)),
        },
        Err(fault) => Err(fault),
    }
}
