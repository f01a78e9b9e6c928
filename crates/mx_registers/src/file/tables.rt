//! The rows of the tables of a file, put in the order of their keys.
ghost use Rattle.std.specs.Prelude.{OnOk};
ghost use Rattle.mx_registers.specs.file.Tables.{AreFilePut, AreMovesOf, AreRegistersPut};

use crate::file::file_rows::FileRows;
use crate::file::sorted::sort_rows;
use crate::file::spans::{fittings_in, removals_in};
use mx_base::rows::RegisterRows;
use mx_book::entry_list::NoMemory;
use std::alloc::Global;

// Puts the rows of each register but the fittings and removals in order.
fn sort_registers(rows: &mut RegisterRows) -> Result<(), NoMemory>
    ensures { OnOk result (AreRegistersPut rows.old rows.new) }
{
    sort_rows(&mut rows.aircraft)?;
    sort_rows(&mut rows.places)?;
    sort_rows(&mut rows.components)?;
    sort_rows(&mut rows.programmes)?;
    sort_rows(&mut rows.tasks)?;
    sort_rows(&mut rows.openings)?;
    sort_rows(&mut rows.releases)?;
    sort_rows(&mut rows.release_lines)?;
    sort_rows(&mut rows.deferrals)?;
    sort_rows(&mut rows.extensions)?;
    sort_rows(&mut rows.sectors)?;
    Ok(())
}

/// Puts the rows of each table in the order of their keys, but the last bases, and takes the fittings and removals out of the
/// spans. `NoMemory` where memory runs out.
pub fn put_in_order(alloc: Global, rows: &mut FileRows) -> Result<(), NoMemory>
    ensures { OnOk result (AreFilePut rows.old rows.new) }
{
    sort_rows(&mut rows.registers.entries)?;
    sort_registers(&mut rows.registers.rows)?;
    sort_rows(&mut rows.spans)?;
    sort_rows(&mut rows.totals)?;
    rows.registers.rows.fittings = fittings_in(alloc, rows.spans.as_slice())?;
    rows.registers.rows.removals = removals_in(alloc, rows.spans.as_slice())?;
    Ok(())
}
