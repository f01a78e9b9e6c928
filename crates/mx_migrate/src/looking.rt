//! A look at a table that is about to be dropped.
ghost use Rattle.std.specs.Prelude.{◌≡◌};
ghost use Rattle.sqlite.specs.Held.{state};
ghost use Rattle.mx_migrate.specs.Seeing.{SeesNone};

use mx_layout::TableFault;
use mx_tables::{Stored, rows};
use sqlite::{Alter, Transaction};
use std::alloc::Global;

/// Sees that no row is left in the table of a type.
///
/// # Errors
/// `Memory` for want of memory, `Store` for an error of the store, and `Damaged` with the table where a row is left.
pub(crate) fn none_left<S: Alter, R: Stored + Drop>(
    alloc: Global,
    tx: &mut Transaction<'_, S>,
) -> Result<(), TableFault>
    ensures same_reference { tx.new.conn.ghost_name ≡ tx.old.conn.ghost_name }
    ensures sees { SeesNone R.kept
        (state S.Store tx.old.conn.now) (state S.Store tx.new.conn.now) result }
{
    let found = rows::<S, R>(alloc, tx)?;
    if found.is_empty() {
        Ok(())
    } else {
        Err(TableFault::Damaged(R::texts().table))
    }
}
