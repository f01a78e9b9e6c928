//! Rows that are added to their table, one at a time.
//!
//! `Stored` has how rows are kept, their texts and their reader, and `Insert` adds one. In one trait the insert gets no
//! proof: it would pass its own type to a bound on the trait that it is about to meet. And the values of a row can't
//! come out of a method as a vector of borrowed texts, so each type passes them in its own `insert`.
ghost use Rattle.std.specs.Prelude.{◌≡◌};
ghost use Rattle.sqlite.specs.Values.{bound};
ghost use Rattle.sqlite.specs.Held.{state};
ghost use Rattle.mx_tables.specs.inserts.Calls.{InsertsRow};

use crate::Stored;
use mx_layout::TableFault;
use mx_layout::statement::execute;
use sqlite::types::ValueRef;
use sqlite::{Alter, Transaction};

/// Rows that can be added to their table.
pub trait Insert: Stored {
    /// Adds the row. `Memory` for want of memory, and `Store` for an error of the store, a value that is taken
    /// among them.
    fn insert<S: Alter>(&self, tx: &mut Transaction<'_, S>) -> Result<(), TableFault>
        ensures same_reference { tx.new.conn.ghost_name ≡ tx.old.conn.ghost_name }
        ensures inserts { InsertsRow Self.kept self.now
            (state S.Store tx.old.conn.now) (state S.Store tx.new.conn.now) result }
        ensures fits { Self.kept.Fits self.now };
}

/// Adds a row, whose values are these in the order of the columns.
pub(crate) fn insert_values<S: Alter, R: Stored>(
    tx: &mut Transaction<'_, S>,
    row: &R,
    values: &[ValueRef<'_>],
) -> Result<(), TableFault>
    requires { bound values.now ≡ R.kept.as_cells row.now }
    ensures same_reference { tx.new.conn.ghost_name ≡ tx.old.conn.ghost_name }
    ensures inserts { InsertsRow R.kept row.now
        (state S.Store tx.old.conn.now) (state S.Store tx.new.conn.now) result }
{
    execute(tx, R::texts().insert, values)
}

/// Adds a row, whose values are these in the order of the columns.
macro_rules! insert_columns {
    ($row:ident, $tx:ident: $($value:expr),+) => {{
        let values = params![$($value),+];
        insert_values($tx, $row, values)
    }};
}

pub(crate) use insert_columns;
