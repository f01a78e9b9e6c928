//! Rows that come together in place of all that are chosen.
//!
//! Rows that are written one after another, each in place of the one with its key, stand all there where no two have one key.
//! These need not: what is chosen is deleted first, and then all are added.
ghost use Rattle.std.specs.Prelude.{◌≡◌, List, Bool};
ghost use Rattle.sqlite.specs.declared.types.Value.{Value};
ghost use Rattle.sqlite.specs.Values.{bound};
ghost use Rattle.sqlite.specs.Held.{state};
ghost use Rattle.mx_layout.specs.kept.Cells.{kept_done3};
ghost use Rattle.mx_table_rows.specs.chosen.Lookups.{Deletes};
ghost use Rattle.mx_table_rows.specs.totals.Bases.{is_of_task};
ghost use Rattle.mx_table_rows.specs.totals.Puts.{WritesRows, rows_added, rows_instead};

use crate::chosen::chosen::delete_rows;
use mx_base::TaskId;
use mx_layout::TableFault;
use mx_tables::dated::DatedRow;
use mx_tables::inserts::Insert;
use sqlite::types::ValueRef;
use sqlite::{Alter, Transaction, params};

// Adds rows, one after another.
pub(crate) fn add_rows<S: Alter, R: Insert>(
    tx: &mut Transaction<'_, S>,
    rows: &[R],
) -> Result<(), TableFault>
    ensures same_reference { tx.new.conn.ghost_name ≡ tx.old.conn.ghost_name }
    ensures adds { WritesRows R.kept (rows_added R.kept rows.now)
        (state S.Store tx.old.conn.now) (state S.Store tx.new.conn.now) result }
{
    'rows: for row in rows {
        row.insert(tx)?;
    }
    Ok(())
}

// Puts rows in place of all that are chosen by these values.
fn replace_all<S: Alter, R: Insert>(
    tx: &mut Transaction<'_, S>,
    sql: &str,
    values: &[ValueRef<'_>],
    rows: &[R],
) -> Result<(), TableFault>
    ensures same_reference { tx.new.conn.ghost_name ≡ tx.old.conn.ghost_name }
    ensures replaces { (chosen : List Value → List Value → Bool) (given : List Value)
        → Deletes R.kept sql.now chosen → bound values.now ≡ given
        → WritesRows R.kept (rows_instead R.kept (chosen given) rows.now)
        (state S.Store tx.old.conn.now) (state S.Store tx.new.conn.now) result }
{
    delete_rows::<S, R>(tx, sql, values)?;
    add_rows(tx, rows)
}

/// Writes the accomplishments of a task of an item, in place of all that it had.
pub fn set_done_rows<S: Alter>(
    tx: &mut Transaction<'_, S>,
    item: u32,
    task: &TaskId,
    rows: &[DatedRow],
) -> Result<(), TableFault>
    ensures same_reference { tx.new.conn.ghost_name ≡ tx.old.conn.ghost_name }
    ensures replaces { WritesRows kept_done3
        (rows_instead kept_done3 (is_of_task item task.now) rows.now)
        (state S.Store tx.old.conn.now) (state S.Store tx.new.conn.now) result }
{
    replace_all(
        tx,
        "DELETE FROM done3 WHERE item = ?1 AND task = ?2",
        params![item, task.as_str()],
        rows,
    )
}
