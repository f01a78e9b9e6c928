//! The rows of a command, written inside a transaction.
//!
//! The row of the entry is written first: a set of tables that has no row at all can't know that the connection is
//! open.
ghost use Rattle.std.specs.Prelude.{◌≡◌, IsTrue, IfErr, OnOk};
ghost use Rattle.sqlite.specs.State.{HasCleanDisk};
ghost use Rattle.sqlite.specs.Held.{state};
ghost use Rattle.mx_apply.specs.writing.Changes.{WritesRows};
ghost use Rattle.mx_apply.specs.writing.Written.{IsSettled, with_changed, with_rows};

use crate::writing::pairs::in_pairs;
use crate::writing::replacing::replace_all;
use mx_layout::TableFault;
use mx_row_rules::changes::{ChangedRows, CommandRows};
use mx_tables::inserts::{Insert, Tables};
use sqlite::{Alter, Transaction};

// Writes the kept rows that a command changes, each in place of what it was.
fn write_changed<S: Alter>(
    tx: &mut Transaction<'_, S>,
    rows: &ChangedRows,
) -> Result<(), TableFault>
    ensures same_reference { tx.new.conn.ghost_name ≡ tx.old.conn.ghost_name }
    ensures writes { WritesRows IsSettled (with_changed rows.now)
        (state S.Store tx.old.conn.now) (state S.Store tx.new.conn.now) result }
{
    replace_all(tx, &rows.spans)?;
    replace_all(tx, &rows.totals)?;
    replace_all(tx, &rows.bases)
}

// Writes the rows of a command, in every table that it has rows for.
fn write_tables<S: Alter>(tx: &mut Transaction<'_, S>, rows: CommandRows) -> Result<(), TableFault>
    ensures same_reference { tx.new.conn.ghost_name ≡ tx.old.conn.ghost_name }
    ensures writes { WritesRows IsSettled (with_rows rows)
        (state S.Store tx.old.conn.now) (state S.Store tx.new.conn.now) result }
    ensures opens { HasCleanDisk (state S.Store tx.new.conn.now)
        → IsTrue (state S.Store tx.old.conn.now).in_transaction
        → OnOk result (IsTrue (state S.Store tx.old.conn.now).is_open) }
{
    let CommandRows {
        entry,
        changed,
        added,
    } = rows;
    entry.insert(tx)?;
    write_changed(tx, &changed)?;
    in_pairs(added).write(tx)
}

/// Writes the rows of a command, in every table that it has rows for. `Store` where a statement is stopped: some of the
/// rows may have been written then, and the transaction is to be dropped.
pub fn write_rows<S: Alter>(
    tx: &mut Transaction<'_, S>,
    rows: CommandRows,
) -> Result<(), TableFault>
    ensures same_reference { tx.new.conn.ghost_name ≡ tx.old.conn.ghost_name }
    ensures writes { WritesRows IsSettled (with_rows rows)
        (state S.Store tx.old.conn.now) (state S.Store tx.new.conn.now) result }
    ensures opens { HasCleanDisk (state S.Store tx.new.conn.now)
        → IsTrue (state S.Store tx.old.conn.now).in_transaction
        → OnOk result (IsTrue (state S.Store tx.old.conn.now).is_open) }
    ensures cause { IfErr result (λ e. e ≡ TableFault.Store) }
{
    match write_tables(tx, rows) {
        Ok(()) => Ok(()),
        Err(_) => Err(TableFault::Store),
    }
}
