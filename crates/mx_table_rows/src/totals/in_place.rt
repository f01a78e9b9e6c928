//! Rows that come in place of others of their table.
//!
//! What becomes of kept rows with a command is computed from rows that were read before the first statement, and each
//! then comes here in place of the one with its key. `credit`, `set_clock`, `new_total` and `end_span2`, each of which
//! but one reads its rows anew, are called for no command.
ghost use Rattle.std.specs.Prelude.{◌≡◌, ◌&&◌, List, Bool, pos};
ghost use Rattle.sqlite.specs.declared.types.Value.{Value};
ghost use Rattle.sqlite.specs.declared.types.Value.TheVariants.{Int, Text};
ghost use Rattle.sqlite.specs.Values.{bound};
ghost use Rattle.sqlite.specs.Held.{state};
ghost use Rattle.mx_layout.specs.kept.Cells.{kept_span2, kept_total2, kept_base2, kept_defect3, kept_done3};
ghost use Rattle.mx_table_rows.specs.chosen.Choices.{has_value};
ghost use Rattle.mx_table_rows.specs.chosen.Lookups.{Deletes};
ghost use Rattle.mx_table_rows.specs.totals.InPlace.{ReplacesRows};
ghost use Rattle.mx_table_rows.specs.totals.Done.{is_of_line};

use crate::chosen::chosen::delete_rows;
use mx_base::rows::{BaseRow, Deferral3Row, SpanRow, TotalRow};
use mx_layout::TableFault;
use mx_tables::dated::DatedRow;
use mx_tables::inserts::Insert;
use sqlite::types::ValueRef;
use sqlite::{Alter, Transaction, params};

// Puts a row in place of those that are chosen by these values.
fn replace_rows<S: Alter, R: Insert>(
    tx: &mut Transaction<'_, S>,
    sql: &str,
    values: &[ValueRef<'_>],
    row: &R,
) -> Result<(), TableFault>
    ensures same_reference { tx.new.conn.ghost_name ≡ tx.old.conn.ghost_name }
    ensures replaces { (chosen : List Value → List Value → Bool) (given : List Value)
        → Deletes R.kept sql.now chosen → bound values.now ≡ given
        → ReplacesRows R.kept (chosen given) row.now
        (state S.Store tx.old.conn.now) (state S.Store tx.new.conn.now) result }
{
    delete_rows::<S, R>(tx, sql, values)?;
    row.insert(tx)
}

/// Writes a span, in place of the one that the same entry began.
pub fn set_span2<S: Alter>(tx: &mut Transaction<'_, S>, row: &SpanRow) -> Result<(), TableFault>
    ensures same_reference { tx.new.conn.ghost_name ≡ tx.old.conn.ghost_name }
    ensures replaces { ReplacesRows kept_span2 (has_value 0 (Int (pos row.now.fit_seq))) row.now
        (state S.Store tx.old.conn.now) (state S.Store tx.new.conn.now) result }
{
    replace_rows(
        tx,
        "DELETE FROM span2 WHERE fit_seq = ?1",
        params![row.fit_seq],
        row,
    )
}

/// Writes the total of an item, in place of the one that it had.
pub fn set_total<S: Alter>(tx: &mut Transaction<'_, S>, row: &TotalRow) -> Result<(), TableFault>
    ensures same_reference { tx.new.conn.ghost_name ≡ tx.old.conn.ghost_name }
    ensures replaces { ReplacesRows kept_total2 (has_value 0 (Int (pos row.now.item))) row.now
        (state S.Store tx.old.conn.now) (state S.Store tx.new.conn.now) result }
{
    replace_rows(
        tx,
        "DELETE FROM total2 WHERE item = ?1",
        params![row.item],
        row,
    )
}

/// Writes the last base of a task of an item, in place of the one that it had.
pub fn set_base<S: Alter>(tx: &mut Transaction<'_, S>, row: &BaseRow) -> Result<(), TableFault>
    ensures same_reference { tx.new.conn.ghost_name ≡ tx.old.conn.ghost_name }
    ensures replaces { ReplacesRows kept_base2
        (λ cells. has_value 0 (Int (pos row.now.item)) cells && has_value 1 (Text row.now.task) cells)
        row.now (state S.Store tx.old.conn.now) (state S.Store tx.new.conn.now) result }
{
    replace_rows(
        tx,
        "DELETE FROM base2 WHERE item = ?1 AND task = ?2",
        params![row.item, row.task.as_str()],
        row,
    )
}

/// Writes the deferral of a defect, in place of the one of the same entry.
pub fn set_found<S: Alter>(
    tx: &mut Transaction<'_, S>,
    row: &Deferral3Row,
) -> Result<(), TableFault>
    ensures same_reference { tx.new.conn.ghost_name ≡ tx.old.conn.ghost_name }
    ensures replaces { ReplacesRows kept_defect3
        (has_value 0 (Int (pos row.now.deferral.seq))) row.now
        (state S.Store tx.old.conn.now) (state S.Store tx.new.conn.now) result }
{
    replace_rows(
        tx,
        "DELETE FROM defect3 WHERE seq = ?1",
        params![row.deferral.seq],
        row,
    )
}

/// Writes an accomplishment, in place of the one of the same line of the same entry, of the same task of the same item.
pub fn set_done_row<S: Alter>(tx: &mut Transaction<'_, S>, row: &DatedRow) -> Result<(), TableFault>
    ensures same_reference { tx.new.conn.ghost_name ≡ tx.old.conn.ghost_name }
    ensures replaces { ReplacesRows kept_done3
        (is_of_line row.now.item row.now.task row.now.seq row.now.line) row.now
        (state S.Store tx.old.conn.now) (state S.Store tx.new.conn.now) result }
{
    let done = row.row();
    replace_rows(
        tx,
        "DELETE FROM done3 WHERE item = ?1 AND task = ?2 AND seq = ?3 AND line = ?4",
        params![done.item, done.task.as_str(), done.seq, done.line],
        row,
    )
}
