//! Due and base of the accomplishments of a task, anew by their rows.
//!
//! Behind a sector that is entered late the values of accomplishments have grown. A due is counted from the base before it,
//! so with the first base that grows the next due does, and what follows with it: all rows of the task are read, and all
//! made, before the first is written. So a damaged row, or a due past the most of a column, leaves each of them as it was.
//!
//! A due is moved as far as the base before it was, and not computed from a programme: a chain of dues that was wrong
//! before is not mended.
ghost use Rattle.std.specs.Prelude.{◌≡◌, ◌⊎◌, ◌<◌, ◌^◌, All, None, IfOk, IfErr, IfSome, IfNone};
ghost use Rattle.sqlite.specs.Held.{state};
ghost use Rattle.mx_base.specs.rows.Rows.{FitsLimit};
ghost use Rattle.mx_book.specs.due.Moved.{moved_by, due_moved, row_with, moved};
ghost use Rattle.mx_layout.specs.kept.Cells.{kept_done3};
ghost use Rattle.mx_table_rows.specs.totals.Calls.{ReadsFrom};
ghost use Rattle.mx_table_rows.specs.totals.Bases.{is_of_task};
ghost use Rattle.mx_table_rows.specs.totals.Remade.{AreRemade, CantRemake, RemakesRows};

use crate::chosen::later::done3_by_item_and_task;
use crate::totals::instead::set_done_rows;
use mx_base::rows::DoneRow;
use mx_base::{Base, Day, Limit, TaskId, Use};
use mx_book::due::due::base_done;
use mx_layout::{Table, TableFault};
use mx_tables::dated::DatedRow;
use sqlite::{Alter, Transaction};
use std::alloc::Global;

// A due in one dimension, moved as far as the base was that it is counted from, or `None` where it is past 32 bits then.
fn moved_by(old: u32, new: u32, due: Option<u32>) -> Option<Option<u32>>
    ensures moved { IfSome result (λ moved. moved ≡ moved_by old new due) }
    ensures fits { IfSome result (λ moved. IfSome moved (λ n. n < 2 ^ 32)) }
    ensures past { IfNone result (¬ IfSome (moved_by old new due) (λ n. n < 2 ^ 32)) }
{
    match due {
        Some(due) => {
            let moved = due.checked_add(new.saturating_sub(old))?;
            Some(Some(moved))
        }
        None => Some(None),
    }
}

// A due, moved as far as the base was that it is counted from, or `None` where it is past 32 bits in a dimension then. One
// that is counted from none stays.
fn due_moved(old: Option<Base>, new: Option<Base>, due: Limit) -> Option<Limit>
    ensures moved { IfSome result (λ moved. moved ≡ due_moved old new due) }
    ensures fits { FitsLimit due → IfSome result FitsLimit }
    ensures past { IfNone result (¬ FitsLimit (due_moved old new due)) }
{
    match (old, new) {
        (Some(old), Some(new)) => Some(Limit {
            minutes: moved_by(old.minutes, new.minutes, due.minutes)?,
            cycles: moved_by(old.cycles, new.cycles, due.cycles)?,
            days: moved_by(old.day, new.day, due.days)?,
        }),
        _ => Some(due),
    }
}

// The row with its due moved as far as the base of the row before it, from `old` to `new`, and the base that this leaves of
// its value. `None` where that does not fit the columns.
fn row_moved(old: Option<Base>, new: Option<Base>, row: &DoneRow) -> Option<DatedRow>
    ensures moved { IfSome result (λ moved.
        moved ≡ row_with row.now (due_moved old new row.now.due)) }
    ensures fits { kept_done3.Fits row.now → IfSome result kept_done3.Fits }
    ensures past { IfNone result
        (¬ kept_done3.Fits (row_with row.now (due_moved old new row.now.due))) }
{
    let due = due_moved(old, new, row.due)?;
    let day = Day::of_number(row.value.day)?;
    let life = Use {
        minutes: row.value.minutes,
        cycles: row.value.cycles,
    };
    let base = base_done(&life, day, Some(due));
    DatedRow::of(DoneRow { due, base, ..*row })
}

// These rows, each moved by the one before it. `Damaged` with `done3` where one of them does not fit the columns then.
fn rows_moved(alloc: Global, rows: &[DoneRow]) -> Result<Vec<DatedRow>, TableFault>
    ensures moved { IfOk result (λ v. v.items ≡ moved None None rows.now) }
    ensures fits { All kept_done3.Fits rows.now
        → IfOk result (λ v. All kept_done3.Fits v.items) }
    ensures stopped { IfErr result (λ e. (e ≡ TableFault.Memory)
        ⊎ ((e ≡ TableFault.Damaged Table.Done3)
        × ¬ All kept_done3.Fits (moved None None rows.now))) }
{
    let mut made: Vec<DatedRow> = Vec::new(alloc);
    let mut old: Option<Base> = None;
    let mut new: Option<Base> = None;
    'rows: for row in rows {
        match row_moved(old, new, row) {
            Some(moved) => {
                old = Some(row.base);
                new = Some(moved.row().base);
                made.push(moved)?;
            }
            None => return Err(TableFault::Damaged(Table::Done3)),
        }
    }
    Ok(made)
}

// The accomplishments of a task of an item, each moved by the one before it.
fn done_moved<S: Alter>(
    alloc: Global,
    tx: &mut Transaction<'_, S>,
    item: u32,
    task: &TaskId,
) -> Result<Vec<DatedRow>, TableFault>
    ensures same_reference { tx.new.conn.ghost_name ≡ tx.old.conn.ghost_name }
    ensures reads { ReadsFrom kept_done3
        (λ rows made. AreRemade kept_done3 (is_of_task item task.now) (moved None None)
        rows made.items)
        (CantRemake kept_done3 (is_of_task item task.now) (moved None None))
        (state S.Store tx.old.conn.now) (state S.Store tx.new.conn.now) result }
{
    let rows = done3_by_item_and_task(alloc, tx, item, task)?;
    rows_moved(alloc, &rows)
}

/// Writes the accomplishments of a task of an item anew, by their rows alone, in the order of their entries and of the lines
/// there: the due of each is moved as far as the base of the one before it was, and its base is in each dimension the
/// lesser of its value and its due. `Damaged` with `done3`, and nothing changed, where an accomplishment of the task can't
/// be read, or where a due is past 32 bits then. `Memory` for want of memory, and `Store` for an error of the store.
pub fn rebase<S: Alter>(
    alloc: Global,
    tx: &mut Transaction<'_, S>,
    item: u32,
    task: &TaskId,
) -> Result<(), TableFault>
    ensures same_reference { tx.new.conn.ghost_name ≡ tx.old.conn.ghost_name }
    ensures changes { RemakesRows kept_done3 (is_of_task item task.now) (moved None None)
        (state S.Store tx.old.conn.now) (state S.Store tx.new.conn.now) result }
{
    let made = done_moved(alloc, tx, item, task)?;
    set_done_rows(tx, item, task, &made)
}
