//! Accomplishments of the tasks of items.
//!
//! The last accomplishment of a task has its last base; the others say what it was before.
ghost use Rattle.std.specs.Prelude.{◌≡◌, ◌⊎◌, ◌∷◌, ⊤, OnOk, IfErr, IsTrue};
ghost use Rattle.sqlite.specs.State.{HasCleanDisk};
ghost use Rattle.sqlite.specs.Held.{state};
ghost use Rattle.mx_layout.specs.kept.Cells.{kept_done3};
ghost use Rattle.mx_table_rows.specs.totals.Calls.{ReadsFrom, ChangesRows};
ghost use Rattle.mx_table_rows.specs.totals.Done.{IsDated, IsLastDone, HasOtherDone};

use crate::chosen::later::done3_by_item_and_task;
use mx_base::TaskId;
use mx_base::rows::DoneRow;
use mx_layout::{Table, TableFault};
use mx_tables::dated::DatedRow;
use mx_tables::inserts::Insert;
use sqlite::{Alter, Transaction};
use std::alloc::Global;

/// The last accomplishment of a task of an item, in the order of the entries and of the lines there, or `None` where it
/// has none. Its base is the last base of the task. `Damaged` with `done3` where an accomplishment of the task can't be
/// read; `Memory` for want of memory, and `Store` for an error of the store.
pub fn last_done<S: Alter>(
    alloc: Global,
    tx: &mut Transaction<'_, S>,
    item: u32,
    task: &TaskId,
) -> Result<Option<DoneRow>, TableFault>
    ensures same_reference { tx.new.conn.ghost_name ≡ tx.old.conn.ghost_name }
    ensures reads { ReadsFrom kept_done3
        (IsLastDone item task.now) (HasOtherDone item task.now)
        (state S.Store tx.old.conn.now) (state S.Store tx.new.conn.now) result }
{
    let rows = done3_by_item_and_task(alloc, tx, item, task)?;
    match rows.last() {
        Some(row) => Ok(Some(*row)),
        None => Ok(None),
    }
}

/// Adds an accomplishment. `Damaged` with `done3`, and nothing is done, where a day of it is past the calendar;
/// `Memory` for want of memory, and `Store` for an error of the store, among them that there is a row for the same line
/// of the entry, of the same task of the same item.
pub fn set_done<S: Alter>(tx: &mut Transaction<'_, S>, row: DoneRow) -> Result<(), TableFault>
    ensures same_reference { tx.new.conn.ghost_name ≡ tx.old.conn.ghost_name }
    ensures changes { IsDated row
        → ChangesRows kept_done3 (λ rows. kept_done3.as_cells row ∷ rows) (λ _. ⊤) (λ _. ⊥)
        (state S.Store tx.old.conn.now) (state S.Store tx.new.conn.now) result }
    ensures opens { IsDated row → HasCleanDisk (state S.Store tx.new.conn.now)
        → IsTrue (state S.Store tx.old.conn.now).in_transaction
        → OnOk result (IsTrue (state S.Store tx.old.conn.now).is_open) }
    ensures cause { IsDated row
        → IfErr result (λ e. (e ≡ TableFault.Memory) ⊎ (e ≡ TableFault.Store)) }
    ensures refuses { ¬ IsDated row
        → (result ≡ Err (TableFault.Damaged Table.Done3)) × (tx.new ≡ tx.old) }
{
    match DatedRow::of(row) {
        Some(dated) => dated.insert(tx),
        None => Err(TableFault::Damaged(Table::Done3)),
    }
}
