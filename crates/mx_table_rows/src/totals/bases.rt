//! The last base of a task of an item.
ghost use Rattle.std.specs.Prelude.{◌≡◌};
ghost use Rattle.sqlite.specs.Held.{state};
ghost use Rattle.mx_layout.specs.kept.Cells.{kept_base2};
ghost use Rattle.mx_table_rows.specs.totals.InPlace.{ReplacesRows};
ghost use Rattle.mx_table_rows.specs.totals.Calls.{ReadsFrom};
ghost use Rattle.mx_table_rows.specs.totals.Single.{IsOneOrNone, HasOneOrNone};
ghost use Rattle.mx_table_rows.specs.totals.Bases.{is_of_task};

use crate::chosen::kept::base2_by_item_and_task;
use crate::totals::in_place;
use crate::totals::single::one_or_none;
use mx_base::TaskId;
use mx_base::rows::BaseRow;
use mx_layout::{Table, TableFault};
use sqlite::{Alter, Transaction};
use std::alloc::Global;

/// The last base of a task of an item, or `None` where it has none. `Damaged` with `base2` where there is more than one, or
/// one that can't be read; `Memory` for want of memory, and `Store` for an error of the store.
pub fn base_row<S: Alter>(
    alloc: Global,
    tx: &mut Transaction<'_, S>,
    item: u32,
    task: &TaskId,
) -> Result<Option<BaseRow>, TableFault>
    ensures same_reference { tx.new.conn.ghost_name ≡ tx.old.conn.ghost_name }
    ensures reads { ReadsFrom kept_base2 (IsOneOrNone kept_base2 (is_of_task item task.now))
        (λ rows. ¬ HasOneOrNone kept_base2 (is_of_task item task.now) rows)
        (state S.Store tx.old.conn.now) (state S.Store tx.new.conn.now) result }
{
    let read = base2_by_item_and_task(alloc, tx, item, task);
    one_or_none(Table::Base2, read)
}

/// Writes the last base of a task of an item, in place of the one that it had, if it had one. `Memory` for want of
/// memory, and `Store` for an error of the store.
pub fn set_base<S: Alter>(tx: &mut Transaction<'_, S>, row: &BaseRow) -> Result<(), TableFault>
    ensures same_reference { tx.new.conn.ghost_name ≡ tx.old.conn.ghost_name }
    ensures replaces { ReplacesRows kept_base2 (is_of_task row.now.item row.now.task) row.now
        (state S.Store tx.old.conn.now) (state S.Store tx.new.conn.now) result }
{
    in_place::set_base(tx, row)
}
