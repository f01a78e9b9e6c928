//! The total of an item: its life now, and its clock.
//!
//! A credit reads all lives before it writes one. So a damaged row, or a life past its most, leaves each of the items
//! as it was, and no list grows once something is written; credited one by one, a fault in the middle would leave the
//! first ones changed until the caller gives the transaction up. The items have to be distinct, by a test that
//! computes: one that stood twice would be read twice and written twice, with the use added once.
ghost use Rattle.std.specs.Prelude.{◌≡◌, ◌⊎◌, ◌∷◌, ⊤, All, Any, IsTrue, OnOk, IfErr, nat_eq, true};
ghost use Rattle.mx_book.specs.commands.Bounds.{are_distinct};
ghost use Rattle.sqlite.specs.State.{HasCleanDisk};
ghost use Rattle.sqlite.specs.Held.{state};
ghost use Rattle.mx_layout.specs.kept.Cells.{kept_total2};
ghost use Rattle.mx_tables.specs.Calls.{OnRead};
ghost use Rattle.mx_table_rows.specs.totals.Calls.{ReadsFrom, ChangesRows, change_where};
ghost use Rattle.mx_table_rows.specs.totals.Single.{IsOnly, HasOne};
ghost use Rattle.mx_table_rows.specs.totals.Totals.{total_row, is_of_item, is_own_total, is_of_any, credited, clocked, CanCredit, IsCredited};
ghost use Rattle.mx_table_rows.specs.totals.Steps.{ReadsTotals};
ghost use Rattle.mx_table_rows.specs.totals.Puts.{PutsRows};

use crate::chosen::kept::total2_by_item;
use crate::totals::in_place::set_total;
use crate::totals::lives::{Total, life_with};
use crate::totals::single::only;
use mx_base::rows::TotalRow;
use mx_base::{Moment, Use};
use mx_layout::{Table, TableFault};
use mx_tables::inserts::Insert;
use sqlite::{Alter, Transaction};
use std::alloc::Global;

// The row of the total of an item.
fn row_of<S: Alter>(
    alloc: Global,
    tx: &mut Transaction<'_, S>,
    item: u32,
) -> Result<TotalRow, TableFault>
    ensures same_reference { tx.new.conn.ghost_name ≡ tx.old.conn.ghost_name }
    ensures reads { ReadsFrom kept_total2 (IsOnly kept_total2 (is_of_item item))
        (λ rows. ¬ HasOne kept_total2 (is_of_item item) rows)
        (state S.Store tx.old.conn.now) (state S.Store tx.new.conn.now) result }
{
    let read = total2_by_item(alloc, tx, item);
    only(Table::Total2, read)
}

// The row of the total of an item, with the use added to its life.
fn row_with<S: Alter>(
    alloc: Global,
    tx: &mut Transaction<'_, S>,
    item: u32,
    added: Use,
) -> Result<TotalRow, TableFault>
    ensures same_reference { tx.new.conn.ghost_name ≡ tx.old.conn.ghost_name }
    ensures reads { ReadsFrom kept_total2 (λ rows. IsCredited added rows item)
        (λ rows. ¬ CanCredit added rows item)
        (state S.Store tx.old.conn.now) (state S.Store tx.new.conn.now) result }
{
    let row = row_of(alloc, tx, item)?;
    match life_with(row.life, added) {
        Some(life) => Ok(TotalRow { life, ..row }),
        None => Err(TableFault::Damaged(Table::Total2)),
    }
}

// The rows of the totals of these items, with the use added to each life.
pub(crate) fn rows_with<S: Alter>(
    alloc: Global,
    tx: &mut Transaction<'_, S>,
    items: &[u32],
    added: Use,
) -> Result<Vec<TotalRow>, TableFault>
    ensures same_reference { tx.new.conn.ghost_name ≡ tx.old.conn.ghost_name }
    ensures reads { ReadsTotals added items.now (λ rows. rows.items)
        (state S.Store tx.old.conn.now) (state S.Store tx.new.conn.now) result }
{
    let mut rows = Vec::new(alloc);
    'items: for item in items {
        let row = row_with(alloc, tx, *item, added)?;
        rows.push(row)?;
    }
    Ok(rows)
}

// Writes totals, each in place of the one that its item had.
pub(crate) fn put_rows<S: Alter>(
    tx: &mut Transaction<'_, S>,
    rows: &[TotalRow],
) -> Result<(), TableFault>
    ensures same_reference { tx.new.conn.ghost_name ≡ tx.old.conn.ghost_name }
    ensures puts { PutsRows kept_total2 is_own_total rows.now
        (state S.Store tx.old.conn.now) (state S.Store tx.new.conn.now) result }
{
    'rows: for row in rows {
        set_total(tx, row)?;
    }
    Ok(())
}

/// The total of an item. `Damaged` with `total2` where the item has no row there, more than one, or one that can't be
/// read; `Memory` for want of memory, and `Store` for an error of the store.
pub fn total<S: Alter>(
    alloc: Global,
    tx: &mut Transaction<'_, S>,
    item: u32,
) -> Result<Total, TableFault>
    ensures same_reference { tx.new.conn.ghost_name ≡ tx.old.conn.ghost_name }
    ensures reads { ReadsFrom kept_total2
        (λ rows total. IsOnly kept_total2 (is_of_item item) rows (total_row item total))
        (λ rows. ¬ HasOne kept_total2 (is_of_item item) rows)
        (state S.Store tx.old.conn.now) (state S.Store tx.new.conn.now) result }
{
    let row = row_of(alloc, tx, item)?;
    Ok(Total {
        life: row.life,
        clock: row.clock,
    })
}

/// Adds the total of an item that has none yet. `Memory` for want of memory, and `Store` for an error of the store, a
/// total that the item has already among them.
pub fn new_total<S: Alter>(
    tx: &mut Transaction<'_, S>,
    item: u32,
    total: Total,
) -> Result<(), TableFault>
    ensures same_reference { tx.new.conn.ghost_name ≡ tx.old.conn.ghost_name }
    ensures changes { ChangesRows kept_total2
        (λ rows. kept_total2.as_cells (total_row item total) ∷ rows) (λ _. ⊤) (λ _. ⊥)
        (state S.Store tx.old.conn.now) (state S.Store tx.new.conn.now) result }
    ensures opens { HasCleanDisk (state S.Store tx.new.conn.now)
        → IsTrue (state S.Store tx.old.conn.now).in_transaction
        → OnOk result (IsTrue (state S.Store tx.old.conn.now).is_open) }
    ensures cause { IfErr result (λ e. (e ≡ TableFault.Memory) ⊎ (e ≡ TableFault.Store)) }
{
    let row = TotalRow {
        item,
        life: total.life,
        clock: total.clock,
    };
    row.insert(tx)
}

/// Adds the use to the life of each of these items, and to no other: all lives are read before the first is written.
/// `Damaged` with `total2`, and nothing changed, where one of the items has no row there, more than one, one that can't
/// be read, or a life that the sum would take past the most: 1,540,000,000 minutes and 51,000,000 cycles. `Memory` for
/// want of memory, and `Store` for an error of the store.
pub fn credit<S: Alter>(
    alloc: Global,
    tx: &mut Transaction<'_, S>,
    items: &[u32],
    added: Use,
) -> Result<(), TableFault>
    requires { are_distinct nat_eq items.now ≡ true }
    ensures same_reference { tx.new.conn.ghost_name ≡ tx.old.conn.ghost_name }
    ensures changes { ChangesRows kept_total2 (change_where (is_of_any items.now) (credited added))
        (λ rows. All (CanCredit added rows) items.now)
        (λ rows. Any (λ item. ¬ CanCredit added rows item) items.now)
        (state S.Store tx.old.conn.now) (state S.Store tx.new.conn.now) result }
{
    let rows = rows_with(alloc, tx, items, added)?;
    put_rows(tx, &rows)
}

/// Sets the clock of an item, whose life stays. `Damaged` with `total2`, and nothing changed, where the item has no row
/// there, more than one, or one that can't be read; `Memory` for want of memory, and `Store` for an error of the store.
pub fn set_clock<S: Alter>(
    alloc: Global,
    tx: &mut Transaction<'_, S>,
    item: u32,
    clock: Moment,
) -> Result<(), TableFault>
    ensures same_reference { tx.new.conn.ghost_name ≡ tx.old.conn.ghost_name }
    ensures changes { ChangesRows kept_total2 (change_where (is_of_item item) (clocked clock))
        (HasOne kept_total2 (is_of_item item)) (λ rows. ¬ HasOne kept_total2 (is_of_item item) rows)
        (state S.Store tx.old.conn.now) (state S.Store tx.new.conn.now) result }
    ensures opens { HasCleanDisk (state S.Store tx.new.conn.now)
        → IsTrue (state S.Store tx.old.conn.now).in_transaction
        → OnRead result (IsTrue (state S.Store tx.old.conn.now).is_open) }
{
    let row = row_of(alloc, tx, item)?;
    set_total(tx, &TotalRow { clock, ..row })
}
