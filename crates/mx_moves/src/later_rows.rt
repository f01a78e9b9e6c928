//! Rows that the move from layout 2 to layout 3 reads, adds and deletes: deferrals, accomplishments and last bases.
ghost use Rattle.std.specs.Prelude.{◌≡◌, pos, Some};
ghost use Rattle.sqlite.specs.declared.types.Value.TheVariants.{Int};
ghost use Rattle.sqlite.specs.Held.{state};
ghost use Rattle.mx_layout.specs.kept.Cells.{kept_base2, kept_defect, kept_defect3, kept_done3};
ghost use Rattle.mx_layout.specs.kept.Family.{on_top};
ghost use Rattle.mx_table_rows.specs.chosen.Calls.{ReadsFirst, DeletesRows};
ghost use Rattle.mx_table_rows.specs.chosen.Choices.{has_value, is_any, is_up_to};
ghost use Rattle.mx_moves.specs.Changes.{WritesRows, less};
ghost use Rattle.mx_moves.specs.Schemas.{IsFree};

use crate::prelude::*;
use mx_base::rows::{BaseRow, Deferral3Row, DeferralRow};
use mx_table_rows::chosen::chosen::{delete_rows, rows_chosen};
use mx_tables::dated::DatedRow;
use mx_tables::inserts::Tables;
use sqlite::params;
use std::alloc::Global;

/// The first 64 deferrals of `defect`, from the front, whatever has moved before.
///
/// # Errors
/// `Memory` for want of memory, `Store` for an error of the store, and `Damaged` with the table where one of these rows is
/// no deferral.
pub fn first_deferrals<S: Alter>(
    alloc: Global,
    tx: &mut Transaction<'_, S>,
) -> Result<Vec<DeferralRow>, TableFault>
    ensures same_reference { tx.new.conn.ghost_name ≡ tx.old.conn.ghost_name }
    ensures reads { ReadsFirst kept_defect (Some 64) kept_defect.order is_any (λ rows. rows.items)
        (state S.Store tx.old.conn.now) (state S.Store tx.new.conn.now) result }
{
    rows_chosen(
        alloc,
        tx,
        "SELECT seq, aircraft, moment, reference, category, days FROM defect ORDER BY seq LIMIT 64",
        &[],
    )
}

/// Adds deferrals to `defect3`, with the cycles at which they were found.
///
/// # Errors
/// `Memory` for want of memory, and `Store` for an error of the store.
pub fn insert_deferrals<S: Alter>(
    tx: &mut Transaction<'_, S>,
    rows: &Vec<Deferral3Row>,
) -> Result<(), TableFault>
    ensures same_reference { tx.new.conn.ghost_name ≡ tx.old.conn.ghost_name }
    ensures writes { WritesRows kept_defect3.IsIn (on_top kept_defect3 rows.now.items)
        (state S.Store tx.old.conn.now) (state S.Store tx.new.conn.now) result }
{
    rows.write(tx)
}

// Deletes the deferrals up to this entry.
fn delete_defect<S: Alter>(tx: &mut Transaction<'_, S>, seq: u32) -> Result<(), TableFault>
    ensures same_reference { tx.new.conn.ghost_name ≡ tx.old.conn.ghost_name }
    ensures deletes { DeletesRows kept_defect (is_up_to 0 (Int (pos seq)))
        (state S.Store tx.old.conn.now) (state S.Store tx.new.conn.now) result }
{
    delete_rows::<S, DeferralRow>(tx, "DELETE FROM defect WHERE seq <= ?1", params![seq])
}

/// Deletes the deferrals of `defect` up to this entry.
///
/// # Errors
/// `Memory` for want of memory, and `Store` for an error of the store.
pub fn delete_deferrals<S: Alter>(tx: &mut Transaction<'_, S>, seq: u32) -> Result<(), TableFault>
    ensures same_reference { tx.new.conn.ghost_name ≡ tx.old.conn.ghost_name }
    ensures writes { WritesRows (IsFree kept_defect) (less kept_defect (is_up_to 0 (Int (pos seq))))
        (state S.Store tx.old.conn.now) (state S.Store tx.new.conn.now) result }
{
    delete_defect(tx, seq)
}

/// Adds accomplishments to `done3`.
///
/// # Errors
/// `Memory` for want of memory, and `Store` for an error of the store.
pub fn insert_accomplishments<S: Alter>(
    tx: &mut Transaction<'_, S>,
    accomplishments: &Vec<DatedRow>,
) -> Result<(), TableFault>
    ensures same_reference { tx.new.conn.ghost_name ≡ tx.old.conn.ghost_name }
    ensures writes { WritesRows kept_done3.IsIn (on_top kept_done3 accomplishments.now.items)
        (state S.Store tx.old.conn.now) (state S.Store tx.new.conn.now) result }
{
    accomplishments.write(tx)
}

// Deletes the last bases of an item.
fn delete_base2<S: Alter>(tx: &mut Transaction<'_, S>, item: u32) -> Result<(), TableFault>
    ensures same_reference { tx.new.conn.ghost_name ≡ tx.old.conn.ghost_name }
    ensures deletes { DeletesRows kept_base2 (has_value 0 (Int (pos item)))
        (state S.Store tx.old.conn.now) (state S.Store tx.new.conn.now) result }
{
    delete_rows::<S, BaseRow>(tx, "DELETE FROM base2 WHERE item = ?1", params![item])
}

/// Deletes the last bases of an item from `base2`.
///
/// # Errors
/// `Memory` for want of memory, and `Store` for an error of the store.
pub fn delete_bases_of<S: Alter>(tx: &mut Transaction<'_, S>, item: u32) -> Result<(), TableFault>
    ensures same_reference { tx.new.conn.ghost_name ≡ tx.old.conn.ghost_name }
    ensures writes { WritesRows (IsFree kept_base2) (less kept_base2 (has_value 0 (Int (pos item))))
        (state S.Store tx.old.conn.now) (state S.Store tx.new.conn.now) result }
{
    delete_base2(tx, item)
}
