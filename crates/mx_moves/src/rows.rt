//! Rows that the moves read, add and delete: the items that they go by, sectors, what there is of a component, totals and
//! last bases.
ghost use Rattle.std.specs.Prelude.{◌≡◌, pos, Some, [], ◌∷◌};
ghost use Rattle.sqlite.specs.declared.types.Value.TheVariants.{Int};
ghost use Rattle.sqlite.specs.Held.{state};
ghost use Rattle.mx_layout.specs.kept.Cells.{kept_component, kept_sector1, kept_sector2_rows, kept_fit1, kept_removal1, kept_span2, kept_base2, kept_total2};
ghost use Rattle.mx_table_rows.specs.chosen.Calls.{ReadsFirst, DeletesRows, ReadsBy};
ghost use Rattle.mx_table_rows.specs.chosen.Choices.{is_above, is_any, is_up_to, has_value};
ghost use Rattle.mx_layout.specs.kept.Family.{on_top};
ghost use Rattle.mx_moves.specs.Changes.{WritesRows, less};
ghost use Rattle.mx_moves.specs.Schemas.{IsFree};

use crate::prelude::*;
use mx_base::rows::{
    BaseRow, ComponentRow, FittingRow, RemovalRow, Sector2Row, SectorRow, SpanRow, TotalRow,
};
use mx_table_rows::chosen::changes::{delete_fit1, delete_sector1};
use mx_table_rows::chosen::chosen::{delete_rows, rows_chosen};
use mx_tables::inserts::{Insert, Tables};
use sqlite::params;
use std::alloc::Global;

/// The next component behind an entry: at most one.
///
/// # Errors
/// `Memory` for want of memory, `Store` for an error of the store, and `Damaged` with the table where that row is no
/// component.
pub fn next_components<S: Alter>(
    alloc: Global,
    tx: &mut Transaction<'_, S>,
    seq: u32,
) -> Result<Vec<ComponentRow>, TableFault>
    ensures same_reference { tx.new.conn.ghost_name ≡ tx.old.conn.ghost_name }
    ensures reads { ReadsFirst kept_component (Some 1) kept_component.order
        (is_above 0 (Int (pos seq))) (λ rows. rows.items)
        (state S.Store tx.old.conn.now) (state S.Store tx.new.conn.now) result }
{
    rows_chosen(
        alloc,
        tx,
        "SELECT seq, serial, part, birth, minutes, cycles, as_of FROM component WHERE seq > ?1 ORDER BY seq LIMIT 1",
        params![seq],
    )
}

/// The first 64 sectors of `sector1`, from the front, whatever has moved before.
///
/// # Errors
/// `Memory` for want of memory, `Store` for an error of the store, and `Damaged` with the table where one of these rows is
/// no sector.
pub fn first_sectors<S: Alter>(
    alloc: Global,
    tx: &mut Transaction<'_, S>,
) -> Result<Vec<SectorRow>, TableFault>
    ensures same_reference { tx.new.conn.ghost_name ≡ tx.old.conn.ghost_name }
    ensures reads { ReadsFirst kept_sector1 (Some 64) kept_sector1.order is_any
        (λ rows. rows.items)
        (state S.Store tx.old.conn.now) (state S.Store tx.new.conn.now) result }
{
    rows_chosen(
        alloc,
        tx,
        "SELECT seq, aircraft, page, line, took_off, landed, cycles FROM sector1 ORDER BY seq LIMIT 64",
        &[],
    )
}

/// Adds sectors to `sector2`, their moments as numbers.
///
/// # Errors
/// `Memory` for want of memory, and `Store` for an error of the store.
pub fn insert_sectors<S: Alter>(
    tx: &mut Transaction<'_, S>,
    rows: &Vec<Sector2Row>,
) -> Result<(), TableFault>
    ensures same_reference { tx.new.conn.ghost_name ≡ tx.old.conn.ghost_name }
    ensures writes { WritesRows kept_sector2_rows.IsIn (on_top kept_sector2_rows rows.now.items)
        (state S.Store tx.old.conn.now) (state S.Store tx.new.conn.now) result }
{
    rows.write(tx)
}

/// Deletes the sectors of `sector1` up to this entry.
///
/// # Errors
/// `Memory` for want of memory, and `Store` for an error of the store.
pub fn delete_sectors<S: Alter>(tx: &mut Transaction<'_, S>, seq: u32) -> Result<(), TableFault>
    ensures same_reference { tx.new.conn.ghost_name ≡ tx.old.conn.ghost_name }
    ensures writes { WritesRows (IsFree kept_sector1)
        (less kept_sector1 (is_up_to 0 (Int (pos seq))))
        (state S.Store tx.old.conn.now) (state S.Store tx.new.conn.now) result }
{
    delete_sector1(tx, seq)
}

/// The fittings of a component in `fit1`.
///
/// # Errors
/// `Memory` for want of memory, `Store` for an error of the store, and `Damaged` with the table where one of these rows is
/// no fitting.
pub fn fittings_of<S: Alter>(
    alloc: Global,
    tx: &mut Transaction<'_, S>,
    component: u32,
) -> Result<Vec<FittingRow>, TableFault>
    ensures same_reference { tx.new.conn.ghost_name ≡ tx.old.conn.ghost_name }
    ensures reads { ReadsBy kept_fit1 1 (Int (pos component))
        (state S.Store tx.old.conn.now) (state S.Store tx.new.conn.now) result }
{
    rows_chosen(
        alloc,
        tx,
        "SELECT seq, component, aircraft, position, moment FROM fit1 WHERE component = ?1 ORDER BY seq",
        params![component],
    )
}

/// The removals of a component in `removal1`.
///
/// # Errors
/// `Memory` for want of memory, `Store` for an error of the store, and `Damaged` with the table where one of these rows is
/// no removal.
pub fn removals_of<S: Alter>(
    alloc: Global,
    tx: &mut Transaction<'_, S>,
    component: u32,
) -> Result<Vec<RemovalRow>, TableFault>
    ensures same_reference { tx.new.conn.ghost_name ≡ tx.old.conn.ghost_name }
    ensures reads { ReadsBy kept_removal1 1 (Int (pos component))
        (state S.Store tx.old.conn.now) (state S.Store tx.new.conn.now) result }
{
    rows_chosen(
        alloc,
        tx,
        "SELECT seq, component, moment FROM removal1 WHERE component = ?1 ORDER BY seq",
        params![component],
    )
}

/// Adds spans to `span2`.
///
/// # Errors
/// `Memory` for want of memory, and `Store` for an error of the store.
pub fn insert_spans<S: Alter>(
    tx: &mut Transaction<'_, S>,
    rows: &Vec<SpanRow>,
) -> Result<(), TableFault>
    ensures same_reference { tx.new.conn.ghost_name ≡ tx.old.conn.ghost_name }
    ensures writes { WritesRows kept_span2.IsIn (on_top kept_span2 rows.now.items)
        (state S.Store tx.old.conn.now) (state S.Store tx.new.conn.now) result }
{
    rows.write(tx)
}

/// Deletes the fittings of a component from `fit1`.
///
/// # Errors
/// `Memory` for want of memory, and `Store` for an error of the store.
pub fn delete_fittings<S: Alter>(
    tx: &mut Transaction<'_, S>,
    component: u32,
) -> Result<(), TableFault>
    ensures same_reference { tx.new.conn.ghost_name ≡ tx.old.conn.ghost_name }
    ensures writes { WritesRows (IsFree kept_fit1)
        (less kept_fit1 (has_value 1 (Int (pos component))))
        (state S.Store tx.old.conn.now) (state S.Store tx.new.conn.now) result }
{
    delete_fit1(tx, component)
}

// Deletes the removals of a component.
fn delete_removal1<S: Alter>(tx: &mut Transaction<'_, S>, component: u32) -> Result<(), TableFault>
    ensures same_reference { tx.new.conn.ghost_name ≡ tx.old.conn.ghost_name }
    ensures deletes { DeletesRows kept_removal1 (has_value 1 (Int (pos component)))
        (state S.Store tx.old.conn.now) (state S.Store tx.new.conn.now) result }
{
    delete_rows::<S, RemovalRow>(
        tx,
        "DELETE FROM removal1 WHERE component = ?1",
        params![component],
    )
}

/// Deletes the removals of a component from `removal1`.
///
/// # Errors
/// `Memory` for want of memory, and `Store` for an error of the store.
pub fn delete_removals<S: Alter>(
    tx: &mut Transaction<'_, S>,
    component: u32,
) -> Result<(), TableFault>
    ensures same_reference { tx.new.conn.ghost_name ≡ tx.old.conn.ghost_name }
    ensures writes { WritesRows (IsFree kept_removal1)
        (less kept_removal1 (has_value 1 (Int (pos component))))
        (state S.Store tx.old.conn.now) (state S.Store tx.new.conn.now) result }
{
    delete_removal1(tx, component)
}

/// Adds last bases to `base2`.
///
/// # Errors
/// `Memory` for want of memory, and `Store` for an error of the store.
pub fn insert_bases<S: Alter>(
    tx: &mut Transaction<'_, S>,
    rows: &Vec<BaseRow>,
) -> Result<(), TableFault>
    ensures same_reference { tx.new.conn.ghost_name ≡ tx.old.conn.ghost_name }
    ensures writes { WritesRows kept_base2.IsIn (on_top kept_base2 rows.now.items)
        (state S.Store tx.old.conn.now) (state S.Store tx.new.conn.now) result }
{
    rows.write(tx)
}

/// Adds a total to `total2`.
///
/// # Errors
/// `Memory` for want of memory, and `Store` for an error of the store.
pub fn insert_total<S: Alter>(tx: &mut Transaction<'_, S>, row: &TotalRow) -> Result<(), TableFault>
    ensures same_reference { tx.new.conn.ghost_name ≡ tx.old.conn.ghost_name }
    ensures writes { WritesRows kept_total2.IsIn (on_top kept_total2 (row.now ∷ []))
        (state S.Store tx.old.conn.now) (state S.Store tx.new.conn.now) result }
{
    row.insert(tx)
}
