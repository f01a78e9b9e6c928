//! Tables and indexes that the moves make, and tables that they drop.
ghost use Rattle.std.specs.Prelude.{◌≡◌};
ghost use Rattle.sqlite.specs.Held.{state};
ghost use Rattle.mx_layout.specs.Steps.{schema_after};
ghost use Rattle.mx_moves.specs.Changes.{Alters, WasOpen, emptied, unchanged};

use crate::prelude::*;
use mx_layout::Table;
use mx_layout::statement::execute;

/// Makes the table `sector2`, in a file that has the tables of layout 1.
///
/// # Errors
/// `Memory` for want of memory, and `Store` for an error of the store.
pub fn create_sector2<S: Alter>(tx: &mut Transaction<'_, S>) -> Result<(), TableFault>
    ensures same_reference { tx.new.conn.ghost_name ≡ tx.old.conn.ghost_name }
    ensures open { WasOpen (state S.Store tx.old.conn.now) (state S.Store tx.new.conn.now) result }
    ensures alters { Alters (schema_after 15) (schema_after 16) (emptied Table.Sector2)
        (state S.Store tx.old.conn.now) (state S.Store tx.new.conn.now) result }
{
    execute(
        tx,
        "CREATE TABLE sector2 (seq INTEGER PRIMARY KEY, aircraft INTEGER NOT NULL, page INTEGER NOT NULL, line INTEGER NOT NULL, took_off INTEGER NOT NULL, landed INTEGER NOT NULL, cycles INTEGER NOT NULL) STRICT",
        &[],
    )
}

/// Drops the table `sector1`, where sectors have moved. A caller that can't lose a row looks first whether it has none.
///
/// # Errors
/// `Memory` for want of memory, and `Store` for an error of the store.
pub fn drop_sector1<S: Alter>(tx: &mut Transaction<'_, S>) -> Result<(), TableFault>
    ensures same_reference { tx.new.conn.ghost_name ≡ tx.old.conn.ghost_name }
    ensures alters { Alters (schema_after 16) (schema_after 17) unchanged
        (state S.Store tx.old.conn.now) (state S.Store tx.new.conn.now) result }
{
    execute(tx, "DROP TABLE sector1", &[])
}

/// Makes the table `span2`, in a file whose sectors have moved.
///
/// # Errors
/// `Memory` for want of memory, and `Store` for an error of the store.
pub fn create_span2<S: Alter>(tx: &mut Transaction<'_, S>) -> Result<(), TableFault>
    ensures same_reference { tx.new.conn.ghost_name ≡ tx.old.conn.ghost_name }
    ensures alters { Alters (schema_after 17) (schema_after 18) (emptied Table.Span2)
        (state S.Store tx.old.conn.now) (state S.Store tx.new.conn.now) result }
{
    execute(
        tx,
        "CREATE TABLE span2 (fit_seq INTEGER PRIMARY KEY, component INTEGER NOT NULL, aircraft INTEGER NOT NULL, position TEXT NOT NULL, from_min INTEGER NOT NULL, remove_seq INTEGER, to_min INTEGER) STRICT",
        &[],
    )
}

// Makes the index of `span2` by components.
fn index_by_component<S: Alter>(tx: &mut Transaction<'_, S>) -> Result<(), TableFault>
    ensures same_reference { tx.new.conn.ghost_name ≡ tx.old.conn.ghost_name }
    ensures alters { Alters (schema_after 18) (schema_after 19) unchanged
        (state S.Store tx.old.conn.now) (state S.Store tx.new.conn.now) result }
{
    execute(
        tx,
        "CREATE INDEX span2_by_component ON span2 (component)",
        &[],
    )
}

// Makes the index of `span2` by aircraft.
fn index_by_aircraft<S: Alter>(tx: &mut Transaction<'_, S>) -> Result<(), TableFault>
    ensures same_reference { tx.new.conn.ghost_name ≡ tx.old.conn.ghost_name }
    ensures alters { Alters (schema_after 19) (schema_after 20) unchanged
        (state S.Store tx.old.conn.now) (state S.Store tx.new.conn.now) result }
{
    execute(
        tx,
        "CREATE INDEX span2_by_aircraft ON span2 (aircraft)",
        &[],
    )
}

// Makes the index of `span2` by removals.
fn index_by_remove_seq<S: Alter>(tx: &mut Transaction<'_, S>) -> Result<(), TableFault>
    ensures same_reference { tx.new.conn.ghost_name ≡ tx.old.conn.ghost_name }
    ensures alters { Alters (schema_after 20) (schema_after 21) unchanged
        (state S.Store tx.old.conn.now) (state S.Store tx.new.conn.now) result }
{
    execute(
        tx,
        "CREATE INDEX span2_by_remove_seq ON span2 (remove_seq)",
        &[],
    )
}

/// Makes the indexes of `span2`, behind the table.
///
/// # Errors
/// `Memory` for want of memory, and `Store` for an error of the store.
pub fn index_span2<S: Alter>(tx: &mut Transaction<'_, S>) -> Result<(), TableFault>
    ensures same_reference { tx.new.conn.ghost_name ≡ tx.old.conn.ghost_name }
    ensures alters { Alters (schema_after 18) (schema_after 21) unchanged
        (state S.Store tx.old.conn.now) (state S.Store tx.new.conn.now) result }
{
    index_by_component(tx)?;
    index_by_aircraft(tx)?;
    index_by_remove_seq(tx)
}

// Drops the table `fit1`.
fn drop_fit1<S: Alter>(tx: &mut Transaction<'_, S>) -> Result<(), TableFault>
    ensures same_reference { tx.new.conn.ghost_name ≡ tx.old.conn.ghost_name }
    ensures alters { Alters (schema_after 21) (schema_after 22) unchanged
        (state S.Store tx.old.conn.now) (state S.Store tx.new.conn.now) result }
{
    execute(tx, "DROP TABLE fit1", &[])
}

// Drops the table `removal1`.
fn drop_removal1<S: Alter>(tx: &mut Transaction<'_, S>) -> Result<(), TableFault>
    ensures same_reference { tx.new.conn.ghost_name ≡ tx.old.conn.ghost_name }
    ensures alters { Alters (schema_after 22) (schema_after 23) unchanged
        (state S.Store tx.old.conn.now) (state S.Store tx.new.conn.now) result }
{
    execute(tx, "DROP TABLE removal1", &[])
}

/// Drops the tables `fit1` and `removal1`, where components have moved. A caller that can't lose a row looks first whether
/// they have none.
///
/// # Errors
/// `Memory` for want of memory, and `Store` for an error of the store.
pub fn drop_fittings<S: Alter>(tx: &mut Transaction<'_, S>) -> Result<(), TableFault>
    ensures same_reference { tx.new.conn.ghost_name ≡ tx.old.conn.ghost_name }
    ensures alters { Alters (schema_after 21) (schema_after 23) unchanged
        (state S.Store tx.old.conn.now) (state S.Store tx.new.conn.now) result }
{
    drop_fit1(tx)?;
    drop_removal1(tx)
}

/// Makes the table `total2`, in a file whose components have moved.
///
/// # Errors
/// `Memory` for want of memory, and `Store` for an error of the store.
pub fn create_total2<S: Alter>(tx: &mut Transaction<'_, S>) -> Result<(), TableFault>
    ensures same_reference { tx.new.conn.ghost_name ≡ tx.old.conn.ghost_name }
    ensures alters { Alters (schema_after 23) (schema_after 24) (emptied Table.Total2)
        (state S.Store tx.old.conn.now) (state S.Store tx.new.conn.now) result }
{
    execute(
        tx,
        "CREATE TABLE total2 (item INTEGER PRIMARY KEY, minutes INTEGER NOT NULL, cycles INTEGER NOT NULL, clock INTEGER NOT NULL) STRICT",
        &[],
    )
}

/// Makes the table `base2`, in a file that has the total of each item.
///
/// # Errors
/// `Memory` for want of memory, and `Store` for an error of the store.
pub fn create_base2<S: Alter>(tx: &mut Transaction<'_, S>) -> Result<(), TableFault>
    ensures same_reference { tx.new.conn.ghost_name ≡ tx.old.conn.ghost_name }
    ensures open { WasOpen (state S.Store tx.old.conn.now) (state S.Store tx.new.conn.now) result }
    ensures alters { Alters (schema_after 24) (schema_after 25) (emptied Table.Base2)
        (state S.Store tx.old.conn.now) (state S.Store tx.new.conn.now) result }
{
    execute(
        tx,
        "CREATE TABLE base2 (item INTEGER NOT NULL, task TEXT NOT NULL, minutes INTEGER NOT NULL, cycles INTEGER NOT NULL, day INTEGER NOT NULL, PRIMARY KEY (item, task)) STRICT",
        &[],
    )
}

// Makes the index of `crs_line` by defects.
fn index_lines<S: Alter>(tx: &mut Transaction<'_, S>) -> Result<(), TableFault>
    ensures same_reference { tx.new.conn.ghost_name ≡ tx.old.conn.ghost_name }
    ensures open { WasOpen (state S.Store tx.old.conn.now) (state S.Store tx.new.conn.now) result }
    ensures alters { Alters (schema_after 25) (schema_after 26) unchanged
        (state S.Store tx.old.conn.now) (state S.Store tx.new.conn.now) result }
{
    execute(
        tx,
        "CREATE INDEX crs_line_by_defect ON crs_line (defect)",
        &[],
    )
}

// Makes the index of `extension` by defects.
fn index_extensions<S: Alter>(tx: &mut Transaction<'_, S>) -> Result<(), TableFault>
    ensures same_reference { tx.new.conn.ghost_name ≡ tx.old.conn.ghost_name }
    ensures alters { Alters (schema_after 26) (schema_after 27) unchanged
        (state S.Store tx.old.conn.now) (state S.Store tx.new.conn.now) result }
{
    execute(
        tx,
        "CREATE INDEX extension_by_defect ON extension (defect)",
        &[],
    )
}

// Makes the index of `defect` by aircraft.
fn index_defects<S: Alter>(tx: &mut Transaction<'_, S>) -> Result<(), TableFault>
    ensures same_reference { tx.new.conn.ghost_name ≡ tx.old.conn.ghost_name }
    ensures alters { Alters (schema_after 27) (schema_after 28) unchanged
        (state S.Store tx.old.conn.now) (state S.Store tx.new.conn.now) result }
{
    execute(
        tx,
        "CREATE INDEX defect_by_aircraft ON defect (aircraft)",
        &[],
    )
}

/// Makes the indexes of tables that layout 1 has too, in a file that has the last bases of each item.
///
/// # Errors
/// `Memory` for want of memory, and `Store` for an error of the store.
pub fn index_registers<S: Alter>(tx: &mut Transaction<'_, S>) -> Result<(), TableFault>
    ensures same_reference { tx.new.conn.ghost_name ≡ tx.old.conn.ghost_name }
    ensures open { WasOpen (state S.Store tx.old.conn.now) (state S.Store tx.new.conn.now) result }
    ensures alters { Alters (schema_after 25) (schema_after 28) unchanged
        (state S.Store tx.old.conn.now) (state S.Store tx.new.conn.now) result }
{
    index_lines(tx)?;
    index_extensions(tx)?;
    index_defects(tx)
}
