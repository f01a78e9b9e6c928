//! Tables and indexes that the move from layout 2 to layout 3 makes, and tables that it drops.
ghost use Rattle.std.specs.Prelude.{◌≡◌};
ghost use Rattle.sqlite.specs.Held.{state};
ghost use Rattle.mx_layout.specs.Steps.{schema_after};
ghost use Rattle.mx_moves.specs.Changes.{Alters, WasOpen, emptied, unchanged};

use crate::prelude::*;
use mx_layout::Table;
use mx_layout::statement::execute;

/// Makes the table `defect3`, in a file that has the tables of layout 2.
///
/// # Errors
/// `Memory` for want of memory, and `Store` for an error of the store.
pub fn create_defect3<S: Alter>(tx: &mut Transaction<'_, S>) -> Result<(), TableFault>
    ensures same_reference { tx.new.conn.ghost_name ≡ tx.old.conn.ghost_name }
    ensures open { WasOpen (state S.Store tx.old.conn.now) (state S.Store tx.new.conn.now) result }
    ensures alters { Alters (schema_after 28) (schema_after 29) (emptied Table.Defect3)
        (state S.Store tx.old.conn.now) (state S.Store tx.new.conn.now) result }
{
    execute(
        tx,
        "CREATE TABLE defect3 (seq INTEGER PRIMARY KEY, aircraft INTEGER NOT NULL, moment INTEGER NOT NULL, reference TEXT NOT NULL, category INTEGER NOT NULL, days INTEGER, cycles INTEGER, found_cycles INTEGER NOT NULL) STRICT",
        &[],
    )
}

/// Drops the table `defect`, where deferrals have moved. A caller that can't lose a row looks first whether it has none.
///
/// # Errors
/// `Memory` for want of memory, and `Store` for an error of the store.
pub fn drop_defect<S: Alter>(tx: &mut Transaction<'_, S>) -> Result<(), TableFault>
    ensures same_reference { tx.new.conn.ghost_name ≡ tx.old.conn.ghost_name }
    ensures alters { Alters (schema_after 29) (schema_after 30) unchanged
        (state S.Store tx.old.conn.now) (state S.Store tx.new.conn.now) result }
{
    execute(tx, "DROP TABLE defect", &[])
}

/// Makes the table `done3`, in a file whose deferrals have moved.
///
/// # Errors
/// `Memory` for want of memory, and `Store` for an error of the store.
pub fn create_done3<S: Alter>(tx: &mut Transaction<'_, S>) -> Result<(), TableFault>
    ensures same_reference { tx.new.conn.ghost_name ≡ tx.old.conn.ghost_name }
    ensures alters { Alters (schema_after 30) (schema_after 31) (emptied Table.Done3)
        (state S.Store tx.old.conn.now) (state S.Store tx.new.conn.now) result }
{
    execute(
        tx,
        "CREATE TABLE done3 (item INTEGER NOT NULL, task TEXT NOT NULL, seq INTEGER NOT NULL, line INTEGER NOT NULL, value_m INTEGER NOT NULL, value_c INTEGER NOT NULL, value_d INTEGER NOT NULL, due_m INTEGER, due_c INTEGER, due_d INTEGER, base_m INTEGER NOT NULL, base_c INTEGER NOT NULL, base_d INTEGER NOT NULL, PRIMARY KEY (item, task, seq, line)) STRICT",
        &[],
    )
}

/// Drops the table `base2`, where each item has its accomplishments. A caller that can't lose a row looks first whether it
/// has none.
///
/// # Errors
/// `Memory` for want of memory, and `Store` for an error of the store.
pub fn drop_base2<S: Alter>(tx: &mut Transaction<'_, S>) -> Result<(), TableFault>
    ensures same_reference { tx.new.conn.ghost_name ≡ tx.old.conn.ghost_name }
    ensures alters { Alters (schema_after 31) (schema_after 32) unchanged
        (state S.Store tx.old.conn.now) (state S.Store tx.new.conn.now) result }
{
    execute(tx, "DROP TABLE base2", &[])
}

// Makes the index of `defect3` by aircraft.
fn index_deferrals<S: Alter>(tx: &mut Transaction<'_, S>) -> Result<(), TableFault>
    ensures same_reference { tx.new.conn.ghost_name ≡ tx.old.conn.ghost_name }
    ensures alters { Alters (schema_after 32) (schema_after 33) unchanged
        (state S.Store tx.old.conn.now) (state S.Store tx.new.conn.now) result }
{
    execute(
        tx,
        "CREATE INDEX defect3_by_aircraft ON defect3 (aircraft)",
        &[],
    )
}

// Makes the index of `sector2` by aircraft and take-offs.
fn index_sectors<S: Alter>(tx: &mut Transaction<'_, S>) -> Result<(), TableFault>
    ensures same_reference { tx.new.conn.ghost_name ≡ tx.old.conn.ghost_name }
    ensures alters { Alters (schema_after 33) (schema_after 34) unchanged
        (state S.Store tx.old.conn.now) (state S.Store tx.new.conn.now) result }
{
    execute(
        tx,
        "CREATE INDEX sector2_by_aircraft ON sector2 (aircraft, took_off)",
        &[],
    )
}

// Makes the index of `crs` by items and moments.
fn index_releases<S: Alter>(tx: &mut Transaction<'_, S>) -> Result<(), TableFault>
    ensures same_reference { tx.new.conn.ghost_name ≡ tx.old.conn.ghost_name }
    ensures alters { Alters (schema_after 34) (schema_after 35) unchanged
        (state S.Store tx.old.conn.now) (state S.Store tx.new.conn.now) result }
{
    execute(tx, "CREATE INDEX crs_by_item ON crs (item, moment)", &[])
}

/// Makes the last indexes of layout 3, those of deferrals, sectors and releases, in a file that has no table of last bases
/// any more.
///
/// # Errors
/// `Memory` for want of memory, and `Store` for an error of the store.
pub fn index_layout3<S: Alter>(tx: &mut Transaction<'_, S>) -> Result<(), TableFault>
    ensures same_reference { tx.new.conn.ghost_name ≡ tx.old.conn.ghost_name }
    ensures alters { Alters (schema_after 32) (schema_after 35) unchanged
        (state S.Store tx.old.conn.now) (state S.Store tx.new.conn.now) result }
{
    index_deferrals(tx)?;
    index_sectors(tx)?;
    index_releases(tx)
}
