//! How many rows a table has, and what the last entry says of it.
ghost use Rattle.std.specs.Prelude.{◌≡◌, ◌≢◌, ◌<◌, ◌^◌, ℕ, List, map, length, pos, Some, IsPermutation, MatchOption};
ghost use Rattle.sqlite.specs.declared.types.Value.TheVariants.{Int};
ghost use Rattle.sqlite.specs.Order.{column};
ghost use Rattle.sqlite.specs.Tree.{Trees};
ghost use Rattle.sqlite.specs.Held.{state};
ghost use Rattle.mx_layout.specs.Contents.{rows_in};
ghost use Rattle.mx_layout.specs.Names.{table_named};
ghost use Rattle.mx_layout.specs.kept.Cells.{kept_entry, kept_aircraft, kept_component};
ghost use Rattle.mx_table_rows.specs.chosen.Choices.{AreFirst, backward, is_any};
ghost use Rattle.mx_table_rows.specs.chosen.Counts.{Counts, CountsRows, AreNumbered, last_number};

use mx_base::rows::{AircraftRow, ComponentRow, EntryRow};
use mx_layout::TableFault;
use mx_layout::fault::fault_of;
use mx_tables::stored::Stored;
use sqlite::types::ValueRef;
use sqlite::{Alter, Row, Transaction};

// The number in the first column of a row, if it is one of 32 bits.
fn first_number(row: &Row) -> Option<u32>
    ensures { MatchOption result ((n : ℕ) → n < 2 ^ 32 → column row.now 0 ≢ Int (pos n))
        (λ n. (column row.now 0 ≡ Int (pos n)) × (n < 2 ^ 32)) }
{
    match row.get_ref(0) {
        Ok(ValueRef::Int(number)) => u32::try_from(number).ok(),
        _ => None,
    }
}

/// How many rows a table has, by a text that counts them, whatever these rows are. `Memory` for want of memory,
/// `Store` for an error of the store, and `Damaged` with the table where there are 2^32 rows or more.
pub fn count_rows<S: Alter, R: Stored>(
    tx: &mut Transaction<'_, S>,
    sql: &str,
) -> Result<u32, TableFault>
    ensures same_reference { tx.new.conn.ghost_name ≡ tx.old.conn.ghost_name }
    ensures counts { Counts R.kept sql.now → CountsRows R.kept
        (state S.Store tx.old.conn.now) (state S.Store tx.new.conn.now) result }
{
    match tx.query_row(sql, &[]) {
        Ok(row) => first_number(&row).ok_or(TableFault::Damaged(R::texts().table)),
        Err(error) => Err(fault_of(error)),
    }
}

/// How many aircraft there are. Its errors are those of `count_rows`.
pub fn count_aircraft<S: Alter>(tx: &mut Transaction<'_, S>) -> Result<u32, TableFault>
    ensures same_reference { tx.new.conn.ghost_name ≡ tx.old.conn.ghost_name }
    ensures counts { CountsRows kept_aircraft
        (state S.Store tx.old.conn.now) (state S.Store tx.new.conn.now) result }
{
    count_rows::<S, AircraftRow>(tx, "SELECT count(*) FROM aircraft")
}

/// How many components there are. Its errors are those of `count_rows`.
pub fn count_component<S: Alter>(tx: &mut Transaction<'_, S>) -> Result<u32, TableFault>
    ensures same_reference { tx.new.conn.ghost_name ≡ tx.old.conn.ghost_name }
    ensures counts { CountsRows kept_component
        (state S.Store tx.old.conn.now) (state S.Store tx.new.conn.now) result }
{
    count_rows::<S, ComponentRow>(tx, "SELECT count(*) FROM component")
}

/// Where entries are numbered from 1 on, the number of the one that `last_entry` finds, or 0 where it finds none, is
/// how many there are. The function does nothing; its contract is the law, and the checker proves it.
pub fn last_entry_tells_the_count()
    ensures { (trees : Trees) (entries found : List EntryRow) → AreNumbered entries
        → IsPermutation (map kept_entry.as_cells entries)
        (rows_in (table_named kept_entry.name) trees)
        → AreFirst (Some 1) (backward kept_entry.order) (table_named kept_entry.name)
        is_any trees (map kept_entry.as_cells found)
        → last_number found ≡ length entries }
{}
