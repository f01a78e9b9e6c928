//! What is left to move at the front of a step.
ghost use Rattle.std.specs.Prelude.{◌≡◌, slice_get};
ghost use Rattle.std.specs.Option.{option_map};
ghost use Rattle.sqlite.specs.Held.{state};
ghost use Rattle.mx_layout.specs.kept.Cells.{kept_component};
ghost use Rattle.mx_migrate.specs.settle.Choices.{next_checked, FindsLeft, FindsNext};

use mx_base::rows::ComponentRow;
use mx_layout::{Table, TableFault};
use mx_moves::rows::{first_sectors, next_components};
use mx_registers::points::LAST_MARK;
use sqlite::{Alter, Transaction};
use std::alloc::Global;

/// Whether a sector is left in the old table.
///
/// # Errors
/// `Damaged` with the table where one of its first rows is no sector; else `Memory` or `Store`.
pub(crate) fn is_sector_left<S: Alter>(
    alloc: Global,
    tx: &mut Transaction<'_, S>,
) -> Result<bool, TableFault>
    ensures same_reference { tx.new.conn.ghost_name ≡ tx.old.conn.ghost_name }
    ensures finds { FindsLeft
        (state S.Store tx.old.conn.now) (state S.Store tx.new.conn.now) result }
{
    let rows = first_sectors(alloc, tx)?;
    Ok(!rows.is_empty())
}

// The next number behind a mark, if there is one and an entry can have it.
fn next_checked(table: Table, mark: u32, number: Option<u32>) -> Result<Option<u32>, TableFault>
    ensures { result ≡ next_checked table mark number }
{
    match number {
        None => Ok(None),
        Some(number) => {
            if mark < number && number <= LAST_MARK {
                Ok(Some(number))
            } else {
                Err(TableFault::Damaged(table))
            }
        }
    }
}

// The number of the first of the components, if there is one.
fn first_seq(rows: &[ComponentRow]) -> Option<u32>
    ensures { result ≡ option_map (λ row. row.seq) (slice_get rows.now 0) }
{
    match rows.first() {
        Some(row) => Some(row.seq),
        None => None,
    }
}

/// The number of the next component behind a mark, if there is one.
///
/// # Errors
/// `Damaged` with the table where that row is no component, or has a number that no entry can have; else `Memory` or
/// `Store`.
pub(crate) fn next_component<S: Alter>(
    alloc: Global,
    tx: &mut Transaction<'_, S>,
    mark: u32,
) -> Result<Option<u32>, TableFault>
    ensures same_reference { tx.new.conn.ghost_name ≡ tx.old.conn.ghost_name }
    ensures finds { FindsNext kept_component mark
        (state S.Store tx.old.conn.now) (state S.Store tx.new.conn.now) result }
{
    let rows = next_components(alloc, tx, mark)?;
    next_checked(Table::Component, mark, first_seq(&rows))
}
