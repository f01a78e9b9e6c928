//! The rows of an aircraft and of a component that come into the records.
ghost use Rattle.std.specs.Prelude.{◌≡◌, ◌≤◌, ℕ, List, IfOk, length};
ghost use Rattle.mx_book.specs.commands.Act.{Added, Entry, Listed};
ghost use Rattle.mx_book.specs.declared.commands.shape.TheConstants.{MOST_POSITIONS};
ghost use Rattle.mx_base.specs.rows.Rows.{FitsEntry, FitsTotal};
ghost use Rattle.mx_registers.specs.kept.Changes.{entry_of};
ghost use Rattle.mx_row_rules.specs.changes.Kept.{total_begun};
ghost use Rattle.mx_row_rules.specs.changes.Made.{AreMadeOf, nothing_found};
ghost use Rattle.mx_row_rules.specs.changes.Rows.{AreCommandRows, IsEntryOf};

use crate::changes::plain::entry_alone;
use crate::changes::rows::CommandRows;
use mx_base::rows::{EntryRow, TotalRow};
use mx_base::{Moment, Part, Position, Use};
use mx_book::commands::{Aircraft, Component};
use mx_registers::lines::place_rows;
use mx_registers::{aircraft_row, component_row};
use std::alloc::{AllocError, Global};

// The first total of an item: the use that it brings with it, and the moment up to which that counts.
fn first_total(item: u32, life: Use, clock: Moment) -> TotalRow
    ensures row { result ≡ total_begun item life clock }
    ensures fits { FitsTotal result }
{
    // The number of a moment fits its column.
    let _ = clock.number();
    TotalRow {
        item,
        life: Use {
            minutes: life.minutes,
            cycles: life.cycles,
        },
        clock,
    }
}

/// The rows of an aircraft that an entry adds, with its positions.
pub fn aircraft_rows(
    alloc: Global,
    entry: EntryRow,
    aircraft: Aircraft,
    positions: &[(Position, Part)],
) -> Result<CommandRows, AllocError>
    requires fits { FitsEntry entry }
    requires few { length positions.now ≤ MOST_POSITIONS }
    ensures of_book { IfOk result (λ rows. (book : List Entry) (doc : List ℕ)
        → IsEntryOf book (entry_of doc (Added aircraft positions.now)) entry
        → AreCommandRows book (entry_of doc (Added aircraft positions.now)) rows) }
    ensures made { IfOk result (AreMadeOf (Added aircraft positions.now) entry nothing_found) }
{
    let total = first_total(entry.seq, aircraft.opening, aircraft.as_of);
    let row = aircraft_row(entry.seq, aircraft);
    let places = place_rows(alloc, entry.seq, positions)?;
    let mut rows = entry_alone(alloc, entry);
    rows.added.places = places;
    rows.added.aircraft.push(row)?;
    rows.added.totals.push(total)?;
    Ok(rows)
}

/// The rows of a component that an entry adds.
pub fn component_rows(
    alloc: Global,
    entry: EntryRow,
    component: Component,
) -> Result<CommandRows, AllocError>
    requires fits { FitsEntry entry }
    ensures of_book { IfOk result (λ rows. (book : List Entry) (doc : List ℕ)
        → IsEntryOf book (entry_of doc (Listed component)) entry
        → AreCommandRows book (entry_of doc (Listed component)) rows) }
    ensures made { IfOk result (AreMadeOf (Listed component) entry nothing_found) }
{
    let total = first_total(entry.seq, component.opening, component.as_of);
    let row = component_row(entry.seq, component);
    let mut rows = entry_alone(alloc, entry);
    rows.added.components.push(row)?;
    rows.added.totals.push(total)?;
    Ok(rows)
}
