//! The rows of a sector.
ghost use Rattle.std.specs.Prelude.{◌≡◌, ℕ, List, All, IfOk, true};
ghost use Rattle.mx_book.specs.commands.Act.{Entry, Flown};
ghost use Rattle.mx_book.specs.commands.Shape.{sector_shape};
ghost use Rattle.mx_base.specs.rows.Rows.{FitsEntry};
ghost use Rattle.mx_base.specs.declared.rows.rows.SpanRow.{SpanRow};
ghost use Rattle.mx_registers.specs.kept.Changes.{entry_of};
ghost use Rattle.mx_registers.specs.kept.Items.{number_of_tail};
ghost use Rattle.mx_row_rules.specs.changes.Made.{AreMadeOf, nothing_found};
ghost use Rattle.mx_row_rules.specs.changes.Rows.{AreCommandRows, IsEntryOf, totals_before};
ghost use Rattle.mx_row_rules.specs.changes.Kept.{HasLife};

use crate::changes::plain::entry_alone;
use crate::changes::rows::CommandRows;
use crate::changes::totals::flown_totals;
use mx_base::rows::{EntryRow, Sector2Row, TotalRow};
use mx_book::commands::Sector;
use mx_registers::sector_row;
use std::alloc::{AllocError, Global};

/// The rows of a sector, by the number of its aircraft, and by the totals of the aircraft and of the components that were
/// fitted to it throughout, as they are.
pub fn sector_rows(
    alloc: Global,
    entry: EntryRow,
    sector: Sector,
    aircraft: u32,
    totals: &[TotalRow],
) -> Result<CommandRows, AllocError>
    requires fits { FitsEntry entry }
    requires shaped { sector_shape sector ≡ true }
    requires lives { All HasLife totals.now }
    ensures of_book { IfOk result (λ rows. (book : List Entry) (doc : List ℕ)
        → IsEntryOf book (entry_of doc (Flown sector)) entry
        → aircraft ≡ number_of_tail book sector.tail
        → totals.now ≡ totals_before book (Flown sector)
        → AreCommandRows book (entry_of doc (Flown sector)) rows) }
    ensures made { (spans : List SpanRow) → IfOk result (λ rows. AreMadeOf (Flown sector) entry
        (record nothing_found { number = aircraft; spans = spans; totals = totals.now }) rows) }
{
    let behind = flown_totals(alloc, totals, aircraft, &sector)?;
    let row = Sector2Row {
        sector: sector_row(entry.seq, aircraft, sector),
    };
    let mut rows = entry_alone(alloc, entry);
    rows.changed.totals = behind;
    rows.added.sectors.push(row)?;
    Ok(rows)
}
