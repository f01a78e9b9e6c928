//! Tables of the registers that have a row whose number no entry can have.
//!
//! Such a row makes its own table damaged, the first in the order in which they are read (`late_table`), where the
//! totals or the last bases are to be written. It would give no book either; but then `entry` would be told, and its
//! reader would look in the wrong table.
ghost use Rattle.std.specs.Prelude.{◌≡◌};
ghost use Rattle.std.specs.List.{list_any};
ghost use Rattle.mx_migrate.specs.settle.Numbers.{has_late, is_late, is_late_span, late_item, late_table};
ghost use Rattle.mx_migrate.specs.settle.Numbers.{late_upkeep, late_use, or_behind};

use mx_base::rows::{
    AircraftRow, ComponentRow, DeferralRow, EntryRow, ExtensionRow, OpeningRow, PlaceRow,
    ProgrammeRow, RegisterRows, ReleaseLineRow, ReleaseRow, SectorRow, SpanRow, TaskRow,
};
use mx_layout::Table;
use mx_registers::file::FileRows;
use mx_registers::points::LAST_MARK;

// Whether no entry can have the number.
fn is_late(number: u32) -> bool
    ensures { result ≡ is_late number }
{
    number > LAST_MARK
}

// Whether the fitting of a span, or its removal, has such a number.
fn is_late_span(row: &SpanRow) -> bool
    ensures { result ≡ is_late_span row.now }
{
    match row.remove_seq {
        Some(removal) => is_late(row.fit_seq) || is_late(removal),
        None => is_late(row.fit_seq),
    }
}

// Whether some row of a table has such a number: a function a table.

fn has_late_deferral(rows: &[DeferralRow]) -> bool
    ensures { result ≡ has_late (λ row. row.seq) rows.now }
{
    rows.iter().any(|row| is_late(row.seq))
}

fn has_late_extension(rows: &[ExtensionRow]) -> bool
    ensures { result ≡ has_late (λ row. row.seq) rows.now }
{
    rows.iter().any(|row| is_late(row.seq))
}

fn has_late_sector(rows: &[SectorRow]) -> bool
    ensures { result ≡ has_late (λ row. row.seq) rows.now }
{
    rows.iter().any(|row| is_late(row.seq))
}

fn has_late_programme(rows: &[ProgrammeRow]) -> bool
    ensures { result ≡ has_late (λ row. row.seq) rows.now }
{
    rows.iter().any(|row| is_late(row.seq))
}

fn has_late_task(rows: &[TaskRow]) -> bool
    ensures { result ≡ has_late (λ row. row.seq) rows.now }
{
    rows.iter().any(|row| is_late(row.seq))
}

fn has_late_opening(rows: &[OpeningRow]) -> bool
    ensures { result ≡ has_late (λ row. row.seq) rows.now }
{
    rows.iter().any(|row| is_late(row.seq))
}

fn has_late_release(rows: &[ReleaseRow]) -> bool
    ensures { result ≡ has_late (λ row. row.seq) rows.now }
{
    rows.iter().any(|row| is_late(row.seq))
}

fn has_late_release_line(rows: &[ReleaseLineRow]) -> bool
    ensures { result ≡ has_late (λ row. row.seq) rows.now }
{
    rows.iter().any(|row| is_late(row.seq))
}

fn has_late_aircraft(rows: &[AircraftRow]) -> bool
    ensures { result ≡ has_late (λ row. row.seq) rows.now }
{
    rows.iter().any(|row| is_late(row.seq))
}

fn has_late_place(rows: &[PlaceRow]) -> bool
    ensures { result ≡ has_late (λ row. row.seq) rows.now }
{
    rows.iter().any(|row| is_late(row.seq))
}

fn has_late_component(rows: &[ComponentRow]) -> bool
    ensures { result ≡ has_late (λ row. row.seq) rows.now }
{
    rows.iter().any(|row| is_late(row.seq))
}

fn has_late_entry(rows: &[EntryRow]) -> bool
    ensures { result ≡ has_late (λ row. row.seq) rows.now }
{
    rows.iter().any(|row| is_late(row.seq))
}

fn has_late_span(rows: &[SpanRow]) -> bool
    ensures { result ≡ list_any is_late_span rows.now }
{
    rows.iter().any(|row| is_late_span(row))
}

// This table where it has such a row, else what was found in those behind it.
fn or_behind(is_late: bool, table: Table, behind: Option<Table>) -> Option<Table>
    ensures { result ≡ or_behind is_late table behind }
{
    if is_late { Some(table) } else { behind }
}

// The first table with such a row, of what is flown, fitted and deferred.
fn late_use(rows: &RegisterRows, spans: &[SpanRow]) -> Option<Table>
    ensures { result ≡ late_use rows.now spans.now }
{
    let fitted = or_behind(has_late_span(spans), Table::Span2, None);
    let flown = or_behind(has_late_sector(&rows.sectors), Table::Sector2, fitted);
    let extended = or_behind(
        has_late_extension(&rows.extensions),
        Table::Extension,
        flown,
    );
    or_behind(has_late_deferral(&rows.deferrals), Table::Defect, extended)
}

// The first table with such a row, of programmes and what is done by them; else what was found behind these.
fn late_upkeep(rows: &RegisterRows, behind: Option<Table>) -> Option<Table>
    ensures { result ≡ late_upkeep rows.now behind }
{
    let certified = or_behind(
        has_late_release_line(&rows.release_lines),
        Table::CrsLine,
        behind,
    );
    let released = or_behind(has_late_release(&rows.releases), Table::Crs, certified);
    let opened = or_behind(has_late_opening(&rows.openings), Table::Opening, released);
    let planned = or_behind(has_late_task(&rows.tasks), Table::Task, opened);
    or_behind(
        has_late_programme(&rows.programmes),
        Table::Programme,
        planned,
    )
}

// The first table with such a row, of the items; else what was found behind these.
fn late_item(rows: &RegisterRows, behind: Option<Table>) -> Option<Table>
    ensures { result ≡ late_item rows.now behind }
{
    let listed = or_behind(
        has_late_component(&rows.components),
        Table::Component,
        behind,
    );
    let placed = or_behind(has_late_place(&rows.places), Table::Place, listed);
    or_behind(has_late_aircraft(&rows.aircraft), Table::Aircraft, placed)
}

/// The first table of the registers, in the order in which they are read, with a row whose number no entry can have.
pub(crate) fn late_table(rows: &FileRows) -> Option<Table>
    ensures { result ≡ late_table rows.now }
{
    let registers = &rows.registers.rows;
    let used = late_use(registers, rows.spans.as_slice());
    let found = late_item(registers, late_upkeep(registers, used));
    or_behind(has_late_entry(&rows.registers.entries), Table::Entry, found)
}
