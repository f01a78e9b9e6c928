//! Totals as they are behind a command.
ghost use Rattle.std.specs.Prelude.{◌≡◌, map, max, All, IfOk, true};
ghost use Rattle.mx_book.specs.commands.Shape.{sector_shape};
ghost use Rattle.mx_base.specs.rows.Rows.{FitsTotal};
ghost use Rattle.mx_row_rules.specs.changes.Kept.{HasLife, total_clocked, total_credited, total_flown};

use mx_base::rows::TotalRow;
use mx_base::{Moment, Use};
use mx_book::commands::Sector;
use std::alloc::{AllocError, Global};

// The later of two moments.
fn later(one: Moment, other: Moment) -> Moment
    ensures { result ≡ max one other }
{
    if one.number() < other.number() {
        other
    } else {
        one
    }
}

// The total of an item to which a moment is given.
fn clocked(row: TotalRow, moment: Moment) -> TotalRow
    ensures row { result ≡ total_clocked moment row }
    ensures fits { FitsTotal result }
{
    let clock = later(row.clock, moment);
    // The number of a moment fits its column.
    let _ = clock.number();
    TotalRow {
        item: row.item,
        life: row.life,
        clock,
    }
}

// The total of an item that is credited with a sector.
fn credited(row: TotalRow, sector: &Sector) -> TotalRow
    requires shaped { sector_shape sector.now ≡ true }
    requires life { HasLife row }
    ensures row { result ≡ total_credited sector.now row }
    ensures fits { FitsTotal result }
{
    let minutes = sector.on.number() - sector.off.number();
    // The number of a moment fits its column.
    let _ = row.clock.number();
    TotalRow {
        item: row.item,
        life: Use {
            minutes: row.life.minutes + minutes,
            cycles: row.life.cycles + sector.cycles,
        },
        clock: row.clock,
    }
}

// The same, where the sector is of the aircraft with a number.
fn flown(row: TotalRow, aircraft: u32, sector: &Sector) -> TotalRow
    requires shaped { sector_shape sector.now ≡ true }
    requires life { HasLife row }
    ensures row { result ≡ total_flown aircraft sector.now row }
    ensures fits { FitsTotal result }
{
    let credited = credited(row, sector);
    if credited.item == aircraft {
        clocked(credited, sector.on)
    } else {
        credited
    }
}

// The totals of items to which a moment is given.
pub(crate) fn clocked_totals(
    alloc: Global,
    totals: &[TotalRow],
    moment: Moment,
) -> Result<Vec<TotalRow>, AllocError>
    ensures rows { IfOk result (λ rows. rows.items ≡ map (total_clocked moment) totals.now) }
    ensures fits { IfOk result (λ rows. All FitsTotal rows.items) }
{
    totals
        .iter()
        .map(|row| clocked(*row, moment))
        .collect(alloc)
}

// The totals of the items that are credited with a sector of the aircraft with a number.
pub(crate) fn flown_totals(
    alloc: Global,
    totals: &[TotalRow],
    aircraft: u32,
    sector: &Sector,
) -> Result<Vec<TotalRow>, AllocError>
    requires shaped { sector_shape sector.now ≡ true }
    requires lives { All HasLife totals.now }
    ensures rows { IfOk result (λ rows.
        rows.items ≡ map (total_flown aircraft sector.now) totals.now) }
    ensures fits { IfOk result (λ rows. All FitsTotal rows.items) }
{
    totals
        .iter()
        .map(|row| flown(*row, aircraft, sector))
        .collect(alloc)
}
