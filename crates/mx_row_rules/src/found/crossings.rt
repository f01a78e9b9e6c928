//! Rows that were found near a sector that is entered late: which sector it overlaps first, and which fitting, removal or
//! release it straddles first.
ghost use Rattle.std.specs.Prelude.{◌≡◌, ℕ, List, filter, find, map, nat_eq, None, Some};
ghost use Rattle.std.specs.Option.{option_map};
ghost use Rattle.mx_base.specs.declared.rows.rows.Sector2Row.{Sector2Row};
ghost use Rattle.mx_base.specs.declared.rows.rows.SpanRow.{SpanRow};
ghost use Rattle.mx_base.specs.declared.rows.rows.TotalRow.{TotalRow};
ghost use Rattle.mx_book.specs.commands.Act.{Entry};
ghost use Rattle.mx_book.specs.declared.commands.sector.Sector.{Sector};
ghost use Rattle.mx_book.specs.Book.{IsBook};
ghost use Rattle.mx_book.specs.Late.{first_overlapped, first_straddled};
ghost use Rattle.mx_registers.specs.Names.{seq_of_tail};
ghost use Rattle.mx_registers.specs.Registers.{release_rows, sector_rows};
ghost use Rattle.mx_registers.specs.kept.Spans.{span_rows};
ghost use Rattle.mx_registers.specs.kept.Totals.{total_rows};
ghost use Rattle.mx_registers.specs.late.Crossings.{sooner};
ghost use Rattle.mx_row_rules.specs.found.Crossings.{earliest_overlapping, ended_during, is_near, is_overlapped, is_released_near, late_in, late_number, number_during, overlapped_in, straddled_moves, straddled_releases};

use mx_base::Moment;
use mx_base::rows::{ReleaseRow, Sector2Row, SectorRow, SpanRow, TotalRow};
use mx_book::commands::Sector;
use mx_book::commands::shape::MOST_SECTOR_MINUTES;

/// The number of the aircraft where the sector takes off before the clock in the first of these totals, that of its airframe;
/// `None` in place of a number where it does not, and `None` without a total.
pub fn late_in(rows: &[TotalRow], number: u32, sector: &Sector) -> Option<Option<u32>>
    ensures { result ≡ late_in sector.now number rows.now }
{
    rows.first().map(|row| {
        if sector.off < row.clock {
            Some(number)
        } else {
            None
        }
    })
}

/// The earliest take-off of a sector that may be under way at that of this one: none lasts longer than a day.
pub fn earliest_overlapping(sector: &Sector) -> Moment
    ensures { result ≡ earliest_overlapping sector.now }
{
    let minutes = sector.off.number().saturating_sub(MOST_SECTOR_MINUTES - 1);
    Moment::of_number(minutes).unwrap_or(Moment::FIRST)
}

// Whether the sector of the row is under way while this one is.
fn is_overlapped(sector: &Sector, row: &SectorRow) -> bool
    ensures { result ≡ is_overlapped sector.now row.now }
{
    row.took_off < sector.on && sector.off < row.landed
}

// The number of the entry of the first of these sectors that is.
fn first_under_way(rows: &[Sector2Row], sector: &Sector) -> Option<u32>
    ensures { result ≡ option_map (λ (row : Sector2Row). row.sector.seq)
        (find (λ (row : Sector2Row). is_overlapped sector.now row.sector) rows.now) }
{
    rows.iter()
        .find(|row| is_overlapped(sector, &row.sector))
        .map(|row| row.sector.seq)
}

/// The number of the entry of the first of these sectors that is under way while this one is, or `None` without one.
pub fn overlapped_in(rows: &[Sector2Row], sector: &Sector) -> Option<u32>
    ensures { result
        ≡ overlapped_in sector.now (map (λ (row : Sector2Row). row.sector) rows.now) }
{
    first_under_way(rows, sector)
}

/// The lesser of two numbers, or the one that there is.
pub fn sooner(one: Option<u32>, other: Option<u32>) -> Option<u32>
    ensures { result ≡ sooner one other }
{
    match (one, other) {
        (Some(n), Some(m)) => Some(n.min(m)),
        (Some(n), None) => Some(n),
        (None, other) => other,
    }
}

// The number, where the moment is behind the take-off of the sector and before its landing.
fn number_during(sector: &Sector, moment: Moment, seq: u32) -> Option<u32>
    ensures { result ≡ number_during sector.now moment seq }
{
    if sector.off < moment && moment < sector.on {
        Some(seq)
    } else {
        None
    }
}

// The number of the removal that ended a span meanwhile, or `None`.
fn ended_during(sector: &Sector, to: Option<Moment>, remove_seq: Option<u32>) -> Option<u32>
    ensures { result ≡ ended_during sector.now to remove_seq }
{
    number_during(sector, to?, remove_seq?)
}

/// The least of the numbers of the entries that began or ended one of these spans while the sector was under way, or `None`
/// where none did.
pub fn straddled_moves(rows: &[SpanRow], sector: &Sector) -> Option<u32>
    ensures { result ≡ straddled_moves sector.now rows.now }
{
    rows.iter().fold(None, |least, row| {
        let fitted = number_during(sector, row.from, row.fit_seq);
        let removed = ended_during(sector, row.to, row.remove_seq);
        sooner(least, sooner(fitted, removed))
    })
}

/// The least of the numbers of the entries of these releases that were made while the sector was under way, or `None`
/// without one.
pub fn straddled_releases(rows: &[ReleaseRow], sector: &Sector) -> Option<u32>
    ensures { result ≡ straddled_releases sector.now rows.now }
{
    rows.iter().fold(None, |least, row| {
        sooner(least, number_during(sector, row.moment, row.seq))
    })
}

/// Whether a sector takes off before the clock of its airframe is said by the total of its aircraft. Where it does, the
/// sectors and the releases of the aircraft that are near it, and the spans of the aircraft, say which entries it overlaps
/// and straddles first; and where it does not, it crosses none.
pub fn crossings_are_found()
    ensures late { (book : List Entry) (sector : Sector) (n : ℕ) → IsBook book
        → seq_of_tail book sector.tail ≡ Some n
        → late_in sector n (filter (λ (row : TotalRow). nat_eq row.item n) (total_rows book))
        ≡ Some (late_number book sector) }
    ensures unknown { (book : List Entry) (sector : Sector)
        → seq_of_tail book sector.tail ≡ None → late_number book sector ≡ None }
    ensures overlap { (book : List Entry) (sector : Sector) (n : ℕ) → IsBook book
        → late_number book sector ≡ Some n
        → overlapped_in sector (filter (is_near n sector) (sector_rows book))
        ≡ first_overlapped book sector }
    ensures straddle { (book : List Entry) (sector : Sector) (n : ℕ) → IsBook book
        → late_number book sector ≡ Some n
        → sooner (straddled_moves sector (filter (λ (row : SpanRow). nat_eq row.aircraft n)
        (span_rows book)))
        (straddled_releases sector (filter (is_released_near n sector) (release_rows book)))
        ≡ first_straddled book sector }
    ensures no_overlap { (book : List Entry) (sector : Sector) → IsBook book
        → late_number book sector ≡ None → first_overlapped book sector ≡ None }
    ensures no_straddle { (book : List Entry) (sector : Sector) → IsBook book
        → late_number book sector ≡ None → first_straddled book sector ≡ None }
{}
