//! Deferrals with the cycles at which they were found, by moments: what the airframe had reached when the defect was found, with the
//! sectors that had landed by then, whenever they were entered.
ghost use Rattle.std.specs.Prelude.{◌≡◌, IfOk, map};
ghost use Rattle.mx_registers.specs.Registers.{deferral_rows, sector_rows};
ghost use Rattle.mx_registers.specs.kept.Spans.{span_rows};
ghost use Rattle.mx_registers.specs.late.Found.{found_rows};
ghost use Rattle.mx_indexed_book.specs.moments.Flown.{ArePermuted};
ghost use Rattle.mx_indexed_book.specs.moments.Found.{cycles_reached, found_row};

use crate::indexed_book::IndexedBook;
use crate::moments::flown::Moments;
use crate::moments::lives::life_at;
use mx_base::Moment;
use mx_base::rows::{Deferral3Row, DeferralRow};
use mx_book::entry_list::NoMemory;
use mx_registers::plain::item_of_entry;
use std::alloc::Global;

// The cycles that the item with a number had reached at a moment.
fn cycles_reached(book: &IndexedBook, moments: &Moments, number: u32, moment: Moment) -> u32
    requires { ArePermuted (sector_rows book.now) (span_rows book.now) moments.now }
    ensures { result ≡ cycles_reached book.now number moment }
{
    match item_of_entry(book.plain(), number) {
        Some(item) => life_at(book, moments, number, &item, moment).cycles,
        None => 0,
    }
}

// The row of a deferral with the cycles at which the defect was found.
fn found_row(book: &IndexedBook, moments: &Moments, deferral: &DeferralRow) -> Deferral3Row
    requires { ArePermuted (sector_rows book.now) (span_rows book.now) moments.now }
    ensures { result ≡ found_row book.now deferral.now }
{
    Deferral3Row {
        deferral: *deferral,
        found_cycles: cycles_reached(book, moments, deferral.aircraft, deferral.moment),
    }
}

// The rows of some deferrals.
fn rows_of(
    alloc: Global,
    book: &IndexedBook,
    moments: &Moments,
    deferrals: &[DeferralRow],
) -> Result<Vec<Deferral3Row>, NoMemory>
    requires { ArePermuted (sector_rows book.now) (span_rows book.now) moments.now }
    ensures { IfOk result (λ rows. rows.items ≡ map (found_row book.now) deferrals.now) }
{
    let mut rows = Vec::new(alloc);
    let mut rest = deferrals;
    while let Some((deferral, later)) = rest.split_first() {
        match rows.push(found_row(book, moments, deferral)) {
            Ok(()) => {}
            Err(_) => return Err(NoMemory),
        }
        rest = later;
    }
    Ok(rows)
}

/// The deferrals of a book with the cycles at which they were found, of these and the sectors and spans of its registers, in their
/// order. `NoMemory` where memory runs out.
pub fn found_rows(
    alloc: Global,
    book: &IndexedBook,
    moments: &Moments,
    deferrals: &[DeferralRow],
) -> Result<Vec<Deferral3Row>, NoMemory>
    requires moments { ArePermuted (sector_rows book.now) (span_rows book.now) moments.now }
    requires deferrals { deferrals.now ≡ deferral_rows book.now }
    ensures { IfOk result (λ rows. rows.items ≡ found_rows book.now) }
{
    let _ = book.plain().len();
    rows_of(alloc, book, moments, deferrals)
}
