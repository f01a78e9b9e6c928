//! The life of an item of a book, by the sectors and spans of its registers.
ghost use Rattle.std.specs.Prelude.{◌≡◌, Some};
ghost use Rattle.mx_book.specs.due.Due.{IsLife};
ghost use Rattle.mx_book.specs.Life.{life_at, life_now, use_or_none};
ghost use Rattle.mx_registers.specs.Names.{item_at};
ghost use Rattle.mx_registers.specs.Registers.{sector_rows};
ghost use Rattle.mx_registers.specs.kept.Spans.{span_rows};
ghost use Rattle.mx_indexed_book.specs.moments.Flown.{ArePermuted};

use crate::indexed_book::IndexedBook;
use crate::moments::flown::Moments;
use mx_base::{Moment, Use};
use mx_book::commands::Item;
use mx_book::found::{life_or_none, opening_use};

/// What the item with a number had reached at a moment.
pub fn life_at(
    book: &IndexedBook,
    moments: &Moments,
    number: u32,
    item: &Item,
    moment: Moment,
) -> Use
    requires moments { ArePermuted (sector_rows book.now) (span_rows book.now) moments.now }
    requires item { item_at book.now number ≡ Some item.now }
    ensures life { result ≡ use_or_none (life_at book.now item.now moment) }
    ensures bounded { IsLife result }
{
    let _ = book.plain().len();
    match opening_use(&book.found_of(item)) {
        Some(opening) => moments.life_at(number, &opening, moment),
        None => life_or_none(None),
    }
}

/// The life of the item with a number, with all of its sectors.
pub fn life_now(book: &IndexedBook, moments: &Moments, number: u32, item: &Item) -> Use
    requires moments { ArePermuted (sector_rows book.now) (span_rows book.now) moments.now }
    requires item { item_at book.now number ≡ Some item.now }
    ensures life { result ≡ use_or_none (life_now book.now item.now) }
    ensures bounded { IsLife result }
{
    let _ = book.plain().len();
    match opening_use(&book.found_of(item)) {
        Some(opening) => moments.life_now(number, &opening),
        None => life_or_none(None),
    }
}
