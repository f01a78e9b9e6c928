//! A deferred defect, and the last day on which it may be open.
ghost use Rattle.std.specs.Prelude.{◌≡◌, ◌+◌, pos};
ghost use Rattle.mx_book.specs.Defect.{day_found, interval, is_stated, letter_of};

use crate::commands::Deferral;
use mx_base::{Category, Doc, day_of};

/// A deferred defect.
#[derive(Clone, Copy, Debug, PartialEq, Eq)]
pub struct Defect {
    /// The document by which it was deferred.
    pub doc: Doc,
    /// Its deferral.
    pub deferral: Deferral,
}

/// The interval of a category: the days after the day of discovery within which a defect is rectified.
pub fn interval_of(category: &Category) -> u32
    ensures { result ≡ interval category.now }
{
    match category {
        Category::A(days) => *days,
        Category::B => 3,
        Category::C => 10,
        Category::D => 120,
    }
}

/// Whether the item of the minimum equipment list states the days of a category.
pub fn has_stated_days(category: &Category) -> bool
    ensures { result ≡ is_stated category.now }
{
    match category {
        Category::A(_) => true,
        Category::B | Category::C | Category::D => false,
    }
}

/// The letter of a category.
pub fn category_letter(category: &Category) -> char
    ensures { result ≡ letter_of category.now }
{
    match category {
        Category::A(_) => 'A',
        Category::B => 'B',
        Category::C => 'C',
        Category::D => 'D',
    }
}

/// The last day on which a defect may be open, where its interval was extended by so many days: by its number, which may
/// be past the last of the calendar.
pub fn last_day_with(defect: &Defect, days: u32) -> i64
    ensures { result ≡ pos (day_found defect.now + interval defect.now.deferral.category + days) }
{
    let found = day_of(defect.deferral.moment);
    i64::from(found.number()) + i64::from(interval_of(&defect.deferral.category)) + i64::from(days)
}
