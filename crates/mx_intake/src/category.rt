//! The category of a deferred defect: `A` with the days that are stated, or `B`, `C` or `D` with days of its own.
//!
//! Category A needs `days`, and the others exclude it: beside them it is a bad shape (65) and, as every key that is
//! there, one that has to be read. Where the category can't be read, or is missing, it is not known which of the two
//! holds: then `days` is neither missing nor too much.
ghost use Rattle.std.specs.Prelude.{◌≡◌, map};
ghost use Rattle.serde_json.specs.View.{view};
ghost use Rattle.mx_intake.specs.Category.{names_category, lacks_days, states_other_days, category_of, stated_category};

use crate::keys::is_one_of;
use crate::object::{has, number_if_there, text_at};
use mx_base::Category;
use serde_json::Value;

/// Whether the category of an object is one of these.
fn names_category(object: &Value, letters: &[&str]) -> bool
    ensures { result ≡ names_category (map (λ k. k.now) letters.now) (view object.now) }
{
    match text_at(object, "category") {
        Some(letter) => is_one_of(letters, letter),
        None => false,
    }
}

/// Whether an object states category A without its days.
pub(crate) fn lacks_days(object: &Value) -> bool
    ensures { result ≡ lacks_days (view object.now) }
{
    names_category(object, &["A"]) && !has(object, "days")
}

/// Whether an object states days beside a category that has days of its own.
pub(crate) fn states_other_days(object: &Value) -> bool
    ensures { result ≡ states_other_days (view object.now) }
{
    names_category(object, &["B", "C", "D"]) && has(object, "days")
}

/// The category that a letter names, `A` with the days that are stated.
fn category_of(letter: &str, days: Option<u32>) -> Option<Category>
    ensures { result ≡ category_of letter.now days }
{
    if letter == "A" {
        Some(Category::A(days?))
    } else if letter == "B" {
        Some(Category::B)
    } else if letter == "C" {
        Some(Category::C)
    } else if letter == "D" {
        Some(Category::D)
    } else {
        None
    }
}

/// The category that an object states, where the days beside it can be read.
pub(crate) fn category_at(object: &Value) -> Option<Category>
    ensures { result ≡ stated_category (view object.now) }
{
    let letter = text_at(object, "category")?;
    let days = number_if_there(object, "days")?;
    category_of(letter, days)
}
