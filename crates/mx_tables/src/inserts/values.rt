//! What is written in a column: for a moment, for a kind of entry, for a category, for a number or a moment that may be
//! missing, and for a text that may be.
ghost use Rattle.std.specs.Prelude.{◌≡◌, ◌<◌, ◌≤◌, ◌^◌, IfSome};
ghost use Rattle.sqlite.specs.declared.types.Value.TheVariants.{Text};
ghost use Rattle.sqlite.specs.Values.{or_null};
ghost use Rattle.mx_base.specs.Calendar.{last_moment};
ghost use Rattle.mx_base.specs.Identifier.{IsIdentifier, is_graphic};
ghost use Rattle.mx_base.specs.Texts.{moment_text};
ghost use Rattle.mx_base.specs.rows.Rows.{category_number, days_stated, kind_number, FitsCategory};
ghost use Rattle.mx_layout.specs.kept.Values.{text_or_null};

use mx_base::identifiers::{Graphic, Identifier};
use mx_base::moments::MomentText;
use mx_base::rows::EntryKind;
use mx_base::{Category, Moment};

/// The text of a moment, `YYYY-MM-DDTHH:MM`. Its number is asked too, since that tells its bound.
pub(crate) fn text_of(moment: Moment) -> MomentText
    ensures value { result ≡ moment_text moment }
    ensures bound { moment ≤ last_moment }
{
    let _number = moment.number();
    moment.text()
}

/// The number that stands for a kind in its column.
pub(crate) fn number_of_kind(kind: EntryKind) -> u32
    ensures { result ≡ kind_number kind }
{
    match kind {
        EntryKind::AddAircraft => 1,
        EntryKind::AddComponent => 2,
        EntryKind::LoadProgramme => 3,
        EntryKind::Opening => 4,
        EntryKind::Sector => 5,
        EntryKind::Fit => 6,
        EntryKind::Remove => 7,
        EntryKind::Release => 8,
        EntryKind::Defer => 9,
        EntryKind::Extend => 10,
    }
}

/// The number of a category.
pub(crate) fn number_of_category(category: Category) -> u32
    ensures { result ≡ category_number category }
{
    match category {
        Category::A(_) => 1,
        Category::B => 2,
        Category::C => 3,
        Category::D => 4,
    }
}

/// The days that a category states, if it states any. They are looked at, since that tells their bound.
pub(crate) fn days_of_category(category: Category) -> Option<u32>
    ensures value { result ≡ days_stated category }
    ensures bound { FitsCategory category }
{
    match category {
        Category::A(days) => Some(days),
        Category::B | Category::C | Category::D => None,
    }
}

/// The number, if there is one. It is looked at, since that tells its bound.
pub(crate) fn number_if_any(number: Option<u32>) -> Option<u32>
    ensures value { result ≡ number }
    ensures bound { IfSome number (λ n. n < 2 ^ 32) }
{
    match number {
        Some(number) => Some(number),
        None => None,
    }
}

/// The number of the moment, if there is one.
pub(crate) fn moment_if_any(moment: Option<Moment>) -> Option<u32>
    ensures value { result ≡ moment }
    ensures bound { IfSome moment (λ m. m ≤ last_moment) }
{
    match moment {
        Some(moment) => Some(moment.number()),
        None => None,
    }
}

/// The text of an identifier of printable characters, if there is one.
pub(crate) fn text_if_any<Label: Copy, const N: usize>(
    name: &Option<Identifier<Graphic<Label>, N>>,
) -> Option<&str>
    ensures value { or_null (λ s. Text s.now) result ≡ text_or_null name.now }
    ensures valid { IfSome name.now (IsIdentifier is_graphic N) }
{
    match name {
        Some(name) => Some(name.as_str()),
        None => None,
    }
}
