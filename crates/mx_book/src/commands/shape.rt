//! The shape of what a command says: the bounds of its amounts.
ghost use Rattle.std.specs.Prelude.{◌≡◌};
ghost use Rattle.std.specs.List.{list_any};
ghost use Rattle.mx_book.specs.commands.Act.{act_of};
ghost use Rattle.mx_book.specs.commands.Bounds.{are_distinct, within};
ghost use Rattle.mx_book.specs.commands.Shape.{act_shape, category_shape, opening_shape, positions_shape, same_name, use_shape};

use crate::commands::body::Body;
use crate::commands::said::Said;
use mx_base::{Category, Day, Moment, Part, Position, Use, day_of};

/// The most flight minutes that an item may bring with it.
pub const MOST_OPENING_MINUTES: u32 = 100_000_000;

/// The most cycles that an item may bring with it.
pub const MOST_OPENING_CYCLES: u32 = 1_000_000;

/// The most positions of an aircraft.
pub const MOST_POSITIONS: usize = 40;

/// The last page of a technical log.
pub const LAST_PAGE: u32 = 999_999;

/// The last line of a page of a technical log.
pub const LAST_LINE: u32 = 99;

/// The most minutes from a take-off to the landing.
pub const MOST_SECTOR_MINUTES: u32 = 1440;

/// The most cycles of a sector.
pub const MOST_SECTOR_CYCLES: u32 = 50;

/// The most lines of a release.
pub const MOST_LINES: usize = 20;

/// The most days that an item of the minimum equipment list states.
pub const MOST_STATED_DAYS: u32 = 365;

/// The most days of an extension.
pub const MOST_EXTENSION_DAYS: u32 = 120;

impl Body {
    /// Whether every amount is within its bounds.
    pub fn has_shape(&self) -> bool
        ensures { result ≡ act_shape (act_of self.now) }
    {
        match self.said() {
            Said::Aircraft(aircraft, positions) => {
                has_opening_shape(aircraft.birth, &aircraft.opening, aircraft.as_of)
                    && have_positions_shape(positions)
            }
            Said::Component(component) => {
                has_opening_shape(component.birth, &component.opening, component.as_of)
            }
            Said::Programme(programme, tasks) => programme.has_shape(tasks),
            Said::Opening(opening) => has_use_shape(&opening.use_then),
            Said::Sector(sector) => {
                let earliest = sector.off.number() + 1;
                let latest = sector.off.number() + MOST_SECTOR_MINUTES;
                is_within(1, LAST_PAGE, sector.page)
                    && is_within(1, LAST_LINE, sector.line)
                    && is_within(earliest, latest, sector.on.number())
                    && is_within(1, MOST_SECTOR_CYCLES, sector.cycles)
            }
            Said::Fitting(_) | Said::Removal(_) => true,
            Said::Release(_, lines) => is_line_count(lines.len()),
            Said::Deferral(deferral) => has_category_shape(&deferral.category),
            Said::Extension(extension) => is_within(1, MOST_EXTENSION_DAYS, extension.days),
        }
    }
}

// Whether a release may have so many lines.
fn is_line_count(count: usize) -> bool
    ensures { result ≡ within 1 MOST_LINES count }
{
    1 <= count && count <= MOST_LINES
}

fn has_category_shape(category: &Category) -> bool
    ensures { result ≡ category_shape category.now }
{
    match category {
        Category::A(days) => is_within(1, MOST_STATED_DAYS, *days),
        Category::B | Category::C | Category::D => true,
    }
}

fn has_use_shape(opening: &Use) -> bool
    ensures { result ≡ use_shape opening.now }
{
    opening.minutes <= MOST_OPENING_MINUTES && opening.cycles <= MOST_OPENING_CYCLES
}

fn has_opening_shape(birth: Day, opening: &Use, as_of: Moment) -> bool
    ensures { result ≡ opening_shape birth opening.now as_of }
{
    has_use_shape(opening) && birth <= day_of(as_of)
}

fn have_positions_shape(positions: &[(Position, Part)]) -> bool
    ensures { result ≡ positions_shape positions.now }
{
    positions.len() <= MOST_POSITIONS && have_distinct_names(positions)
}

fn is_name_among(position: &(Position, Part), others: &[(Position, Part)]) -> bool
    ensures { result ≡ list_any (same_name position.now) others.now }
{
    others.iter().any(|other| position.0 == other.0)
}

fn have_distinct_names(positions: &[(Position, Part)]) -> bool
    ensures { result ≡ are_distinct same_name positions.now }
{
    let mut rest = positions;
    while let Some((position, later)) = rest.split_first() {
        if is_name_among(position, later) {
            return false;
        }
        rest = later;
    }
    true
}

/// Whether a number is from the least to the most.
pub(crate) fn is_within(least: u32, most: u32, number: u32) -> bool
    ensures { result ≡ within least most number }
{
    least <= number && number <= most
}
