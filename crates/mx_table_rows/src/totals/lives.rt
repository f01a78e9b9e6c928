//! The life and the clock of an item, and a life that a use is added to.
ghost use Rattle.std.specs.Prelude.{◌+◌, ◌≤◌};
ghost use Rattle.std.specs.Option.{SomeIff};
ghost use Rattle.mx_book.specs.due.Due.{IsLife};
ghost use Rattle.mx_table_rows.specs.totals.Totals.{life_with};
ghost use Rattle.mx_table_rows.specs.declared.totals.lives.TheConstants.{MOST_CYCLES};

use mx_base::{Moment, Use};

/// The most flight minutes of a life.
const MOST_MINUTES: u32 = 1_540_000_000;

/// The most cycles of a life.
pub const MOST_CYCLES: u32 = 51_000_000;

/// The life of an item now, and its clock: the moment that its records have reached.
#[derive(Clone, Copy, Debug, PartialEq, Eq)]
pub struct Total {
    pub life: Use,
    pub clock: Moment,
}

/// The cycles with more added, or `None` where that is past the most that a life can have.
pub(crate) fn cycles_with(cycles: u32, added: u32) -> Option<u32>
    ensures { SomeIff result (cycles + added ≤ MOST_CYCLES) (cycles + added) }
{
    let sum = cycles.checked_add(added)?;
    if sum <= MOST_CYCLES { Some(sum) } else { None }
}

/// The life with a use added, or `None` where that is past the most that a life can be.
pub fn life_with(life: Use, added: Use) -> Option<Use>
    ensures { SomeIff result (IsLife (life_with life added)) (life_with life added) }
{
    let minutes = life.minutes.checked_add(added.minutes)?;
    let cycles = life.cycles.checked_add(added.cycles)?;
    if minutes <= MOST_MINUTES && cycles <= MOST_CYCLES {
        Some(Use { minutes, cycles })
    } else {
        None
    }
}
