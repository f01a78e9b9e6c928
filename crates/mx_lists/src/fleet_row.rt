//! A row of a list of all aircraft: that of one aircraft, with its registration.
ghost use Rattle.std.specs.Prelude.{◌≡◌, ◌++◌, map, OnOk};
ghost use Rattle.mx_lists.specs.FleetRow.{fleet_before, with_tail};
ghost use Rattle.mx_lists.specs.Order.{text_before};
ghost use Rattle.mx_lists.specs.Ranks.{fleet_rank, tails_rank};

use crate::order::Placed;
use mx_base::Tail;
use std::alloc::AllocError;

/// A row of a list of all aircraft.
#[derive(Clone, Copy, Debug, PartialEq, Eq)]
pub struct FleetRow<T> {
    /// The registration of the aircraft.
    pub tail: Tail,
    /// The row, as the list of that aircraft has it.
    pub row: T,
}

impl<T: Placed> Placed for FleetRow<T> {
    ghost before = { fleet_before T.before };

    ghost ranks = { fleet_rank T.Placed.ranks };

    fn before(&self, other: &FleetRow<T>) -> bool {
        self.row.before(&other.row)
    }
}

impl Placed for Tail {
    ghost before = { text_before };

    ghost ranks = { tails_rank };

    fn before(&self, other: &Tail) -> bool {
        self < other
    }
}

/// Appends the rows of an aircraft, each with its registration.
pub(crate) fn append_with_tail<T: Placed>(
    rows: &mut Vec<FleetRow<T>>,
    tail: &Tail,
    of_aircraft: &[T],
) -> Result<(), AllocError>
    ensures { OnOk result
        (rows.new.items ≡ rows.old.items ++ map (with_tail tail.now) of_aircraft.now) }
{
    for row in of_aircraft {
        rows.push(FleetRow {
            tail: *tail,
            row: *row,
        })?;
    }
    Ok(())
}
