//! The deferrals of a file by the tables that it has of them: `defect`, from which the move to layout 3 takes them,
//! `defect3`, to which it brings them, or both while it does.
ghost use Rattle.std.specs.Prelude.{◌≡◌, List, IfOk};
ghost use Rattle.mx_base.specs.declared.point.Point.{Point};
ghost use Rattle.mx_base.specs.declared.rows.rows.DeferralRow.{DeferralRow};
ghost use Rattle.mx_book_tables.specs.reading.Deferrals.{deferrals_in, has_moved_deferrals, is_moving_deferrals};

use mx_base::Point;
use mx_base::rows::{Deferral3Row, DeferralRow};
use mx_tables::inserts::Tables;
use std::alloc::{AllocError, Global};

/// The rows of the tables that a file has of deferrals.
pub trait DeferralTables: Tables {
    // The deferrals that these rows are of.
    ghost deferrals_of: { Self → List DeferralRow };

    /// The deferrals that these rows are of, those that have moved first.
    fn into_deferrals(self, alloc: Global) -> Result<Vec<DeferralRow>, AllocError>
        ensures { IfOk result (λ deferrals. deferrals.items ≡ deferrals_of self) };
}

// All stand in `defect`.
impl DeferralTables for Vec<DeferralRow> {
    ghost deferrals_of = { λ rows. rows.items };

    fn into_deferrals(self, _: Global) -> Result<Vec<DeferralRow>, AllocError> {
        Ok(self)
    }
}

// All stand in `defect3`.
impl DeferralTables for Vec<Deferral3Row> {
    ghost use Rattle.mx_book_tables.specs.reading.Deferrals.{deferrals_in};

    ghost deferrals_of = { λ rows. deferrals_in rows.items };

    fn into_deferrals(self, alloc: Global) -> Result<Vec<DeferralRow>, AllocError> {
        self.iter().map(|row| row.deferral).collect(alloc)
    }
}

// Some stand in `defect3`, and the others still in `defect`.
impl DeferralTables for (Vec<Deferral3Row>, Vec<DeferralRow>) {
    ghost use Rattle.std.specs.Prelude.{◌++◌};
    ghost use Rattle.mx_book_tables.specs.reading.Deferrals.{deferrals_in};

    ghost deferrals_of = { λ rows. deferrals_in rows.0.items ++ rows.1.items };

    fn into_deferrals(self, alloc: Global) -> Result<Vec<DeferralRow>, AllocError> {
        let (moved, left) = self;
        let mut deferrals = moved.into_deferrals(alloc)?;
        deferrals.extend_from_slice(&left)?;
        Ok(deferrals)
    }
}

/// Whether a file at this point has the one table of deferrals and the other.
pub(crate) fn has_moved_deferrals(at: Point) -> bool
    ensures { result ≡ has_moved_deferrals at }
{
    2 < at.layout || (2 == at.layout && 1 < at.step)
}

/// Whether a file at this point is in the step that moves them.
pub(crate) fn is_moving_deferrals(at: Point) -> bool
    ensures { result ≡ is_moving_deferrals at }
{
    2 == at.layout && 1 == at.step
}
