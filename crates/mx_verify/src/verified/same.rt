//! Whether rows are the same.
ghost use Rattle.std.specs.Prelude.{◌≡◌};
ghost use Rattle.std.specs.Bool.{Decides};

use mx_base::rows::{BaseRow, SpanRow, TotalRow};

/// A row that is compared with another.
pub trait Compared: Copy {
    /// Whether the rows are the same in each column.
    fn is_same(&self, other: &Self) -> bool
        ensures { Decides result (self.now ≡ other.now) };
}

impl Compared for SpanRow {
    fn is_same(&self, other: &SpanRow) -> bool {
        self == other
    }
}

impl Compared for TotalRow {
    fn is_same(&self, other: &TotalRow) -> bool {
        self == other
    }
}

impl Compared for BaseRow {
    fn is_same(&self, other: &BaseRow) -> bool {
        self == other
    }
}

/// Whether rows are the same, one after the other.
pub fn are_same<R: Compared>(one: &[R], other: &[R]) -> bool
    ensures { Decides result (one.now ≡ other.now) }
{
    let mut rest = one;
    let mut others = other;
    while let Some((row, later)) = rest.split_first() {
        let Some((second, after)) = others.split_first() else {
            return false;
        };
        if !row.is_same(second) {
            return false;
        }
        rest = later;
        others = after;
    }
    others.is_empty()
}
