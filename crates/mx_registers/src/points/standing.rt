//! Laws of what stands at a point. Each function does nothing; its contract is the law, and the checker proves it.
ghost use Rattle.std.specs.Prelude.{◌≡◌, true, List};
ghost use Rattle.mx_book.specs.commands.Act.{Entry};
ghost use Rattle.mx_book.specs.commands.Shape.{has_shape};
ghost use Rattle.mx_book.specs.Book.{IsBook};
ghost use Rattle.mx_book.specs.Judge.{judge};
ghost use Rattle.mx_book.specs.declared.verdict.Verdict.TheVariants.{New};
ghost use Rattle.mx_registers.specs.points.Standing.{AreAlwaysWhole, AreEmptyWhereAbsent, AreLeft, AreWholeWhereSettled, StandOnce};
ghost use Rattle.mx_base.specs.declared.point.Point.{Point};

/// At every point each sector and each deferral stands in the old table or in the new one and not in both, each fitting
/// and removal in its table or in the span of its component, and each item has its last bases or its accomplishments.
pub fn each_row_stands_once()
    ensures { (at : Point) (book : List Entry) → IsBook book → StandOnce at book }
{}

/// A table of some layouts has no row at a point where it is not there, and all that the book gives it at a settled point
/// where it is; a table that all layouts have has all of its rows at every point.
pub fn tables_are_empty_or_whole()
    ensures absent { (at : Point) (book : List Entry) → AreEmptyWhereAbsent at book }
    ensures settled { (at : Point) (book : List Entry) → AreWholeWhereSettled at book }
    ensures always { (at : Point) (book : List Entry) → AreAlwaysWhole at book }
{}

/// A new command leaves the registers to which it adds no row, and the spans, the totals and the deferrals with the cycles
/// at which they were found where it touches and opens none: they have the same rows at every point.
pub fn commands_leave_other_tables()
    ensures { (at : Point) (book : List Entry) (command : Entry) → IsBook book
        → judge book command ≡ New → has_shape command ≡ true → AreLeft at book command }
{}
