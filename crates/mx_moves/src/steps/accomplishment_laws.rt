//! Laws of the step that writes accomplishments, in the move from layout 2 to layout 3. The function does nothing; its
//! contract is the law, and the checker proves it.
ghost use Rattle.std.specs.Prelude.{◌≡◌, ℕ, List, Some, All, IsPermutation};
ghost use Rattle.sqlite.specs.Tree.{Trees};
ghost use Rattle.mx_book.specs.commands.Act.{Entry};
ghost use Rattle.mx_base.specs.declared.point.Point.{Point};
ghost use Rattle.mx_base.specs.declared.rows.rows.DoneRow.{DoneRow};
ghost use Rattle.mx_registers.specs.points.Points.{moving_from, next_mark, next_point_to};
ghost use Rattle.mx_table_rows.specs.totals.Done.{IsDated};
ghost use Rattle.mx_book_tables.specs.stands.Stands.{StandsAt};
ghost use Rattle.mx_moves.specs.steps.Accomplishments.{WritesAccomplishments, accomplishments_of};

/// Where the accomplishments of the next item of a book were written in place of its last bases, in any order, in tables
/// that stand for it, these stand for it at the next point on the way to layout 3; and all days of these accomplishments
/// are in the calendar, so that they can be written.
pub fn written_accomplishments_keep_the_book()
    ensures stand { (mark item : ℕ) (rows : List DoneRow) (at to : Point) (book : List Entry)
        (old new : Trees)
        → at ≡ moving_from 2 2 mark
        → (next_mark at book ≡ Some item) × IsPermutation rows (accomplishments_of book item)
        → StandsAt at old book → WritesAccomplishments item rows to old new
        → (to ≡ next_point_to 3 at book) × StandsAt to new book }
    ensures dated { (mark item : ℕ) (rows : List DoneRow) (at : Point) (book : List Entry)
        (trees : Trees)
        → at ≡ moving_from 2 2 mark
        → IsPermutation rows (accomplishments_of book item)
        → StandsAt at trees book → All IsDated rows }
{}
