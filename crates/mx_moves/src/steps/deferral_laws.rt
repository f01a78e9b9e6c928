//! Laws of the step that moves deferrals, in the move from layout 2 to layout 3. The function does nothing; its contract
//! is the law, and the checker proves it.
ghost use Rattle.std.specs.Prelude.{◌≡◌, ◌≢◌, ℕ, List, None};
ghost use Rattle.sqlite.specs.Tree.{Trees};
ghost use Rattle.mx_book.specs.commands.Act.{Entry};
ghost use Rattle.mx_base.specs.declared.point.Point.{Point};
ghost use Rattle.mx_base.specs.declared.rows.rows.Deferral3Row.{Deferral3Row};
ghost use Rattle.mx_registers.specs.points.Moves.{found_next};
ghost use Rattle.mx_registers.specs.points.Points.{moving_from, next_mark, next_point_to};
ghost use Rattle.mx_layout.specs.TableName.{TableName};
ghost use Rattle.mx_book_tables.specs.stands.Stands.{StandsAt};
ghost use Rattle.mx_moves.specs.steps.Deferrals.{IsDeferralOff, MovesDeferrals};

/// Where the next deferrals of a book have moved, with the cycles at which they were found, in tables that stand for it,
/// these stand for it at the next point on the way to layout 3; and where a book has deferrals left, no row of its old
/// table is off, and the first of them are those that come next.
pub fn moved_deferrals_keep_the_book()
    ensures stand { (mark : ℕ) (rows : List Deferral3Row) (at to : Point) (book : List Entry)
        (old new : Trees)
        → at ≡ moving_from 2 1 mark
        → (next_mark at book ≢ None) × (rows ≡ found_next book mark)
        → StandsAt at old book → MovesDeferrals mark rows to old new
        → (to ≡ next_point_to 3 at book) × StandsAt to new book }
    ensures whole { (mark : ℕ) (rows : List Deferral3Row) (at : Point) (book : List Entry)
        (name : TableName) (trees : Trees)
        → at ≡ moving_from 2 1 mark
        → (next_mark at book ≢ None) × (rows ≡ found_next book mark)
        → StandsAt at trees book → IsDeferralOff mark rows name trees → ⊥ }
{}
