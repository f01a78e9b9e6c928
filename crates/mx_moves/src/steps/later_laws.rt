//! Laws of the steps of the move from layout 2 to layout 3 that make and drop tables. Each function does nothing; its
//! contract is the law, and the checker proves it.
ghost use Rattle.std.specs.Prelude.{◌≡◌, ⊤, ℕ, true, List, None};
ghost use Rattle.sqlite.specs.Tree.{Trees};
ghost use Rattle.mx_book.specs.commands.Act.{Entry};
ghost use Rattle.mx_base.specs.Settled.{settled};
ghost use Rattle.mx_base.specs.declared.point.Point.{Point};
ghost use Rattle.mx_registers.specs.points.Points.{is_before, moving_from, next_mark, next_point_to};
ghost use Rattle.mx_layout.specs.TableName.{TableName};
ghost use Rattle.mx_book_tables.specs.stands.Stands.{StandsAt};
ghost use Rattle.mx_moves.specs.steps.LaterTables.{ChangesToAccomplishments, FinishesLater, IsBaseLeft, IsDeferralLeft, MakesDeferrals};

/// Where the new table of deferrals is made in tables settled at layout 2 that stand for a book, they stand for it at the
/// next point on the way to layout 3.
pub fn a_new_table_of_deferrals_keeps_the_book()
    ensures { (at to : Point) (book : List Entry) (old new : Trees) → at ≡ settled 2 → ⊤
        → StandsAt at old book → MakesDeferrals to old new
        → (to ≡ next_point_to 3 at book) × StandsAt to new book }
{}

/// So do tables that were changed to accomplishments; and where a book has no deferral left, no row is left in the old
/// table of deferrals.
pub fn a_change_to_accomplishments_keeps_the_book()
    ensures stand { (mark : ℕ) (at to : Point) (book : List Entry) (old new : Trees)
        → (at ≡ moving_from 2 1 mark) × (is_before 3 at ≡ true) → next_mark at book ≡ None
        → StandsAt at old book → ChangesToAccomplishments to old new
        → (to ≡ next_point_to 3 at book) × StandsAt to new book }
    ensures whole { (mark : ℕ) (at : Point) (book : List Entry) (name : TableName) (trees : Trees)
        → (at ≡ moving_from 2 1 mark) × (is_before 3 at ≡ true) → next_mark at book ≡ None
        → StandsAt at trees book → IsDeferralLeft name trees → ⊥ }
{}

/// So do tables of a book with no item left, whose move has ended: they stand for it at layout 3; and no row is left in
/// the table of last bases.
pub fn the_end_of_the_second_move_keeps_the_book()
    ensures stand { (mark : ℕ) (at to : Point) (book : List Entry) (old new : Trees)
        → (at ≡ moving_from 2 2 mark) × (is_before 3 at ≡ true) → next_mark at book ≡ None
        → StandsAt at old book → FinishesLater to old new
        → (to ≡ next_point_to 3 at book) × StandsAt to new book }
    ensures whole { (mark : ℕ) (at : Point) (book : List Entry) (name : TableName) (trees : Trees)
        → (at ≡ moving_from 2 2 mark) × (is_before 3 at ≡ true) → next_mark at book ≡ None
        → StandsAt at trees book → IsBaseLeft name trees → ⊥ }
{}
