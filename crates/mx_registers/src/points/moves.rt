//! Laws of moves: which rows stand in each table behind a commit. Each function does nothing; its contract is the law,
//! and the checker proves it.
ghost use Rattle.std.specs.Prelude.{◌≡◌, ◌<◌, ◌++◌, ◌∷◌, false, Some, None, ℕ, List};
ghost use Rattle.mx_book.specs.commands.Act.{Entry};
ghost use Rattle.mx_book.specs.Book.{IsBook};
ghost use Rattle.mx_registers.specs.Registers.{fitting_rows, removal_rows};
ghost use Rattle.mx_base.specs.declared.rows.rows.DeferralRow.{DeferralRow};
ghost use Rattle.mx_base.specs.declared.rows.rows.SectorRow.{SectorRow};
ghost use Rattle.mx_registers.specs.kept.Bases.{base_rows};
ghost use Rattle.mx_registers.specs.kept.Spans.{span_rows};
ghost use Rattle.mx_registers.specs.late.Done.{done_rows};
ghost use Rattle.mx_registers.specs.points.Moves.{AllStay, Brings, BringsFound, BringsFrom, IsNext, MovesDeferrals, MovesSectors, OthersStay, Takes, TakesFrom, deferrals_mark, deferrals_next, sectors_mark, sectors_next, totals_mark, totals_next};
ghost use Rattle.mx_registers.specs.points.Points.{Step, has_moved, is_within_step, moving, moving_from, next_mark, next_point, next_point_to};
ghost use Rattle.mx_base.specs.Settled.{settled};
ghost use Rattle.mx_registers.specs.points.Tables.{bases_2, done_3, fittings_1, removals_1, rows_at, spans_2, totals_2};
ghost use Rattle.mx_base.specs.declared.point.Point.{Point};

/// A commit of the move of sectors takes the next of the old table in the order of their numbers, at most 64: at the
/// point of the last of them, the new table has those that it had and these, and the old table the others.
pub fn a_commit_moves_sectors()
    ensures rows { (book : List Entry) (mark : ℕ) → IsBook book → MovesSectors book mark }
    ensures point { (book : List Entry) (mark : ℕ) (row : SectorRow) (rows : List SectorRow)
        → IsBook book
        → sectors_next book mark ≡ row ∷ rows
        → next_point (moving 1 mark) book ≡ moving 1 (sectors_mark book mark) }
{}

/// A commit that moves what a book has of one component, the next by its number: the new table has the spans that it had
/// and those of the component, and the old tables what they had but the fittings and removals of the component.
pub fn a_commit_moves_a_component()
    ensures next_spans { (book : List Entry) (mark component : ℕ) → IsBook book
        → next_mark (moving 2 mark) book ≡ Some component
        → IsNext (λ row. row.component) mark component (span_rows book) }
    ensures next_fittings { (book : List Entry) (mark component : ℕ) → IsBook book
        → next_mark (moving 2 mark) book ≡ Some component
        → IsNext (λ row. row.component) mark component (fitting_rows book) }
    ensures next_removals { (book : List Entry) (mark component : ℕ) → IsBook book
        → next_mark (moving 2 mark) book ≡ Some component
        → IsNext (λ row. row.component) mark component (removal_rows book) }
    ensures spans { (book : List Entry) (mark component : ℕ)
        → IsNext (λ row. row.component) mark component (span_rows book)
        → Brings spans_2 2 mark component book }
    ensures fittings { (book : List Entry) (mark component : ℕ)
        → IsNext (λ row. row.component) mark component (fitting_rows book)
        → Takes fittings_1 2 mark component book }
    ensures removals { (book : List Entry) (mark component : ℕ)
        → IsNext (λ row. row.component) mark component (removal_rows book)
        → Takes removals_1 2 mark component book }
{}

/// A commit that writes a total writes that of the next item behind those that the table has.
pub fn a_commit_writes_a_total()
    ensures { (book : List Entry) (mark : ℕ)
        → rows_at totals_2 (moving 3 (totals_mark book mark)) book
        ≡ rows_at totals_2 (moving 3 mark) book ++ totals_next book mark }
{}

/// A commit that writes the bases of one item, the next by its number: the table has those that it had, and its.
pub fn a_commit_writes_bases()
    ensures next { (book : List Entry) (mark item : ℕ) → next_mark (moving 4 mark) book ≡ Some item
        → IsNext (λ row. row.item) mark item (base_rows book) }
    ensures rows { (book : List Entry) (mark item : ℕ)
        → IsNext (λ row. row.item) mark item (base_rows book)
        → Brings bases_2 4 mark item book }
{}

/// A commit of the move of deferrals takes the next in the order of their numbers, at most 64, and brings these with the
/// cycles at which they were found.
pub fn a_commit_moves_deferrals()
    ensures rows { (book : List Entry) (mark : ℕ) → IsBook book → MovesDeferrals book mark }
    ensures found { (book : List Entry) (mark : ℕ) → IsBook book → BringsFound book mark }
    ensures point { (book : List Entry) (mark : ℕ) (row : DeferralRow) (rows : List DeferralRow)
        → IsBook book
        → deferrals_next book mark ≡ row ∷ rows
        → next_point_to 3 (moving_from 2 1 mark) book ≡ moving_from 2 1 (deferrals_mark book mark) }
{}

/// A commit that writes the accomplishments of one item, the next by its number, takes its last bases: the new table has
/// those that it had and the item's, and the old what it had but the item's.
pub fn a_commit_writes_accomplishments()
    ensures next_done { (book : List Entry) (mark item : ℕ)
        → next_mark (moving_from 2 2 mark) book ≡ Some item
        → IsNext (λ row. row.item) mark item (done_rows book) }
    ensures next_bases { (book : List Entry) (mark item : ℕ)
        → next_mark (moving_from 2 2 mark) book ≡ Some item
        → IsNext (λ row. row.item) mark item (base_rows book) }
    ensures done { (book : List Entry) (mark item : ℕ)
        → IsNext (λ row. row.item) mark item (done_rows book)
        → BringsFrom done_3 2 2 mark item book }
    ensures bases { (book : List Entry) (mark item : ℕ)
        → IsNext (λ row. row.item) mark item (base_rows book)
        → TakesFrom bases_2 2 2 mark item book }
{}

/// A commit of a step moves what that step moves alone: another step has moved what it had, and the tables that the step
/// does not move rows of stay.
pub fn a_commit_leaves_other_tables()
    ensures steps { (at : Point) (step : Step) (mark number : ℕ) → is_within_step at step ≡ false
        → has_moved (record at { mark = mark }) step number ≡ has_moved at step number }
    ensures tables { (book : List Entry) (at : Point) (mark : ℕ)
        → OthersStay at (record at { mark = mark }) book }
{}

/// Where a step begins or has nothing left to move, its commit moves no row: every table has the same rows at the next
/// point, on the way to layout 3 too.
pub fn a_commit_ends_a_step()
    ensures begins { (book : List Entry) → IsBook book
        → AllStay (settled 1) (next_point (settled 1) book) book }
    ensures ends { (book : List Entry) (at : Point) → IsBook book → next_mark at book ≡ None
        → AllStay at (next_point at book) book }
    ensures to_layout_3 { (book : List Entry) (at : Point) → IsBook book
        → (0 < at.step → next_mark at book ≡ None)
        → AllStay at (next_point_to 3 at book) book }
{}
