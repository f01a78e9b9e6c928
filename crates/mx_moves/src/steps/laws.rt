//! Laws of the steps of a move. Each function does nothing; its contract is the law, and the checker proves it.
ghost use Rattle.std.specs.Prelude.{◌≡◌, ◌≢◌, ⊤, ℕ, true, List, [], ◌∷◌, Some, None, IsPermutation};
ghost use Rattle.sqlite.specs.Tree.{Trees};
ghost use Rattle.mx_book.specs.commands.Act.{Entry};
ghost use Rattle.mx_base.specs.Settled.{settled};
ghost use Rattle.mx_base.specs.declared.point.Point.{Point};
ghost use Rattle.mx_registers.specs.points.Moves.{totals_next};
ghost use Rattle.mx_registers.specs.points.Points.{is_on_way, moving, next_mark, next_point};
ghost use Rattle.mx_layout.specs.TableName.{TableName};
ghost use Rattle.mx_book_tables.specs.stands.Stands.{StandsAt};
ghost use Rattle.mx_moves.specs.steps.Components.{IsComponentOff, MovesComponent};
ghost use Rattle.mx_moves.specs.steps.Sectors.{IsOldOff, MovesSectors};
ghost use Rattle.mx_moves.specs.steps.Tables.{ChangesToSpans, ChangesToTotals, Finishes, IsLeftOver, IsUnmoved, MakesBases, MakesSectors};
ghost use Rattle.mx_moves.specs.steps.Written.{WritesBases, WritesTotal, bases_of};
ghost use Rattle.mx_base.specs.declared.rows.rows.BaseRow.{BaseRow};
ghost use Rattle.mx_base.specs.declared.rows.rows.TotalRow.{TotalRow};

/// Where the new table of sectors is made in tables settled at layout 1 that stand for a book, they stand for it at the
/// next point.
pub fn a_new_table_keeps_the_book()
    ensures { (at to : Point) (book : List Entry) (old new : Trees) → at ≡ settled 1 → ⊤
        → StandsAt at old book → MakesSectors to old new
        → (to ≡ next_point at book) × StandsAt to new book }
{}

/// So do tables of which the next sectors have moved; and where a book has sectors left, no row of its old table is off.
pub fn moved_sectors_keep_the_book()
    ensures stand { (mark : ℕ) (at to : Point) (book : List Entry) (old new : Trees)
        → at ≡ moving 1 mark → next_mark at book ≢ None
        → StandsAt at old book → MovesSectors mark to old new
        → (to ≡ next_point at book) × StandsAt to new book }
    ensures whole { (mark : ℕ) (at : Point) (book : List Entry) (name : TableName) (trees : Trees)
        → at ≡ moving 1 mark → next_mark at book ≢ None
        → StandsAt at trees book → IsOldOff mark name trees → ⊥ }
{}

/// So do tables that were changed to spans; and where a book has no sector left, none is left over in its old table.
pub fn a_change_to_spans_keeps_the_book()
    ensures stand { (mark : ℕ) (at to : Point) (book : List Entry) (old new : Trees)
        → (at ≡ moving 1 mark) × (is_on_way at ≡ true) → next_mark at book ≡ None
        → StandsAt at old book → ChangesToSpans to old new
        → (to ≡ next_point at book) × StandsAt to new book }
    ensures whole { (mark : ℕ) (at : Point) (book : List Entry) (name : TableName) (trees : Trees)
        → (at ≡ moving 1 mark) × (is_on_way at ≡ true) → next_mark at book ≡ None
        → StandsAt at trees book → IsLeftOver name trees → ⊥ }
{}

/// So do tables of which the next component has moved; and its fittings and removals are whole, and take turns.
pub fn a_moved_component_keeps_the_book()
    ensures stand { (mark component : ℕ) (at to : Point) (book : List Entry) (old new : Trees)
        → at ≡ moving 2 mark → next_mark at book ≡ Some component
        → StandsAt at old book → MovesComponent component to old new
        → (to ≡ next_point at book) × StandsAt to new book }
    ensures whole { (mark component : ℕ) (at : Point) (book : List Entry) (name : TableName)
        (trees : Trees) → at ≡ moving 2 mark → next_mark at book ≡ Some component
        → StandsAt at trees book → IsComponentOff component name trees → ⊥ }
{}

/// So do tables that were changed to totals; and where a book has no component left, nothing is left of one in the old
/// tables.
pub fn a_change_to_totals_keeps_the_book()
    ensures stand { (mark : ℕ) (at to : Point) (book : List Entry) (old new : Trees)
        → (at ≡ moving 2 mark) × (is_on_way at ≡ true) → next_mark at book ≡ None
        → StandsAt at old book → ChangesToTotals to old new
        → (to ≡ next_point at book) × StandsAt to new book }
    ensures whole { (mark : ℕ) (at : Point) (book : List Entry) (name : TableName) (trees : Trees)
        → (at ≡ moving 2 mark) × (is_on_way at ≡ true) → next_mark at book ≡ None
        → StandsAt at trees book → IsUnmoved name trees → ⊥ }
{}

/// So do tables to which the next total of the book was written.
pub fn a_written_total_keeps_the_book()
    ensures { (mark : ℕ) (row : TotalRow) (at to : Point) (book : List Entry) (old new : Trees)
        → at ≡ moving 3 mark → totals_next book mark ≡ row ∷ []
        → StandsAt at old book → WritesTotal row to old new
        → (to ≡ next_point at book) × StandsAt to new book }
{}

/// The next total of a book behind a mark is that of the next item; and where there is none, no item is left.
pub fn next_totals_are_of_next_items()
    ensures next { (mark : ℕ) (row : TotalRow) (book : List Entry)
        → totals_next book mark ≡ row ∷ []
        → next_mark (moving 3 mark) book ≡ Some row.item }
    ensures none { (mark : ℕ) (book : List Entry) → totals_next book mark ≡ []
        → next_mark (moving 3 mark) book ≡ None }
{}

/// Tables of a book with no total left, where the table of last bases was made, stand for it at the next point.
pub fn a_table_of_bases_keeps_the_book()
    ensures { (mark : ℕ) (at to : Point) (book : List Entry) (old new : Trees)
        → (at ≡ moving 3 mark) × (is_on_way at ≡ true) → next_mark at book ≡ None
        → StandsAt at old book → MakesBases to old new
        → (to ≡ next_point at book) × StandsAt to new book }
{}

/// So do tables to which the last bases of the next item of the book were written, in any order.
pub fn written_bases_keep_the_book()
    ensures { (mark item : ℕ) (rows : List BaseRow) (at to : Point) (book : List Entry)
        (old new : Trees) → at ≡ moving 4 mark
        → (next_mark at book ≡ Some item) × IsPermutation rows (bases_of book item)
        → StandsAt at old book → WritesBases item rows to old new
        → (to ≡ next_point at book) × StandsAt to new book }
{}

/// So do tables of a book with no bases left, whose move has ended: they stand for it at the newest layout.
pub fn the_end_of_a_move_keeps_the_book()
    ensures { (mark : ℕ) (at to : Point) (book : List Entry) (old new : Trees)
        → (at ≡ moving 4 mark) × (is_on_way at ≡ true) → next_mark at book ≡ None
        → StandsAt at old book → Finishes to old new
        → (to ≡ next_point at book) × StandsAt to new book }
{}
