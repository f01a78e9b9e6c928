//! Laws of the totals as rows: what a new command makes of them, and which it leaves. Each function does nothing; its
//! contract is the law, and the checker proves it.
ghost use Rattle.std.specs.Prelude.{◌≡◌, ◌≤◌, ℕ, length, List, [], ◌∷◌, ◌++◌, filter, is_some, map, nat_eq, Some, true, false};
ghost use Rattle.std.specs.List.{list_any, AllByRecursion};
ghost use Rattle.mx_book.specs.commands.Act.{Act, Entry, Flown, Released};
ghost use Rattle.mx_book.specs.commands.Shape.{act_shape};
ghost use Rattle.mx_book.specs.declared.commands.item.Item.{Item};
ghost use Rattle.mx_book.specs.declared.commands.item.Item.TheVariants.{Airframe};
ghost use Rattle.mx_book.specs.declared.commands.release.Line.{Line};
ghost use Rattle.mx_book.specs.declared.commands.release.Place.TheVariants.{Aircraft};
ghost use Rattle.mx_book.specs.declared.commands.release.Release.{Release};
ghost use Rattle.mx_book.specs.declared.commands.sector.Sector.{Sector};
ghost use Rattle.mx_book.specs.Book.{IsBook};
ghost use Rattle.mx_book.specs.Judge.{is_at, judge};
ghost use Rattle.mx_book.specs.Life.{clock, is_credited};
ghost use Rattle.mx_book.specs.Register.{aircraft};
ghost use Rattle.mx_book.specs.declared.verdict.Verdict.TheVariants.{New};
ghost use Rattle.mx_registers.specs.Names.{has_item, item_at};
ghost use Rattle.mx_registers.specs.kept.Changes.{entry_of};
ghost use Rattle.mx_registers.specs.kept.Items.{number_of_place, number_of_tail};
ghost use Rattle.mx_registers.specs.kept.Spans.{is_span_touched, span_ended, span_rows};
ghost use Rattle.mx_registers.specs.kept.Totals.{credited_row, is_among, numbers_fitted, numbers_flown, numbers_there, numbers_touched, raised_row, set_row, total_by_number, total_changed, total_in, total_row, total_rows, totals_opened};
ghost use Rattle.mx_base.specs.declared.rows.rows.SpanRow.{SpanRow};
ghost use Rattle.mx_base.specs.declared.rows.rows.TotalRow.{TotalRow};

/// The row of the item with a number has its life now and its clock.
pub fn rows_have_the_totals()
    ensures { (book : List Entry) (number : ℕ) (item : Item) → IsBook book
        → item_at book number ≡ Some item
        → total_in (total_rows book) number ≡ Some (total_row book (number, item)) }
{}

/// The totals of a book with a new entry: each grows by what the entry gives its item, and an item that it adds has one.
pub fn totals_change()
    ensures { (book : List Entry) (entry : Entry) → IsBook book
        → judge book entry ≡ New → act_shape entry.act ≡ true
        → total_rows (book ++ entry ∷ [])
        ≡ map (total_changed book entry.act) (total_rows book) ++ totals_opened book entry.act }
{}

/// The totals of a book with a new command, whichever it is, by the numbers in their rows: those of the items to which it
/// gives a sector or a moment change, and what they change to follows from the command and from the rows of the spans.
pub fn totals_change_by_number()
    ensures { (book : List Entry) (entry : Entry) → IsBook book
        → judge book entry ≡ New → act_shape entry.act ≡ true
        → total_rows (book ++ entry ∷ [])
        ≡ map (total_by_number book entry.act) (total_rows book) ++ totals_opened book entry.act }
{}

/// The number of an item is that of an aircraft or of a component fitted to it, by the rows of the spans, exactly where
/// the item is there.
pub fn numbers_are_of_what_is_there()
    ensures { (book : List Entry) (tail : List ℕ) (number : ℕ) (item : Item) → IsBook book
        → is_some (aircraft book tail) ≡ true → has_item book item ≡ true
        → item_at book number ≡ Some item
        → list_any (nat_eq number) (numbers_there (number_of_tail book tail) (span_rows book))
        ≡ is_at book (Aircraft tail) item }
{}

/// The number of an item is that of an aircraft or of a component that was fitted to it throughout a sector, by the rows
/// of the spans, exactly where the item is credited with the sector.
pub fn numbers_are_of_what_is_credited()
    ensures { (book : List Entry) (sector : Sector) (number : ℕ) (item : Item) → IsBook book
        → is_some (aircraft book sector.tail) ≡ true → has_item book item ≡ true
        → item_at book number ≡ Some item
        → list_any (nat_eq number) (numbers_flown book sector) ≡ is_credited book item sector }
{}

/// The totals with a new sector, whenever it was flown: those of its aircraft and of the components that were fitted to
/// it throughout, by the rows of the spans, are credited with it, and the clock of the aircraft is raised to its landing;
/// no other total changes.
pub fn sectors_change_totals()
    ensures { (book : List Entry) (doc : List ℕ) (sector : Sector) → IsBook book
        → judge book (entry_of doc (Flown sector)) ≡ New → act_shape (Flown sector) ≡ true
        → total_rows (book ++ entry_of doc (Flown sector) ∷ [])
        ≡ map (raised_row (number_of_tail book sector.tail) sector.on)
        (map (credited_row (numbers_flown book sector) sector) (total_rows book)) }
{}

/// The totals with a sector that takes off by the clock of its airframe: those of its aircraft and of the components that
/// are fitted to it, by the rows of the spans, are credited with it, and the clock of the aircraft is set to its landing;
/// no other total changes.
pub fn sectors_in_order_change_totals()
    ensures { (book : List Entry) (doc : List ℕ) (sector : Sector) → IsBook book
        → judge book (entry_of doc (Flown sector)) ≡ New → act_shape (Flown sector) ≡ true
        → clock book (Airframe sector.tail) ≤ sector.off
        → total_rows (book ++ entry_of doc (Flown sector) ∷ [])
        ≡ map (set_row (number_of_tail book sector.tail) sector.on)
        (map (credited_row (numbers_fitted book sector) sector) (total_rows book)) }
{}

/// The totals that a sector touches which takes off by the clock of its airframe are those of its aircraft and of what is
/// fitted to it.
pub fn sectors_in_order_touch_what_is_there()
    ensures { (book : List Entry) (doc : List ℕ) (sector : Sector) → IsBook book
        → judge book (entry_of doc (Flown sector)) ≡ New → act_shape (Flown sector) ≡ true
        → clock book (Airframe sector.tail) ≤ sector.off
        → filter (is_among (numbers_touched book (Flown sector))) (total_rows book)
        ≡ filter (is_among (numbers_fitted book sector)) (total_rows book) }
{}

/// The totals with a new release: the clock of its place becomes its moment, and nothing else changes.
pub fn releases_set_a_clock()
    ensures { (book : List Entry) (doc : List ℕ) (release : Release) (lines : List Line)
        → IsBook book
        → judge book (entry_of doc (Released release lines)) ≡ New
        → act_shape (Released release lines) ≡ true
        → total_rows (book ++ entry_of doc (Released release lines) ∷ [])
        ≡ map (set_row (number_of_place book release.place) release.moment) (total_rows book) }
{}

/// The place of a new release has one total.
pub fn a_place_has_one_total()
    ensures { (book : List Entry) (doc : List ℕ) (release : Release) (lines : List Line)
        → IsBook book
        → judge book (entry_of doc (Released release lines)) ≡ New
        → length (filter (λ (row : TotalRow). nat_eq row.item (number_of_place book release.place))
        (total_rows book)) ≡ 1 }
{}

/// The totals and spans that a new command touches are those with the numbers that it names, by the rows of the book; the
/// others stay as they are.
pub fn other_rows_stay()
    ensures totals { (book : List Entry) (entry : Entry) → IsBook book → judge book entry ≡ New
        → AllByRecursion (λ (row : TotalRow). is_among (numbers_touched book entry.act) row ≡ false
        → total_changed book entry.act row ≡ row) (total_rows book) }
    ensures spans { (book : List Entry) (act : Act) (row : SpanRow)
        → is_span_touched book act row ≡ false → span_ended book act row ≡ row }
{}
