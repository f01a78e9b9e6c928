//! Laws of the accomplishments as rows. Each function does nothing; its contract is the law, and the checker proves it.
ghost use Rattle.std.specs.Prelude.{◌≡◌, ◌+◌, ◌≤◌, ◌<◌, ℕ, length, List, [], ◌∷◌, ◌++◌, All, None, Some, IsPermutation, filter, is_some, map, nat_eq, true, false};
ghost use Rattle.std.specs.List.{list_any};
ghost use Rattle.mx_base.specs.declared.rows.rows.DoneRow.{DoneRow};
ghost use Rattle.mx_base.specs.rows.Rising.{IsRising};
ghost use Rattle.mx_base.specs.rows.Rows.{FitsDone, line_key};
ghost use Rattle.mx_book.specs.commands.Act.{Act, Entry, Flown};
ghost use Rattle.mx_book.specs.commands.Bounds.{are_distinct};
ghost use Rattle.mx_book.specs.commands.Shape.{act_shape, has_shape};
ghost use Rattle.mx_book.specs.declared.commands.item.Item.{Item};
ghost use Rattle.mx_book.specs.declared.commands.item.Item.TheVariants.{Airframe};
ghost use Rattle.mx_book.specs.declared.commands.sector.Sector.{Sector};
ghost use Rattle.mx_book.specs.Base.{base};
ghost use Rattle.mx_book.specs.Book.{IsBook};
ghost use Rattle.mx_book.specs.Judge.{judge};
ghost use Rattle.mx_book.specs.Life.{clock};
ghost use Rattle.mx_book.specs.Register.{aircraft};
ghost use Rattle.mx_book.specs.declared.verdict.Verdict.TheVariants.{New};
ghost use Rattle.mx_registers.specs.Names.{has_item, item_at};
ghost use Rattle.mx_registers.specs.kept.Bases.{base_in, base_rows};
ghost use Rattle.mx_registers.specs.kept.Becomes.{BecomesSome};
ghost use Rattle.mx_registers.specs.kept.Changes.{entry_of, sectors_late};
ghost use Rattle.mx_registers.specs.kept.Fits.{FitRegisters};
ghost use Rattle.mx_registers.specs.kept.Items.{number_of_tail};
ghost use Rattle.mx_registers.specs.kept.Spans.{span_rows};
ghost use Rattle.mx_registers.specs.kept.Totals.{numbers_during, numbers_flown};
ghost use Rattle.mx_book.specs.due.Moved.{moved};
ghost use Rattle.mx_registers.specs.late.Done.{AreDoneOnce, IsWithinLife, credited_late, done_become, done_by, done_moved, done_rows, done_rows_of, is_done_of, last_base, rebased, valued};

/// The rows of a task of the item with a number, among all accomplishments, are those of the task, in their order.
pub fn rows_of_a_task()
    ensures { (book : List Entry) (number : ℕ) (item : Item) (id : List ℕ) → IsBook book
        → item_at book number ≡ Some item
        → filter (is_done_of number id) (done_rows book) ≡ done_rows_of book number item id }
{}

/// The base in the last row of a task of an item is the task's last base, there is a row where there is a base, and what
/// the rows of the last bases have of it is that of its last row.
pub fn last_rows_have_the_bases()
    ensures base { (book : List Entry) (number : ℕ) (item : Item) (id : List ℕ)
        → last_base (done_rows_of book number item id) ≡ base book item id }
    ensures rows { (book : List Entry) (number : ℕ) (item : Item) (id : List ℕ) → IsBook book
        → item_at book number ≡ Some item
        → base_in (base_rows book) number id
        ≡ last_base (filter (is_done_of number id) (done_rows book)) }
{}

/// Which rows there are: no two of one task of one item on one line of one entry; those of a task rise by the numbers of
/// their entries and then by their lines; and rows that agree on each task of each item are the same in some order.
pub fn accomplishments_stand_by_tasks()
    ensures once { (book : List Entry) → IsBook book → AreDoneOnce (done_rows book) }
    ensures rising { (book : List Entry) (number : ℕ) (item : Item) (id : List ℕ) → IsBook book
        → IsRising (λ (row : DoneRow). line_key row.seq row.line) (line_key 1 0)
        (done_rows_of book number item id) (line_key (length book + 1) 0) }
    ensures decided { (rows others : List DoneRow)
        → ((number : ℕ) (id : List ℕ)
        → filter (is_done_of number id) rows ≡ filter (is_done_of number id) others)
        → IsPermutation rows others }
{}

/// Rows that say of item, task, entry, line and value what those of a task of an item do become these, due and base anew,
/// whatever due and base they have.
pub fn rows_are_rebased()
    ensures { (book : List Entry) (number : ℕ) (item : Item) (id : List ℕ) (rows : List DoneRow)
        → map valued rows ≡ map valued (done_rows_of book number item id)
        → rebased book item id None rows ≡ done_rows_of book number item id }
{}

/// A new command that gives an item no sector late adds to the rows of each task of the item those of what it
/// accomplishes: an opening what it states, a release for each line that certifies the task what the item has reached,
/// with the due by the programme in force at the place. The rows before them stay.
pub fn accomplishments_are_added()
    ensures { (book : List Entry) (doc : List ℕ) (act : Act) (number : ℕ) (item : Item)
        (id : List ℕ) → IsBook book → judge book (entry_of doc act) ≡ New → act_shape act ≡ true
        → item_at book number ≡ Some item → sectors_late book item act ≡ []
        → done_rows_of (book ++ entry_of doc act ∷ []) number item id
        ≡ done_rows_of book number item id ++ filter (is_done_of number id) (done_by book act) }
{}

/// The accomplishments with a new sector, whenever it was flown: its minutes and cycles are added to the value of each
/// whose item is credited with it and whose release was not before its landing, and to no other. With these values due
/// and base of each follow anew, by the programmes of their releases; or by the rows alone, since no task that is
/// certified retires its item: the due of each is moved as far as the base of the row before it. The rows of an item
/// that is not credited with the sector stay.
pub fn sectors_change_values()
    ensures values { (book : List Entry) (doc : List ℕ) (sector : Sector) (number : ℕ) (item : Item)
        (id : List ℕ) → IsBook book → judge book (entry_of doc (Flown sector)) ≡ New
        → act_shape (Flown sector) ≡ true → has_item book item ≡ true
        → item_at book number ≡ Some item
        → map valued (map (credited_late book (numbers_flown book sector) sector)
        (done_rows_of book number item id))
        ≡ map valued (done_rows_of (book ++ entry_of doc (Flown sector) ∷ []) number item id) }
    ensures rebased { (book : List Entry) (doc : List ℕ) (sector : Sector) (number : ℕ) (item : Item)
        (id : List ℕ) → IsBook book → judge book (entry_of doc (Flown sector)) ≡ New
        → act_shape (Flown sector) ≡ true → has_item book item ≡ true
        → item_at book number ≡ Some item
        → rebased (book ++ entry_of doc (Flown sector) ∷ []) item id None
        (map (credited_late book (numbers_flown book sector) sector)
        (done_rows_of book number item id))
        ≡ done_rows_of (book ++ entry_of doc (Flown sector) ∷ []) number item id }
    ensures moved { (book : List Entry) (doc : List ℕ) (sector : Sector) (number : ℕ) (item : Item)
        (id : List ℕ) → IsBook book → judge book (entry_of doc (Flown sector)) ≡ New
        → act_shape (Flown sector) ≡ true → has_item book item ≡ true
        → item_at book number ≡ Some item
        → moved None None (map (credited_late book (numbers_flown book sector) sector)
        (done_rows_of book number item id))
        ≡ done_rows_of (book ++ entry_of doc (Flown sector) ∷ []) number item id }
    ensures left { (book : List Entry) (doc : List ℕ) (sector : Sector) (number : ℕ) (item : Item)
        (id : List ℕ) → IsBook book → judge book (entry_of doc (Flown sector)) ≡ New
        → act_shape (Flown sector) ≡ true → has_item book item ≡ true
        → item_at book number ≡ Some item
        → list_any (nat_eq number) (numbers_flown book sector) ≡ false
        → done_rows_of (book ++ entry_of doc (Flown sector) ∷ []) number item id
        ≡ done_rows_of book number item id }
{}

/// The table of accomplishments with a new command, whichever it is.
pub fn accomplishments_become()
    ensures { BecomesSome done_rows done_become }
{}

/// A sector that takes off by the clock of its airframe changes no accomplishment.
pub fn sectors_in_order_leave_accomplishments()
    ensures { (book : List Entry) (doc : List ℕ) (sector : Sector) → IsBook book
        → judge book (entry_of doc (Flown sector)) ≡ New → act_shape (Flown sector) ≡ true
        → clock book (Airframe sector.tail) ≤ sector.off
        → done_rows (book ++ entry_of doc (Flown sector) ∷ []) ≡ done_rows book }
{}

/// Accomplishments fit their columns where the rows of the registers do, and value and base of each are within the life of an
/// item and the calendar, also with a new sector: a row that a sector takes past them is of no book, and so damaged.
pub fn accomplishments_fit()
    ensures fits { (book : List Entry) → IsBook book → FitRegisters book
        → All FitsDone (done_rows book) }
    ensures within { (book : List Entry) → IsBook book → FitRegisters book
        → All IsWithinLife (done_rows book) }
    ensures credited { (book : List Entry) (doc : List ℕ) (sector : Sector) → IsBook book
        → judge book (entry_of doc (Flown sector)) ≡ New
        → has_shape (entry_of doc (Flown sector)) ≡ true
        → FitRegisters (book ++ entry_of doc (Flown sector) ∷ [])
        → All IsWithinLife (done_moved book (Flown sector) (done_rows book)) }
{}

/// The numbers of an aircraft and of the components that were fitted to it throughout a flight are distinct, so that each
/// is credited once.
pub fn numbers_are_credited_once()
    ensures { (book : List Entry) (tail : List ℕ) (off on : ℕ) → IsBook book
        → is_some (aircraft book tail) ≡ true → off < on
        → are_distinct nat_eq (numbers_during (number_of_tail book tail) off on (span_rows book))
        ≡ true }
{}
